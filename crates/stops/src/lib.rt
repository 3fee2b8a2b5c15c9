//! The check of one given script at each of its stops.
//!
//! The operations are made in the turns of a schedule, as a replay makes them, over a new image in
//! memory: once whole, and once for each write that the whole run made, stopped before it. Each of
//! these runs leaves an image. It is recovered, by its code twice, and has to have the files that a
//! plain program gets from the journal's operations of the committed groups.
//!
//! The recovery theorem says of the kernel that each image passes, but for a stop before the write
//! of a header: there it allows one group more, for it speaks of any disk. This check asks for
//! exactly the committed groups, and is passed only where all images have their files.
//!
//! A run begins anew for each stop, and takes the memory that it needs. No file is opened here.
#![tactic(auto)]

mod held_trial;
mod holding;
mod running;
mod stopping;
mod trial;
mod tried;

pub use stopping::check_stops;
pub use tried::at_of;
