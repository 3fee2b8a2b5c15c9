//! The images that the runs of a script may leave, and the files that they have to have.
//!
//! A run begins with a new image in memory. What it leaves is recovered, by its code twice, and
//! compared with the files that a plain program gets from the journal's operations of the committed
//! groups; of a disk that holds writes back each image is, that a choice of the held writes leaves.
//!
//! No player and no schedule is known here.
#![tactic(auto)]

mod choices;
mod fault;
mod files;
mod images;
mod mismatch;
mod telling;

pub use choices::{Due, try_choices};
pub use fault::StopsFault;
pub use files::{cause_in, kept_files};
pub use images::{is_want_of_memory, new_image};
pub use mismatch::{Cause, Choice, Mismatch, Stop};
pub use telling::print_mismatch;
