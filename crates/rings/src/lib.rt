//! Two rings for each process, made with 16 places each: its operations go through one to the
//! kernel, its answers come back through the other.
//!
//! `rings` makes both ends: the kernel's are a `RingIntake`, and each process has a `Caller`, which
//! may go to a thread of its own. By its code no call of either end takes a lock or waits; that none
//! takes memory is tested. An end
//! learns what the other did when it looks: the kernel's where it asks what waits and whether there
//! is room, the caller's where it hands in and polls. A place that the kernel has seen free stays
//! free until it answers, since nobody else puts answers in.
//!
//! `RingIntake::reconcile` lets both ends see what the other did, where one thread has both.
//! `Caller::finish` and `RingIntake::settle` compare the two ends once the caller is done.
//!
//! A board of two words, which the kernel and its callers share without a lock: how many groups are
//! committed, and whether a shutdown was asked for.
//!
//! The kernel's side is a `BoardHerald`, which has the one `Keeper`: it publishes each commit, and
//! heeds a shutdown. Each caller may have a `Watch`, with which it looks at the count and asks for a
//! shutdown. By its code each use is one atomic step on one word, and none waits. Who has the herald
//! may compare a watch with its keeper (`BoardHerald::compare`, four such steps).
#![tactic(auto)]

mod board;
mod caller;
mod ends;
mod herald;
mod intake;
mod laws;
mod making;
mod name;
mod reconciling;
mod rule;
mod settling;
mod view;

pub use board::{Board, Keeper, Watch};
pub use caller::{Caller, Finished};
pub use herald::BoardHerald;
pub use intake::RingIntake;
pub use laws::{none_asked, some_asked};
pub use making::{PLACES, rings};
pub use name::{Names, RingName};
pub use rule::Ruled;
pub use settling::Settled;
pub use view::View;
