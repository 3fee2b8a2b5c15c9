//! The kernel's two ports: where its operations come from and its answers go, and whom it tells of
//! what is committed; and plain ones over memory.
//!
//! The kernel calls each trait, and nobody else does while the kernel has the port. An `Intake` is
//! asked in this order: `next`, which shows the operation that waits for a process and leaves it;
//! `room`, which keeps a place for one answer; `take`, which hands over the operation that `next`
//! showed; and, at the operation's end, `answer`, into the place that was kept. So no operation is
//! taken whose answer would have no place. A `Herald` is told of each committed group, in order
//! and once (`durable`), and is asked for a shutdown (`is_shut`) before an operation begins.
//!
//! The processes are at the other side, by calls that a port has beside its trait. Those of
//! `QueueIntake` are `submit`, which puts an operation behind those that wait, and `poll`, which
//! takes the oldest answer.
//!
//! What stays kept: the kernel's calls for one process leave those of the others as they are. An
//! operation that waits stays first, and a place stays kept, until they are used. A port needn't
//! store what left it: `fits` ties it to the history that the kernel keeps. The kernel's calls change
//! neither an intake's name nor a herald's board.
#![tactic(auto)]

mod herald;
mod intake;
mod lane;
mod queues;

pub use herald::{Herald, PlainHerald};
pub use intake::Intake;
pub use queues::{PLACES, QueueIntake};
