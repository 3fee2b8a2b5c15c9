//! The disk in a file that a command opens, and what is known where it was refused.
//!
//! A command of a program as a value, with a refusal of its own. It does itself by one trait, which
//! says what it comes to, and ends with the exit status. A command over any disk is one over the disk
//! in a file, too.
//!
//! And the command lines of a text, for programs that do the commands of each one after the other.
#![tactic(auto)]

pub mod batch;
mod command;
mod files;
mod input;
mod locks;
mod opened;

pub use batch::{read_text, script_of};
pub use command::{Command, end, perform};
pub use files::{DiskCommand, OnFile, OverFile, run_over};
pub use input::{InputFault, input_unread};
pub use locks::{Locking, Locks, Share, fault_of, is_at, is_held_at, open_held};
pub use opened::{Access, disk_over, freshen, open_for, open_image, open_to_look};
