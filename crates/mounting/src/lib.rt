//! The files of a tree as a mount of Linux asks for them: one request of FUSE after the other, and
//! one answer to each that wants one. A file has as its number there that of its inode.
//!
//! An image has no place for times, owners and modes. What is told of them is kept while the mount
//! lasts. A file whose last name is removed while a program has it open gets a name aside in the root,
//! which no program sees; it goes when it is closed, or at the next mount.
#![tactic(auto)]

mod answering;
mod calling;
mod changes;
mod errno;
mod files;
pub mod laws;
mod listings;
mod looks;
mod nodes;
mod serving;
mod terms;

pub use errno::Errno;
pub use serving::{MOST, Served, Server};
pub use terms::{Moment, Terms};
