//! The log: groups of changed blocks that reach the disk together, or not at all, and the recovery
//! of what a crash cut short (the xv6 book, the chapter "File system": "Logging layer").
//!
//! An operation that changes blocks stands between `begin` and `end`. It logs each block before it
//! changes it, at most ten of them. A logged block is pinned in the cache; neither the log on the
//! disk nor the block's home there knows of it yet.
//!
//! Operations that are open at the same time belong to one group. The `end` of the last of them
//! closes the group, and its commit starts; so a group never holds half of an operation. Who made
//! that `end` is answered `Commit`, and makes the commit's writes, one with each `commit_step`. A
//! group that logged nothing is committed at once.
//!
//! The log lets an operation wait at its `begin` alone: while a commit is under way (`Committing`),
//! or where the homes, and ten blocks for each open operation and for this one, are over 30
//! (`LogFull`). So an operation that has begun always has its room.
//!
//! On the disk the header is block 2: how many blocks are logged, and their homes. The logged
//! blocks follow, in the order of the homes. A commit of n blocks is 2n + 2 writes: the log blocks,
//! the header, the homes, an empty header.
//!
//! The header's write commits the group. A stop before it leaves nothing of the group; a stop after
//! it leaves all of it, since `recover` copies the logged blocks to their homes and then empties
//! the header. A stop during that is recovered to the same image.
//!
//! A disk may hold writes back, so that a stop loses any of those since the last sync. It is synced
//! behind each of the four parts, with a `commit_step` each, and by `recover` at its start, behind
//! the homes and behind the header. So no write that is held is in front of what it rests on. There
//! the sync behind the header commits the group: until then a stop keeps it exactly where the header
//! got through.
#![tactic(auto)]

mod deeds;
mod faults;
mod log;
mod recovery;
mod types;
mod volume;

pub use deeds::{CommitDeed, Deed, TaskDeed};
pub use faults::RecoverFault;
pub use log::Log;
pub use recovery::recover;
pub use types::{Began, Commit, Committed, DeviceFault, Ended, Part};
pub use volume::Volume;
