// Where a commit stands, and what the log answers.
use blocks::{DiskFault, SyncFault};
use model::types::Why;

/// What the next step of a commit does (the xv6 book, the chapter "File system": "Code:
/// logging", commit).
#[derive(Clone, Copy, Debug)]
pub enum Commit {
    /// No commit is under way.
    Quiet,
    /// The log block of the home at this place, from 0.
    Logging(u32),
    /// The header with the homes: with this write the group is committed, unless the disk holds it
    /// back.
    Heading,
    /// The home at this place, from 0.
    Homing(u32),
    /// The empty header.
    Clearing,
    /// Nothing: over a disk that holds writes back, the sync after this part is next.
    Syncing(Part),
}

/// A part of a commit, after which a disk that holds writes back is synced.
#[derive(Clone, Copy, Debug)]
pub enum Part {
    /// The log blocks.
    Log,
    /// The header with the homes: with its sync the group is committed.
    Header,
    /// The homes.
    Homes,
    /// The empty header.
    Clear,
}

/// What `begin` answers.
#[derive(Clone, Copy, Debug)]
pub enum Began {
    /// The operation is open, and belongs to the group of this number, from 1.
    Began(u64),
    /// Nothing was changed, and the caller has to wait.
    Sleeping(Why),
}

/// What `end` answers.
#[derive(Clone, Copy, Debug)]
pub enum Ended {
    /// There is nothing to commit, or not yet.
    Left,
    /// The group is closed, and its commit begins.
    Commit,
}

/// What a step of a commit answers.
#[derive(Clone, Copy, Debug)]
pub enum Committed {
    /// There is more to write, or to sync.
    More,
    /// The group of this number is committed: from now on recovery gives it. There is more to
    /// write.
    Durable(u64),
    /// The commit is at its end.
    Done,
    /// The disk failed. Buffers and log are as before the step.
    Fault(DeviceFault),
}

/// A call of the disk that failed.
#[derive(Clone, Copy, Debug)]
pub enum DeviceFault {
    /// A read or a write.
    Block(DiskFault),
    /// A sync.
    Sync(SyncFault),
}
