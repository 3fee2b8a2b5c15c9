// What a step does, as the layers that make it tell it.
ghost use Rattle.std.specs.Prelude.{◌≡◌};
ghost use Rattle.wal.specs.Deeds.{with_block};

use crate::Part;

/// What a step of a commit does.
#[derive(Clone, Copy, Debug)]
pub enum CommitDeed {
    /// It writes the log block at this place, from 0, of that home.
    LogBlock { place: u32, home: u32 },
    /// It writes the header, which names so many homes of the group of this number.
    Header { count: u32, group: u64 },
    /// It writes this block home.
    Home { block: u32 },
    /// It writes the empty header.
    Clear,
    /// It syncs the disk behind this part.
    Sync(Part),
}

/// What a step of an operation's task does.
#[derive(Clone, Copy, Debug)]
pub enum TaskDeed {
    /// It takes a reference to the inode of this number.
    Reference(u32),
    /// It takes the lock of the inode of this number, at that place of the table.
    Lock { number: u32, place: usize },
    /// It gets this block.
    Get(u32),
    /// It uses this block, which it got or kept.
    Use(u32),
    /// It looks at the inode in this block, which it got.
    Look(u32),
    /// It gives out what was read, and gives the inode's lock and reference up.
    Finish,
    /// It gives the inode's lock and reference up.
    Put,
}

/// What a step of a process does.
#[derive(Clone, Copy, Debug)]
pub enum Deed {
    /// It begins the operation that waits, if one does and it may.
    Begin,
    /// A step of the operation's task.
    Task(TaskDeed),
    /// It ends the operation in the log.
    End,
    /// A step of the commit of its group.
    Commit(CommitDeed),
}

impl TaskDeed {
    /// What a step with this block does: it gets it, or uses it in the slot where it was got.
    pub fn with_block(block: u32, slot: Option<u32>) -> TaskDeed
        ensures { result ≡ with_block slot block }
    {
        match slot {
            None => TaskDeed::Get(block),
            Some(_) => TaskDeed::Use(block),
        }
    }
}
