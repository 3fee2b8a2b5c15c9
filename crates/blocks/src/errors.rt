// The errors of disks, and of memory.
ghost use Rattle.std.specs.Prelude.{◌≡◌};

use std::alloc::{AllocError, AllocFailed};
use thiserror::Error;

/// The allocator refused memory.
#[derive(Clone, Copy, Debug, Error)]
#[error("memory was refused")]
pub struct NoMemory;

impl From<AllocError> for NoMemory {
    ghost from_gives = { λ _ e. e ≡ record {} };

    fn from(_refused: AllocError) -> NoMemory {
        NoMemory
    }
}

impl<T: Drop> From<AllocFailed<T>> for NoMemory {
    ghost from_gives = { λ _ e. e ≡ record {} };

    fn from(_refused: AllocFailed<T>) -> NoMemory {
        NoMemory
    }
}

/// A read or a write of the block with this number failed.
#[derive(Clone, Copy, Debug, PartialEq, Eq, Error)]
#[error("block {0}: the disk failed")]
pub struct DiskFault(pub u32);

/// A sync failed.
#[derive(Clone, Copy, Debug, PartialEq, Eq, Error)]
#[error("the disk failed to sync")]
pub struct SyncFault;

/// Why a file can't be used as a disk.
#[derive(Clone, Copy, Debug, PartialEq, Eq, Error)]
pub enum FileFault {
    /// The file can't be opened, made, given its length or read.
    #[error("the file can't be opened")]
    Open,
    /// Its length is not a whole number of blocks, from 1 to `MAX_BLOCKS`.
    #[error("the file's length is not that of a disk")]
    Length,
    /// Memory was refused.
    #[error("memory was refused")]
    NoMemory,
    /// Another program holds the file's lock. No function of this crate asks for a lock.
    #[error("another program has the file")]
    Locked,
    /// A new file was asked for, and something has its name.
    #[error("there is such a file")]
    Exists,
    /// The system gives no lock of the file, and that not since another program holds it. No function
    /// of this crate asks for a lock.
    #[error("the file can't be locked")]
    Unlockable,
}

impl From<NoMemory> for FileFault {
    ghost use Rattle.blocks.specs.declared.errors.FileFault.TheVariants.{NoMemory};

    ghost from_gives = { λ _ e. e ≡ NoMemory };

    fn from(_refused: NoMemory) -> FileFault {
        FileFault::NoMemory
    }
}
