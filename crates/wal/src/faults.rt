// Why a recovery ends without success.
ghost use Rattle.std.specs.Prelude.{◌≡◌};

use blocks::{DiskFault, NoMemory, SyncFault};
use thiserror::Error;

/// Why a recovery was not done, or not to its end.
#[derive(Clone, Copy, Debug, Error)]
pub enum RecoverFault {
    /// The disk failed.
    #[error("the disk failed")]
    Disk,
    /// The log's header is none that a log writes.
    #[error("the log's header is not lawful")]
    BadLog,
    /// Memory was refused.
    #[error("memory was refused")]
    NoMemory,
    /// A sync of the disk failed.
    #[error("the disk failed to sync")]
    Sync,
}

impl From<NoMemory> for RecoverFault {
    ghost use Rattle.wal.specs.declared.faults.RecoverFault.TheVariants as fault;

    ghost from_gives = { λ _ e. e ≡ fault.NoMemory };

    fn from(_refused: NoMemory) -> RecoverFault {
        RecoverFault::NoMemory
    }
}

impl From<DiskFault> for RecoverFault {
    ghost use Rattle.wal.specs.declared.faults.RecoverFault.TheVariants as fault;

    ghost from_gives = { λ _ e. e ≡ fault.Disk };

    fn from(_failed: DiskFault) -> RecoverFault {
        RecoverFault::Disk
    }
}

impl From<SyncFault> for RecoverFault {
    ghost use Rattle.wal.specs.declared.faults.RecoverFault.TheVariants as fault;

    ghost from_gives = { λ _ e. e ≡ fault.Sync };

    fn from(_failed: SyncFault) -> RecoverFault {
        RecoverFault::Sync
    }
}
