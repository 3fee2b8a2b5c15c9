// Why a copy was not made.
ghost use Rattle.std.specs.Prelude.{◌≡◌};
ghost use Rattle.transfer.specs.Tellings.{copy_telling};

use blocks::{DiskFault, NoMemory, SyncFault};
use calls::CallFault;
use layout::{CheckFault, MkfsFault};
use messages::{Reason, Told};
use std::alloc::AllocFailed;
use thiserror::Error;

/// Why the files of an image were not copied.
#[derive(Clone, Copy, Debug, Error)]
pub enum CopyFault {
    /// The old image has this fault, or could not be checked.
    #[error("the old image can't be used: {0}")]
    Old(CheckFault),
    /// The old image is not of the first form.
    #[error("the old image is not of the first form")]
    NotFirst,
    /// No new image was made.
    #[error("no new image was made: {0}")]
    Mkfs(MkfsFault),
    /// The files don't fit: those up to this number need more blocks than the new image has for data.
    #[error("the new image has no room for file {0}")]
    Full(u32),
    /// They fit, and yet no block was free for all bytes of the file of this number: blocks of the
    /// new image are used that no file needs.
    #[error("the new image lost blocks before file {0}")]
    Leaked(u32),
    /// Memory was refused.
    #[error("memory was refused")]
    NoMemory,
    /// One of the disks failed.
    #[error("a disk failed")]
    Disk,
}

/// What is wrong with the old image, or with the size of the new one, is told as the check's or as
/// that of the making.
impl Reason for CopyFault {
    ghost telling = { copy_telling };

    fn told(&self) -> Told {
        match self {
            CopyFault::Old(fault) => fault.told(),
            CopyFault::NotFirst => Told::new("copy", 2, "NotFirst"),
            CopyFault::Mkfs(fault) => fault.told(),
            CopyFault::Full(number) => Told::naming("copy", 4, "Full", *number),
            CopyFault::Leaked(number) => Told::naming("copy", 8, "Leaked", *number),
            CopyFault::NoMemory => Told::new("copy", 5, "NoMemory"),
            CopyFault::Disk => Told::new("copy", 6, "Disk"),
        }
    }
}

impl From<NoMemory> for CopyFault {
    ghost use Rattle.transfer.specs.declared.fault.CopyFault.TheVariants as fault;

    ghost from_gives = { λ _ e. e ≡ fault.NoMemory };

    fn from(_refused: NoMemory) -> CopyFault {
        CopyFault::NoMemory
    }
}

impl<T: Drop> From<AllocFailed<T>> for CopyFault {
    ghost use Rattle.transfer.specs.declared.fault.CopyFault.TheVariants as fault;

    ghost from_gives = { λ _ e. e ≡ fault.NoMemory };

    fn from(_refused: AllocFailed<T>) -> CopyFault {
        CopyFault::NoMemory
    }
}

impl From<DiskFault> for CopyFault {
    ghost use Rattle.transfer.specs.declared.fault.CopyFault.TheVariants as fault;

    ghost from_gives = { λ _ e. e ≡ fault.Disk };

    fn from(_failed: DiskFault) -> CopyFault {
        CopyFault::Disk
    }
}

impl From<SyncFault> for CopyFault {
    ghost use Rattle.transfer.specs.declared.fault.CopyFault.TheVariants as fault;

    ghost from_gives = { λ _ e. e ≡ fault.Disk };

    fn from(_failed: SyncFault) -> CopyFault {
        CopyFault::Disk
    }
}

impl From<CallFault> for CopyFault {
    ghost use Rattle.transfer.specs.Faults.{fault_of_call};

    ghost from_gives = { λ cause e. e ≡ fault_of_call cause };

    fn from(cause: CallFault) -> CopyFault {
        match cause {
            CallFault::Disk(_) => CopyFault::Disk,
            CallFault::NoMemory => CopyFault::NoMemory,
        }
    }
}
