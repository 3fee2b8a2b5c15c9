// What a check of an image answers.
use blocks::{DiskFault, NoMemory};
use thiserror::Error;

/// The first fault of an image, or what kept a check from an answer.
#[derive(Clone, Copy, Debug, PartialEq, Eq, Error)]
pub enum CheckFault {
    #[error("the superblock has another magic number")]
    BadMagic,
    #[error("the superblock is not that of an image of this size")]
    BadGeometry,
    #[error("the log's header is not lawful")]
    BadLog,
    #[error("inode {0} has a type over 3")]
    BadType(u32),
    #[error("inode {0} is longer than a file can be")]
    BadSize(u32),
    #[error("inode {0} lacks an address, or has one outside the data blocks")]
    BadAddress(u32),
    #[error("block {0} is at two places")]
    TwiceUsed(u32),
    #[error("block {0} is used, and the bitmap says that it is free")]
    UsedButFree(u32),
    #[error("block {0} is at no place, and the bitmap says that it is used")]
    LostBlock(u32),
    #[error("the disk failed")]
    Disk,
    #[error("memory was refused")]
    NoMemory,
}

impl From<NoMemory> for CheckFault {
    ghost use Rattle.std.specs.Prelude.{◌≡◌};
    ghost use Rattle.model.specs.declared.types.fault.CheckFault.TheVariants as fault;

    ghost from_gives = { λ _ e. e ≡ fault.NoMemory };

    fn from(_: NoMemory) -> CheckFault {
        CheckFault::NoMemory
    }
}

impl From<DiskFault> for CheckFault {
    ghost use Rattle.std.specs.Prelude.{◌≡◌};
    ghost use Rattle.model.specs.declared.types.fault.CheckFault.TheVariants as fault;

    ghost from_gives = { λ _ e. e ≡ fault.Disk };

    fn from(_: DiskFault) -> CheckFault {
        CheckFault::Disk
    }
}
