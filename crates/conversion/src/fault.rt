// Why an image was not converted.
ghost use Rattle.std.specs.Prelude.{◌≡◌};

use blocks::{DiskFault, NoMemory};
use model::types::CheckFault;
use std::alloc::AllocFailed;
use thiserror::Error;

/// Why an image was not converted.
#[derive(Clone, Copy, Debug, PartialEq, Eq, Error)]
pub enum ConversionFault {
    /// The superblock has another magic number than that of xv6's images.
    #[error("the superblock does not have the magic number of xv6")]
    BadMagic,
    /// The image has fewer than two blocks, or its superblock is not that of an xv6 image of its size
    /// whose log has 11 to 31 blocks.
    #[error("the superblock is not that of an xv6 image of this size")]
    BadGeometry,
    /// The log isn't empty: it has so many blocks, as its header says. Its own kernel has to write them
    /// home first.
    #[error("the log has {0} blocks that its own kernel has to write home first")]
    Logged(u32),
    /// The size asked for has no room for the blocks that there are, or is over 8191; or the blocks that
    /// there are would be more than 8191.
    #[error("the size has no room for the image, or is over 8191")]
    SizeRange,
    /// The image isn't sound. `convert` tells the fault of the new one: a block's number is that in it,
    /// and in the old one it is less by as many as the log was shorter. `shorten` tells that of the old
    /// one, or of its check.
    #[error("the image is not sound: {0}")]
    Unsound(CheckFault),
    /// This block of the old image can't be read.
    #[error("block {0} of the old image can't be read")]
    Disk(u32),
    /// Memory was refused.
    #[error("memory was refused")]
    NoMemory,
}

impl From<NoMemory> for ConversionFault {
    ghost use Rattle.conversion.specs.declared.fault.ConversionFault.TheVariants as fault;

    ghost from_gives = { λ _ e. e ≡ fault.NoMemory };

    fn from(_refused: NoMemory) -> ConversionFault {
        ConversionFault::NoMemory
    }
}

impl<T: Drop> From<AllocFailed<T>> for ConversionFault {
    ghost use Rattle.conversion.specs.declared.fault.ConversionFault.TheVariants as fault;

    ghost from_gives = { λ _ e. e ≡ fault.NoMemory };

    fn from(_refused: AllocFailed<T>) -> ConversionFault {
        ConversionFault::NoMemory
    }
}

impl From<DiskFault> for ConversionFault {
    ghost use Rattle.conversion.specs.declared.fault.ConversionFault.TheVariants as fault;

    ghost from_gives = { λ failed e. e ≡ fault.Disk failed.0 };

    fn from(failed: DiskFault) -> ConversionFault {
        ConversionFault::Disk(failed.0)
    }
}
