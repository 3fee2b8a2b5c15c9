// Why bytes are not put into an image.
ghost use Rattle.std.specs.Prelude.{◌≡◌};
ghost use Rattle.transfer.specs.Tellings.{put_telling};

use crate::writing_out::WriteFault;
use kernel::OpenFault;
use layout::CheckFault;
use messages::{Reason, Told, Unwritten};
use opening::open_told;
use wal::DeviceFault;

/// Why the bytes of a file aren't put into an image, or its number isn't printed.
#[derive(Clone, Copy, Debug)]
pub enum PutRefusal {
    /// A fault of the image or of its check, or of a read behind the check.
    Check(CheckFault),
    /// There is no file of that number.
    NoFile,
    /// The file of that number is a directory or a device of xv6.
    NotAFile,
    /// A file of the image's form can't have so many bytes.
    TooBig,
    /// The image has too few free blocks for them.
    Full,
    /// Memory was refused, but not to the opening of a kernel.
    NoMemory,
    /// No kernel is opened over the disk. A fault of the check or of the recovery inside is told as
    /// its own layer's.
    Unopened(OpenFault),
    /// No inode number is free.
    NoInode,
    /// The disk failed in a call, or in the sync at the end.
    Disk(DeviceFault),
    /// The output can't be written.
    Output,
}

impl Reason for PutRefusal {
    ghost telling = { put_telling };

    fn told(&self) -> Told {
        match self {
            PutRefusal::Check(fault) => fault.told(),
            PutRefusal::NoFile => Told::new("put", 1, "NoFile"),
            PutRefusal::NotAFile => Told::new("put", 7, "NotAFile"),
            PutRefusal::NoInode => Told::new("put", 2, "NoInode"),
            PutRefusal::TooBig => Told::new("put", 3, "TooBig"),
            PutRefusal::Full => Told::new("put", 4, "Full"),
            PutRefusal::NoMemory => Told::new("put", 5, "NoMemory"),
            PutRefusal::Unopened(fault) => open_told(fault),
            PutRefusal::Disk(fault) => fault.told(),
            PutRefusal::Output => Unwritten.told(),
        }
    }
}

impl From<CheckFault> for PutRefusal {
    ghost use Rattle.transfer.specs.declared.refused.PutRefusal.TheVariants as put;

    ghost from_gives = { λ fault r. r ≡ put.Check fault };

    fn from(fault: CheckFault) -> PutRefusal {
        PutRefusal::Check(fault)
    }
}

impl From<WriteFault> for PutRefusal {
    ghost use Rattle.transfer.specs.Written.{device_fault};
    ghost use Rattle.transfer.specs.declared.refused.PutRefusal.TheVariants as put;

    ghost from_gives = { λ failed r. r ≡ put.Disk (device_fault failed) };

    fn from(failed: WriteFault) -> PutRefusal {
        match failed {
            WriteFault::Block(fault) => PutRefusal::Disk(DeviceFault::Block(fault)),
            WriteFault::Sync(fault) => PutRefusal::Disk(DeviceFault::Sync(fault)),
        }
    }
}
