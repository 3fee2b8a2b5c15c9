// Why a command over files of the system isn't done.
ghost use Rattle.std.specs.Prelude.{◌≡◌};
ghost use Rattle.messages.specs.Telling.{telling_of};
ghost use Rattle.commands_changes.specs.Refusals.{conversion_telling, copying_telling, putting_telling, reading_telling};

use blocks::FileFault;
use cmd::OnFile;
use conversion::ConversionFault;
use layout::CheckFault;
use messages::{Reason, Told, Unwritten};
use transfer::{CopyFault, PutRefusal};

/// Why the image in a file isn't copied into a new file.
#[derive(Clone, Copy, Debug)]
pub enum CopyRefusal {
    /// The old file can't be used as a disk, or the new one can't be made.
    File(FileFault),
    /// There is a file at the new image's path.
    Exists,
    /// The image on the old disk isn't copied to the new one.
    Of(CopyFault),
    /// The image on the old disk doesn't get a log of another length.
    Unconverted(ConversionFault),
    /// No log has the length that is asked for.
    LogRange,
    /// The output can't be written.
    Output,
}

impl Reason for CopyRefusal {
    ghost telling = { copying_telling };

    fn told(&self) -> Told {
        match self {
            CopyRefusal::File(fault) => fault.told(),
            CopyRefusal::Exists => Told::new("copy", 7, "Exists"),
            CopyRefusal::Of(fault) => fault.told(),
            CopyRefusal::Unconverted(fault) => told_of(fault),
            CopyRefusal::LogRange => Told::new("copy", 10, "LogRange"),
            CopyRefusal::Output => Unwritten.told(),
        }
    }
}

// How it is told that an image isn't converted: as a copy's refusal, or a check's or mkfs's.
fn told_of(fault: &ConversionFault) -> Told
    ensures { telling_of result ≡ conversion_telling fault.now }
{
    match fault {
        ConversionFault::BadMagic => CheckFault::BadMagic.told(),
        ConversionFault::BadGeometry => CheckFault::BadGeometry.told(),
        ConversionFault::Unsound(fault) => fault.told(),
        ConversionFault::Logged(count) => Told::naming("copy", 9, "Logged", *count),
        ConversionFault::SizeRange => Told::new("mkfs", 1, "SizeRange"),
        ConversionFault::NoMemory => Told::new("copy", 5, "NoMemory"),
        ConversionFault::Disk(_) => Told::new("copy", 6, "Disk"),
    }
}

impl From<CopyFault> for CopyRefusal {
    ghost use Rattle.commands_changes.specs.declared.refused.CopyRefusal.TheVariants as copy;

    ghost from_gives = { λ fault r. r ≡ copy.Of fault };

    fn from(fault: CopyFault) -> CopyRefusal {
        CopyRefusal::Of(fault)
    }
}

impl From<FileFault> for CopyRefusal {
    ghost use Rattle.commands_changes.specs.declared.refused.CopyRefusal.TheVariants as copy;

    ghost from_gives = { λ fault r. r ≡ copy.File fault };

    fn from(fault: FileFault) -> CopyRefusal {
        CopyRefusal::File(fault)
    }
}

/// Why the bytes of a file of the system can't be had.
#[derive(Clone, Copy, Debug)]
pub enum ReadFault {
    /// Memory was refused.
    NoMemory,
    /// It can't be read.
    File,
}

impl Reason for ReadFault {
    ghost telling = { reading_telling };

    fn told(&self) -> Told {
        match self {
            ReadFault::NoMemory => Told::new("put", 5, "NoMemory"),
            ReadFault::File => Told::new("put", 6, "File"),
        }
    }
}

/// Why a file of the system isn't put into the image in a file.
#[derive(Clone, Copy, Debug)]
pub enum PutFileRefusal {
    /// Its bytes can't be had.
    Unread(ReadFault),
    /// The image's file can't be used as a disk, or they aren't put into the image.
    Of(OnFile<PutRefusal>),
}

impl Reason for PutFileRefusal {
    ghost telling = { putting_telling };

    fn told(&self) -> Told {
        match self {
            PutFileRefusal::Unread(fault) => fault.told(),
            PutFileRefusal::Of(refusal) => refusal.told(),
        }
    }
}

impl From<ReadFault> for PutFileRefusal {
    ghost use Rattle.commands_changes.specs.declared.refused.PutFileRefusal.TheVariants as put;

    ghost from_gives = { λ fault r. r ≡ put.Unread fault };

    fn from(fault: ReadFault) -> PutFileRefusal {
        PutFileRefusal::Unread(fault)
    }
}
