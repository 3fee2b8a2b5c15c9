// What is said of an image that is not judged right.
use blocks::{DiskFault, NoMemory};
use kernel::OpenFault;
use layout::MkfsFault;
use model::types::CheckFault;
use std::alloc::{AllocError, AllocFailed};
use std::fmt;
use wal::RecoverFault;

/// What is not right.
#[derive(Clone, Copy)]
pub enum What {
    /// What the check found, where the plain program found another fault.
    Disagreement(Option<CheckFault>, Option<CheckFault>),
    /// An opening in spite of this fault.
    Opened(CheckFault),
    /// A refusal for the first fault, and not for the second.
    Refused(CheckFault, Option<CheckFault>),
    NotOpened(OpenFault),
    NotRecovered(RecoverFault),
    Image(CheckFault),
    Other(Other),
}

/// What is not right, and needs no numbers.
#[derive(Clone, Copy)]
pub enum Other {
    NoMemory,
    DiskFailed,
    NoImage,
    NoByte,
    NoAddresses,
    NotStopped,
    NoPlace,
    NoStep,
    TooManySteps,
    RefusalWrote,
    OpenedWithLog,
    OpenedBadLog,
    OpenedOther,
    RecoveredBadLog,
    RecoveredOther,
    RefusedGoodLog,
}

impl Other {
    fn text(self) -> &'static str {
        match self {
            Other::NoMemory => "memory was refused",
            Other::DiskFailed => "the disk failed",
            Other::NoImage => "no image can be made",
            Other::NoByte => "the image has no such byte",
            Other::NoAddresses => "no block of addresses",
            Other::NotStopped => "not stopped",
            Other::NoPlace => "no place for an operation",
            Other::NoStep => "a step was not made",
            Other::TooManySteps => "an operation has too many steps",
            Other::RefusalWrote => "what was refused wrote",
            Other::OpenedWithLog => "opened with a log",
            Other::OpenedBadLog => "opened in spite of its log",
            Other::OpenedOther => "opened over another image than the recovered one",
            Other::RecoveredBadLog => "recovered in spite of its log",
            Other::RecoveredOther => "another image was recovered",
            Other::RefusedGoodLog => "not recovered in spite of a lawful log",
        }
    }
}

impl fmt::Display for What {
    fn fmt<W: fmt::Write>(&self, f: &mut fmt::Formatter<W>) -> fmt::Result {
        match self {
            What::Disagreement(found, wanted) => {
                write!(
                    f,
                    "the check answers {found:?}, the plain program {wanted:?}"
                )
            }
            What::Opened(wanted) => write!(f, "opened in spite of {wanted:?}"),
            What::Refused(found, wanted) => {
                write!(f, "refused for {found:?}, and not for {wanted:?}")
            }
            What::NotOpened(fault) => write!(f, "{fault}"),
            What::NotRecovered(fault) => write!(f, "the recovery answers {fault:?}"),
            What::Image(fault) => write!(f, "{fault}"),
            What::Other(other) => f.write_str(other.text()),
        }
    }
}

/// Which image.
#[derive(Clone, Copy)]
pub enum Place {
    /// Those that are hurt, as they are made.
    Whole,
    /// The one in which this byte of this block has this value.
    Byte(u32, usize, u8),
    /// The one that is cut to so many blocks.
    Cut(u32),
    /// That of a seed.
    Seed(u64),
}

/// Which image is not judged right, and what.
#[derive(Clone, Copy)]
pub struct Wrong {
    place: Place,
    what: What,
}

impl What {
    /// That this is so of an image.
    pub fn at(self, place: Place) -> Wrong {
        Wrong { place, what: self }
    }
}

impl fmt::Display for Wrong {
    fn fmt<W: fmt::Write>(&self, f: &mut fmt::Formatter<W>) -> fmt::Result {
        let what = self.what;
        match self.place {
            Place::Whole => write!(f, "as it is made: {what}"),
            Place::Byte(b, at, byte) => write!(f, "block {b}, byte {at} is {byte}: {what}"),
            Place::Cut(size) => write!(f, "cut to {size} blocks: {what}"),
            Place::Seed(seed) => write!(f, "seed {seed}: {what}"),
        }
    }
}

/// Whether a thing is so that has to be.
pub fn ensure(is_so: bool, other: Other) -> Result<(), What> {
    if is_so {
        Ok(())
    } else {
        Err(What::Other(other))
    }
}

impl From<NoMemory> for What {
    fn from(_refused: NoMemory) -> What {
        What::Other(Other::NoMemory)
    }
}

impl From<AllocError> for What {
    fn from(_refused: AllocError) -> What {
        What::Other(Other::NoMemory)
    }
}

impl<T: Drop> From<AllocFailed<T>> for What {
    fn from(_refused: AllocFailed<T>) -> What {
        What::Other(Other::NoMemory)
    }
}

impl From<DiskFault> for What {
    fn from(_failed: DiskFault) -> What {
        What::Other(Other::DiskFailed)
    }
}

impl From<MkfsFault> for What {
    fn from(_fault: MkfsFault) -> What {
        What::Other(Other::NoImage)
    }
}

impl From<CheckFault> for What {
    fn from(fault: CheckFault) -> What {
        What::Image(fault)
    }
}
