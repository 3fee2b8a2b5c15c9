// What a trial says of a script that is not right.
use blocks::{DiskFault, NoMemory};
use kernel::OpenFault;
use layout::MkfsFault;
use model::types::CheckFault;
use std::alloc::{AllocError, AllocFailed};
use std::fmt;

/// What is not right.
#[derive(Clone, Copy)]
pub enum What {
    NoMemory,
    Image(CheckFault),
    Opening(OpenFault),
    NoImage,
    DiskFailed,
    DiskDidNotFail,
    FaultUnknown,
    IsOpened,
    NoProcess,
    StepAfterFault,
    NoEnd,
    GroupOpen,
    NoReply,
    WrongReply,
    WrongKeptReply,
    LogLeft,
    OtherFiles,
}

impl What {
    /// That this is so at a place of a trial.
    pub fn at(self, part: Part, number: u64) -> Wrong {
        Wrong {
            part,
            number,
            what: self,
        }
    }

    fn text(self) -> &'static str {
        match self {
            What::NoMemory => "memory was refused",
            What::Image(_) => "the image is not sound",
            What::Opening(_) => "no kernel can be opened",
            What::NoImage => "no image can be made",
            What::DiskFailed => "the disk failed",
            What::DiskDidNotFail => "the disk did not fail",
            What::FaultUnknown => "a fault is not known",
            What::IsOpened => "a kernel is opened",
            What::NoProcess => "a process too many",
            What::StepAfterFault => "a step after a fault",
            What::NoEnd => "it doesn't end",
            What::GroupOpen => "a group is not committed",
            What::NoReply => "a reply is missing",
            What::WrongReply => "a reply is wrong",
            What::WrongKeptReply => "a kept reply is missing or wrong",
            What::LogLeft => "the log is not empty",
            What::OtherFiles => "the files differ",
        }
    }
}

impl fmt::Display for What {
    fn fmt<W: fmt::Write>(&self, f: &mut fmt::Formatter<W>) -> fmt::Result {
        match self {
            What::Image(fault) => write!(f, "{fault}"),
            What::Opening(fault) => write!(f, "{fault}"),
            what => f.write_str(what.text()),
        }
    }
}

/// Which part of a trial.
#[derive(Clone, Copy)]
pub enum Part {
    /// The image, and the operations that are made before the run.
    Image,
    /// The run that nothing stops.
    Whole,
    /// The stop before the write of this number.
    Stop,
    /// The run whose read, or write, of this number fails.
    OpeningRead,
    Read,
    WriteOld,
    WriteNew,
    /// The stop behind the turn of this number.
    Turn,
    /// The run whose sync of this number fails.
    Sync,
}

impl Part {
    fn text(self) -> &'static str {
        match self {
            Part::Image => "the image, operation",
            Part::Whole => "the whole run, failing write",
            Part::Stop => "stop",
            Part::OpeningRead => "the opening, failing read",
            Part::Read => "failing read",
            Part::WriteOld => "failing write (its block as before)",
            Part::WriteNew => "failing write (its block as handed in)",
            Part::Turn => "stop behind turn",
            Part::Sync => "failing sync",
        }
    }
}

/// Where a trial is not right, and what.
#[derive(Clone, Copy)]
pub struct Wrong {
    part: Part,
    number: u64,
    what: What,
}

impl fmt::Display for Wrong {
    fn fmt<W: fmt::Write>(&self, f: &mut fmt::Formatter<W>) -> fmt::Result {
        let part = self.part.text();
        write!(f, "{part} {}: {}", self.number, self.what)
    }
}

impl From<NoMemory> for What {
    fn from(_refused: NoMemory) -> What {
        What::NoMemory
    }
}

impl From<AllocError> for What {
    fn from(_refused: AllocError) -> What {
        What::NoMemory
    }
}

impl<T: Drop> From<AllocFailed<T>> for What {
    fn from(_refused: AllocFailed<T>) -> What {
        What::NoMemory
    }
}

impl From<DiskFault> for What {
    fn from(_failed: DiskFault) -> What {
        What::DiskFailed
    }
}

impl From<MkfsFault> for What {
    fn from(_fault: MkfsFault) -> What {
        What::NoImage
    }
}

impl From<CheckFault> for What {
    fn from(fault: CheckFault) -> What {
        What::Image(fault)
    }
}

impl From<OpenFault> for What {
    fn from(fault: OpenFault) -> What {
        What::Opening(fault)
    }
}
