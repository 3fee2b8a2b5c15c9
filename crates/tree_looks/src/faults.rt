// Why a look at files by their paths isn't done.
ghost use Rattle.std.specs.Prelude.{◌≡◌};
ghost use Rattle.messages.specs.Telling.{telling_of};
ghost use Rattle.tree_looks.specs.Tellings.{get_telling, look_telling, path_telling, refusal_telling};

use blocks::FileFault;
use cmd::OnFile;
use directories::{PathFault, Refusal};
use layout::CheckFault;
use messages::{Reason, Told, Unwritten};

/// Why a look at files isn't done.
#[derive(Clone, Copy, Debug)]
pub enum LookRefusal {
    /// A fault of the image or of its check, or of a read behind it.
    Check(CheckFault),
    /// The files are no tree of directories.
    NoTree,
    /// The path is none.
    Path(PathFault),
    /// The files refuse it.
    Refused(Refusal),
    /// Memory was refused after the check.
    NoMemory,
    /// The output can't be written.
    Output,
}

impl Reason for LookRefusal {
    ghost telling = { look_telling };

    fn told(&self) -> Told {
        match self {
            LookRefusal::Check(fault) => fault.told(),
            LookRefusal::NoTree => Told::new("names", 13, "NoTree"),
            LookRefusal::Path(fault) => path_told(fault),
            LookRefusal::Refused(refusal) => refusal_told(refusal),
            LookRefusal::NoMemory => Told::new("names", 16, "NoMemory"),
            LookRefusal::Output => Unwritten.told(),
        }
    }
}

/// Why a file of an image isn't copied into a new file of the system.
#[derive(Clone, Copy, Debug)]
pub enum GetRefusal {
    /// The new file can't be made.
    Made(FileFault),
    /// The image's file can't be used as a disk, or the file can't be read in it.
    Of(OnFile<LookRefusal>),
    /// A name in the image can't be that of a file of the system.
    BadName,
    /// The new file can't be written, and is none.
    Output,
}

impl Reason for GetRefusal {
    ghost telling = { get_telling };

    fn told(&self) -> Told {
        match self {
            GetRefusal::Made(fault) => fault.told(),
            GetRefusal::Of(refusal) => refusal.told(),
            GetRefusal::BadName => Told::new("names", 19, "BadName"),
            GetRefusal::Output => Unwritten.told(),
        }
    }
}

/// How it is told why bytes are no path.
pub fn path_told(fault: &PathFault) -> Told
    ensures { telling_of result ≡ path_telling fault.now }
{
    match fault {
        PathFault::NameTooLong => Told::new("names", 8, "NameTooLong"),
        PathFault::ZeroByte => Told::new("names", 15, "ZeroByte"),
        PathFault::NoMemory => Told::new("names", 16, "NoMemory"),
    }
}

/// How a refusal of the files is told.
pub fn refusal_told(refusal: &Refusal) -> Told
    ensures { telling_of result ≡ refusal_telling refusal.now }
{
    match refusal {
        Refusal::NotFound => Told::new("names", 1, "NotFound"),
        Refusal::NotADirectory => Told::new("names", 2, "NotADirectory"),
        Refusal::IsADirectory => Told::new("names", 3, "IsADirectory"),
        Refusal::Exists => Told::new("names", 4, "Exists"),
        Refusal::NotEmpty => Told::new("names", 5, "NotEmpty"),
        Refusal::IsRoot => Told::new("names", 6, "IsRoot"),
        Refusal::NotDown => Told::new("names", 7, "NotDown"),
        Refusal::Full => Told::new("names", 9, "Full"),
        Refusal::NoNumber => Told::new("names", 10, "NoNumber"),
        Refusal::NoBlock => Told::new("names", 11, "NoBlock"),
        Refusal::IsInside => Told::new("names", 14, "IsInside"),
        Refusal::TooManyLinks => Told::new("names", 20, "TooManyLinks"),
    }
}
