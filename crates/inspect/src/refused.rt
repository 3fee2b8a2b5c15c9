// Why what an image has isn't printed: a refusal for each command.
ghost use Rattle.std.specs.Prelude.{◌≡◌};
ghost use Rattle.inspect.specs.Refusals.{df_telling, ls_telling, show_telling};

use layout::CheckFault;
use messages::{Reason, Told, Unwritten};

/// Why the files of an image aren't listed.
#[derive(Clone, Copy, Debug)]
pub enum LsRefusal {
    /// A fault of the image or of its check.
    Check(CheckFault),
    /// Memory was refused after the check.
    NoMemory,
    /// The output can't be written.
    Output,
}

impl Reason for LsRefusal {
    ghost telling = { ls_telling };

    fn told(&self) -> Told {
        match self {
            LsRefusal::Check(fault) => fault.told(),
            LsRefusal::NoMemory => Told::new("ls", 1, "NoMemory"),
            LsRefusal::Output => Unwritten.told(),
        }
    }
}

/// Why the blocks of an image, or of a file, aren't shown.
#[derive(Clone, Copy, Debug)]
pub enum ShowRefusal {
    /// A fault of the image or of its check.
    Check(CheckFault),
    /// There is no file of that number.
    NoFile,
    /// Memory was refused after the check.
    NoMemory,
    /// The output can't be written.
    Output,
}

impl Reason for ShowRefusal {
    ghost telling = { show_telling };

    fn told(&self) -> Told {
        match self {
            ShowRefusal::Check(fault) => fault.told(),
            ShowRefusal::NoFile => Told::new("show", 1, "NoFile"),
            ShowRefusal::NoMemory => Told::new("show", 2, "NoMemory"),
            ShowRefusal::Output => Unwritten.told(),
        }
    }
}

/// Why how much of an image is used isn't told.
#[derive(Clone, Copy, Debug)]
pub enum DfRefusal {
    /// A fault of the image or of its check.
    Check(CheckFault),
    /// Memory was refused after the check.
    NoMemory,
    /// The output can't be written.
    Output,
}

impl Reason for DfRefusal {
    ghost telling = { df_telling };

    fn told(&self) -> Told {
        match self {
            DfRefusal::Check(fault) => fault.told(),
            DfRefusal::NoMemory => Told::new("df", 1, "NoMemory"),
            DfRefusal::Output => Unwritten.told(),
        }
    }
}
