// Why command lines can't be had.
ghost use Rattle.std.specs.Prelude.{◌≡◌, ◌≢◌};
ghost use Rattle.std.specs.IoError.{error_kind};
ghost use Rattle.cmd.specs.Input.{input_telling};

use messages::{Reason, Told};
use std::alloc::AllocError;
use std::io;
use std::io::ErrorKind;

/// Why command lines from a reader can't be had, or the output.
#[derive(Clone, Copy, Debug)]
pub enum InputFault {
    /// They can't be read, or aren't UTF-8.
    Read,
    /// The reader gives more than `LIMIT` bytes.
    TooLarge,
    /// Memory was refused.
    NoMemory,
}

impl Reason for InputFault {
    ghost telling = { input_telling };

    fn told(&self) -> Told {
        match self {
            InputFault::Read => Told::new("input", 1, "Read"),
            InputFault::TooLarge => Told::new("input", 2, "TooLarge"),
            InputFault::NoMemory => Told::new("input", 3, "NoMemory"),
        }
    }
}

impl From<AllocError> for InputFault {
    ghost use Rattle.cmd.specs.declared.input.InputFault.TheVariants as fault;

    ghost from_gives = { λ _ e. e ≡ fault.NoMemory };

    fn from(_refused: AllocError) -> InputFault {
        InputFault::NoMemory
    }
}

/// Why a reader or the system gave no words.
pub fn input_unread(error: io::Error) -> InputFault
    ensures memory { error_kind error ≡ ErrorKind.OutOfMemory → result ≡ InputFault.NoMemory }
    ensures other { error_kind error ≢ ErrorKind.OutOfMemory → result ≡ InputFault.Read }
    ensures never { result ≢ InputFault.TooLarge }
{
    match error.kind() {
        ErrorKind::OutOfMemory => InputFault::NoMemory,
        _ => InputFault::Read,
    }
}
