// The words that the program was started with.
ghost use Rattle.std.specs.Prelude.{◌≡◌, ◌≢◌};
ghost use Rattle.std.specs.IoError.{error_kind};

use std::alloc::AllocError;
use std::io::ErrorKind;
use std::rt::Env;
use std::{env, io};

/// Why the words that the program was started with can't be had.
#[derive(Clone, Copy, Debug)]
pub enum WordsFault {
    /// Some word isn't UTF-8.
    NotUtf8,
    /// Memory was refused.
    NoMemory,
}

impl From<AllocError> for WordsFault {
    ghost use Rattle.cli.specs.declared.arguments.WordsFault.TheVariants as fault;

    ghost from_gives = { λ _ e. e ≡ fault.NoMemory };

    fn from(_refused: AllocError) -> WordsFault {
        WordsFault::NoMemory
    }
}

/// The arguments without the program's name.
///
/// # Errors
///
/// `NoMemory` where memory is refused; `NotUtf8` where one of them isn't UTF-8, which is the only
/// other reason for which the kit gives none.
pub fn given<R: Env + AllocGlobal>(rt: &R) -> Result<Vec<String>, WordsFault> {
    let arguments = env::args(rt).map_err(|error| words_unread(error))?;
    let words: Vec<String> = arguments.skip(1).collect(rt.alloc())?;
    Ok(words)
}

// Why the system gave no words.
fn words_unread(error: io::Error) -> WordsFault
    ensures memory { error_kind error ≡ ErrorKind.OutOfMemory → result ≡ WordsFault.NoMemory }
    ensures other { error_kind error ≢ ErrorKind.OutOfMemory → result ≡ WordsFault.NotUtf8 }
{
    match error.kind() {
        ErrorKind::OutOfMemory => WordsFault::NoMemory,
        _ => WordsFault::NotUtf8,
    }
}
