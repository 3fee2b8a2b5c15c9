// The bytes that the fields of a line write in hexadecimal digits.
ghost use Rattle.std.specs.Prelude.{◌≡◌};
ghost use Rattle.scripts.specs.Field.{Tells, byte_of, content_of};

use hex::{FromHex, FromHexError};
use model::content::Content;
use std::alloc::{AllocError, Global};

// Why a line has no operation.
#[derive(Clone, Copy)]
pub(crate) enum LineFault {
    // The line is in no row of the table, or past a limit.
    Bad,
    NoMemory,
}

impl From<AllocError> for LineFault {
    ghost use Rattle.scripts.specs.declared.field.LineFault.TheVariants as fault;

    ghost from_gives = { λ _ e. e ≡ fault.NoMemory };

    fn from(_refused: AllocError) -> LineFault {
        LineFault::NoMemory
    }
}

// The bytes of a field of 2 to 8192 hexadecimal digits, or none at `-`.
#[tactic(auto, unfolding(crate::specs::Field::content_of))]
pub(crate) fn content(alloc: Global, text: &[u8]) -> Result<Content, LineFault>
    ensures { Tells result (content_of text.now) }
{
    if text == b"-".as_slice() {
        return Ok(Content::new(Vec::new(alloc)));
    }
    if text.len() < 2 || text.len() > 8192 {
        return Err(LineFault::Bad);
    }
    match hex::decode(alloc, text) {
        Ok(bytes) => Ok(Content::new(bytes)),
        Err(FromHexError::OutOfMemory) => Err(LineFault::NoMemory),
        Err(_) => Err(LineFault::Bad),
    }
}

// The byte of two hexadecimal digits.
#[tactic(auto, unfolding(crate::specs::Field::byte_of))]
pub(crate) fn byte(text: &[u8]) -> Option<u8>
    ensures { result ≡ byte_of text.now }
{
    let [byte] = <[u8; 1] as FromHex>::from_hex(text).ok()?;
    Some(byte)
}
