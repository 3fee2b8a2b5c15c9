// Why a call of a line can't be made.
use blocks::{DiskFault, NoMemory};
use hex::FromHexError;
use std::alloc::{AllocError, AllocFailed};
use std::num::ParseIntError;
use thiserror::Error;

/// Why a call of a line can't be made.
#[derive(Clone, Copy, Debug, Error)]
pub enum LineFault {
    /// A word has to be a number.
    #[error("a word is not a number")]
    Number,
    /// A word has to be bytes, two digits each.
    #[error("{0}")]
    Digits(FromHexError),
    /// The disk failed.
    #[error("{0}")]
    Disk(DiskFault),
    /// Memory was refused.
    #[error("memory was refused")]
    NoMemory,
}

impl From<ParseIntError> for LineFault {
    fn from(_fault: ParseIntError) -> LineFault {
        LineFault::Number
    }
}

impl From<FromHexError> for LineFault {
    fn from(fault: FromHexError) -> LineFault {
        LineFault::Digits(fault)
    }
}

impl From<DiskFault> for LineFault {
    fn from(failed: DiskFault) -> LineFault {
        LineFault::Disk(failed)
    }
}

impl From<NoMemory> for LineFault {
    fn from(_refused: NoMemory) -> LineFault {
        LineFault::NoMemory
    }
}

impl From<AllocError> for LineFault {
    fn from(_refused: AllocError) -> LineFault {
        LineFault::NoMemory
    }
}

impl<T: Drop> From<AllocFailed<T>> for LineFault {
    fn from(_refused: AllocFailed<T>) -> LineFault {
        LineFault::NoMemory
    }
}
