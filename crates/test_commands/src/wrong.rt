// What a test says of what is not as it has to be.
use blocks::{DiskFault, NoMemory};
use layout::{CheckFault, MkfsFault};
use scripts::{ScheduleFault, ScriptFault};
use std::alloc::{AllocError, AllocFailed};
use thiserror::Error;

/// What is not as it has to be, or could not be tried.
#[derive(Clone, Copy, Debug, Error)]
pub enum Wrong {
    #[error("memory was refused")]
    NoMemory,
    #[error("the disk failed")]
    Disk,
    #[error("{0}")]
    Image(MkfsFault),
    #[error("{0}")]
    Check(CheckFault),
    #[error("{0}")]
    Script(ScriptFault),
    #[error("{0}")]
    Schedule(ScheduleFault),
    /// This is so, and may not be.
    #[error("{0}")]
    Other(&'static str),
}

/// Refuses what is not so.
pub fn ensure(is_so: bool, text: &'static str) -> Result<(), Wrong> {
    if is_so {
        Ok(())
    } else {
        Err(Wrong::Other(text))
    }
}

impl From<NoMemory> for Wrong {
    fn from(_refused: NoMemory) -> Wrong {
        Wrong::NoMemory
    }
}

impl From<AllocError> for Wrong {
    fn from(_refused: AllocError) -> Wrong {
        Wrong::NoMemory
    }
}

impl<T: Drop> From<AllocFailed<T>> for Wrong {
    fn from(_refused: AllocFailed<T>) -> Wrong {
        Wrong::NoMemory
    }
}

impl From<DiskFault> for Wrong {
    fn from(_fault: DiskFault) -> Wrong {
        Wrong::Disk
    }
}

impl From<MkfsFault> for Wrong {
    fn from(fault: MkfsFault) -> Wrong {
        Wrong::Image(fault)
    }
}

impl From<CheckFault> for Wrong {
    fn from(fault: CheckFault) -> Wrong {
        Wrong::Check(fault)
    }
}
