// Why a session is not opened.
ghost use Rattle.std.specs.Prelude.{◌≡◌};
ghost use Rattle.sessions.specs.Refusal.{refusal_of};

use kernel::OpenFault;
use model::types::CheckFault;
use thiserror::Error;

/// Why a session is not opened.
#[derive(Clone, Copy, Debug, Error)]
pub enum OpenRefusal {
    /// The bytes are not a whole number of blocks, from 1 to 8191.
    #[error("an image has 1 to 8191 blocks of 1024 bytes")]
    Length,
    /// There are not 1 to 32 processes.
    #[error("a session has 1 to 32 processes")]
    Processes,
    /// Memory was refused.
    #[error("memory was refused")]
    NoMemory,
    /// The image has this fault.
    #[error("the image can't be used: {0}")]
    Check(CheckFault),
}

// The refusal of a kernel over a disk that never fails.
pub(crate) fn refusal_of(fault: OpenFault) -> OpenRefusal
    ensures { result ≡ refusal_of fault }
{
    match fault {
        OpenFault::Check(fault) => OpenRefusal::Check(fault),
        OpenFault::Recover(_) | OpenFault::NoMemory => OpenRefusal::NoMemory,
        OpenFault::ProcRange => OpenRefusal::Processes,
    }
}
