// Plain data of the kernel.
use model::types::CheckFault;
use thiserror::Error;
use wal::RecoverFault;

/// One item of a schedule.
#[derive(Clone, Copy)]
pub enum Turn {
    /// A step of the process of this number.
    Proc(u32),
    /// The shutdown.
    Shut,
}

/// Why a kernel can't be opened.
#[derive(Clone, Copy, Debug, Error)]
pub enum OpenFault {
    /// The image has this fault, or could not be checked.
    #[error("the image can't be used: {0}")]
    Check(CheckFault),
    /// The image could not be recovered.
    #[error("the image can't be recovered: {0}")]
    Recover(RecoverFault),
    /// Memory was refused.
    #[error("memory was refused")]
    NoMemory,
    /// There are not 1 to 32 processes.
    #[error("a kernel has 1 to 32 processes")]
    ProcRange,
}
