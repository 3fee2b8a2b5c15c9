// Why a call isn't answered.
use thiserror::Error;
use wal::DeviceFault;

/// Why an operation of a kernel's only process isn't answered. The kernel is of no use behind it.
#[derive(Clone, Copy, Debug, Error)]
pub enum CallFault {
    /// The disk failed.
    #[error("the disk failed: {0:?}")]
    Disk(DeviceFault),
    /// Memory for the operation was refused, and the disk was only read.
    #[error("memory was refused")]
    NoMemory,
}
