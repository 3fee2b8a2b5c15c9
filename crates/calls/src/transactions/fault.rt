// Why a transaction doesn't go on.
use thiserror::Error;
use wal::DeviceFault;

/// Why a transaction doesn't go on. Behind each but `NoRoom` no other call may be made; nothing of
/// the transaction is kept, unless the disk failed in its commit.
#[derive(Clone, Copy, Debug, Error)]
pub enum TransactionFault {
    /// The disk failed.
    #[error("the disk failed: {0:?}")]
    Disk(DeviceFault),
    /// Memory for the operation was refused, and the disk was only read.
    #[error("memory was refused")]
    NoMemory,
    /// The log has no room for the operation beside those of the transaction. Nothing was done.
    #[error("the transaction is too large")]
    NoRoom,
}
