// What is known of a run's writes.
use blocks::BLOCK_SIZE;

/// A write of a run.
#[derive(Clone, Copy)]
pub struct Written {
    /// The number of its block.
    pub block: u32,
    /// The bytes that it gave the block.
    pub bytes: [u8; BLOCK_SIZE],
}
