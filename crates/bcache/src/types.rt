use blocks::Block;

/// One of the buffers of the cache (the xv6 book, the chapter "File system": "Buffer cache layer").
#[derive(Drop)]
pub struct Buffer {
    /// The block that it is for; None where it was never taken.
    pub block: Option<u32>,
    /// Whether its bytes are those of the block.
    pub valid: bool,
    pub bytes: Block,
    /// The process that has its lock, and one reference with it.
    pub holder: Option<u32>,
    /// The references that pins added.
    pub pins: u32,
}

/// Why a process has to wait for a buffer.
#[derive(Clone, Copy, Debug, PartialEq, Eq)]
pub enum Busy {
    /// A process holds the lock of the block's buffer.
    Held,
    /// The block has no buffer, and all 40 have references. (Bach, "The Design of the UNIX
    /// Operating System", chapter 3; xv6 panics there.)
    NoBuffer,
}

/// What an attempt to get a block's buffer gives.
#[derive(Clone, Copy, Debug, PartialEq, Eq)]
pub enum Acquired {
    /// The caller has the lock of this slot, from 0 to 39, and a reference to it. Where it is not
    /// valid, the block is still to be read.
    Got { slot: u32, valid: bool },
    /// Nothing was changed, and the caller has to wait.
    Sleeping(Busy),
}
