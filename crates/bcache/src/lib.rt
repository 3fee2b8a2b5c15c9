//! The buffer cache: 40 buffers that hold copies of blocks, each with a lock and a count of
//! references, in the order of their release (the xv6 book, the chapter "File system": "Buffer
//! cache layer").
//!
//! A process gets the lock of a block's buffer with `acquire`, and has it until its `release`. In
//! between it alone may change the bytes, and each other process that wants the block has to wait
//! (`Held`). No block has two buffers, so all see the same bytes.
//!
//! A buffer that is not valid does not show its block yet: its holder calls `fill`, which reads the
//! block. That read is the cache's only call of the disk. A change stays in the buffer, and it is
//! the layer above, the log, that writes it to the disk.
//!
//! A buffer's references are one for its holder, and one for each `pin` until its `unpin`. While it
//! has any it stays the buffer of its block. So a process keeps its buffer, and the log keeps a
//! changed block that has not been written home, also when nobody holds its lock.
//!
//! A block that has no buffer gets one without references: of those, the one that stands last in
//! the order, where `release` puts a buffer first. The order is kept as links from slot to slot
//! (`Links`). Where all 40 have references the process has to wait (`NoBuffer`; xv6 panics there).
//! Waiting changes nothing: who waits asks again later.
#![tactic(auto)]

mod cache;
pub mod laws;
mod links;
mod order;
mod types;

pub use cache::Cache;
pub use links::Links;
pub use types::{Acquired, Buffer, Busy};
