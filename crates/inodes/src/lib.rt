//! The inodes of a volume, and the steps of the operations on them (the xv6 book, the chapter "File
//! system": "Code: Inodes" and "Code: Inode content").
//!
//! A `Store` is a volume with the table of inodes in memory and a task for each process. A task is
//! driven step by step, in any order with those of others, and says where it stands by its `Stage`.
//! A creation searches the inode blocks for a free number (`Ialloc`), and takes no lock of an inode.
//! Any other operation takes its inode first (`Ilock`): a reference in the table, so that the inode
//! keeps its place, then its sleep lock, and then it reads the inode where nobody has yet. That is
//! its turn. It keeps the lock until its finish, in which it gives up lock and reference.
//!
//! A write makes what its file lacks of blocks, writes its bytes block by block (`Writei`), and has
//! its reply where its inode is written back. Until then the files have the old file.
//!
//! With 32 processes, of which each refers to one inode at most, the table's 50 places are always
//! enough. A free inode is never kept in it. A reading gathers its bytes block by block (`Readi`),
//! in room that it was handed at its beginning. That no step of a task takes memory is tested.
#![tactic(auto)]

mod freeing;
mod ialloc;
mod ilock;
mod itrunc;
mod iupdate;
pub mod laws;
mod looks;
mod readi;
mod store;
mod table;
mod tasks;
mod writei;

pub use blockmap::Progress;
pub use freeing::{Freeing, Got, Kept};
pub use ialloc::Ialloc;
pub use ilock::{Ilock, LockAt};
pub use itrunc::{Itrunc, TruncAt};
pub use iupdate::Iupdate;
pub use readi::Readi;
pub use store::Store;
pub use table::{InMemory, Inodes};
pub use tasks::{Stage, Tasks};
pub use writei::{Extent, WriteAt, Writei};
