//! Blocks of 1024 bytes, and the disks that hold them: in memory, over a file, one that holds
//! writes back, one of which a call fails, and one that forgets writes where a sync fails.
#![tactic(auto)]

mod block;
mod disk;
mod errors;
mod faulty;
mod file;
mod floating;
mod forgetful;
mod held;
mod memory;
mod moments;
mod past;
mod placed;
mod sync;

pub use block::{BLOCK_SIZE, Block};
pub use disk::Disk;
pub use errors::{DiskFault, FileFault, NoMemory, SyncFault};
pub use faulty::{FaultyDisk, Kind, Trap};
pub use file::{FileDisk, MAX_BLOCKS};
pub use forgetful::ForgetfulDisk;
pub use memory::MemDisk;
pub use placed::{Placed, PlacedRead};
pub use sync::SyncDisk;
