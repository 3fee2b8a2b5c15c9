//! What operations do to the blocks of a file, in steps over a volume.
//!
//! A machine handles the volume itself: one step gets a block, the next one uses it, and between two
//! steps other processes make theirs. A block that is changed is logged and released (`put_block`,
//! `free_block`); another one is released as it is (`release_block`). A step that has to wait
//! changes nothing. What a step comes to is a `Progress`.
//!
//! From the blocks of a file to those of the image (the xv6 book, the chapter "File system": "Code:
//! Inode content").
//!
//! An inode has the addresses of its file's first blocks, and behind them those of blocks of
//! addresses, through which the others are found: one block of addresses in an image of the first
//! form, and one more level in one of the second. A `Branch` says behind which address a block
//! stands. So `map` answers at once where the inode itself names the block, or nothing; else the
//! entries of the blocks of addresses (`Node`) have to be read one below the other, which `Bmap` does
//! in two steps for each. A machine that works on a block of a file keeps a `Target`: what it gets or
//! uses next, and `seek` makes the next step to the block. A reader makes no address that isn't
//! there.
//!
//! A writer does (`map_for_writing`): the steps of `BmapAlloc` go down the same way. They read the
//! entries as `Bmap` does, and take what is missing, be it the file's block or a block of addresses.
//! The writer's copy of the inode is given to each step, which names there what was taken for the
//! inode itself. Where they are over with a block, the inode leads to it in the image as it is then.
//!
//! `Balloc` takes a block: it sets the lowest clear bit of the bitmap, and then zeroes the block of
//! that bit. Which bit is the lowest clear one is said by a law (`laws`). `free_block` clears the bit
//! of a block again.
//!
//! What is said of a file's bytes asks that the file may be read (`MayRead`). Where an image stands
//! for files, that of each used number which no task holds may (`laws`).
#![tactic(auto)]

mod balloc;
mod bfree;
mod bmap;
mod bmap_alloc;
mod branch;
mod getting;
pub mod laws;
mod mapping;
mod target;

pub use balloc::{AllocAt, Balloc};
pub use bfree::free_block;
pub use bmap::Bmap;
pub use bmap_alloc::{BmapAlloc, MapAt};
pub use branch::{Branch, Node, branch_of};
pub use getting::{put_block, release_block};
pub use mapping::{Mapped, MappedForWriting, map, map_for_writing};
pub use model::types::{Progress, Why};
pub use target::{Target, seek, target_for};
