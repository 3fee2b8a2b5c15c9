//! A device that loses and tears writes, under a recovery and commits.
//!
//! Where a sync fails, the system may drop what it was to write and take it for written: reads
//! still give it, no later sync writes it, and the device has the blocks as they were. A device is
//! stale then. And a block that is being written, or held back, when a stop comes may be torn: a
//! device writes sectors of 512 bytes whole, and no more.
//!
//! The laws are of images, and of lists of writes with syncs between them: those of a commit, and
//! those that `wal::recover` makes. `steps_are_carried` says of each step of a kernel what it means
//! to such a device. That a device does no worse is the laws' premise; the trait `Disk` asks for
//! more.
#![tactic(auto)]

pub mod laws;
