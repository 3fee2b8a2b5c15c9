//! The plain, slow program that computes what `model` defines: the fields of an image, its log and
//! its recovery, its places and files, its first fault, and what operations do to files. Faster
//! code is tested against it.
//!
//! An image is a slice of blocks of 1024 bytes, and block `b` stands at index `b`. A function that
//! takes an allocator answers `NoMemory` where memory is refused.
#![tactic(auto)]

pub mod check;
pub mod fields;
pub mod files;
pub mod inode;
pub mod journal;
pub mod log;
pub mod operations;
pub mod places;
pub mod recovery;
pub mod report;
pub mod superblock;
