//! An xv6 image with a log of another length, moved block by block: what lies behind the log goes so
//! many blocks further on or back, and each address of an inode or of a block of addresses with it. The
//! old image is only read, and the new one stands in memory.
//!
//! xv6's `mkfs` made such images in the courses of 2019 to 2024: their logs have 30 blocks, and ours
//! 31. Only the first form is taken, whose superblock begins with xv6's magic number.
#![tactic(auto)]

mod converting;
mod fault;
mod filling;
mod geometry;
pub mod laws;
mod moving;
mod nodes;
mod plan;
mod prepared;
mod shortening;

pub use converting::convert;
pub use fault::ConversionFault;
pub use geometry::is_log_length;
pub use shortening::shorten;
