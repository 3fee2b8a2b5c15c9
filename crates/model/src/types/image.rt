// What an image holds.
use crate::content::Content;

/// How an inode's 13 addresses lead to its blocks.
#[derive(Clone, Copy)]
pub enum Form {
    /// 12 direct blocks and a block of 256 addresses, as in xv6.
    One,
    /// 11 direct blocks, a block of addresses, and a block of blocks of addresses.
    Two,
}

/// The superblock's fields behind the magic number. Counts and places are in blocks; the names are
/// those of xv6's `struct superblock`.
#[derive(Clone, Copy, Debug, PartialEq, Eq)]
pub struct Super {
    /// Blocks of the image.
    pub size: u32,
    /// Data blocks.
    pub nblocks: u32,
    /// Inode numbers, the unused number 0 included.
    pub ninodes: u32,
    /// Blocks of the log, its header included.
    pub nlog: u32,
    /// The log's first block, its header.
    pub logstart: u32,
    /// The first inode block.
    pub inodestart: u32,
    /// The bitmap's block.
    pub bmapstart: u32,
}

/// An inode as it stands on the disk: xv6's `struct dinode`, 64 bytes.
#[derive(Clone, Copy, Debug, PartialEq, Eq)]
pub struct Dinode {
    /// 0 free, 1 directory, 2 file, 3 device.
    pub kind: u16,
    pub major: u16,
    pub minor: u16,
    /// How many names lead to the file.
    pub nlink: u16,
    /// Bytes of the file.
    pub size: u32,
    /// Block numbers, 0 for none.
    pub addrs: [u32; 13],
}

/// An address of an inode or of a block of addresses: 0 for none, and whether the file's size needs
/// one.
#[derive(Clone, Copy)]
pub struct Pointer {
    pub address: u32,
    pub needed: bool,
}

/// A file: its type, from 1 to 3, how many names lead to it, and its bytes.
#[derive(Drop)]
pub struct File {
    pub kind: u16,
    pub links: u16,
    pub bytes: Content,
}
