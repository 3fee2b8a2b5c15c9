// An image of 60 blocks with 32 inode numbers and a log of 30 blocks, made by hand: the log from block
// 2 on, the inodes in blocks 32 to 34, the bitmap in block 35, and the data from block 36 on.
use blocks::{Block, Disk, MemDisk};
use layout::{Dinode, Form, MkfsFault, Super, bitmap, entries, inode, superblock};
use std::alloc::Global;

/// Blocks of the image.
pub const SIZE: u32 = 60;

// The file of number 2: 12 blocks from this one on, its block of addresses, and one block more.
const FIRST: u32 = 37;

const NODE: u32 = FIRST + 12;

/// The first block that is free.
pub const FREE: u32 = NODE + 2;

/// Writes a block, if there is such a one.
pub fn put(disk: &mut MemDisk, b: u32, block: &Block) -> Result<(), MkfsFault> {
    if b < disk.size() {
        disk.write(b, block)?;
    }
    Ok(())
}

/// The superblock.
pub fn fields() -> Super {
    Super {
        size: SIZE,
        nblocks: SIZE - 36,
        ninodes: 32,
        nlog: 30,
        logstart: 2,
        inodestart: 32,
        bmapstart: 35,
    }
}

/// Writes these fields into the superblock.
pub fn put_super(
    alloc: Global,
    disk: &mut MemDisk,
    fields: &Super,
    form: Form,
) -> Result<(), MkfsFault> {
    let mut block = Block::zeroed(alloc)?;
    superblock::write(fields, form, &mut block);
    put(disk, 1, &block)
}

// A directory with one entry and no more, a file of 13 blocks, and a device, whose labels are 1 and 7.
fn put_inodes(alloc: Global, disk: &mut MemDisk) -> Result<(), MkfsFault> {
    let mut block = Block::zeroed(alloc)?;
    let mut addrs = [0u32; 13];
    let none = Dinode {
        kind: 3,
        major: 1,
        minor: 7,
        nlink: 1,
        size: 0,
        addrs,
    };
    inode::write_at(&mut block, 3, &none);
    addrs[0] = 36;
    let directory = Dinode {
        kind: 1,
        major: 0,
        minor: 0,
        nlink: 1,
        size: 16,
        addrs,
    };
    inode::write_at(&mut block, 1, &directory);
    for k in 0..13usize {
        addrs[k] = FIRST + k as u32;
    }
    let file = Dinode {
        kind: 2,
        major: 0,
        minor: 0,
        nlink: 1,
        size: 12 * 1024 + 5,
        addrs,
    };
    inode::write_at(&mut block, 2, &file);
    put(disk, 32, &block)
}

// Each data block has its number in all its bytes, but for the block of addresses.
fn put_data(alloc: Global, disk: &mut MemDisk) -> Result<(), MkfsFault> {
    for b in 36..FREE as u8 {
        let mut block = Block::zeroed(alloc)?;
        block.put(0, &[b; 1024]);
        put(disk, b as u32, &block)?;
    }
    let mut node = Block::zeroed(alloc)?;
    entries::set_entry(&mut node, 0, NODE + 1);
    put(disk, NODE, &node)
}

/// Writes a bitmap that has the blocks before this one.
pub fn put_marks(alloc: Global, disk: &mut MemDisk, first: u32) -> Result<(), MkfsFault> {
    let mut marks = Block::zeroed(alloc)?;
    for b in 0..first.min(SIZE) {
        bitmap::set_bit(&mut marks, b);
    }
    put(disk, 35, &marks)
}

/// The image.
pub fn olden(alloc: Global) -> Result<MemDisk, MkfsFault> {
    let mut disk = MemDisk::new(alloc, SIZE)?;
    match put_all(alloc, &mut disk) {
        Ok(()) => Ok(disk),
        Err(fault) => Err(fault),
    }
}

// Its blocks. The boot block has a byte of its own.
fn put_all(alloc: Global, disk: &mut MemDisk) -> Result<(), MkfsFault> {
    let mut boot = Block::zeroed(alloc)?;
    boot.put(0, &[0xb0]);
    put(disk, 0, &boot)?;
    put_super(alloc, disk, &fields(), Form::One)?;
    put_inodes(alloc, disk)?;
    put_data(alloc, disk)?;
    put_marks(alloc, disk, FREE)
}
