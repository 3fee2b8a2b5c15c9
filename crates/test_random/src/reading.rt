// The blocks of a disk, with whatever a trial says of a fault.
use blocks::{Block, Disk, DiskFault, MemDisk, NoMemory};
use std::alloc::{AllocFailed, Global};

/// The value, unless what was done with it went wrong.
pub fn if_done<T: Drop, E: Drop>(done: Result<(), E>, value: T) -> Result<T, E> {
    match done {
        Ok(()) => Ok(value),
        Err(what) => Err(what),
    }
}

/// The blocks of a disk.
pub fn blocks_of<E: From<NoMemory> + From<AllocFailed<Block>> + From<DiskFault> + Drop>(
    alloc: Global,
    disk: &mut MemDisk,
) -> Result<Vec<Block>, E> {
    let mut blocks = Vec::new(alloc);
    if_done(read_all(alloc, disk, &mut blocks), blocks)
}

fn read_all<E: From<NoMemory> + From<AllocFailed<Block>> + From<DiskFault> + Drop>(
    alloc: Global,
    disk: &mut MemDisk,
    blocks: &mut Vec<Block>,
) -> Result<(), E> {
    for b in 0..disk.size() {
        blocks.push(block_of::<E>(alloc, disk, b)?)?;
    }
    Ok(())
}

fn block_of<E: From<NoMemory> + From<DiskFault> + Drop>(
    alloc: Global,
    disk: &mut MemDisk,
    b: u32,
) -> Result<Block, E> {
    let mut block = Block::zeroed(alloc)?;
    if_done(read_into(disk, b, &mut block), block)
}

/// Reads a block, if there is one of that number.
pub fn read_into<E: From<DiskFault> + Drop>(
    disk: &mut MemDisk,
    b: u32,
    block: &mut Block,
) -> Result<(), E> {
    if b < disk.size() {
        disk.read(b, block)?;
    }
    Ok(())
}
