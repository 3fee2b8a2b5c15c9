// What the lines work on.
use crate::fault::LineFault;
use blocks::{Block, Disk, DiskFault, FaultyDisk, Kind, MemDisk, NoMemory};
use std::alloc::{AllocError, Global};
use std::fmt;

/// A disk of which a call may fail.
pub type Faulty = FaultyDisk<MemDisk>;

/// A disk, and images that were kept.
#[derive(Drop)]
pub struct Bench {
    pub disk: Faulty,
    pub kept: Vec<Vec<Block>>,
}

impl Bench {
    /// A disk of no block.
    pub fn new(alloc: Global) -> Result<Bench, NoMemory> {
        Ok(Bench {
            disk: disk_of(alloc, 0)?,
            kept: Vec::new(alloc),
        })
    }
}

/// A disk of zeroes, of which no call fails.
pub fn disk_of(alloc: Global, size: u32) -> Result<Faulty, NoMemory> {
    Ok(FaultyDisk::new(MemDisk::new(alloc, size)?, 0, Kind::Read))
}

/// Reads a block; None where there is no such block.
pub fn block_of<D: Disk>(alloc: Global, disk: &mut D, b: u32) -> Result<Option<Block>, LineFault> {
    if b >= disk.size() {
        return Ok(None);
    }
    let mut block = Block::zeroed(alloc)?;
    match disk.read(b, &mut block) {
        Ok(()) => Ok(Some(block)),
        Err(failed) => Err(failed.into()),
    }
}

/// Writes a block, and says whether there is one of that number.
pub fn put_block<D: Disk>(disk: &mut D, b: u32, block: &Block) -> Result<bool, DiskFault> {
    if b >= disk.size() {
        return Ok(false);
    }
    disk.write(b, block)?;
    Ok(true)
}

/// All blocks of a disk.
pub fn blocks_of<D: Disk>(alloc: Global, disk: &mut D) -> Result<Vec<Block>, LineFault> {
    let mut blocks = Vec::new(alloc);
    match read_all(alloc, disk, &mut blocks) {
        Ok(()) => Ok(blocks),
        Err(fault) => Err(fault),
    }
}

fn read_all<D: Disk>(
    alloc: Global,
    disk: &mut D,
    blocks: &mut Vec<Block>,
) -> Result<(), LineFault> {
    for b in 0..disk.size() {
        if let Some(block) = block_of(alloc, disk, b)? {
            blocks.push(block)?;
        }
    }
    Ok(())
}

/// A new disk with these blocks.
pub fn disk_with(alloc: Global, blocks: &[Block]) -> Result<Faulty, LineFault> {
    let mut disk = disk_of(alloc, blocks.len().min(8191) as u32)?;
    match write_all(&mut disk, blocks) {
        Ok(()) => Ok(disk),
        Err(failed) => Err(failed.into()),
    }
}

fn write_all<D: Disk>(disk: &mut D, blocks: &[Block]) -> Result<(), DiskFault> {
    for (b, block) in blocks.iter().enumerate() {
        put_block(disk, b.min(8191) as u32, block)?;
    }
    Ok(())
}

/// What the call of a line answers as a text: `refused` where the line is no call, or one for which
/// something doesn't hold that it asks.
pub fn text_of<E: fmt::Display + Drop>(
    alloc: Global,
    answer: Result<Option<String>, E>,
) -> Result<String, AllocError> {
    match answer {
        Ok(Some(text)) => Ok(text),
        Ok(None) => String::from_str(alloc, "refused"),
        Err(error) => format!(in alloc; "{error}"),
    }
}

/// The text `done`, where a call was made that answers nothing; else none.
pub fn done<E: From<AllocError>>(alloc: Global, is_done: bool) -> Result<Option<String>, E> {
    if !is_done {
        return Ok(None);
    }
    match String::from_str(alloc, "done") {
        Ok(text) => Ok(Some(text)),
        Err(refused) => Err(E::from(refused)),
    }
}
