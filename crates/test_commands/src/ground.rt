// The images with which the tests begin.
use crate::wrong::{Wrong, ensure};
use blocks::{Block, Disk, Kind, MemDisk};
use messages::Silent;
use offline::mkfs;
use std::alloc::Global;
use transfer::put_disk;

/// More calls than a copy, a put or a cat makes.
pub const MOST_CALLS: u64 = 10_000;

/// The kinds of calls that fail, and how they are told.
pub const KINDS: [(Kind, &str); 3] = [
    (Kind::Read, "reads"),
    (Kind::WriteOld, "writes, left old"),
    (Kind::WriteNew, "writes, left new"),
];

/// A disk of 200 blocks, all zeroes.
pub fn empty_disk(alloc: Global) -> Result<MemDisk, Wrong> {
    Ok(MemDisk::new(alloc, 200)?)
}

/// A new image of 200 blocks with 32 inode numbers.
pub fn new_image(alloc: Global) -> Result<MemDisk, Wrong> {
    image_of(alloc, 200)
}

// One of so many blocks.
fn image_of(alloc: Global, size: u32) -> Result<MemDisk, Wrong> {
    let mut disk = MemDisk::new(alloc, size)?;
    match mkfs(alloc, &mut disk, size, 32) {
        Ok(()) => Ok(disk),
        Err(fault) => Err(Wrong::Image(fault)),
    }
}

/// Such an image whose file 1, of type 2, has these bytes.
pub fn with_file(alloc: Global, bytes: &[u8]) -> Result<MemDisk, Wrong> {
    with_file_in(alloc, 200, bytes)
}

// One of so many blocks.
fn with_file_in(alloc: Global, size: u32, bytes: &[u8]) -> Result<MemDisk, Wrong> {
    match image_of(alloc, size) {
        Ok(disk) => {
            let mut told = Vec::new(alloc);
            let (put, disk) = put_disk(alloc, disk, bytes, None, true, &mut Silent, &mut told);
            match put {
                Ok(()) => Ok(disk),
                Err(_refusal) => Err(Wrong::Other("the first file was not put")),
            }
        }
        Err(wrong) => Err(wrong),
    }
}

/// The image whose files are copied, and into which bytes are put: its file 1 has the byte `a`.
pub fn ground(alloc: Global) -> Result<MemDisk, Wrong> {
    ground_of(alloc, 200)
}

/// One of so many blocks.
pub fn ground_of(alloc: Global, size: u32) -> Result<MemDisk, Wrong> {
    with_file_in(alloc, size, b"a")
}

/// Refuses a disk that has not that image.
pub fn ensure_ground(alloc: Global, disk: &mut MemDisk) -> Result<(), Wrong> {
    let now = blocks_of(alloc, disk)?;
    let then = ground_blocks(alloc)?;
    ensure(now.len() == then.len(), "the old image has another size")?;
    for (a, b) in now.iter().zip(then.iter()) {
        ensure(
            a.as_slice() == b.as_slice(),
            "the old image is not as it was",
        )?;
    }
    Ok(())
}

fn ground_blocks(alloc: Global) -> Result<Vec<Block>, Wrong> {
    match ground(alloc) {
        Ok(mut disk) => blocks_of(alloc, &mut disk),
        Err(wrong) => Err(wrong),
    }
}

/// The blocks of a disk.
pub fn blocks_of(alloc: Global, disk: &mut MemDisk) -> Result<Vec<Block>, Wrong> {
    let mut blocks = Vec::new(alloc);
    match read_all(alloc, disk, &mut blocks) {
        Ok(()) => Ok(blocks),
        Err(wrong) => Err(wrong),
    }
}

fn read_all(alloc: Global, disk: &mut MemDisk, blocks: &mut Vec<Block>) -> Result<(), Wrong> {
    for b in 0..disk.size() {
        blocks.push(block_of(alloc, disk, b)?)?;
    }
    Ok(())
}

fn block_of(alloc: Global, disk: &mut MemDisk, b: u32) -> Result<Block, Wrong> {
    let mut block = Block::zeroed(alloc)?;
    match read_into(disk, b, &mut block) {
        Ok(()) => Ok(block),
        Err(wrong) => Err(wrong),
    }
}

fn read_into(disk: &mut MemDisk, b: u32, block: &mut Block) -> Result<(), Wrong> {
    if b < disk.size() {
        disk.read(b, block)?;
    }
    Ok(())
}
