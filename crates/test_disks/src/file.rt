// A disk over a file that tells of its bytes.
use crate::known_file::KnownFile;
use blocks::{BLOCK_SIZE, Block, Disk, DiskFault, FileDisk};
use std::alloc::Global;

/// A new file has zeroes but for what is written.
pub fn print_new(rt: &impl Print, alloc: Global) -> anyhow::Result<()> {
    println!(rt; "\na new file has zeroes but for what is written")?;
    let file = KnownFile::of(alloc, sevens(alloc)?, false);
    let mut disk = FileDisk::zeroed(alloc, file, 3)?;
    let answer = write(&mut disk, 1, &nines(alloc)?);
    println!(rt; "block 1 written: {answer:?}")?;
    print_bytes(rt, disk.into_file())
}

/// An opened file keeps the bytes of each block but the one that is written, and of that one, too,
/// where the system refuses it.
pub fn print_opened(rt: &impl Print, alloc: Global) -> anyhow::Result<()> {
    for refuses in [false, true] {
        println!(rt; "\nan opened file keeps its other bytes, refusing: {refuses}")?;
        let file = KnownFile::of(alloc, sevens(alloc)?, refuses);
        let mut disk = FileDisk::whole_file(alloc, file)?;
        let answer = write(&mut disk, 0, &nines(alloc)?);
        println!(rt; "block 0 written: {answer:?}")?;
        print_block(rt, alloc, &mut disk)?;
        print_bytes(rt, disk.into_file())?;
    }
    Ok(())
}

// The bytes of two blocks.
fn sevens(alloc: Global) -> anyhow::Result<Vec<u8>> {
    Ok(vec![in alloc; 7; 2 * BLOCK_SIZE]?)
}

fn nines(alloc: Global) -> anyhow::Result<Block> {
    let mut block = Block::zeroed(alloc)?;
    block.put(0, &[9; BLOCK_SIZE]);
    Ok(block)
}

// Writes a block that is there.
fn write<D: Disk>(disk: &mut D, block: u32, from: &Block) -> Result<(), DiskFault> {
    if block < disk.size() {
        disk.write(block, from)
    } else {
        Ok(())
    }
}

// What reads give of block 0.
fn print_block<D: Disk>(rt: &impl Print, alloc: Global, disk: &mut D) -> anyhow::Result<()> {
    let mut block = Block::zeroed(alloc)?;
    if disk.size() > 0 {
        disk.read(0, &mut block)?;
    }
    println!(rt; "block 0 is read: {}", block.as_slice()[0])?;
    Ok(())
}

// How many bytes the file has, and how often each that isn't 0 stands in each of its blocks.
fn print_bytes(rt: &impl Print, file: KnownFile) -> anyhow::Result<()> {
    let bytes = file.into_bytes();
    println!(rt; "{} bytes", bytes.len())?;
    let (blocks, _) = bytes.as_slice().as_chunks::<BLOCK_SIZE>();
    for block in blocks {
        let sevens = block.iter().filter(|byte| **byte == 7).count();
        let nines = block.iter().filter(|byte| **byte == 9).count();
        println!(rt; "{sevens} sevens, {nines} nines")?;
    }
    Ok(())
}
