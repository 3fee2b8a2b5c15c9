// A disk in memory.
use blocks::{Block, Disk, MemDisk};
use std::alloc::Global;

/// It tells the block that was written last.
pub fn print_memory(rt: &impl Print, alloc: Global) -> anyhow::Result<()> {
    println!(rt; "a disk in memory tells its last write")?;
    let mut disk = MemDisk::over(alloc, &[7; 2048], 2)?;
    print_state(rt, &disk)?;
    if disk.size() == 2 {
        disk.write(1, &Block::zeroed(alloc)?)?;
    }
    disk.sync()?;
    print_state(rt, &disk)
}

fn print_state(rt: &impl Print, disk: &MemDisk) -> anyhow::Result<()> {
    let size = disk.size();
    let (last, writes, syncs) = (disk.last(), disk.writes(), disk.syncs());
    println!(rt; "{size} blocks, last {last}, {writes} writes, {syncs} syncs")?;
    for b in 0..size {
        println!(rt; "block {b}: {}", disk.block(b)[1023])?;
    }
    Ok(())
}
