// What a sync that fails leaves out for good, and what brings it to the device.
use blocks::{Block, Disk, DiskFault, ForgetfulDisk, MemDisk, NoMemory};
use std::alloc::Global;

/// What the device of a disk of three blocks has where a stop brings none of the held writes, behind
/// writes, syncs, and syncs that fail.
pub fn print_forgetful(rt: &impl Print, alloc: Global) -> anyhow::Result<()> {
    println!(rt; "\na sync brings what is held")?;
    let mut disk = zeroes(alloc)?;
    fill(&mut disk, alloc, 0, 1)?;
    fill(&mut disk, alloc, 2, 2)?;
    print_device(rt, &disk)?;
    disk.sync();
    print_device(rt, &disk)?;
    print_left_out(rt, alloc)?;
    print_older(rt, alloc)
}

// A later sync brings the later writes alone; a block that was left out wants to be written anew.
fn print_left_out(rt: &impl Print, alloc: Global) -> anyhow::Result<()> {
    println!(rt; "\nwhat a failed sync left out stays out")?;
    let mut disk = zeroes(alloc)?;
    fill(&mut disk, alloc, 0, 1)?;
    fill(&mut disk, alloc, 1, 2)?;
    fail(&mut disk, [false, true])?;
    print_device(rt, &disk)?;
    fill(&mut disk, alloc, 2, 3)?;
    disk.sync();
    print_device(rt, &disk)?;
    fill(&mut disk, alloc, 0, 4)?;
    print_device(rt, &disk)?;
    disk.sync();
    print_device(rt, &disk)
}

// Of two writes of a block the device may have the older one.
fn print_older(rt: &impl Print, alloc: Global) -> anyhow::Result<()> {
    println!(rt; "\nan older write may be left")?;
    for brought in [[false, false], [true, false], [false, true]] {
        let mut disk = zeroes(alloc)?;
        fill(&mut disk, alloc, 0, 1)?;
        fill(&mut disk, alloc, 0, 2)?;
        fail(&mut disk, brought)?;
        print_device(rt, &disk)?;
    }
    Ok(())
}

// A disk of three blocks of zeroes.
fn zeroes(alloc: Global) -> Result<ForgetfulDisk, NoMemory> {
    ForgetfulDisk::new(alloc, MemDisk::new(alloc, 3)?)
}

// Fills a block that is there with this byte.
fn fill(disk: &mut ForgetfulDisk, alloc: Global, block: u32, byte: u8) -> anyhow::Result<()> {
    let mut bytes = Block::zeroed(alloc)?;
    bytes.put(0, &[byte; 1024]);
    if block >= disk.size() {
        return Err(DiskFault(block).into());
    }
    disk.write(block, &bytes)?;
    Ok(())
}

// A sync fails that brings those of the two held writes.
fn fail(disk: &mut ForgetfulDisk, brought: [bool; 2]) -> Result<(), NoMemory> {
    if disk.held() == 2 {
        disk.fail_sync(&brought)?;
    }
    Ok(())
}

// The first byte of each block that reads give and that the device has, and which it lacks.
fn print_device(rt: &impl Print, disk: &ForgetfulDisk) -> anyhow::Result<()> {
    let none = [false; 64];
    let left = disk.left(&none[..disk.held()])?;
    println!(rt; "held: {}", disk.held())?;
    for b in 0..disk.size().min(left.size()) {
        let (shown, device) = (disk.block(b)[0], left.block(b)[0]);
        let lacks = disk.lacks(b);
        println!(rt; "block {b}: {shown}, on the device {device}, lacks it: {lacks}")?;
    }
    Ok(())
}
