// All faults of an image that is hurt in each way, in their order.
use blocks::{Block, Disk, MemDisk, NoMemory};
use disk_commands::check_disk_all;
use layout::{Dinode, Form, MkfsFault, bitmap, entries, inode};
use messages::Reason;
use offline::mkfs_as;
use std::alloc::Global;

// The data begins behind block 36, the bitmap.
const BITMAP: u32 = 36;

// The blocks that the bitmap has, of 200: the boot block is left out, 43 and 128 are free, and 199 is
// at no place.
fn marks(alloc: Global) -> Result<Block, NoMemory> {
    let mut marks = Block::zeroed(alloc)?;
    for b in 1..BITMAP + 1 {
        bitmap::set_bit(&mut marks, b);
    }
    for b in [40, 41, 42, 44, 45, 199] {
        bitmap::set_bit(&mut marks, b);
    }
    Ok(marks)
}

fn file(kind: u16, size: u32, places: &[(usize, u32)]) -> Dinode {
    let mut addrs = [0; 13];
    for (k, address) in places {
        if *k < 13 {
            addrs[*k] = *address;
        }
    }
    Dinode {
        kind,
        major: 0,
        minor: 0,
        nlink: 1,
        size,
        addrs,
    }
}

// No such type, but block 40 is at a place of it; no such size, but 41 is; 40 once more, and a block
// that is missing; 42 at two more places, a free block, one of the bitmap, and one behind the image;
// 45 twice under a block of addresses, and 41 once more. The last one takes the bitmap for a block of
// addresses: its words there are 0xfffffffe, 0x371f, and, as the seventh, 128.
fn inodes(alloc: Global) -> Result<Block, NoMemory> {
    let mut inodes = Block::zeroed(alloc)?;
    inode::write_at(&mut inodes, 1, &file(9, 0, &[(0, 40)]));
    inode::write_at(&mut inodes, 2, &file(2, 300_000, &[(0, 41)]));
    inode::write_at(&mut inodes, 3, &file(2, 3000, &[(0, 40), (1, 42)]));
    let fourth = [(0, 42), (1, 42), (2, 43), (3, BITMAP), (12, 200)];
    inode::write_at(&mut inodes, 4, &file(2, 0, &fourth));
    inode::write_at(&mut inodes, 5, &file(2, 0, &[(12, 44)]));
    inode::write_at(&mut inodes, 6, &file(2, 0, &[(12, BITMAP)]));
    Ok(inodes)
}

fn addresses(alloc: Global) -> Result<Block, NoMemory> {
    let mut addresses = Block::zeroed(alloc)?;
    entries::set_entry(&mut addresses, 0, 45);
    entries::set_entry(&mut addresses, 1, 45);
    entries::set_entry(&mut addresses, 2, 41);
    Ok(addresses)
}

fn put(disk: &mut MemDisk, b: u32, block: &Block) -> Result<(), MkfsFault> {
    if b < disk.size() {
        disk.write(b, block)?;
    }
    Ok(())
}

fn hurt(alloc: Global, disk: &mut MemDisk) -> Result<(), MkfsFault> {
    mkfs_as(alloc, disk, 200, 32, Form::One)?;
    put(disk, 33, &inodes(alloc)?)?;
    put(disk, BITMAP, &marks(alloc)?)?;
    put(disk, 44, &addresses(alloc)?)
}

/// Each fault is told in its order, and then how many there are.
pub fn print_all_faults(rt: &impl Print, alloc: Global) -> anyhow::Result<()> {
    println!(rt; "\nall faults are told")?;
    let mut disk = MemDisk::new(alloc, 200)?;
    hurt(alloc, &mut disk)?;
    let mut out = Vec::new(alloc);
    let ended = check_disk_all(alloc, &mut disk, &mut out);
    print!(rt; "{}", str::from_utf8(&out)?)?;
    match ended {
        Ok(()) => println!(rt; "done")?,
        Err(refusal) => println!(rt; "refused: {}", refusal.told())?,
    }
    Ok(())
}
