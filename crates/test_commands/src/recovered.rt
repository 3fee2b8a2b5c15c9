// Reading an image as recovery would leave it.
ghost use Rattle.std.specs.Prelude.{◌≡◌, length, IfOk};

use blocks::{Block, Disk, MemDisk, NoMemory};
use layout::{Dinode, Form, MkfsFault, bitmap, entries, inode};
use model::types::CheckFault;
use offline::laws::checked_files_may_be_read;
use offline::{Recovered, check, mkfs_as};
use std::alloc::Global;

// The blocks of the file, and its bytes: the last block is behind two blocks of addresses.
const FILE_BLOCKS: u32 = 268;

const FILE_SIZE: u32 = 267 * 1024 + 100;

// The file's blocks stand from here on, and behind them its blocks of addresses.
const FIRST: u32 = 36;

const NEAR: u32 = FIRST + FILE_BLOCKS;

const FAR: u32 = NEAR + 1;

const BELOW: u32 = NEAR + 2;

// The parts that are read: a file's number, a place, and how many bytes.
const READINGS: [(u32, u32, u32); 8] = [
    (1, 0, 2),
    (1, 1023, 2),
    // The first block behind a block of addresses, and the one behind two.
    (1, 11 * 1024 - 1, 2),
    (1, 267 * 1024 - 1, 2),
    (1, 267 * 1024, 2),
    (1, 0, FILE_SIZE),
    (1, 1, FILE_SIZE),
    (2, 0, 0),
];

fn put(disk: &mut MemDisk, b: u32, block: &Block) -> Result<(), MkfsFault> {
    if b < disk.size() {
        disk.write(b, block)?;
    }
    Ok(())
}

// A block of a file: its number in the first two bytes, and 7 in the last.
fn data_block(alloc: Global, k: u16) -> Result<Block, NoMemory> {
    let mut block = Block::zeroed(alloc)?;
    block.put(0, &k.to_le_bytes());
    block.put(1023, &[7]);
    Ok(block)
}

fn put_file(alloc: Global, disk: &mut MemDisk) -> Result<(), MkfsFault> {
    for k in 0..268u16 {
        let block = data_block(alloc, k)?;
        put(disk, FIRST + k as u32, &block)?;
    }
    Ok(())
}

fn put_addresses(alloc: Global, disk: &mut MemDisk) -> Result<(), MkfsFault> {
    let mut near = Block::zeroed(alloc)?;
    for e in 0..256 {
        entries::set_entry(&mut near, e, FIRST + 11 + e);
    }
    put(disk, NEAR, &near)?;
    let mut far = Block::zeroed(alloc)?;
    entries::set_entry(&mut far, 0, BELOW);
    put(disk, FAR, &far)?;
    let mut below = Block::zeroed(alloc)?;
    entries::set_entry(&mut below, 0, FIRST + 267);
    put(disk, BELOW, &below)
}

fn put_bitmap(alloc: Global, disk: &mut MemDisk) -> Result<(), MkfsFault> {
    let mut marks = Block::zeroed(alloc)?;
    for b in 0..BELOW + 1 {
        bitmap::set_bit(&mut marks, b);
    }
    put(disk, 35, &marks)
}

// The inode of file 1 stands in the log alone: block 3 belongs to block 33.
fn put_logged_inode(alloc: Global, disk: &mut MemDisk) -> Result<(), MkfsFault> {
    let mut addrs = [0; 13];
    for k in 0..11 {
        addrs[k] = FIRST + k as u32;
    }
    addrs[11] = NEAR;
    addrs[12] = FAR;
    let file = Dinode {
        kind: 2,
        major: 0,
        minor: 0,
        nlink: 1,
        size: FILE_SIZE,
        addrs,
    };
    let mut inodes = Block::zeroed(alloc)?;
    inode::write_at(&mut inodes, 1, &file);
    put(disk, 3, &inodes)?;
    let mut header = Block::zeroed(alloc)?;
    header.put(0, &[1, 0, 0, 0, 33, 0, 0, 0]);
    put(disk, 2, &header)
}

fn make_image(alloc: Global, disk: &mut MemDisk) -> Result<(), MkfsFault> {
    mkfs_as(alloc, disk, 400, 16, Form::Two)?;
    put_file(alloc, disk)?;
    put_addresses(alloc, disk)?;
    put_bitmap(alloc, disk)?;
    put_logged_inode(alloc, disk)
}

fn zeroes(alloc: Global, count: u32) -> Result<Vec<u8>, NoMemory>
    ensures { IfOk result (λ bytes. length bytes.items ≡ count) }
{
    Ok(vec![in alloc; 0; count as usize]?)
}

// Bytes of the file of a number, from place `at` on. None where it has no file, or too few.
fn part_of_file<D: Disk>(
    alloc: Global,
    disk: &mut D,
    i: u32,
    at: u32,
    count: u32,
) -> Result<Option<Vec<u8>>, CheckFault> {
    check(alloc, disk)?;
    checked_files_may_be_read();
    let mut block = Block::zeroed(alloc)?;
    let image = Recovered::open(disk, &mut block)?;
    if i == 0 || i >= image.sup.ninodes {
        return Ok(None);
    }
    let inode = image.inode(disk, i, &mut block)?;
    if inode.kind == 0 || at > inode.size || count > inode.size - at {
        return Ok(None);
    }
    let mut bytes = zeroes(alloc, count)?;
    image.read(disk, &inode, at, &mut bytes, &mut block)?;
    Ok(Some(bytes))
}

/// Files are read through the log.
pub fn print_readings(rt: &impl Print, alloc: Global) -> anyhow::Result<()> {
    println!(rt; "\nfiles are read through the log")?;
    let mut disk = MemDisk::new(alloc, 400)?;
    print_image(rt, alloc, &mut disk)
}

fn print_image(rt: &impl Print, alloc: Global, disk: &mut MemDisk) -> anyhow::Result<()> {
    make_image(alloc, disk)?;
    let report = check(alloc, disk)?;
    println!(rt; "{} logged, {} files", report.logged, report.files)?;
    for (i, at, count) in READINGS {
        let part = part_of_file(alloc, disk, i, at, count);
        print_part(rt, (i, at, count), part)?;
    }
    Ok(())
}

// A part of a file: two bytes as they are, and how many of more are 7.
fn print_part(
    rt: &impl Print,
    (i, at, count): (u32, u32, u32),
    part: Result<Option<Vec<u8>>, CheckFault>,
) -> anyhow::Result<()> {
    match part {
        Ok(Some(bytes)) if count == 2 => println!(rt; "file {i} at {at}: {bytes:?}")?,
        Ok(Some(bytes)) => {
            let (all, sevens) = (bytes.len(), count_of(7, &bytes));
            println!(rt; "file {i} at {at}: {all} bytes, {sevens} of them 7")?;
        }
        Ok(None) => println!(rt; "file {i} at {at}: no {count} bytes")?,
        Err(fault) => println!(rt; "file {i} at {at}: {fault}")?,
    }
    Ok(())
}

fn count_of(byte: u8, bytes: &[u8]) -> usize {
    bytes.iter().filter(|other| **other == byte).count()
}
