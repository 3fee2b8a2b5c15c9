// What becomes of an image, read block by block and not by the code that the checker uses.
use crate::olden::olden;
use anyhow::bail;
use blocks::{Block, Disk, MemDisk};
use conversion::convert;
use layout::{entries, inode, superblock};
use std::alloc::Global;

// Reads a block, and gives its first byte and its last.
fn ends(disk: &mut MemDisk, b: u32, block: &mut Block) -> (u8, u8) {
    if b < disk.size() && disk.read(b, block).is_ok() {
        let bytes = block.as_slice();
        return (bytes[0], bytes[1023]);
    }
    (0, 0)
}

fn print_super(rt: &impl Print, disk: &mut MemDisk, block: &mut Block) -> anyhow::Result<()> {
    let boot = ends(disk, 0, block).0;
    let _ends = ends(disk, 1, block);
    let magic = superblock::magic(block.as_slice());
    let s = superblock::read(block.as_slice());
    println!(rt;
        "boot {boot} magic {magic} size {} data {} inodes {}",
        s.size, s.nblocks, s.ninodes
    )?;
    println!(rt;
        "log {} from {}, inodes from {}, bitmap {}",
        s.nlog, s.logstart, s.inodestart, s.bmapstart
    )?;
    Ok(())
}

fn print_inodes(rt: &impl Print, disk: &mut MemDisk, block: &mut Block) -> anyhow::Result<()> {
    let _ends = ends(disk, 33, block);
    for i in 1..5u32 {
        let d = inode::read_at(block, i);
        let (first, last, node) = (d.addrs[0], d.addrs[11], d.addrs[12]);
        println!(rt;
            "{i}: type {} labels {} {} links {} size {} at {first} .. {last}, {node}",
            d.kind, d.major, d.minor, d.nlink, d.size
        )?;
    }
    Ok(())
}

fn print_data(rt: &impl Print, disk: &mut MemDisk, block: &mut Block) -> anyhow::Result<()> {
    let _ends = ends(disk, 36, block);
    let marks = block.as_slice();
    println!(rt;
        "marks {} {} {} {} {}",
        marks[4], marks[5], marks[6], marks[7], marks[8]
    )?;
    let _ends = ends(disk, 50, block);
    println!(rt;
        "entries {} {}",
        entries::entry(block, 0),
        entries::entry(block, 1)
    )?;
    for b in 36..53u32 {
        let (first, last) = ends(disk, b, block);
        print!(rt; " {b}:{first},{last}")?;
    }
    println!(rt; "")?;
    Ok(())
}

/// Converts the image, and prints what the new one has.
pub fn print_converted(rt: &impl Print, alloc: Global, size: Option<u32>) -> anyhow::Result<()> {
    let Ok(mut old) = olden(alloc) else {
        bail!("the old image was not made");
    };
    let mut block = Block::zeroed(alloc)?;
    let mut new = match convert(alloc, &mut old, size) {
        Ok(new) => new,
        Err(fault) => bail!("not converted: {fault}"),
    };
    println!(rt; "{} blocks", new.size())?;
    print_super(rt, &mut new, &mut block)?;
    print_inodes(rt, &mut new, &mut block)?;
    print_data(rt, &mut new, &mut block)
}
