// A converted image with its old log again.
use crate::olden::olden;
use anyhow::bail;
use blocks::{Block, Disk, MemDisk};
use conversion::{convert, shorten};
use std::alloc::Global;

// Reads a block, if there is such a one.
fn reads(disk: &mut MemDisk, b: u32, block: &mut Block) -> bool {
    b < disk.size() && disk.read(b, block).is_ok()
}

// How many blocks of two images differ.
fn count_others(alloc: Global, a: &mut MemDisk, b: &mut MemDisk) -> anyhow::Result<u32> {
    let mut first = Block::zeroed(alloc)?;
    let mut second = Block::zeroed(alloc)?;
    let mut count = 0u32;
    for k in 0..a.size().min(b.size()) {
        let read = reads(a, k, &mut first) && reads(b, k, &mut second);
        if !read || first.as_slice() != second.as_slice() {
            count = count.saturating_add(1);
        }
    }
    Ok(count)
}

/// Converts the image and shortens its log, and prints how many blocks differ from what they were.
pub fn print_back(rt: &impl Print, alloc: Global) -> anyhow::Result<()> {
    let Ok(mut old) = olden(alloc) else {
        bail!("the old image was not made");
    };
    let mut new = match convert(alloc, &mut old, None) {
        Ok(new) => new,
        Err(fault) => bail!("not converted: {fault}"),
    };
    for nlog in [30u32, 11] {
        let mut back = match shorten(alloc, &mut new, nlog, None) {
            Ok(back) => back,
            Err(fault) => bail!("not shortened: {fault}"),
        };
        let others = count_others(alloc, &mut old, &mut back)?;
        println!(rt; "log {nlog}: {} blocks, {others} others", back.size())?;
    }
    match shorten(alloc, &mut old, 30, None) {
        Ok(_back) => bail!("an image with another log was shortened"),
        Err(fault) => println!(rt; "{fault:?}: {fault}")?,
    }
    Ok(())
}
