// The tree on a disk that is served.
ghost use Rattle.std.specs.Prelude.{IfOk};
ghost use Rattle.names.specs.Ready.{MayGoOn};

use crate::refusal::MountRefusal;
use blocks::{Block, Disk, FileDisk, MemDisk, NoMemory};
use commands::Copied;
use layout::superblock;
use names::Tree;
use std::alloc::Global;
use std::fs::OpenFile;
use std::io::{Seek, Write};

/// The tree on a disk, whose image is checked and recovered first.
///
/// # Errors
///
/// A fault of `Tree::open`.
pub fn open<D: Disk + Drop>(alloc: Global, disk: D) -> Result<Tree<D>, MountRefusal>
    ensures { IfOk result (λ tree. MayGoOn D.Disk tree.kernel tree.calls_left) }
{
    match Tree::open(alloc, disk) {
        Ok(tree) => Ok(tree),
        Err((fault, _disk)) => Err(MountRefusal::Unopened(fault)),
    }
}

/// How many blocks for files the image of a disk has, as its superblock says.
///
/// # Errors
///
/// `NoMemory` where memory is refused.
pub fn data_blocks<D: Disk>(alloc: Global, disk: &mut D) -> Result<u32, NoMemory> {
    let mut block = Block::zeroed(alloc)?;
    if disk.size() < 2 || disk.read(1, &mut block).is_err() {
        return Ok(0);
    }
    Ok(superblock::read(block.as_slice()).nblocks)
}

/// A copy of the disk in a file, in memory.
///
/// # Errors
///
/// `NoMemory` where memory is refused.
pub fn disk_in_memory<F: Write + Seek + OpenFile + Drop>(
    alloc: Global,
    disk: &mut FileDisk<F>,
) -> Result<MemDisk, NoMemory> {
    let mut block = Block::zeroed(alloc)?;
    let copied = Copied::of(alloc, disk, &mut block)?;
    copied.disk(alloc)
}
