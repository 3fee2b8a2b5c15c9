// What is told of an image before anything is written.
ghost use Rattle.std.specs.Prelude.{◌≡◌, ◌≤◌, ◌+◌, ◌^◌, IfErr, IfOk, None, OnOk};
ghost use Rattle.blocks.specs.Calls.{OnlyReads};
ghost use Rattle.model.specs.Layout.{form_of};
ghost use Rattle.model.specs.Log.{recovered};
ghost use Rattle.transfer.specs.Judging.{FailsByDisk, FindsOld, IsCheckedOf, IsFit, IsOldRefused, IsTold};
ghost use Rattle.transfer.specs.Needs.{free_count, has_room_twice, needed_blocks};

use crate::filling::PLAIN;
use crate::needs::{count_free, fits_twice, needed_blocks};
use crate::refused::PutRefusal;
use blocks::{Block, Disk};
use layout::{CheckFault, greatest_size};
use offline::{Recovered, check};
use std::alloc::Global;

// Checks the image of a disk, and judges whether that many bytes can be put there. Whether there is
// room for them twice: in a new file, and then beside it in the old one.
pub fn judge<D: Disk>(
    alloc: Global,
    disk: &mut D,
    inum: Option<u32>,
    count: usize,
) -> Result<bool, PutRefusal>
    ensures fit { OnOk result (IsFit D.Disk inum count disk.old disk.new) }
    ensures twice { IfOk result (λ twice.
        twice ≡ has_room_twice (recovered (D.image disk.old)) inum count) }
    ensures refused { IfErr result (IsTold D.Disk inum count disk.old disk.new) }
{
    check(alloc, disk)?;
    let Ok(mut block) = Block::zeroed(alloc) else {
        return Err(PutRefusal::NoMemory);
    };
    let image = Recovered::open(disk, &mut block)?;
    let old = old_blocks(disk, &image, &mut block, inum)?;
    if count > greatest_size(image.form) as usize {
        return Err(PutRefusal::TooBig);
    }
    let free = free_blocks(disk, &image, &mut block)?;
    if needed_blocks(image.form, count as u32) > free + old {
        return Err(PutRefusal::Full);
    }
    Ok(fits_twice(image.form, count as u32, free, old))
}

/// Checks the image of a disk, and judges whether that many bytes have room there in a new file. How
/// many blocks are free besides those that this needs. It writes no block.
///
/// # Errors
///
/// `Check` for a fault of the image, of its check or of a read behind that; `NoMemory` where memory is
/// refused behind the check; `TooBig`; `Full` where the free blocks are too few.
pub fn judge_new<D: Disk>(alloc: Global, disk: &mut D, count: usize) -> Result<u32, PutRefusal>
    ensures fit { OnOk result (IsFit D.Disk None count disk.old disk.new) }
    ensures besides { IfOk result (λ besides.
        needed_blocks (form_of (recovered (D.image disk.old))) count + besides
        ≡ free_count (recovered (D.image disk.old))) }
    ensures refused { IfErr result (IsTold D.Disk None count disk.old disk.new) }
{
    check(alloc, disk)?;
    let Ok(mut block) = Block::zeroed(alloc) else {
        return Err(PutRefusal::NoMemory);
    };
    let image = Recovered::open(disk, &mut block)?;
    if count > greatest_size(image.form) as usize {
        return Err(PutRefusal::TooBig);
    }
    let free = free_blocks(disk, &image, &mut block)?;
    let needed = needed_blocks(image.form, count as u32);
    if needed > free {
        return Err(PutRefusal::Full);
    }
    Ok(free - needed)
}

// The blocks that the size of the old file needs, of a disk that was checked. It has to be there, and
// to be a plain file.
fn old_blocks<D: Disk>(
    disk: &mut D,
    image: &Recovered,
    block: &mut Block,
    inum: Option<u32>,
) -> Result<u32, PutRefusal>
    requires checked { IsCheckedOf (D.image disk.old) image.now }
    ensures found { IfOk result (FindsOld (recovered (D.image disk.old)) inum) }
    ensures refused { IfErr result (IsOldRefused (recovered (D.image disk.old)) inum
        (D.fault_count disk.old) (D.fault_count disk.new)) }
    ensures reads { OnlyReads D.Disk disk.old disk.new }
    ensures faults { OnOk result (D.fault_count disk.new ≡ D.fault_count disk.old) }
{
    let Some(number) = inum else {
        return Ok(0);
    };
    if number == 0 || number >= image.sup.ninodes {
        return Err(PutRefusal::NoFile);
    }
    let inode = match image.inode(disk, number, block) {
        Ok(inode) => inode,
        Err(_failed) => return Err(PutRefusal::Check(CheckFault::Disk)),
    };
    if inode.kind == 0 {
        return Err(PutRefusal::NoFile);
    }
    if inode.kind != PLAIN {
        return Err(PutRefusal::NotAFile);
    }
    Ok(needed_blocks(image.form, inode.size))
}

/// How many blocks are free in the image of a disk that was checked, as recovery would leave it. The
/// block is room for its bitmap. It writes no block.
///
/// # Errors
///
/// `Disk` where the read of the bitmap failed.
pub fn free_blocks<D: Disk>(
    disk: &mut D,
    image: &Recovered,
    block: &mut Block,
) -> Result<u32, CheckFault>
    requires checked { IsCheckedOf (D.image disk.old) image.now }
    ensures count { IfOk result (λ count. count ≡ free_count (recovered (D.image disk.old))) }
    ensures few { IfOk result (λ count. count ≤ 2 ^ 13) }
    ensures reads { OnlyReads D.Disk disk.old disk.new }
    ensures faults { FailsByDisk result (D.fault_count disk.old) (D.fault_count disk.new) }
{
    image.block(disk, image.sup.bmapstart, block)?;
    Ok(count_free(block, image.sup.size))
}
