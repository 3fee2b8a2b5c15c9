// An image with a shorter log, made into one with ours.
ghost use Rattle.std.specs.Prelude.{◌≡◌, IfErr, IfOk, OnOk, None};
ghost use Rattle.blocks.specs.Calls.{OnlyReads};
ghost use Rattle.model.specs.Format.{log_blocks};
ghost use Rattle.model.specs.Verdict.{verdict};
ghost use Rattle.conversion.specs.Converted.{IsConverted, IsNewFault, IsRefusal, chosen_size, conversion_fault};

use crate::fault::ConversionFault;
use crate::filling::move_image;
use blocks::{Disk, MemDisk};
use layout::LOG_BLOCKS;
use model::types::CheckFault;
use offline::check;
use std::alloc::Global;

/// Gives an xv6 image whose log has 11 to 31 blocks, and is empty, a log of 31 blocks, as ours have. What
/// lies behind the log moves on by what it lacks, and each address with it. So each number keeps its file,
/// with its bytes, and its labels.
///
/// The old image is only read. The new one stands in memory, was checked, and is sound. It has as many
/// blocks as are asked for, or else those of the old one and what its log lacks. What it has more than
/// these are free blocks of zeroes. (The xv6 book, the chapter "File system"; xv6's mkfs, whose `nlog` was
/// 30 in the courses of 2019 to 2024.)
///
/// # Errors
///
/// The first of these that the image has:
///
/// - `BadGeometry`: it has fewer than two blocks.
/// - `BadMagic`: the superblock doesn't have xv6's magic number. One of the second form has another.
/// - `BadGeometry`: its fields are not those of an image of this size whose log has 11 to 31 blocks.
/// - `Logged`: the log isn't empty. Its own kernel has to write its blocks home first.
/// - `SizeRange`: the size asked for has no room for the blocks that there are, or is over 8191.
/// - `Unsound`: the new image would have this fault. A block's number is that in the new one.
///
/// `Disk` with the number of a block that can't be read, and `NoMemory` where memory was refused.
pub fn convert<D: Disk>(
    alloc: Global,
    old: &mut D,
    size: Option<u32>,
) -> Result<MemDisk, ConversionFault>
    ensures converted { IfOk result (λ new. IsConverted (D.image old.old)
        (chosen_size (D.image old.old) log_blocks size) (⟦<MemDisk as Disk>⟧.image new)) }
    ensures taken { OnOk result (conversion_fault (D.image old.old) log_blocks size ≡ None) }
    ensures refused { IfErr result (IsRefusal (D.image old.old) size
        (D.fault_count old.old) (D.fault_count old.new)) }
    ensures reads { OnlyReads D.Disk old.old old.new }
    ensures faults { OnOk result (D.fault_count old.new ≡ D.fault_count old.old) }
{
    let mut new = move_image(alloc, old, LOG_BLOCKS, size)?;
    match check_new(alloc, &mut new) {
        Ok(()) => Ok(new),
        Err(fault) => Err(fault),
    }
}

// Checks the new image.
fn check_new(alloc: Global, new: &mut MemDisk) -> Result<(), ConversionFault>
    ensures same { ⟦<MemDisk as Disk>⟧.image new.new ≡ ⟦<MemDisk as Disk>⟧.image new.old }
    ensures sound { OnOk result (verdict (⟦<MemDisk as Disk>⟧.image new.old) ≡ None) }
    ensures refused { IfErr result (IsNewFault (⟦<MemDisk as Disk>⟧.image new.old)) }
{
    match check(alloc, new) {
        Ok(_report) => Ok(()),
        Err(CheckFault::NoMemory) => Err(ConversionFault::NoMemory),
        Err(fault) => Err(ConversionFault::Unsound(fault)),
    }
}
