// A sound image of ours, made into one with a shorter log.
ghost use Rattle.std.specs.Prelude.{◌≡◌, IfErr, IfOk, None, OnOk, true};
ghost use Rattle.blocks.specs.Calls.{OnlyReads};
ghost use Rattle.model.specs.Verdict.{verdict};
ghost use Rattle.conversion.specs.Converted.{chosen_size, conversion_fault};
ghost use Rattle.conversion.specs.Older.{is_log_length};
ghost use Rattle.conversion.specs.Shortened.{IsNotShortened, IsShortened, IsUnchecked};

use crate::fault::ConversionFault;
use crate::filling::move_image;
use blocks::{Disk, MemDisk};
use offline::check;
use std::alloc::Global;

/// Gives a sound image of ours a log of `nlog` blocks, as a kernel with a shorter log wants it. What lies
/// behind the log moves back, and each address with it. So each number keeps its file, with its bytes,
/// and its labels, and the new image is sound as one with such a log.
///
/// The old image is only read, and the new one stands in memory. It has as many blocks as are asked for,
/// or else those of the old one without what its log lacks. What it has more than these are free blocks
/// of zeroes. `convert` gives it our log again.
///
/// # Errors
///
/// `Unsound` with the first fault of the old image, or of its check. Then the first of these that the
/// image has:
///
/// - `BadMagic`: it is of the second form.
/// - `Logged`: the log isn't empty. Recovery has to write its blocks home first.
/// - `SizeRange`: the size asked for has no room for the blocks that there are, or is over 8191.
///
/// `Disk` with the number of a block that can't be read behind the check, and `NoMemory` where memory was
/// refused.
pub fn shorten<D: Disk>(
    alloc: Global,
    old: &mut D,
    nlog: u32,
    size: Option<u32>,
) -> Result<MemDisk, ConversionFault>
    requires log { is_log_length nlog ≡ true }
    ensures shortened { IfOk result (λ new. IsShortened (D.image old.old) nlog
        (chosen_size (D.image old.old) nlog size) (⟦<MemDisk as Disk>⟧.image new)) }
    ensures taken { OnOk result (conversion_fault (D.image old.old) nlog size ≡ None) }
    ensures refused { IfErr result (IsNotShortened (D.image old.old) nlog size
        (D.fault_count old.old) (D.fault_count old.new)) }
    ensures reads { OnlyReads D.Disk old.old old.new }
    ensures faults { OnOk result (D.fault_count old.new ≡ D.fault_count old.old) }
{
    check_old(alloc, old)?;
    move_image(alloc, old, nlog, size)
}

// Checks the old image.
fn check_old<D: Disk>(alloc: Global, old: &mut D) -> Result<(), ConversionFault>
    ensures sound { OnOk result (verdict (D.image old.old) ≡ None) }
    ensures refused { IfErr result (IsUnchecked (D.image old.old)
        (D.fault_count old.old) (D.fault_count old.new)) }
    ensures reads { OnlyReads D.Disk old.old old.new }
    ensures faults { OnOk result (D.fault_count old.new ≡ D.fault_count old.old) }
{
    match check(alloc, old) {
        Ok(_report) => Ok(()),
        Err(fault) => Err(ConversionFault::Unsound(fault)),
    }
}
