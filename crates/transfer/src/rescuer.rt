// The files of a damaged image that are whole, copied into a new one.
ghost use Rattle.std.specs.Prelude.{◌≡◌, IfOk, IfErr, OnOk};
ghost use Rattle.blocks.specs.Calls.{OnlyReads};
ghost use Rattle.wal.specs.Recovery.{LeavesIfCalm};
ghost use Rattle.transfer.specs.Copies.{disk_of};
ghost use Rattle.transfer.specs.Rescues.{IsNoneOrRescued, IsRescued, IsUnrescued};

use crate::copying::copy_chosen;
use crate::fault::CopyFault;
use crate::picking::{Rescued, read_clean};
use blocks::Disk;
use messages::Meter;
use std::alloc::Global;

/// Copies the clean files of an image, as recovery would leave it, each with its number, into a new
/// image of its form, of as many blocks and numbers. The old image is only read, and need not be sound:
/// its superblock and its log have to be lawful. `offline::sort_numbers` says which files are clean.
///
/// The new image is made as `copy` makes one. Answers the numbers of the files and of those that were
/// left out, and hands the new disk back.
///
/// # Errors
///
/// Hands the new disk back with the first of these. It is as it was, but for the last:
///
/// - `Old`: the superblock or the log of the old image has this fault, or could not be read.
/// - `Mkfs`: with `SizeRange` where the new disk has another size than the old one; with `NoMemory`
///   where the allocator refused memory.
/// - `Full`: the files don't fit: those up to this number need more blocks than the new image has for
///   data, and those before it don't.
/// - `Leaked`: no block was free for all bytes of the file of this number, and yet they fit. By the
///   code of the kernel, and by no clause, it uses no block that no file needs.
/// - `NoMemory` where memory was refused.
/// - `Disk` where one of the disks failed. Where it was the old one, the new one is as it was; else
///   block 1 is, or the copy is whole.
pub fn rescue<D: Disk, E: Disk + Drop, P: Meter>(
    alloc: Global,
    old: &mut D,
    mut new: E,
    sync: bool,
    progress: &mut P,
) -> Result<(Rescued, E), (CopyFault, E)>
    ensures rescued { IfOk result (λ rescued.
        IsRescued D.Disk E.Disk sync old.old new rescued.1 rescued.0) }
    ensures refused { IfErr result (λ refused.
        IsUnrescued D.Disk E.Disk old.old old.new new refused.1 refused.0) }
    ensures reads { OnlyReads D.Disk old.old old.new }
    ensures faults { OnOk result (D.fault_count old.new ≡ D.fault_count old.old) }
    ensures name { E.name (disk_of result) ≡ E.name new }
    ensures whole { LeavesIfCalm E.Disk new (disk_of result)
        (IsNoneOrRescued (D.image old.old) (E.image new)) }
{
    let rescued = rescue_into(alloc, old, &mut new, sync, progress);
    progress.ended();
    match rescued {
        Ok(told) => Ok((told, new)),
        Err(fault) => Err((fault, new)),
    }
}

// Rescues the files to a disk that is lent.
fn rescue_into<D: Disk, E: Disk, P: Meter>(
    alloc: Global,
    old: &mut D,
    new: &mut E,
    sync: bool,
    progress: &mut P,
) -> Result<Rescued, CopyFault>
    ensures rescued { IfOk result (IsRescued D.Disk E.Disk sync old.old new.old new.new) }
    ensures refused { IfErr result (IsUnrescued D.Disk E.Disk old.old old.new new.old new.new) }
    ensures reads { OnlyReads D.Disk old.old old.new }
    ensures faults { OnOk result (D.fault_count old.new ≡ D.fault_count old.old) }
    ensures name { E.name new.new ≡ E.name new.old }
    ensures whole { LeavesIfCalm E.Disk new.old new.new
        (IsNoneOrRescued (D.image old.old) (E.image new.old)) }
{
    let (source, told) = read_clean(alloc, old)?;
    let size = source.image.sup.size;
    copy_chosen(alloc, old, &source, new, size, sync, progress)?;
    Ok(told)
}
