// The files of an image of the first form, copied into a new one of the second.
ghost use Rattle.std.specs.Prelude.{◌≡◌, IfOk, IfErr, OnOk};
ghost use Rattle.blocks.specs.Calls.{OnlyReads};
ghost use Rattle.wal.specs.Recovery.{LeavesIfCalm};
ghost use Rattle.transfer.specs.Copies.{IsCopied, IsNoneOrWhole, IsUncopied, disk_of};

use crate::copying::copy_chosen;
use crate::fault::CopyFault;
use crate::source::read_source;
use blocks::Disk;
use messages::Meter;
use std::alloc::Global;

/// Copies the files of an image of the first form, as recovery would leave it, each with its number,
/// into a new image of the second form of `size` blocks, which has as many numbers. The old image is
/// only read.
///
/// The new image is filled in memory. By its code the labels of a used inode are 0, 0, 1 in it,
/// whatever they are in the old one; the numbers up to the last used one are made in order, the free
/// ones among them are removed again, and then each file is written, by its number, in pieces of at
/// most `TRANSFER_LIMIT` bytes.
///
/// Then it is written to the new disk: block 0, blocks 2 to the last in order, a sync, block 1, the
/// superblock, and with `sync` one more. So where the disk holds no write back at the start, a stop at any moment
/// leaves block 1 as it was, or the whole copy. Answers how many files there are, and hands the new
/// disk back.
///
/// # Errors
///
/// Hands the new disk back with the first of these. It is as it was, but for the last:
///
/// - `Old`: the old image has this fault, or could not be checked.
/// - `NotFirst`: the old image is of the second form.
/// - `Mkfs`: with `SizeRange` where there is no image of that size with so many numbers, or the new
///   disk has another size; with `NoMemory` where the allocator refused memory.
/// - `Full`: the files don't fit: those up to this number need more blocks than the new image has for
///   data, and those before it don't.
/// - `Leaked`: no block was free for all bytes of the file of this number, and yet they fit. By the
///   code of the kernel, and by no clause, it uses no block that no file needs.
/// - `NoMemory` where memory was refused.
/// - `Disk` where one of the disks failed. Where it was the old one, the new one is as it was; else
///   block 1 is, or the copy is whole.
pub fn copy<D: Disk, E: Disk + Drop, P: Meter>(
    alloc: Global,
    old: &mut D,
    mut new: E,
    size: u32,
    sync: bool,
    progress: &mut P,
) -> Result<(u32, E), (CopyFault, E)>
    ensures copied { IfOk result (λ copied.
        IsCopied D.Disk E.Disk size sync old.old new copied.1 copied.0) }
    ensures refused { IfErr result (λ refused.
        IsUncopied D.Disk E.Disk size old.old old.new new refused.1 refused.0) }
    ensures reads { OnlyReads D.Disk old.old old.new }
    ensures faults { OnOk result (D.fault_count old.new ≡ D.fault_count old.old) }
    ensures name { E.name (disk_of result) ≡ E.name new }
    ensures whole { LeavesIfCalm E.Disk new (disk_of result)
        (IsNoneOrWhole size (D.image old.old) (E.image new)) }
{
    let copied = copy_into(alloc, old, &mut new, size, sync, progress);
    progress.ended();
    match copied {
        Ok(files) => Ok((files, new)),
        Err(fault) => Err((fault, new)),
    }
}

// Copies the files to a disk that is lent. Answers how many there are.
fn copy_into<D: Disk, E: Disk, P: Meter>(
    alloc: Global,
    old: &mut D,
    new: &mut E,
    size: u32,
    sync: bool,
    progress: &mut P,
) -> Result<u32, CopyFault>
    ensures copied { IfOk result (λ count.
        IsCopied D.Disk E.Disk size sync old.old new.old new.new count) }
    ensures refused { IfErr result
        (IsUncopied D.Disk E.Disk size old.old old.new new.old new.new) }
    ensures reads { OnlyReads D.Disk old.old old.new }
    ensures faults { OnOk result (D.fault_count old.new ≡ D.fault_count old.old) }
    ensures name { E.name new.new ≡ E.name new.old }
    ensures whole { LeavesIfCalm E.Disk new.old new.new
        (IsNoneOrWhole size (D.image old.old) (E.image new.old)) }
{
    let (source, count) = read_source(alloc, old)?;
    copy_chosen(alloc, old, &source, new, size, sync, progress)?;
    Ok(count)
}
