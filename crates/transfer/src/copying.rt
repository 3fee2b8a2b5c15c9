// A new image with files of an old one: filled in memory, and then written to its disk.
ghost use Rattle.std.specs.Prelude.{◌≡◌, IsTrue, IfOk, IfErr, OnOk};
ghost use Rattle.blocks.specs.Calls.{OnlyReads};
ghost use Rattle.model.specs.Layout.{inode_count_of, is_size};
ghost use Rattle.model.specs.Log.{recovered};
ghost use Rattle.wal.specs.Recovery.{LeavesIfCalm};
ghost use Rattle.transfer.specs.Copies.{HoldsFiles, IsFilledOut, IsNoneOrFilled, IsNotFilledOut, IsUnfilled};
ghost use Rattle.transfer.specs.Fitting.{data_count};
ghost use Rattle.transfer.specs.Source.{IsSourceOf, chosen_files};

use crate::fault::CopyFault;
use crate::filling::fill;
use crate::fitting::why_short;
use crate::making::{check_size, make_new};
use crate::source::Source;
use crate::writing_out::write_out;
use blocks::{Disk, MemDisk};
use messages::Meter;
use std::alloc::Global;

/// Writes an image with the source's files to a disk that is lent, of `size` blocks and as many
/// numbers as the old one.
pub(crate) fn copy_chosen<D: Disk, E: Disk, P: Meter>(
    alloc: Global,
    old: &mut D,
    source: &Source,
    new: &mut E,
    size: u32,
    sync: bool,
    progress: &mut P,
) -> Result<(), CopyFault>
    requires source { IsSourceOf (D.image old.old) source.now }
    ensures filled { OnOk result (IsFilledOut E.Disk size source.now.form
        (chosen_files (recovered (D.image old.old)) source.now.kinds.items) sync new.old new.new) }
    ensures refused { IfErr result (IsNotFilledOut D.Disk E.Disk size
        (inode_count_of (D.image old.old)) source.now.form
        (chosen_files (recovered (D.image old.old)) source.now.kinds.items)
        old.old old.new new.old new.new) }
    ensures reads { OnlyReads D.Disk old.old old.new }
    ensures faults { OnOk result (D.fault_count old.new ≡ D.fault_count old.old) }
    ensures name { E.name new.new ≡ E.name new.old }
    ensures whole { LeavesIfCalm E.Disk new.old new.new (IsNoneOrFilled size source.now.form
        (chosen_files (recovered (D.image old.old)) source.now.kinds.items) (E.image new.old)) }
{
    let room = check_size(new, size, source.image.sup.ninodes)?;
    let memory = fill_or_tell(alloc, old, source, size, room, progress)?;
    write_out(alloc, memory, new, sync, progress)?;
    Ok(())
}

// The new image, in memory, which has so many blocks for data; or why there is none.
fn fill_or_tell<D: Disk, P: Meter>(
    alloc: Global,
    old: &mut D,
    source: &Source,
    size: u32,
    room: u32,
    progress: &mut P,
) -> Result<MemDisk, CopyFault>
    requires source { IsSourceOf (D.image old.old) source.now }
    requires size { IsTrue (is_size size source.now.image.sup.ninodes) }
    requires room { room ≡ data_count size (inode_count_of (D.image old.old)) }
    ensures filled { IfOk result (λ memory. HoldsFiles size source.now.form
        (chosen_files (recovered (D.image old.old)) source.now.kinds.items)
        (⟦<MemDisk as Disk>⟧.image memory)) }
    ensures refused { IfErr result (IsUnfilled D.Disk size (inode_count_of (D.image old.old))
        source.now.form (chosen_files (recovered (D.image old.old)) source.now.kinds.items)
        old.old old.new) }
    ensures reads { OnlyReads D.Disk old.old old.new }
    ensures faults { OnOk result (D.fault_count old.new ≡ D.fault_count old.old) }
{
    match fill_new(alloc, old, source, size, progress) {
        Ok(memory) => Ok(memory),
        Err(CopyFault::Leaked(i)) => Err(why_short(alloc, old, source, room, i)),
        Err(other) => Err(other),
    }
}

// The new image, in memory.
fn fill_new<D: Disk, P: Meter>(
    alloc: Global,
    old: &mut D,
    source: &Source,
    size: u32,
    progress: &mut P,
) -> Result<MemDisk, CopyFault>
    requires source { IsSourceOf (D.image old.old) source.now }
    requires size { IsTrue (is_size size source.now.image.sup.ninodes) }
    ensures filled { IfOk result (λ memory. HoldsFiles size source.now.form
        (chosen_files (recovered (D.image old.old)) source.now.kinds.items)
        (⟦<MemDisk as Disk>⟧.image memory)) }
    ensures refused { IfErr result (IsUnfilled D.Disk size (inode_count_of (D.image old.old))
        source.now.form (chosen_files (recovered (D.image old.old)) source.now.kinds.items)
        old.old old.new) }
    ensures reads { OnlyReads D.Disk old.old old.new }
    ensures faults { OnOk result (D.fault_count old.new ≡ D.fault_count old.old) }
{
    let memory = MemDisk::new(alloc, size)?;
    let mut kernel = match make_new(alloc, memory, size, source.image.sup.ninodes, source.form) {
        Ok(kernel) => kernel,
        Err((fault, _memory)) => return Err(fault),
    };
    let filled = fill(alloc, old, source, &mut kernel, progress);
    let memory = kernel.into_disk();
    match filled {
        Ok(()) => Ok(memory),
        Err(fault) => Err(fault),
    }
}
