// The new image in memory, filled block by block.
ghost use Rattle.std.specs.Prelude.{◌≡◌, ◌<◌, IfErr, IfOk, None, OnOk, length, slice_set, true};
ghost use Rattle.blocks.specs.Block.{zero_block};
ghost use Rattle.blocks.specs.Calls.{OnlyReads};
ghost use Rattle.blocks.specs.Disk.{CountsFault};
ghost use Rattle.conversion.specs.Moving.{moved_block, moved_image};
ghost use Rattle.conversion.specs.Converted.{IsUnmoved, chosen_size, conversion_fault};
ghost use Rattle.conversion.specs.Older.{bitmap_behind, is_log_length};
ghost use Rattle.conversion.specs.Prepared.{IsPrepared};

use crate::fault::ConversionFault;
use crate::geometry::{behind_log, bitmap_behind, super_with};
use crate::moving::{move_entries, move_inodes};
use crate::plan::read_plan;
use crate::prepared::{Prepared, prepare};
use blocks::{BLOCK_SIZE, Block, Disk, DiskFault, MemDisk};
use layout::superblock;
use model::types::Form;
use std::alloc::Global;

// Writes a block of a disk in memory, where no write fails.
fn put(new: &mut MemDisk, b: u32, block: &Block)
    requires { b < length (⟦<MemDisk as Disk>⟧.image new.old) }
    ensures { ⟦<MemDisk as Disk>⟧.image new.new
        ≡ slice_set (⟦<MemDisk as Disk>⟧.image new.old) b block.now }
{
    let _done = new.write(b, block);
}

// Writes zeroes over a block.
fn clear(block: &mut Block)
    ensures { block.new ≡ zero_block }
{
    let _bytes = block.as_slice();
    block.put(0, &[0; BLOCK_SIZE]);
}

// Reads data block b of the new image, or gives zeroes behind the old one's last.
fn read_data<D: Disk>(
    old: &mut D,
    prepared: &Prepared,
    b: u32,
    block: &mut Block,
) -> Result<(), DiskFault>
    requires prepared { IsPrepared (D.image old.old) prepared.now }
    requires behind { bitmap_behind prepared.now.plan.to prepared.now.plan.sup.ninodes < b }
    requires inside { b < prepared.now.plan.size }
    ensures moved { OnOk result (block.new
        ≡ moved_block (D.image old.old) prepared.now.plan.to prepared.now.plan.size b) }
    ensures fault { IfErr result (λ fault. fault.0 < length (D.image old.old)) }
    ensures reads { OnlyReads D.Disk old.old old.new }
    ensures faults { CountsFault result (D.fault_count old.old) (D.fault_count old.new) }
{
    let plan = &prepared.plan;
    let source = b + plan.sup.nlog - plan.to;
    if source >= plan.sup.size {
        clear(block);
        return Ok(());
    }
    old.read(source, block)?;
    if prepared.nodes[source as usize] {
        move_entries(plan.sup.nlog, plan.to, block);
    }
    Ok(())
}

// Reads block b of the new image.
fn read_moved<D: Disk>(
    old: &mut D,
    prepared: &Prepared,
    b: u32,
    block: &mut Block,
) -> Result<(), DiskFault>
    requires prepared { IsPrepared (D.image old.old) prepared.now }
    requires inside { b < prepared.now.plan.size }
    ensures moved { OnOk result (block.new
        ≡ moved_block (D.image old.old) prepared.now.plan.to prepared.now.plan.size b) }
    ensures fault { IfErr result (λ fault. fault.0 < length (D.image old.old)) }
    ensures reads { OnlyReads D.Disk old.old old.new }
    ensures faults { CountsFault result (D.fault_count old.old) (D.fault_count old.new) }
{
    let plan = &prepared.plan;
    if b == 0 {
        return old.read(0, block);
    }
    if b == 1 {
        let fields = super_with(plan.to, plan.size, plan.sup.ninodes);
        superblock::write(&fields, Form::One, block);
        return Ok(());
    }
    if b < behind_log(plan.to) {
        clear(block);
        return Ok(());
    }
    let bitmap = bitmap_behind(plan.to, plan.sup.ninodes);
    if b < bitmap {
        old.read(b + plan.sup.nlog - plan.to, block)?;
        move_inodes(plan.sup.nlog, plan.to, block);
        return Ok(());
    }
    if b == bitmap {
        block.copy_from(&prepared.marks);
        return Ok(());
    }
    read_data(old, prepared, b, block)
}

/// Fills the new image, in memory, which has the size of the plan. The block is room for one.
pub(crate) fn fill<D: Disk>(
    old: &mut D,
    prepared: &Prepared,
    new: &mut MemDisk,
    block: &mut Block,
) -> Result<(), DiskFault>
    requires prepared { IsPrepared (D.image old.old) prepared.now }
    requires size { length (⟦<MemDisk as Disk>⟧.image new.old) ≡ prepared.now.plan.size }
    ensures filled { OnOk result (⟦<MemDisk as Disk>⟧.image new.new
        ≡ moved_image (D.image old.old) prepared.now.plan.to prepared.now.plan.size) }
    ensures fault { IfErr result (λ fault. fault.0 < length (D.image old.old)) }
    ensures reads { OnlyReads D.Disk old.old old.new }
    ensures faults { CountsFault result (D.fault_count old.old) (D.fault_count old.new) }
{
    for b in 0..prepared.plan.size {
        read_moved(old, prepared, b, block)?;
        put(new, b, block);
    }
    Ok(())
}

/// The image with a log of `to` blocks, in memory, and of the size that is asked for.
pub(crate) fn move_image<D: Disk>(
    alloc: Global,
    old: &mut D,
    to: u32,
    asked: Option<u32>,
) -> Result<MemDisk, ConversionFault>
    requires log { is_log_length to ≡ true }
    ensures moved { IfOk result (λ new. ⟦<MemDisk as Disk>⟧.image new
        ≡ moved_image (D.image old.old) to (chosen_size (D.image old.old) to asked)) }
    ensures taken { OnOk result (conversion_fault (D.image old.old) to asked ≡ None) }
    ensures refused { IfErr result (IsUnmoved (D.image old.old) to asked
        (D.fault_count old.old) (D.fault_count old.new)) }
    ensures reads { OnlyReads D.Disk old.old old.new }
    ensures faults { OnOk result (D.fault_count old.new ≡ D.fault_count old.old) }
{
    let mut block = Block::zeroed(alloc)?;
    let plan = read_plan(old, to, asked, &mut block)?;
    let prepared = prepare(alloc, old, plan, &mut block)?;
    let mut new = MemDisk::new(alloc, plan.size)?;
    match fill(old, &prepared, &mut new, &mut block) {
        Ok(()) => Ok(new),
        Err(failed) => Err(ConversionFault::Disk(failed.0)),
    }
}
