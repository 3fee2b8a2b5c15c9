// An image in memory, written to a disk.
ghost use Rattle.std.specs.Prelude.{◌≡◌, ◌≤◌, ◌<◌, length, IfErr, OnOk, OnErr};
ghost use Rattle.blocks.specs.Calls.{WritesOne};
ghost use Rattle.blocks.specs.Disk.{Rose, block_at};
ghost use Rattle.wal.specs.Recovery.{LeavesIfCalm};
ghost use Rattle.transfer.specs.Writing.{IsNoneOr, IsNotWrittenOut, KeepsSuperblock, WritesOut, WritesRest};

use crate::ending::sync_if;
use crate::fault::CopyFault;
use blocks::{Block, Disk, DiskFault, MemDisk, SyncFault};
use messages::Meter;
use std::alloc::Global;

/// Writes the image in memory to a disk of its size, without a log: block 0, then blocks 2 to the
/// last in order, a sync, block 1, the superblock, and with `sync` one more. So where it stops before
/// its end, block 1 is as it was, or all of the image is there.
///
/// # Errors
///
/// `NoMemory` where memory for a block was refused: nothing was written. `Disk` where the disk
/// failed: what it holds then is not said, but for the above.
pub(crate) fn write_out<E: Disk, P: Meter>(
    alloc: Global,
    mut memory: MemDisk,
    disk: &mut E,
    sync: bool,
    progress: &mut P,
) -> Result<(), CopyFault>
    requires size { length (E.image disk.old) ≡ length (⟦<MemDisk as Disk>⟧.image memory) }
    requires some { 2 ≤ length (⟦<MemDisk as Disk>⟧.image memory) }
    ensures written { OnOk result
        (WritesOut E.Disk (⟦<MemDisk as Disk>⟧.image memory) sync disk.old disk.new) }
    ensures refused { IfErr result (IsNotWrittenOut E.Disk disk.old disk.new) }
    ensures name { E.name disk.new ≡ E.name disk.old }
    ensures stops { LeavesIfCalm E.Disk disk.old disk.new
        (IsNoneOr (E.image disk.old) (⟦<MemDisk as Disk>⟧.image memory)) }
{
    let mut block = Block::zeroed(alloc)?;
    match write_image(&mut memory, disk, sync, &mut block, progress) {
        Ok(()) => Ok(()),
        Err(_) => Err(CopyFault::Disk),
    }
}

/// How a disk failed to which an image is written.
#[derive(Clone, Copy, Debug)]
pub enum WriteFault {
    /// A write failed.
    Block(DiskFault),
    /// A sync failed.
    Sync(SyncFault),
}

impl From<DiskFault> for WriteFault {
    ghost use Rattle.transfer.specs.declared.writing_out.WriteFault.TheVariants as fault;

    ghost from_gives = { λ failed e. e ≡ fault.Block failed };

    fn from(failed: DiskFault) -> WriteFault {
        WriteFault::Block(failed)
    }
}

impl From<SyncFault> for WriteFault {
    ghost use Rattle.transfer.specs.declared.writing_out.WriteFault.TheVariants as fault;

    ghost from_gives = { λ failed e. e ≡ fault.Sync failed };

    fn from(failed: SyncFault) -> WriteFault {
        WriteFault::Sync(failed)
    }
}

/// Writes the image in memory to a disk of its size, as `write_out`. The block is room for one: what it
/// holds afterwards is not said.
///
/// # Errors
///
/// The disk's: what it holds then is not said, but that block 1 is as it was or all of the image is
/// there.
pub fn write_image<E: Disk, P: Meter>(
    memory: &mut MemDisk,
    disk: &mut E,
    sync: bool,
    block: &mut Block,
    progress: &mut P,
) -> Result<(), WriteFault>
    requires size { length (E.image disk.old) ≡ length (⟦<MemDisk as Disk>⟧.image memory.old) }
    requires some { 2 ≤ length (⟦<MemDisk as Disk>⟧.image memory.old) }
    ensures written { OnOk result
        (WritesOut E.Disk (⟦<MemDisk as Disk>⟧.image memory.old) sync disk.old disk.new) }
    ensures rose { OnErr result (Rose (E.fault_count disk.old) (E.fault_count disk.new)) }
    ensures name { E.name disk.new ≡ E.name disk.old }
    ensures stops { LeavesIfCalm E.Disk disk.old disk.new
        (IsNoneOr (E.image disk.old) (⟦<MemDisk as Disk>⟧.image memory.old)) }
{
    write_rest(memory, disk, block, progress)?;
    disk.sync()?;
    write_block(memory, disk, 1, block)?;
    Ok(sync_if(sync, disk)?)
}

// Writes all blocks but the superblock, in order.
fn write_rest<E: Disk, P: Meter>(
    memory: &mut MemDisk,
    disk: &mut E,
    block: &mut Block,
    progress: &mut P,
) -> Result<(), DiskFault>
    requires size { length (E.image disk.old) ≡ length (⟦<MemDisk as Disk>⟧.image memory.old) }
    requires some { 2 ≤ length (⟦<MemDisk as Disk>⟧.image memory.old) }
    ensures written { OnOk result
        (WritesRest E.Disk (⟦<MemDisk as Disk>⟧.image memory.old) disk.old disk.new) }
    ensures rose { OnErr result (Rose (E.fault_count disk.old) (E.fault_count disk.new)) }
    ensures name { E.name disk.new ≡ E.name disk.old }
    ensures keeps { ⟦<MemDisk as Disk>⟧.image memory.new ≡ ⟦<MemDisk as Disk>⟧.image memory.old }
    ensures stops { LeavesIfCalm E.Disk disk.old disk.new (KeepsSuperblock (E.image disk.old)) }
{
    write_block(memory, disk, 0, block)?;
    for b in 2..memory.size() {
        write_block(memory, disk, b, block)?;
        progress.reached(u64::from(b), u64::from(memory.size()), "blocks");
    }
    Ok(())
}

// Writes one block of the image in memory. The block is room for it.
fn write_block<E: Disk>(
    memory: &mut MemDisk,
    disk: &mut E,
    b: u32,
    block: &mut Block,
) -> Result<(), DiskFault>
    requires inside { b < length (⟦<MemDisk as Disk>⟧.image memory.old) }
    requires size { length (E.image disk.old) ≡ length (⟦<MemDisk as Disk>⟧.image memory.old) }
    ensures writes { WritesOne E.Disk b
        (block_at (⟦<MemDisk as Disk>⟧.image memory.old) b) result disk.old disk.new }
    ensures keeps { ⟦<MemDisk as Disk>⟧.image memory.new ≡ ⟦<MemDisk as Disk>⟧.image memory.old }
{
    let Ok(()) = memory.read(b, block) else {
        // A disk in memory never fails.
        unreachable!()
    };
    disk.write(b, block)
}
