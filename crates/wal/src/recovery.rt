// Recovery: what was committed before a crash is copied home.
ghost use Rattle.std.specs.Prelude.{◌≡◌, ◌⊎◌, ◌<◌, ◌≤◌, ◌+◌, false, true, length, slice_set, IsTrue, IfErr, IfOk, IsOk, OnOk, OnErr};
ghost use Rattle.blocks.specs.Block.{zero_block};
ghost use Rattle.blocks.specs.Calls.{OnlyReads, UnlessHolds, WritesOne};
ghost use Rattle.blocks.specs.Disk.{AddsNone, CountsFault, IsOldOrNew, IsSettled, LeavesOnly, one_more};
ghost use Rattle.model.specs.Format.{log_capacity, inode_start, log_start};
ghost use Rattle.model.specs.Layout.{is_lawful_super};
ghost use Rattle.model.specs.Log.{is_lawful_log, homes_of};
ghost use Rattle.wal.specs.Recovery.{BringsHome, Clears, Copies, FailsLate, FailsOnce, IsCalm, LeavesFromSync, MayStop, OnNoMemory, ReadsHeader, Recovers, RecoversAs, RecoversBy, RefusesToRecover, Rests, Settles, StopsAlike, syncs_to_restore, syncs_to_settle};

use crate::RecoverFault;
use blocks::{Block, Disk, DiskFault, SyncFault};
use layout::header::Header;
use layout::{LOG_START, Super};
use std::alloc::Global;

// Reads the header of a lawful log in an image of that many blocks.
fn read_header<D: Disk>(disk: &mut D, size: u32, block: &mut Block) -> Result<Header, RecoverFault>
    requires size { size ≡ length (D.image disk.old) }
    requires long { inode_start ≤ size }
    ensures ok { IfOk result (ReadsHeader D.Disk disk.old disk.new) }
    ensures refused { RefusesToRecover D.Disk disk.old disk.new result }
    ensures reads { OnlyReads D.Disk disk.old disk.new }
    ensures memory { OnNoMemory result ⊥ }
{
    disk.read(LOG_START, block)?;
    let header = Header::read(block.as_slice());
    if !header.is_lawful(size) {
        return Err(RecoverFault::BadLog);
    }
    Ok(header)
}

// The log's block for the home at a place, from 0.
fn log_block(place: usize) -> u32
    requires { place < log_capacity }
    ensures { result ≡ log_start + 1 + place }
{
    LOG_START + 1 + place as u32
}

// Brings what a disk holds back to the disk.
fn settle<D: Disk>(disk: &mut D) -> Result<(), SyncFault>
    ensures ok { OnOk result
        (Settles D.Disk (syncs_to_settle (D.holding (D.name disk.old))) disk.old disk.new) }
    ensures rests { Rests D.Disk disk.old disk.new }
    ensures faults { CountsFault result (D.fault_count disk.old) (D.fault_count disk.new) }
    ensures plain { UnlessHolds D.Disk disk.old (disk.new ≡ disk.old) }
    ensures unsynced { OnErr result (D.sync_count disk.new ≡ D.sync_count disk.old) }
    ensures holds { OnErr result (D.holding (D.name disk.old) ≡ true) }
{
    if disk.holds() {
        return disk.sync();
    }
    Ok(())
}

// Empties the header of a disk on which nothing is held, and then nothing is.
fn clear_header<D: Disk>(disk: &mut D, empty: &Block) -> Result<(), RecoverFault>
    requires inside { 2 < length (D.image disk.old) }
    requires empty { empty.now ≡ zero_block }
    requires settled { IsCalm D.Disk disk.old }
    ensures ok { OnOk result (Clears D.Disk disk.old disk.new) }
    ensures fails { FailsLate D.Disk disk.old disk.new result }
    ensures stops { LeavesOnly D.moment D.leaves disk.old disk.new
        (IsOldOrNew (D.image disk.old) 2 zero_block) }
{
    disk.write(LOG_START, empty)?;
    settle(disk)?;
    Ok(())
}

// Copies each logged block home.
fn copy_home<D: Disk>(disk: &mut D, block: &mut Block, homes: &[u32]) -> Result<(), DiskFault>
    requires long { inode_start ≤ length (D.image disk.old) }
    requires lawful { IsTrue (is_lawful_log (D.image disk.old)) }
    requires homes { homes.now ≡ homes_of (D.image disk.old) }
    requires settled { IsCalm D.Disk disk.old }
    ensures ok { OnOk result (Copies D.Disk (length homes.now) disk.old disk.new) }
    ensures name { D.name disk.new ≡ D.name disk.old }
    ensures disk { OnErr result (FailsOnce D.Disk disk.old disk.new) }
    ensures syncs { D.sync_count disk.new ≡ D.sync_count disk.old }
    ensures stops { StopsAlike D.Disk disk.old disk.new }
{
    for (k, home) in homes.iter().enumerate() {
        disk.read(log_block(k), block)?;
        disk.write(*home, block)?;
    }
    Ok(())
}

// Copies each logged block home, and then nothing is held.
fn bring_home<D: Disk>(disk: &mut D, block: &mut Block, homes: &[u32]) -> Result<(), RecoverFault>
    requires long { inode_start ≤ length (D.image disk.old) }
    requires lawful { IsTrue (is_lawful_log (D.image disk.old)) }
    requires homes { homes.now ≡ homes_of (D.image disk.old) }
    requires settled { IsCalm D.Disk disk.old }
    ensures ok { OnOk result (BringsHome D.Disk (length homes.now) disk.old disk.new) }
    ensures fails { FailsLate D.Disk disk.old disk.new result }
    ensures stops { StopsAlike D.Disk disk.old disk.new }
{
    copy_home(disk, block, homes)?;
    settle(disk)?;
    Ok(())
}

// Recovers a disk on which nothing is held.
fn restore<D: Disk>(
    disk: &mut D,
    sup: &Super,
    block: &mut Block,
    empty: &Block,
) -> Result<u32, RecoverFault>
    requires fields { IsTrue (is_lawful_super sup.now (length (D.image disk.old))) }
    requires empty { empty.now ≡ zero_block }
    requires settled { IsCalm D.Disk disk.old }
    ensures ok { IfOk result (λ n. RecoversBy D.Disk n
        (syncs_to_restore (D.holding (D.name disk.old)) n) disk.old disk.new) }
    ensures name { D.name disk.new ≡ D.name disk.old }
    ensures refused { RefusesToRecover D.Disk disk.old disk.new result }
    ensures memory { OnNoMemory result ⊥ }
    ensures stops { StopsAlike D.Disk disk.old disk.new }
{
    let header = read_header(disk, sup.size, block)?;
    if header.n == 0 {
        return Ok(0);
    }
    bring_home(disk, block, header.homes.as_slice())?;
    clear_header(disk, empty)?;
    Ok(header.n)
}

/// Brings what the last commit logged to its end, or shows that nothing is logged: each logged
/// block is copied to its home, in the order of logging, and then the header is cleared. It answers
/// how many blocks were copied; where that is 0 it writes nothing. `sup` is the disk's superblock
/// (the xv6 book, the chapter "File system": "Code: logging").
///
/// A disk that holds writes back is synced before the header is read, after the copies and after
/// the header is cleared; where nothing is logged, the first of these alone. Another is not synced.
///
/// It may be stopped at any write, and run again: whatever a crash leaves, a later recovery gives
/// the same image. So it does of a disk that holds writes back from its first sync on, before which
/// nothing is added to what a crash may leave. A second call answers 0.
///
/// # Errors
///
/// `NoMemory` where the allocator refuses two blocks; nothing was read or written. `BadLog` where
/// the header is not lawful; nothing was written. `Disk` where a read or a write failed, behind which
/// none was made: recovery is not at its end, and may be run again. `Sync` where a sync failed: as
/// with `Disk`.
pub fn recover<D: Disk>(alloc: Global, disk: &mut D, sup: &Super) -> Result<u32, RecoverFault>
    requires { IsTrue (is_lawful_super sup.now (length (D.image disk.old))) }
    ensures ok { IfOk result (λ n. Recovers D.Disk n disk.old disk.new) }
    ensures name { D.name disk.new ≡ D.name disk.old }
    ensures refused { RefusesToRecover D.Disk disk.old disk.new result }
    ensures stops { MayStop D.Disk disk.old disk.new }
    ensures synced { OnOk result
        (LeavesFromSync D.Disk disk.old disk.new (RecoversAs (D.image disk.old))) }
{
    let mut block = Block::zeroed(alloc)?;
    let empty = Block::zeroed(alloc)?;
    settle(disk)?;
    restore(disk, sup, &mut block, &empty)
}
