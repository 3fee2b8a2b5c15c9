// How a disk is left.
ghost use Rattle.std.specs.Prelude.{◌≡◌, IsTrue, OnErr, OnOk};
ghost use Rattle.blocks.specs.Disk.{AddsNone, Rose};
ghost use Rattle.transfer.specs.Ending.{SyncsIf};

use blocks::{Disk, SyncFault};

/// Syncs a disk where that is asked for, and else leaves it alone.
///
/// # Errors
///
/// That of the disk's sync.
pub(crate) fn sync_if<D: Disk>(sync: bool, disk: &mut D) -> Result<(), SyncFault>
    ensures syncs { OnOk result (SyncsIf sync D.Disk disk.old disk.new) }
    ensures asked { OnErr result (IsTrue sync) }
    ensures rose { OnErr result (Rose (D.fault_count disk.old) (D.fault_count disk.new)) }
    ensures name { D.name disk.new ≡ D.name disk.old }
    ensures time { AddsNone (D.moment disk.old) (D.moment disk.new)
        (D.leaves disk.old) (D.leaves disk.new) }
{
    if sync {
        return disk.sync();
    }
    Ok(())
}
