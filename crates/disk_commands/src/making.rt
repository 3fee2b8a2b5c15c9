// A new image on a disk.
ghost use Rattle.std.specs.Prelude.{◌≡◌, OnOk, IfErr, IfOk};
ghost use Rattle.blocks.specs.Calls.{UnlessHolds};
ghost use Rattle.blocks.specs.Disk.{LeavesOnly};
ghost use Rattle.offline.specs.Making.{IsMadeInPartAs, MakesAs};
ghost use Rattle.model.specs.Layout.{planned_super};
ghost use Rattle.disk_commands.specs.Causes.{IsUnmade};
ghost use Rattle.disk_commands.specs.Looks.{EndsSynced};

use blocks::Disk;
use layout::{MkfsFault, Super, plan};
use model::types::Form;
use offline::mkfs_as;
use std::alloc::Global;

/// Makes an image of that form, of `size` blocks of 1024 bytes and with `ninodes` inode numbers, on
/// a disk of that size, and syncs the disk. The fields of its superblock.
///
/// # Errors
///
/// A fault of `plan` or of `mkfs_as`; `Disk` where the sync failed, too.
pub fn make_disk<D: Disk>(
    alloc: Global,
    disk: &mut D,
    form: Form,
    size: u32,
    ninodes: u32,
) -> Result<Super, MkfsFault>
    ensures made { OnOk result (MakesAs D.Disk form size ninodes disk.old disk.new) }
    ensures synced { OnOk result (EndsSynced D.Disk disk.new) }
    ensures fields { IfOk result (λ fields. fields ≡ planned_super size ninodes) }
    ensures name { D.name disk.new ≡ D.name disk.old }
    ensures refused { IfErr result (IsUnmade D.image D.fault_count form size ninodes disk.old
        disk.new) }
    ensures order { UnlessHolds D.Disk disk.old (LeavesOnly D.moment D.leaves disk.old disk.new
        (IsMadeInPartAs form (D.image disk.old) size ninodes)) }
{
    let fields = plan(size, ninodes)?;
    mkfs_as(alloc, disk, size, ninodes, form)?;
    if disk.sync().is_err() {
        return Err(MkfsFault::Disk);
    }
    Ok(fields)
}
