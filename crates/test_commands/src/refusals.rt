// What the commands' refusals say.
use blocks::DiskFault;
use disk_commands::CatRefusal;
use kernel::OpenFault;
use layout::CheckFault;
use messages::Printed;
use opening::RecoverRefusal;
use player::ReplayRefusal;
use runner::RunRefusal;
use transfer::PutRefusal;
use wal::{DeviceFault, RecoverFault};

/// How a replay ends.
pub type Replayed = Result<(), ReplayRefusal>;

/// How a run ends.
pub type Ran = Result<(), RunRefusal>;

/// How a put ends.
pub type Put = Result<(), PutRefusal>;

/// How a cat ends.
pub type Shown = Result<(), CatRefusal>;

/// Whether the block 2 failed in a replay.
pub fn is_block_of_replay(ended: &Replayed) -> bool {
    matches!(
        ended,
        Err(ReplayRefusal::Disk(DeviceFault::Block(DiskFault(2))))
    )
}

/// Whether the block 2 failed in a run.
pub fn is_block_of_run(ended: &Ran) -> bool {
    matches!(
        ended,
        Err(RunRefusal::Disk(DeviceFault::Block(DiskFault(2))))
    )
}

/// Whether a recovery of a replay could not sync: its own, or that of the kernel's opening.
pub fn is_sync_of_recovery(ended: &Replayed) -> bool {
    matches!(
        ended,
        Err(
            ReplayRefusal::Unrecovered(RecoverRefusal::Recover(RecoverFault::Sync))
                | ReplayRefusal::Unopened(OpenFault::Recover(RecoverFault::Sync))
        )
    )
}

/// Whether a sync failed in the turns of a replay.
pub fn is_sync_of_replay(ended: &Replayed) -> bool {
    matches!(ended, Err(ReplayRefusal::Disk(DeviceFault::Sync(_))))
}

/// Whether the output was refused to a check.
pub fn is_output_of_check(ended: &Result<(), Printed<CheckFault>>) -> bool {
    matches!(ended, Err(Printed::Output))
}

/// Whether the output was refused to a recovery.
pub fn is_output_of_recovery(ended: &Result<(), Printed<RecoverRefusal>>) -> bool {
    matches!(ended, Err(Printed::Output))
}

/// Whether the disk failed in a put.
pub fn is_disk_of_put(put: &Put) -> bool {
    matches!(
        put,
        Err(
            PutRefusal::Check(CheckFault::Disk)
                | PutRefusal::Unopened(OpenFault::Check(CheckFault::Disk))
                | PutRefusal::Unopened(OpenFault::Recover(RecoverFault::Disk))
                | PutRefusal::Disk(_)
        )
    )
}

/// Whether there was no such file for a cat.
pub fn is_no_file(shown: &Shown) -> bool {
    matches!(shown, Err(CatRefusal::NoFile))
}

/// Whether the disk failed in a cat before the recovery was done.
pub fn is_early(shown: &Shown) -> bool {
    matches!(
        shown,
        Err(CatRefusal::Unrecovered(
            RecoverRefusal::Check(CheckFault::Disk) | RecoverRefusal::Recover(RecoverFault::Disk)
        ))
    )
}

/// Whether the disk failed in a cat behind the recovery.
pub fn is_later(shown: &Shown) -> bool {
    matches!(shown, Err(CatRefusal::Disk(_)))
}
