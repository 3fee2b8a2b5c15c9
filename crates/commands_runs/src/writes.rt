// The writes of a replay, by one over a copy in memory of its disk.
ghost use Rattle.std.specs.Prelude.{◌≡◌, ◌<◌, All, IfOk, IsOk, IsTrue, None, OnOk, false, unwrap_or};
ghost use Rattle.std.specs.List.{list_all};
ghost use Rattle.model.specs.Log.{recovered};
ghost use Rattle.model.specs.Verdict.{verdict};
ghost use Rattle.scripts.specs.Schedule.{is_word_of};
ghost use Rattle.commands.specs.Copied.{memory};
ghost use Rattle.commands_runs.specs.Filed.{held_memory};
ghost use Rattle.commands_runs.specs.Writes.{AreWrites, IsOfImage, MakesWrites};

use crate::mute::Mute;
use crate::remembering::Remembering;
use blocks::{Disk, MemDisk, NoMemory, SyncDisk};
use json_lines::Written;
use layout::CheckFault;
use messages::Silent;
use opening::{RecoverRefusal, recover_image};
use player::{LineTeller, ReplayRefusal, Scenario, replay_with};
use std::alloc::Global;
use std::io::sink;

/// The writes of the replay of a scenario over a disk in memory, once its image is recovered; none
/// where that has a fault.
///
/// # Errors
///
/// `NoMemory`. By its code memory for the replay, for an operation of it or for what it wrote was
/// refused, since a disk in memory doesn't fail.
pub(crate) fn writes_over<D: Disk + Drop>(
    alloc: Global,
    mut disk: D,
    scenario: Scenario,
) -> Result<Vec<Written>, NoMemory>
    requires tasks { All (λ task. task.pid < scenario.processes) scenario.tasks.items }
    requires words { IsTrue (list_all (is_word_of scenario.processes) scenario.words.items) }
    ensures { IfOk result (λ written. verdict (D.image disk) ≡ None → MakesWrites D.Disk
        (recovered (D.image disk)) scenario.tasks.items scenario.processes scenario.words.items
        (unwrap_or scenario.stop 0) written.items) }
{
    match recover_image(alloc, &mut disk, &mut Silent) {
        Ok(_copied) => writes_of(alloc, disk, scenario),
        Err(refusal) => no_writes(alloc, refusal),
    }
}

/// As `writes_over`, over a disk with the blocks of this one that holds writes back.
pub(crate) fn writes_held(
    alloc: Global,
    disk: MemDisk,
    scenario: Scenario,
) -> Result<Vec<Written>, NoMemory>
    requires tasks { All (λ task. task.pid < scenario.processes) scenario.tasks.items }
    requires words { IsTrue (list_all (is_word_of scenario.processes) scenario.words.items) }
    ensures { IfOk result (λ written. verdict (memory.image disk) ≡ None → MakesWrites held_memory
        (recovered (memory.image disk)) scenario.tasks.items scenario.processes scenario.words.items
        (unwrap_or scenario.stop 0) written.items) }
{
    match SyncDisk::new(alloc, disk) {
        Ok(disk) => writes_over(alloc, disk, scenario),
        Err(refused) => Err(refused),
    }
}

// There are none, where it is for the image that it isn't recovered.
fn no_writes(alloc: Global, refusal: RecoverRefusal) -> Result<Vec<Written>, NoMemory>
    ensures { OnOk result (IsOfImage refusal) }
{
    match refusal {
        RecoverRefusal::Recover(_)
        | RecoverRefusal::Check(CheckFault::Disk)
        | RecoverRefusal::Check(CheckFault::NoMemory) => Err(NoMemory),
        RecoverRefusal::Check(_) => Ok(Vec::new(alloc)),
    }
}

// Those of a replay over a disk.
fn writes_of<D: Disk + Drop>(
    alloc: Global,
    disk: D,
    scenario: Scenario,
) -> Result<Vec<Written>, NoMemory>
    requires tasks { All (λ task. task.pid < scenario.processes) scenario.tasks.items }
    requires words { IsTrue (list_all (is_word_of scenario.processes) scenario.words.items) }
    ensures { IfOk result (λ written. MakesWrites D.Disk (D.image disk) scenario.tasks.items
        scenario.processes scenario.words.items (unwrap_or scenario.stop 0) written.items) }
{
    let mut teller = Mute {
        lines: LineTeller,
        refused: false,
    };
    let disk = Remembering::over(alloc, disk);
    let (ran, disk) = replay_with(alloc, disk, scenario, &mut teller, &mut Silent, &mut sink());
    writes_behind(ran, teller.refused, disk)
}

// What was written to a disk that a replay left, where it was made and memory refused to no operation.
fn writes_behind<D: Disk + Drop>(
    ran: Result<(), ReplayRefusal>,
    refused: bool,
    disk: Remembering<D>,
) -> Result<Vec<Written>, NoMemory>
    ensures ran { OnOk result (IsOk ran) }
    ensures served { OnOk result (refused ≡ false) }
    ensures has { IfOk result
        (λ written. AreWrites D.Disk disk.first disk.disk written.items) }
{
    if ran.is_err() || refused {
        return Err(NoMemory);
    }
    disk.into_written()
}
