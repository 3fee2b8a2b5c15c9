// A replay once more, of which a teller hears that gathers its objects.
ghost use Rattle.std.specs.Prelude.{◌≡◌, ◌<◌, All, IsOk, IsTrue, None, OnOk, false};
ghost use Rattle.std.specs.List.{list_all};
ghost use Rattle.scripts.specs.Schedule.{is_word_of};
ghost use Rattle.commands.specs.Copied.{memory};
ghost use Rattle.commands_runs.specs.Filed.{held_memory};
ghost use Rattle.commands_runs.specs.Tried.{HearsOf};

use crate::explorer_teller::ExplorerTeller;
use blocks::{Disk, MemDisk, NoMemory, SyncDisk};
use messages::Silent;
use player::{ReplayRefusal, Scenario, replay_with};
use std::alloc::Global;
use std::io::sink;

// As `tell_over`, over a disk with the blocks of this one that holds writes back.
pub(crate) fn tell_held(
    alloc: Global,
    disk: MemDisk,
    scenario: Scenario,
    teller: &mut ExplorerTeller,
) -> Result<(), NoMemory>
    requires whole { scenario.stop ≡ None }
    requires tasks { All (λ task. task.pid < scenario.processes) scenario.tasks.items }
    requires words { IsTrue (list_all (is_word_of scenario.processes) scenario.words.items) }
    requires new { teller.old.refused ≡ false }
    ensures { OnOk result (HearsOf held_memory (memory.image disk) scenario.tasks.items
        scenario.processes scenario.words.items teller.old.run teller.new.run) }
{
    match SyncDisk::new(alloc, disk) {
        Ok(disk) => tell_over(alloc, disk, scenario, teller),
        Err(refused) => Err(refused),
    }
}

// Replays a scenario over a disk, whose turns the teller hears of. By its code a disk in memory doesn't
// fail, nor the output that keeps nothing: memory alone may be wanting.
pub(crate) fn tell_over<D: Disk + Drop>(
    alloc: Global,
    disk: D,
    scenario: Scenario,
    teller: &mut ExplorerTeller,
) -> Result<(), NoMemory>
    requires whole { scenario.stop ≡ None }
    requires tasks { All (λ task. task.pid < scenario.processes) scenario.tasks.items }
    requires words { IsTrue (list_all (is_word_of scenario.processes) scenario.words.items) }
    requires new { teller.old.refused ≡ false }
    ensures { OnOk result (HearsOf D.Disk (D.image disk) scenario.tasks.items
        scenario.processes scenario.words.items teller.old.run teller.new.run) }
{
    let (ran, _disk) = replay_with(alloc, disk, scenario, teller, &mut Silent, &mut sink());
    served(ran, teller.refused)
}

// Whether a replay was made, and memory refused to no operation of it.
fn served(ran: Result<(), ReplayRefusal>, refused: bool) -> Result<(), NoMemory>
    ensures ran { OnOk result (IsOk ran) }
    ensures served { OnOk result (refused ≡ false) }
{
    if ran.is_err() || refused {
        return Err(NoMemory);
    }
    Ok(())
}
