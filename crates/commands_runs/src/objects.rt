// A replay told in objects, for whose writes memory may have been refused.
ghost use Rattle.std.specs.Prelude.{◌≡◌, ◌<◌, All, IfErr, IsOk, IsTrue, List, None, OnOk, unwrap_or};
ghost use Rattle.std.specs.List.{list_all};
ghost use Rattle.player.specs.Opening.{IsNotReplayed, Replays};
ghost use Rattle.player.specs.Told.{Told, in_objects, writes_in};
ghost use Rattle.scripts.specs.Schedule.{is_word_of};
ghost use Rattle.commands_runs.specs.Objects.{MayPrint};

use blocks::{Disk, FaultyDisk, NoMemory};
use json_lines::Written;
use kernel::OpenFault;
use messages::Meter;
use player::{ReplayRefusal, Scenario, replay_objects};
use std::alloc::Global;
use std::io::Write;

// As `replay_objects`; refused as for memory at the opening where that for the writes was refused.
pub(crate) fn replay_written<D: Disk + Drop, P: Meter, O: Write>(
    alloc: Global,
    disk: D,
    scenario: Scenario,
    written: Result<Vec<Written>, NoMemory>,
    progress: &mut P,
    out: &mut O,
) -> (Result<(), ReplayRefusal>, D)
    requires tasks { All (λ task. task.pid < scenario.processes) scenario.tasks.items }
    requires words { IsTrue (list_all (is_word_of scenario.processes) scenario.words.items) }
    ensures printed { OnOk result.0 ((tolds : List Told) × Replays D.Disk
        ⟦<FaultyDisk<D> as Disk>⟧ disk result.1 scenario.tasks.items scenario.processes
        scenario.words.items (unwrap_or scenario.stop 0)
        (in_objects (writes_in written (λ v. v.items)))
        None (O.contents out.old) (O.contents out.new) tolds) }
    ensures refused { IfErr result.0 (IsNotReplayed D.Disk ⟦<FaultyDisk<D> as Disk>⟧ disk result.1
        scenario.tasks.items scenario.processes scenario.words.items (unwrap_or scenario.stop 0)
        (in_objects (writes_in written (λ v. v.items)))
        (O.contents out.old) (O.contents out.new) (out.new ≡ out.old)) }
    ensures had { OnOk result.0 (IsOk written) }
    ensures had_them { IfErr result.0 (λ refusal. MayPrint refusal → IsOk written) }
{
    match written {
        Ok(written) => replay_objects(alloc, disk, scenario, Ok(written), progress, out),
        Err(_refused) => (Err(ReplayRefusal::Unopened(OpenFault::NoMemory)), disk),
    }
}
