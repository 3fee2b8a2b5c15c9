// A page that walks through the run of a script that was tried at its stops.
ghost use Rattle.std.specs.Prelude.{◌≡◌, ◌<◌, All, IfErr, IfOk, IsTrue, None, OnOk};
ghost use Rattle.std.specs.List.{list_all};
ghost use Rattle.crash_check.specs.Images.{new_image};
ghost use Rattle.model.specs.Layout.{inode_count_of};
ghost use Rattle.scripts.specs.Schedule.{is_word_of};
ghost use Rattle.commands_runs.specs.Pictures.{IsMadeOf, IsUnbegun};
ghost use Rattle.commands_runs.specs.Tried.{IsExploredNew, IsUnexploredNew, IsHeardOf};

use crate::anew::Anew;
use crate::explorer_teller::ExplorerTeller;
use crate::exploring::{inode_count_on, make_page};
use crate::origin::disk_of;
use crate::picturing::PicturedRefusal;
use crate::scene::Scene;
use blocks::NoMemory;
use commands::Holder;
use messages::Detail;
use pictures::{Column, Lost};
use player::Scenario;
use std::alloc::Global;
use std::rt::Files;

/// Makes a page that walks through the whole run of a scenario over a new image in memory, on a disk that
/// holds writes back or doesn't, in the file at the path `page`, as `draw`: with the bytes of its writes, the
/// files that recovery gives at the opening and behind each write with which a group was committed, and
/// the stops of it that were tried. The scenario stops nowhere. It is replayed for its writes, for each of
/// these stops, and for its steps.
///
/// # Errors
///
/// `TooLong` where it has more than 10,000 steps; `Unfiled` where memory is refused, also that of an
/// operation; `Picture` with a fault of `draw`. With all but this the holder is as it was.
pub fn explore_new<R: Files + AllocGlobal, H: Holder<R::File>>(
    rt: &R,
    page: &str,
    scenario: &Scenario,
    holds: bool,
    columns: &[Column],
    lost: Option<Lost<'_>>,
    holder: &mut H,
) -> Result<(), PicturedRefusal>
    requires tasks { All (λ task. task.pid < scenario.now.processes) scenario.now.tasks.items }
    requires words { IsTrue
        (list_all (is_word_of scenario.now.processes) scenario.now.words.items) }
    ensures explored { OnOk result (IsExploredNew R.File.contents holds scenario.now.tasks.items
        scenario.now.processes scenario.now.words.items columns.now lost.entry) }
    ensures refused { IfErr result (IsUnexploredNew holds scenario.now.tasks.items
        scenario.now.processes scenario.now.words.items) }
    ensures unbegun { IfErr result (λ refusal. IsUnbegun refusal → holder.new ≡ holder.old) }
{
    let (scene, teller) = match take_run(rt.alloc(), scenario, holds) {
        Ok(taken) => taken,
        Err(_refused) => return Err(PicturedRefusal::Unfiled),
    };
    make_page(rt, page, &scene, teller.run(), columns, lost, holder)
}

// What the run is made of, and who heard of it, with its writes.
fn take_run(
    alloc: Global,
    scenario: &Scenario,
    holds: bool,
) -> Result<(Scene, ExplorerTeller), NoMemory>
    requires tasks { All (λ task. task.pid < scenario.now.processes) scenario.now.tasks.items }
    requires words { IsTrue
        (list_all (is_word_of scenario.now.processes) scenario.now.words.items) }
    ensures made { IfOk result (λ taken. IsMadeOf taken.0.anew holds new_image
        scenario.now.tasks.items scenario.now.processes scenario.now.words.items) }
    ensures count { IfOk result (λ taken. taken.0.inode_count ≡ inode_count_of new_image) }
    ensures heard { IfOk result (λ taken. IsHeardOf holds scenario.now.tasks.items
        scenario.now.processes scenario.now.words.items taken.0.inode_count taken.1.run) }
{
    let anew = Anew::over_new(alloc, scenario, holds)?;
    let written = anew.writes(alloc, None)?;
    let inode_count = inode_count_on(&disk_of(alloc, &anew.opened)?);
    let detail = Detail {
        writes: false,
        steps: false,
    };
    let mut teller = ExplorerTeller::new(alloc, detail, inode_count, written)?;
    anew.tell(alloc, &mut teller)?;
    Ok((Scene { inode_count, anew }, teller))
}
