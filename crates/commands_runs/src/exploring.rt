// The command that makes a script's operations over the disk in a file, and makes a page that walks
// through its steps.
ghost use Rattle.std.specs.Prelude.{◌≡◌, ◌<◌, ◌≤◌, All, IfErr, IfOk, IsTrue, List, OnOk, length, unwrap_or};
ghost use Rattle.std.specs.List.{list_all};
ghost use Rattle.blocks.specs.Calls.{OnlyReads};
ghost use Rattle.blocks.specs.FileDisk.{file_of};
ghost use Rattle.cmd.specs.Lemmas.Disks.{file_disk};
ghost use Rattle.cmd.specs.Opened.{IsOpened, OpensDisk};
ghost use Rattle.model.specs.Layout.{inode_count_of};
ghost use Rattle.commands.specs.Copied.{memory};
ghost use Rattle.player.specs.Told.{in_lines};
ghost use Rattle.scripts.specs.Schedule.{is_word_of};
ghost use Rattle.commands_runs.specs.Explored.{HasExplorer, IsBegun, IsPage, IsUnexplored, IsUntold};
ghost use Rattle.commands_runs.specs.Pictures.{IsMadeOf, IsUnbegun};
ghost use Rattle.commands_runs.specs.Runs.{IsReplayedSo};

use crate::anew::Anew;
use crate::explorer_teller::ExplorerTeller;
use crate::gathered::Gathered;
use crate::origin::disk_of;
use crate::picturing::PicturedRefusal;
use crate::runs::{Replay, ReplayFilesRefusal, read_replay};
use crate::scene::Scene;
use blocks::{Block, Disk, FileDisk, MemDisk, NoMemory};
use cmd::Locks;
use commands::Holder;
use commands_drawing::draw;
use explorer_page::Explorer;
use layout::superblock;
use messages::{Detail, Meter};
use pictures::{Column, Lost};
use player::{Scenario, replay_with};
use std::alloc::Global;
use std::fs::OpenFile;
use std::io::{Seek, Write};
use std::rt::Files;

// The most steps of a run that is walked through.
const MOST_STEPS: u64 = 10_000;

// Replays a script as `replay_files`, and then makes a page that walks through its steps in the file at
// the path `page`, as `draw`, with the bytes of its writes, and the files that recovery gives of what a
// stop leaves: before the first write, and behind each with which a group was committed. The bytes come
// from a replay before it in memory, over a copy of the disk as it was opened, the files from one for
// each of these stops behind it.
//
// # Errors
//
// As those of `replay_pictured`, with `NoMemory` also where memory for the replay before it is refused;
// `TooLong` where it has more than 10,000 steps; `Unfiled` also where memory for what is told of them is.
pub(crate) fn replay_explored<R: Locks + AllocGlobal, P: Meter, H: Holder<R::File>, O: Write>(
    rt: &R,
    replay: Replay<'_>,
    detail: Detail,
    page: &str,
    progress: &mut P,
    holder: &mut H,
    out: &mut O,
) -> Result<(), PicturedRefusal>
    ensures explored { OnOk result (OpensDisk R.File.remaining file_disk replay.entry.sync
        (IsReplayedSo (in_lines detail) (unwrap_or replay.entry.stop 0)
        (O.contents out.old) (O.contents out.new)
        (HasExplorer R.File.contents replay.entry.sync (unwrap_or replay.entry.stop 0)))) }
    ensures refused { IfErr result (IsUnexplored R.File.remaining replay.entry.sync
        detail (unwrap_or replay.entry.stop 0)
        (O.contents out.old) (O.contents out.new) (out.new ≡ out.old)) }
    ensures unbegun { IfErr result (λ refusal. IsUnbegun refusal → holder.new ≡ holder.old) }
{
    match read_replay(rt, replay) {
        Ok((scenario, disk)) => {
            explore(
                rt,
                disk,
                scenario,
                replay.sync,
                detail,
                page,
                progress,
                holder,
                out,
            )
        }
        Err(refusal) => Err(PicturedRefusal::Replay(refusal)),
    }
}

// Replays a scenario over a disk that was just opened, and makes the page.
fn explore<R: Files + AllocGlobal, P: Meter, H: Holder<R::File>, O: Write>(
    rt: &R,
    disk: FileDisk<R::File>,
    scenario: Scenario,
    sync: bool,
    detail: Detail,
    page: &str,
    progress: &mut P,
    holder: &mut H,
    out: &mut O,
) -> Result<(), PicturedRefusal>
    requires opened { IsOpened R.File.remaining file_disk sync disk }
    requires tasks { All (λ task. task.pid < scenario.processes) scenario.tasks.items }
    requires words { IsTrue (list_all (is_word_of scenario.processes) scenario.words.items) }
    ensures explored { OnOk result (OpensDisk R.File.remaining file_disk sync
        (IsReplayedSo (in_lines detail) (unwrap_or scenario.stop 0)
        (O.contents out.old) (O.contents out.new)
        (HasExplorer R.File.contents sync (unwrap_or scenario.stop 0)))) }
    ensures refused { IfErr result (IsUnexplored R.File.remaining sync detail
        (unwrap_or scenario.stop 0) (O.contents out.old) (O.contents out.new)
        (out.new ≡ out.old)) }
    ensures unbegun { IfErr result (λ refusal. IsUnbegun refusal → holder.new ≡ holder.old) }
{
    let mut disk = disk;
    let (scene, mut teller) = match take_scene(rt.alloc(), &mut disk, &scenario, sync, detail) {
        Ok(taken) => taken,
        Err(_refused) => return Err(PicturedRefusal::NoMemory),
    };
    let (ran, _disk) = replay_with(rt.alloc(), disk, scenario, &mut teller, progress, out);
    match ran {
        Ok(()) => make_page(rt, page, &scene, teller.run(), &[], None, holder),
        Err(refusal) => Err(PicturedRefusal::Replay(ReplayFilesRefusal::Replay(refusal))),
    }
}

// What a run is made of, and who hears of it, with its writes.
#[tactic(auto, using(blocks::specs::Lemmas::Reads::reads_none))]
fn take_scene<F: Write + Seek + OpenFile + Drop>(
    alloc: Global,
    disk: &mut FileDisk<F>,
    scenario: &Scenario,
    sync: bool,
    detail: Detail,
) -> Result<(Scene, ExplorerTeller), NoMemory>
    requires tasks { All (λ task. task.pid < scenario.now.processes) scenario.now.tasks.items }
    requires words { IsTrue
        (list_all (is_word_of scenario.now.processes) scenario.now.words.items) }
    ensures made { IfOk result (λ taken. IsMadeOf taken.0.anew sync (file_disk.image disk.old)
        scenario.now.tasks.items scenario.now.processes scenario.now.words.items) }
    ensures count { IfOk result
        (λ taken. taken.0.inode_count ≡ inode_count_of (file_disk.image disk.old)) }
    ensures begun { IfOk result (λ taken. IsBegun sync (file_disk.image disk.old)
        scenario.now.tasks.items scenario.now.processes scenario.now.words.items
        (unwrap_or scenario.now.stop 0) taken.0.inode_count taken.1.run) }
    ensures detail { IfOk result (λ taken. taken.1.lines.detail ≡ detail) }
    ensures reads { OnlyReads file_disk disk.old disk.new }
    ensures file { file_of disk.new ≡ file_of disk.old }
{
    let mut block = Block::zeroed(alloc)?;
    let anew = Anew::of(alloc, disk, scenario, sync, &mut block)?;
    let written = anew.writes(alloc, scenario.stop)?;
    let inode_count = inode_count_on(&disk_of(alloc, &anew.opened)?);
    let teller = ExplorerTeller::new(alloc, detail, inode_count, written)?;
    Ok((Scene { inode_count, anew }, teller))
}

// The inode numbers that the superblock on a disk tells: none where there is no such block.
pub(crate) fn inode_count_on(disk: &MemDisk) -> u32
    ensures { result ≡ inode_count_of (memory.image disk.now) }
{
    if disk.size() < 2 {
        return 0;
    }
    superblock::read(disk.block(1)).ninodes
}

// Makes the page of a run, of which these stops were tried.
pub(crate) fn make_page<R: Files + AllocGlobal, H: Holder<R::File>>(
    rt: &R,
    path: &str,
    scene: &Scene,
    run: &Gathered,
    columns: &[Column],
    lost: Option<Lost<'_>>,
    holder: &mut H,
) -> Result<(), PicturedRefusal>
    ensures few { OnOk result (run.now.steps ≤ 10000) }
    ensures made { OnOk result
        (IsPage R.File.contents scene.now run.now columns.now lost.entry) }
    ensures untold { IfErr result (λ refusal. IsUntold refusal run.now.steps) }
    ensures unbegun { IfErr result (λ refusal. IsUnbegun refusal → holder.new ≡ holder.old) }
{
    if run.steps() > MOST_STEPS {
        return Err(PicturedRefusal::TooLong(run.steps().min(4_294_967_295) as u32));
    }
    let told = match run.text() {
        Some(told) => told,
        None => return Err(PicturedRefusal::Unfiled),
    };
    let files = match scene.anew.files_among(rt.alloc(), run.written()) {
        Ok(files) => files,
        Err(_refused) => return Err(PicturedRefusal::Unfiled),
    };
    let disk = match disk_of(rt.alloc(), &scene.anew.opened) {
        Ok(disk) => disk,
        Err(_refused) => return Err(PicturedRefusal::Unfiled),
    };
    let explorer = Explorer {
        inode_count: scene.inode_count,
        holds: scene.anew.holds,
        disk: &disk,
        tasks: scene.anew.tasks.as_slice(),
        told,
        files: files.as_slice(),
        columns,
        lost,
    };
    match draw(rt, path, &explorer, holder) {
        Ok(()) => Ok(()),
        Err(fault) => Err(PicturedRefusal::Picture(fault)),
    }
}
