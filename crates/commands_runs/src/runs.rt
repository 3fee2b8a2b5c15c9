// The commands that make a script's operations over the disk in a file, in turns or by threads.
ghost use Rattle.std.specs.Prelude.{◌≡◌, ◌<◌, All, IfErr, IfOk, IsTrue, OnOk, unwrap_or};
ghost use Rattle.sysring.specs.Origins.{AreWorkers};
ghost use Rattle.cmd.specs.Lemmas.Disks.{file_disk};
ghost use Rattle.cmd.specs.Opened.{IsOpened, OpensDisk};
ghost use Rattle.player.specs.Told.{in_lines};
ghost use Rattle.scripts.specs.Schedule.{is_word_of};
ghost use Rattle.std.specs.List.{list_all};
ghost use Rattle.blocks.specs.Calls.{OnlyReads};
ghost use Rattle.blocks.specs.FileDisk.{file_of};
ghost use Rattle.commands_runs.specs.Objects.{IsReplayedInObjects, IsUnreplayedInObjects};
ghost use Rattle.commands_runs.specs.Writes.{AreItsWrites};
ghost use Rattle.commands_runs.specs.Runs.{IsNotRun, IsReplayed, IsRun, IsScenario, IsUnread, IsUnreplayed, replay_files_telling, run_files_telling};

use crate::anew::Anew;
use crate::objects::replay_written;
use blocks::{Block, FileDisk, FileFault, NoMemory};
use cmd::{Access, Locking, Locks, open_for};
use commands::{schedule_from, script_from};
use json_lines::Written;
use messages::{Detail, Meter, Reason, Told};
use player::{ReplayRefusal, Scenario, replay_disk};
use runner::{RunRefusal, run_disk};
use scripts::{ScheduleFault, ScriptFault, processes};
use std::alloc::Global;
use std::fs::OpenFile;
use std::io::{Seek, Write};
use std::rt::Clock;
use std::sync::Wait;
use std::thread::Threads;

/// Why a script isn't replayed over the disk in a file.
#[derive(Clone, Copy, Debug)]
pub enum ReplayFilesRefusal {
    /// The script can't be had.
    Script(ScriptFault),
    /// The schedule can't be had.
    Schedule(ScheduleFault),
    /// The file can't be used as a disk.
    File(FileFault),
    /// The replay over its disk was refused.
    Replay(ReplayRefusal),
}

impl Reason for ReplayFilesRefusal {
    ghost telling = { replay_files_telling };

    fn told(&self) -> Told {
        match self {
            ReplayFilesRefusal::Script(fault) => fault.told(),
            ReplayFilesRefusal::Schedule(fault) => fault.told(),
            ReplayFilesRefusal::File(fault) => fault.told(),
            ReplayFilesRefusal::Replay(refusal) => refusal.told(),
        }
    }
}

/// Why a script isn't run by threads over the disk in a file.
#[derive(Clone, Copy, Debug)]
pub enum RunFilesRefusal {
    /// The script can't be had.
    Script(ScriptFault),
    /// The file can't be used as a disk.
    File(FileFault),
    /// The run over its disk was refused.
    Run(RunRefusal),
}

impl Reason for RunFilesRefusal {
    ghost telling = { run_files_telling };

    fn told(&self) -> Told {
        match self {
            RunFilesRefusal::Script(fault) => fault.told(),
            RunFilesRefusal::File(fault) => fault.told(),
            RunFilesRefusal::Run(refusal) => refusal.told(),
        }
    }
}

/// What is replayed, over which disk, and how.
#[derive(Clone, Copy, Debug)]
pub struct Replay<'a> {
    /// The path of the file with the image.
    pub image: &'a str,
    /// The path of the script.
    pub script: &'a str,
    /// The path of the schedule.
    pub schedule: &'a str,
    /// The number, from 1, of the write that is not made, and ends the run.
    pub stop: Option<u64>,
    /// Whether the file is a disk that holds writes back, and is synced.
    pub sync: bool,
    /// How its lock is taken, once script and schedule are read.
    pub locking: Locking,
}

// Recovers the image in the file of a replay, and makes the operations of its script in the turns of
// its schedule, as `replay_disk`. The meter is told how many of the schedule's words were done.
//
// # Errors
//
// A fault of the script, then of the schedule, then of `FileDisk::open`, then a refusal of
// `replay_disk`.
pub(crate) fn replay_files<R: Locks + AllocGlobal, P: Meter, O: Write>(
    rt: &R,
    replay: Replay<'_>,
    detail: Detail,
    progress: &mut P,
    out: &mut O,
) -> Result<(), ReplayFilesRefusal>
    ensures opened { OnOk result (OpensDisk R.File.remaining file_disk replay.entry.sync
        (IsReplayed (in_lines detail) (unwrap_or replay.entry.stop 0)
        (O.contents out.old) (O.contents out.new))) }
    ensures refused { IfErr result (IsUnreplayed R.File.remaining replay.entry.sync
        (in_lines detail) (unwrap_or replay.entry.stop 0)
        (O.contents out.old) (O.contents out.new) (out.new ≡ out.old)) }
{
    let (scenario, disk) = match read_replay(rt, replay) {
        Ok(read) => read,
        Err(refusal) => return Err(refusal),
    };
    let (ran, _disk) = replay_disk(rt.alloc(), disk, scenario, detail, progress, out);
    match ran {
        Ok(()) => Ok(()),
        Err(refusal) => Err(ReplayFilesRefusal::Replay(refusal)),
    }
}

/// Recovers the image in the file of a replay, and makes the operations of its script in the turns of
/// its schedule, as `replay_objects`: the bytes of the writes are had first, by a replay over a copy of
/// the disk in memory. The meter is told how many of the schedule's words were done.
///
/// # Errors
///
/// A fault of the script, then of the schedule, then of `FileDisk::open`, then a refusal of
/// `replay_objects`.
pub fn replay_json<R: Locks + AllocGlobal, P: Meter, O: Write>(
    rt: &R,
    replay: Replay<'_>,
    progress: &mut P,
    out: &mut O,
) -> Result<(), ReplayFilesRefusal>
    ensures opened { OnOk result (OpensDisk R.File.remaining file_disk replay.entry.sync
        (IsReplayedInObjects replay.entry.sync (unwrap_or replay.entry.stop 0)
        (O.contents out.old) (O.contents out.new))) }
    ensures refused { IfErr result (IsUnreplayedInObjects R.File.remaining replay.entry.sync
        (unwrap_or replay.entry.stop 0)
        (O.contents out.old) (O.contents out.new) (out.new ≡ out.old)) }
{
    let (scenario, mut disk) = match read_replay(rt, replay) {
        Ok(read) => read,
        Err(refusal) => return Err(refusal),
    };
    let written = writes_on(rt.alloc(), &mut disk, &scenario, replay.sync);
    let (ran, _disk) = replay_written(rt.alloc(), disk, scenario, written, progress, out);
    match ran {
        Ok(()) => Ok(()),
        Err(refusal) => Err(ReplayFilesRefusal::Replay(refusal)),
    }
}

// The writes that a replay of this scenario makes, by one over a copy in memory of the disk.
//
// # Errors
//
// `NoMemory` where memory for the copy or for that replay is refused.
#[tactic(auto, using(blocks::specs::Lemmas::Reads::reads_none))]
fn writes_on<F: Write + Seek + OpenFile + Drop>(
    alloc: Global,
    disk: &mut FileDisk<F>,
    scenario: &Scenario,
    holds: bool,
) -> Result<Vec<Written>, NoMemory>
    requires tasks { All (λ task. task.pid < scenario.now.processes) scenario.now.tasks.items }
    requires words { IsTrue
        (list_all (is_word_of scenario.now.processes) scenario.now.words.items) }
    ensures writes { IfOk result (λ written. AreItsWrites holds (file_disk.image disk.old)
        scenario.now.tasks.items scenario.now.processes scenario.now.words.items
        (unwrap_or scenario.now.stop 0) written.items) }
    ensures reads { OnlyReads file_disk disk.old disk.new }
    ensures file { file_of disk.new ≡ file_of disk.old }
{
    let mut block = Block::zeroed(alloc)?;
    let anew = Anew::of(alloc, disk, scenario, holds, &mut block)?;
    anew.writes(alloc, scenario.stop)
}

// What is replayed, read from its files, and the disk in the file of its image.
pub(crate) fn read_replay<R: Locks + AllocGlobal>(
    rt: &R,
    replay: Replay<'_>,
) -> Result<(Scenario, FileDisk<R::File>), ReplayFilesRefusal>
    ensures scenario { IfOk result (λ read. IsScenario replay.entry.stop read.0) }
    ensures opened { IfOk result (λ read. IsOpened R.File.remaining file_disk replay.entry.sync
        read.1) }
    ensures refused { IfErr result IsUnread }
{
    let tasks = script_from(rt, replay.script).map_err(ReplayFilesRefusal::Script)?;
    let processes = processes(tasks.as_slice());
    let words = schedule_from(rt, replay.schedule, processes).map_err(
        ReplayFilesRefusal::Schedule,
    )?;
    let scenario = Scenario {
        tasks,
        processes,
        words,
        stop: replay.stop,
    };
    let access = Access::Change {
        sync: replay.sync,
        locking: replay.locking,
    };
    match open_for(rt, replay.image, access) {
        Ok(disk) => Ok((scenario, disk)),
        Err(fault) => Err(ReplayFilesRefusal::File(fault)),
    }
}

/// Recovers the image in the file at this path, and makes the operations of a script by callers and
/// so many workers, from 1 to 32, on threads, as `run_disk`, with groups kept open or not. With `sync` the file is a disk that
/// holds writes back, and is synced.
///
/// # Errors
///
/// A fault of the script, then of `FileDisk::open`, then a refusal of `run_disk`.
pub fn run_files<R: Locks + AllocGlobal + Threads + Wait + Clock + Sync, O: Write>(
    rt: &R,
    image: &str,
    script: &str,
    workers: u32,
    group: Option<u32>,
    sync: bool,
    locking: Locking,
    out: &mut O,
) -> Result<(), RunFilesRefusal>
where
    R::File: Send,
    requires { AreWorkers workers }
    ensures opened { OnOk result (OpensDisk R.File.remaining file_disk sync
        (IsRun (O.contents out.old) (O.contents out.new))) }
    ensures refused { IfErr result (IsNotRun R.File.remaining sync
        (O.contents out.old) (O.contents out.new) (out.new ≡ out.old)) }
{
    let tasks = script_from(rt, script).map_err(RunFilesRefusal::Script)?;
    let processes = processes(tasks.as_slice());
    let disk = match open_for(rt, image, Access::Change { sync, locking }) {
        Ok(disk) => disk,
        Err(fault) => return Err(RunFilesRefusal::File(fault)),
    };
    let (ran, _disk) = run_disk(rt, disk, tasks, processes, workers, group, out);
    match ran {
        Ok(()) => Ok(()),
        Err(refusal) => Err(RunFilesRefusal::Run(refusal)),
    }
}
