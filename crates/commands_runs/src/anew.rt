// A replay made once more, over a copy in memory of its disk as it was opened: which files a stop
// leaves, and what it writes.
ghost use Rattle.std.specs.Prelude.{◌≡◌, ◌<◌, All, IfOk, IsOk, IsTrue, OnOk, Some, false, unwrap_or};
ghost use Rattle.std.specs.List.{list_all};
ghost use Rattle.scripts.specs.Schedule.{is_word_of};
ghost use Rattle.model.specs.Log.{recovered};
ghost use Rattle.commands_runs.specs.FileLines.{lines_of};
ghost use Rattle.commands.specs.Copied.{memory};
ghost use Rattle.commands_runs.specs.Filed.{LeavesLines, held_memory};

use crate::changes::{Stop, stops_among, stops_of};
use crate::explorer_teller::ExplorerTeller;
use crate::file_lines::file_lines;
use crate::mute::Mute;
use crate::origin::{Opened, disk_of};
use crate::telling::{tell_held, tell_over};
use crate::writes::{writes_held, writes_over};
use blocks::{Block, Disk, FileDisk, MemDisk, NoMemory, SyncDisk};
use commands::Copied;
use json_lines::Written;
use messages::Silent;
use pictures::{FileLine, FilesThen, Moment};
use player::{LineTeller, ReplayRefusal, Scenario, copies_of, replay_with};
use scripts::{Task, Word};
use std::alloc::Global;
use std::fs::OpenFile;
use std::io::{Seek, Write, sink};

/// What a replay was made of.
#[derive(Drop)]
pub struct Anew {
    /// The blocks of its disk, as it was opened.
    pub opened: Opened,
    /// Whether the disk holds writes back.
    pub holds: bool,
    /// Its operations.
    pub tasks: Vec<Task>,
    /// Of how many processes they are.
    pub processes: u32,
    /// The schedule.
    pub words: Vec<Word>,
    ghost own: { All (λ task. task.pid < processes) tasks.items },
    ghost known: { IsTrue (list_all (is_word_of processes) words.items) },
}

impl Anew {
    ghost use Rattle.blocks.specs.Calls.{OnlyReads};
    ghost use Rattle.blocks.specs.FileDisk.{file_of};
    ghost use Rattle.cmd.specs.Lemmas.Disks.{file_disk};
    ghost use Rattle.commands_runs.specs.Images.{opened_image};
    ghost use Rattle.commands_runs.specs.Filed.{AreFiled, HasFiles, LeavesFiles, stops_of};
    ghost use Rattle.commands_runs.specs.Explored.{stops_among};
    ghost use Rattle.commands_runs.specs.Pictures.{IsMadeOf};
    ghost use Rattle.commands_runs.specs.Tried.{HearsOfRun};
    ghost use Rattle.commands_runs.specs.Writes.{AreItsWrites};
    ghost use Rattle.crash_check.specs.Images.{new_image};

    // What a replay of this scenario is made of, over a disk that holds writes back or doesn't. The
    // block is room for one: what it holds afterwards is not said.
    pub fn of<F: Write + Seek + OpenFile + Drop>(
        alloc: Global,
        disk: &mut FileDisk<F>,
        scenario: &Scenario,
        holds: bool,
        block: &mut Block,
    ) -> Result<Anew, NoMemory>
        requires tasks { All (λ task. task.pid < scenario.now.processes) scenario.now.tasks.items }
        requires words { IsTrue
            (list_all (is_word_of scenario.now.processes) scenario.now.words.items) }
        ensures made { IfOk result (λ anew. IsMadeOf anew holds (file_disk.image disk.old)
            scenario.now.tasks.items scenario.now.processes scenario.now.words.items) }
        ensures reads { OnlyReads file_disk disk.old disk.new }
        ensures file { file_of disk.new ≡ file_of disk.old }
    {
        Ok(Anew {
            opened: Opened::Copied(Copied::of(alloc, disk, block)?),
            holds,
            tasks: copies_of(alloc, scenario.tasks.as_slice())?,
            processes: scenario.processes,
            words: Vec::from_slice(alloc, scenario.words.as_slice())?,
        })
    }

    // What a replay of this scenario is made of, over a new image on a disk that holds writes back or
    // doesn't.
    pub fn over_new(alloc: Global, scenario: &Scenario, holds: bool) -> Result<Anew, NoMemory>
        requires tasks { All (λ task. task.pid < scenario.now.processes) scenario.now.tasks.items }
        requires words { IsTrue
            (list_all (is_word_of scenario.now.processes) scenario.now.words.items) }
        ensures made { IfOk result (λ anew. IsMadeOf anew holds new_image
            scenario.now.tasks.items scenario.now.processes scenario.now.words.items) }
    {
        Ok(Anew {
            opened: Opened::New,
            holds,
            tasks: copies_of(alloc, scenario.tasks.as_slice())?,
            processes: scenario.processes,
            words: Vec::from_slice(alloc, scenario.words.as_slice())?,
        })
    }

    // The files at the opening, and behind each of these steps with which a group was committed.
    pub(crate) fn files(
        &self,
        alloc: Global,
        moments: &[Moment],
    ) -> Result<Vec<FilesThen>, NoMemory>
        ensures { IfOk result (λ files. AreFiled (HasFiles self.now.holds
            (opened_image self.now.opened) self.now.tasks.items self.now.processes
            self.now.words.items) (stops_of moments.now) files.items) }
    {
        let stops = stops_of(alloc, moments)?;
        self.files_at(alloc, stops.as_slice())
    }

    // The files at the opening, and behind each of these writes with which a group was committed.
    pub(crate) fn files_among(
        &self,
        alloc: Global,
        written: &[Written],
    ) -> Result<Vec<FilesThen>, NoMemory>
        ensures { IfOk result (λ files. AreFiled (HasFiles self.now.holds
            (opened_image self.now.opened) self.now.tasks.items self.now.processes
            self.now.words.items) (stops_among written.now) files.items) }
    {
        let stops = stops_among(alloc, written)?;
        self.files_at(alloc, stops.as_slice())
    }

    // Those at each of these stops.
    fn files_at(&self, alloc: Global, stops: &[Stop]) -> Result<Vec<FilesThen>, NoMemory>
        ensures { IfOk result (λ files. AreFiled (HasFiles self.now.holds
            (opened_image self.now.opened) self.now.tasks.items self.now.processes
            self.now.words.items) stops.now files.items) }
    {
        let mut files = Vec::new(alloc);
        for stop in stops {
            let lines = self.lines(alloc, stop.write)?;
            files.push(FilesThen {
                column: stop.column,
                lines,
            })?;
        }
        Ok(files)
    }

    // Those that a stop before that write leaves.
    fn lines(&self, alloc: Global, write: u64) -> Result<Vec<FileLine>, NoMemory>
        ensures { IfOk result (λ lines. LeavesFiles self.now.holds (opened_image self.now.opened)
            self.now.tasks.items self.now.processes self.now.words.items write lines.items) }
    {
        let disk = disk_of(alloc, &self.opened)?;
        let scenario = self.scenario(alloc, Some(write))?;
        if self.holds {
            return lines_held(alloc, disk, scenario);
        }
        lines_left(alloc, disk, scenario)
    }

    // The writes that it makes, up to the one of that number.
    pub(crate) fn writes(&self, alloc: Global, stop: Option<u64>) -> Result<Vec<Written>, NoMemory>
        ensures { IfOk result (λ written. AreItsWrites self.now.holds
            (opened_image self.now.opened) self.now.tasks.items self.now.processes
            self.now.words.items (unwrap_or stop 0) written.items) }
    {
        let disk = disk_of(alloc, &self.opened)?;
        let scenario = self.scenario(alloc, stop)?;
        if self.holds {
            return writes_held(alloc, disk, scenario);
        }
        writes_over(alloc, disk, scenario)
    }

    // Has a teller hear of the turns of the whole of it. Refused where memory was, also to an operation
    // of it.
    pub(crate) fn tell(&self, alloc: Global, teller: &mut ExplorerTeller) -> Result<(), NoMemory>
        requires new { teller.old.refused ≡ false }
        ensures { OnOk result (HearsOfRun self.now.holds (opened_image self.now.opened)
            self.now.tasks.items self.now.processes self.now.words.items
            teller.old.run teller.new.run) }
    {
        let disk = disk_of(alloc, &self.opened)?;
        let scenario = self.scenario(alloc, None)?;
        if self.holds {
            return tell_held(alloc, disk, scenario, teller);
        }
        tell_over(alloc, disk, scenario, teller)
    }

    fn scenario(&self, alloc: Global, stop: Option<u64>) -> Result<Scenario, NoMemory>
        ensures tasks { IfOk result (λ scenario. scenario.tasks.items ≡ self.now.tasks.items) }
        ensures processes { IfOk result (λ scenario. scenario.processes ≡ self.now.processes) }
        ensures words { IfOk result (λ scenario. scenario.words.items ≡ self.now.words.items) }
        ensures stop { IfOk result (λ scenario. scenario.stop ≡ stop) }
    {
        Ok(Scenario {
            tasks: copies_of(alloc, self.tasks.as_slice())?,
            processes: self.processes,
            words: Vec::from_slice(alloc, self.words.as_slice())?,
            stop,
        })
    }
}

// As `lines_left`, over a disk with these blocks that holds writes back.
fn lines_held(alloc: Global, disk: MemDisk, scenario: Scenario) -> Result<Vec<FileLine>, NoMemory>
    requires tasks { All (λ task. task.pid < scenario.processes) scenario.tasks.items }
    requires words { IsTrue (list_all (is_word_of scenario.processes) scenario.words.items) }
    ensures { IfOk result (λ lines. LeavesLines held_memory (memory.image disk)
        scenario.tasks.items scenario.processes scenario.words.items (unwrap_or scenario.stop 0)
        lines.items) }
{
    match SyncDisk::new(alloc, disk) {
        Ok(disk) => lines_left(alloc, disk, scenario),
        Err(refused) => Err(refused),
    }
}

// Replays a scenario. The files of what that left.
fn lines_left<D: Disk + Drop>(
    alloc: Global,
    disk: D,
    scenario: Scenario,
) -> Result<Vec<FileLine>, NoMemory>
    requires tasks { All (λ task. task.pid < scenario.processes) scenario.tasks.items }
    requires words { IsTrue (list_all (is_word_of scenario.processes) scenario.words.items) }
    ensures { IfOk result (λ lines. LeavesLines D.Disk (D.image disk)
        scenario.tasks.items scenario.processes scenario.words.items (unwrap_or scenario.stop 0)
        lines.items) }
{
    let mut teller = Mute {
        lines: LineTeller,
        refused: false,
    };
    let (ran, disk) = replay_with(alloc, disk, scenario, &mut teller, &mut Silent, &mut sink());
    lines_behind(alloc, disk, ran, teller.refused)
}

// The files on a disk that a replay left, where it was made and memory refused to no operation. By its
// code a disk in memory doesn't fail, nor the output that keeps nothing: memory alone is wanting.
fn lines_behind<D: Disk + Drop>(
    alloc: Global,
    mut disk: D,
    ran: Result<(), ReplayRefusal>,
    refused: bool,
) -> Result<Vec<FileLine>, NoMemory>
    ensures ran { OnOk result (IsOk ran) }
    ensures served { OnOk result (refused ≡ false) }
    ensures has { IfOk result (λ lines. lines.items ≡ lines_of (recovered (D.image disk))) }
{
    if ran.is_err() || refused {
        return Err(NoMemory);
    }
    match file_lines(alloc, &mut disk) {
        Ok(lines) => Ok(lines),
        Err(_) => Err(NoMemory),
    }
}
