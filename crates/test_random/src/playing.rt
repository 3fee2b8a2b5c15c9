// The run of a script, over a kernel.
use crate::ground::Ground;
use crate::judging::Due;
use crate::reading::if_done;
use crate::script::Script;
use crate::tally::Tally;
use crate::wrong::What;
use blocks::{Disk, DiskFault, FaultyDisk, Kind, NoMemory};
use kernel::{Kernel, OpenFault, Step};
use model::types::Entry;
use ports::{PlainHerald, QueueIntake};
use reference::files::Files;
use std::alloc::Global;
use wal::DeviceFault;

/// A kernel over plain queues.
pub type Over<D> = Kernel<D, QueueIntake, PlainHerald>;

/// More turns than any of the scripts needs.
pub const MOST_TURNS: u32 = 4_000_000;

// The log's header.
const HEADER: u32 = 2;

/// Which call of the disk fails: the nth of a kind, counted from 1 and from the opening on. None
/// does where `nth` is 0.
#[derive(Clone, Copy)]
pub struct Failure {
    pub kind: Kind,
    pub nth: u64,
}

impl Failure {
    /// The write of this number isn't made, and ends the run.
    pub fn stop(nth: u64) -> Failure {
        Failure {
            kind: Kind::WriteOld,
            nth,
        }
    }

    /// No call fails.
    pub fn none() -> Failure {
        Failure::stop(0)
    }
}

/// What a run came to.
#[derive(Drop)]
pub struct Outcome {
    /// Whether all of it was right.
    pub done: Result<(), What>,
    /// Whether a call of the disk failed.
    pub has_failed: bool,
    /// Whether a group is open that is not committed, and whether the write that failed has
    /// committed it all the same.
    pub is_open: bool,
    pub is_committed: bool,
    /// The writes behind those that made the image.
    pub writes: u64,
    /// What the committed groups have to leave; where a sync failed, what one group more has to.
    pub due: Due,
    pub more: Due,
}

impl Outcome {
    /// That of no run.
    pub fn new(alloc: Global) -> Outcome {
        Outcome {
            done: Ok(()),
            has_failed: false,
            is_open: false,
            is_committed: false,
            writes: 0,
            due: Due::new(alloc),
            more: Due::new(alloc),
        }
    }

    /// The files that it has to leave.
    pub fn into_files(self) -> Result<Files, What> {
        let Outcome { done, due, .. } = self;
        if_done(done, due.files)
    }

    // Notes how far a kernel is.
    fn note<D: Disk>(
        &mut self,
        kernel: &Over<FaultyDisk<D>>,
        kind: Kind,
        size: u32,
    ) -> Result<(), What> {
        let (committed, opened) = (kernel.committed(), kernel.opened());
        self.has_failed = kernel.fault().is_some();
        if self.has_failed != kernel.disk().fired() {
            return Err(What::FaultUnknown);
        }
        if !self.has_failed && committed != opened {
            return Err(What::GroupOpen);
        }
        self.is_open = committed < opened;
        self.is_committed = self.is_open && has_committed(kernel.fault(), kind);
        self.due.groups = committed.saturating_add(self.is_committed as u64);
        self.more.groups = committed.saturating_add(1);
        self.writes = kernel.disk().writes().saturating_sub(size as u64);
        Ok(())
    }

    // Judges the journal, for the files after the committed groups, and after one group more where
    // a sync failed and there is one.
    fn judge(
        &mut self,
        alloc: Global,
        journal: &[Entry],
        ground: &Ground,
        kind: Kind,
    ) -> Result<(), What> {
        self.due.judge(alloc, journal, ground, self.has_failed)?;
        if self.is_open && matches!(kind, Kind::Sync) {
            self.more.judge(alloc, journal, ground, true)?;
        }
        Ok(())
    }
}

// Whether the write that failed has committed the group that is open all the same: it left the new
// header. (The empty header comes when all groups are committed.)
fn has_committed(fault: Option<DeviceFault>, kind: Kind) -> bool {
    let is_header = matches!(fault, Some(DeviceFault::Block(DiskFault(HEADER))));
    is_header && matches!(kind, Kind::WriteNew)
}

/// Makes the run of a script over a disk with the image of its ground, in which a call of the disk
/// may fail, and judges the journal that it leaves. The disk comes back.
pub fn run<D: Disk + Drop>(
    alloc: Global,
    disk: D,
    ground: &Ground,
    failure: Failure,
    tally: &mut Tally,
    outcome: &mut Outcome,
) -> D {
    let disk = FaultyDisk::new(disk, failure.nth, failure.kind);
    match open(alloc, disk, ground.setting.processes) {
        Ok(mut kernel) => {
            outcome.done = play_out(alloc, &mut kernel, ground, failure.kind, tally, outcome);
            kernel.into_disk().into_inner()
        }
        Err((fault, disk)) => {
            outcome.done = Err(What::Opening(fault));
            disk.into_inner()
        }
    }
}

/// Opens a kernel over a disk of which a call may fail, which recovers its image. The disk comes
/// back, with the fault that refused the opening, if one did.
pub fn opened<D: Disk + Drop>(
    alloc: Global,
    disk: D,
    failure: Failure,
    processes: u32,
) -> (Option<OpenFault>, D) {
    let disk = FaultyDisk::new(disk, failure.nth, failure.kind);
    match open(alloc, disk, processes) {
        Ok(kernel) => (None, kernel.into_disk().into_inner()),
        Err((fault, disk)) => (Some(fault), disk.into_inner()),
    }
}

/// Opens a kernel of so many processes over a disk, which keeps its journal.
pub fn open<D: Disk>(alloc: Global, disk: D, processes: u32) -> Result<Over<D>, (OpenFault, D)> {
    let Ok(intake) = QueueIntake::new(alloc, processes) else {
        return Err((OpenFault::NoMemory, disk));
    };
    let mut kernel = Kernel::open(alloc, disk, intake, PlainHerald::new(), processes)?;
    kernel.record();
    Ok(kernel)
}

/// The journal of a kernel that keeps it.
pub fn journal_of<D: Disk>(kernel: &Over<D>) -> Result<&[Entry], What> {
    kernel.journal().ok_or(What::NoMemory)
}

// Makes the turns of a script, and judges the journal.
fn play_out<D: Disk>(
    alloc: Global,
    kernel: &mut Over<FaultyDisk<D>>,
    ground: &Ground,
    kind: Kind,
    tally: &mut Tally,
    outcome: &mut Outcome,
) -> Result<(), What> {
    play(alloc, kernel, &mut ground.script(), tally)?;
    outcome.note(kernel, kind, ground.setting.size)?;
    let journal = journal_of(kernel)?;
    tally.journal(ground.setting, journal);
    outcome.judge(alloc, journal, ground, kind)
}

// Makes the turns of a script, until all of it is answered or the disk fails.
fn play<D: Disk>(
    alloc: Global,
    kernel: &mut Over<D>,
    script: &mut Script,
    tally: &mut Tally,
) -> Result<(), What> {
    for _turn in 0..MOST_TURNS {
        if script.is_over() {
            return Ok(());
        }
        if take_turn(alloc, kernel, script, tally)? == Step::Halted {
            return stay_halted(kernel);
        }
    }
    Err(What::NoEnd)
}

/// Makes one turn of a script.
pub fn take_turn<D: Disk>(
    alloc: Global,
    kernel: &mut Over<D>,
    script: &mut Script,
    tally: &mut Tally,
) -> Result<Step, What> {
    script.draw(alloc, journal_of(kernel)?)?;
    hand_in(kernel, script)?;
    let pid = script.turn();
    if pid as usize >= kernel.processes() {
        return Err(What::NoProcess);
    }
    let step = kernel.step(pid);
    tally.step(step);
    if step != Step::Halted && script.fetches() && kernel.poll(pid).is_some() {
        script.answered = script.answered.saturating_add(1);
    }
    Ok(step)
}

// Hands in the operation that was drawn, if there is a place for it.
fn hand_in<D: Disk>(kernel: &mut Over<D>, script: &mut Script) -> Result<(), What> {
    let Some((pid, op)) = script.drawn.take() else {
        return Ok(());
    };
    if pid as usize >= kernel.processes() {
        return Err(What::NoProcess);
    }
    if let Err(op) = kernel.submit(pid, op) {
        script.drawn = Some((pid, op));
    }
    Ok(())
}

// Whether no process makes a step any more.
fn stay_halted<D: Disk>(kernel: &mut Over<D>) -> Result<(), What> {
    for pid in 0..32 {
        if (pid as usize) < kernel.processes() && kernel.step(pid) != Step::Halted {
            return Err(What::StepAfterFault);
        }
    }
    Ok(())
}
