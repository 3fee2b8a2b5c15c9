// The turns of a schedule, over a kernel with a script's operations.
ghost use Rattle.std.specs.Prelude.{◌≡◌, ◌-◌, ◌<◌, false, All, IsTrue, length, IfOk, IfErr, IfSome, Option};
ghost use Rattle.blocks.specs.FaultyDisk.{has_fired, inner_of};
ghost use Rattle.blocks.specs.Disk.{counted};
ghost use Rattle.rings.specs.Boards.{KeeperOf, WatchOf, asked, published};
ghost use Rattle.model.specs.Log.{logged_count};
ghost use Rattle.model.specs.declared.types.operations.Answer.{Answer as SomeAnswer};
ghost use Rattle.kernel.specs.Moves.{MakesSteps};
ghost use Rattle.scripts.specs.Schedule.{is_word_of};
ghost use Rattle.wal.specs.Recovery.{LeavesFromSync, RecoversAs, writes_to_recover};
ghost use Rattle.player.specs.Afterwards.{IsUnopenedOver};
ghost use Rattle.player.specs.Stepping.{
  HandsIn,
  HasItsWatch,
  HasSame,
  IsSeated,
  KeepsOfSource,
  KeepsOfFeeders,
  MakesRingedStep,
  MakesTurn,
  MakesTurnOf,
  ReconcilesAt,
  Polls,
  board_herald,
  kernel_fault,
  ring_ends,
};
ghost use Rattle.player.specs.Opening.{IsArmed, IsOpenedOver};
ghost use Rattle.player.specs.Turns.{event_of};

use crate::player::Player;
use crate::reconciling::Reconciling;
use blocks::{Disk, FaultyDisk, Kind};
use clients::feeders;
use kernel::{Kernel, OpenFault, Step};
use messages::Event;
use model::types::{Answer, Entry};
use rings::{Board, BoardHerald, Keeper, Watch};
use scripts::{Task, Word};
use std::alloc::Global;
use stepping::make_steps;
use wal::DeviceFault;

/// What the turns came to.
#[derive(Clone, Copy)]
pub struct Outcome {
    /// The blocks written since the image was recovered.
    pub writes: u64,
    /// The committed groups.
    pub committed: u64,
    /// The disk's fault, but for the one that was asked for.
    pub fault: Option<DeviceFault>,
}

/// The hands at a board that a player needs.
#[derive(Drop)]
pub struct Hands {
    pub keeper: Keeper,
    pub watch: Watch,
}

/// A player of these operations, of so many processes, over a disk whose image was recovered. The
/// write of number `stop` isn't made, counted from 1; each is where that is 0. The hands are of that
/// board.
///
/// # Errors
///
/// Hands the disk back with a fault of `Kernel::open`; with its `NoMemory` also where memory for
/// the operations or the rings is refused, and then nothing was done with the disk.
pub fn open_player<'a, D: Disk + Drop>(
    alloc: Global,
    board: &'a Board,
    hands: Hands,
    disk: D,
    tasks: Vec<Task>,
    processes: u32,
    stop: u64,
) -> Result<Player<'a, D>, (OpenFault, D)>
    requires tasks { All (λ task. task.pid < processes) tasks.items }
    requires keeper { KeeperOf board.now hands.keeper × (published hands.keeper ≡ 0) }
    requires watch { WatchOf board.now hands.watch × (asked hands.watch ≡ false) }
    ensures opened { IfOk result (IsOpenedOver ⟦<FaultyDisk<D> as Disk>⟧.image
        (D.image disk) tasks.items processes) }
    ensures processes { IfOk result (λ player. length player.kernel.world.processes ≡ processes) }
    ensures seated { IfOk result IsSeated }
    ensures writes { IfOk result (λ player.
        ⟦<FaultyDisk<D> as Disk>⟧.write_count player.kernel.store.volume.device
        ≡ counted (D.write_count disk) (writes_to_recover (logged_count (D.image disk)))) }
    ensures armed { IfOk result (λ player. logged_count (D.image disk) ≡ 0
        → IsArmed ⟦<FaultyDisk<D> as Disk>⟧ stop player.kernel.store.volume.device) }
    ensures name { IfOk result (λ player.
        D.name (inner_of player.kernel.store.volume.device) ≡ D.name disk) }
    ensures leaves { IfOk result (λ player. LeavesFromSync D.Disk
        disk (inner_of player.kernel.store.volume.device) (RecoversAs (D.image disk))) }
    ensures refused { IfErr result (λ e. IsUnopenedOver ⟦<FaultyDisk<D> as Disk>⟧
        processes stop disk e.1 e.0) }
{
    let (intake, feeders) = match feeders(alloc, tasks, processes) {
        Ok(made) => made,
        Err(_refused) => return Err((OpenFault::NoMemory, disk)),
    };
    let disk = FaultyDisk::new(disk, stop, Kind::WriteOld);
    let Hands { keeper, watch } = hands;
    match Kernel::open(
        alloc,
        disk,
        intake,
        BoardHerald::new(board, keeper),
        processes,
    ) {
        Ok(kernel) => Ok(Player {
            kernel,
            board,
            watch,
            feeders,
        }),
        Err((fault, disk)) => Err((fault, disk.into_inner())),
    }
}

impl<'a, D: Disk + Drop> Player<'a, D> {
    /// Makes the turn of a word, where the write of number `stop` isn't made. The process that the
    /// word names is one of the kernel's.
    pub(crate) fn turn(&mut self, word: Word, stop: u64) -> Event
        requires word { IsTrue (is_word_of (length self.old.kernel.world.processes) word) }
        requires seated { IsSeated self.old }
        ensures makes { MakesTurn ⟦<FaultyDisk<D> as Disk>⟧ stop word result self.old self.new }
        ensures processes { length self.new.kernel.world.processes
            ≡ length self.old.kernel.world.processes }
        ensures seated { IsSeated self.new }
    {
        match word {
            Word::Step(pid) => self.make_step(pid, stop),
            Word::Steps(pid) => self.make_steps(pid, stop),
            Word::Shutdown => {
                self.board.ask_shut(&mut self.watch);
                Event::Shut
            }
        }
    }

    // Makes the turn of a process that has one step.
    #[tactic(auto, using(crate::proofs::Steps::one_turn))]
    fn make_step(&mut self, pid: u32, stop: u64) -> Event
        requires pid { pid < length self.old.kernel.world.processes }
        requires seated { IsSeated self.old }
        ensures makes { MakesTurnOf (MakesRingedStep ⟦<FaultyDisk<D> as Disk>⟧ pid)
            stop pid result self.old self.new }
        ensures processes { length self.new.kernel.world.processes
            ≡ length self.old.kernel.world.processes }
        ensures seated { IsSeated self.new }
    {
        self.hand_in(pid);
        let step = self.step(pid);
        self.event(pid, step, stop)
    }

    // Makes the turn of a process that has steps until one doesn't move.
    #[tactic(auto, using(crate::proofs::Steps::one_turn))]
    fn make_steps(&mut self, pid: u32, stop: u64) -> Event
        requires pid { pid < length self.old.kernel.world.processes }
        requires seated { IsSeated self.old }
        ensures makes { MakesTurnOf (MakesSteps ⟦<FaultyDisk<D> as Disk>⟧ ring_ends board_herald pid)
            stop pid result self.old self.new }
        ensures processes { length self.new.kernel.world.processes
            ≡ length self.old.kernel.world.processes }
        ensures seated { IsSeated self.new }
    {
        self.hand_in(pid);
        let step = make_steps(&mut self.kernel, pid);
        self.event(pid, step, stop)
    }

    /// What the turns came to, on a disk that had counted `base` writes before them.
    pub fn outcome(&self, base: u64) -> Outcome
        ensures writes { result.writes ≡ ⟦<FaultyDisk<D> as Disk>⟧.write_count
            self.now.kernel.store.volume.device - base }
        ensures committed { result.committed ≡ self.now.kernel.store.volume.log.committed }
        ensures fault { result.fault ≡ kernel_fault self.now.kernel }
    {
        let disk = self.kernel.disk();
        let fired = disk.fired();
        Outcome {
            writes: disk.writes().saturating_sub(base),
            committed: self.kernel.committed(),
            fault: if fired { None } else { self.kernel.fault() },
        }
    }

    /// How many groups were opened.
    pub fn opened(&self) -> u64
        ensures { result ≡ self.now.kernel.store.volume.log.opened }
    {
        self.kernel.opened()
    }

    /// Keeps the operations that have their turn in memory from now on, if none had it yet.
    pub fn record(&mut self)
        ensures { self.new ≡ self.old }
    {
        self.kernel.record();
    }

    /// The operations that had their turn, the oldest first, where they are kept: as from `record`,
    /// and until memory was refused for one.
    pub fn journal(&self) -> Option<&[Entry]>
        ensures { IfSome result (λ entries. entries.now ≡ self.now.kernel.world.journal.list) }
    {
        self.kernel.journal()
    }

    /// The inode numbers of the image.
    pub fn inode_count(&self) -> u32
        ensures { result ≡ self.now.kernel.store.table.inode_count }
    {
        self.kernel.inode_count()
    }

    // The disk, for who only asks.
    pub(crate) fn disk(&self) -> &FaultyDisk<D>
        ensures { result.now ≡ self.now.kernel.store.volume.device }
    {
        self.kernel.disk()
    }

    /// The disk as it is.
    pub fn into_disk(self) -> D
        ensures { result ≡ inner_of self.entry.kernel.store.volume.device }
    {
        let Player { kernel, .. } = self;
        kernel.into_disk().into_inner()
    }

    /// Lets both ends of the rings of each process see what the other did. So it is known that what
    /// was taken of it is a beginning of its operations, and what is kept of them is one of the
    /// changing ones.
    pub(crate) fn reconcile_all(&mut self)
        requires seated { IsSeated self.old }
        ensures same { HasSame self.old.kernel self.new.kernel }
        ensures own { KeepsOfFeeders ⟦<FaultyDisk<D> as Disk>⟧ self.old.kernel
            (length self.old.kernel.world.processes) self.old.feeders.items }
    {
        self.kernel.known();
        for pid in 0..self.kernel.processes() as u32 {
            self.reconcile(pid);
        }
    }

    // Lets both ends of a process's rings see what the other did.
    fn reconcile(&mut self, pid: u32)
        requires pid { pid < length self.old.kernel.world.processes }
        requires seated { IsSeated self.old }
        ensures reconciles { ReconcilesAt pid self.old.kernel.intake self.old.feeders.items
            self.new.kernel.intake self.new.feeders.items }
        ensures own { KeepsOfSource ⟦<FaultyDisk<D> as Disk>⟧ pid self.old.kernel
            self.old.feeders.items }
        ensures same { HasSame self.old.kernel self.new.kernel }
        ensures watch { HasItsWatch self.old self.new }
        ensures seated { IsSeated self.new }
    {
        self.kernel.known();
        let caller = &mut self.feeders[pid as usize].caller;
        self.kernel.visit_with(Reconciling { pid }, caller);
    }

    // Hands in the next operations of a process, as many as its ring takes.
    pub(crate) fn hand_in(&mut self, pid: u32)
        requires pid { pid < length self.old.kernel.world.processes }
        requires seated { IsSeated self.old }
        ensures hands_in { HandsIn pid
            self.old.kernel self.old.feeders.items self.new.kernel self.new.feeders.items }
        ensures watch { HasItsWatch self.old self.new }
        ensures seated { IsSeated self.new }
    {
        self.reconcile(pid);
        let _moved = self.feeders[pid as usize].hand_in();
    }

    // Makes a step of a process.
    pub(crate) fn step(&mut self, pid: u32) -> Step
        requires pid { pid < length self.old.kernel.world.processes }
        requires seated { IsSeated self.old }
        ensures makes { MakesRingedStep ⟦<FaultyDisk<D> as Disk>⟧
            pid result self.old.kernel self.new.kernel }
        ensures processes { length self.new.kernel.world.processes
            ≡ length self.old.kernel.world.processes }
        ensures feeders { self.new.feeders ≡ self.old.feeders }
        ensures watch { HasItsWatch self.old self.new }
        ensures seated { IsSeated self.new }
    {
        self.kernel.step(pid)
    }

    // Takes the oldest answer that a process was given.
    fn poll(&mut self, pid: u32) -> Option<Answer>
        requires pid { pid < length self.old.kernel.world.processes }
        requires seated { IsSeated self.old }
        ensures polls { Polls pid result
            self.old.kernel self.old.feeders.items self.new.kernel self.new.feeders.items }
        ensures watch { HasItsWatch self.old self.new }
        ensures seated { IsSeated self.new }
    {
        self.reconcile(pid);
        if self.feeders[pid as usize].caller.answers_known() == 0 {
            return None;
        }
        self.feeders[pid as usize].poll()
    }

    // What the turn of a process came to, whose last step answered so.
    pub(crate) fn event(&mut self, pid: u32, step: Step, stop: u64) -> Event
        requires pid { pid < length self.old.kernel.world.processes }
        requires seated { IsSeated self.old }
        ensures { (polled : Option SomeAnswer)
            × Polls pid polled
            self.old.kernel self.old.feeders.items self.new.kernel self.new.feeders.items
            × (result ≡ event_of (has_fired self.old.kernel.store.volume.device)
            stop pid step polled) × HasItsWatch self.old self.new
            × IsSeated self.new }
    {
        let fired = self.kernel.disk().fired();
        let answer = self.poll(pid);
        event_of(fired, stop, pid, step, answer)
    }
}

// What a turn of a process came to: the write to be stopped was reached, or its operation was
// answered, or its last step answered so.
fn event_of(fired: bool, stop: u64, pid: u32, step: Step, answer: Option<Answer>) -> Event
    ensures { result ≡ event_of fired stop pid step answer }
{
    if fired {
        return Event::Stopped(stop);
    }
    match answer {
        Some(answer) => Event::Answered(pid, answer),
        None => Event::Stepped(pid, step),
    }
}
