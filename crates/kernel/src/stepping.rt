// The kernel, and one step of a process.
ghost use Rattle.std.specs.Prelude.{◌≡◌};
ghost use Rattle.kernel.specs.Next.{step_of};

use crate::Step;
use crate::telling::{give, tell};
use blocks::Disk;
use history::{Phase, Processes};
use inodes::Store;
use model::types::TaskProgress;
use ports::{Herald, Intake};
use std::alloc::Global;
use std::marker::Model;
use std::snapshot::Snapshot;
use wal::{Committed, Ended};

/// Processes whose operations go on step by step over one store.
#[derive(Drop)]
pub struct Kernel<D: Disk, I: Intake, H: Herald> {
    pub(crate) alloc: Global,
    pub(crate) store: Store<D>,
    pub(crate) opening: Snapshot<D>,
    pub(crate) intake: I,
    pub(crate) herald: H,
    pub(crate) processes: Processes,
}

impl<D: Disk, I: Intake, H: Herald> Model for Kernel<D, I, H> {
    ghost use Rattle.kernel.specs.State.{State};
    ghost use Rattle.kernel.specs.Invariant.{Inv};

    ghost Value = { State D I H };

    ghost view = { λ k. record {
      store = k.store;
      opening = k.opening.value;
      intake = k.intake;
      herald = k.herald;
      world = k.processes;
    } };

    ghost invariant = { λ k. Inv D.Disk I.Intake H.Herald (record {
      store = k.store;
      opening = k.opening.value;
      intake = k.intake;
      herald = k.herald;
      world = k.processes;
    }) };
}

impl<D: Disk, I: Intake, H: Herald> Kernel<D, I, H> {
    ghost use Rattle.std.specs.Prelude.{◌≡◌, ◌<◌, length, IfNone, None, true};
    ghost use Rattle.history.specs.Processes.{process, is_before, is_behind, is_ending};
    ghost use Rattle.inodes.specs.Waiting.{AloneGetsBuffers};
    ghost use Rattle.kernel.specs.Known.{Known};
    ghost use Rattle.wal.specs.Machine.{IsLog};
    ghost use Rattle.history.specs.Alone.{is_committing_at};
    ghost use Rattle.kernel.specs.Acts.{Acts};
    ghost use Rattle.kernel.specs.Progress.{IsJoint, MakesProgress};
    ghost use Rattle.kernel.specs.State.{StopsIn};
    ghost use Rattle.blocks.specs.Disk.{Image};
    ghost use Rattle.model.specs.Log.{recovered};
    ghost use Rattle.wal.specs.Recovery.{RecoversAs};
    ghost use Rattle.kernel.specs.Theorem.{IsExact, IsRecoveredRun};

    /// Does nothing: it says what is known of a kernel between two steps, above all what a stop now
    /// leaves: an image that is recovered to a sound one with the opening's files after the
    /// changing operations of the committed groups, in the order of the journal. It says it anew of
    /// a kernel of which no step was seen, as one that was got from a lock.
    pub fn known(&self)
        ensures { Known D.Disk I.Intake H.Herald self.now }
    {
        self.store.known();
        self.store.volume().cache().known();
    }

    /// THE RECOVERY THEOREM of this kernel. Does nothing: it says what recovery makes of each image
    /// that a stop may leave, whoever recovers it: at any moment since the opening, also where that
    /// recovery is stopped and made again, and now.
    pub fn recovers(&self)
        ensures since { (x : Image)
            → D.leaves self.now.store.volume.device (D.moment self.now.opening) x
            → IsRecoveredRun (D.image self.now.opening) 0 self.now (recovered x) }
        ensures stopped { (x z : Image)
            → D.leaves self.now.store.volume.device (D.moment self.now.opening) x → RecoversAs x z
            → IsRecoveredRun (D.image self.now.opening) 0 self.now (recovered z) }
        ensures now { (x : Image)
            → D.leaves self.now.store.volume.device (D.moment self.now.store.volume.device) x
            → IsExact (D.image self.now.opening) self.now x }
    {
        self.known();
    }

    /// Does nothing: it says what room there is between two steps. Where the disk hasn't failed, the log
    /// has its homes and its reservations in order and agrees with disk and buffers, and a process that
    /// alone holds buffers never waits for a free one.
    pub fn room_known(&self)
        ensures log { IfNone self.now.store.volume.fault (IsLog self.now.store.volume.log) }
        ensures joint { IsJoint D.image self.now }
        ensures alone { IfNone self.now.store.volume.fault (AloneGetsBuffers self.now.store) }
    {
        self.store.known();
    }

    /// One step of a process: the next of its operation, or the beginning of the one that waits.
    /// The steps of an operation are what xv6 does between `begin_op` and `end_op`, commit included
    /// (the xv6 book, the chapter "File system": "Code: logging"), one block at a time.
    ///
    /// After a fault of the disk it is `Halted`, and nothing is done. A process with no operation
    /// under way answers, in this order: `ShutDown`, `Idle`, `Sleeping(AnswersFull)`, for what
    /// changes files `Sleeping` with the log's cause, `NoMemory`; else the operation is taken, and
    /// the step is `Moved`, or `Answered` where it is refused at once. No other step takes memory, but
    /// for a record that was asked for, by test.
    pub fn step(&mut self, pid: u32) -> Step
        requires pid { pid < length self.old.world.processes }
        ensures acts { Acts D.Disk I.Intake H.Herald pid result self.old self.new }
        ensures progress { MakesProgress D.Disk pid result self.old self.new }
        ensures stop { StopsIn D.Disk self.old self.new }
    {
        self.known();
        self.store.known();
        let answer = self.go_on(pid);
        self.known();
        self.store.known();
        answer
    }

    // The step, by where the process stands.
    fn go_on(&mut self, pid: u32) -> Step
        requires pid { pid < length self.old.world.processes }
        ensures { Acts D.Disk I.Intake H.Herald pid result self.old self.new }
    {
        if self.store.volume().fault().is_some() {
            return Step::Halted;
        }
        match self.processes.at(pid) {
            Phase::Idle => self.begin(pid),
            Phase::BeforeTurn { .. } => self.work(pid),
            Phase::AfterTurn { .. } => self.finish(pid),
            Phase::Ending { .. } => self.end(pid),
            Phase::Committing { .. } => self.commit(pid),
        }
    }

    // Makes the next step of a task whose operation has not had its turn.
    fn work(&mut self, pid: u32) -> Step
        requires pid { pid < length self.old.world.processes }
        requires fault { self.old.store.volume.fault ≡ None }
        requires at { is_before (process self.old.world pid).at ≡ true }
        ensures { Acts D.Disk I.Intake H.Herald pid result self.old self.new }
    {
        self.store.known();
        let Phase::BeforeTurn { op, .. } = self.processes.at(pid) else {
            unreachable!();
        };
        let progress = self.store.step(pid, op);
        self.store.known();
        match progress {
            TaskProgress::Turned(reply) => {
                let is_over = self.store.is_over(pid);
                self.processes.turn(pid, reply, is_over);
                Step::Moved
            }
            progress => step_of(progress),
        }
    }

    // Makes the next step of a task whose operation had its turn. With its reply, or with its last
    // step, an operation of no group of the log is answered. One of a group goes on, and is
    // answered at its end in the log.
    fn finish(&mut self, pid: u32) -> Step
        requires pid { pid < length self.old.world.processes }
        requires fault { self.old.store.volume.fault ≡ None }
        requires at { is_behind (process self.old.world pid).at ≡ true }
        ensures { Acts D.Disk I.Intake H.Herald pid result self.old self.new }
    {
        self.store.known();
        let Phase::AfterTurn { group, .. } = self.processes.at(pid) else {
            unreachable!();
        };
        let group = *group;
        let op = self.processes.operation(pid);
        let progress = self.store.step(pid, op);
        self.store.known();
        match progress {
            TaskProgress::Decided(reply) => {
                self.processes.decide(pid, reply);
                if group > 0 {
                    return Step::Moved;
                }
                give(&mut self.processes, &mut self.intake, pid);
                Step::Answered
            }
            TaskProgress::Over if group == 0 => {
                give(&mut self.processes, &mut self.intake, pid);
                Step::Answered
            }
            // It is in a group, and ends there.
            TaskProgress::Over => {
                self.processes.go_to_end(pid);
                Step::Moved
            }
            progress => step_of(progress),
        }
    }

    // Ends the operation of a process in the log.
    fn end(&mut self, pid: u32) -> Step
        requires pid { pid < length self.old.world.processes }
        requires fault { self.old.store.volume.fault ≡ None }
        requires at { is_ending (process self.old.world pid).at ≡ true }
        ensures { Acts D.Disk I.Intake H.Herald pid result self.old self.new }
    {
        self.store.known();
        let before = self.store.volume().log().committed();
        let ended = self.store.end(pid);
        self.store.known();
        match ended {
            Ended::Commit => {
                self.processes.commit(pid);
                Step::Moved
            }
            Ended::Left => {
                tell(
                    &mut self.herald,
                    before,
                    self.store.volume().log().committed(),
                );
                give(&mut self.processes, &mut self.intake, pid);
                Step::Answered
            }
        }
    }

    // Makes the next write, or sync, of a commit.
    fn commit(&mut self, pid: u32) -> Step
        requires pid { pid < length self.old.world.processes }
        requires fault { self.old.store.volume.fault ≡ None }
        requires at { is_committing_at (process self.old.world pid).at ≡ true }
        ensures { Acts D.Disk I.Intake H.Herald pid result self.old self.new }
    {
        self.store.known();
        let committed = self.store.commit_step();
        self.store.known();
        match committed {
            Committed::More => Step::Moved,
            Committed::Durable(group) => {
                self.herald.durable(group);
                Step::Moved
            }
            Committed::Done => {
                give(&mut self.processes, &mut self.intake, pid);
                Step::Answered
            }
            Committed::Fault(_) => Step::Halted,
        }
    }
}

// What a step of a process comes to whose task made this one, where it is not answered with it.
fn step_of(progress: TaskProgress) -> Step
    ensures { result ≡ step_of progress }
{
    match progress {
        TaskProgress::Moved
        | TaskProgress::Turned(_)
        | TaskProgress::Decided(_)
        | TaskProgress::Over => Step::Moved,
        TaskProgress::Sleeping(why) => Step::Sleeping(why),
        TaskProgress::Fault(_) => Step::Halted,
    }
}
