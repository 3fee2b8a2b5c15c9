// The beginning of operations that wait.
ghost use Rattle.std.specs.Prelude.{◌≡◌, ◌⊎◌, ◌<◌, ◌+◌, ◌^◌, length, Option, Some, None, IsSome, IfOk, IfErr, true, false};
ghost use Rattle.ports.specs.History.{first_in};
ghost use Rattle.history.specs.declared.types.Phase.TheVariants as at;
ghost use Rattle.history.specs.Processes.{process};
ghost use Rattle.kernel.specs.Begins.{Begins, TakesFirst, LeavesFirst, kept_out, count_of, rooms_for};
ghost use Rattle.kernel.specs.Ports.{Asks, first_waiting};
ghost use Rattle.kernel.specs.Acts.{Acts};
ghost use Rattle.kernel.specs.Heralds.{SameBoard};
ghost use Rattle.kernel.specs.State.{HasValue};

use crate::Step;
use crate::class::{OpClass, at_once_reply, class_of};
use crate::stepping::Kernel;
use blocks::{Disk, NoMemory};
use history::Processes;
use inodes::Store;
use model::gathered::Gathered;
use model::types::{Attribute, Op, Why};
use ports::{Herald, Intake};
use std::alloc::Global;
use wal::Log;

impl<D: Disk, I: Intake, H: Herald> Kernel<D, I, H> {
    // Begins the operation that waits for a process, if one does and it may.
    pub(crate) fn begin(&mut self, pid: u32) -> Step
        requires pid { pid < length self.old.world.processes }
        requires fault { self.old.store.volume.fault ≡ None }
        requires at { (process self.old.world pid).at ≡ at.Idle }
        ensures { Acts D.Disk I.Intake H.Herald pid result self.old self.new }
    {
        if self.hears_shutdown() {
            return Step::ShutDown;
        }
        let Some(what) = self.waiting(pid) else {
            return Step::Idle;
        };
        self.begin_first(pid, what)
    }

    // Whether no operation begins any more.
    fn hears_shutdown(&mut self) -> bool
        ensures store { self.new.store ≡ self.old.store }
        ensures opening { self.new.opening ≡ self.old.opening }
        ensures world { self.new.world ≡ record self.old.world { is_shut = result } }
        ensures intake { self.new.intake ≡ self.old.intake }
        ensures told { result ≡ true
            → (self.old.world.is_shut ≡ true) ⊎ (H.told self.new.herald ≡ true) }
        ensures board { SameBoard H.Herald self.old.herald self.new.herald }
        ensures asked { self.old.world.is_shut ≡ false → H.asks self.old.herald self.new.herald }
        ensures unasked { self.old.world.is_shut ≡ true → self.new.herald ≡ self.old.herald }
        ensures open { result ≡ false
            → (self.old.world.is_shut ≡ false) × (H.told self.new.herald ≡ false) }
    {
        if self.processes.is_shut() {
            return true;
        }
        if !self.herald.is_shut() {
            return false;
        }
        self.processes.shut();
        true
    }

    // What waits for a process.
    fn waiting(&mut self, pid: u32) -> Option<OpClass>
        requires pid { pid < length self.old.world.processes }
        ensures same { self.new ≡ record self.old { intake = self.new.intake } }
        ensures asks { Asks I.Intake pid self.old.intake self.new.intake }
        ensures waiting { result
            ≡ first_waiting I.Intake self.new.store.table.inode_count self.new.intake pid }
    {
        let inode_count = self.store.inode_count();
        let op = self.intake.next(pid)?;
        Some(class_of(op, inode_count))
    }

    // Begins the first that waits for a process, which is of this kind, where it may.
    fn begin_first(&mut self, pid: u32, what: OpClass) -> Step
        requires pid { pid < length self.old.world.processes }
        requires fault { self.old.store.volume.fault ≡ None }
        requires at { (process self.old.world pid).at ≡ at.Idle }
        requires waits { first_waiting I.Intake self.old.store.table.inode_count self.old.intake pid
            ≡ Some what }
        ensures { Begins I.Intake (Some what) pid result self.old self.new }
    {
        self.store.known();
        let (op, rooms) = match take_first(
            self.alloc,
            &self.store,
            &mut self.intake,
            &mut self.processes,
            pid,
            what,
        ) {
            Ok(taken) => taken,
            Err(step) => return step,
        };
        self.processes.known();
        match what {
            OpClass::Change => {
                let_go(rooms);
                value_known(&op);
                let group = self.store.begin(pid, &op);
                self.store.known();
                self.processes.take(pid, group, op, None);
                Step::Moved
            }
            OpClass::Look(_) => {
                self.store.begin_look(pid, &op, rooms.read);
                self.store.known();
                self.processes.take(pid, 0, op, rooms.answer);
                Step::Moved
            }
            OpClass::Refused => {
                let_go(rooms);
                let reply = at_once_reply(&op);
                let answer = self.processes.refuse(pid, op, reply);
                self.intake.answer(pid, answer);
                Step::Answered
            }
        }
    }
}

// The rooms of an operation that reads: one for what it reads, and one for its answer.
#[derive(Drop)]
struct Rooms {
    read: Option<Gathered>,
    answer: Option<Gathered>,
}

// Takes the first operation that waits for a process, which is of this kind, with all the room that
// it needs, or says why it is left.
// No method of the kernel: between the room made and the taking its invariant doesn't hold.
fn take_first<D: Disk, I: Intake>(
    alloc: Global,
    store: &Store<D>,
    intake: &mut I,
    processes: &mut Processes,
    pid: u32,
    what: OpClass,
) -> Result<(Op, Rooms), Step>
    requires pid { pid < I.process_count intake.old }
    requires waits { IsSome (first_in (I.side intake.old pid).ahead) }
    requires room { processes.old.journal.room + 1 < 2 ^ 64 }
    ensures taken { IfOk result (λ taken. TakesFirst I.Intake what store.now.volume.log pid taken.0
        taken.1 intake.old intake.new processes.old processes.new) }
    ensures left { IfErr result (λ step. LeavesFirst I.Intake what store.now.volume.log pid step
        intake.old intake.new processes.old processes.new) }
{
    if !intake.room(pid) {
        return Err(Step::Sleeping(Why::AnswersFull));
    }
    if let Some(cause) = kept_out(store.volume().log(), what) {
        return Err(Step::Sleeping(cause));
    }
    let Ok(rooms) = take_rooms(alloc, what) else {
        return Err(Step::NoMemory);
    };
    if processes.reserve().is_err() {
        return Err(Step::NoMemory);
    }
    let Some(op) = intake.take(pid) else {
        unreachable!();
    };
    Ok((op, rooms))
}

// Why the log keeps out what waits.
fn kept_out(log: &Log, what: OpClass) -> Option<Why>
    ensures { result ≡ kept_out what log.now }
{
    match what {
        OpClass::Change => log.may_begin(),
        OpClass::Look(_) | OpClass::Refused => None,
    }
}

// Takes the rooms of what waits, where it may read bytes.
fn take_rooms(alloc: Global, what: OpClass) -> Result<Rooms, NoMemory>
    ensures { IfOk result (λ rooms. rooms ≡ rooms_for (count_of what)) }
{
    let OpClass::Look(Some(count)) = what else {
        return Ok(Rooms {
            read: None,
            answer: None,
        });
    };
    Ok(Rooms {
        read: Some(Gathered::with_room(alloc, count as usize)?),
        answer: Some(Gathered::with_room(alloc, count as usize)?),
    })
}

// The attribute that an operation sets fits its field of an inode.
fn value_known(op: &Op)
    ensures { HasValue op.now }
{
    if let Op::SetAttribute(_, Attribute::Links(count)) = op {
        let _count = *count;
    }
}

// Lets rooms go that are not needed.
fn let_go(_rooms: Rooms) {}
