// The processes and their journal, without store and ports.
ghost use Rattle.std.specs.Prelude.{◌≡◌, ◌<◌, ◌^◌, ◌+◌, ◌↔◌, [], IsTrue, true, length, Some, IsSome, IfSome, IfOk, OnErr};
ghost use Rattle.history.specs.Processes.{World, process, fresh_world, with_more_room, taken, refused};
ghost use Rattle.history.specs.Changing.{counted};
ghost use Rattle.history.specs.Journal.{answer_of, plain_reply, FitsRoom};
ghost use Rattle.history.specs.Keeps.{AreUpTo};
ghost use Rattle.history.specs.Processes.{turned, phase_behind, decided, over, entry_index, operation_at, HasEntryIndex, committing, answered, is_before, last_answer, refusal_answer};

use crate::{Changes, Journal, Phase, Process};
use blocks::NoMemory;
use model::gathered::Gathered;
use model::types::{Answer, Entry, Op, Reply};
use std::alloc::Global;
use std::marker::Model;
use std::mem;

/// The processes, numbered from 0, with the journal of their operations.
#[derive(Drop)]
pub struct Processes {
    processes: Vec<Process>,
    // Of each process the entry of its operation under way, and how many changing ones it had.
    held: Vec<Option<Entry>>,
    changes: Vec<Changes>,
    journal: Journal,
    is_shut: bool,
}

impl Model for Processes {
    ghost use Rattle.history.specs.World.{World};

    ghost Value = { World };

    ghost view = { λ w.
        record { processes = w.processes.items; journal = w.journal; is_shut = w.is_shut } };

    ghost use Rattle.history.specs.Holding.{AreHeld};
    ghost use Rattle.history.specs.Changing.{HaveCounts};

    ghost invariant = { λ w. AreHeld w.held.items w.processes.items w.journal.list
        × HaveCounts w.changes.items w.processes.items w.journal.list };
}

impl Processes {
    /// So many idle processes, and an empty journal.
    ///
    /// # Errors
    ///
    /// `NoMemory` where the allocator refuses the processes.
    pub fn new(alloc: Global, count: u32) -> Result<Processes, NoMemory>
        ensures { IfOk result (λ w. w ≡ fresh_world count) }
    {
        let mut processes = Vec::new(alloc);
        let mut held = Vec::new(alloc);
        let mut changes = Vec::new(alloc);
        for _process in 0..count {
            processes.push(Process {
                begun: 0,
                at: Phase::Idle,
                room: None,
            })?;
            held.push(None)?;
            changes.push(Changes::new())?;
        }
        Ok(Processes {
            processes,
            held,
            changes,
            journal: Journal::new(alloc),
            is_shut: false,
        })
    }

    /// Keeps the journal's entries in memory from now on, if there are none yet.
    pub fn record(&mut self)
        ensures { self.new ≡ self.old }
    {
        self.journal.record();
    }

    /// The journal's entries, the oldest first, where they are kept.
    pub fn entries(&self) -> Option<&[Entry]>
        ensures { IfSome result (λ entries. entries.now ≡ self.now.journal.list) }
    {
        self.journal.entries()
    }

    /// How many operations had their turn, or were answered at once.
    pub fn had(&self) -> usize
        ensures { result ≡ length self.now.journal.list }
    {
        self.journal.count()
    }

    /// Whether no operation begins any more.
    pub fn is_shut(&self) -> bool
        ensures { result ≡ self.now.is_shut }
    {
        self.is_shut
    }

    /// No operation begins from now on.
    pub fn shut(&mut self)
        ensures { self.new ≡ record self.old { is_shut = true } }
    {
        self.is_shut = true;
    }

    /// How many processes there are.
    pub fn len(&self) -> usize
        ensures { result ≡ length self.now.processes }
    {
        self.processes.len()
    }

    /// Whether there are none.
    pub fn is_empty(&self) -> bool
        ensures { IsTrue result ↔ (self.now.processes ≡ []) }
    {
        self.processes.is_empty()
    }

    /// How many operations were taken for a process.
    pub fn begun(&self, pid: u32) -> u64
        requires { pid < length self.now.processes }
        ensures { result ≡ (process self.now pid).begun }
    {
        self.processes[pid as usize].begun
    }

    /// Where the operation of a process stands.
    pub fn at(&self, pid: u32) -> &Phase
        requires { pid < length self.now.processes }
        ensures { result.now ≡ (process self.now pid).at }
    {
        &self.processes[pid as usize].at
    }

    /// Does nothing: entries and room can be counted.
    pub fn known(&self)
        ensures { length self.now.journal.list + self.now.journal.room < 2 ^ 64 }
    {
        self.journal.known();
    }

    /// How many changing operations of a process that had their turn are of the first so many
    /// groups. No operation is of a later group than the next.
    pub fn kept(&self, pid: u32, committed: u64) -> u64
        requires pid { pid < length self.now.processes }
        requires groups { AreUpTo (committed + 1) self.now.journal.list }
        ensures { result ≡ counted pid committed self.now.journal.list }
    {
        self.journal.known();
        self.changes[pid as usize].kept(committed)
    }

    /// Makes room in the journal for one more operation.
    ///
    /// # Errors
    ///
    /// `NoMemory` where operations could not be counted any more; nothing is changed.
    pub fn reserve(&mut self) -> Result<(), NoMemory>
        requires { self.old.journal.room + 1 < 2 ^ 64 }
        ensures ok { IfOk result (λ _. self.new ≡ with_more_room self.old) }
        ensures err { OnErr result (self.new ≡ self.old) }
    {
        self.journal.reserve()
    }

    /// An operation of a process begins in this group (0: in none), with this room for the bytes of
    /// its answer. There is room in the journal for it.
    pub fn take(&mut self, pid: u32, group: u64, op: Op, room: Option<Gathered>)
        requires pid { pid < length self.old.processes }
        requires begun { (process self.old pid).begun + 1 < 2 ^ 64 }
        ensures { self.new ≡ taken self.old pid group op room }
    {
        let process = &mut self.processes[pid as usize];
        process.begun += 1;
        process.at = Phase::BeforeTurn { group, op };
        process.room = room;
    }

    /// An operation is answered at once with a reply without bytes: its entry, of no group, is in
    /// the journal, in room that was made. Its answer.
    pub fn refuse(&mut self, pid: u32, op: Op, reply: Reply) -> Answer
        requires pid { pid < length self.old.processes }
        requires begun { (process self.old pid).begun + 1 < 2 ^ 64 }
        requires room { 0 < self.old.journal.room }
        requires plain { plain_reply (Some reply) ≡ Some reply }
        ensures answer { result ≡ refusal_answer self.old pid reply }
        ensures processes { self.new ≡ refused self.old pid op reply }
    {
        let process = &mut self.processes[pid as usize];
        let seq = process.begun + 1;
        process.begun = seq;
        let entry = Entry {
            pid,
            seq,
            op,
            group: 0,
            reply: Some(reply),
        };
        let _index = self.journal.add(&entry);
        answer_of(entry)
    }

    /// The operation of a process has its turn: its entry, with the reply if it is known, is in the
    /// journal, in the room that was made. Where its task is over with it, it ends next.
    pub fn turn(&mut self, pid: u32, reply: Option<Reply>, is_over: bool)
        requires pid { pid < length self.old.processes }
        requires before { is_before (process self.old pid).at ≡ true }
        requires room { 0 < self.old.journal.room }
        ensures { self.new ≡ turned self.old pid reply is_over }
    {
        self.journal.known();
        let process = &mut self.processes[pid as usize];
        let Phase::BeforeTurn { group, op } = mem::replace(&mut process.at, Phase::Idle) else {
            unreachable!();
        };
        let held = Entry {
            pid,
            seq: process.begun,
            op,
            group,
            reply,
        };
        let entry = self.journal.add(&held);
        self.held[pid as usize] = Some(held);
        self.changes[pid as usize].add(group);
        process.at = behind(is_over, group, entry);
    }

    /// The operation of a process that had its turn and goes on.
    pub fn operation(&self, pid: u32) -> &Op
        requires pid { pid < length self.now.processes }
        requires entry { HasEntryIndex self.now (entry_index (process self.now pid).at) }
        ensures { Some result.now ≡ operation_at self.now (entry_index (process self.now pid).at) }
    {
        let Some(entry) = &self.held[pid as usize] else {
            unreachable!();
        };
        &entry.op
    }

    /// The reply of a process's operation that had its turn is decided.
    pub fn decide(&mut self, pid: u32, reply: Reply)
        requires pid { pid < length self.old.processes }
        requires entry { HasEntryIndex self.old (entry_index (process self.old pid).at) }
        ensures { self.new ≡ decided self.old pid reply }
    {
        let Some(index) = entry_index(&self.processes[pid as usize].at) else {
            unreachable!();
        };
        let Some(entry) = &mut self.held[pid as usize] else {
            unreachable!();
        };
        self.journal.tell(index, &reply);
        entry.reply = Some(reply);
    }

    /// The task of an operation that had its turn is over: it ends in the log next.
    pub fn go_to_end(&mut self, pid: u32)
        requires { pid < length self.old.processes }
        ensures { self.new ≡ over self.old pid }
    {
        let process = &mut self.processes[pid as usize];
        process.at = match mem::replace(&mut process.at, Phase::Idle) {
            Phase::AfterTurn { group, entry } => Phase::Ending { group, entry },
            at => at,
        };
    }

    /// The operation of a process was the last of its group, and commits it.
    pub fn commit(&mut self, pid: u32)
        requires { pid < length self.old.processes }
        ensures { self.new ≡ committing self.old pid }
    {
        let process = &mut self.processes[pid as usize];
        process.at = match mem::replace(&mut process.at, Phase::Idle) {
            Phase::Ending { group, entry } => Phase::Committing { group, entry },
            at => at,
        };
    }

    /// The operation of a process, which has its reply, is answered. Its answer.
    pub fn answer(&mut self, pid: u32) -> Answer
        requires pid { pid < length self.old.processes }
        requires entry { IsSome (last_answer self.old (process self.old pid).at) }
        requires fits { IfSome (last_answer self.old (process self.old pid).at)
            (λ answer. FitsRoom (process self.old pid).room answer.reply) }
        ensures answer { Some result ≡ last_answer self.old (process self.old pid).at }
        ensures processes { self.new ≡ answered self.old pid }
    {
        let process = &mut self.processes[pid as usize];
        process.at = Phase::Idle;
        process.room = None;
        let Some(entry) = self.held[pid as usize].take() else {
            unreachable!();
        };
        answer_of(entry)
    }
}

// What a process gets back of an entry with its reply.
fn answer_of(entry: Entry) -> Answer
    requires { IsSome (answer_of entry) }
    ensures { Some result ≡ answer_of entry }
{
    let Entry {
        pid: _pid,
        seq,
        op: _op,
        group,
        reply,
    } = entry;
    let Some(reply) = reply else {
        unreachable!();
    };
    Answer { seq, reply, group }
}

// Where an operation stands behind its turn.
fn behind(is_over: bool, group: u64, entry: usize) -> Phase
    ensures { result ≡ phase_behind is_over group entry }
{
    if is_over {
        Phase::Ending { group, entry }
    } else {
        Phase::AfterTurn { group, entry }
    }
}

// Where the entry of an operation stands that had its turn.
fn entry_index(at: &Phase) -> Option<usize>
    ensures { result ≡ entry_index at.now }
{
    match at {
        Phase::Idle | Phase::BeforeTurn { .. } => None,
        Phase::AfterTurn { entry, .. }
        | Phase::Ending { entry, .. }
        | Phase::Committing { entry, .. } => { Some(*entry) }
    }
}
