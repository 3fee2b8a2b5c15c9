// The order of steps that keeps groups of the log open.
ghost use Rattle.std.specs.Prelude.{◌≡◌, ◌<◌};
ghost use Rattle.sysring.specs.Origins.{processes_in};

use crate::session::Origin;
use crate::shared::Shared;
use crate::workers::is_move;
use blocks::Disk;
use kernel::Step;
use model::types::Why;
use ports::Herald;
use std::rt::Clock;
use std::sync::Wait;
use std::time::{Duration, Instant};

/// When a group of the log is closed that one more operation could join.
#[derive(Clone, Copy)]
pub struct Bound {
    /// Once so many of its answers were given; 0 is as 1.
    pub answers: u32,
    /// Or so long after the first of them.
    pub time: Duration,
}

// How many milliseconds a group stays open behind its first answer, as a commit with its syncs may
// take.
const LONGEST: u64 = 10;

// How often one of two processes joins the other before a third one does: they may well change the
// same blocks. Of 32 processes each has its turn within 1000 operations of the others.
const BURST: u32 = 30;

impl Bound {
    /// So many answers, and ten milliseconds.
    pub fn of(answers: u32) -> Bound
        ensures { result.answers ≡ answers }
    {
        Bound {
            answers,
            time: Duration::from_millis(LONGEST),
        }
    }
}

// Where the workers stand: they share it, so the order of steps is the same with any number of them.
#[derive(Clone, Copy)]
pub(crate) struct Order {
    // None where groups aren't kept open.
    pub(crate) bound: Option<Bound>,
    // The process whose turn comes next.
    next: u32,
    // The process that stands before the end of the last open operation.
    last: Option<u32>,
    // How many turns in a row brought no other operation before its end.
    passed: u32,
    // The process whose operation ended last, which comes next, and how often that may be so.
    again: Option<u32>,
    burst: u32,
    // How many answers of the open group were given.
    answers: u32,
    // When the first of them was given. None also where the clock can't be read.
    since: Option<Instant>,
}

impl Order {
    pub(crate) fn new(bound: Option<Bound>) -> Order {
        Order {
            bound,
            next: 0,
            last: None,
            passed: 0,
            again: None,
            burst: BURST,
            answers: 0,
            since: None,
        }
    }

    // The process whose turn comes.
    pub(crate) fn pass_on(&mut self, processes: u32) -> u32
        requires { 0 < processes }
        ensures { result < processes }
    {
        self.passed = self.passed.saturating_add(1);
        if let Some(pid) = self.again.take() {
            if pid < processes {
                return pid;
            }
        }
        let pid = if self.next < processes { self.next } else { 0 };
        self.next = pid.wrapping_add(1);
        pid
    }

    // Whether an operation stands before its end and keeps a group open.
    pub(crate) fn is_open(&self) -> bool {
        self.last.is_some()
    }

    // The process that stands before the end of the last open operation, where the group is closed
    // now: no other joined in a whole round, or the bound is reached.
    fn closing<R: Clock>(&self, clock: &R, processes: u32) -> Option<u32> {
        if self.passed > processes || self.is_due(clock) {
            return self.last;
        }
        None
    }

    // A process stands before its end, where another one stood until now.
    fn join(&mut self, pid: u32, before: Option<u32>) {
        self.last = Some(pid);
        self.passed = 0;
        if self.burst == 0 {
            self.burst = BURST;
        } else {
            self.burst -= 1;
            self.again = before;
        }
    }

    // Whether the open group has as many answers as the bound allows, or stays open for so long.
    fn is_due<R: Clock>(&self, clock: &R) -> bool {
        let Some(bound) = self.bound else {
            return true;
        };
        if self.answers == 0 {
            return false;
        }
        if self.answers >= bound.answers {
            return true;
        }
        match self.since.map(|since| since.elapsed(clock)) {
            Some(Ok(time)) => time >= bound.time,
            Some(Err(_)) | None => true,
        }
    }

    // The last operation ended, and with it the group, or not.
    fn count_end<R: Clock>(&mut self, clock: &R, is_closed: bool) {
        self.last = None;
        if is_closed {
            self.answers = 0;
            return;
        }
        if self.answers == 0 {
            self.since = Instant::now(clock).ok();
        }
        self.answers = self.answers.saturating_add(1);
    }
}

// Makes the turn of a process: the steps of its operation up to its end in the log, or to its
// answer where it is of no group. Who stood before its end until then ends now, and so the group stays
// open. It ends before, and the group with it, where it is due, or where the log has no room.
pub(crate) fn take_turn<D: Disk, H: Herald, K: Origin<D, H>, R: Wait + Clock>(
    rt: &R,
    shared: &Shared<D, H, K>,
    order: &mut Order,
    processes: u32,
    pid: u32,
) -> Step
    requires processes { processes ≡ processes_in K.outset }
    requires pid { pid < processes }
{
    let closing = order.closing(rt, processes);
    let closed = end(rt, shared, order, processes, closing);
    if order.last == Some(pid) {
        return Step::Idle;
    }
    let step = go_on(rt, shared, order, processes, pid);
    if !matches!(step, Step::Sleeping(Why::LogFull)) {
        return first_move(closed, step);
    }
    let last = order.last;
    let closed = end(rt, shared, order, processes, last);
    first_move(closed, go_on(rt, shared, order, processes, pid))
}

// Makes the steps of a process up to its end, and then ends who stood before its own.
fn go_on<D: Disk, H: Herald, K: Origin<D, H>, R: Wait + Clock>(
    rt: &R,
    shared: &Shared<D, H, K>,
    order: &mut Order,
    processes: u32,
    pid: u32,
) -> Step
    requires processes { processes ≡ processes_in K.outset }
    requires pid { pid < processes }
{
    let (step, is_before_end) = shared.advance(rt, pid);
    if !is_before_end {
        return step;
    }
    let last = order.last;
    let ended = end(rt, shared, order, processes, last);
    order.join(pid, last);
    first_move(step, ended)
}

// Ends the operation of this process, if one is named, with its group where no other is open.
fn end<D: Disk, H: Herald, K: Origin<D, H>, R: Wait + Clock>(
    rt: &R,
    shared: &Shared<D, H, K>,
    order: &mut Order,
    processes: u32,
    last: Option<u32>,
) -> Step
    requires processes { processes ≡ processes_in K.outset }
{
    match last {
        Some(pid) if pid < processes => {
            let (step, is_closed) = shared.end(rt, pid);
            order.count_end(rt, is_closed);
            step
        }
        _ => Step::Idle,
    }
}

// Of two steps the first, if it moved its process, or else the other.
fn first_move(first: Step, second: Step) -> Step {
    if is_move(first) { first } else { second }
}
