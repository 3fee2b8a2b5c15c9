// The workers that make a shared kernel's steps.
ghost use Rattle.std.specs.Prelude.{◌≡◌, ◌≤◌, ◌<◌, ◌^◌, true};
ghost use Rattle.sysring.specs.Origins.{AreWorkers, processes_in};

use crate::grouping::{Bound, take_turn};
use crate::session::Origin;
use crate::shared::Shared;
use blocks::Disk;
use kernel::Step;
use model::types::Why;
use ports::Herald;
use std::rt::Clock;
use std::sync::Wait;
use std::thread;
use std::thread::Threads;
use std::time::Duration;

// How many microseconds a worker rests after a round in which nothing moved, since a submission
// wakes nobody: twice as long after each further one, up to the longest.
const SHORTEST_REST: u64 = 50;

const LONGEST_REST: u64 = 5000;

/// What is called outside the kernel's lock, round each step, or round each turn of a process.
pub trait Gate {
    /// A step of this process comes.
    fn before(&self, pid: u32);

    /// A step of this process was made.
    fn after(&self, pid: u32);
}

// The processes of some workers: bit w is set where worker w is among them.
#[derive(Clone, Copy)]
struct Share {
    processes: u32,
    mine: u32,
    workers: u32,
    ghost are: { AreWorkers workers },
}

impl Share {
    ghost use Rattle.std.specs.Prelude.{◌≡◌};

    fn of(processes: u32, mine: u32, workers: u32) -> Share
        requires { AreWorkers workers }
        ensures { result.processes ≡ processes }
    {
        Share {
            processes,
            mine,
            workers,
        }
    }

    fn has(self, pid: u32) -> bool {
        (self.mine >> (pid % self.workers)) & 1 == 1
    }
}

// What a round of steps came to, one of each process.
#[derive(Clone, Copy)]
enum Round {
    // No process goes on any more.
    Over,
    // Each sleeps until another process moves.
    Asleep,
    // None moved, and memory was refused.
    Refused,
    // None moved.
    Quiet,
    // Some moved.
    Busy,
}

// What the steps of a round have in common so far.
#[derive(Clone, Copy)]
struct Steps {
    over: bool,
    asleep: bool,
    moved: bool,
    refused: bool,
}

impl Steps {
    fn none() -> Steps {
        Steps {
            over: true,
            asleep: true,
            moved: false,
            refused: false,
        }
    }

    fn and(self, step: Step) -> Steps {
        Steps {
            over: self.over & is_over(step),
            asleep: self.asleep & is_asleep(step),
            moved: self.moved | is_move(step),
            refused: self.refused | matches!(step, Step::NoMemory),
        }
    }

    fn round(self) -> Round {
        if self.over {
            Round::Over
        } else if self.asleep {
            Round::Asleep
        } else if self.moved {
            Round::Busy
        } else if self.refused {
            Round::Refused
        } else {
            Round::Quiet
        }
    }
}

/// Makes the steps of all processes with so many workers, from 1 to 32, the calling thread among
/// them, until each has answered `ShutDown` or `Halted`. Worker w has the processes whose numbers
/// leave w when divided by the number of workers. The calling thread is worker 0, and has the
/// processes of each worker that can't be started, too.
///
/// By its code, and by no clause: the lock is got anew for each step; a worker waits after a round
/// in which each of its processes sleeps until another one moves, if no step changed anything since;
/// after any other round in which nothing moved it rests for a moment.
pub fn serve<
    D: Disk + Send,
    H: Herald + Send,
    K: Origin<D, H> + Send,
    R: Threads + Wait + Clock + Sync,
    G: Gate + Sync,
>(rt: &R, shared: &Shared<D, H, K>, workers: u32, gate: &G)
    requires { AreWorkers workers }
{
    shared.group_by(rt, None);
    serve_by(rt, shared, workers, gate);
}

/// Makes them, and ends, as `serve`, in an order for large groups of the log. Its workers share all
/// processes and their order, and make turns: a turn makes the steps of one operation under one lock.
///
/// By its code, and by no clause: an operation that stands before its end in the log, with no other
/// open, ends only once another process's one stands there, too. So the group stays open, and blocks
/// that its operations have in common are written once. It is closed, and then all its answers are
/// durable, where no process has an operation for it in a whole round, where the log has no room for
/// one more, or where the bound is reached: so no answer of a group waits for more further ones than
/// the bound has, nor longer than its time and one turn. Two processes go on in turn for some thirty
/// operations, and then the next one comes.
pub fn serve_grouped<
    D: Disk + Send,
    H: Herald + Send,
    K: Origin<D, H> + Send,
    R: Threads + Wait + Clock + Sync,
    G: Gate + Sync,
>(rt: &R, shared: &Shared<D, H, K>, workers: u32, bound: Bound, gate: &G)
    requires { AreWorkers workers }
{
    shared.group_by(rt, Some(bound));
    serve_by(rt, shared, workers, gate);
}

/// Nothing is called round a step.
pub struct NoGate;

impl Gate for NoGate {
    fn before(&self, _pid: u32) {}

    fn after(&self, _pid: u32) {}
}

// Makes them as the one or the other, as `Shared::group_by` has it.
pub(crate) fn serve_as<
    D: Disk + Send,
    H: Herald + Send,
    K: Origin<D, H> + Send,
    R: Threads + Wait + Clock + Sync,
    G: Gate + Sync,
>(rt: &R, shared: &Shared<D, H, K>, workers: u32, gate: &G)
    requires { AreWorkers workers }
{
    match shared.bound(rt) {
        None => serve(rt, shared, workers, gate),
        Some(bound) => serve_grouped(rt, shared, workers, bound, gate),
    }
}

// Makes them by workers on threads of their own.
fn serve_by<
    D: Disk + Send,
    H: Herald + Send,
    K: Origin<D, H> + Send,
    R: Threads + Wait + Clock + Sync,
    G: Gate + Sync,
>(rt: &R, shared: &Shared<D, H, K>, workers: u32, gate: &G)
    requires { AreWorkers workers }
{
    let processes = processes_of(rt, shared);
    shared.serving().wake(u32::MAX >> (32 - workers));
    thread::scope(
        thread::scope_env(),
        rt,
        |scope|
            requires { AreWorkers workers × (processes ≡ processes_in K.outset) }
        {
            let mut mine = 1u32;
            for worker in 1..workers {
                let theirs = 1u32 << worker;
                let started = scope.spawn(
                    move ||
                        requires { AreWorkers workers × (processes ≡ processes_in K.outset) }
                    {
                        work(rt, shared, Share::of(processes, theirs, workers), gate);
                    },
                );
                if started.is_err() {
                    mine |= theirs;
                }
            }
            work(rt, shared, Share::of(processes, mine, workers), gate);
        },
    );
}

// How many processes there are.
fn processes_of<D: Disk, H: Herald, K: Origin<D, H>, R: Wait>(
    rt: &R,
    shared: &Shared<D, H, K>,
) -> u32
    ensures { result ≡ processes_in K.outset }
{
    shared.lock(rt).kernel().processes() as u32
}

// Makes rounds of steps of these processes, until none of them goes on.
fn work<D: Disk, H: Herald, K: Origin<D, H>, R: Wait + Clock, G: Gate>(
    rt: &R,
    shared: &Shared<D, H, K>,
    share: Share,
    gate: &G,
)
    requires { share.processes ≡ processes_in K.outset }
{
    let mut rest = SHORTEST_REST;
    for _ in rt.forever() {
        let seen = shared.changes();
        let round = make_round(rt, shared, share, gate);
        if matches!(round, Round::Busy) {
            shared.serving().count_move();
            rest = SHORTEST_REST;
            continue;
        }
        if matches!(round, Round::Refused) {
            shared.serving().count_refusal();
        }
        shared.serving().rest(share.mine);
        match round {
            Round::Over => return,
            Round::Asleep => shared.wait_past(rt, seen),
            Round::Refused | Round::Quiet | Round::Busy => {
                thread::sleep(rt, Duration::from_micros(rest));
                rest = rest.saturating_mul(2).min(LONGEST_REST);
            }
        }
        shared.serving().wake(share.mine);
    }
}

// Makes a round of steps, or of turns.
fn make_round<D: Disk, H: Herald, K: Origin<D, H>, R: Wait + Clock, G: Gate>(
    rt: &R,
    shared: &Shared<D, H, K>,
    share: Share,
    gate: &G,
) -> Round
    requires { share.processes ≡ processes_in K.outset }
{
    if shared.serving().is_grouped() {
        make_turns(rt, shared, share.processes, gate)
    } else {
        make_steps(rt, shared, share, gate)
    }
}

// Makes as many turns as there are processes, unless another worker makes some. While a group is kept
// open it doesn't rest.
fn make_turns<D: Disk, H: Herald, K: Origin<D, H>, R: Wait + Clock, G: Gate>(
    rt: &R,
    shared: &Shared<D, H, K>,
    processes: u32,
    gate: &G,
) -> Round
    requires { processes ≡ processes_in K.outset }
{
    let Some(mut order) = shared.order().try_lock() else {
        return Round::Quiet;
    };
    let mut steps = Steps::none();
    for _turn in 0..processes {
        let pid = order.pass_on(processes);
        gate.before(pid);
        let step = take_turn(rt, shared, &mut order, processes, pid);
        gate.after(pid);
        steps = steps.and(step);
    }
    if order.is_open() {
        return Round::Busy;
    }
    steps.round()
}

// Makes a step of each of these processes.
fn make_steps<D: Disk, H: Herald, K: Origin<D, H>, R: Wait, G: Gate>(
    rt: &R,
    shared: &Shared<D, H, K>,
    share: Share,
    gate: &G,
) -> Round
    requires { share.processes ≡ processes_in K.outset }
{
    let mut steps = Steps::none();
    for pid in 0..share.processes {
        if !share.has(pid) {
            continue;
        }
        gate.before(pid);
        let step = shared.step(rt, pid);
        gate.after(pid);
        steps = steps.and(step);
    }
    steps.round()
}

fn is_over(step: Step) -> bool {
    matches!(step, Step::ShutDown | Step::Halted)
}

// It waits for another process, and not for its caller.
fn is_asleep(step: Step) -> bool {
    match step {
        Step::Sleeping(why) => why != Why::AnswersFull,
        _ => false,
    }
}

pub(crate) fn is_move(step: Step) -> bool {
    matches!(step, Step::Moved | Step::Answered)
}
