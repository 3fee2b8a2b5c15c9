// Kernels that threads share, which a caller flushes while their workers go on.
ghost use Rattle.std.specs.Prelude.{◌≡◌, ℕ, All, IfSome, length};
ghost use Rattle.rings.specs.Boards.{KeeperOf, WatchOf, published};
ghost use Rattle.rings.specs.Callers.{IntakeFits, intake_count};
ghost use Rattle.ports.specs.History.{nothing_yet};
ghost use Rattle.sysring.specs.Origins.{AreWorkers, processes_in};
ghost use Rattle.sysring.specs.Sessions.{IsShared};

use crate::lines::new_image;
use crate::sharing::{Opened, poll_all, shut};
use blocks::{Disk, MemDisk};
use kernel::{Kernel, Step};
use model::types::Op;
use ports::Herald;
use std::alloc::{AllocGlobal, Global};
use std::marker::Brand;
use std::rt::Clock;
use std::sync::Wait;
use std::sync::atomic::{AtomicU64, Ordering};
use std::thread;
use std::thread::Threads;
use std::time::Duration;
use sysring::{
    Board, BoardHerald, Bound, Caller, Gate, Keeper, Origin, RingIntake, Shared, Watch, rings,
    serve_beside,
};

// How many milliseconds one waits for what others do.
const LOOKS: u32 = 5000;

// The turns that a process is held for at most.
const TURNS: u32 = 100_000_000;

// Holds process 0 before one of its steps, or of its turns, until it is let go.
#[derive(Drop)]
struct Holding {
    // How many of them come before that one.
    left: AtomicU64,
    is_held: AtomicU64,
    is_free: AtomicU64,
}

impl Holding {
    fn behind(steps: u64) -> Holding {
        Holding {
            left: AtomicU64::new(steps),
            is_held: AtomicU64::new(0),
            is_free: AtomicU64::new(0),
        }
    }

    fn is_held(&self) -> bool {
        self.is_held.load(Ordering::SeqCst) == 1
    }

    fn let_go(&self) {
        self.is_free.store(1, Ordering::SeqCst);
    }
}

impl Gate for Holding {
    fn before(&self, pid: u32) {
        if pid != 0 || self.left.fetch_sub(1, Ordering::SeqCst) != 0 {
            return;
        }
        self.is_held.store(1, Ordering::SeqCst);
        for _turn in 0..TURNS {
            if self.is_free.load(Ordering::SeqCst) == 1 {
                return;
            }
            thread::yield_now();
        }
    }

    fn after(&self, _pid: u32) {}
}

// How a kernel of two processes is served, and before which step or turn process 0 is held.
#[derive(Clone, Copy)]
struct Way {
    workers: u32,
    bound: Option<Bound>,
    steps: u64,
    ghost are: { AreWorkers workers },
}

// How many answers were polled since the last look, and how many groups were committed.
#[derive(Clone, Copy, Debug)]
struct Seen {
    answers: u32,
    committed: u64,
}

// What came of a flush: to what the last step of process 1 came before it, what was seen before and
// behind it, and whether the processes went on then.
#[derive(Clone, Copy, Debug)]
struct Flushed {
    came: Step,
    before: Seen,
    is_done: bool,
    behind: Seen,
    goes_on: bool,
}

/// Two workers step a process each. Process 0 is held with a buffer for which process 1 waits, whose
/// worker sleeps: a flush ends both operations, and wakes that worker. Then a worker keeps a group of
/// the log open by process 0, which is held, and process 1 is answered: a flush makes that answer
/// durable. Prints what was seen.
pub fn print_flushes<R: Print + AllocGlobal + Threads + Wait + Clock + Sync>(
    rt: &R,
) -> anyhow::Result<()> {
    let in_turn = Way {
        workers: 2,
        bound: None,
        steps: 2,
    };
    let flushed = flush(rt, new_image(rt.alloc())?, in_turn);
    println!(rt; "a flush, in turn: {flushed:?}")?;
    let grouped = Way {
        workers: 1,
        bound: Some(Bound {
            answers: 1000,
            time: Duration::from_secs(100),
        }),
        steps: 1,
    };
    let flushed = flush(rt, new_image(rt.alloc())?, grouped);
    println!(rt; "a flush, groups kept open: {flushed:?}")?;
    Ok(())
}

// Opens a kernel of two processes over a new image, and serves it.
fn flush<R: AllocGlobal + Threads + Wait + Clock + Sync>(
    rt: &R,
    disk: MemDisk,
    way: Way,
) -> Option<Flushed> {
    let (Ok((intake, mut callers)), Ok((board, keeper, watches))) = (
        rings(rt.alloc(), 2),
        Board::new(rt.alloc(), 1),
    ) else {
        return None;
    };
    create(&mut callers, 0);
    match opened(rt.alloc(), disk, intake, &board, keeper) {
        Some(kernel) => flush_over(rt, kernel, &board, watches, callers, way),
        None => None,
    }
}

// A kernel of two processes, if its image can be used.
fn opened<'a>(
    alloc: Global,
    disk: MemDisk,
    intake: RingIntake,
    board: &'a Board,
    keeper: Keeper,
) -> Option<Opened<'a>>
    requires keeper { KeeperOf board.now keeper × (published keeper ≡ 0) }
    requires count { intake_count intake ≡ 2 }
    requires fresh { (p : ℕ) → IntakeFits intake p nothing_yet }
    ensures two { IfSome result (λ kernel. length kernel.world.processes ≡ 2) }
{
    let herald = BoardHerald::new(board, keeper);
    match Kernel::open(alloc, disk, intake, herald, 2) {
        Ok(kernel) => Some(kernel),
        Err((_fault, _disk)) => None,
    }
}

// The same with an origin, which is the kernel itself.
fn flush_over<D: Disk + Drop + Send, H: Herald + Send, R: Threads + Wait + Clock + Sync>(
    rt: &R,
    kernel: Kernel<D, RingIntake, H>,
    board: &Board,
    watches: Vec<Watch>,
    callers: Vec<Caller>,
    way: Way,
) -> Option<Flushed>
    requires two { length kernel.world.processes ≡ 2 }
    requires watches { All (WatchOf board.now) watches.items }
{
    kernel.known();
    serve_flushed::<D, H, Brand, R>(rt, kernel, board, watches, callers, way)
}

// Serves a kernel, which is flushed meanwhile.
fn serve_flushed<
    D: Disk + Drop + Send,
    H: Herald + Send,
    K: Origin<D, H> + Send,
    R: Threads + Wait + Clock + Sync,
>(
    rt: &R,
    kernel: Kernel<D, RingIntake, H>,
    board: &Board,
    watches: Vec<Watch>,
    callers: Vec<Caller>,
    way: Way,
) -> Option<Flushed>
    requires shared { IsShared D.Disk H.Herald K.outset kernel }
    requires two { processes_in K.outset ≡ 2 }
    requires watches { All (WatchOf board.now) watches.items }
{
    let held = Holding::behind(way.steps);
    let shared = Shared::<D, H, K>::new(kernel);
    let (gate, kernel) = (&held, &shared);
    let flushed = serve_beside(
        rt,
        kernel,
        way.workers,
        way.bound,
        gate,
        move |_serving| -> Flushed
            requires { (processes_in K.outset ≡ 2) × All (WatchOf board.now) watches.items }
        {
            let flushed = flush_beside(rt, kernel, gate, callers, way.bound.is_some());
            shut(board, watches);
            flushed
        },
    );
    let _disk = shared.into_kernel().into_disk();
    flushed
}

// Flushes a kernel while process 0 is held, and sees that both processes go on behind that. With one
// worker that one is let go before.
fn flush_beside<D: Disk, H: Herald, K: Origin<D, H>, R: Wait + Clock>(
    rt: &R,
    shared: &Shared<D, H, K>,
    gate: &Holding,
    mut callers: Vec<Caller>,
    is_alone: bool,
) -> Flushed
    requires { processes_in K.outset ≡ 2 }
{
    wait_for(rt, gate);
    create(&mut callers, 1);
    let came = step_on(rt, shared);
    // So that a worker sleeps that has nothing else to do.
    thread::sleep(rt, Duration::from_millis(50));
    let before = look(rt, shared, &mut callers);
    let is_done = shared.flush(rt).is_ok();
    let behind = look(rt, shared, &mut callers);
    if is_alone {
        gate.let_go();
    }
    let goes_on = calls(rt, &mut callers, 1);
    gate.let_go();
    let goes_on = calls(rt, &mut callers, 0) && goes_on;
    Flushed {
        came,
        before,
        is_done,
        behind,
        goes_on,
    }
}

// Waits until process 0 is held.
fn wait_for<R: Clock>(rt: &R, gate: &Holding) {
    for _look in 0..LOOKS {
        if gate.is_held() {
            return;
        }
        thread::sleep(rt, Duration::from_millis(1));
    }
}

// Makes steps of process 1 while they move it. To what the last came.
fn step_on<D: Disk, H: Herald, K: Origin<D, H>, R: Wait>(rt: &R, shared: &Shared<D, H, K>) -> Step
    requires { processes_in K.outset ≡ 2 }
{
    for _step in 0..LOOKS {
        let step = shared.step(rt, 1);
        if !matches!(step, Step::Moved) {
            return step;
        }
    }
    Step::Moved
}

fn look<D: Disk, H: Herald, K: Origin<D, H>, R: Wait>(
    rt: &R,
    shared: &Shared<D, H, K>,
    callers: &mut Vec<Caller>,
) -> Seen {
    Seen {
        answers: poll_all(callers),
        committed: shared.lock(rt).kernel().committed(),
    }
}

// Hands in a creation of a process, and waits for its answer. Whether it came.
fn calls<R: Clock>(rt: &R, callers: &mut Vec<Caller>, pid: usize) -> bool {
    create(callers, pid);
    for _look in 0..LOOKS {
        if poll_all(callers) > 0 {
            return true;
        }
        thread::sleep(rt, Duration::from_millis(1));
    }
    false
}

// Hands in a creation of a process.
fn create(callers: &mut Vec<Caller>, pid: usize) {
    if let Some(caller) = callers.get_mut(pid) {
        let _number = caller.submit(Op::Create(2));
    }
}
