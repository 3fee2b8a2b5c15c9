// Kernels that threads share.
ghost use Rattle.std.specs.Prelude.{◌≡◌, ◌≤◌, ◌<◌, ℕ, All};
ghost use Rattle.rings.specs.Boards.{KeeperOf, WatchOf, published};
ghost use Rattle.ports.specs.History.{nothing_yet};
ghost use Rattle.rings.specs.Callers.{IntakeFits, intake_count};
ghost use Rattle.sysring.specs.Origins.{AreWorkers};

use crate::flushes::print_flushes;
use crate::lines::new_image;
use blocks::{Disk, MemDisk, NoMemory};
use kernel::Kernel;
use layout::MkfsFault;
use model::content::Content;
use model::types::Op;
use offline::check;
use std::alloc::{AllocGlobal, Global};
use std::rt::Clock;
use std::sync::Wait;
use std::sync::atomic::{AtomicU64, Ordering};
use std::thread;
use std::thread::Threads;
use std::time::Duration;
use sysring::{
    Board, BoardHerald, Bound, Caller, Gate, Keeper, NoGate, RingIntake, Serving, Watch, rings,
    serve_while,
};

// The turns that a process makes until it sees the other one.
const TURNS: u32 = 100_000_000;

// The processes of which each makes a file.
const PROCESSES: u32 = 32;

// The writes of each, with which a ring is full.
const WRITES: u32 = 15;

// More seconds than a group stays open.
const LONG: u64 = 100;

/// A kernel over rings and a board.
pub(crate) type Opened<'a> = Kernel<MemDisk, RingIntake, BoardHerald<'a>>;

// A place where two processes reconcile before their steps.
#[derive(Drop)]
struct Reconciling {
    here: [AtomicU64; 2],
    met: [AtomicU64; 2],
}

impl Reconciling {
    fn new() -> Reconciling {
        Reconciling {
            here: [AtomicU64::new(0), AtomicU64::new(0)],
            met: [AtomicU64::new(0), AtomicU64::new(0)],
        }
    }

    // Whether the process of this number saw the other one.
    fn has_met(&self, pid: usize) -> bool
        requires { pid < 2 }
    {
        self.met[pid].load(Ordering::SeqCst) == 1
    }
}

impl Gate for Reconciling {
    fn before(&self, pid: u32) {
        let mine = (pid % 2) as usize;
        self.here[mine].store(1, Ordering::SeqCst);
        for _turn in 0..TURNS {
            if self.here[1 - mine].load(Ordering::SeqCst) == 1 {
                self.met[mine].store(1, Ordering::SeqCst);
                return;
            }
        }
    }

    fn after(&self, _pid: u32) {}
}

fn zeroes() -> [AtomicU64; 4] {
    [
        AtomicU64::new(0),
        AtomicU64::new(0),
        AtomicU64::new(0),
        AtomicU64::new(0),
    ]
}

// What the steps of four processes pass, which two workers make: 0 and 2, and 1 and 3.
#[derive(Drop)]
struct Passing {
    come: [AtomicU64; 4],
    gone: [AtomicU64; 4],
    broken: AtomicU64,
}

impl Passing {
    fn new() -> Passing {
        Passing {
            come: zeroes(),
            gone: zeroes(),
            broken: AtomicU64::new(0),
        }
    }

    // Waits for the first step that is counted here.
    fn wait_for(&self, count: &AtomicU64) {
        for _turn in 0..TURNS {
            if count.load(Ordering::SeqCst) > 0 {
                return;
            }
        }
        self.broken.store(1, Ordering::SeqCst);
    }

    // Whether all waited in vain for nothing, and each step that came has gone.
    fn is_kept(&self) -> bool {
        let mut kept = self.broken.load(Ordering::SeqCst) == 0;
        for pid in 0..4 {
            let come = self.come[pid].load(Ordering::SeqCst);
            kept &= come > 0 && come == self.gone[pid].load(Ordering::SeqCst);
        }
        kept
    }
}

impl Gate for Passing {
    fn before(&self, pid: u32) {
        let mine = (pid % 4) as usize;
        self.come[mine].fetch_add(1, Ordering::SeqCst);
        // The worker's other process has no step under way.
        let other = (mine + 2) % 4;
        if self.come[other].load(Ordering::SeqCst) != self.gone[other].load(Ordering::SeqCst) {
            self.broken.store(1, Ordering::SeqCst);
        }
        // The lock is free between two steps of a worker: the other worker makes one meanwhile.
        match mine {
            0 => self.wait_for(&self.come[1]),
            1 => self.wait_for(&self.come[0]),
            2 => self.wait_for(&self.gone[1]),
            _ => self.wait_for(&self.gone[0]),
        }
    }

    fn after(&self, pid: u32) {
        let mine = (pid % 4) as usize;
        self.gone[mine].fetch_add(1, Ordering::SeqCst);
        if mine == 1 {
            // Process 2 has the other worker.
            self.wait_for(&self.come[2]);
        }
    }
}

// Opens a kernel of so many processes, if its image can be used.
fn opened<'a>(
    alloc: Global,
    disk: MemDisk,
    intake: RingIntake,
    board: &'a Board,
    keeper: Keeper,
    processes: u32,
) -> Option<Opened<'a>>
    requires keeper { KeeperOf board.now keeper × (published keeper ≡ 0) }
    requires count { intake_count intake ≡ processes }
    requires fresh { (p : ℕ) → IntakeFits intake p nothing_yet }
{
    let herald = BoardHerald::new(board, keeper);
    match Kernel::open(alloc, disk, intake, herald, processes) {
        Ok(kernel) => Some(kernel),
        Err((_fault, _disk)) => None,
    }
}

/// Two workers reconcile, and step four processes each in its turn; then 1, 2 and 8 workers serve 32
/// processes, and keep groups of the log open for others; and kernels are flushed. Prints what came of
/// it.
pub fn print_sharing<R: Print + AllocGlobal + Threads + Wait + Clock + Sync>(
    rt: &R,
) -> anyhow::Result<()> {
    print_meeting(rt)?;
    print_passing(rt)?;
    for workers in [1, 2, 8] {
        let created = created_by(rt, workers)?;
        println!(rt; "{workers} workers: {created:?}")?;
    }
    print_groups(rt)?;
    print_flushes(rt)
}

// Two workers step two processes at one time.
fn print_meeting<R: Print + AllocGlobal + Threads + Wait + Clock + Sync>(
    rt: &R,
) -> anyhow::Result<()> {
    let gate = Reconciling::new();
    let is_done = pass(rt, &gate, 2)?;
    let (first, second) = (gate.has_met(0), gate.has_met(1));
    println!(rt; "two workers: done {is_done}, met {first} and {second}")?;
    Ok(())
}

// Each step of a worker gets the lock anew, and is between its two calls of the gate.
fn print_passing<R: Print + AllocGlobal + Threads + Wait + Clock + Sync>(
    rt: &R,
) -> anyhow::Result<()> {
    let gate = Passing::new();
    let is_done = pass(rt, &gate, 4)?;
    println!(rt;
        "two workers, four processes: done {is_done}, kept {}",
        gate.is_kept()
    )?;
    Ok(())
}

fn pass<R: AllocGlobal + Threads + Wait + Clock + Sync, G: Gate + Sync>(
    rt: &R,
    gate: &G,
    processes: u32,
) -> Result<bool, MkfsFault>
    requires { (1 ≤ processes) × (processes ≤ 32) }
{
    match new_image(rt.alloc()) {
        Ok(disk) => Ok(serve_by_two(rt, disk, gate, processes)),
        Err(fault) => Err(fault),
    }
}

fn created_by<R: AllocGlobal + Threads + Wait + Clock + Sync>(
    rt: &R,
    workers: u32,
) -> Result<Option<Created>, MkfsFault>
    requires { AreWorkers workers }
{
    let served = served_by(rt, workers, None, 0)?;
    Ok(served.map(|served| served.created))
}

// A creation and 15 writes of each process are there before its kernel is served. So the groups are the
// same with any number of workers; 497 operations belong to some, and each has at most one operation
// more than the bound has answers: two with a bound of 1, or of no time.
fn print_groups<R: Print + AllocGlobal + Threads + Wait + Clock + Sync>(
    rt: &R,
) -> anyhow::Result<()> {
    let served = served_by(rt, 1, None, WRITES)?;
    println!(rt; "1 workers, in turn: {served:?}")?;
    for workers in [1, 4, 8, 32] {
        for answers in [1, 100, 1000] {
            let grouped = grouped_by(rt, workers, answers, LONG)?;
            println!(rt; "{workers} workers, groups of {answers} answers: {grouped:?}")?;
        }
        let grouped = grouped_by(rt, workers, 1000, 0)?;
        println!(rt; "{workers} workers, groups of no time: {grouped:?}")?;
    }
    Ok(())
}

fn grouped_by<R: AllocGlobal + Threads + Wait + Clock + Sync>(
    rt: &R,
    workers: u32,
    answers: u32,
    seconds: u64,
) -> Result<Option<Served>, MkfsFault>
    requires { AreWorkers workers }
{
    let bound = Bound {
        answers,
        time: Duration::from_secs(seconds),
    };
    served_by(rt, workers, Some(bound), WRITES)
}

fn served_by<R: AllocGlobal + Threads + Wait + Clock + Sync>(
    rt: &R,
    workers: u32,
    bound: Option<Bound>,
    writes: u32,
) -> Result<Option<Served>, MkfsFault>
    requires { AreWorkers workers }
{
    match new_image(rt.alloc()) {
        Ok(disk) => Ok(serve_all(rt, disk, workers, bound, writes)),
        Err(fault) => Err(fault),
    }
}

// Serves a kernel of so many processes with two workers, whose shutdown is asked for before. Whether
// that was done.
fn serve_by_two<R: AllocGlobal + Threads + Wait + Clock + Sync, G: Gate + Sync>(
    rt: &R,
    disk: MemDisk,
    gate: &G,
    processes: u32,
) -> bool
    requires { (1 ≤ processes) × (processes ≤ 32) }
{
    let (Ok((intake, _callers)), Ok((board, keeper, watches))) = (
        rings(rt.alloc(), processes),
        Board::new(rt.alloc(), 1),
    ) else {
        return false;
    };
    match opened(rt.alloc(), disk, intake, &board, keeper, processes) {
        Some(kernel) => {
            shut(&board, watches);
            let (done, _kernel) = serve_while(rt, kernel, 2, None, gate, |_serving| ());
            done.is_some()
        }
        None => false,
    }
}

// Asks for a shutdown.
pub(crate) fn shut(board: &Board, mut watches: Vec<Watch>)
    requires { All (WatchOf board.now) watches.items }
{
    if let Some(mut watch) = watches.pop() {
        board.ask_shut(&mut watch);
    }
}

// Polls answers until there are so many of them, and then asks for a shutdown.
fn collect<R: Wait>(
    rt: &R,
    board: &Board,
    watches: Vec<Watch>,
    mut callers: Vec<Caller>,
    wanted: u32,
    serving: &Serving,
) -> u32
    requires { All (WatchOf board.now) watches.items }
{
    let mut answers = 0u32;
    for _round in rt.forever() {
        answers = answers.saturating_add(poll_all(&mut callers));
        if answers >= wanted || serving.has_ended() {
            break;
        }
        thread::yield_now();
    }
    shut(board, watches);
    answers
}

// Polls each caller once. How many answers there were.
pub(crate) fn poll_all(callers: &mut Vec<Caller>) -> u32 {
    let mut answers = 0u32;
    for caller in callers.iter_mut() {
        if caller.poll().is_some() {
            answers = answers.saturating_add(1);
        }
    }
    answers
}

// Hands in a creation of each process, and then so many writes of 64 bytes to a file of its own.
fn submit_all(alloc: Global, callers: &mut Vec<Caller>, writes: u32) -> Result<(), NoMemory> {
    let mut file = 0u32;
    for caller in callers.iter_mut() {
        file = file.wrapping_add(1);
        let _number = caller.submit(Op::Create(2));
        submit_writes(alloc, caller, file, writes)?;
    }
    Ok(())
}

fn submit_writes(
    alloc: Global,
    caller: &mut Caller,
    file: u32,
    writes: u32,
) -> Result<(), NoMemory> {
    for _write in 0..writes {
        let bytes = Content::copy_of(alloc, &[7; 64])?;
        let _number = caller.submit(Op::Write(file, 0, bytes));
    }
    Ok(())
}

// What came of the creations: how many answers there were, and of how many the kernel has an entry;
// and whether the image is sound.
#[derive(Clone, Copy, Debug)]
struct Created {
    answers: Option<u32>,
    entries: usize,
    is_sound: bool,
}

// The same, how many groups were committed, and by how many writes.
#[derive(Clone, Copy, Debug)]
struct Served {
    created: Created,
    groups: u64,
    writes: u64,
}

// 32 processes with one creation each, and so many writes, and so many workers.
fn serve_all<R: AllocGlobal + Threads + Wait + Clock + Sync>(
    rt: &R,
    disk: MemDisk,
    workers: u32,
    bound: Option<Bound>,
    writes: u32,
) -> Option<Served>
    requires { AreWorkers workers }
{
    let (Ok((intake, mut callers)), Ok((board, keeper, watches))) = (
        rings(rt.alloc(), PROCESSES),
        Board::new(rt.alloc(), 1),
    ) else {
        return None;
    };
    if submit_all(rt.alloc(), &mut callers, writes).is_err() {
        return None;
    }
    let wanted = PROCESSES.saturating_mul(writes.saturating_add(1));
    match opened(rt.alloc(), disk, intake, &board, keeper, PROCESSES) {
        Some(kernel) => Some(serve_callers(
            rt, kernel, &board, watches, callers, workers, bound, wanted,
        )),
        None => None,
    }
}

// Serves a kernel, while its callers wait for so many answers.
fn serve_callers<R: AllocGlobal + Threads + Wait + Clock + Sync>(
    rt: &R,
    kernel: Opened<'_>,
    board: &Board,
    watches: Vec<Watch>,
    callers: Vec<Caller>,
    workers: u32,
    bound: Option<Bound>,
    wanted: u32,
) -> Served
    requires workers { AreWorkers workers }
    requires watches { All (WatchOf board.now) watches.items }
{
    let before = kernel.disk().writes();
    let (answers, kernel) = serve_while(
        rt,
        kernel,
        workers,
        bound,
        &NoGate,
        move |serving| -> u32
            requires { All (WatchOf board.now) watches.items }
        { collect(rt, board, watches, callers, wanted, serving) },
    );
    let (entries, groups) = (kernel.had(), kernel.committed());
    let writes = kernel.disk().writes().wrapping_sub(before);
    let is_sound = check(rt.alloc(), &mut kernel.into_disk()).is_ok();
    Served {
        created: Created {
            answers,
            entries,
            is_sound,
        },
        groups,
        writes,
    }
}
