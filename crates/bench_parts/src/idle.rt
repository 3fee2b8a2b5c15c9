// A kernel that has nothing to do, served by workers.
ghost use Rattle.std.specs.Prelude.{◌≡◌, All};
ghost use Rattle.rings.specs.Boards.{KeeperOf, WatchOf, published};

use crate::failed::Failed;
use crate::images::new_image;
use blocks::{MemDisk, NoMemory};
use kernel::Kernel;
use std::alloc::AllocGlobal;
use std::rt::Clock;
use std::sync::Wait;
use std::thread;
use std::thread::Threads;
use std::time::Duration;
use sysring::{Board, BoardHerald, Gate, Keeper, RingIntake, Watch, rings, serve_while};

const PROCESSES: u32 = 32;

const WORKERS: u32 = 8;

// Nothing is called round a step.
struct NoGate;

impl Gate for NoGate {
    fn before(&self, _pid: u32) {}

    fn after(&self, _pid: u32) {}
}

/// Serves a kernel whose processes have nothing to do for so many milliseconds.
pub fn idle<R: Threads + Wait + Clock + AllocGlobal + Sync>(
    rt: &R,
    milliseconds: u64,
) -> Result<(), Failed> {
    match (new_image(rt.alloc()), Board::new(rt.alloc(), 1)) {
        (Ok(disk), Ok((board, keeper, watches))) => {
            idle_on(rt, disk, &board, keeper, watches, milliseconds)
        }
        (Err(failed), _) => Err(failed),
        (_, Err(NoMemory)) => Err(Failed::NoMemory),
    }
}

// The same over a disk and a board.
fn idle_on<R: Threads + Wait + Clock + AllocGlobal + Sync>(
    rt: &R,
    disk: MemDisk,
    board: &Board,
    keeper: Keeper,
    watches: Vec<Watch>,
    milliseconds: u64,
) -> Result<(), Failed>
    requires keeper { KeeperOf board.now keeper × (published keeper ≡ 0) }
    requires watches { All (WatchOf board.now) watches.items }
{
    match rings(rt.alloc(), PROCESSES) {
        Ok((intake, _callers)) => {
            let herald = BoardHerald::new(board, keeper);
            match Kernel::open(rt.alloc(), disk, intake, herald, PROCESSES) {
                Ok(kernel) => {
                    rest(rt, kernel, board, watches, milliseconds);
                    Ok(())
                }
                Err((fault, _disk)) => Err(Failed::Opening(fault)),
            }
        }
        Err(NoMemory) => Err(Failed::NoMemory),
    }
}

// The same over a kernel. The watches are of that board.
fn rest<R: Threads + Wait + Clock + Sync>(
    rt: &R,
    kernel: Kernel<MemDisk, RingIntake, BoardHerald<'_>>,
    board: &Board,
    watches: Vec<Watch>,
    milliseconds: u64,
)
    requires watches { All (WatchOf board.now) watches.items }
{
    let (_rested, _kernel) = serve_while(
        rt,
        kernel,
        WORKERS,
        None,
        &NoGate,
        move |_serving| -> u32
            requires { All (WatchOf board.now) watches.items }
        {
            thread::sleep(rt, Duration::from_millis(milliseconds));
            shut(board, watches);
            0
        },
    );
}

// Asks for a shutdown. The watches are of that board.
fn shut(board: &Board, mut watches: Vec<Watch>)
    requires { All (WatchOf board.now) watches.items }
{
    if let Some(mut watch) = watches.pop() {
        board.ask_shut(&mut watch);
    }
}
