// A script's operations over a disk, by threads.
ghost use Rattle.std.specs.Prelude.{◌≡◌, ◌<◌, ℕ, false, true, length, All, IfOk, OnOk, IfErr, IfSome, None};
ghost use Rattle.rings.specs.Boards.{KeeperOf, WatchOf, published};
ghost use Rattle.clients.specs.Clients.{AreSameClients, HaveRings, ops_at};
ghost use Rattle.history.specs.Own.{KeepsOwn};
ghost use Rattle.kernel.specs.Known.{Known};
ghost use Rattle.kernel.specs.Opening.{IsOpened};
ghost use Rattle.model.specs.Layout.{inode_count_of};
ghost use Rattle.opening.specs.Openings.{IsNotOpened};
ghost use Rattle.ports.specs.History.{nothing_yet};
ghost use Rattle.rings.specs.declared.intake.RingIntake.{RingIntake};
ghost use Rattle.rings.specs.Callers.{intake_count, intake_names, IntakeFits};
ghost use Rattle.sysring.specs.Origins.{AreWorkers, HasOriginOf};
ghost use Rattle.sysring.specs.Sessions.{HasTurnsOf};
ghost use Rattle.runner.specs.Running.{Ends, IsEndedBy, IsNotRun, Runs};
ghost use Rattle.runner.specs.Sessions.{PrintsSession, RefusesSession};

use crate::driving::drive;
use crate::refusals::RunRefusal;
use crate::reporting::report;
use blocks::Disk;
use clients::{Client, clients};
use kernel::{Kernel, OpenFault};
use messages::Unwritten;
use ports::{Herald, Intake};
use scripts::Task;
use std::alloc::{AllocGlobal, Global};
use std::io::Write;
use std::rt::Clock;
use std::sync::Wait;
use std::thread::Threads;
use sysring::{Board, BoardHerald, Bound, Keeper, NoGate, RingIntake, Watch, serve_while};

/// Recovers the image of a disk, and makes the operations of a script of so many processes, each
/// process's in order, with so many workers, from 1 to 32, on threads of their own. Prints, process
/// by process, a line for each answer and one for what became of the operations.
///
/// With `group` the workers keep groups of the log open, for so many answers at most, as
/// `sysring::serve_grouped`.
///
/// What is printed is what turns, one after the other, made of the kernel that was opened.
///
/// Hands the disk back as the last step left it. Whatever a stop leaves keeps a beginning of the
/// groups: one at any moment, or, where the disk held writes back at the start, one since the sync
/// with which the recovery began; and what one now leaves keeps all that were committed. What is
/// kept of each process, up to any group, is a beginning of its changing operations.
///
/// # Errors
///
/// `Unopened` with a fault of the kernel's opening, with `NoMemory` also where memory for the
/// operations, the rings or the board is refused: then nothing was printed, and whatever a stop
/// leaves is recovered to the same image. `Thread` where no thread can be started, and then nothing
/// was printed either. With these three all was printed: `Disk` with the kernel's fault; `NoMemory`
/// and `Unanswered` only where an operation has no answer, and the disk no fault, by the code the
/// first where nothing moved for a second for want of memory, the other never. Else `Output`.
pub fn run_disk<D: Disk + Drop + Send, R: Threads + Wait + Clock + AllocGlobal + Sync, O: Write>(
    rt: &R,
    disk: D,
    tasks: Vec<Task>,
    processes: u32,
    workers: u32,
    group: Option<u32>,
    out: &mut O,
) -> (Result<(), RunRefusal>, D)
    requires tasks { All (λ task. task.pid < processes) tasks.items }
    requires workers { AreWorkers workers }
    ensures ran { OnOk result.0 (Runs D.Disk disk result.1 tasks.items processes None true
        (O.contents out.old) (O.contents out.new)) }
    ensures refused { IfErr result.0 (IsNotRun D.Disk disk result.1 tasks.items processes
        (O.contents out.old) (O.contents out.new) (out.new ≡ out.old)) }
    ensures session { OnOk result.0 (PrintsSession D.Disk disk result.1 tasks.items processes
        None true (O.contents out.old) (O.contents out.new)) }
    ensures part { IfErr result.0 (RefusesSession D.Disk disk result.1 tasks.items processes
        (O.contents out.old) (O.contents out.new)) }
{
    let (intake, clients) = match clients(rt.alloc(), tasks, processes) {
        Ok(made) => made,
        Err(_refused) => return (Err(RunRefusal::Unopened(OpenFault::NoMemory)), disk),
    };
    let (board, keeper, watches) = match Board::new(rt.alloc(), 1) {
        Ok(made) => made,
        Err(_refused) => return (Err(RunRefusal::Unopened(OpenFault::NoMemory)), disk),
    };
    let kernel = match open(rt.alloc(), &board, keeper, disk, intake, processes) {
        Ok(kernel) => kernel,
        Err((fault, disk)) => return (Err(RunRefusal::Unopened(fault)), disk),
    };
    let (called, kernel) = call(rt, kernel, &board, watches, clients, workers, group);
    match called {
        Some((clients, is_refused)) => close(kernel, clients, is_refused, out),
        None => (Err(RunRefusal::Thread), kernel.into_disk()),
    }
}

// Opens a kernel over rings and a board. The keeper is of that board.
fn open<'a, D: Disk + Drop>(
    alloc: Global,
    board: &'a Board,
    keeper: Keeper,
    disk: D,
    intake: RingIntake,
    processes: u32,
) -> Result<Kernel<D, RingIntake, BoardHerald<'a>>, (OpenFault, D)>
    requires keeper { KeeperOf board.now keeper × (published keeper ≡ 0) }
    requires served { intake_count intake ≡ processes }
    requires fresh { (p : ℕ) → IntakeFits intake p nothing_yet }
    ensures opened { IfOk result (λ k. IsOpened D.Disk disk intake k.herald processes k) }
    ensures refused { IfErr result (λ e. IsNotOpened D.Disk processes disk e.1 e.0) }
{
    let herald = BoardHerald::new(board, keeper);
    Kernel::open(alloc, disk, intake, herald, processes)
}

// Serves the kernel while the clients are called, and answers as `drive`. The watches are of that
// board.
fn call<D: Disk + Send, H: Herald + Send, R: Threads + Wait + Clock + Sync>(
    rt: &R,
    kernel: Kernel<D, RingIntake, H>,
    board: &Board,
    watches: Vec<Watch>,
    clients: Vec<Client>,
    workers: u32,
    group: Option<u32>,
) -> (Option<(Vec<Client>, bool)>, Kernel<D, RingIntake, H>)
    requires workers { AreWorkers workers }
    requires watches { All (WatchOf board.now) watches.items }
    ensures same { IfSome result.0 (λ after. AreSameClients clients.items after.0.items) }
    ensures known { Known D.Disk ⟦<RingIntake as Intake>⟧ H.Herald result.1 }
    ensures origin { HasOriginOf D.Disk H.Herald kernel result.1 }
    ensures turns { HasTurnsOf D.Disk H.Herald kernel result.1 }
    ensures before { Known D.Disk ⟦<RingIntake as Intake>⟧ H.Herald kernel }
{
    kernel.known();
    serve_while(
        rt,
        kernel,
        workers,
        group.map(Bound::of),
        &NoGate,
        move |serving| -> (Vec<Client>, bool)
            requires { All (WatchOf board.now) watches.items }
            ensures { AreSameClients clients.items result.0.items }
        { drive(rt, board, watches, clients, serving) },
    )
}

// Prints what the clients of a kernel came to, and hands its disk back. There is one for each
// process, with its rings. Where one has no answer, it is told whether that is for the memory.
fn close<D: Disk + Drop, H: Herald, O: Write>(
    mut kernel: Kernel<D, RingIntake, H>,
    clients: Vec<Client>,
    is_refused: bool,
    out: &mut O,
) -> (Result<(), RunRefusal>, D)
    requires many { length clients.items ≡ length kernel.world.processes }
    requires rings { HaveRings (intake_names kernel.intake) clients.items }
    ensures disk { result.1 ≡ kernel.store.volume.device }
    ensures own { KeepsOwn (inode_count_of (D.image kernel.opening)) kernel.world.journal.list
        (length clients.items) (ops_at clients.items) }
    ensures ended { OnOk result.0 (Ends (inode_count_of (D.image kernel.opening)) kernel
        (ops_at clients.items) (length clients.items) None true
        (O.contents out.old) (O.contents out.new)) }
    ensures refused { IfErr result.0 (IsEndedBy (inode_count_of (D.image kernel.opening)) kernel
        (ops_at clients.items) (length clients.items) is_refused
        (O.contents out.old) (O.contents out.new)) }
{
    let fault = kernel.fault();
    let reported = report(&mut kernel, clients, out);
    let disk = kernel.into_disk();
    match (reported, fault) {
        (Ok(_), Some(fault)) => (Err(RunRefusal::Disk(fault)), disk),
        (Ok(true), None) => (Ok(()), disk),
        (Ok(false), None) if is_refused => (Err(RunRefusal::NoMemory), disk),
        (Ok(false), None) => (Err(RunRefusal::Unanswered), disk),
        (Err(Unwritten), _) => (Err(RunRefusal::Output), disk),
    }
}
