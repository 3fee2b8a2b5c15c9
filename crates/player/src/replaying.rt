// A script's operations over a disk, in the turns of a schedule.
ghost use Rattle.std.specs.Prelude.{◌≡◌, ◌<◌, false, length, List, All, IsTrue, IfOk, IsOk, OnOk, IfErr, None, unwrap_or};
ghost use Rattle.rings.specs.Boards.{KeeperOf, WatchOf, asked, published};
ghost use Rattle.std.specs.List.{list_all};
ghost use Rattle.scripts.specs.Schedule.{is_word_of};
ghost use Rattle.player.specs.Opening.{IsNotBegun, IsNotReplayed, IsReadyOver, Replays};
ghost use Rattle.player.specs.Stepping.{IsSeated};
ghost use Rattle.player.specs.Told.{HearsTurns, Told, base_of, in_lines, in_objects, tells_steps, writes_in};

use crate::json_teller::JsonTeller;
use crate::noting::Base;
use crate::player::Player;
use crate::playing::run;
use crate::refusals::ReplayRefusal;
use crate::teller::Teller;
use crate::tellers::{LineTeller, StepTeller};
use crate::turns::{Hands, open_player};
use blocks::{Disk, FaultyDisk, NoMemory};
use json_lines::Written;
use kernel::OpenFault;
use messages::{Detail, Meter, Silent};
use opening::recover_image;
use rings::Board;
use scripts::{Task, Word};
use std::alloc::Global;
use std::io::Write;

/// What is replayed: the operations of a script, in the turns of a schedule.
#[derive(Drop)]
pub struct Scenario {
    /// The operations.
    pub tasks: Vec<Task>,
    /// Of how many processes they are.
    pub processes: u32,
    /// The schedule, a turn for each word.
    pub words: Vec<Word>,
    /// The number, from 1, of the write that is not made, and ends the run.
    pub stop: Option<u64>,
}

/// Recovers the image of a disk, and makes the operations of a scenario in its turns, as
/// `replay_with`. Prints a line for each word of the schedule, up to the one in whose turn the disk
/// failed, and below it what is told of the turn's steps: with `detail.steps` a line for each, what
/// it was to do and who held what it waits for; with `detail.writes` a line for each write, which
/// block it is and why, numbered as `stop` counts, and for each sync. Where nothing is told of steps,
/// none is noted.
///
/// # Errors
///
/// As those of `replay_with`, with `Unopened` of `NoMemory` also where memory for the notes of a turn
/// is refused.
pub fn replay_disk<D: Disk + Drop, P: Meter, O: Write>(
    alloc: Global,
    disk: D,
    scenario: Scenario,
    detail: Detail,
    progress: &mut P,
    out: &mut O,
) -> (Result<(), ReplayRefusal>, D)
    requires tasks { All (λ task. task.pid < scenario.processes) scenario.tasks.items }
    requires words { IsTrue (list_all (is_word_of scenario.processes) scenario.words.items) }
    ensures printed { OnOk result.0 ((tolds : List Told) × Replays D.Disk
        ⟦<FaultyDisk<D> as Disk>⟧ disk result.1 scenario.tasks.items scenario.processes
        scenario.words.items (unwrap_or scenario.stop 0) (in_lines detail)
        None (O.contents out.old) (O.contents out.new) tolds) }
    ensures refused { IfErr result.0 (IsNotReplayed D.Disk ⟦<FaultyDisk<D> as Disk>⟧ disk result.1
        scenario.tasks.items scenario.processes scenario.words.items (unwrap_or scenario.stop 0)
        (in_lines detail) (O.contents out.old) (O.contents out.new) (out.new ≡ out.old)) }
    ensures name { D.name result.1 ≡ D.name disk }
{
    if !tells_steps(detail) {
        let mut teller = LineTeller;
        return replay_with(alloc, disk, scenario, &mut teller, progress, out);
    }
    let mut teller = match StepTeller::new(alloc, detail) {
        Ok(teller) => teller,
        Err(_refused) => {
            return (Err(ReplayRefusal::Unopened(OpenFault::NoMemory)), disk);
        }
    };
    replay_with(alloc, disk, scenario, &mut teller, progress, out)
}

/// Recovers the image of a disk, and makes the operations of a scenario in its turns, as
/// `replay_with`. Prints objects of JSON, a line each: for each word of the schedule, up to the one in
/// whose turn the disk failed, one for each step of its turn, and one for what the turn came to;
/// behind them one with the counts. The object of a write has its bytes among these, which are those
/// of the run's writes, in their order.
///
/// # Errors
///
/// As those of `replay_with`, with `Unopened` of `NoMemory` also where memory for the writes was
/// refused, or where that for the notes of a turn is.
pub fn replay_objects<D: Disk + Drop, P: Meter, O: Write>(
    alloc: Global,
    disk: D,
    scenario: Scenario,
    written: Result<Vec<Written>, NoMemory>,
    progress: &mut P,
    out: &mut O,
) -> (Result<(), ReplayRefusal>, D)
    requires tasks { All (λ task. task.pid < scenario.processes) scenario.tasks.items }
    requires words { IsTrue (list_all (is_word_of scenario.processes) scenario.words.items) }
    ensures printed { OnOk result.0 ((tolds : List Told) × Replays D.Disk
        ⟦<FaultyDisk<D> as Disk>⟧ disk result.1 scenario.tasks.items scenario.processes
        scenario.words.items (unwrap_or scenario.stop 0)
        (in_objects (writes_in written (λ v. v.items)))
        None (O.contents out.old) (O.contents out.new) tolds) }
    ensures refused { IfErr result.0 (IsNotReplayed D.Disk ⟦<FaultyDisk<D> as Disk>⟧ disk result.1
        scenario.tasks.items scenario.processes scenario.words.items (unwrap_or scenario.stop 0)
        (in_objects (writes_in written (λ v. v.items)))
        (O.contents out.old) (O.contents out.new) (out.new ≡ out.old)) }
    ensures had { OnOk result.0 (IsOk written) }
    ensures name { D.name result.1 ≡ D.name disk }
{
    let mut teller = match JsonTeller::new(alloc, written) {
        Ok(teller) => teller,
        Err(_refused) => {
            return (Err(ReplayRefusal::Unopened(OpenFault::NoMemory)), disk);
        }
    };
    replay_with(alloc, disk, scenario, &mut teller, progress, out)
}

// Whether something is told of the turns' steps.
fn tells_steps(detail: Detail) -> bool
    ensures { result ≡ tells_steps detail }
{
    detail.steps || detail.writes
}

/// Recovers the image of a disk, and makes the operations of a scenario in its turns. The teller
/// hears of each turn, up to the one in which the disk failed, and prints what it has to say of it;
/// and behind them of how many blocks were written since the image was recovered, and how many
/// groups are committed. The meter is told how many words' turns were made.
///
/// Hands the disk back as the last turn left it. Whatever a stop leaves keeps a beginning of the
/// groups: one at any moment, or, where the disk held writes back at the start, one since the sync
/// with which the recovery began. What is kept of each process, up to any group, is a beginning of
/// its changing operations.
///
/// # Errors
///
/// `Unrecovered` with a refusal of `recover_image`, or `Unopened` with a fault of the kernel's
/// opening, with `NoMemory` also where memory for the board, the operations or the rings is refused:
/// then nothing was printed, and whatever a stop leaves is recovered to the same image. `Output`,
/// and then the turns of the first words were made. `Disk` where a step found that the disk failed,
/// and then all was printed.
pub fn replay_with<D: Disk + Drop, T: Teller, P: Meter, O: Write>(
    alloc: Global,
    disk: D,
    scenario: Scenario,
    teller: &mut T,
    progress: &mut P,
    out: &mut O,
) -> (Result<(), ReplayRefusal>, D)
    requires tasks { All (λ task. task.pid < scenario.processes) scenario.tasks.items }
    requires words { IsTrue (list_all (is_word_of scenario.processes) scenario.words.items) }
    ensures printed { OnOk result.0 (HearsTurns T.hears scenario.words.items teller.old teller.new
        (Replays D.Disk ⟦<FaultyDisk<D> as Disk>⟧ disk result.1 scenario.tasks.items
        scenario.processes scenario.words.items (unwrap_or scenario.stop 0) (T.says teller.old)
        None (O.contents out.old) (O.contents out.new))) }
    ensures refused { IfErr result.0 (IsNotReplayed D.Disk ⟦<FaultyDisk<D> as Disk>⟧ disk result.1
        scenario.tasks.items scenario.processes scenario.words.items (unwrap_or scenario.stop 0)
        (T.says teller.old) (O.contents out.old) (O.contents out.new) (out.new ≡ out.old)) }
    ensures name { D.name result.1 ≡ D.name disk }
{
    let Scenario {
        tasks,
        processes,
        words,
        stop,
    } = scenario;
    let stop = stop.unwrap_or(0);
    let (board, hands) = match take_board(alloc) {
        Ok(made) => made,
        Err(_refused) => {
            return (Err(ReplayRefusal::Unopened(OpenFault::NoMemory)), disk);
        }
    };
    let opened = open_recovered(alloc, &board, hands, disk, tasks, processes, stop);
    let mut player = match opened {
        Ok(player) => player,
        Err((refusal, disk)) => return (Err(refusal), disk),
    };
    let base = base_of(player.disk());
    let ran = run(
        &mut player,
        words.as_slice(),
        stop,
        base,
        teller,
        progress,
        out,
    );
    progress.ended();
    player.reconcile_all();
    (ran, player.into_disk())
}

// What a disk has counted.
fn base_of<D: Disk>(disk: &D) -> Base
    ensures { result ≡ base_of D.Disk disk.now }
{
    Base {
        writes: disk.writes(),
        syncs: disk.syncs(),
    }
}

/// A board, and a player's hands at it.
///
/// # Errors
///
/// `NoMemory` where the allocator refuses the board.
pub fn take_board(alloc: Global) -> Result<(Board, Hands), NoMemory>
    ensures keeper { IfOk result (λ made. KeeperOf made.0 made.1.keeper
        × (published made.1.keeper ≡ 0)) }
    ensures watch { IfOk result (λ made. WatchOf made.0 made.1.watch
        × (asked made.1.watch ≡ false)) }
{
    let (board, keeper, mut watches) = Board::new(alloc, 1)?;
    let Some(watch) = watches.pop() else {
        unreachable!()
    };
    Ok((board, Hands { keeper, watch }))
}

// Recovers the image of a disk, and opens a player over it. The hands are of that board.
fn open_recovered<'a, D: Disk + Drop>(
    alloc: Global,
    board: &'a Board,
    hands: Hands,
    mut disk: D,
    tasks: Vec<Task>,
    processes: u32,
    stop: u64,
) -> Result<Player<'a, D>, (ReplayRefusal, D)>
    requires tasks { All (λ task. task.pid < processes) tasks.items }
    requires keeper { KeeperOf board.now hands.keeper × (published hands.keeper ≡ 0) }
    requires watch { WatchOf board.now hands.watch × (asked hands.watch ≡ false) }
    ensures ready { IfOk result (IsReadyOver D.Disk ⟦<FaultyDisk<D> as Disk>⟧
        disk tasks.items processes stop) }
    ensures processes { IfOk result (λ player. length player.kernel.world.processes ≡ processes) }
    ensures seated { IfOk result IsSeated }
    ensures refused { IfErr result (λ e. IsNotBegun D.Disk ⟦<FaultyDisk<D> as Disk>⟧
        processes stop disk e.1 e.0) }
{
    if let Err(refusal) = recover_image(alloc, &mut disk, &mut Silent) {
        return Err((ReplayRefusal::Unrecovered(refusal), disk));
    }
    match open_player(alloc, board, hands, disk, tasks, processes, stop) {
        Ok(player) => Ok(player),
        Err((fault, disk)) => Err((ReplayRefusal::Unopened(fault), disk)),
    }
}
