// One run, and whether the image that it leaves has the files that it has to have.
ghost use Rattle.std.specs.Prelude.{◌≡◌, ◌<◌, ⊤, false, All, IfOk, IfErr, IsTrue, length};
ghost use Rattle.std.specs.Result.{IsOkAnd};
ghost use Rattle.rings.specs.Boards.{KeeperOf, WatchOf, asked, published};
ghost use Rattle.player.specs.Opening.{IsArmed, IsOpenedOver};
ghost use Rattle.player.specs.Stepping.{IsSeated};
ghost use Rattle.std.specs.List.{list_all};
ghost use Rattle.scripts.specs.Schedule.{is_word_of};
ghost use Rattle.crash_check.specs.Images.{new_image};
ghost use Rattle.crash_check.specs.Mismatches.{OnMismatch};
ghost use Rattle.stops.specs.Trials.{
  Fails,
  HasPlayedOn,
  IsKeptOf,
  IsLostOf,
  IsTried,
  IsUnopenedNew,
  RunsTo,
  TellsLoss,
  TellsUnopened,
  memory,
};

use crate::running::{opened, play};
use blocks::{Disk, MemDisk, NoMemory};
use crash_check::{Mismatch, StopsFault, cause_in, kept_files, new_image};
use player::{Hands, Outcome, Player, copies_of, open_player, take_board};
use reference::files::Files;
use rings::Board;
use scripts::{Task, Word};
use std::alloc::Global;

/// Makes the turns of the words over a new image, and compares what they leave with what the
/// journal keeps. The write of number `stop` isn't made, counted from 1, and ends the run; each is
/// made where that is 0. How many writes were made.
///
/// # Errors
///
/// `Mismatch` where the image that is left can't be recovered, or has other files: it tells the first
/// file that differs, and leaves it to the caller where the run was stopped. `NoMemory` where memory
/// was refused, also that of an operation.
pub(crate) fn try_run(
    alloc: Global,
    tasks: &[Task],
    processes: u32,
    words: &[Word],
    stop: u64,
) -> Result<u64, StopsFault>
    requires tasks { All (λ task. task.pid < processes) tasks.now }
    requires words { IsTrue (list_all (is_word_of processes) words.now) }
    ensures tried { IfOk result (IsTried tasks.now processes words.now stop) }
    ensures fails { IfErr result (λ f. OnMismatch f
        (Fails tasks.now processes words.now stop)) }
{
    let (board, hands) = take_board(alloc)?;
    let player = open(alloc, &board, hands, tasks, processes, stop)?;
    finish(alloc, player, words, stop)
}

// What the turns of a run came to, and the files that are due then, None where no files can be
// those.
#[derive(Drop)]
struct Played {
    ended: Outcome,
    files: Option<Files>,
}

// Makes the turns over a player that was opened, and compares what they leave. The player isn't kept
// over a `?`, nor is it below: each would cost the proof its whole type again.
fn finish(
    alloc: Global,
    mut player: Player<'_, MemDisk>,
    words: &[Word],
    stop: u64,
) -> Result<u64, StopsFault>
    requires words { IsTrue
        (list_all (is_word_of (length player.kernel.world.processes)) words.now) }
    requires seated { IsSeated player }
    ensures tried { IfOk result (RunsTo words.now stop player.entry) }
    ensures fails { IfErr result (λ f. OnMismatch f (TellsLoss words.now stop player.entry)) }
{
    let played = play_kept(alloc, &mut player, words, stop);
    judge(alloc, player.into_disk(), played)
}

// Makes the turns of the words. What they came to, and the files of the committed groups.
fn play_kept(
    alloc: Global,
    player: &mut Player<'_, MemDisk>,
    words: &[Word],
    stop: u64,
) -> Result<Played, NoMemory>
    requires words { IsTrue
        (list_all (is_word_of (length player.old.kernel.world.processes)) words.now) }
    requires seated { IsSeated player.old }
    ensures { IfOk result (HasPlayedOn words.now stop player.old player.new) }
{
    player.record();
    let ended = play(player, words, stop)?;
    let journal = player.journal().ok_or(NoMemory)?;
    let files = kept_files(alloc, journal, ended.committed)?;
    Ok(Played { ended, files })
}

// Compares what a run leaves on a disk with the files that are due, where it was made. How many
// writes it made.
fn judge(
    alloc: Global,
    mut disk: MemDisk,
    played: Result<Played, NoMemory>,
) -> Result<u64, StopsFault>
    ensures kept { IfOk result (λ writes. IsOkAnd played (IsKeptOf disk writes)) }
    ensures lost { IfErr result (λ f. OnMismatch f (λ m. IsOkAnd played (IsLostOf disk m))) }
{
    let Played { ended, files } = played?;
    match cause_in(alloc, &mut disk, files)? {
        None => Ok(ended.writes),
        Some(cause) => Err(StopsFault::Mismatch(Mismatch::new(cause))),
    }
}

// A player of these operations over a new image. The hands are of that board.
#[tactic(auto, using(crate::proofs::Runs::handed_on))]
fn open<'a>(
    alloc: Global,
    board: &'a Board,
    hands: Hands,
    tasks: &[Task],
    processes: u32,
    stop: u64,
) -> Result<Player<'a, MemDisk>, StopsFault>
    requires tasks { All (λ task. task.pid < processes) tasks.now }
    requires keeper { KeeperOf board.now hands.keeper × (published hands.keeper ≡ 0) }
    requires watch { WatchOf board.now hands.watch × (asked hands.watch ≡ false) }
    ensures opened { IfOk result (IsOpenedOver memory.image new_image tasks.now processes) }
    ensures armed { IfOk result (λ player.
        IsArmed memory stop player.kernel.store.volume.device) }
    ensures processes { IfOk result (λ player. length player.kernel.world.processes ≡ processes) }
    ensures seated { IfOk result IsSeated }
    ensures fails { IfErr result (λ f. OnMismatch f (λ m. TellsUnopened m
        × IsUnopenedNew ⟦<MemDisk as Disk>⟧ memory (λ _. ⊤) processes stop)) }
{
    let disk = new_image(alloc)?;
    let tasks = copies_of(alloc, tasks)?;
    opened(open_player(alloc, board, hands, disk, tasks, processes, stop))
}
