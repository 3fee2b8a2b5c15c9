// One run over a disk that holds writes back, and whether each image that a stop at its end may
// leave has the files that it has to have.
ghost use Rattle.std.specs.Prelude.{◌≡◌, ◌<◌, ◌+◌, ◌^◌, false, All, IfOk, IfErr, IsTrue, length, option_map};
ghost use Rattle.std.specs.Result.{IsOkAnd};
ghost use Rattle.std.specs.List.{list_all};
ghost use Rattle.rings.specs.Boards.{KeeperOf, WatchOf, asked, published};
ghost use Rattle.player.specs.Opening.{IsArmed, IsOpenedOver};
ghost use Rattle.player.specs.Stepping.{IsSeated};
ghost use Rattle.scripts.specs.Schedule.{is_word_of};
ghost use Rattle.blocks.specs.FaultyDisk.{inner_of};
ghost use Rattle.stops.specs.Holding.{
  FailsHeld,
  FailsSync,
  HasPlayedHeld,
  IsJudged,
  IsTriedHeld,
  RunsHeld,
  TellsHeldLoss,
  below,
  calls_of,
  over,
  stop_behind,
  sync_behind,
  write_behind,
};
ghost use Rattle.stops.specs.Trials.{IsUnopenedNew, TellsUnopened};
ghost use Rattle.crash_check.specs.Choices.{LacksDue};
ghost use Rattle.crash_check.specs.Images.{kept_files, new_image};
ghost use Rattle.crash_check.specs.Mismatches.{OnMismatch};

use crate::running::{opened, play};
use blocks::{Disk, FaultyDisk, Kind, NoMemory, SyncDisk};
use crash_check::{Due, Stop, StopsFault, kept_files, new_image, try_choices};
use model::types::Entry;
use player::{Hands, Outcome, Player, copies_of, open_player, take_board};
use rings::Board;
use scripts::{Task, Word};
use std::alloc::Global;

/// The calls of a disk before which a run may be stopped.
#[derive(Clone, Copy)]
pub enum Calls {
    /// Its writes behind the opening.
    Writes,
    /// Its syncs behind the opening, which makes one itself.
    Syncs,
}

impl Calls {
    /// How many of them a run made.
    pub fn made_by(self, run: HeldRun) -> u64
        ensures { result ≡ calls_of self run }
    {
        match self {
            Calls::Writes => run.writes,
            Calls::Syncs => run.syncs.saturating_sub(1),
        }
    }

    /// The write that isn't made where a run is stopped behind so many of them.
    pub fn write_behind(self, before: u64) -> u64
        requires { before + 1 < 2 ^ 64 }
        ensures { result ≡ write_behind self before }
    {
        match self {
            Calls::Writes => before + 1,
            Calls::Syncs => 0,
        }
    }

    /// The sync that fails where a run is stopped behind so many of them.
    pub fn sync_behind(self, before: u64) -> u64
        requires { sync_behind self before < 2 ^ 64 }
        ensures { result ≡ sync_behind self before }
    {
        match self {
            Calls::Writes => 0,
            Calls::Syncs => before + 2,
        }
    }

    /// Where a run is stopped behind so many of them: both are counted behind the opening.
    pub fn stop_behind(self, before: u64) -> Stop
        requires { before + 1 < 2 ^ 64 }
        ensures { result ≡ stop_behind self before }
    {
        match self {
            Calls::Writes => Stop::Write(before + 1),
            Calls::Syncs => Stop::Sync(before + 1),
        }
    }
}

/// What a run came to.
#[derive(Clone, Copy)]
pub struct HeldRun {
    /// The writes behind the opening.
    pub writes: u64,
    /// The syncs, the opening's among them.
    pub syncs: u64,
    /// The images that a stop at its end may leave.
    pub images: u64,
}

/// Makes the turns of the words over a new image on a disk that holds writes back, and compares each
/// image that it may then leave with what the journal keeps. The write of number `write` isn't made,
/// counted from 1 behind the opening, or the sync of number `sync` fails, for which the opening's is
/// the first; each is made where that is 0.
///
/// # Errors
///
/// `Mismatch` where one of these images can't be recovered, or has other files: it tells which held
/// writes that one has, and the first file that differs, and leaves it to the caller where the run
/// was stopped. `NoMemory` where memory was refused, also that of an operation.
pub(crate) fn try_held_run(
    alloc: Global,
    tasks: &[Task],
    processes: u32,
    words: &[Word],
    write: u64,
    sync: u64,
) -> Result<HeldRun, StopsFault>
    requires tasks { All (λ task. task.pid < processes) tasks.now }
    requires words { IsTrue (list_all (is_word_of processes) words.now) }
    ensures tried { IfOk result (IsTriedHeld tasks.now processes words.now write sync) }
    ensures fails { IfErr result (λ f. OnMismatch f
        (FailsHeld tasks.now processes words.now write sync)) }
{
    let (board, hands) = take_board(alloc)?;
    let player = open_held(alloc, &board, hands, tasks, processes, write, sync)?;
    finish(alloc, player, words, write)
}

// What the turns of a run came to.
#[derive(Drop)]
struct Played {
    ended: Outcome,
    due: Due,
}

// Makes the turns over a player that was opened, and compares each image that it may then leave.
// The player isn't kept over a `?`, nor is it below: each would cost the proof its whole type again.
fn finish(
    alloc: Global,
    mut player: Player<'_, FaultyDisk<SyncDisk>>,
    words: &[Word],
    write: u64,
) -> Result<HeldRun, StopsFault>
    requires words { IsTrue
        (list_all (is_word_of (length player.kernel.world.processes)) words.now) }
    requires seated { IsSeated player }
    ensures tried { IfOk result (RunsHeld words.now write player.entry) }
    ensures fails { IfErr result (λ f. OnMismatch f (TellsHeldLoss words.now write player.entry)) }
{
    let played = play_held(alloc, &mut player, words, write);
    judge(alloc, player.into_disk().into_inner(), played)
}

// Makes the turns of the words. What they came to, and the files that are due then.
fn play_held(
    alloc: Global,
    player: &mut Player<'_, FaultyDisk<SyncDisk>>,
    words: &[Word],
    write: u64,
) -> Result<Played, NoMemory>
    requires words { IsTrue
        (list_all (is_word_of (length player.old.kernel.world.processes)) words.now) }
    requires seated { IsSeated player.old }
    ensures { IfOk result (HasPlayedHeld words.now write player.old player.new) }
{
    player.record();
    let ended = play(player, words, write)?;
    let journal = player.journal().ok_or(NoMemory)?;
    let due = files_due(alloc, journal, ended.committed, player.opened())?;
    Ok(Played { ended, due })
}

// The files after the operations of so many groups, committed and opened.
fn files_due(alloc: Global, journal: &[Entry], committed: u64, opened: u64) -> Result<Due, NoMemory>
    ensures committed { IfOk result (λ due. option_map (λ f. f.items) due.committed
        ≡ kept_files journal.now committed) }
    ensures opened { IfOk result (λ due. option_map (λ f. f.items) due.opened
        ≡ kept_files journal.now opened) }
{
    Ok(Due {
        committed: kept_files(alloc, journal, committed)?,
        opened: kept_files(alloc, journal, opened)?,
    })
}

// Compares each image that a run may leave with the files that are due, where it was made.
fn judge(
    alloc: Global,
    disk: SyncDisk,
    played: Result<Played, NoMemory>,
) -> Result<HeldRun, StopsFault>
    ensures judged { IfOk result (λ run. IsOkAnd played (IsJudged disk run)) }
    ensures lacks { IfErr result (λ f. OnMismatch f (λ m.
        IsOkAnd played (λ made. LacksDue disk made.due m))) }
{
    let played = played?;
    let images = try_choices(alloc, &disk, &played.due)?;
    Ok(HeldRun {
        writes: played.ended.writes,
        syncs: disk.syncs(),
        images,
    })
}

// A player of these operations over a new image. The hands are of that board.
#[tactic(auto, using(crate::proofs::Runs::handed_on))]
fn open_held<'a>(
    alloc: Global,
    board: &'a Board,
    hands: Hands,
    tasks: &[Task],
    processes: u32,
    write: u64,
    sync: u64,
) -> Result<Player<'a, FaultyDisk<SyncDisk>>, StopsFault>
    requires tasks { All (λ task. task.pid < processes) tasks.now }
    requires keeper { KeeperOf board.now hands.keeper × (published hands.keeper ≡ 0) }
    requires watch { WatchOf board.now hands.watch × (asked hands.watch ≡ false) }
    ensures opened { IfOk result (IsOpenedOver over.image new_image tasks.now processes) }
    ensures armed { IfOk result (λ player.
        IsArmed over write player.kernel.store.volume.device) }
    ensures trap { IfOk result (λ player.
        FailsSync sync (inner_of player.kernel.store.volume.device)) }
    ensures processes { IfOk result (λ player. length player.kernel.world.processes ≡ processes) }
    ensures seated { IfOk result IsSeated }
    ensures fails { IfErr result (λ f. OnMismatch f (λ m. TellsUnopened m
        × IsUnopenedNew below over (FailsSync sync) processes write)) }
{
    let image = new_image(alloc)?;
    let held = SyncDisk::new(alloc, image)?;
    let disk = FaultyDisk::new(held, sync, Kind::Sync);
    let tasks = copies_of(alloc, tasks)?;
    opened(open_player(alloc, board, hands, disk, tasks, processes, write))
}
