// What runs have in common, over whatever disk they are made.
ghost use Rattle.std.specs.Prelude.{◌≡◌, false, IfOk, IfErr, IsErrAnd, IsTrue, length};
ghost use Rattle.std.specs.List.{list_all};
ghost use Rattle.player.specs.Stepping.{IsSeated};
ghost use Rattle.crash_check.specs.Images.{is_want_of_memory};
ghost use Rattle.scripts.specs.Schedule.{is_word_of};
ghost use Rattle.crash_check.specs.Mismatches.{OnMismatch};
ghost use Rattle.stops.specs.Trials.{HasPlayed, TellsUnopened};

use blocks::{Disk, FaultyDisk, NoMemory};
use crash_check::{Cause, Mismatch, StopsFault, is_want_of_memory};
use kernel::OpenFault;
use player::{Outcome, Player, make_turns};
use scripts::Word;

/// The player that was opened.
///
/// # Errors
///
/// `NoMemory` where memory was refused, else `Mismatch`.
pub fn opened<'a, D: Disk + Drop>(
    made: Result<Player<'a, D>, (OpenFault, D)>,
) -> Result<Player<'a, D>, StopsFault>
    ensures player { IfOk result (λ player. made.entry ≡ Ok player) }
    ensures fault { IfErr result (λ f. OnMismatch f (λ m.
        TellsUnopened m × IsErrAnd made.entry (λ e. is_want_of_memory e.0 ≡ false))) }
{
    match made {
        Ok(player) => Ok(player),
        Err((fault, _disk)) if is_want_of_memory(&fault) => Err(StopsFault::NoMemory),
        Err(_) => Err(StopsFault::Mismatch(Mismatch::new(Cause::Unopened))),
    }
}

/// Makes the turns of the words, where the write of number `stop` isn't made. What they came to.
pub(crate) fn play<D: Disk + Drop>(
    player: &mut Player<'_, D>,
    words: &[Word],
    stop: u64,
) -> Result<Outcome, NoMemory>
    requires words { IsTrue
        (list_all (is_word_of (length player.old.kernel.world.processes)) words.now) }
    requires seated { IsSeated player.old }
    ensures { IfOk result (λ ended. HasPlayed ⟦<FaultyDisk<D> as Disk>⟧
        words.now stop ended player.old player.new) }
{
    let opened = player.outcome(0);
    make_turns(player, words, stop)?;
    let ended = player.outcome(opened.writes);
    Ok(ended)
}
