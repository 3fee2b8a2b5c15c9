// The turns of a schedule's words, one after the other.
ghost use Rattle.std.specs.Prelude.{◌≡◌, List, OnOk, IsTrue, IfErr, None, length};
ghost use Rattle.std.specs.List.{list_all};
ghost use Rattle.scripts.specs.Schedule.{is_word_of};
ghost use Rattle.messages.specs.declared.events.Event.{Event as SomeEvent};
ghost use Rattle.player.specs.Stepping.{BreaksOff, IsClosed, IsNotClosed, IsSeated, KeepOps, MakesGrantedTurns, is_refused};
ghost use Rattle.player.specs.Told.{HearsTurns, IsBrokenOff, PlaysTo, RunsTo};
ghost use Rattle.kernel.specs.Runs.{RunsOn};

use crate::noting::Base;
use crate::player::Player;
use crate::refusals::ReplayRefusal;
use crate::teller::Teller;
use blocks::{Disk, FaultyDisk, NoMemory};
use kernel::Step;
use messages::{Event, Meter, Unwritten};
use scripts::Word;
use std::io::Write;

/// Makes the turns of the words over a disk that had counted `base` before them. The teller hears of
/// each, and prints what it has to say of it, and behind them of what they came to. The write of
/// number `stop` isn't made. The processes that the words name are the player's. The meter is told
/// how many of the words' turns were made.
///
/// # Errors
///
/// `Output`, and then the turns of the first words were made; else `Disk` where a step found that
/// the disk failed, and then all was printed.
pub(crate) fn run<D: Disk + Drop, T: Teller, P: Meter, O: Write>(
    player: &mut Player<'_, D>,
    words: &[Word],
    stop: u64,
    base: Base,
    teller: &mut T,
    progress: &mut P,
    out: &mut O,
) -> Result<(), ReplayRefusal>
    requires words { IsTrue
        (list_all (is_word_of (length player.old.kernel.world.processes)) words.now) }
    requires seated { IsSeated player.old }
    ensures printed { OnOk result (HearsTurns T.hears words.now teller.old teller.new
        (RunsTo ⟦<FaultyDisk<D> as Disk>⟧ base stop (T.says teller.old) words.now
        player.old player.new None (O.contents out.old) (O.contents out.new))) }
    ensures refused { IfErr result (IsBrokenOff ⟦<FaultyDisk<D> as Disk>⟧ base stop
        (T.says teller.old) words.now player.old player.new
        (O.contents out.old) (O.contents out.new)) }
    ensures keeps { RunsOn ⟦<FaultyDisk<D> as Disk>⟧ player.old.kernel player.new.kernel }
    ensures ops { KeepOps player.old.feeders.items player.new.feeders.items }
    ensures seated { IsSeated player.new }
    ensures name { ⟦<FaultyDisk<D> as Disk>⟧.name player.new.kernel.store.volume.device
        ≡ ⟦<FaultyDisk<D> as Disk>⟧.name player.old.kernel.store.volume.device }
{
    player.kernel.known();
    let inode_count = player.kernel.inode_count();
    play(
        player,
        words,
        stop,
        base,
        teller,
        inode_count,
        progress,
        out,
    )?;
    close(player, base.writes, teller, out)
}

/// Makes the turns of the words, up to the last that can be made, and prints nothing. The write of
/// number `stop` isn't made. The processes that the words name are the player's.
///
/// # Errors
///
/// `NoMemory` where memory for an operation was refused, and then no turn behind that was made; that
/// it was refused no clause can say. No turn of those that were made came to this.
pub fn make_turns<D: Disk + Drop>(
    player: &mut Player<'_, D>,
    words: &[Word],
    stop: u64,
) -> Result<(), NoMemory>
    requires words { IsTrue
        (list_all (is_word_of (length player.old.kernel.world.processes)) words.now) }
    requires seated { IsSeated player.old }
    ensures made { OnOk result ((events : List SomeEvent)
        × MakesGrantedTurns ⟦<FaultyDisk<D> as Disk>⟧ stop words.now events player.old player.new) }
{
    for word in words {
        let event = player.turn(*word, stop);
        if is_refused(&event) {
            return Err(NoMemory);
        }
        if event.is_last() {
            return Ok(());
        }
    }
    Ok(())
}

// Whether a turn came to nothing but a step that was refused memory.
fn is_refused(event: &Event) -> bool
    ensures { result ≡ is_refused event.now }
{
    matches!(event, Event::Stepped(_, Step::NoMemory))
}

// Makes the turns of the words, up to the last that can be made, and the teller prints what it has to
// say of each, over an image of so many inode numbers.
fn play<D: Disk + Drop, T: Teller, P: Meter, O: Write>(
    player: &mut Player<'_, D>,
    words: &[Word],
    stop: u64,
    base: Base,
    teller: &mut T,
    inode_count: u32,
    progress: &mut P,
    out: &mut O,
) -> Result<(), Unwritten>
    requires words { IsTrue
        (list_all (is_word_of (length player.old.kernel.world.processes)) words.now) }
    requires seated { IsSeated player.old }
    ensures printed { OnOk result (HearsTurns T.hears words.now teller.old teller.new
        (PlaysTo ⟦<FaultyDisk<D> as Disk>⟧ base stop ((T.says teller.old).of_turn inode_count)
        words.now player.old player.new (O.contents out.old) (O.contents out.new))) }
    ensures says { T.says teller.new ≡ T.says teller.old }
    ensures breaks { BreaksOff ⟦<FaultyDisk<D> as Disk>⟧ stop words.now player.old player.new }
    ensures seated { IsSeated player.new }
{
    let mut made = 0u64;
    for word in words {
        let event = teller.turn(player, *word, stop, base);
        teller.print(out, &event, inode_count)?;
        if event.is_last() {
            return Ok(());
        }
        made = made.saturating_add(1);
        progress.reached(made, words.len() as u64, "words");
    }
    Ok(())
}

// The teller prints what it has to say of what the turns came to. `Disk` where the disk failed, and all
// is printed then, too.
fn close<D: Disk + Drop, T: Teller, O: Write>(
    player: &Player<'_, D>,
    base: u64,
    teller: &T,
    out: &mut O,
) -> Result<(), ReplayRefusal>
    ensures printed { OnOk result (IsClosed ⟦<FaultyDisk<D> as Disk>⟧ base
        (T.says teller.now).of_end player.now.kernel None
        (O.contents out.old) (O.contents out.new)) }
    ensures refused { IfErr result (IsNotClosed ⟦<FaultyDisk<D> as Disk>⟧ base
        (T.says teller.now).of_end player.now.kernel (O.contents out.old) (O.contents out.new)) }
{
    let outcome = player.outcome(base);
    teller.print_end(out, outcome.writes, outcome.committed)?;
    match outcome.fault {
        Some(fault) => Err(ReplayRefusal::Disk(fault)),
        None => Ok(()),
    }
}
