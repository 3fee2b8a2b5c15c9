// Who hears of turns and prints nothing of them.
ghost use Rattle.std.specs.Prelude.{◌≡◌, ◌||◌};
ghost use Rattle.commands_runs.specs.Filed.{mute, wants_in, wants_then};

use blocks::Disk;
use messages::{Event, Unwritten};
use model::types::Step;
use player::{Base, LineTeller, Player, Teller};
use scripts::Word;
use std::io::Write;

/// Prints nothing of a turn, and the counts at the end. It knows whether memory was refused to an
/// operation.
#[derive(Clone, Copy, Drop)]
pub struct Mute {
    pub lines: LineTeller,
    pub refused: bool,
}

impl Teller for Mute {
    ghost says = { λ teller. mute };

    ghost hears = { λ word told old new. new.refused ≡ wants_then old.refused told };

    fn turn<D: Disk + Drop>(
        &mut self,
        player: &mut Player<'_, D>,
        word: Word,
        stop: u64,
        base: Base,
    ) -> Event {
        let event = self.lines.turn(player, word, stop, base);
        self.refused = either(self.refused, wants_in(&event));
        event
    }

    fn print<O: Write>(
        &self,
        _out: &mut O,
        _event: &Event,
        _inode_count: u32,
    ) -> Result<(), Unwritten> {
        Ok(())
    }

    fn print_end<O: Write>(
        &self,
        out: &mut O,
        writes: u64,
        committed: u64,
    ) -> Result<(), Unwritten> {
        self.lines.print_end(out, writes, committed)
    }
}

// Whether memory was refused to an operation in a turn.
pub(crate) fn wants_in(event: &Event) -> bool
    ensures { result ≡ wants_in event.now }
{
    matches!(event, Event::Stepped(_, Step::NoMemory))
}

pub(crate) fn either(one: bool, other: bool) -> bool
    ensures { result ≡ (one || other) }
{
    one || other
}
