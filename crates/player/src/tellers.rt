// Who tells the lines of turns, and who tells what their steps were, too.
ghost use Rattle.std.specs.Prelude.{◌≡◌, ◌++◌, [], OnOk, IfOk, length};
ghost use Rattle.std.specs.Io.KnownBytes.{Appends};
ghost use Rattle.player.specs.Told.{in_lines, no_detail};

use crate::noting::{Base, Notes};
use crate::player::Player;
use crate::teller::Teller;
use blocks::{Disk, NoMemory};
use messages::{Detail, Event, StepNote, Unwritten, print_counts, print_event, print_notes};
use scripts::Word;
use std::alloc::Global;
use std::io::Write;

/// Prints the line of each turn, and the counts. It hears of no step, and none is noted.
#[derive(Clone, Copy, Drop)]
pub struct LineTeller;

impl Teller for LineTeller {
    ghost says = { λ teller. in_lines no_detail };

    ghost hears = { λ word told old new. new ≡ old };

    fn turn<D: Disk + Drop>(
        &mut self,
        player: &mut Player<'_, D>,
        word: Word,
        stop: u64,
        _base: Base,
    ) -> Event {
        player.turn(word, stop)
    }

    fn print<O: Write>(
        &self,
        out: &mut O,
        event: &Event,
        _inode_count: u32,
    ) -> Result<(), Unwritten> {
        print_event(out, event)
    }

    fn print_end<O: Write>(
        &self,
        out: &mut O,
        writes: u64,
        committed: u64,
    ) -> Result<(), Unwritten> {
        print_counts(out, writes, committed)
    }
}

/// Prints the line of each turn, below it what is told of its steps, and the counts.
#[derive(Drop)]
pub struct StepTeller {
    detail: Detail,
    // Of the steps of the last turn.
    notes: Notes,
}

impl StepTeller {
    /// One that heard of no turn.
    ///
    /// # Errors
    ///
    /// `NoMemory` where the allocator refuses the room for the notes of a turn.
    pub fn new(alloc: Global, detail: Detail) -> Result<StepTeller, NoMemory>
        ensures { IfOk result (λ teller. (teller.detail ≡ detail) × (teller.notes ≡ [])) }
    {
        Ok(StepTeller {
            detail,
            notes: Notes::new(alloc)?,
        })
    }

    /// The notes of the steps of the last turn, the oldest first.
    pub fn notes(&self) -> &[StepNote]
        ensures { result.now ≡ self.now.notes }
    {
        self.notes.as_slice()
    }
}

impl Teller for StepTeller {
    ghost says = { λ teller. in_lines teller.detail };

    ghost hears = { λ word told old new. (new.detail ≡ old.detail) × (new.notes ≡ told.notes) };

    fn turn<D: Disk + Drop>(
        &mut self,
        player: &mut Player<'_, D>,
        word: Word,
        stop: u64,
        base: Base,
    ) -> Event {
        player.told_turn(word, stop, base, &mut self.notes)
    }

    fn print<O: Write>(
        &self,
        out: &mut O,
        event: &Event,
        inode_count: u32,
    ) -> Result<(), Unwritten> {
        print_event(out, event)?;
        print_notes(out, self.detail, inode_count, self.notes.as_slice())
    }

    fn print_end<O: Write>(
        &self,
        out: &mut O,
        writes: u64,
        committed: u64,
    ) -> Result<(), Unwritten> {
        LineTeller.print_end(out, writes, committed)
    }
}
