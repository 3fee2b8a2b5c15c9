// Who tells of turns in objects of JSON.
ghost use Rattle.std.specs.Prelude.{◌≡◌, [], IfOk, IsOk, OnOk};
ghost use Rattle.player.specs.Told.{in_objects, writes_in};

use crate::noting::{Base, Notes};
use crate::player::Player;
use crate::teller::Teller;
use blocks::{Disk, NoMemory};
use json_lines::{Written, print_counts_object, print_event_object, print_step_objects};
use messages::{Event, Unwritten};
use scripts::Word;
use std::alloc::Global;
use std::io::Write;

/// Prints the objects of each turn's steps, then that of the turn, and at the end that of the counts.
#[derive(Drop)]
pub struct JsonTeller {
    // The run's writes, in their order.
    written: Vec<Written>,
    // Of the steps of the last turn.
    notes: Notes,
}

impl JsonTeller {
    /// One that heard of no turn of a run that makes these writes.
    ///
    /// # Errors
    ///
    /// `NoMemory` where memory for the writes was refused, or where the allocator refuses the room for
    /// the notes of a turn.
    pub fn new(
        alloc: Global,
        written: Result<Vec<Written>, NoMemory>,
    ) -> Result<JsonTeller, NoMemory>
        ensures written { IfOk result (λ teller. teller.written.items
            ≡ writes_in written (λ v. v.items)) }
        ensures none { IfOk result (λ teller. teller.notes ≡ []) }
        ensures had { OnOk result (IsOk written) }
    {
        Ok(JsonTeller {
            written: written?,
            notes: Notes::new(alloc)?,
        })
    }
}

impl Teller for JsonTeller {
    ghost says = { λ teller. in_objects teller.written.items };

    ghost hears = { λ word told old new. new.notes ≡ told.notes };

    fn turn<D: Disk + Drop>(
        &mut self,
        player: &mut Player<'_, D>,
        word: Word,
        stop: u64,
        base: Base,
    ) -> Event {
        player.told_turn(word, stop, base, &mut self.notes)
    }

    fn print<O: Write>(
        &self,
        out: &mut O,
        event: &Event,
        inode_count: u32,
    ) -> Result<(), Unwritten> {
        print_step_objects(
            out,
            inode_count,
            self.written.as_slice(),
            self.notes.as_slice(),
        )?;
        print_event_object(out, event)
    }

    fn print_end<O: Write>(
        &self,
        out: &mut O,
        writes: u64,
        committed: u64,
    ) -> Result<(), Unwritten> {
        print_counts_object(out, writes, committed)
    }
}
