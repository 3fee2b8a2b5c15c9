// Who prints of turns what is told of them, and gathers the objects of their steps.
ghost use Rattle.std.specs.Prelude.{◌≡◌, IfOk, false};
ghost use Rattle.player.specs.Told.{in_lines};
ghost use Rattle.commands_runs.specs.Explored.{HearsObjects, IsUnheard};
ghost use Rattle.commands_runs.specs.Filed.{wants_then};

use crate::gathered::Gathered;
use crate::mute::{either, wants_in};
use blocks::{Disk, NoMemory};
use json_lines::Written;
use messages::{Detail, Event, Unwritten};
use player::{Base, Player, StepTeller, Teller};
use scripts::Word;
use std::alloc::Global;
use std::io::Write;

/// Prints as `StepTeller`, and gathers the objects of the steps of each turn, and of the turn. It knows
/// whether memory was refused to an operation.
#[derive(Drop)]
pub struct ExplorerTeller {
    lines: StepTeller,
    run: Gathered,
    pub refused: bool,
}

impl ExplorerTeller {
    // One that heard of no turn of a run over an image of so many inode numbers that makes these writes.
    // `NoMemory` where the allocator refuses the room for the notes of a turn.
    pub fn new(
        alloc: Global,
        detail: Detail,
        inode_count: u32,
        written: Vec<Written>,
    ) -> Result<ExplorerTeller, NoMemory>
        ensures detail { IfOk result (λ teller. teller.lines.detail ≡ detail) }
        ensures none { IfOk result (λ teller. IsUnheard inode_count written.items teller.run) }
        ensures served { IfOk result (λ teller. teller.refused ≡ false) }
    {
        Ok(ExplorerTeller {
            lines: StepTeller::new(alloc, detail)?,
            run: Gathered::new(alloc, inode_count, written),
            refused: false,
        })
    }

    // What it heard of.
    pub fn run(&self) -> &Gathered
        ensures { result.now ≡ self.now.run }
    {
        &self.run
    }
}

impl Teller for ExplorerTeller {
    ghost says = { λ teller. in_lines teller.lines.detail };

    ghost hears = { λ word told old new. (new.lines.detail ≡ old.lines.detail)
        × (new.lines.notes ≡ told.notes) × (new.refused ≡ wants_then old.refused told)
        × HearsObjects told old.run new.run };

    fn turn<D: Disk + Drop>(
        &mut self,
        player: &mut Player<'_, D>,
        word: Word,
        stop: u64,
        base: Base,
    ) -> Event {
        let event = self.lines.turn(player, word, stop, base);
        self.run.hear(&event, self.lines.notes());
        self.refused = either(self.refused, wants_in(&event));
        event
    }

    fn print<O: Write>(
        &self,
        out: &mut O,
        event: &Event,
        inode_count: u32,
    ) -> Result<(), Unwritten> {
        self.lines.print(out, event, inode_count)
    }

    fn print_end<O: Write>(
        &self,
        out: &mut O,
        writes: u64,
        committed: u64,
    ) -> Result<(), Unwritten> {
        self.lines.print_end(out, writes, committed)
    }
}
