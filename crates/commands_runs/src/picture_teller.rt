// Who prints of turns what is told of them, and records their steps.
ghost use Rattle.std.specs.Prelude.{◌≡◌, IfOk};
ghost use Rattle.player.specs.Told.{in_lines};
ghost use Rattle.pictures.specs.Recorders.{heard};
ghost use Rattle.commands_runs.specs.Recorded.{none_recorded};

use blocks::{Disk, NoMemory};
use messages::{Detail, Event, Unwritten};
use pictures::Recorder;
use player::{Base, Player, StepTeller, Teller};
use scripts::Word;
use std::alloc::Global;
use std::io::Write;

/// Prints as `StepTeller`, and records the steps of each turn.
#[derive(Drop)]
pub struct PictureTeller {
    lines: StepTeller,
    recorder: Recorder,
}

impl PictureTeller {
    /// One that heard of no turn.
    ///
    /// # Errors
    ///
    /// `NoMemory` where the allocator refuses the room for the steps.
    pub fn new(alloc: Global, detail: Detail) -> Result<PictureTeller, NoMemory>
        ensures detail { IfOk result (λ teller. teller.lines.detail ≡ detail) }
        ensures none { IfOk result (λ teller. teller.recorder ≡ none_recorded) }
    {
        Ok(PictureTeller {
            lines: StepTeller::new(alloc, detail)?,
            recorder: Recorder::new(alloc)?,
        })
    }

    /// The steps that it heard of.
    pub fn recorder(&self) -> &Recorder
        ensures { result.now ≡ self.now.recorder }
    {
        &self.recorder
    }
}

impl Teller for PictureTeller {
    ghost says = { λ teller. in_lines teller.lines.detail };

    ghost hears = { λ word told old new. (new.lines.detail ≡ old.lines.detail)
        × (new.lines.notes ≡ told.notes)
        × (new.recorder ≡ heard told.event told.notes old.recorder) };

    fn turn<D: Disk + Drop>(
        &mut self,
        player: &mut Player<'_, D>,
        word: Word,
        stop: u64,
        base: Base,
    ) -> Event {
        let event = self.lines.turn(player, word, stop, base);
        self.recorder.hear(&event, self.lines.notes());
        event
    }

    fn print<O: Write>(
        &self,
        out: &mut O,
        event: &Event,
        inode_count: u32,
    ) -> Result<(), Unwritten> {
        self.lines.print(out, event, inode_count)
    }

    fn print_end<O: Write>(
        &self,
        out: &mut O,
        writes: u64,
        committed: u64,
    ) -> Result<(), Unwritten> {
        self.lines.print_end(out, writes, committed)
    }
}
