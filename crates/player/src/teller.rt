// Who hears of turns, and prints what it has to say of each, and of the end.
ghost use Rattle.std.specs.Prelude.{◌≡◌, OnOk, IsTrue, length};
ghost use Rattle.std.specs.Io.KnownBytes.{Appends};
ghost use Rattle.scripts.specs.Schedule.{is_word_of};
ghost use Rattle.player.specs.Stepping.{IsSeated};
ghost use Rattle.player.specs.Told.{HearsTurn, Told};

use crate::noting::Base;
use crate::player::Player;
use blocks::{Disk, FaultyDisk};
use messages::{Event, Unwritten};
use scripts::Word;
use std::io::Write;

/// Hears of each turn of a replay, and prints what it has to say of it, and of the end.
pub trait Teller {
    ghost use Rattle.scripts.specs.declared.schedule.Word.{Word};
    ghost use Rattle.player.specs.Told.{Saying, Told};

    /// What it prints.
    ghost says: { Self → Saying };

    /// What it was, and is once it heard of the turn of a word.
    ghost hears: { Word → Told → Self → Self → Type 0 };

    /// Makes the turn of a word as `Player::turn`, and hears of it: of its steps as far as it wants
    /// them, each numbered over what the disk had counted first. The process that the word names is
    /// one of the kernel's.
    fn turn<D: Disk + Drop>(
        &mut self,
        player: &mut Player<'_, D>,
        word: Word,
        stop: u64,
        base: Base,
    ) -> Event
        requires word { IsTrue (is_word_of (length player.old.kernel.world.processes) word) }
        requires seated { IsSeated player.old }
        ensures heard { HearsTurn ⟦<FaultyDisk<D> as Disk>⟧ base stop hears word result
            player.old player.new self.old self.new }
        ensures says { says self.new ≡ says self.old }
        ensures processes { length player.new.kernel.world.processes
            ≡ length player.old.kernel.world.processes }
        ensures seated { IsSeated player.new };

    /// Prints what it has to say of the turn that it heard of last, which came to this event.
    fn print<O: Write>(&self, out: &mut O, event: &Event, inode_count: u32) -> Result<(), Unwritten>
        ensures { OnOk result ((word : _) (told : Told) (was : Self) → hears word told was self.now
            → told.event ≡ event.now → Appends (O.contents out.old) (O.contents out.new)
            ((says self.now).of_turn inode_count told)) };

    /// Prints what it has to say of the end of a run, which wrote so many blocks, and of which so many
    /// groups are committed, as the last text of a command.
    fn print_end<O: Write>(&self, out: &mut O, writes: u64, committed: u64) -> Result<(), Unwritten>
        ensures { OnOk result (Appends (O.contents out.old) (O.contents out.new)
            ((says self.now).of_end writes committed)) };
}
