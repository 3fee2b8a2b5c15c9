// Turns whose steps are noted.
ghost use Rattle.std.specs.Prelude.{◌≡◌, ◌++◌, ◌∷◌, [], ◌<◌, IsTrue, length};
ghost use Rattle.scripts.specs.Schedule.{is_word_of};
ghost use Rattle.player.specs.Stepping.{HasItsWatch, IsSeated, MakesRingedStep, MakesTurnOf};
ghost use Rattle.player.specs.Told.{NotesAll, NotesOne, TellsTurn, note_of};

use crate::noting::{Base, MOST_STEPS, Notes};
use crate::player::Player;
use blocks::{Disk, FaultyDisk};
use kernel::Step;
use messages::{Event, StepNote};
use scripts::Word;

impl<'a, D: Disk + Drop> Player<'a, D> {
    // Makes the turn of a word as `turn`, and notes its steps, and those alone.
    pub(crate) fn told_turn(
        &mut self,
        word: Word,
        stop: u64,
        base: Base,
        notes: &mut Notes,
    ) -> Event
        requires word { IsTrue (is_word_of (length self.old.kernel.world.processes) word) }
        requires seated { IsSeated self.old }
        ensures tells { TellsTurn ⟦<FaultyDisk<D> as Disk>⟧ base stop word
            (record { event = result; notes = notes.new }) self.old self.new }
        ensures processes { length self.new.kernel.world.processes
            ≡ length self.old.kernel.world.processes }
        ensures seated { IsSeated self.new }
    {
        notes.clear();
        match word {
            Word::Step(pid) => self.told_step(pid, stop, base, notes),
            Word::Steps(pid) => self.told_steps(pid, stop, base, notes),
            Word::Shutdown => self.turn(word, stop),
        }
    }

    // Makes the turn of a process that has one step, and notes it.
    #[tactic(auto, using(crate::proofs::Steps::one_turn))]
    fn told_step(&mut self, pid: u32, stop: u64, base: Base, notes: &mut Notes) -> Event
        requires pid { pid < length self.old.kernel.world.processes }
        requires seated { IsSeated self.old }
        requires none { notes.old ≡ [] }
        ensures makes { MakesTurnOf (NotesOne ⟦<FaultyDisk<D> as Disk>⟧ base pid notes.new)
            stop pid result self.old self.new }
        ensures processes { length self.new.kernel.world.processes
            ≡ length self.old.kernel.world.processes }
        ensures seated { IsSeated self.new }
    {
        self.hand_in(pid);
        let step = self.noted_step(pid, base, notes);
        self.event(pid, step, stop)
    }

    // Makes the turn of a process that has steps until one doesn't move, and notes them.
    #[tactic(auto, using(crate::proofs::Steps::one_turn))]
    fn told_steps(&mut self, pid: u32, stop: u64, base: Base, notes: &mut Notes) -> Event
        requires pid { pid < length self.old.kernel.world.processes }
        requires seated { IsSeated self.old }
        requires none { notes.old ≡ [] }
        ensures makes { MakesTurnOf (NotesAll ⟦<FaultyDisk<D> as Disk>⟧ base pid notes.new)
            stop pid result self.old self.new }
        ensures processes { length self.new.kernel.world.processes
            ≡ length self.old.kernel.world.processes }
        ensures seated { IsSeated self.new }
    {
        self.hand_in(pid);
        let step = self.noted_steps(pid, base, notes);
        self.event(pid, step, stop)
    }

    // Makes steps of a process until one doesn't move, and notes each. What the last of them answers.
    fn noted_steps(&mut self, pid: u32, base: Base, notes: &mut Notes) -> Step
        requires pid { pid < length self.old.kernel.world.processes }
        requires seated { IsSeated self.old }
        requires none { notes.old ≡ [] }
        ensures notes { NotesAll ⟦<FaultyDisk<D> as Disk>⟧ base pid notes.new result
            self.old.kernel self.new.kernel }
        ensures processes { length self.new.kernel.world.processes
            ≡ length self.old.kernel.world.processes }
        ensures feeders { self.new.feeders ≡ self.old.feeders }
        ensures watch { HasItsWatch self.old self.new }
        ensures seated { IsSeated self.new }
    {
        for _step in 0..MOST_STEPS {
            let step = self.noted_step(pid, base, notes);
            if step != Step::Moved {
                return step;
            }
        }
        // No operation has so many steps.
        unreachable!()
    }

    // Makes a step of a process, and notes it: what it was to do is asked before it.
    fn noted_step(&mut self, pid: u32, base: Base, notes: &mut Notes) -> Step
        requires pid { pid < length self.old.kernel.world.processes }
        requires seated { IsSeated self.old }
        requires room { length notes.old < 40000 }
        ensures makes { MakesRingedStep ⟦<FaultyDisk<D> as Disk>⟧
            pid result self.old.kernel self.new.kernel }
        ensures note { notes.new ≡ notes.old ++ note_of ⟦<FaultyDisk<D> as Disk>⟧ base pid result
            self.old.kernel self.new.kernel ∷ [] }
        ensures processes { length self.new.kernel.world.processes
            ≡ length self.old.kernel.world.processes }
        ensures feeders { self.new.feeders ≡ self.old.feeders }
        ensures watch { HasItsWatch self.old self.new }
        ensures seated { IsSeated self.new }
    {
        let deed = self.kernel.deed(pid);
        let holder = self.kernel.holder(pid);
        let step = self.step(pid);
        let disk = self.kernel.disk();
        notes.add(StepNote {
            process: pid,
            deed,
            holder,
            step,
            writes: disk.writes().saturating_sub(base.writes),
            syncs: disk.syncs().saturating_sub(base.syncs),
            opened: self.kernel.opened(),
            committed: self.kernel.committed(),
        });
        step
    }
}
