// The end of a process's rings.
ghost use Rattle.std.specs.Prelude.{◌≡◌, ℕ, ◌<◌, Some, true, length};
ghost use Rattle.ports.specs.History.{History, SameNames, RoomStays, AllFit};
ghost use Rattle.rings.specs.Rings.{ends_side, names_at, ends_history};
ghost use Rattle.rings.specs.Callers.{finished_names, all_submitted, all_polled, intake_names, intake_count, intake_side, IntakeFits, Settles};

use crate::caller::Finished;
use crate::ends::Ends;
use crate::intake::RingIntake;

/// How many operations were handed in, and how many of them are left.
pub struct Settled {
    pub submitted: u64,
    pub left: u64,
}

impl RingIntake {
    /// Compares the ends of a process's rings: what was handed in is what was taken and then what is
    /// left, and what was polled is a beginning of what was given. The caller's part is of this
    /// process's rings.
    pub fn settle(&mut self, pid: u32, finished: Finished) -> Settled
        requires pid { pid < intake_count self.old }
        requires rings { intake_names self.old pid ≡ Some (finished_names finished) }
        ensures submitted { result.submitted ≡ length (all_submitted finished) }
        ensures settles { (h : History) → IntakeFits self.old pid h
            → Settles (all_submitted finished) (all_polled finished) result.left h }
        ensures names { SameNames (intake_names self.old) (intake_names self.new) }
        ensures processes { intake_count self.new ≡ intake_count self.old }
        ensures fits { AllFit (IntakeFits self.old) (IntakeFits self.new) }
        ensures room { RoomStays (intake_side self.old) (intake_side self.new) }
    {
        self.ends[pid as usize].settle(finished)
    }
}

impl Ends {
    // The same at one process's ends.
    fn settle(&mut self, finished: Finished) -> Settled
        requires rings { names_at (Some self.old) ≡ Some (finished_names finished) }
        ensures submitted { result.submitted ≡ length (all_submitted finished) }
        ensures settles { Settles (all_submitted finished) (all_polled finished) result.left
            (ends_history self.old) }
        ensures names { names_at (Some self.new) ≡ names_at (Some self.old) }
        ensures history { ends_history self.new ≡ ends_history self.old }
        ensures room { (ends_side self.old).has_room ≡ true
            → (ends_side self.new).has_room ≡ true }
    {
        let Finished {
            mut operations,
            mut answers,
            submitted,
        } = finished;
        let left = self.operations.slots_after(&mut operations) as u64;
        answers.slots_beside(&mut self.answers);
        Settled { submitted, left }
    }
}
