// Where the kernel's operations come from, and where its answers go.
ghost use Rattle.std.specs.Prelude.{◌≡◌, ℕ, ◌<◌, ◌++◌, true, option_to_list};
ghost use mathlib.Core.List.{IsPrefix};
ghost use Rattle.std.specs.Option.{option_copied};
ghost use Rattle.std.specs.Borrow.{sem};
ghost use Rattle.std.specs.Io.BufRead.{Rests};
ghost use Rattle.ports.specs.History.{Side, History, SameNames, OthersStay, AllFit, FitWith, takes, gives, first_in};

use model::types::{Answer, Op};

/// Hands in operations of processes, numbered from 0, and takes their answers.
///
/// It needn't store what left it: `fits` ties it to the history that its user keeps.
pub trait Intake: Drop {
    ghost use Rattle.std.specs.Prelude.{ℕ};
    ghost use Rattle.ports.specs.History.{Side, History};

    /// What tells its ports from others'. No value of it is made.
    type Name;

    /// Which ports a process has. They stay the same.
    ghost name: { Self → ℕ → Self.Name };

    /// How many processes it serves.
    ghost process_count: { Self → ℕ };

    /// The operations of a process that are known to wait, and whether a place for its answer is
    /// kept.
    ghost side: { Self → ℕ → Side };

    /// These operations were taken of this process, and these answers given to it.
    ghost fits: { Self → ℕ → History → Type 0 };

    /// Looks for an operation that waits, and leaves it.
    fn next(&mut self, pid: u32) -> Option<&Op>
        requires { pid < process_count self.old }
        ensures* after { sem 𝓛 (Rests Self.row self.entry (λ new.
            (process_count new ≡ process_count self.old) × SameNames (name self.old) (name new)
            × IsPrefix (side self.old pid).ahead (side new pid).ahead
            × (first_in (side new pid).ahead ≡ option_copied result)
            × ((side new pid).has_room ≡ (side self.old pid).has_room)
            × OthersStay (side self.old) (side new) pid × AllFit (fits self.old) (fits new))) };

    /// Whether a place for one answer is kept from now on, until `answer`.
    fn room(&mut self, pid: u32) -> bool
        requires { pid < process_count self.old }
        ensures processes { process_count self.new ≡ process_count self.old }
        ensures names { SameNames (name self.old) (name self.new) }
        ensures room { (side self.new pid).has_room ≡ result }
        ensures stays { (side self.old pid).has_room ≡ true → result ≡ true }
        ensures ahead { (side self.new pid).ahead ≡ (side self.old pid).ahead }
        ensures others { OthersStay (side self.old) (side self.new) pid }
        ensures fits { AllFit (fits self.old) (fits self.new) };

    /// Takes the first operation that is known to wait, which the last look showed.
    fn take(&mut self, pid: u32) -> Option<Op>
        requires { pid < process_count self.old }
        ensures processes { process_count self.new ≡ process_count self.old }
        ensures names { SameNames (name self.old) (name self.new) }
        ensures shown { result ≡ first_in (side self.old pid).ahead }
        ensures ahead { (side self.old pid).ahead
            ≡ option_to_list result ++ (side self.new pid).ahead }
        ensures room { (side self.new pid).has_room ≡ (side self.old pid).has_room }
        ensures others { OthersStay (side self.old) (side self.new) pid }
        ensures fits { FitWith (fits self.old) (fits self.new) pid (takes result) };

    /// Gives an answer, in the place that `room` kept.
    fn answer(&mut self, pid: u32, answer: Answer)
        requires pid { pid < process_count self.old }
        requires room { (side self.old pid).has_room ≡ true }
        ensures processes { process_count self.new ≡ process_count self.old }
        ensures names { SameNames (name self.old) (name self.new) }
        ensures ahead { (side self.new pid).ahead ≡ (side self.old pid).ahead }
        ensures others { OthersStay (side self.old) (side self.new) pid }
        ensures fits { FitWith (fits self.old) (fits self.new) pid (gives answer) };
}
