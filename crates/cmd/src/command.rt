// A command, and how it ends.
ghost use Rattle.std.specs.Prelude.{◌≡◌, ◌≤◌, ℕ, List, Option, Err, IsOk, OnOk, IfErr};

use messages::{Reason, print_refusal};
use std::io::Write;

/// A command, which is done with the runtime `R`.
pub trait Command<R> {
    /// Why it isn't done.
    type Refusal: Reason + Drop;

    /// It was done, and its answer printed, from the first of these bytes to the second.
    ghost done: { Self → Option (List ℕ) → Option (List ℕ) → Type 0 };

    /// It was refused, for this reason, and what was printed; the fact says that nothing was.
    ghost refused: { Self → Option (List ℕ) → Option (List ℕ) → Type 0 → Self.Refusal → Type 0 };

    /// Does it, and prints its answer.
    fn run<O: Write>(self, rt: &R, out: &mut O) -> Result<(), Self::Refusal>
        ensures done { OnOk result (done self (O.contents out.old) (O.contents out.new)) }
        ensures refused { IfErr result
            (refused self (O.contents out.old) (O.contents out.new) (out.new ≡ out.old)) };
}

/// Does a command: prints its answer to `out`, or why it was refused to `err`, as far as that can be
/// written, by a line of the program of that name. The exit status: 0 where it was done, 1 where it
/// was refused.
pub fn perform<R, C: Command<R>, O: Write, E: Write>(
    program: &str,
    rt: &R,
    command: C,
    out: &mut O,
    err: &mut E,
) -> u8
    ensures status { result ≤ 1 }
    ensures done { result ≡ 0 → C.done command (O.contents out.old) (O.contents out.new) }
    ensures silent { result ≡ 0 → err.new ≡ err.old }
    ensures refused { result ≡ 1 → (r : C.Refusal) × C.refused command
        (O.contents out.old) (O.contents out.new) (out.new ≡ out.old) r }
{
    end(program, command.run(rt, out), err)
}

/// Ends a command: says to `err` why it was refused, if it was, as far as that can be written, by a
/// line of the program of that name. The exit status: 0 where it was done, 1 where it was refused.
pub fn end<R: Reason + Drop, E: Write>(program: &str, ended: Result<(), R>, err: &mut E) -> u8
    ensures status { result ≤ 1 }
    ensures done { result ≡ 0 → IsOk ended }
    ensures silent { result ≡ 0 → err.new ≡ err.old }
    ensures refused { result ≡ 1 → (r : R) × (ended ≡ Err r) }
{
    match ended {
        Ok(()) => 0,
        Err(refusal) => {
            let _unwritten = print_refusal(program, &refusal, err);
            1
        }
    }
}
