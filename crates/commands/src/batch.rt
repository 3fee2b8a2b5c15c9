// Command lines from a reader.
ghost use Rattle.std.specs.Prelude.{◌≡◌, ◌≢◌, ◌⊎◌, ◌≤◌, ◌<◌, ℕ, List, Option, [], length, map, IfSome};
ghost use Rattle.cmd.specs.Batches.{AreDone, StopsAmong};
ghost use Rattle.cmd.specs.Lines.{lines_in, script_in};
ghost use Rattle.cmd.specs.declared.batch.TheConstants.{LIMIT};

use cmd::{InputFault, read_text, script_of};
use std::alloc::Global;
use std::convert::AsStr;
use std::io::{Read, Write};

/// A program that does the commands that words ask for.
pub trait Program {
    /// The command of these words was done, and its answer printed, from the first of these bytes to the
    /// second.
    ghost done: { Self → List (List ℕ) → Option (List ℕ) → Option (List ℕ) → Type 0 };

    /// It was not, and what was printed; the fact says that nothing was.
    ghost undone: { Self → List (List ℕ) → Option (List ℕ) → Option (List ℕ) → Type 0 → Type 0 };

    /// Does the command of these words: prints what it answers to `out`, and why it wasn't done to `err`.
    /// The exit status.
    fn command<S: AsStr, O: Write, E: Write>(&self, words: &[S], out: &mut O, err: &mut E) -> u8
        ensures status { result ≤ 2 }
        ensures done { result ≡ 0 → done self.now (map S.text words.now)
            (O.contents out.old) (O.contents out.new) }
        ensures undone { result ≢ 0 → undone self.now (map S.text words.now)
            (O.contents out.old) (O.contents out.new) (out.new ≡ out.old) }
        ensures silent { result ≡ 0 → err.new ≡ err.old };

    /// Tells why there are no command lines. The exit status.
    fn tell_unread<E: Write>(&self, fault: InputFault, err: &mut E) -> u8
        ensures { result ≡ 1 };
}

/// Has a program do the commands of a text: each line is one, its words have one space between them, and
/// empty lines are none. Ends at the first whose exit status isn't 0, and answers that, else 0. Prints as
/// the program does, and so nothing to `err` where the status is 0; then each line's command was done.
/// Status 1, and no command is done, where the text can't be had.
pub fn do_lines<P: Program, I: Read + Drop, O: Write, E: Write>(
    alloc: Global,
    program: &P,
    input: I,
    out: &mut O,
    err: &mut E,
) -> u8
    ensures status { result ≤ 2 }
    ensures large { IfSome (I.remaining input)
        (λ bytes. LIMIT < length bytes → (result ≡ 1) × (out.new ≡ out.old)) }
    ensures done { IfSome (I.remaining input) (λ bytes. result ≡ 0
        → AreDone (P.done program.now) (script_in (lines_in bytes))
        (O.contents out.old) (O.contents out.new)) }
    ensures stopped { IfSome (I.remaining input) (λ bytes. result ≢ 0
        → StopsAmong (P.done program.now) (P.undone program.now) O.contents
        (script_in (lines_in bytes)) out.old out.new ⊎ (out.new ≡ out.old)) }
    ensures silent { result ≡ 0 → err.new ≡ err.old }
{
    match read_text(alloc, input) {
        Ok(text) => perform_text(alloc, program, text.as_str(), out, err),
        Err(fault) => program.tell_unread(fault, err),
    }
}

fn perform_text<P: Program, O: Write, E: Write>(
    alloc: Global,
    program: &P,
    text: &str,
    out: &mut O,
    err: &mut E,
) -> u8
    ensures status { result ≤ 2 }
    ensures done { result ≡ 0 → AreDone (P.done program.now) (script_in (lines_in text.now))
        (O.contents out.old) (O.contents out.new) }
    ensures stopped { result ≢ 0 → StopsAmong (P.done program.now) (P.undone program.now) O.contents
        (script_in (lines_in text.now)) out.old out.new ⊎ (out.new ≡ out.old) }
    ensures silent { result ≡ 0 → err.new ≡ err.old }
{
    match script_of(alloc, text) {
        Ok(lines) => perform_lines(program, lines.as_slice(), out, err),
        Err(_) => program.tell_unread(InputFault::NoMemory, err),
    }
}

fn perform_lines<P: Program, O: Write, E: Write>(
    program: &P,
    lines: &[Vec<&str>],
    out: &mut O,
    err: &mut E,
) -> u8
    ensures status { result ≤ 2 }
    ensures none { lines.now ≡ [] → (result ≡ 0) × (out.new ≡ out.old) }
    ensures done { result ≡ 0 → AreDone (P.done program.now)
        (map (λ words. map (λ word. word.now) words.items) lines.now)
        (O.contents out.old) (O.contents out.new) }
    ensures stopped { result ≢ 0 → StopsAmong (P.done program.now) (P.undone program.now) O.contents
        (map (λ words. map (λ word. word.now) words.items) lines.now) out.old out.new }
    ensures silent { result ≡ 0 → err.new ≡ err.old }
{
    for words in lines {
        let status = program.command(words.as_slice(), out, err);
        if status != 0 {
            return status;
        }
    }
    0
}
