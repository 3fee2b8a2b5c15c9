// Command lines from a reader.
ghost use Rattle.std.specs.Prelude.{◌≡◌, ◌≢◌, ◌⊎◌, ◌≤◌, ◌<◌, length, IfSome};
ghost use Rattle.cmd.specs.Lines.{lines_in, script_in};
ghost use Rattle.cmd.specs.declared.batch.TheConstants.{LIMIT};
ghost use Rattle.commands.specs.Words.{IsDoneOf, IsNotDone, IsRefusedOf};
ghost use Rattle.names_words.specs.CommandLine.{xvnames_words};
ghost use Rattle.xvnames.specs.Requests.{Answers, DoesAll, OnRefused, StopsAt};

use crate::command::{NAME, command};
use crate::telling::Screen;
use cmd::{InputFault, Locks};
use commands::{Program, do_lines};
use second_lines::{Given, tell_fault};
use std::convert::AsStr;
use std::io::{Read, Write};

/// Does the commands of a text: each line is one, its words have one space between them, and empty
/// lines are none. Ends at the first whose exit status isn't 0, and answers that, else 0. Prints as
/// `command` does, and so nothing to `err` where the status is 0; then each line's command was
/// done. Status 1, and no command is done, where the text can't be had.
pub(crate) fn commands<R: Locks + AllocGlobal + Screen, I: Read + Drop, O: Write, E: Write>(
    rt: &R,
    input: I,
    out: &mut O,
    err: &mut E,
) -> u8
    ensures status { result ≤ 2 }
    ensures large { IfSome (I.remaining input)
        (λ bytes. LIMIT < length bytes → (result ≡ 1) × (out.new ≡ out.old)) }
    ensures done { IfSome (I.remaining input) (λ bytes. result ≡ 0
        → DoesAll R.File.remaining R.File.contents (script_in (lines_in bytes))
        (O.contents out.old) (O.contents out.new)) }
    ensures stopped { IfSome (I.remaining input) (λ bytes. result ≢ 0
        → StopsAt R.File.remaining R.File.contents O.contents (script_in (lines_in bytes))
        out.old out.new ⊎ (out.new ≡ out.old)) }
    ensures silent { result ≡ 0 → err.new ≡ err.old }
{
    do_lines(rt.alloc(), &Xvnames(rt), input, out, err)
}

// The program, as one that does command lines.
#[derive(Drop)]
struct Xvnames<'a, R>(&'a R);

impl<'a, R: Locks + AllocGlobal + Screen> Program for Xvnames<'a, R> {
    ghost done = { λ program.
        IsDoneOf xvnames_words (Answers R.File.remaining R.File.contents) };

    ghost undone = { λ program. IsNotDone xvnames_words
        (IsRefusedOf xvnames_words (OnRefused R.File.remaining)) };

    fn command<S: AsStr, O: Write, E: Write>(&self, words: &[S], out: &mut O, err: &mut E) -> u8 {
        command(self.0, words, out, err)
    }

    fn tell_unread<E: Write>(&self, fault: InputFault, err: &mut E) -> u8 {
        tell_unread(self.0, fault, err)
    }
}

// Tells why there are no command lines. The exit status.
fn tell_unread<R: Locks + AllocGlobal + Screen, E: Write>(
    rt: &R,
    fault: InputFault,
    err: &mut E,
) -> u8
    ensures { result ≡ 1 }
{
    tell_fault(NAME, rt, rt.shows_errors(), &Given::nothing(), fault, err)
}
