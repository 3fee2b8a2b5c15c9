// Where a mismatch was met, and what is not as it has to be, in plain words.
ghost use Rattle.std.specs.Prelude.{◌+◌, ◌++◌, ◌<◌, ◌^◌, OnOk, codes, decimal};
ghost use Rattle.std.specs.Io.KnownBytes.{Appends};
ghost use Rattle.crash_check.specs.Faults.{cause_text, choice_text, mark_text, marks_text, mismatch_text, stop_text};

use crate::mismatch::{Cause, Choice, Mismatch, Stop};
use itoa::Buffer;
use messages::{Unwritten, write_bytes};
use std::io::Write;

/// Writes where a mismatch was met: where the run was stopped, which held writes got through, each by
/// its place among them, from 1, and what is not as it has to be. The writer may hold it back.
pub fn print_mismatch<O: Write>(out: &mut O, mismatch: &Mismatch) -> Result<(), Unwritten>
    ensures ok { OnOk result (Appends (O.contents out.old) (O.contents out.new)
        (mismatch_text mismatch.now)) }
{
    print_stop(out, mismatch.stop)?;
    if let Some(choice) = mismatch.choice {
        print_choice(out, choice)?;
    }
    write_bytes(out, b": ")?;
    print_cause(out, mismatch.cause)
}

// Writes where a run was stopped.
fn print_stop<O: Write>(out: &mut O, stop: Stop) -> Result<(), Unwritten>
    ensures ok { OnOk result (Appends (O.contents out.old) (O.contents out.new)
        (stop_text stop)) }
{
    match stop {
        Stop::End => write_bytes(out, b"in the whole run"),
        Stop::Write(write) => print_numbered(out, b"stopped before write ", write),
        Stop::Sync(sync) => print_numbered(out, b"stopped at sync ", sync),
    }
}

// Writes which held writes got through.
fn print_choice<O: Write>(out: &mut O, choice: Choice) -> Result<(), Unwritten>
    ensures ok { OnOk result (Appends (O.contents out.old) (O.contents out.new)
        (choice_text choice)) }
{
    if choice.held == 0 {
        return write_bytes(out, b", no write held");
    }
    print_numbered(out, b", of ", choice.held as u64)?;
    write_bytes(out, b" held writes")?;
    if choice.kept == 0 {
        write_bytes(out, b" none")?;
    } else {
        print_marks(out, choice)?;
    }
    write_bytes(out, b" got through")
}

// Writes the place of each held write that got through.
fn print_marks<O: Write>(out: &mut O, choice: Choice) -> Result<(), Unwritten>
    ensures ok { OnOk result (Appends (O.contents out.old) (O.contents out.new)
        (marks_text 0 choice.held choice.kept)) }
{
    let mut bits = choice.kept;
    for place in 0..choice.held as u64 {
        print_mark(out, place, bits)?;
        bits /= 2;
    }
    Ok(())
}

// Writes the place of a held write behind so many others, where the lowest bit is 1.
fn print_mark<O: Write>(out: &mut O, before: u64, bits: u64) -> Result<(), Unwritten>
    requires { before + 1 < 2 ^ 64 }
    ensures ok { OnOk result (Appends (O.contents out.old) (O.contents out.new)
        (mark_text before bits)) }
{
    if bits % 2 == 1 {
        return print_numbered(out, b" ", before + 1);
    }
    Ok(())
}

// Writes what is not as it has to be.
fn print_cause<O: Write>(out: &mut O, cause: Cause) -> Result<(), Unwritten>
    ensures ok { OnOk result (Appends (O.contents out.old) (O.contents out.new)
        (cause_text cause)) }
{
    match cause {
        Cause::File(number) => {
            print_numbered(out, b"file ", number as u64)?;
            write_bytes(out, b" differs from the one that is due")
        }
        Cause::Unrecovered => write_bytes(out, b"the image can't be recovered"),
        Cause::Undue => write_bytes(
            out,
            b"no files are due: a plain run can't give these replies",
        ),
        Cause::Unopened => write_bytes(out, b"the new image can't be opened"),
        Cause::OtherRun => write_bytes(
            out,
            b"other writes or syncs were made before that than in the whole run",
        ),
    }
}

// Writes words and a number.
fn print_numbered<O: Write>(out: &mut O, words: &[u8], number: u64) -> Result<(), Unwritten>
    ensures ok { OnOk result (Appends (O.contents out.old) (O.contents out.new)
        (words.now ++ decimal number)) }
{
    let mut digits = Buffer::new();
    write_bytes(out, words)?;
    write_bytes(out, digits.format(number).as_bytes())
}
