// The stops of a run that were tried, an object each.
ghost use Rattle.std.specs.Prelude.{OnOk};
ghost use Rattle.std.specs.Io.KnownBytes.{Appends};
ghost use Rattle.std.specs.List.{flat_map};
ghost use Rattle.explorer_page.specs.Tried.{at_fields, failed_object, lost_text, number_fields, passed_object, tried_text};

use json_lines::{print_bytes, print_first_number, print_number, print_word};
use messages::{Unwritten, print};
use pictures::{At, Column, Lost};
use std::io::Write;

// Writes the objects of the stops that passed, and behind them that of the one that didn't.
#[tactic(auto, unfolding(crate::specs::Tried::tried_text))]
pub fn print_tried<O: Write>(
    out: &mut O,
    columns: &[Column],
    lost: Option<Lost<'_>>,
) -> Result<(), Unwritten>
    ensures ok { OnOk result (Appends (O.contents out.old) (O.contents out.new)
        (tried_text columns.now lost.entry)) }
{
    print_columns(out, columns)?;
    print_lost(out, lost)
}

fn print_columns<O: Write>(out: &mut O, columns: &[Column]) -> Result<(), Unwritten>
    ensures ok { OnOk result (Appends (O.contents out.old) (O.contents out.new)
        (flat_map passed_object columns.now)) }
{
    for column in columns {
        print_passed(out, column)?;
    }
    Ok(())
}

#[tactic(auto, unfolding(crate::specs::Tried::passed_object))]
fn print_passed<O: Write>(out: &mut O, column: &Column) -> Result<(), Unwritten>
    ensures ok { OnOk result (Appends (O.contents out.old) (O.contents out.new)
        (passed_object column.now)) }
{
    print_first_number(out, "passed", column.images)?;
    print_at(out, column.at)?;
    print(out, "}\n")
}

fn print_lost<O: Write>(out: &mut O, lost: Option<Lost<'_>>) -> Result<(), Unwritten>
    ensures ok { OnOk result (Appends (O.contents out.old) (O.contents out.new)
        (lost_text lost.entry)) }
{
    match lost {
        None => Ok(()),
        Some(lost) => print_failed(out, lost),
    }
}

#[tactic(auto, unfolding(crate::specs::Tried::failed_object))]
fn print_failed<O: Write>(out: &mut O, lost: Lost<'_>) -> Result<(), Unwritten>
    ensures ok { OnOk result (Appends (O.contents out.old) (O.contents out.new)
        (failed_object lost.entry)) }
{
    print_first_number(out, "failed", 1)?;
    print_at(out, lost.at)?;
    print_bytes(out, lost.words)?;
    print(out, "}\n")
}

// Writes where a run is stopped.
fn print_at<O: Write>(out: &mut O, at: At) -> Result<(), Unwritten>
    ensures ok { OnOk result (Appends (O.contents out.old) (O.contents out.new) (at_fields at)) }
{
    match at {
        At::End => print_word(out, "stop", "end"),
        At::Write(number) => print_numbered(out, "write", number),
        At::Sync(number) => print_numbered(out, "sync", number),
    }
}

#[tactic(auto, unfolding(crate::specs::Tried::number_fields))]
fn print_numbered<O: Write>(out: &mut O, word: &str, number: u64) -> Result<(), Unwritten>
    ensures ok { OnOk result (Appends (O.contents out.old) (O.contents out.new)
        (number_fields word.now number)) }
{
    print_word(out, "stop", word)?;
    print_number(out, "number", number)
}
