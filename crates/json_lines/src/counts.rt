// Objects that are the last text of a command.
ghost use Rattle.std.specs.Prelude.{OnOk};
ghost use Rattle.std.specs.Io.KnownBytes.{Appends};
ghost use Rattle.json_lines.specs.Counts.{counts_object, found_fields, number_object, report_object};

use crate::fields::{print_first_number, print_number};
use itoa::Buffer;
use messages::{Unwritten, print, print_last};
use std::io::Write;

/// Prints how many blocks a run wrote, and how many groups are committed, as the last text of a
/// command.
#[tactic(auto, unfolding(crate::specs::Counts::counts_object))]
pub fn print_counts_object<O: Write>(
    out: &mut O,
    writes: u64,
    committed: u64,
) -> Result<(), Unwritten>
    ensures ok { OnOk result (Appends (O.contents out.old) (O.contents out.new)
        (counts_object writes committed)) }
{
    let mut buffer = Buffer::new();
    print(out, "{\"writes\":")?;
    print(out, buffer.format(writes))?;
    print_number(out, "committed", committed)?;
    print_last(out, "}\n")
}

/// Prints an object with one number, as the last text of a command.
#[tactic(auto, unfolding(crate::specs::Counts::number_object))]
pub fn print_number_object<O: Write>(out: &mut O, name: &str, number: u64) -> Result<(), Unwritten>
    ensures ok { OnOk result (Appends (O.contents out.old) (O.contents out.new)
        (number_object name.now number)) }
{
    print_first_number(out, name, number)?;
    print_last(out, "}\n")
}

/// Prints what a check of a sound image found, as the last text of a command.
#[tactic(auto, unfolding(crate::specs::Counts::report_object))]
pub fn print_report_object<O: Write>(out: &mut O, logged: u32, files: u32) -> Result<(), Unwritten>
    ensures ok { OnOk result (Appends (O.contents out.old) (O.contents out.new)
        (report_object logged files)) }
{
    print(out, "{\"sound\":true")?;
    print_found(out, logged, files)?;
    print_last(out, "}\n")
}

#[tactic(auto, unfolding(crate::specs::Counts::found_fields))]
fn print_found<O: Write>(out: &mut O, logged: u32, files: u32) -> Result<(), Unwritten>
    ensures ok { OnOk result (Appends (O.contents out.old) (O.contents out.new)
        (found_fields logged files)) }
{
    print_number(out, "log", logged as u64)?;
    print_number(out, "files", files as u64)
}
