// The files that recovery gives where a run stops.
ghost use Rattle.std.specs.Prelude.{OnOk};
ghost use Rattle.std.specs.Io.KnownBytes.{Appends};
ghost use Rattle.std.specs.List.{flat_map};
ghost use Rattle.explorer_page.specs.Page.{file_object, stop_object, stop_text};

use json_lines::{print_first_number, print_number};
use messages::{Unwritten, print};
use pictures::{FileLine, FilesThen};
use std::io::Write;

// Writes the objects of stops, and of their files.
pub fn print_stops<O: Write>(out: &mut O, files: &[FilesThen]) -> Result<(), Unwritten>
    ensures ok { OnOk result (Appends (O.contents out.old) (O.contents out.new)
        (flat_map stop_text files.now)) }
{
    for stop in files {
        print_stop(out, stop)?;
    }
    Ok(())
}

#[tactic(auto, unfolding(crate::specs::Page::stop_text))]
fn print_stop<O: Write>(out: &mut O, stop: &FilesThen) -> Result<(), Unwritten>
    ensures ok { OnOk result (Appends (O.contents out.old) (O.contents out.new)
        (stop_text stop.now)) }
{
    print_stop_object(out, stop.column)?;
    print_files(out, stop.lines.as_slice())
}

#[tactic(auto, unfolding(crate::specs::Page::stop_object))]
fn print_stop_object<O: Write>(out: &mut O, writes: u32) -> Result<(), Unwritten>
    ensures ok { OnOk result (Appends (O.contents out.old) (O.contents out.new)
        (stop_object writes)) }
{
    print_first_number(out, "behind", writes as u64)?;
    print(out, "}\n")
}

fn print_files<O: Write>(out: &mut O, lines: &[FileLine]) -> Result<(), Unwritten>
    ensures ok { OnOk result (Appends (O.contents out.old) (O.contents out.new)
        (flat_map file_object lines.now)) }
{
    for line in lines {
        print_file(out, line)?;
    }
    Ok(())
}

#[tactic(auto, unfolding(crate::specs::Page::file_object))]
fn print_file<O: Write>(out: &mut O, line: &FileLine) -> Result<(), Unwritten>
    ensures ok { OnOk result (Appends (O.contents out.old) (O.contents out.new)
        (file_object line.now)) }
{
    print_first_number(out, "file", line.number as u64)?;
    print_number(out, "type", line.kind as u64)?;
    print_number(out, "size", line.size as u64)?;
    print(out, "}\n")
}
