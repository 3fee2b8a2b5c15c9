// The row of the files that a recovered image has, told where it changes.
ghost use Rattle.std.specs.Prelude.{◌≡◌, OnOk};
ghost use Rattle.std.specs.Io.KnownBytes.{Appends};
ghost use Rattle.std.specs.List.{flat_map};
ghost use Rattle.pictures.specs.FilesRow.{files_text, kind_word, line_open, line_words, mark_text, more_text, none_text, shown_files, shown_line, told_files, told_line};

use crate::markups::{Markup, print_attribute, print_markup};
use crate::places::{column_x, row_y};
use crate::types::{FileLine, FilesThen, Frame};
use itoa::Buffer;
use messages::{Unwritten, print};
use std::io::Write;

// The lines that are shown at most; a title has all.
const SHOWN: usize = 6;

// Writes the files from a step on.
#[tactic(auto, unfolding(crate::specs::FilesRow::files_text))]
pub fn print_files_then<O: Write>(
    out: &mut O,
    frame: Frame,
    then: &FilesThen,
) -> Result<(), Unwritten>
    ensures ok { OnOk result (Appends (O.contents out.old) (O.contents out.new)
        (files_text frame then.now)) }
{
    let lines = then.lines.as_slice();
    print_files_title(out, lines)?;
    print_mark(out, frame, column_x(then.column))?;
    print_shown(out, column_x(then.column) + 8, lines)?;
    print_markup(out, Markup::FilesClose)
}

// Writes all of the files as a title.
#[tactic(auto, unfolding(crate::specs::FilesRow::told_files))]
fn print_files_title<O: Write>(out: &mut O, lines: &[FileLine]) -> Result<(), Unwritten>
    ensures ok { OnOk result (Appends (O.contents out.old) (O.contents out.new)
        (told_files lines.now)) }
{
    print_markup(out, Markup::Field)?;
    print(out, "files:\n")?;
    print_told_lines(out, lines)?;
    print_markup(out, Markup::TitleEnd)
}

fn print_told_lines<O: Write>(out: &mut O, lines: &[FileLine]) -> Result<(), Unwritten>
    ensures ok { OnOk result (Appends (O.contents out.old) (O.contents out.new)
        (flat_map told_line lines.now)) }
{
    for line in lines {
        print_told_line(out, line)?;
    }
    Ok(())
}

#[tactic(auto, unfolding(crate::specs::FilesRow::told_line))]
fn print_told_line<O: Write>(out: &mut O, line: &FileLine) -> Result<(), Unwritten>
    ensures ok { OnOk result (Appends (O.contents out.old) (O.contents out.new)
        (told_line line.now)) }
{
    print_words(out, line)?;
    print(out, "\n")
}

// Writes what a file is.
#[tactic(auto, unfolding(crate::specs::FilesRow::line_words))]
fn print_words<O: Write>(out: &mut O, line: &FileLine) -> Result<(), Unwritten>
    ensures ok { OnOk result (Appends (O.contents out.old) (O.contents out.new)
        (line_words line.now)) }
{
    let mut buffers = (Buffer::new(), Buffer::new());
    let number = buffers.0.format(line.number);
    let kind = kind_word(line.kind);
    let size = buffers.1.format(line.size);
    print(out, format_args!("{number} {kind}, {size} bytes"))
}

fn kind_word(kind: u16) -> &'static str
    ensures { result.now ≡ kind_word kind }
{
    match kind {
        1 => "directory",
        2 => "file",
        _ => "device",
    }
}

// Writes the line at the left edge of what is shown, and the beginning of its text.
#[tactic(auto, unfolding(crate::specs::FilesRow::mark_text))]
fn print_mark<O: Write>(out: &mut O, frame: Frame, x: u64) -> Result<(), Unwritten>
    ensures ok { OnOk result (Appends (O.contents out.old) (O.contents out.new)
        (mark_text frame x)) }
{
    let mut buffer = Buffer::new();
    print_attribute(out, Markup::Mark, x)?;
    print(out, " ")?;
    print(out, buffer.format(row_y(frame, 108)))?;
    print_attribute(out, Markup::MarkEnd, row_y(frame, 106))?;
    print_markup(out, Markup::TagEnd)
}

// Writes the first of the files, or that there is none.
#[tactic(auto, unfolding(crate::specs::FilesRow::shown_files))]
fn print_shown<O: Write>(out: &mut O, x: u64, lines: &[FileLine]) -> Result<(), Unwritten>
    ensures ok { OnOk result (Appends (O.contents out.old) (O.contents out.new)
        (shown_files x lines.now)) }
{
    if lines.is_empty() {
        return print_none(out, x);
    }
    let shown = lines.len().min(SHOWN);
    print_shown_lines(out, x, &lines[..shown])?;
    print_more(out, x, lines.len() - shown)
}

#[tactic(auto, unfolding(crate::specs::FilesRow::none_text))]
fn print_none<O: Write>(out: &mut O, x: u64) -> Result<(), Unwritten>
    ensures ok { OnOk result (Appends (O.contents out.old) (O.contents out.new)
        (none_text x)) }
{
    open_line(out, x)?;
    print(out, "no file")?;
    print_markup(out, Markup::LineClose)
}

fn print_shown_lines<O: Write>(out: &mut O, x: u64, lines: &[FileLine]) -> Result<(), Unwritten>
    ensures ok { OnOk result (Appends (O.contents out.old) (O.contents out.new)
        (flat_map (shown_line x) lines.now)) }
{
    for line in lines {
        print_shown_line(out, x, line)?;
    }
    Ok(())
}

#[tactic(auto, unfolding(crate::specs::FilesRow::shown_line))]
fn print_shown_line<O: Write>(out: &mut O, x: u64, line: &FileLine) -> Result<(), Unwritten>
    ensures ok { OnOk result (Appends (O.contents out.old) (O.contents out.new)
        (shown_line x line.now)) }
{
    open_line(out, x)?;
    print_words(out, line)?;
    print_markup(out, Markup::LineClose)
}

#[tactic(auto, unfolding(crate::specs::FilesRow::line_open))]
fn open_line<O: Write>(out: &mut O, x: u64) -> Result<(), Unwritten>
    ensures ok { OnOk result (Appends (O.contents out.old) (O.contents out.new)
        (line_open x)) }
{
    print_attribute(out, Markup::Line, x)?;
    print_markup(out, Markup::LineOpen)
}

// Writes how many files aren't shown, where some aren't.
#[tactic(auto, unfolding(crate::specs::FilesRow::more_text))]
fn print_more<O: Write>(out: &mut O, x: u64, more: usize) -> Result<(), Unwritten>
    ensures ok { OnOk result (Appends (O.contents out.old) (O.contents out.new)
        (more_text x more)) }
{
    if more == 0 {
        return Ok(());
    }
    let mut buffer = Buffer::new();
    let more = buffer.format(more);
    open_line(out, x)?;
    print(out, format_args!("and {more} more"))?;
    print_markup(out, Markup::LineClose)
}
