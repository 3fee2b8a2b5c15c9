// The page of a picture, and what stands round the drawing of a run.
ghost use Rattle.std.specs.Prelude.{OnOk};
ghost use Rattle.std.specs.Io.KnownBytes.{Appends};
ghost use Rattle.std.specs.List.{flat_map, range_with_len};
ghost use Rattle.pictures.specs.Page.{files_name, heading_text, lane_line, lane_name, names_open, names_text, page_open, row_name, row_names, sheet_open, sheet_text, style_text};

use crate::markups::{Markup, print_attribute, print_markup};
use crate::places::{drawing_height, lane_y, row_y, sheet_width};
use crate::shapes::{Spot, print_counted, print_label, print_line};
use crate::types::Frame;
use messages::{Unwritten, print};
use std::io::Write;

// Writes the beginning of a page with this heading.
#[tactic(auto, unfolding(crate::specs::Page::page_open))]
pub fn open_page<O: Write>(out: &mut O, heading: &str) -> Result<(), Unwritten>
    ensures ok { OnOk result (Appends (O.contents out.old) (O.contents out.new)
        (page_open heading.now)) }
{
    print_markup(out, Markup::Page)?;
    print(out, heading)?;
    print_style(out)?;
    print_heading(out, heading)
}

// Writes how shapes and texts look.
#[tactic(auto, unfolding(crate::specs::Page::style_text))]
fn print_style<O: Write>(out: &mut O) -> Result<(), Unwritten>
    ensures ok { OnOk result (Appends (O.contents out.old) (O.contents out.new) style_text) }
{
    print_markup(out, Markup::Style)?;
    print_markup(out, Markup::BodyStyle)?;
    print_markup(out, Markup::TextStyle)?;
    print_markup(out, Markup::BoxStyle)?;
    print_markup(out, Markup::BandStyle)?;
    print_markup(out, Markup::CellStyle)
}

#[tactic(auto, unfolding(crate::specs::Page::heading_text))]
fn print_heading<O: Write>(out: &mut O, heading: &str) -> Result<(), Unwritten>
    ensures ok { OnOk result (Appends (O.contents out.old) (O.contents out.new)
        (heading_text heading.now)) }
{
    print_markup(out, Markup::Heading)?;
    print(out, heading)?;
    print_markup(out, Markup::HeadingEnd)
}

// Writes the names of the lanes and the rows, which stay where the sheet is moved sideways.
#[tactic(auto, unfolding(crate::specs::Page::names_text))]
pub fn print_names<O: Write>(out: &mut O, frame: Frame) -> Result<(), Unwritten>
    ensures ok { OnOk result (Appends (O.contents out.old) (O.contents out.new)
        (names_text frame)) }
{
    open_names(out, frame)?;
    print_lane_names(out, frame.processes)?;
    print_row_names(out, frame)?;
    print_markup(out, Markup::NamesEnd)
}

#[tactic(auto, unfolding(crate::specs::Page::names_open))]
fn open_names<O: Write>(out: &mut O, frame: Frame) -> Result<(), Unwritten>
    ensures ok { OnOk result (Appends (O.contents out.old) (O.contents out.new)
        (names_open frame)) }
{
    print_attribute(out, Markup::Names, drawing_height(frame))?;
    print_markup(out, Markup::TagEnd)
}

fn print_lane_names<O: Write>(out: &mut O, processes: u32) -> Result<(), Unwritten>
    ensures ok { OnOk result (Appends (O.contents out.old) (O.contents out.new)
        (flat_map lane_name (range_with_len 0 processes))) }
{
    for process in 0..processes {
        print_lane_name(out, process)?;
    }
    Ok(())
}

#[tactic(auto, unfolding(crate::specs::Page::lane_name))]
fn print_lane_name<O: Write>(out: &mut O, process: u32) -> Result<(), Unwritten>
    ensures ok { OnOk result (Appends (O.contents out.old) (O.contents out.new)
        (lane_name process)) }
{
    let spot = Spot {
        x: 8,
        y: lane_y(process) + 24,
    };
    print_counted(out, "r", spot, "process ", process as u64)
}

#[tactic(auto, unfolding(crate::specs::Page::row_names))]
fn print_row_names<O: Write>(out: &mut O, frame: Frame) -> Result<(), Unwritten>
    ensures ok { OnOk result (Appends (O.contents out.old) (O.contents out.new)
        (row_names frame)) }
{
    print_label(out, "r", Spot { x: 8, y: 14 }, "step")?;
    print_row_name(out, frame, 22, "disk write")?;
    print_row_name(out, frame, 90, "a stop here keeps")?;
    print_files_name(out, frame)
}

#[tactic(auto, unfolding(crate::specs::Page::files_name))]
fn print_files_name<O: Write>(out: &mut O, frame: Frame) -> Result<(), Unwritten>
    ensures ok { OnOk result (Appends (O.contents out.old) (O.contents out.new)
        (files_name frame)) }
{
    if !frame.has_files {
        return Ok(());
    }
    print_row_name(out, frame, 121, "files, recovered")
}

#[tactic(auto, unfolding(crate::specs::Page::row_name))]
fn print_row_name<O: Write>(
    out: &mut O,
    frame: Frame,
    below: u32,
    words: &str,
) -> Result<(), Unwritten>
    ensures ok { OnOk result (Appends (O.contents out.old) (O.contents out.new)
        (row_name frame below words.now)) }
{
    let spot = Spot {
        x: 8,
        y: row_y(frame, below),
    };
    print_label(out, "r", spot, words)
}

// Writes the beginning of the sheet, with a line above each lane.
#[tactic(auto, unfolding(crate::specs::Page::sheet_text))]
pub fn print_sheet<O: Write>(out: &mut O, frame: Frame) -> Result<(), Unwritten>
    ensures ok { OnOk result (Appends (O.contents out.old) (O.contents out.new)
        (sheet_text frame)) }
{
    open_sheet(out, frame)?;
    print_markup(out, Markup::Hatch)?;
    print_lanes(out, frame)?;
    print(out, "\n")
}

#[tactic(auto, unfolding(crate::specs::Page::sheet_open))]
fn open_sheet<O: Write>(out: &mut O, frame: Frame) -> Result<(), Unwritten>
    ensures ok { OnOk result (Appends (O.contents out.old) (O.contents out.new)
        (sheet_open frame)) }
{
    print_attribute(out, Markup::Sheet, sheet_width(frame))?;
    print_attribute(out, Markup::Height, drawing_height(frame))?;
    print_markup(out, Markup::SheetLabel)
}

fn print_lanes<O: Write>(out: &mut O, frame: Frame) -> Result<(), Unwritten>
    ensures ok { OnOk result (Appends (O.contents out.old) (O.contents out.new)
        (flat_map (lane_line frame) (range_with_len 0 frame.processes))) }
{
    for process in 0..frame.processes {
        print_lane(out, frame, process)?;
    }
    Ok(())
}

#[tactic(auto, unfolding(crate::specs::Page::lane_line))]
fn print_lane<O: Write>(out: &mut O, frame: Frame, process: u32) -> Result<(), Unwritten>
    ensures ok { OnOk result (Appends (O.contents out.old) (O.contents out.new)
        (lane_line frame process)) }
{
    print_line(out, lane_y(process), sheet_width(frame))
}
