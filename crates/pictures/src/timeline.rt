// The picture of a run: what each of its steps did, which group that was for, what it wrote, and what a
// stop would have kept.
ghost use Rattle.std.specs.Prelude.{OnOk};
ghost use Rattle.std.specs.Io.KnownBytes.{Appends};
ghost use Rattle.std.specs.List.{flat_map};
ghost use Rattle.pictures.specs.FilesRow.{files_text};
ghost use Rattle.pictures.specs.Timeline.{closing_text, drawing_text, opening_text, page_text, step_text, timeline_text};
ghost use Rattle.pictures.specs.Titles.{title_text, told_text};

use crate::bands::print_bands;
use crate::boxes::print_box;
use crate::brackets::print_brackets;
use crate::files::print_files_then;
use crate::markups::{Markup, print_markup};
use crate::page::{open_page, print_names, print_sheet};
use crate::picture::Picture;
use crate::titles::{print_title, print_told};
use crate::types::{FilesThen, Frame, Moment};
use crate::written::print_written;
use messages::{Unwritten, pass_on};
use std::io::Write;

/// The picture of a run: its steps, and the files from a step on, where they changed.
#[derive(Clone, Copy, Debug)]
pub struct Timeline<'a> {
    /// What all of its parts share.
    pub frame: Frame,
    /// The steps, the first at column 0.
    pub moments: &'a [Moment],
    /// The files, where there is a row of them.
    pub files: &'a [FilesThen],
}

impl<'a> Picture for Timeline<'a> {
    ghost text = { λ t. timeline_text t.frame t.moments.now t.files.now };

    fn print<O: Write>(&self, out: &mut O) -> Result<(), Unwritten> {
        print_timeline(out, self.frame, self.moments, self.files)
    }
}

#[tactic(auto, unfolding(crate::specs::Timeline::timeline_text))]
fn print_timeline<O: Write>(
    out: &mut O,
    frame: Frame,
    moments: &[Moment],
    files: &[FilesThen],
) -> Result<(), Unwritten>
    ensures ok { OnOk result (Appends (O.contents out.old) (O.contents out.new)
        (timeline_text frame moments.now files.now)) }
{
    print_opening(out, frame)?;
    print_drawing(out, frame, moments, files)?;
    print_closing(out, frame, moments)
}

// Writes what stands before the steps.
#[tactic(auto, unfolding(crate::specs::Timeline::opening_text))]
fn print_opening<O: Write>(out: &mut O, frame: Frame) -> Result<(), Unwritten>
    ensures ok { OnOk result (Appends (O.contents out.old) (O.contents out.new)
        (opening_text frame)) }
{
    print_page(out)?;
    print_names(out, frame)?;
    print_sheet(out, frame)
}

#[tactic(auto, unfolding(crate::specs::Timeline::page_text))]
fn print_page<O: Write>(out: &mut O) -> Result<(), Unwritten>
    ensures ok { OnOk result (Appends (O.contents out.old) (O.contents out.new) page_text) }
{
    open_page(out, "xvfs replay")?;
    print_markup(out, Markup::Intro)
}

// Writes the drawing: what is told of the steps comes last, so that nothing is drawn over it.
#[tactic(auto, unfolding(crate::specs::Timeline::drawing_text))]
fn print_drawing<O: Write>(
    out: &mut O,
    frame: Frame,
    moments: &[Moment],
    files: &[FilesThen],
) -> Result<(), Unwritten>
    ensures ok { OnOk result (Appends (O.contents out.old) (O.contents out.new)
        (drawing_text frame moments.now files.now)) }
{
    print_brackets(out, frame, moments)?;
    print_steps(out, frame, moments)?;
    print_bands(out, frame, moments)?;
    print_files(out, frame, files)?;
    print_titles(out, frame, moments)
}

// Writes the steps as text, and the end.
#[tactic(auto, unfolding(crate::specs::Timeline::closing_text))]
fn print_closing<O: Write>(out: &mut O, frame: Frame, moments: &[Moment]) -> Result<(), Unwritten>
    ensures ok { OnOk result (Appends (O.contents out.old) (O.contents out.new)
        (closing_text frame moments.now)) }
{
    print_markup(out, Markup::ToldOpen)?;
    print_all_told(out, frame.inode_count, moments)?;
    print_markup(out, Markup::PageEnd)?;
    pass_on(out)
}

fn print_steps<O: Write>(out: &mut O, frame: Frame, moments: &[Moment]) -> Result<(), Unwritten>
    ensures ok { OnOk result (Appends (O.contents out.old) (O.contents out.new)
        (flat_map (step_text frame) moments.now)) }
{
    for moment in moments {
        print_step(out, frame, moment)?;
    }
    Ok(())
}

// Writes the box of a step, and below the lanes what it wrote.
#[tactic(auto, unfolding(crate::specs::Timeline::step_text))]
fn print_step<O: Write>(out: &mut O, frame: Frame, moment: &Moment) -> Result<(), Unwritten>
    ensures ok { OnOk result (Appends (O.contents out.old) (O.contents out.new)
        (step_text frame moment.now)) }
{
    print_box(out, moment)?;
    print_written(out, frame, moment)
}

fn print_files<O: Write>(out: &mut O, frame: Frame, files: &[FilesThen]) -> Result<(), Unwritten>
    ensures ok { OnOk result (Appends (O.contents out.old) (O.contents out.new)
        (flat_map (files_text frame) files.now)) }
{
    for then in files {
        print_files_then(out, frame, then)?;
    }
    Ok(())
}

fn print_titles<O: Write>(out: &mut O, frame: Frame, moments: &[Moment]) -> Result<(), Unwritten>
    ensures ok { OnOk result (Appends (O.contents out.old) (O.contents out.new)
        (flat_map (title_text frame.inode_count) moments.now)) }
{
    for moment in moments {
        print_title(out, frame, moment)?;
    }
    Ok(())
}

fn print_all_told<O: Write>(
    out: &mut O,
    inode_count: u32,
    moments: &[Moment],
) -> Result<(), Unwritten>
    ensures ok { OnOk result (Appends (O.contents out.old) (O.contents out.new)
        (flat_map (told_text inode_count) moments.now)) }
{
    for moment in moments {
        print_told(out, inode_count, moment)?;
    }
    Ok(())
}
