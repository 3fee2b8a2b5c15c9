// What is told of a step where its box is pointed at, or reached by keyboard.
ghost use Rattle.std.specs.Prelude.{OnOk};
ghost use Rattle.std.specs.Io.KnownBytes.{Appends};
ghost use Rattle.pictures.specs.Titles.{answered_text, beginning_text, did_text, tip_text, title_text, told_text};

use crate::markups::{Markup, print_markup};
use crate::places::{column_x, lane_y};
use crate::replies::{Gist, print_reply};
use crate::shapes::{Area, Spot, close_label, open_label, print_area};
use crate::types::{Frame, Moment};
use itoa::Buffer;
use messages::{Unwritten, print, print_deed, print_made};
use std::io::Write;

// Writes over a box what is told of its step, as its title and, for who has no mouse, as a text.
#[tactic(auto, unfolding(crate::specs::Titles::title_text))]
pub fn print_title<O: Write>(out: &mut O, frame: Frame, moment: &Moment) -> Result<(), Unwritten>
    ensures ok { OnOk result (Appends (O.contents out.old) (O.contents out.new)
        (title_text frame.inode_count moment.now)) }
{
    print_markup(out, Markup::Step)?;
    print_told(out, frame.inode_count, moment)?;
    print_markup(out, Markup::TitleEnd)?;
    print_tip(out, frame.inode_count, moment)?;
    print_markup(out, Markup::FieldEnd)
}

// Writes the area of a box, and above it what is told of its step.
#[tactic(auto, unfolding(crate::specs::Titles::tip_text))]
fn print_tip<O: Write>(out: &mut O, inode_count: u32, moment: &Moment) -> Result<(), Unwritten>
    ensures ok { OnOk result (Appends (O.contents out.old) (O.contents out.new)
        (tip_text inode_count moment.now)) }
{
    let x = column_x(moment.column);
    let y = lane_y(moment.note.process);
    let area = Area {
        x: x + 2,
        y: y + 3,
        width: 68,
        height: 34,
    };
    print_area(out, "q", area)?;
    open_label(out, "tip", Spot { x: x + 4, y })?;
    print_told(out, inode_count, moment)?;
    close_label(out)
}

// Writes what is told of a step.
#[tactic(auto, unfolding(crate::specs::Titles::told_text))]
pub fn print_told<O: Write>(out: &mut O, inode_count: u32, moment: &Moment) -> Result<(), Unwritten>
    ensures ok { OnOk result (Appends (O.contents out.old) (O.contents out.new)
        (told_text inode_count moment.now)) }
{
    print_beginning(out, moment)?;
    print_did(out, inode_count, moment)?;
    print_answered(out, moment.answer)
}

#[tactic(auto, unfolding(crate::specs::Titles::beginning_text))]
fn print_beginning<O: Write>(out: &mut O, moment: &Moment) -> Result<(), Unwritten>
    ensures ok { OnOk result (Appends (O.contents out.old) (O.contents out.new)
        (beginning_text moment.now)) }
{
    let mut buffers = (Buffer::new(), Buffer::new());
    let number = buffers.0.format(moment.column as u64 + 1);
    let process = buffers.1.format(moment.note.process);
    print(out, format_args!("step {number}, process {process}: "))
}

// Writes what it was to do and what it came to, and what it wrote.
#[tactic(auto, unfolding(crate::specs::Titles::did_text))]
fn print_did<O: Write>(out: &mut O, inode_count: u32, moment: &Moment) -> Result<(), Unwritten>
    ensures ok { OnOk result (Appends (O.contents out.old) (O.contents out.new)
        (did_text inode_count moment.now.note)) }
{
    print_deed(out, &moment.note)?;
    print(out, "\n")?;
    print_made(out, true, inode_count, &moment.note)
}

fn print_answered<O: Write>(out: &mut O, answer: Option<Gist>) -> Result<(), Unwritten>
    ensures ok { OnOk result (Appends (O.contents out.old) (O.contents out.new)
        (answered_text answer)) }
{
    let Some(reply) = answer else {
        return Ok(());
    };
    print(out, "answered: ")?;
    print_reply(out, reply)?;
    print(out, "\n")
}
