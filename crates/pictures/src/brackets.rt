// The brackets over the steps: one for each group, from the step that opened it to that which ended
// its commit.
ghost use Rattle.std.specs.Prelude.{◌≡◌, OnOk};
ghost use Rattle.std.specs.Io.KnownBytes.{Appends};
ghost use Rattle.pictures.specs.Brackets.{bracket_text, bracket_title, brackets_text, closes, drawn_bracket, is_emptied, last_bracket, path_text, piece_of, under_after};

use crate::markups::{Markup, print_attribute, print_markup};
use crate::places::{column_x, lane_y, sheet_width};
use crate::shapes::{Area, Spot, print_area, print_counted};
use crate::types::{Frame, Moment};
use itoa::Buffer;
use messages::{Unwritten, made_deed, print};
use std::io::Write;
use wal::{CommitDeed, Deed, Part};

// The group that is under way.
#[derive(Clone, Copy)]
pub struct Under {
    // The place of the step that opened it; None where none is.
    pub first: Option<u32>,
    // How many groups were opened.
    pub opened: u64,
}

// Writes the brackets of a run.
#[tactic(auto, unfolding(crate::specs::Brackets::brackets_text))]
pub fn print_brackets<O: Write>(
    out: &mut O,
    frame: Frame,
    moments: &[Moment],
) -> Result<(), Unwritten>
    ensures ok { OnOk result (Appends (O.contents out.old) (O.contents out.new)
        (brackets_text frame moments.now)) }
{
    let mut under = Under {
        first: None,
        opened: 0,
    };
    for moment in moments {
        print_piece(out, frame, under, moment)?;
        under = under_after(frame, under, moment);
    }
    print_last_bracket(out, frame, under)
}

// Writes the bracket that ends with a step, if one does.
#[tactic(auto, unfolding(crate::specs::Brackets::piece_of))]
fn print_piece<O: Write>(
    out: &mut O,
    frame: Frame,
    under: Under,
    moment: &Moment,
) -> Result<(), Unwritten>
    ensures ok { OnOk result (Appends (O.contents out.old) (O.contents out.new)
        (piece_of frame under moment.now)) }
{
    if !closes(frame, moment) {
        return Ok(());
    }
    match under.first {
        None => Ok(()),
        Some(first) => print_bracket(
            out,
            frame,
            under.opened,
            first,
            column_x(moment.column) + 68,
        ),
    }
}

// Writes the bracket of the group that wasn't ended.
#[tactic(auto, unfolding(crate::specs::Brackets::last_bracket))]
fn print_last_bracket<O: Write>(out: &mut O, frame: Frame, under: Under) -> Result<(), Unwritten>
    ensures ok { OnOk result (Appends (O.contents out.old) (O.contents out.new)
        (last_bracket frame under)) }
{
    match under.first {
        None => Ok(()),
        Some(first) => print_bracket(out, frame, under.opened, first, sheet_width(frame)),
    }
}

// Whether a step ends a group: its header was cleared, or, where it wrote nothing, its last operation
// ended.
#[tactic(auto, unfolding(crate::specs::Brackets::closes))]
fn closes(frame: Frame, moment: &Moment) -> bool
    ensures { result ≡ closes frame moment.now }
{
    match made_deed(moment.note.step, moment.note.deed) {
        Some(CommitDeed::Clear) => !frame.holds,
        Some(CommitDeed::Sync(Part::Clear)) => true,
        Some(_) => false,
        None => is_emptied(moment),
    }
}

#[tactic(auto, unfolding(crate::specs::Brackets::is_emptied))]
fn is_emptied(moment: &Moment) -> bool
    ensures { result ≡ is_emptied moment.now }
{
    matches!(moment.note.deed, Some(Deed::End)) && moment.note.committed == moment.note.opened
}

// The group that is under way behind a step.
#[tactic(auto, unfolding(crate::specs::Brackets::under_after))]
fn under_after(frame: Frame, under: Under, moment: &Moment) -> Under
    ensures { result ≡ under_after frame under moment.now }
{
    if closes(frame, moment) {
        return Under {
            first: None,
            opened: moment.note.opened,
        };
    }
    if moment.note.opened == under.opened {
        return under;
    }
    Under {
        first: Some(moment.column),
        opened: moment.note.opened,
    }
}

// Writes a bracket from a column on to a right edge.
#[tactic(auto, unfolding(crate::specs::Brackets::bracket_text))]
fn print_bracket<O: Write>(
    out: &mut O,
    frame: Frame,
    group: u64,
    first: u32,
    to: u64,
) -> Result<(), Unwritten>
    ensures ok { OnOk result (Appends (O.contents out.old) (O.contents out.new)
        (bracket_text frame group first to)) }
{
    print_bracket_title(out, group)?;
    print_drawn(out, frame, column_x(first), to)?;
    let spot = Spot {
        x: column_x(first) + 8,
        y: 34,
    };
    print_counted(out, "v", spot, "group ", group)?;
    print_markup(out, Markup::FieldEnd)
}

#[tactic(auto, unfolding(crate::specs::Brackets::bracket_title))]
fn print_bracket_title<O: Write>(out: &mut O, group: u64) -> Result<(), Unwritten>
    ensures ok { OnOk result (Appends (O.contents out.old) (O.contents out.new)
        (bracket_title group)) }
{
    let mut buffer = Buffer::new();
    print_markup(out, Markup::Field)?;
    print(out, "group ")?;
    print(out, buffer.format(group))?;
    print_markup(out, Markup::TitleEnd)
}

// Writes the ground of a group behind the lanes, and its bracket.
#[tactic(auto, unfolding(crate::specs::Brackets::drawn_bracket))]
fn print_drawn<O: Write>(out: &mut O, frame: Frame, from: u64, to: u64) -> Result<(), Unwritten>
    ensures ok { OnOk result (Appends (O.contents out.old) (O.contents out.new)
        (drawn_bracket frame from to)) }
{
    let area = Area {
        x: from,
        y: 40,
        width: to.saturating_sub(from),
        height: lane_y(frame.processes).saturating_sub(40),
    };
    print_area(out, "v", area)?;
    print_path(out, from, to)
}

#[tactic(auto, unfolding(crate::specs::Brackets::path_text))]
fn print_path<O: Write>(out: &mut O, from: u64, to: u64) -> Result<(), Unwritten>
    ensures ok { OnOk result (Appends (O.contents out.old) (O.contents out.new)
        (path_text from to)) }
{
    print_attribute(out, Markup::Bracket, from)?;
    print_attribute(out, Markup::Up, to)?;
    print_markup(out, Markup::Down)
}
