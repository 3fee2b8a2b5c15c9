// The shapes of a drawing, in pixels.
ghost use Rattle.std.specs.Prelude.{OnOk};
ghost use Rattle.std.specs.Io.KnownBytes.{Appends};
ghost use Rattle.pictures.specs.Markups.{markup_text};
ghost use Rattle.pictures.specs.Shapes.{area_text, counted_text, label_open, label_text, line_text, opening_text};
ghost use Rattle.pictures.specs.declared.markups.Markup.TheVariants.{LabelClose};

use crate::markups::{Markup, print_attribute, print_markup};
use itoa::Buffer;
use messages::{Unwritten, print};
use std::io::Write;

// A rectangle.
#[derive(Clone, Copy)]
pub struct Area {
    pub x: u64,
    pub y: u64,
    pub width: u64,
    pub height: u64,
}

// Where a text begins, on its line.
#[derive(Clone, Copy)]
pub struct Spot {
    pub x: u64,
    pub y: u64,
}

// Writes the beginning of a shape of a class.
#[tactic(auto, unfolding(crate::specs::Shapes::opening_text))]
fn print_opening<O: Write>(
    out: &mut O,
    markup: Markup,
    class: &str,
    spot: Spot,
) -> Result<(), Unwritten>
    ensures ok { OnOk result (Appends (O.contents out.old) (O.contents out.new)
        (opening_text markup class.now spot)) }
{
    print_markup(out, markup)?;
    print(out, class)?;
    print_attribute(out, Markup::X, spot.x)?;
    print_attribute(out, Markup::Y, spot.y)
}

// Writes a rectangle of a class.
#[tactic(auto, unfolding(crate::specs::Shapes::area_text))]
pub fn print_area<O: Write>(out: &mut O, class: &str, area: Area) -> Result<(), Unwritten>
    ensures ok { OnOk result (Appends (O.contents out.old) (O.contents out.new)
        (area_text class.now area)) }
{
    let corner = Spot {
        x: area.x,
        y: area.y,
    };
    print_opening(out, Markup::Rect, class, corner)?;
    print_attribute(out, Markup::Width, area.width)?;
    print_attribute(out, Markup::Height, area.height)?;
    print_markup(out, Markup::End)
}

// Writes a line across the sheet, of that width and at that height.
#[tactic(auto, unfolding(crate::specs::Shapes::line_text))]
pub fn print_line<O: Write>(out: &mut O, y: u64, width: u64) -> Result<(), Unwritten>
    ensures ok { OnOk result (Appends (O.contents out.old) (O.contents out.new)
        (line_text y width)) }
{
    print_attribute(out, Markup::Lane, y)?;
    print_attribute(out, Markup::Across, width)?;
    print_markup(out, Markup::End)
}

// Writes the beginning of a text of a class.
#[tactic(auto, unfolding(crate::specs::Shapes::label_open))]
pub fn open_label<O: Write>(out: &mut O, class: &str, spot: Spot) -> Result<(), Unwritten>
    ensures ok { OnOk result (Appends (O.contents out.old) (O.contents out.new)
        (label_open class.now spot)) }
{
    print_opening(out, Markup::Label, class, spot)?;
    print_markup(out, Markup::TagEnd)
}

// Writes the end of a text.
pub fn close_label<O: Write>(out: &mut O) -> Result<(), Unwritten>
    ensures ok { OnOk result (Appends (O.contents out.old) (O.contents out.new)
        (markup_text LabelClose)) }
{
    print_markup(out, Markup::LabelClose)
}

// Writes a text of these words.
#[tactic(auto, unfolding(crate::specs::Shapes::label_text))]
pub fn print_label<O: Write>(
    out: &mut O,
    class: &str,
    spot: Spot,
    words: &str,
) -> Result<(), Unwritten>
    ensures ok { OnOk result (Appends (O.contents out.old) (O.contents out.new)
        (label_text class.now spot words.now)) }
{
    open_label(out, class, spot)?;
    print(out, words)?;
    close_label(out)
}

// Writes a text of words and a number.
#[tactic(auto, unfolding(crate::specs::Shapes::counted_text))]
pub fn print_counted<O: Write>(
    out: &mut O,
    class: &str,
    spot: Spot,
    words: &str,
    number: u64,
) -> Result<(), Unwritten>
    ensures ok { OnOk result (Appends (O.contents out.old) (O.contents out.new)
        (counted_text class.now spot words.now number)) }
{
    let mut buffer = Buffer::new();
    open_label(out, class, spot)?;
    print(out, words)?;
    print(out, buffer.format(number))?;
    close_label(out)
}
