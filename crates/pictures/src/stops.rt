// The picture of a run's stops: a column for each, and in it a square for each image that it may leave.
ghost use Rattle.std.specs.Prelude.{◌≡◌, ◌<◌, ◌≤◌, ◌++◌, IfOk, OnOk, decimal};
ghost use Rattle.std.specs.Io.KnownBytes.{Appends};
ghost use Rattle.std.specs.List.{flat_map, range_with_len};
ghost use Rattle.pictures.specs.Along.{left_along, pieces_along};
ghost use Rattle.pictures.specs.Stops.{column_label, column_line, column_text, drawn_of, higher, image_square, image_words, label_words, lost_line, lost_square, lost_text, place_behind, square_at, stop_words, stop_x, stops_drawn, stops_open, stops_text, stops_told};

use crate::markups::{Markup, print_attribute, print_markup};
use crate::page::open_page;
use crate::picture::Picture;
use crate::shapes::{Area, Spot, close_label, open_label, print_area};
use itoa::Buffer;
use messages::{Unwritten, pass_on, print, write_bytes};
use std::io::Write;

/// Where a run is stopped. Writes and syncs are counted from 1.
#[derive(Clone, Copy, Debug)]
pub enum At {
    /// Nowhere: it is the whole run.
    End,
    /// Before this write.
    Write(u64),
    /// At this sync.
    Sync(u64),
}

/// A stop each of whose images passed.
#[derive(Clone, Copy, Debug)]
pub struct Column {
    /// Where the run is stopped.
    pub at: At,
    /// How many images it may leave; at most 65 are drawn.
    pub images: u64,
}

/// The first stop of which an image didn't pass.
#[derive(Clone, Copy, Debug)]
pub struct Lost<'a> {
    /// Where the run is stopped.
    pub at: At,
    /// Which image that is, and why.
    pub words: &'a [u8],
}

/// The picture of a run's stops, in the order in which they were tried.
#[derive(Clone, Copy, Debug)]
pub struct Stops<'a> {
    /// Those that passed.
    pub columns: &'a [Column],
    /// The one behind them that didn't, if there is one.
    pub lost: Option<Lost<'a>>,
}

impl<'a> Picture for Stops<'a> {
    ghost text = { λ s. stops_text s.columns.now s.lost };

    fn print<O: Write>(&self, out: &mut O) -> Result<(), Unwritten> {
        print_stops(out, self.columns, self.lost)
    }
}

#[tactic(auto, unfolding(crate::specs::Stops::stops_text))]
fn print_stops<O: Write>(
    out: &mut O,
    columns: &[Column],
    lost: Option<Lost<'_>>,
) -> Result<(), Unwritten>
    ensures ok { OnOk result (Appends (O.contents out.old) (O.contents out.new)
        (stops_text columns.now lost.entry)) }
{
    print_stops_open(out, columns)?;
    print_drawn(out, columns, lost)?;
    print_stops_told(out, columns, lost)
}

// Writes the columns of squares.
#[tactic(auto, unfolding(crate::specs::Stops::stops_drawn))]
fn print_drawn<O: Write>(
    out: &mut O,
    columns: &[Column],
    lost: Option<Lost<'_>>,
) -> Result<(), Unwritten>
    ensures ok { OnOk result (Appends (O.contents out.old) (O.contents out.new)
        (stops_drawn columns.now lost.entry)) }
{
    let place = print_columns(out, columns)?;
    print_lost(out, place, lost)
}

// Writes the stops as text, and the end.
#[tactic(auto, unfolding(crate::specs::Stops::stops_told))]
fn print_stops_told<O: Write>(
    out: &mut O,
    columns: &[Column],
    lost: Option<Lost<'_>>,
) -> Result<(), Unwritten>
    ensures ok { OnOk result (Appends (O.contents out.old) (O.contents out.new)
        (stops_told columns.now lost.entry)) }
{
    print_markup(out, Markup::StopsTold)?;
    print_column_lines(out, columns)?;
    print_lost_line(out, lost)?;
    print_markup(out, Markup::PageEnd)?;
    pass_on(out)
}

// Writes what stands before the squares.
#[tactic(auto, unfolding(crate::specs::Stops::stops_open))]
fn print_stops_open<O: Write>(out: &mut O, columns: &[Column]) -> Result<(), Unwritten>
    ensures ok { OnOk result (Appends (O.contents out.old) (O.contents out.new)
        (stops_open columns.now)) }
{
    open_page(out, "xvfs stops")?;
    print_markup(out, Markup::StopsIntro)?;
    print_attribute(
        out,
        Markup::StopsOpen,
        16 + 40 * (columns.len().min(4000) as u64 + 1),
    )?;
    print_attribute(out, Markup::Height, 48 + 17 * most_images(columns))?;
    print_markup(out, Markup::StopsLabel)
}

// The most images of a stop that are drawn.
fn most_images(columns: &[Column]) -> u64
    ensures most { result ≡ left_along higher 0 columns.now }
    ensures few { result ≤ 65 }
{
    let mut most = 0;
    for column in columns {
        most = drawn_of(column).max(most);
    }
    most
}

// How many of a stop's images are drawn.
fn drawn_of(column: &Column) -> u64
    ensures { result ≡ drawn_of column.now }
{
    column.images.min(65)
}

// Writes the columns from the first place on. The place behind them.
fn print_columns<O: Write>(out: &mut O, columns: &[Column]) -> Result<u32, Unwritten>
    ensures ok { OnOk result (Appends (O.contents out.old) (O.contents out.new)
        (pieces_along column_text place_behind 0 columns.now)) }
    ensures place { IfOk result (λ place. place ≡ left_along place_behind 0 columns.now) }
{
    let mut place = 0u32;
    for column in columns {
        print_column(out, place, column)?;
        place = place.saturating_add(1);
    }
    Ok(place)
}

// Writes the name of a stop, and a square for each of its images.
#[tactic(auto, unfolding(crate::specs::Stops::column_text))]
fn print_column<O: Write>(out: &mut O, place: u32, column: &Column) -> Result<(), Unwritten>
    ensures ok { OnOk result (Appends (O.contents out.old) (O.contents out.new)
        (column_text place column.now)) }
{
    print_column_label(out, place, column.at)?;
    print_images(out, place, column, drawn_of(column))
}

fn print_images<O: Write>(
    out: &mut O,
    place: u32,
    column: &Column,
    count: u64,
) -> Result<(), Unwritten>
    requires { count ≤ 65 }
    ensures ok { OnOk result (Appends (O.contents out.old) (O.contents out.new)
        (flat_map (image_square place column.now) (range_with_len 0 count))) }
{
    for image in 0..count {
        print_image(out, place, column, image)?;
    }
    Ok(())
}

// Writes the square of an image, and its title.
#[tactic(auto, unfolding(crate::specs::Stops::image_square))]
fn print_image<O: Write>(
    out: &mut O,
    place: u32,
    column: &Column,
    image: u64,
) -> Result<(), Unwritten>
    requires { image < 65 }
    ensures ok { OnOk result (Appends (O.contents out.old) (O.contents out.new)
        (image_square place column.now image)) }
{
    print_markup(out, Markup::Field)?;
    print_stop(out, column.at)?;
    print_image_words(out, column.images, image)?;
    print_markup(out, Markup::TitleEnd)?;
    print_square(out, "k1", place, image)?;
    print_markup(out, Markup::FieldEnd)
}

// Writes which of so many images it is, and that it passed.
#[tactic(auto, unfolding(crate::specs::Stops::image_words))]
fn print_image_words<O: Write>(out: &mut O, images: u64, image: u64) -> Result<(), Unwritten>
    requires { image < 65 }
    ensures ok { OnOk result (Appends (O.contents out.old) (O.contents out.new)
        (image_words images image)) }
{
    let mut buffers = (Buffer::new(), Buffer::new());
    let number = buffers.0.format(image + 1);
    let count = buffers.1.format(images);
    print(out, format_args!(": image {number} of {count} passed"))
}

// Writes a square of a class.
fn print_square<O: Write>(out: &mut O, class: &str, place: u32, image: u64) -> Result<(), Unwritten>
    requires { image < 65 }
    ensures ok { OnOk result (Appends (O.contents out.old) (O.contents out.new)
        (square_at class.now place image)) }
{
    let area = Area {
        x: stop_x(place),
        y: 24 + 17 * image,
        width: 36,
        height: 16,
    };
    print_area(out, class, area)
}

// Writes the name of a stop above its column.
#[tactic(auto, unfolding(crate::specs::Stops::column_label))]
fn print_column_label<O: Write>(out: &mut O, place: u32, at: At) -> Result<(), Unwritten>
    ensures ok { OnOk result (Appends (O.contents out.old) (O.contents out.new)
        (column_label place at)) }
{
    let spot = Spot {
        x: stop_x(place) + 18,
        y: 16,
    };
    open_label(out, "n", spot)?;
    print_short(out, at)?;
    close_label(out)
}

// Writes the short name of a stop.
fn print_short<O: Write>(out: &mut O, at: At) -> Result<(), Unwritten>
    ensures ok { OnOk result (Appends (O.contents out.old) (O.contents out.new)
        (label_words at)) }
{
    let mut buffer = Buffer::new();
    match at {
        At::End => print(out, "end"),
        At::Write(number) => print(out, buffer.format(number)),
        At::Sync(number) => {
            let number = buffer.format(number);
            print(out, format_args!("s {number}"))
        }
    }
}

// Writes the name of a stop.
fn print_stop<O: Write>(out: &mut O, at: At) -> Result<(), Unwritten>
    ensures ok { OnOk result (Appends (O.contents out.old) (O.contents out.new)
        (stop_words at)) }
{
    match at {
        At::End => print(out, "the whole run"),
        At::Write(number) => print_numbered(out, "stop before write ", number),
        At::Sync(number) => print_numbered(out, "stop at sync ", number),
    }
}

fn print_numbered<O: Write>(out: &mut O, words: &str, number: u64) -> Result<(), Unwritten>
    ensures ok { OnOk result (Appends (O.contents out.old) (O.contents out.new)
        (words.now ++ decimal number)) }
{
    let mut buffer = Buffer::new();
    print(out, words)?;
    print(out, buffer.format(number))
}

// Writes the square of the image that didn't pass, if there is one.
fn print_lost<O: Write>(out: &mut O, place: u32, lost: Option<Lost<'_>>) -> Result<(), Unwritten>
    ensures ok { OnOk result (Appends (O.contents out.old) (O.contents out.new)
        (lost_text place lost.entry)) }
{
    match lost {
        Some(lost) => print_lost_square(out, place, lost),
        None => Ok(()),
    }
}

#[tactic(auto, unfolding(crate::specs::Stops::lost_square))]
fn print_lost_square<O: Write>(out: &mut O, place: u32, lost: Lost<'_>) -> Result<(), Unwritten>
    ensures ok { OnOk result (Appends (O.contents out.old) (O.contents out.new)
        (lost_square place lost.entry)) }
{
    print_column_label(out, place, lost.at)?;
    print_markup(out, Markup::Field)?;
    write_bytes(out, lost.words)?;
    print_markup(out, Markup::TitleEnd)?;
    print_square(out, "x", place, 0)?;
    print_markup(out, Markup::FieldEnd)
}

fn print_column_lines<O: Write>(out: &mut O, columns: &[Column]) -> Result<(), Unwritten>
    ensures ok { OnOk result (Appends (O.contents out.old) (O.contents out.new)
        (flat_map column_line columns.now)) }
{
    for column in columns {
        print_column_line(out, column)?;
    }
    Ok(())
}

// Writes how many images of a stop passed.
#[tactic(auto, unfolding(crate::specs::Stops::column_line))]
fn print_column_line<O: Write>(out: &mut O, column: &Column) -> Result<(), Unwritten>
    ensures ok { OnOk result (Appends (O.contents out.old) (O.contents out.new)
        (column_line column.now)) }
{
    let mut buffer = Buffer::new();
    let images = buffer.format(column.images);
    print_stop(out, column.at)?;
    print(out, format_args!(": passed {images}\n"))
}

fn print_lost_line<O: Write>(out: &mut O, lost: Option<Lost<'_>>) -> Result<(), Unwritten>
    ensures ok { OnOk result (Appends (O.contents out.old) (O.contents out.new)
        (lost_line lost.entry)) }
{
    match lost {
        Some(lost) => write_bytes(out, lost.words),
        None => Ok(()),
    }
}

// The left edge of a stop's column.
fn stop_x(place: u32) -> u64
    ensures { result ≡ stop_x place }
{
    16 + 40 * place as u64
}
