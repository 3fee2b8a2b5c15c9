// A writer that colours what is written to it.
ghost use Rattle.std.specs.Prelude.{◌≡◌, ◌≤◌, ◌<◌, ◌-◌, [], IfOk, OnOk, flat_map, length, min, slice_index, take};
ghost use Rattle.std.specs.Io.{WritesAtMost};
ghost use Rattle.std.specs.Io.KnownBytes.{Appends};
ghost use Rattle.colours.specs.Painting.{coloured, has_sign, held, is_of_label, next_place, painted, place_behind, tint_of};

use std::io::{Result, Write};

// The columns of a line that have a block's number, with a blank.
const LABEL: usize = 5;

/// Where a byte of a drawn image comes.
#[derive(Clone, Copy, Debug, Drop)]
pub enum Place {
    /// In a row of signs, at this column, which counts no further than the first sign's.
    Row(usize),
    /// In a line of text.
    Text,
}

/// What a writer colours.
#[derive(Clone, Copy, Debug, Drop)]
pub enum Style {
    /// Nothing: all is written as it is.
    Plain,
    /// Each sign of a drawn image, by what it stands for; the next byte comes at this place.
    Signs(Place),
    /// What is written first, up to its first colon, in red.
    Head,
}

/// A writer that colours what another one gets.
#[derive(Drop)]
pub struct Painted<W> {
    out: W,
    style: Style,
}

impl<W> Painted<W> {
    /// It colours so what this writer gets.
    pub fn new(out: W, style: Style) -> Painted<W>
        ensures { result ≡ record { out = out; style = style } }
    {
        Painted { out, style }
    }
}

impl<W: Write> Write for Painted<W> {
    ghost contents = { λ painted. held W.contents painted.style painted.out };

    fn write(&mut self, buf: &[u8]) -> Result<usize> {
        match self.style {
            Style::Plain => self.out.write(buf),
            Style::Signs(place) => {
                self.style = Style::Signs(place_behind(place, buf));
                write_sign(&mut self.out, place, buf)
            }
            Style::Head => {
                self.style = Style::Plain;
                write_head(&mut self.out, buf)
            }
        }
    }

    fn flush(&mut self) -> Result<()> {
        self.out.flush()
    }
}

// The place behind the first of these bytes, which comes at that place.
fn place_behind(place: Place, buf: &[u8]) -> Place
    ensures { result ≡ place_behind place buf.now }
{
    match buf.first() {
        None => place,
        Some(byte) => next_place(place, *byte),
    }
}

fn next_place(place: Place, byte: u8) -> Place
    ensures { result ≡ next_place place byte }
{
    if byte == b'\n' {
        return Place::Row(0);
    }
    match place {
        Place::Text => Place::Text,
        Place::Row(0) if !is_of_label(byte) => Place::Text,
        Place::Row(column) if column < LABEL => Place::Row(column + 1),
        Place::Row(column) => Place::Row(column),
    }
}

// Whether a row may begin with it: a blank, or a digit.
fn is_of_label(byte: u8) -> bool
    ensures { result ≡ is_of_label byte }
{
    byte == b' ' || byte.is_ascii_digit()
}

// Whether a sign is coloured there.
fn has_sign(place: Place) -> bool
    ensures { result ≡ has_sign place }
{
    match place {
        Place::Row(column) => column >= LABEL,
        Place::Text => false,
    }
}

// Writes the first byte, a sign in its colour, and of no bytes nothing. How many of the bytes are written.
fn write_sign<W: Write>(out: &mut W, place: Place, buf: &[u8]) -> Result<usize>
    ensures count { IfOk result (λ count. count ≡ min 1 (length buf.now)) }
    ensures bytes { OnOk result (Appends (W.contents out.old) (W.contents out.new)
        (flat_map (painted place) (take 1 buf.now))) }
{
    let Some(sign) = buf.first() else {
        return Ok(0);
    };
    if has_sign(place) && *sign != b'\n' {
        out.write_all(&coloured(*sign))?;
    } else {
        out.write_all(&[*sign])?;
    }
    Ok(1)
}

// Writes the bytes up to the first colon in red; all of them as they are where there is none. How many of
// the bytes are written.
fn write_head<W: Write>(out: &mut W, buf: &[u8]) -> Result<usize>
    ensures { WritesAtMost result buf.now }
{
    let count = head_length(buf);
    if count == 0 {
        return out.write(buf);
    }
    out.write_all(b"\x1b[1;31m")?;
    out.write_all(buf.split_at(count).0)?;
    out.write_all(b"\x1b[0m")?;
    Ok(count)
}

// How many bytes a text has up to its first colon, with that; none where there is no colon.
fn head_length(text: &[u8]) -> usize
    ensures bound { result ≤ length text.now }
    ensures colon { 0 < result → slice_index text.now (result - 1) ≡ 58 }
{
    for (at, byte) in text.iter().enumerate() {
        if *byte == b':' {
            return at + 1;
        }
    }
    0
}

// A sign in its colour, with what sets that and what takes it back.
fn coloured(sign: u8) -> [u8; 12]
    ensures { result ≡ coloured sign }
{
    let (weight, colour) = tint_of(sign);
    [
        27, b'[', weight, b';', b'3', colour, b'm', sign, 27, b'[', b'0', b'm',
    ]
}

// The weight and the colour of a sign, as digits that a terminal reads: 0 plain, 1 bold, 2 faint; 1 red, 2
// green, 3 yellow, 5 magenta, 6 cyan, 7 white.
fn tint_of(sign: u8) -> (u8, u8)
    ensures { result ≡ tint_of sign }
{
    match sign {
        b'*' => (b'1', b'1'),
        b'0'..=b'9' => (b'0', b'2'),
        b'l' => (b'1', b'3'),
        b'a' => (b'0', b'5'),
        b'b' | b's' => (b'1', b'5'),
        b'i' => (b'0', b'6'),
        b'm' => (b'1', b'6'),
        _ => (b'2', b'7'),
    }
}
