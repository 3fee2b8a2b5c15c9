// Texts of help in lines that a terminal of 80 columns shows whole.
ghost use Rattle.std.specs.Prelude.{◌≡◌, ◌<◌, ◌++◌, ◌∷◌, [], IfOk, IfSome, OnOk, length, slice_index, string_bytes};
ghost use Rattle.cli.specs.Wrapping.{marks_of};

use std::alloc::{AllocError, Global};

// The most columns of a line.
const WIDTH: usize = 79;

// Where the next byte comes: its column, and that at which this line would go on below.
#[derive(Clone, Copy)]
struct Place {
    column: usize,
    indent: usize,
}

/// A text in which lines of more than 79 columns are broken at blanks, as far as they have some: what a
/// row of a table says goes on below itself. Only blanks and line feeds differ. None where memory is
/// refused.
pub(crate) fn wrapped(alloc: Global, text: &str) -> Option<String>
    ensures { IfSome result (λ told. marks_of (string_bytes told) ≡ marks_of text.now) }
{
    match wrapped_bytes(alloc, text.as_bytes()) {
        Ok(bytes) => String::from_utf8(bytes).ok(),
        Err(_) => None,
    }
}

fn wrapped_bytes(alloc: Global, text: &[u8]) -> Result<Vec<u8>, AllocError>
    ensures { IfOk result (λ told. marks_of told.items ≡ marks_of text.now) }
{
    let mut told = Vec::new(alloc);
    let mut place = begun(text);
    for at in 0..text.len() {
        place = add(text, at, place, &mut told)?;
    }
    Ok(told)
}

// Adds the byte there, or, for a blank with whose next word the line would be too wide, a line feed and the
// next line's margin. The place behind it.
fn add(text: &[u8], at: usize, place: Place, told: &mut Vec<u8>) -> Result<Place, AllocError>
    requires { at < length text.now }
    ensures { OnOk result (marks_of told.new.items
        ≡ marks_of told.old.items ++ marks_of (slice_index text.now at ∷ [])) }
{
    let byte = text[at];
    let rest = text.split_at(at + 1).1;
    if byte == b'\n' {
        told.push(byte)?;
        return Ok(begun(rest));
    }
    let ends = place
        .column
        .saturating_add(1)
        .saturating_add(word_length(rest));
    if byte == b' ' && place.column > place.indent && ends > WIDTH {
        add_margin(place.indent, told)?;
        return Ok(Place {
            column: place.indent,
            indent: place.indent,
        });
    }
    told.push(byte)?;
    Ok(Place {
        column: place.column.saturating_add(1),
        indent: place.indent,
    })
}

// Adds a line feed, and so many blanks.
fn add_margin(indent: usize, told: &mut Vec<u8>) -> Result<(), AllocError>
    ensures { OnOk result (marks_of told.new.items ≡ marks_of told.old.items) }
{
    told.push(b'\n')?;
    for _ in 0..indent {
        told.push(b' ')?;
    }
    Ok(())
}

// The bytes up to the next blank or line feed.
fn word_length(text: &[u8]) -> usize {
    let mut count: usize = 0;
    for byte in text {
        if *byte == b' ' || *byte == b'\n' {
            return count;
        }
        count = count.saturating_add(1);
    }
    count
}

// The place at the beginning of a line.
fn begun(line: &[u8]) -> Place {
    Place {
        column: 0,
        indent: indent_of(line),
    }
}

// The column at which a row says something of its word: behind two blanks, where there are some. Else that of
// the line's first mark.
fn indent_of(line: &[u8]) -> usize {
    let mut margin = None;
    let mut blanks: usize = 0;
    for (at, byte) in line.iter().enumerate() {
        if *byte == b'\n' {
            break;
        } else if *byte == b' ' {
            blanks = blanks.saturating_add(1);
            continue;
        }
        match margin {
            None => margin = Some(at),
            Some(_) if blanks >= 2 => return at,
            Some(_) => {}
        }
        blanks = 0;
    }
    margin.unwrap_or(0)
}
