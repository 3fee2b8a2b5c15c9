// Bytes, as hexadecimal digits: those that were read, and those of a block.
ghost use Rattle.std.specs.Prelude.{◌≡◌, ◌≤◌, ◌*◌, OnOk, length};
ghost use Rattle.std.specs.Io.KnownBytes.{Appends};
ghost use Rattle.hex.specs.Hex.{encode_lower};
ghost use Rattle.json_lines.specs.Blocks.{block_field, kept_count, without_last_zeroes};
ghost use Rattle.json_lines.specs.Fields.{bytes_field};

use hex::encode_to_slice;
use messages::{Unwritten, print, write_bytes};
use std::io::Write;

// The most bytes whose digits are made at once.
const PIECE: usize = 256;

/// Writes a field behind another, with bytes as hexadecimal digits.
#[tactic(auto, unfolding(crate::specs::Fields::bytes_field))]
pub fn print_bytes<O: Write>(out: &mut O, bytes: &[u8]) -> Result<(), Unwritten>
    ensures ok { OnOk result (Appends (O.contents out.old) (O.contents out.new)
        (bytes_field bytes.now)) }
{
    print(out, ",\"bytes\":\"")?;
    print_digits(out, bytes)?;
    print(out, "\"")
}

/// Writes a field behind another, with the bytes of a block as hexadecimal digits: the zeroes at its
/// end are left out.
pub fn print_block<O: Write>(out: &mut O, bytes: &[u8]) -> Result<(), Unwritten>
    ensures ok { OnOk result (Appends (O.contents out.old) (O.contents out.new)
        (block_field bytes.now)) }
{
    print_bytes(out, without_last_zeroes(bytes))
}

// Bytes without the zeroes at their end.
fn without_last_zeroes(bytes: &[u8]) -> &[u8]
    ensures { result.now ≡ without_last_zeroes bytes.now }
{
    &bytes[..kept_count(bytes)]
}

// How many bytes are left without the zeroes at their end.
fn kept_count(bytes: &[u8]) -> usize
    ensures count { result ≡ kept_count bytes.now (length bytes.now) }
    ensures inside { result ≤ length bytes.now }
{
    let mut kept = 0;
    for i in 0..bytes.len() {
        if bytes[i] != 0 {
            kept = i + 1;
        }
    }
    kept
}

// Writes the hexadecimal digits of bytes, piece by piece.
fn print_digits<O: Write>(out: &mut O, bytes: &[u8]) -> Result<(), Unwritten>
    ensures ok { OnOk result (Appends (O.contents out.old) (O.contents out.new)
        (encode_lower bytes.now)) }
{
    let mut place = [0u8; 2 * PIECE];
    for piece in bytes.chunks(PIECE) {
        write_bytes(out, digits_of(piece, &mut place))?;
    }
    Ok(())
}

// The digits of these bytes, which are made in a place that has room for them.
fn digits_of<'a>(bytes: &[u8], place: &'a mut [u8]) -> &'a [u8]
    requires { 2 * length bytes.now ≤ length place.old }
    ensures { result.now ≡ encode_lower bytes.now }
{
    let digits = &mut place[..2 * bytes.len()];
    if encode_to_slice(bytes, digits).is_err() {
        unreachable!();
    }
    digits
}
