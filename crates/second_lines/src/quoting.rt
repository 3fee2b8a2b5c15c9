// Paths as a shell reads them, with no byte that a terminal obeys.
ghost use Rattle.std.specs.Prelude.{◌≡◌, ◌++◌, false, not, All, IfOk, IfSome, OnOk, string_bytes};
ghost use Rattle.std.specs.List.{list_any};
ghost use Rattle.second_lines.specs.Quoting.{IsSeen, code_of, digit_of, is_bare, is_seen, mark_of, piece_of, quoted_of, rest_of};

use std::alloc::{AllocError, Global};

// A path as `ls` shows it on a terminal: in single quotes where a shell would read it in another way,
// and each byte that can't be seen, or isn't of ASCII, by its number. None where memory is refused.
pub fn quoted(alloc: Global, path: &str) -> Option<String>
    ensures quoted { IfSome result (λ text. string_bytes text ≡ quoted_of path.now) }
    ensures seen { IfSome result (λ text. All IsSeen (string_bytes text)) }
{
    match quoted_bytes(alloc, path.as_bytes()) {
        Ok(bytes) => String::from_utf8(bytes).ok(),
        Err(_) => None,
    }
}

fn quoted_bytes(alloc: Global, path: &[u8]) -> Result<Vec<u8>, AllocError>
    ensures { IfOk result (λ text. text.items ≡ quoted_of path.now) }
{
    let mut text = Vec::new(alloc);
    if path.is_empty() || has_marks(path) {
        text.push(b'\'')?;
        add_rest(path, &mut text)?;
    } else {
        text.extend_from_slice(path)?;
    }
    Ok(text)
}

// Whether a byte is among them with which no word of a shell is written without quotes.
fn has_marks(path: &[u8]) -> bool
    ensures { result ≡ list_any (λ byte. not (is_bare byte)) path.now }
{
    path.iter().any(|byte| !is_bare(*byte))
}

// Adds what stands for these bytes behind an opening quote, with the closing one.
fn add_rest(path: &[u8], text: &mut Vec<u8>) -> Result<(), AllocError>
    ensures { OnOk result (text.new.items ≡ text.old.items ++ rest_of false path.now) }
{
    let mut coded = false;
    for byte in path {
        add_piece(coded, *byte, text)?;
        coded = !is_seen(*byte);
    }
    text.push(b'\'')?;
    Ok(())
}

// Adds what stands for a byte, behind one that is told by its number, or not.
fn add_piece(coded: bool, byte: u8, text: &mut Vec<u8>) -> Result<(), AllocError>
    ensures { OnOk result (text.new.items ≡ text.old.items ++ piece_of coded byte) }
{
    if byte == b'\'' {
        text.extend_from_slice(b"'\\''")
    } else if is_seen(byte) {
        text.extend_from_slice(mark_of(coded, b"''"))?;
        text.push(byte)?;
        Ok(())
    } else {
        text.extend_from_slice(mark_of(!coded, b"'$'"))?;
        text.extend_from_slice(&code_of(byte))
    }
}

// What is added where it is needed.
fn mark_of(needed: bool, mark: &[u8]) -> &[u8]
    ensures { result.now ≡ mark_of needed mark.now }
{
    if needed { mark } else { &[] }
}

// A byte by its number, of eight digits.
fn code_of(byte: u8) -> [u8; 4]
    ensures { result ≡ code_of byte }
{
    [
        b'\\',
        digit_of(byte / 64),
        digit_of(byte / 8),
        digit_of(byte),
    ]
}

// The last of a number's eight digits.
fn digit_of(number: u8) -> u8
    ensures { result ≡ digit_of number }
{
    b'0' + number % 8
}

// Whether it is a byte of ASCII's that can be seen.
fn is_seen(byte: u8) -> bool
    ensures { result ≡ is_seen byte }
{
    byte >= b' ' && byte < 127
}

// Whether a shell reads it as it is.
fn is_bare(byte: u8) -> bool
    ensures { result ≡ is_bare byte }
{
    byte.is_ascii_alphanumeric() || b"_./-+,:@%".contains(&byte)
}
