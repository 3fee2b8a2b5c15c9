// Command lines from a reader.
ghost use Rattle.std.specs.Prelude.{◌≡◌, ◌≤◌, ◌<◌, ◌↔◌, length, map, IfOk, IfSome, string_bytes};
ghost use Rattle.std.specs.Result.{IsErrOf};
ghost use Rattle.std.specs.Str.{IsUtf8};
ghost use Rattle.cmd.specs.Lines.{lines_in, words_in, script_in};

use crate::input::{InputFault, input_unread};
use std::alloc::{AllocError, Global};
use std::io::Read;

/// The most bytes of the command lines.
pub const LIMIT: usize = 65_536;

/// The text that a reader gives, up to its end.
///
/// # Errors
///
/// `TooLarge` where it has more than `LIMIT` bytes, `Read` where it can't be read or isn't UTF-8,
/// `NoMemory` where memory is refused.
pub fn read_text<I: Read + Drop>(alloc: Global, input: I) -> Result<String, InputFault>
    ensures { IfOk result (λ text. IfSome (I.remaining input)
        (λ bytes. (length bytes ≤ LIMIT) × (string_bytes text ≡ bytes))) }
{
    let mut bytes = Vec::new(alloc);
    input
        .take(LIMIT as u64 + 1)
        .read_to_end(&mut bytes)
        .map_err(|error| input_unread(error))?;
    text_of(bytes)
}

fn text_of(bytes: Vec<u8>) -> Result<String, InputFault>
    ensures ok { IfOk result (λ text. string_bytes text ≡ bytes.items) }
    ensures large { IsErrOf result InputFault.TooLarge ↔ (LIMIT < length bytes.items) }
    ensures read { IsErrOf result InputFault.Read
        ↔ ((length bytes.items ≤ LIMIT) × (¬ (IsUtf8 bytes.items))) }
{
    if bytes.len() > LIMIT {
        return Err(InputFault::TooLarge);
    }
    String::from_utf8(bytes).map_err(|_| InputFault::Read)
}

/// The words of each line of a text, which has one space between two words; an empty line is none.
///
/// # Errors
///
/// `AllocError` where memory is refused.
pub fn script_of<'a>(alloc: Global, text: &'a str) -> Result<Vec<Vec<&'a str>>, AllocError>
    ensures { IfOk result (λ script. map (λ words. map (λ word. word.now) words.items) script.items
        ≡ script_in (lines_in text.now)) }
{
    let lines = lines_of(alloc, text)?;
    words_of_lines(alloc, lines.as_slice())
}

// The words of each of these lines that isn't empty.
fn words_of_lines<'a>(alloc: Global, lines: &[&'a str]) -> Result<Vec<Vec<&'a str>>, AllocError>
    ensures { IfOk result (λ script. map (λ words. map (λ word. word.now) words.items) script.items
        ≡ script_in (map (λ line. line.now) lines.now)) }
{
    let mut script = Vec::new(alloc);
    for line in lines {
        if !line.is_empty() {
            script.push(words_of(alloc, line)?)?;
        }
    }
    Ok(script)
}

// The lines of a text. The last may lack its line feed, and is empty otherwise.
fn lines_of<'a>(alloc: Global, text: &'a str) -> Result<Vec<&'a str>, AllocError>
    ensures { IfOk result (λ lines. map (λ line. line.now) lines.items ≡ lines_in text.now) }
{
    text.split('\n').collect(alloc)
}

// The words of a line, which has one space between two words.
fn words_of<'a>(alloc: Global, line: &'a str) -> Result<Vec<&'a str>, AllocError>
    ensures { IfOk result (λ words. map (λ word. word.now) words.items ≡ words_in line.now) }
{
    line.split(' ').collect(alloc)
}
