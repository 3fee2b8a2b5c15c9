// The line of a script and the word of a schedule that a refusal is about.
ghost use Rattle.std.specs.Prelude.{◌≡◌, IfOk, IfSome, option_map, slice_get, string_bytes};
ghost use Rattle.scripts.specs.Schedule.{words_of};
ghost use Rattle.scripts.specs.Script.{lines_of};
ghost use Rattle.second_lines.specs.Texts.{shown_of, visible_of};

use crate::given::Given;
use crate::paths::bytes_of;
use crate::quoting::quoted;
use scripts::{SCHEDULE_LIMIT, SCRIPT_LIMIT, processes, read_script};
use std::alloc::{AllocError, Global};
use std::rt::Files;

// The most bytes of a line or a word that are told.
const MOST_TOLD: usize = 60;

// What a line of a script has to be.
const LINE_FORMS: &str =
    "P create T, P write I OFF HEX, P fill I OFF N XX, P read I OFF N, P trunc I, P links I N, P resize I N, P remove I or P stat I";

// The line of this number, from 1, of the script at a path, and what a line has to be.
pub fn bad_line<R: Files + AllocGlobal>(rt: &R, path: &str, number: u32) -> Option<String> {
    let alloc = rt.alloc();
    let text = bytes_of(rt, path, SCRIPT_LIMIT as u64)?;
    let line = line_at(text.as_slice(), number.checked_sub(1)? as usize)?;
    let told = shown(alloc, line)?;
    let rest = rest_sign(line);
    let forms = LINE_FORMS;
    let path = quoted(alloc, path)?;
    format!(in alloc; "{path}:{number}: {told}{rest} (expected {forms})").ok()
}

// The word of this number, from 1, of the schedule at a path, and what a word has to be.
pub fn bad_word<R: Files + AllocGlobal>(
    rt: &R,
    given: &Given<'_>,
    path: &str,
    number: u32,
) -> Option<String> {
    let alloc = rt.alloc();
    let text = bytes_of(rt, path, SCHEDULE_LIMIT as u64)?;
    let word = word_at(text.as_slice(), number.checked_sub(1)? as usize)?;
    let told = shown(alloc, word)?;
    let rest = rest_sign(word);
    let below = processes_of(rt, given.script?)?;
    let path = quoted(alloc, path)?;
    format!(in alloc;
        "{path}: word {number}: {told}{rest} (expected P, P! or S, P below {below})"
    ).ok()
}

// How many processes the script at a path has.
fn processes_of<R: Files + AllocGlobal>(rt: &R, path: &str) -> Option<u32> {
    let text = bytes_of(rt, path, SCRIPT_LIMIT as u64)?;
    let Ok(tasks) = read_script(rt.alloc(), text.as_slice()) else {
        return None;
    };
    Some(processes(tasks.as_slice()))
}

// The line of that place, from 0, if there is one.
fn line_at(text: &[u8], place: usize) -> Option<&[u8]>
    ensures { option_map (λ line. line.now) result ≡ slice_get (lines_of text.now) place }
{
    text.split(|byte| *byte == b'\n').nth(place)
}

// The word of that place, from 0, if there is one.
fn word_at(text: &[u8], place: usize) -> Option<&[u8]>
    ensures { option_map (λ word. word.now) result ≡ slice_get (words_of text.now) place }
{
    text.split(|byte| *byte == b' ' || *byte == b'\n')
        .filter(|part| !part.is_empty())
        .nth(place)
}

// The first bytes, as far as they are told: one that can't be seen is a question mark.
fn shown(alloc: Global, bytes: &[u8]) -> Option<String>
    ensures { IfSome result (λ text. string_bytes text ≡ shown_of bytes.now) }
{
    match seen(alloc, bytes) {
        Ok(seen) => String::from_utf8(seen).ok(),
        Err(_) => None,
    }
}

fn seen(alloc: Global, bytes: &[u8]) -> Result<Vec<u8>, AllocError>
    ensures { IfOk result (λ seen. seen.items ≡ shown_of bytes.now) }
{
    bytes
        .iter()
        .take(MOST_TOLD)
        .map(|byte| visible(*byte))
        .collect(alloc)
}

// The byte, or a question mark in its place.
fn visible(byte: u8) -> u8
    ensures { result ≡ visible_of byte }
{
    if byte >= b' ' && byte < 127 {
        byte
    } else {
        b'?'
    }
}

// What stands behind bytes of which the last aren't told.
fn rest_sign(bytes: &[u8]) -> &'static str {
    if bytes.len() > MOST_TOLD { " .." } else { "" }
}
