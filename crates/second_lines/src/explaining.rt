// What more there is to say of a refusal.
use crate::faulty::wrong_inode;
use crate::fields::{wrong_geometry, wrong_magic};
use crate::given::Given;
use crate::paths::{length_of, opening_error, reading_error, whole_error, with_phrase, with_words};
use crate::phrases::{fault_phrase, input_phrase, names_phrase, recover_phrase, run_phrase};
use crate::quoting::quoted;
use crate::room::{room_to_copy, room_to_put, too_big};
use crate::standing::standing;
use crate::texts::{bad_line, bad_word};
use layout::{MOST_BLOCKS, meta_count};
use messages::{MOST_COLUMNS, print_last};
use scripts::{SCHEDULE_LIMIT, SCRIPT_LIMIT};
use std::alloc::Global;
use std::fs::metadata;
use std::io::{ErrorKind, Write};
use std::path::Path;
use std::rt::Files;

// A refusal, as its line tells it.
#[derive(Clone, Copy)]
struct Refusal<'a> {
    layer: &'a str,
    number: u32,
    name: &'a str,
    argument: Option<u32>,
}

/// Says more of a refusal, in one line, as far as looking once more tells it and memory is given: the
/// path in quotes, with the system's words; the number of a superblock or an inode, the line or the word
/// that is objected to, with what it has to be; the blocks that are needed, and those that are free;
/// where bytes were being put, which files have them; which disk failed; where a check of stops met a
/// mismatch; and how much is drawn.
///
/// By its code it reads files, and writes to `err` alone. What it finds is so when it looks.
pub fn explain<R: Files + AllocGlobal, E: Write>(
    rt: &R,
    given: &Given<'_>,
    line: &[u8],
    err: &mut E,
) {
    if let Some(text) = explanation(rt, given, line) {
        let _unwritten = print_last(err, format_args!("{text}\n"));
    }
}

fn explanation<R: Files + AllocGlobal>(rt: &R, given: &Given<'_>, line: &[u8]) -> Option<String> {
    let refusal = refusal_in(line)?;
    match of_layer(rt, given, refusal) {
        Some(text) => Some(text),
        None => of_memory(rt.alloc(), given, refusal.name),
    }
}

fn of_layer<R: Files + AllocGlobal>(
    rt: &R,
    given: &Given<'_>,
    refusal: Refusal<'_>,
) -> Option<String> {
    match refusal.layer {
        "file" => of_file(rt, given, refusal.number),
        "check" => of_image(rt, given, refusal),
        "script" => of_script(rt, given, refusal),
        "schedule" => of_schedule(rt, given, refusal),
        "cat" | "show" => of_number(rt, given, refusal.number),
        "put" => of_put(rt, given, refusal.number),
        "copy" => of_copy(rt, given, refusal.number),
        "mkfs" => of_making(rt, given, refusal.number),
        "disk" => of_disk(rt, given, refusal),
        "names" => of_names(rt.alloc(), given, refusal),
        "recover" | "open" => of_opening(rt, given, refusal),
        "output" => of_output(rt, given),
        "run" => with_phrase(rt.alloc(), given.image?, run_phrase(refusal.number)?),
        "input" => bare(rt.alloc(), input_phrase(refusal.number)?),
        "stops" => of_stops(rt, given, refusal.number),
        "picture" => of_picture(rt, given, refusal.number),
        _ => None,
    }
}

// Of a path in an image, or of the image's files.
fn of_names(alloc: Global, given: &Given<'_>, refusal: Refusal<'_>) -> Option<String> {
    match refusal.number {
        21 => miscounted(alloc, given.image?, refusal.argument?),
        13 => with_phrase(alloc, given.image?, names_phrase(13)?),
        number => match given.into {
            Some(into) => of_two(alloc, given.name?, into, number),
            None => with_phrase(alloc, given.name.or(given.image)?, names_phrase(number)?),
        },
    }
}

// Of a file and a path that it was to get: some are refusals of one of them alone.
fn of_two(alloc: Global, name: &str, into: &str, number: u32) -> Option<String> {
    let phrase = names_phrase(number)?;
    match number {
        3 | 20 => with_phrase(alloc, name, phrase),
        4 | 9 => with_phrase(alloc, into, phrase),
        _ => {
            let name = quoted(alloc, name)?;
            let into = quoted(alloc, into)?;
            format!(in alloc; "{name} to {into}: {phrase}").ok()
        }
    }
}

// Of a file whose count of links is wrong.
fn miscounted(alloc: Global, image: &str, number: u32) -> Option<String> {
    let path = quoted(alloc, image)?;
    format!(in alloc;
        "{path}: file {number} has not as many links as names; xvnames recount {path} puts that right"
    ).ok()
}

// Of memory that was refused: all that is known is for what.
fn of_memory(alloc: Global, given: &Given<'_>, name: &str) -> Option<String> {
    if name != "NoMemory" {
        return None;
    }
    let path = given.image.or(given.made).or(given.script)?;
    with_phrase(alloc, path, "memory was refused")
}

// What is said where there is no path.
fn bare(alloc: Global, phrase: &str) -> Option<String> {
    format!(in alloc; "{phrase}").ok()
}

// The line of a refusal: `PROGRAM: LAYER N NAME`, and a number behind that where it names something.
fn refusal_in(line: &[u8]) -> Option<Refusal<'_>> {
    let text = str::from_utf8(line).ok()?;
    let mut words = text.trim_end().split(' ');
    let _program = words.next()?;
    let layer = words.next()?;
    let number = words.next()?.parse::<u32>().ok()?;
    let name = words.next()?;
    let argument = match words.next() {
        Some(word) => word.parse::<u32>().ok(),
        None => None,
    };
    Some(Refusal {
        layer,
        number,
        name,
        argument,
    })
}

// Of the file of an image, which can't be used.
fn of_file<R: Files + AllocGlobal>(rt: &R, given: &Given<'_>, number: u32) -> Option<String> {
    match number {
        1 => unopened(rt, given),
        2 => of_length(rt, given.image?),
        4 => with_phrase(
            rt.alloc(),
            given.image.or(given.made)?,
            "another program has it; --wait waits for that",
        ),
        5 => there_already(rt, given),
        6 => with_phrase(
            rt.alloc(),
            given.image.or(given.made)?,
            "the system gives no lock of it; --no-lock goes without",
        ),
        _ => None,
    }
}

// Of a file that can't be made, since something is at its path, or where an image is made first.
fn there_already<R: Files + AllocGlobal>(rt: &R, given: &Given<'_>) -> Option<String> {
    match given.got {
        Some(path) => with_phrase(rt.alloc(), path, "it is there already"),
        None => with_phrase(
            rt.alloc(),
            given.made?,
            "what has this name with .xvfs-new behind it is no file that was left",
        ),
    }
}

fn of_length<R: Files + AllocGlobal>(rt: &R, path: &str) -> Option<String> {
    let length = length_of(rt, path)?;
    let path = quoted(rt.alloc(), path)?;
    format!(in rt.alloc(); "{path}: {length} bytes, expected 1 to 8191 blocks of 1024").ok()
}

// Of a file that can't be opened, or made.
fn unopened<R: Files + AllocGlobal>(rt: &R, given: &Given<'_>) -> Option<String> {
    if let Some(path) = given.image {
        if let Some(error) = opening_error(rt, path, given.changes) {
            return with_words(rt.alloc(), path, error);
        }
    }
    match given.made {
        Some(path) => unmade(rt, path),
        None => with_phrase(rt.alloc(), given.image?, "it can't be read"),
    }
}

// Of a file that can't be made at a path.
fn unmade<R: Files + AllocGlobal>(rt: &R, path: &str) -> Option<String> {
    if let Some(error) = opening_error(rt, path, true) {
        if error.kind() != ErrorKind::NotFound {
            return with_words(rt.alloc(), path, error);
        }
    }
    match metadata(rt, folder_of(path)) {
        Ok(_found) => with_phrase(rt.alloc(), path, "no file can be made there"),
        Err(error) => with_words(rt.alloc(), path, error),
    }
}

// The path of the folder that a path leads through last.
fn folder_of(path: &str) -> &str {
    match Path::new(path).parent() {
        Some(folder) if !folder.as_str().is_empty() => folder.as_str(),
        _ => ".",
    }
}

// Of an image that has a fault.
fn of_image<R: Files + AllocGlobal>(
    rt: &R,
    given: &Given<'_>,
    refusal: Refusal<'_>,
) -> Option<String> {
    let path = given.image?;
    match refusal.number {
        1 => wrong_magic(rt, path, given.converts),
        2 => wrong_geometry(rt, path, given.converts),
        4..=6 => of_inode(rt, path, refusal.number, refusal.argument?),
        10 => unread(rt, path),
        number => with_phrase(rt.alloc(), path, fault_phrase(number)?),
    }
}

// Of an inode that has a fault.
fn of_inode<R: Files + AllocGlobal>(rt: &R, path: &str, fault: u32, number: u32) -> Option<String> {
    match wrong_inode(rt, path, fault, number) {
        Some(text) => Some(text),
        None => with_phrase(rt.alloc(), path, fault_phrase(fault)?),
    }
}

// Of an image in whose reading the disk failed.
fn unread<R: Files + AllocGlobal>(rt: &R, path: &str) -> Option<String> {
    match whole_error(rt, path) {
        Some(error) => with_words(rt.alloc(), path, error),
        None => with_phrase(rt.alloc(), path, "a read of it failed"),
    }
}

fn of_script<R: Files + AllocGlobal>(
    rt: &R,
    given: &Given<'_>,
    refusal: Refusal<'_>,
) -> Option<String> {
    let path = given.script?;
    match refusal.number {
        1 => bad_line(rt, path, refusal.argument?),
        2 => match too_long(rt, path, SCRIPT_LIMIT as u64) {
            Some(text) => Some(text),
            None => with_phrase(rt.alloc(), path, "it has more than 10000 operations"),
        },
        4 => with_words(rt.alloc(), path, reading_error(rt, path)?),
        _ => None,
    }
}

// Of a file that has more than so many bytes. Of a pipe nobody knows how many it had.
fn too_long<R: Files + AllocGlobal>(rt: &R, path: &str, most: u64) -> Option<String> {
    let Some(length) = length_of(rt, path) else {
        return with_phrase(rt.alloc(), path, "it has too many bytes or operations");
    };
    if length <= most {
        return None;
    }
    let path = quoted(rt.alloc(), path)?;
    format!(in rt.alloc(); "{path}: {length} bytes, expected {most} at most").ok()
}

fn of_schedule<R: Files + AllocGlobal>(
    rt: &R,
    given: &Given<'_>,
    refusal: Refusal<'_>,
) -> Option<String> {
    let path = given.schedule?;
    match refusal.number {
        1 => bad_word(rt, given, path, refusal.argument?),
        2 => too_long(rt, path, SCHEDULE_LIMIT as u64),
        4 => with_words(rt.alloc(), path, reading_error(rt, path)?),
        _ => None,
    }
}

// Of a script of which some stop left something else than it has to.
fn of_stops<R: Files + AllocGlobal>(rt: &R, given: &Given<'_>, number: u32) -> Option<String> {
    match number {
        1 => with_phrase(rt.alloc(), given.script?, given.mismatch?),
        _ => None,
    }
}

// Of a picture that isn't drawn. Only where memory was refused may the run not be made, either.
fn of_picture<R: Files + AllocGlobal>(rt: &R, given: &Given<'_>, number: u32) -> Option<String> {
    let path = given.made?;
    let alloc = rt.alloc();
    let most = MOST_COLUMNS;
    match number {
        1 => with_phrase(alloc, path, "memory was refused for what it draws"),
        2 => {
            let path = quoted(alloc, path)?;
            format!(in alloc;
                "{path}: at most 10000 steps, {most} drawn, or stops; all else was done"
            ).ok()
        }
        3 => with_phrase(alloc, path, "a write to it failed; all else was done"),
        _ => None,
    }
}

// Of a number that no file of an image has.
fn of_number<R: Files + AllocGlobal>(rt: &R, given: &Given<'_>, number: u32) -> Option<String> {
    if number != 1 {
        return None;
    }
    let path = quoted(rt.alloc(), given.image?)?;
    let inum = given.inum?;
    format!(in rt.alloc(); "{path}: no file has the number {inum}").ok()
}

// Of bytes that aren't put.
fn of_put<R: Files + AllocGlobal>(rt: &R, given: &Given<'_>, number: u32) -> Option<String> {
    match number {
        2 => with_phrase(rt.alloc(), given.image?, "each number has a file"),
        3 => too_big(rt, given),
        4 => match room_to_put(rt, given) {
            Some(text) => Some(text),
            None => standing(rt, given),
        },
        5 => standing(rt, given),
        6 => with_words(rt.alloc(), given.file?, reading_error(rt, given.file?)?),
        7 => with_phrase(
            rt.alloc(),
            given.image?,
            "the file is a directory or a device",
        ),
        _ => of_number(rt, given, number),
    }
}

// Of the disk of an image, which failed. Where bytes were being put, which files have them.
fn of_disk<R: Files + AllocGlobal>(
    rt: &R,
    given: &Given<'_>,
    refusal: Refusal<'_>,
) -> Option<String> {
    if let Some(text) = standing(rt, given) {
        return Some(text);
    }
    let path = given.image.or(given.made)?;
    match (refusal.number, refusal.argument) {
        (1, Some(block)) => {
            let path = quoted(rt.alloc(), path)?;
            format!(in rt.alloc(); "{path}: a read or a write of block {block} failed").ok()
        }
        (2, _) => with_phrase(rt.alloc(), path, "a sync of it failed"),
        _ => None,
    }
}

// Of an image that isn't recovered, or over which no kernel is opened.
fn of_opening<R: Files + AllocGlobal>(
    rt: &R,
    given: &Given<'_>,
    refusal: Refusal<'_>,
) -> Option<String> {
    match standing(rt, given) {
        Some(text) => Some(text),
        None => with_phrase(
            rt.alloc(),
            given.image.or(given.made)?,
            recover_phrase(refusal.name)?,
        ),
    }
}

// Of an output that can't be written.
fn of_output<R: Files + AllocGlobal>(rt: &R, given: &Given<'_>) -> Option<String> {
    match standing(rt, given) {
        Some(text) => Some(text),
        None => bare(rt.alloc(), "standard output: a write to it failed"),
    }
}

// Of an image that isn't copied.
fn of_copy<R: Files + AllocGlobal>(rt: &R, given: &Given<'_>, number: u32) -> Option<String> {
    match number {
        2 => with_phrase(rt.alloc(), given.image?, "it is of the second form"),
        4 => room_to_copy(rt, given),
        6 => of_two_disks(rt, given),
        7 => with_phrase(
            rt.alloc(),
            given.made?,
            "it is there, or another program makes it",
        ),
        9 => with_phrase(
            rt.alloc(),
            given.image?,
            "its log is not empty: its own kernel clears it as it boots",
        ),
        10 => with_phrase(
            rt.alloc(),
            given.made?,
            "its log has to be of 11 to 31 blocks",
        ),
        _ => None,
    }
}

// Of a copy in which one of two disks failed: the old one, where it can't be read now either.
fn of_two_disks<R: Files + AllocGlobal>(rt: &R, given: &Given<'_>) -> Option<String> {
    let old = given.image?;
    if let Some(error) = whole_error(rt, old) {
        return with_words(rt.alloc(), old, error);
    }
    let old = quoted(rt.alloc(), old)?;
    let new = quoted(rt.alloc(), given.made?)?;
    format!(in rt.alloc();
        "{new}: a write or a sync of it failed, as all of {old} can be read"
    ).ok()
}

// Of an image that isn't made.
fn of_making<R: Files + AllocGlobal>(rt: &R, given: &Given<'_>, number: u32) -> Option<String> {
    let path = given.made?;
    match number {
        1 => of_size(rt, given, path),
        2 => {
            let ninodes = given.ninodes?;
            let path = quoted(rt.alloc(), path)?;
            format!(in rt.alloc(); "{path}: {ninodes} inode numbers, expected 2 to 1024").ok()
        }
        3 => with_phrase(rt.alloc(), path, "a write or a sync of the new file failed"),
        _ => None,
    }
}

fn of_size<R: Files + AllocGlobal>(rt: &R, given: &Given<'_>, path: &str) -> Option<String> {
    if given.converts {
        return with_phrase(
            rt.alloc(),
            path,
            "its blocks have to be the old ones and those of its log, or more, and at most 8191",
        );
    }
    let Some(ninodes) = given.ninodes else {
        return with_phrase(
            rt.alloc(),
            path,
            "its blocks have to be more than those before the data, and at most 8191",
        );
    };
    let size = given.size?;
    let least = meta_count(MOST_BLOCKS, ninodes).saturating_add(1);
    let path = quoted(rt.alloc(), path)?;
    format!(in rt.alloc(); "{path}: {size} blocks, expected {least} to 8191").ok()
}
