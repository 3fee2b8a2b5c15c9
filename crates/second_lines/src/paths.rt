// What the system says of paths, which are looked at once more. Nothing here writes.
use crate::quoting::quoted;
use blocks::BLOCK_SIZE;
use layout::MOST_BLOCKS;
use std::alloc::Global;
use std::fs::{File, OpenOptions, metadata};
use std::io;
use std::io::Read;
use std::rt::Files;

// Why the file of an image can't be opened, as a command opens it: to be changed, or to be looked at,
// which a plain file that may only be read allows. None where it can.
pub fn opening_error<R: Files>(rt: &R, path: &str, changes: bool) -> Option<io::Error> {
    let error = OpenOptions::new()
        .read(true)
        .write(true)
        .open(rt, path)
        .err()?;
    if changes || !is_plain(rt, path) {
        return Some(error);
    }
    File::open(rt, path).err()
}

// Why a file can't be read. None where it can, or may not be tried, as a pipe would wait for its
// writer.
pub fn reading_error<R: Files>(rt: &R, path: &str) -> Option<io::Error> {
    let found = match metadata(rt, path) {
        Ok(found) => found,
        Err(error) => return Some(error),
    };
    if !found.is_file() && !found.is_dir() {
        return None;
    }
    match File::open(rt, path) {
        Ok(mut file) => {
            let mut byte = [0; 1];
            file.read(&mut byte).err()
        }
        Err(error) => Some(error),
    }
}

// The first bytes of a plain file, at most so many. Another can't be read once more.
pub fn bytes_of<R: Files + AllocGlobal>(rt: &R, path: &str, most: u64) -> Option<Vec<u8>> {
    if !is_plain(rt, path) {
        return None;
    }
    let file = File::open(rt, path).ok()?;
    let mut bytes = Vec::new(rt.alloc());
    file.take(most).read_to_end(&mut bytes).ok()?;
    Some(bytes)
}

// Why a plain file can't be read to its end, as far as an image may have blocks.
pub fn whole_error<R: Files>(rt: &R, path: &str) -> Option<io::Error> {
    if !is_plain(rt, path) {
        return None;
    }
    let mut file = match File::open(rt, path) {
        Ok(file) => file,
        Err(error) => return Some(error),
    };
    let mut block = [0; BLOCK_SIZE];
    for _ in 0..MOST_BLOCKS {
        match file.read(&mut block) {
            Ok(0) => return None,
            Ok(_) => {}
            Err(error) => return Some(error),
        }
    }
    None
}

// How many bytes a plain file has.
pub fn length_of<R: Files>(rt: &R, path: &str) -> Option<u64> {
    let found = metadata(rt, path).ok()?;
    if found.is_file() {
        Some(found.len())
    } else {
        None
    }
}

fn is_plain<R: Files>(rt: &R, path: &str) -> bool {
    matches!(metadata(rt, path), Ok(found) if found.is_file())
}

// A path in quotes, and what is to be said of it.
pub fn with_phrase(alloc: Global, path: &str, phrase: &str) -> Option<String> {
    let path = quoted(alloc, path)?;
    format!(in alloc; "{path}: {phrase}").ok()
}

// A path in quotes, and the system's words for an error, without its number.
pub fn with_words(alloc: Global, path: &str, error: io::Error) -> Option<String> {
    let words = format!(in alloc; "{error}").ok()?;
    match words.as_str().split_once(" (os error ") {
        Some((front, _number)) => with_phrase(alloc, path, front),
        None => with_phrase(alloc, path, words.as_str()),
    }
}
