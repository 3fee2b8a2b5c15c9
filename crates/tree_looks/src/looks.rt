// The looks at files by their paths.
ghost use Rattle.std.specs.Prelude.{◌≡◌, ◌++◌, IfErr, IfOk, Ok, OnOk};
ghost use Rattle.directories.specs.Entries.{text_of};
ghost use Rattle.tree_looks.specs.Listing.{last_of, list_of, listed, paths_below, stat_told};
ghost use Rattle.tree_looks.specs.Looks.{HasNoPaths, IsUnlisted, IsUnshown, Lists, Shows, ShowsPaths, ShowsStat};

use crate::faults::LookRefusal;
use crate::finding::find;
use crate::objects::{add_stat_object, end_text};
use crate::over_files::Look;
use crate::texts::{PathTold, add_below, add_file, add_listing, stat_text};
use blocks::NoMemory;
use directories::files::{bytes_at, file_in, is_directory};
use directories::{Name, Refusal};
use model::types::File;
use std::alloc::Global;

/// Lists the directory at a path, a line for each entry in its order, but none for its own two; of
/// another file its line. Of a number that no file has the type and the bytes are 0. Or it is an array
/// of JSON with an object for each, which has its count of links, too.
#[derive(Clone, Copy, Drop)]
pub struct Ls<'a> {
    /// The path, from the root.
    pub path: &'a str,
    /// Whether they are told as JSON.
    pub json: bool,
}

/// The bytes of the file at a path.
#[derive(Clone, Copy, Drop)]
pub struct Cat<'a> {
    /// The path, from the root.
    pub path: &'a str,
}

/// Tells of the file at a path itself: its number, its type, its bytes and its count of links, as a
/// line or as an object of JSON.
#[derive(Clone, Copy, Drop)]
pub struct Stat<'a> {
    /// The path, from the root.
    pub path: &'a str,
    /// Whether it is told as JSON.
    pub json: bool,
}

/// The paths of all files below the directory at a path, a line each; a directory's ends with a slash,
/// and stands before those below it. Or an array of JSON with an object for each, which has what is
/// told of the file itself, too.
#[derive(Clone, Copy, Drop)]
pub struct Paths<'a> {
    /// The path, from the root.
    pub path: &'a str,
    /// Whether they are told as JSON.
    pub json: bool,
}

impl<'a> Look for Ls<'a> {
    ghost tells = { λ look. Lists look.json look.path.now };

    ghost refuses = { λ look. IsUnlisted look.path.now };

    fn text(&self, alloc: Global, files: &[Option<File>]) -> Result<Vec<u8>, LookRefusal> {
        match find(alloc, files, self.path.as_bytes()) {
            Ok(found) => told(list(
                alloc,
                files,
                found.names.as_slice(),
                found.number,
                self.json,
            )),
            Err(refusal) => Err(refusal),
        }
    }
}

impl<'a> Look for Cat<'a> {
    ghost tells = { λ look. Shows look.path.now };

    ghost refuses = { λ look. IsUnshown look.path.now };

    fn text(&self, alloc: Global, files: &[Option<File>]) -> Result<Vec<u8>, LookRefusal> {
        match find(alloc, files, self.path.as_bytes()) {
            Ok(found) => {
                let number = found.number;
                if is_directory(files, number) {
                    return Err(LookRefusal::Refused(Refusal::IsADirectory));
                }
                told(copy(alloc, bytes_at(files, number)))
            }
            Err(refusal) => Err(refusal),
        }
    }
}

impl<'a> Look for Stat<'a> {
    ghost tells = { λ look. ShowsStat look.json look.path.now };

    ghost refuses = { λ look. IsUnlisted look.path.now };

    fn text(&self, alloc: Global, files: &[Option<File>]) -> Result<Vec<u8>, LookRefusal> {
        match find(alloc, files, self.path.as_bytes()) {
            Ok(found) => told(stat_told(alloc, files, found.number, self.json)),
            Err(refusal) => Err(refusal),
        }
    }
}

impl<'a> Look for Paths<'a> {
    ghost tells = { λ look. ShowsPaths look.json look.path.now };

    ghost refuses = { λ look. HasNoPaths look.path.now };

    fn text(&self, alloc: Global, files: &[Option<File>]) -> Result<Vec<u8>, LookRefusal> {
        match find(alloc, files, self.path.as_bytes()) {
            Ok(found) => {
                let number = found.number;
                if !is_directory(files, number) {
                    return Err(LookRefusal::Refused(Refusal::NotADirectory));
                }
                told(text_below(alloc, files, number, self.json))
            }
            Err(refusal) => Err(refusal),
        }
    }
}

// The text that was made, or that memory for it was refused.
pub fn told(made: Result<Vec<u8>, NoMemory>) -> Result<Vec<u8>, LookRefusal>
    ensures text { IfOk result (λ text. made ≡ Ok text) }
    ensures refused { IfErr result (λ r. r ≡ LookRefusal.NoMemory) }
{
    match made {
        Ok(text) => Ok(text),
        Err(_refused) => Err(LookRefusal::NoMemory),
    }
}

// What is listed of the file that names lead to.
fn list(
    alloc: Global,
    files: &[Option<File>],
    names: &[Name],
    number: u32,
    json: bool,
) -> Result<Vec<u8>, NoMemory>
    ensures { IfOk result (λ text. text.items ≡ listed json files.now names.now number) }
{
    let mut text = Vec::new(alloc);
    add_list(&mut text, files, names, number, json)?;
    end_text(&mut text, json)?;
    Ok(text)
}

// Adds the files of the entries of a directory, or another file.
fn add_list(
    text: &mut Vec<u8>,
    files: &[Option<File>],
    names: &[Name],
    number: u32,
    json: bool,
) -> Result<(), NoMemory>
    ensures { OnOk result
        (text.new.items ≡ text.old.items ++ list_of json files.now names.now number) }
{
    if is_directory(files, number) {
        add_listing(text, files, number, json)
    } else {
        add_file(text, files, last_of(names), number, json)
    }
}

// The last of these names.
pub fn last_of(names: &[Name]) -> &[u8]
    ensures { result.now ≡ text_of (last_of names.now) }
{
    match names.last() {
        Some(name) => name.text(),
        None => &[],
    }
}

// What is told of a file itself.
fn stat_told(
    alloc: Global,
    files: &[Option<File>],
    number: u32,
    json: bool,
) -> Result<Vec<u8>, NoMemory>
    ensures { IfOk result (λ text. text.items ≡ stat_told json files.now number) }
{
    let file = file_in(files, number as usize);
    if !json {
        return stat_text(alloc, file, u64::from(number));
    }
    let mut text = Vec::new(alloc);
    add_stat_object(&mut text, file, u64::from(number))?;
    text.extend_from_slice(b"\n")?;
    Ok(text)
}

// The same bytes.
pub fn copy(alloc: Global, bytes: &[u8]) -> Result<Vec<u8>, NoMemory>
    ensures { IfOk result (λ text. text.items ≡ bytes.now) }
{
    Ok(Vec::from_slice(alloc, bytes)?)
}

// What is told of all files below a directory.
fn text_below(
    alloc: Global,
    files: &[Option<File>],
    number: u32,
    json: bool,
) -> Result<Vec<u8>, NoMemory>
    ensures { IfOk result (λ text. text.items ≡ paths_below json files.now number) }
{
    let mut text = Vec::new(alloc);
    let tell = PathTold { files, json };
    add_below(&mut text, &tell, files, &[], number, files.len())?;
    end_text(&mut text, json)?;
    Ok(text)
}
