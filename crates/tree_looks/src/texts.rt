// What is printed of the files of directories.
ghost use Rattle.std.specs.Prelude.{◌≡◌, ◌++◌, ℕ, List, IfOk, OnOk, decimal};
ghost use Rattle.std.specs.Option.{option_copied};
ghost use Rattle.tree_looks.specs.Listing.{entry_told, file_told, line_of, listing_of, path_of, path_told, stat_text, told_below, told_entry};

use crate::objects::add_named_element;
use blocks::NoMemory;
use directories::files::{bytes_at, bytes_of, file_in, is_directory, kind_at, kind_of, links_of};
use directories::{ENTRY_SIZE, entries_in, leads_down, number_in, text_in};
use itoa::Buffer;
use model::types::File;
use std::alloc::Global;

// Adds a file with that name and number as an element of JSON, or its line: its type and its bytes.
pub fn add_file(
    text: &mut Vec<u8>,
    files: &[Option<File>],
    name: &[u8],
    number: u32,
    json: bool,
) -> Result<(), NoMemory>
    ensures { OnOk result
        (text.new.items ≡ text.old.items ++ file_told json files.now name.now number) }
{
    if json {
        let file = file_in(files, number as usize);
        return add_named_element(text, b"name", name, file, number);
    }
    let line = line_of(*text.allocator(), files, name, number)?;
    text.extend_from_slice(line.as_slice())?;
    Ok(())
}

// That line.
fn line_of(
    alloc: Global,
    files: &[Option<File>],
    name: &[u8],
    number: u32,
) -> Result<Vec<u8>, NoMemory>
    ensures { IfOk result (λ line. line.items ≡ line_of files.now name.now number) }
{
    let mut line = Vec::from_slice(alloc, name)?;
    line.extend_from_slice(b" ")?;
    add_number(&mut line, u64::from(number))?;
    line.extend_from_slice(b" type ")?;
    add_number(&mut line, u64::from(kind_at(files, number)))?;
    line.extend_from_slice(b" size ")?;
    add_number(&mut line, bytes_at(files, number).len() as u64)?;
    line.extend_from_slice(b"\n")?;
    Ok(line)
}

// Adds the line of a file itself: its number, its type, how many bytes it has, and its count of links.
pub fn add_stat(text: &mut Vec<u8>, file: Option<&File>, number: u64) -> Result<(), NoMemory>
    ensures { OnOk result
        (text.new.items ≡ text.old.items ++ stat_text (option_copied file.entry) number) }
{
    let line = stat_text(*text.allocator(), file, number)?;
    text.extend_from_slice(line.as_slice())?;
    Ok(())
}

// That line.
pub fn stat_text(alloc: Global, file: Option<&File>, number: u64) -> Result<Vec<u8>, NoMemory>
    ensures { IfOk result (λ line. line.items ≡ stat_text (option_copied file.entry) number) }
{
    let mut line = Vec::new(alloc);
    add_number(&mut line, number)?;
    line.extend_from_slice(b" type ")?;
    add_number(&mut line, u64::from(kind_of(file)))?;
    line.extend_from_slice(b" size ")?;
    add_number(&mut line, bytes_of(file).len() as u64)?;
    line.extend_from_slice(b" links ")?;
    add_number(&mut line, u64::from(links_of(file)))?;
    line.extend_from_slice(b"\n")?;
    Ok(line)
}

// Adds a number in digits.
pub fn add_number(text: &mut Vec<u8>, number: u64) -> Result<(), NoMemory>
    ensures { OnOk result (text.new.items ≡ text.old.items ++ decimal number) }
{
    let mut digits = Buffer::new();
    text.extend_from_slice(digits.format(number).as_bytes())?;
    Ok(())
}

// Adds the file of each entry of a directory that leads down, in their order.
pub fn add_listing(
    text: &mut Vec<u8>,
    files: &[Option<File>],
    number: u32,
    json: bool,
) -> Result<(), NoMemory>
    ensures { OnOk result (text.new.items ≡ text.old.items ++ listing_of json files.now number) }
{
    for entry in entries_in(bytes_at(files, number)) {
        add_entry_file(text, files, entry, json)?;
    }
    Ok(())
}

// Adds the file of an entry, if it leads down.
fn add_entry_file(
    text: &mut Vec<u8>,
    files: &[Option<File>],
    entry: &[u8; ENTRY_SIZE],
    json: bool,
) -> Result<(), NoMemory>
    ensures { OnOk result
        (text.new.items ≡ text.old.items ++ entry_told json files.now entry.now) }
{
    if leads_down(entry) {
        let number = u32::from(number_in(entry));
        add_file(text, files, text_in(entry), number, json)?;
    }
    Ok(())
}

// What is told of a file by its path.
pub trait ByPath {
    // That is told of a path and the number that it leads to.
    ghost tells: { Self → List ℕ → ℕ → List ℕ };

    // Adds it to a text.
    fn add(&self, text: &mut Vec<u8>, path: &[u8], number: u32) -> Result<(), NoMemory>
        ensures { OnOk result
            (text.new.items ≡ text.old.items ++ tells self.now path.now number) };
}

// The file at a path as an element of JSON, or the path as a line.
#[derive(Clone, Copy, Drop)]
pub struct PathTold<'a> {
    pub files: &'a [Option<File>],
    pub json: bool,
}

impl<'a> ByPath for PathTold<'a> {
    ghost tells = { λ told. path_told told.json told.files.now };

    fn add(&self, text: &mut Vec<u8>, path: &[u8], number: u32) -> Result<(), NoMemory> {
        if self.json {
            let file = file_in(self.files, number as usize);
            return add_named_element(text, b"path", path, file, number);
        }
        text.extend_from_slice(path)?;
        text.extend_from_slice(b"\n")?;
        Ok(())
    }
}

// Adds what is told of each file below a directory, down to a depth, by its path behind `front`.
#[cycle(below)]
pub fn add_below<T: ByPath>(
    text: &mut Vec<u8>,
    tell: &T,
    files: &[Option<File>],
    front: &[u8],
    number: u32,
    depth: usize,
) -> Result<(), NoMemory>
    ensures { OnOk result (text.new.items
        ≡ text.old.items ++ told_below (T.tells tell.now) depth files.now front.now number) }
{
    if depth == 0 || !is_directory(files, number) {
        return Ok(());
    }
    for entry in entries_in(bytes_at(files, number)) {
        add_entry(text, tell, files, front, entry, depth - 1)?;
    }
    Ok(())
}

// Adds what is told of an entry that leads down, and of those below it, to a depth.
#[cycle(below)]
#[tactic(auto, using(crate::proofs::AddedTexts::two_more))]
fn add_entry<T: ByPath>(
    text: &mut Vec<u8>,
    tell: &T,
    files: &[Option<File>],
    front: &[u8],
    entry: &[u8; ENTRY_SIZE],
    depth: usize,
) -> Result<(), NoMemory>
    ensures { OnOk result (text.new.items
        ≡ text.old.items ++ told_entry (T.tells tell.now) depth files.now front.now entry.now) }
{
    if !leads_down(entry) {
        return Ok(());
    }
    let path = path_of(text, files, front, entry)?;
    let number = u32::from(number_in(entry));
    tell.add(text, path.as_slice(), number)?;
    add_below(text, tell, files, path.as_slice(), number, depth)
}

// The path of an entry behind `front`; that of a directory ends with a slash.
fn path_of(
    text: &Vec<u8>,
    files: &[Option<File>],
    front: &[u8],
    entry: &[u8; ENTRY_SIZE],
) -> Result<Vec<u8>, NoMemory>
    ensures { IfOk result (λ path. path.items ≡ path_of files.now front.now entry.now) }
{
    let mut path = Vec::from_slice(*text.allocator(), front)?;
    path.extend_from_slice(text_in(entry))?;
    if is_directory(files, u32::from(number_in(entry))) {
        path.extend_from_slice(b"/")?;
    }
    Ok(path)
}
