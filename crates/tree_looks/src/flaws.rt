// What is printed of the flaws of files that are no tree.
ghost use Rattle.std.specs.Prelude.{◌≡◌, ◌++◌, IfOk, OnOk};
ghost use Rattle.std.specs.List.{flat_map};
ghost use Rattle.directories.specs.Entries.{number_in};
ghost use Rattle.directories.specs.Flaws.{flaws_of, homes_of};
ghost use Rattle.tree_looks.specs.Flaws.{begin_of, end_of, entry_of, entry_part, entry_path, file_path, first_name, flaw_number, flaw_path, flaw_told, flaw_words, flaws_told, last_part, lone_told, number_by, path_by, words_line, words_told};

use crate::counts::add_count;
use crate::objects::{add_stat_object, add_words_element, end_text};
use crate::texts::{add_number, add_stat};
use blocks::NoMemory;
use directories::files::{bytes_of, file_in, kind_of, links_of};
use directories::{
    DIRECTORY, DIRECTORY_KIND, ENTRY_SIZE, Flaw, Name, climbs, entries_in, first_down, flaws_of,
    home_in, homes_of, lookup, names_to, number_in, text_in,
};
use model::types::File;
use std::alloc::Global;

// The root's number.
const ROOT: usize = DIRECTORY as usize;

// What is told of files that are no tree: each flaw, in their order.
#[tactic(auto, unfolding(crate::specs::Flaws::flaws_told))]
pub fn flaws_told(alloc: Global, files: &[Option<File>], json: bool) -> Result<Vec<u8>, NoMemory>
    ensures { IfOk result (λ text. text.items ≡ flaws_told json files.now) }
{
    let homes = homes_of(alloc, files)?;
    let flaws = flaws_of(alloc, files, homes.as_slice())?;
    let mut text = Vec::new(alloc);
    add_flaws(&mut text, files, homes.as_slice(), flaws.as_slice(), json)?;
    end_text(&mut text, json)?;
    Ok(text)
}

// Adds what is told of each of these.
fn add_flaws(
    text: &mut Vec<u8>,
    files: &[Option<File>],
    homes: &[Option<usize>],
    flaws: &[Flaw],
    json: bool,
) -> Result<(), NoMemory>
    ensures { OnOk result (text.new.items
        ≡ text.old.items ++ flat_map (flaw_told json files.now homes.now) flaws.now) }
{
    for flaw in flaws {
        add_flaw(text, files, homes, *flaw, json)?;
    }
    Ok(())
}

// Adds what is told of a flaw.
fn add_flaw(
    text: &mut Vec<u8>,
    files: &[Option<File>],
    homes: &[Option<usize>],
    flaw: Flaw,
    json: bool,
) -> Result<(), NoMemory>
    ensures { OnOk result
        (text.new.items ≡ text.old.items ++ flaw_told json files.now homes.now flaw) }
{
    match flaw {
        Flaw::Nameless(number) => add_lone(text, files, number, json),
        Flaw::Miscounted(number) => add_miscounted(text, files, homes, number, json),
        _ => add_words(text, files, homes, flaw, json),
    }
}

// Adds a file without a name as an element of JSON, or its line.
fn add_lone(
    text: &mut Vec<u8>,
    files: &[Option<File>],
    number: usize,
    json: bool,
) -> Result<(), NoMemory>
    ensures { OnOk result (text.new.items ≡ text.old.items ++ lone_told json files.now number) }
{
    let file = file_in(files, number);
    if json {
        text.extend_from_slice(b",")?;
        return add_stat_object(text, file, number as u64);
    }
    text.extend_from_slice(b"no name ")?;
    add_stat(text, file, number as u64)
}

// Adds a file's count of links, and how many names lead to it.
fn add_miscounted(
    text: &mut Vec<u8>,
    files: &[Option<File>],
    homes: &[Option<usize>],
    number: usize,
    json: bool,
) -> Result<(), NoMemory>
    ensures { OnOk result (text.new.items
        ≡ text.old.items ++ flaw_told json files.now homes.now (Flaw.Miscounted number)) }
{
    let path = file_path(*text.allocator(), files, homes, number)?;
    let links = links_of(file_in(files, number));
    let names = names_to(files, number);
    add_count(text, path.as_slice(), number as u64, links, names, json)
}

// Adds the path of a flaw, the number to which that leads, and the words for it.
fn add_words(
    text: &mut Vec<u8>,
    files: &[Option<File>],
    homes: &[Option<usize>],
    flaw: Flaw,
    json: bool,
) -> Result<(), NoMemory>
    ensures { OnOk result (text.new.items ≡ text.old.items ++ words_told json
        (flaw_path files.now homes.now flaw) (flaw_number files.now flaw) (flaw_words flaw)) }
{
    let path = flaw_path(*text.allocator(), files, homes, flaw)?;
    let number = flaw_number(files, flaw);
    let words = flaw_words(flaw);
    if json {
        return add_words_element(text, path.as_slice(), number, words);
    }
    let line = words_line(*text.allocator(), path.as_slice(), number, words)?;
    text.extend_from_slice(line.as_slice())?;
    Ok(())
}

// Their line.
fn words_line(alloc: Global, path: &[u8], number: u64, words: &[u8]) -> Result<Vec<u8>, NoMemory>
    ensures { IfOk result (λ line. line.items ≡ words_line path.now number words.now) }
{
    let mut line = Vec::from_slice(alloc, path)?;
    line.extend_from_slice(b" ")?;
    add_number(&mut line, number)?;
    line.extend_from_slice(b" ")?;
    line.extend_from_slice(words)?;
    line.extend_from_slice(b"\n")?;
    Ok(line)
}

// The path at which a flaw is.
fn flaw_path(
    alloc: Global,
    files: &[Option<File>],
    homes: &[Option<usize>],
    flaw: Flaw,
) -> Result<Vec<u8>, NoMemory>
    ensures { IfOk result (λ path. path.items ≡ flaw_path files.now homes.now flaw) }
{
    match flaw {
        Flaw::NoRoot => Ok(Vec::from_slice(alloc, b"/")?),
        Flaw::Torn(number) => file_path(alloc, files, homes, number),
        Flaw::Own(number) => path_with(alloc, files, homes, number, b"."),
        Flaw::Parent(number) => path_with(alloc, files, homes, number, b".."),
        Flaw::Misnamed(from, place) => entry_path(alloc, files, homes, from, place),
        Flaw::Twice(from, place) => entry_path(alloc, files, homes, from, place),
        Flaw::Nothing(from, place) => entry_path(alloc, files, homes, from, place),
        Flaw::Again(from, place) => entry_path(alloc, files, homes, from, place),
        Flaw::Nameless(number) => file_path(alloc, files, homes, number),
        Flaw::Circle(number) => file_path(alloc, files, homes, number),
        Flaw::Miscounted(number) => file_path(alloc, files, homes, number),
    }
}

// The number to which that path leads.
fn flaw_number(files: &[Option<File>], flaw: Flaw) -> u64
    ensures { result ≡ flaw_number files.now flaw }
{
    match flaw {
        Flaw::NoRoot => ROOT as u64,
        Flaw::Torn(number) => number as u64,
        Flaw::Own(number) => number_by(files, number, &Name::own()),
        Flaw::Parent(number) => number_by(files, number, &Name::parent()),
        Flaw::Misnamed(from, place) => number_at(files, from, place),
        Flaw::Twice(from, place) => number_at(files, from, place),
        Flaw::Nothing(from, place) => number_at(files, from, place),
        Flaw::Again(from, place) => number_at(files, from, place),
        Flaw::Nameless(number) => number as u64,
        Flaw::Circle(number) => number as u64,
        Flaw::Miscounted(number) => number as u64,
    }
}

// The words for a flaw.
fn flaw_words(flaw: Flaw) -> &'static [u8]
    ensures { result.now ≡ flaw_words flaw }
{
    match flaw {
        Flaw::NoRoot => b"no directory",
        Flaw::Torn(_) => b"torn",
        Flaw::Own(_) => b"not itself",
        Flaw::Parent(_) => b"not its parent",
        Flaw::Misnamed(..) => b"bad name",
        Flaw::Twice(..) => b"name twice",
        Flaw::Nothing(..) => b"no file",
        Flaw::Again(..) => b"second name",
        Flaw::Nameless(_) => b"no name",
        Flaw::Circle(_) => b"in a circle",
        Flaw::Miscounted(_) => b"miscounted",
    }
}

// The number that a name leads to from a directory, and 0 where it leads nowhere.
fn number_by(files: &[Option<File>], from: usize, name: &Name) -> u64
    ensures { result ≡ number_by files.now from name.now }
{
    match lookup(bytes_of(file_in(files, from)), name) {
        Some(number) => u64::from(number),
        None => 0,
    }
}

// The number of the entry at a place of a directory.
fn number_at(files: &[Option<File>], from: usize, place: usize) -> u64
    ensures { result ≡ number_in (entry_of files.now from place) }
{
    u64::from(number_in(&entry_of(files, from, place)))
}

// The entry at a place of a directory; a free one behind the last.
fn entry_of(files: &[Option<File>], from: usize, place: usize) -> [u8; ENTRY_SIZE]
    ensures { result ≡ entry_of files.now from place }
{
    match entries_in(bytes_of(file_in(files, from))).get(place) {
        Some(entry) => *entry,
        None => [0; ENTRY_SIZE],
    }
}

// A file's path.
fn file_path(
    alloc: Global,
    files: &[Option<File>],
    homes: &[Option<usize>],
    number: usize,
) -> Result<Vec<u8>, NoMemory>
    ensures { IfOk result (λ path. path.items ≡ file_path files.now homes.now number) }
{
    let mut path = Vec::new(alloc);
    if climbs(homes.len(), homes, number) {
        add_path(&mut path, files, homes, number, homes.len())?;
    } else {
        add_begin(&mut path, files, number)?;
    }
    Ok(path)
}

// A file's path with a name behind it.
fn path_with(
    alloc: Global,
    files: &[Option<File>],
    homes: &[Option<usize>],
    number: usize,
    name: &[u8],
) -> Result<Vec<u8>, NoMemory>
    ensures { IfOk result (λ path. path.items ≡ file_path files.now homes.now number ++ name.now) }
{
    let mut path = file_path(alloc, files, homes, number)?;
    path.extend_from_slice(name)?;
    Ok(path)
}

// The path of an entry of a directory.
fn entry_path(
    alloc: Global,
    files: &[Option<File>],
    homes: &[Option<usize>],
    from: usize,
    place: usize,
) -> Result<Vec<u8>, NoMemory>
    ensures { IfOk result (λ path. path.items ≡ entry_path files.now homes.now from place) }
{
    let mut path = file_path(alloc, files, homes, from)?;
    add_entry_part(&mut path, files, &entry_of(files, from, place))?;
    Ok(path)
}

// Adds the last part of it.
#[tactic(auto, using(crate::proofs::AddedTexts::two_more))]
fn add_entry_part(
    path: &mut Vec<u8>,
    files: &[Option<File>],
    entry: &[u8; ENTRY_SIZE],
) -> Result<(), NoMemory>
    ensures { OnOk result (path.new.items ≡ path.old.items ++ entry_part files.now entry.now) }
{
    path.extend_from_slice(text_in(entry))?;
    add_end(path, files, usize::from(number_in(entry)))
}

// Adds a number's path, by so many steps from home to home.
#[tactic(auto, using(crate::proofs::AddedTexts::two_more))]
fn add_path(
    path: &mut Vec<u8>,
    files: &[Option<File>],
    homes: &[Option<usize>],
    number: usize,
    more: usize,
) -> Result<(), NoMemory>
    ensures { OnOk result
        (path.new.items ≡ path.old.items ++ path_by more files.now homes.now number) }
{
    if more == 0 {
        return add_begin(path, files, number);
    }
    if number == ROOT {
        path.extend_from_slice(b"/")?;
        return Ok(());
    }
    match home_in(homes, number) {
        Some(from) => {
            add_path(path, files, homes, from, more - 1)?;
            add_last_part(path, files, from, number)
        }
        None => add_begin(path, files, number),
    }
}

// Adds the beginning of a path that doesn't begin at the root.
#[tactic(auto, using(crate::proofs::AddedTexts::two_more))]
fn add_begin(path: &mut Vec<u8>, files: &[Option<File>], number: usize) -> Result<(), NoMemory>
    ensures { OnOk result (path.new.items ≡ path.old.items ++ begin_of files.now number) }
{
    path.extend_from_slice(b"#")?;
    add_number(path, number as u64)?;
    add_end(path, files, number)
}

// Adds the last part of a path: the name by which a directory first leads down to a number.
#[tactic(auto, using(crate::proofs::AddedTexts::two_more))]
fn add_last_part(
    path: &mut Vec<u8>,
    files: &[Option<File>],
    from: usize,
    number: usize,
) -> Result<(), NoMemory>
    ensures { OnOk result (path.new.items ≡ path.old.items ++ last_part files.now from number) }
{
    let entries = entries_in(bytes_of(file_in(files, from)));
    path.extend_from_slice(first_name(entries, number))?;
    add_end(path, files, number)
}

// That name.
fn first_name(entries: &[[u8; ENTRY_SIZE]], number: usize) -> &[u8]
    ensures { result.now ≡ first_name entries.now number }
{
    match first_down(entries, number) {
        Some(place) => text_in(&entries[place]),
        None => &[],
    }
}

// Adds the slash at the end of a directory's path.
fn add_end(path: &mut Vec<u8>, files: &[Option<File>], number: usize) -> Result<(), NoMemory>
    ensures { OnOk result (path.new.items ≡ path.old.items ++ end_of files.now number) }
{
    if kind_of(file_in(files, number)) == DIRECTORY_KIND {
        path.extend_from_slice(b"/")?;
    }
    Ok(())
}
