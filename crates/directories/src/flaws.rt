// What keeps files from being a tree whose counts are right.
ghost use Rattle.std.specs.Prelude.{◌≡◌, ◌++◌, ◌+◌, ◌<◌, ◌-◌, ◌^◌, ◌==◌, min, length, position, IfOk, OnOk};
ghost use Rattle.std.specs.List.{list_any};
ghost use Rattle.directories.specs.Entries.{entries_of, lookup};
ghost use Rattle.directories.specs.Flaws.{climbs, directory_flaws, entries_flaws, entry_flaws, flaw_if, flaws_at, flaws_of, flaws_within, has_name_of, home_in, home_of, homes_of, is_in_circle, is_later, is_miscounted, is_misnamed, is_nameless, is_other, is_second, is_torn, leads_again, leads_down_to, leads_to_nothing, may_not_have, misses_parent, own_flaws, parent_in, place_flaws};
ghost use Rattle.directories.specs.Tallying.{leads_to, names_among, names_in, names_to};

use crate::checking::first_named;
use crate::directory::{DIRECTORY_KIND, leads_down};
use crate::entries::{DIRECTORY, ENTRY_SIZE, entries_in, is_free, lookup, number_in};
use crate::files::{bytes_of, file_in, kind_of, links_of};
use crate::name::{Name, is_proper, name_in};
use crate::tallying::is_counted;
use blocks::NoMemory;
use model::types::File;
use std::alloc::Global;

// The root's number.
const ROOT: usize = DIRECTORY as usize;

// The most names that are counted.
const MOST_NAMES: u32 = u32::MAX;

/// What keeps files from being a tree whose counts of links are right, with the numbers at which it is.
/// A file's home is the first directory of which an entry leads down to it.
#[derive(Clone, Copy, Debug, PartialEq, Eq)]
pub enum Flaw {
    /// The root is no directory.
    NoRoot,
    /// The bytes of the directory of this number end within an entry.
    Torn(usize),
    /// Its name for itself leads elsewhere, or nowhere.
    Own(usize),
    /// It has a home, and its name for its parent leads elsewhere, or nowhere.
    Parent(usize),
    /// An entry of a directory, whose number and place these are, has no name, or one with a slash.
    Misnamed(usize, usize),
    /// It has the name of an entry before it.
    Twice(usize, usize),
    /// It leads down to no file.
    Nothing(usize, usize),
    /// It leads down to the root, or to a directory that has a name before it.
    Again(usize, usize),
    /// The file of this number has no home.
    Nameless(usize),
    /// This directory's home, the home of that one, and so on, are a circle.
    Circle(usize),
    /// This file has a home, and its count of links is not how many names lead to it.
    Miscounted(usize),
}

/// The home of each number: the first directory of which an entry leads down to it.
///
/// # Errors
///
/// `NoMemory` where memory for one number for each file was refused.
pub fn homes_of(alloc: Global, files: &[Option<File>]) -> Result<Vec<Option<usize>>, NoMemory>
    ensures { IfOk result (λ homes. homes.items ≡ homes_of files.now) }
{
    let mut homes = Vec::new(alloc);
    for number in 0..files.len() {
        homes.push(home_of(files, number))?;
    }
    Ok(homes)
}

/// What keeps these files from being a tree whose counts of links are right: what is wrong with the root,
/// and then with the file of each number, the lowest first. There is none where they are one, and one at
/// least where they are not.
///
/// # Errors
///
/// `NoMemory` where memory for a flaw was refused.
pub fn flaws_of(
    alloc: Global,
    files: &[Option<File>],
    homes: &[Option<usize>],
) -> Result<Vec<Flaw>, NoMemory>
    requires { homes.now ≡ homes_of files.now }
    ensures { IfOk result (λ flaws. flaws.items ≡ flaws_of files.now) }
{
    let mut flaws = Vec::new(alloc);
    let rooted = kind_of(file_in(files, ROOT)) == DIRECTORY_KIND;
    add_if(&mut flaws, !rooted, Flaw::NoRoot)?;
    for number in 0..files.len() {
        add_at(&mut flaws, files, homes, number)?;
    }
    Ok(flaws)
}

/// How many names lead to a number, up to 4,294,967,295 of them. A directory's name `.` for itself is not
/// counted, as in xv6.
pub fn names_to(files: &[Option<File>], number: usize) -> u32
    ensures { result ≡ min (names_to files.now number) (2 ^ 32 - 1) }
{
    let mut sum = 0;
    for file in files {
        sum = sum_with(sum, names_in(file, number));
    }
    sum
}

/// A number's home, if it has one.
pub fn home_in(homes: &[Option<usize>], number: usize) -> Option<usize>
    ensures { result ≡ home_in homes.now number }
{
    match homes.get(number) {
        Some(home) => *home,
        None => None,
    }
}

/// Whether an entry leads down to a number.
pub fn leads_down_to(entry: &[u8; ENTRY_SIZE], number: usize) -> bool
    ensures { result ≡ leads_down_to number entry.now }
{
    leads_down(entry) && usize::from(number_in(entry)) == number
}

// The first directory of which an entry leads down to a number.
fn home_of(files: &[Option<File>], number: usize) -> Option<usize>
    ensures { result ≡ home_of files.now number }
{
    files.iter().position(|file| has_name_of(file, number))
}

// Whether an entry of this file does, where it is a directory.
fn has_name_of(file: &Option<File>, number: usize) -> bool
    ensures { result ≡ has_name_of number file.now }
{
    match file {
        Some(file) => file.kind == DIRECTORY_KIND && has_entry(file.bytes.as_slice(), number),
        None => false,
    }
}

// Whether an entry among these bytes does.
fn has_entry(bytes: &[u8], number: usize) -> bool
    ensures { result ≡ list_any (leads_down_to number) (entries_of bytes.now) }
{
    entries_in(bytes)
        .iter()
        .any(|entry| leads_down_to(entry, number))
}

// Adds a flaw, if it is one.
fn add_if(flaws: &mut Vec<Flaw>, wrong: bool, flaw: Flaw) -> Result<(), NoMemory>
    ensures { OnOk result (flaws.new.items ≡ flaws.old.items ++ flaw_if wrong flaw) }
{
    if wrong {
        flaws.push(flaw)?;
    }
    Ok(())
}

// Adds what is wrong at a number.
#[tactic(auto, using(crate::proofs::AddedFlaws::two_more))]
fn add_at(
    flaws: &mut Vec<Flaw>,
    files: &[Option<File>],
    homes: &[Option<usize>],
    number: usize,
) -> Result<(), NoMemory>
    ensures { OnOk result (flaws.new.items ≡ flaws.old.items ++ flaws_at files.now homes.now number) }
{
    add_within(flaws, files, homes, number)?;
    add_place(flaws, files, homes, number)
}

// Adds what is wrong within the file of a number, where that is a directory.
fn add_within(
    flaws: &mut Vec<Flaw>,
    files: &[Option<File>],
    homes: &[Option<usize>],
    number: usize,
) -> Result<(), NoMemory>
    ensures { OnOk result
        (flaws.new.items ≡ flaws.old.items ++ flaws_within files.now homes.now number) }
{
    let file = file_in(files, number);
    if kind_of(file) == DIRECTORY_KIND {
        add_directory(flaws, files, homes, number, bytes_of(file))?;
    }
    Ok(())
}

// Adds what is wrong with a directory of these bytes.
#[tactic(auto, using(crate::proofs::AddedFlaws::two_more))]
fn add_directory(
    flaws: &mut Vec<Flaw>,
    files: &[Option<File>],
    homes: &[Option<usize>],
    number: usize,
    bytes: &[u8],
) -> Result<(), NoMemory>
    ensures { OnOk result (flaws.new.items ≡ flaws.old.items
        ++ directory_flaws files.now homes.now number bytes.now) }
{
    add_own(flaws, homes, number, bytes)?;
    add_entries(flaws, files, homes, number, entries_in(bytes))
}

// Adds what is wrong with its size and its own two entries.
#[tactic(auto, using(crate::proofs::AddedFlaws::two_more))]
fn add_own(
    flaws: &mut Vec<Flaw>,
    homes: &[Option<usize>],
    number: usize,
    bytes: &[u8],
) -> Result<(), NoMemory>
    ensures { OnOk result
        (flaws.new.items ≡ flaws.old.items ++ own_flaws homes.now number bytes.now) }
{
    add_if(flaws, is_torn(bytes), Flaw::Torn(number))?;
    let own = leads_elsewhere(bytes, &Name::own(), number);
    add_if(flaws, own, Flaw::Own(number))?;
    let parent = misses_parent(homes, number, bytes);
    add_if(flaws, parent, Flaw::Parent(number))
}

// Adds what is wrong with each of these entries of a directory.
fn add_entries(
    flaws: &mut Vec<Flaw>,
    files: &[Option<File>],
    homes: &[Option<usize>],
    from: usize,
    entries: &[[u8; ENTRY_SIZE]],
) -> Result<(), NoMemory>
    ensures { OnOk result (flaws.new.items ≡ flaws.old.items
        ++ entries_flaws files.now homes.now from entries.now (length entries.now)) }
{
    for place in 0..entries.len() {
        add_entry(flaws, files, homes, from, entries, place)?;
    }
    Ok(())
}

// Adds what is wrong with one of them.
#[tactic(auto, using(crate::proofs::AddedFlaws::two_more))]
fn add_entry(
    flaws: &mut Vec<Flaw>,
    files: &[Option<File>],
    homes: &[Option<usize>],
    from: usize,
    entries: &[[u8; ENTRY_SIZE]],
    place: usize,
) -> Result<(), NoMemory>
    requires { place < length entries.now }
    ensures { OnOk result (flaws.new.items ≡ flaws.old.items
        ++ entry_flaws files.now homes.now from entries.now place) }
{
    let entry = &entries[place];
    add_if(flaws, is_misnamed(entry), Flaw::Misnamed(from, place))?;
    let second = is_second(entries, place);
    add_if(flaws, second, Flaw::Twice(from, place))?;
    let nothing = leads_to_nothing(files, entry);
    add_if(flaws, nothing, Flaw::Nothing(from, place))?;
    let again = leads_again(files, homes, from, entries, place);
    add_if(flaws, again, Flaw::Again(from, place))
}

// Adds what is wrong with where a file stands.
#[tactic(auto, using(crate::proofs::AddedFlaws::two_more))]
fn add_place(
    flaws: &mut Vec<Flaw>,
    files: &[Option<File>],
    homes: &[Option<usize>],
    number: usize,
) -> Result<(), NoMemory>
    ensures { OnOk result
        (flaws.new.items ≡ flaws.old.items ++ place_flaws files.now homes.now number) }
{
    let nameless = is_nameless(files, homes, number);
    add_if(flaws, nameless, Flaw::Nameless(number))?;
    let circle = is_in_circle(files, homes, number);
    add_if(flaws, circle, Flaw::Circle(number))?;
    let miscounted = is_miscounted(files, homes, number);
    add_if(flaws, miscounted, Flaw::Miscounted(number))
}

// Whether bytes end within an entry.
fn is_torn(bytes: &[u8]) -> bool
    ensures { result ≡ is_torn bytes.now }
{
    bytes.len() % ENTRY_SIZE != 0
}

// Whether a name leads nowhere in a directory of these bytes, or elsewhere than to a number.
fn leads_elsewhere(bytes: &[u8], name: &Name, number: usize) -> bool
    ensures { result ≡ is_other (lookup bytes.now name.now) number }
{
    match lookup(bytes, name) {
        Some(found) => usize::from(found) != number,
        None => true,
    }
}

// Whether the name for its parent does in a directory that has a home, or in the root.
fn misses_parent(homes: &[Option<usize>], number: usize, bytes: &[u8]) -> bool
    ensures { result ≡ misses_parent homes.now number bytes.now }
{
    match parent_in(homes, number) {
        Some(parent) => leads_elsewhere(bytes, &Name::parent(), parent),
        None => false,
    }
}

// Where a directory's name for its parent should lead.
fn parent_in(homes: &[Option<usize>], number: usize) -> Option<usize>
    ensures { result ≡ parent_in homes.now number }
{
    if number == ROOT {
        Some(ROOT)
    } else {
        home_in(homes, number)
    }
}

// Whether an entry is used, and has no name, or one with a slash.
fn is_misnamed(entry: &[u8; ENTRY_SIZE]) -> bool
    ensures { result ≡ is_misnamed entry.now }
{
    !is_free(entry) && !is_proper(&name_in(entry))
}

// Whether the entry at a place has the name of one before it.
fn is_second(entries: &[[u8; ENTRY_SIZE]], place: usize) -> bool
    requires { place < length entries.now }
    ensures { result ≡ is_second entries.now place }
{
    let entry = &entries[place];
    !is_free(entry) && is_other(first_named(entries, entry), place)
}

// Whether there is none, or another one than that.
fn is_other(found: Option<usize>, number: usize) -> bool
    ensures { result ≡ is_other found number }
{
    match found {
        Some(found) => found != number,
        None => true,
    }
}

// Whether an entry leads down to no file.
fn leads_to_nothing(files: &[Option<File>], entry: &[u8; ENTRY_SIZE]) -> bool
    ensures { result ≡ leads_to_nothing files.now entry.now }
{
    leads_down(entry) && file_in(files, usize::from(number_in(entry))).is_none()
}

// Whether the entry at a place leads down to the root, or to a directory that has a name before it.
fn leads_again(
    files: &[Option<File>],
    homes: &[Option<usize>],
    from: usize,
    entries: &[[u8; ENTRY_SIZE]],
    place: usize,
) -> bool
    requires { place < length entries.now }
    ensures { result ≡ leads_again files.now homes.now from entries.now place }
{
    let entry = &entries[place];
    let number = usize::from(number_in(entry));
    leads_down(entry) && may_not_have(files, homes, from, entries, place, number)
}

// Whether a number is the root's, or that of a directory that has a name before this place.
fn may_not_have(
    files: &[Option<File>],
    homes: &[Option<usize>],
    from: usize,
    entries: &[[u8; ENTRY_SIZE]],
    place: usize,
    number: usize,
) -> bool
    ensures { result ≡ may_not_have files.now homes.now from entries.now place number }
{
    number == ROOT
        || (kind_of(file_in(files, number)) == DIRECTORY_KIND
            && is_later(homes, from, entries, place, number))
}

// Whether another entry leads down to a number before the one at a place of a directory.
fn is_later(
    homes: &[Option<usize>],
    from: usize,
    entries: &[[u8; ENTRY_SIZE]],
    place: usize,
    number: usize,
) -> bool
    ensures { result ≡ is_later homes.now from entries.now place number }
{
    is_other(home_in(homes, number), from) || is_other(first_down(entries, number), place)
}

/// The place of the first entry that leads down to a number.
pub fn first_down(entries: &[[u8; ENTRY_SIZE]], number: usize) -> Option<usize>
    ensures { result ≡ position (leads_down_to number) entries.now }
{
    entries
        .iter()
        .position(|entry| leads_down_to(entry, number))
}

// Whether a file but the root has no home.
fn is_nameless(files: &[Option<File>], homes: &[Option<usize>], number: usize) -> bool
    ensures { result ≡ is_nameless files.now homes.now number }
{
    number != ROOT && file_in(files, number).is_some() && home_in(homes, number).is_none()
}

// Whether a directory is in a circle of directories, or below one.
fn is_in_circle(files: &[Option<File>], homes: &[Option<usize>], number: usize) -> bool
    ensures { result ≡ is_in_circle files.now homes.now number }
{
    kind_of(file_in(files, number)) == DIRECTORY_KIND && !climbs(homes.len(), homes, number)
}

/// Whether so many steps from home to home lead to the root, or to a file without a home.
pub fn climbs(more: usize, homes: &[Option<usize>], number: usize) -> bool
    ensures { result ≡ climbs more homes.now number }
{
    if more == 0 {
        return false;
    }
    if number == ROOT {
        return true;
    }
    match home_in(homes, number) {
        Some(from) => climbs(more - 1, homes, from),
        None => true,
    }
}

// Whether a file that is not nameless has another count of links than names.
fn is_miscounted(files: &[Option<File>], homes: &[Option<usize>], number: usize) -> bool
    ensures { result ≡ is_miscounted files.now homes.now number }
{
    file_in(files, number).is_some()
        && !is_nameless(files, homes, number)
        && !has_names(files, number, links_of(file_in(files, number)))
}

// Whether just so many names lead to a number.
fn has_names(files: &[Option<File>], number: usize, links: u16) -> bool
    ensures { result ≡ (links == names_to files.now number) }
{
    u32::from(links) == names_to(files, number)
}

// How many entries of a file lead to a number, where it is a directory.
#[tactic(auto, unfolding(crate::specs::Tallying::names_in))]
fn names_in(file: &Option<File>, number: usize) -> usize
    ensures { result ≡ names_in number file.now }
{
    match file {
        Some(file) => {
            if file.kind == DIRECTORY_KIND {
                names_among(entries_in(file.bytes.as_slice()), number)
            } else {
                0
            }
        }
        None => 0,
    }
}

// How many of these entries do.
fn names_among(entries: &[[u8; ENTRY_SIZE]], number: usize) -> usize
    ensures { result ≡ names_among entries.now number }
{
    entries
        .iter()
        .filter(|entry| leads_to(entry, number))
        .count()
}

// Whether an entry is used, has no directory's name for itself, and leads to a number.
fn leads_to(entry: &[u8; ENTRY_SIZE], number: usize) -> bool
    ensures { result ≡ leads_to number entry.now }
{
    is_counted(entry) && usize::from(number_in(entry)) == number
}

// A sum with so many more, up to the most.
fn sum_with(sum: u32, more: usize) -> u32
    ensures { result ≡ min (sum + more) (2 ^ 32 - 1) }
{
    match u32::try_from(more) {
        Ok(more) => {
            if more <= MOST_NAMES - sum {
                sum + more
            } else {
                MOST_NAMES
            }
        }
        Err(_large) => MOST_NAMES,
    }
}
