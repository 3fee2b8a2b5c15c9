// Whether the bytes of directories are as those of a tree.
ghost use Rattle.std.specs.Prelude.{◌≡◌, ◌↔◌, ◌%◌, false, length, position, Contains, EachIndex, IsTrue, OnOk};
ghost use Rattle.directories.specs.Checks.{AddsChild, AddsChildren, AreApart, IsFirst};
ghost use Rattle.directories.specs.Entries.{entries_of, entry_size, is_for, is_free, name_in, AreNamed, IsProper};
ghost use Rattle.directories.specs.Trees.{IsDirectoryOf, IsTidy};

use crate::directory::leads_down;
use crate::entries::{ENTRY_SIZE, entries_in, is_free, lookup, number_in};
use crate::name::{NAME_SIZE, Name, is_proper, name_in};
use blocks::NoMemory;

/// Whether the bytes are those of a directory with that number and that parent: whole entries, each
/// used one with a name, none twice, and the two entries of a directory's own.
pub fn is_directory_of(bytes: &[u8], number: u16, parent: u16) -> bool
    ensures { IsTrue result ↔ IsDirectoryOf bytes.now number parent }
{
    is_tidy(bytes)
        && lookup(bytes, &Name::own()) == Some(number)
        && lookup(bytes, &Name::parent()) == Some(parent)
}

// Whether there are whole entries, each used one has a name, and none is there twice.
fn is_tidy(bytes: &[u8]) -> bool
    ensures { IsTrue result ↔ IsTidy bytes.now }
{
    is_whole(bytes.len()) && are_tidy(entries_in(bytes))
}

// Whether so many bytes are whole entries.
fn is_whole(size: usize) -> bool
    ensures { IsTrue result ↔ (size % entry_size ≡ 0) }
{
    size % ENTRY_SIZE == 0
}

// Whether each used entry has a name, and is the first of it.
fn are_tidy(entries: &[[u8; ENTRY_SIZE]]) -> bool
    ensures { IsTrue result ↔ AreNamed entries.now × EachIndex entries.now (IsFirst entries.now) }
{
    are_named(entries) && names_stand_once(entries)
}

// Whether each used entry has a name.
fn are_named(entries: &[[u8; ENTRY_SIZE]]) -> bool
    ensures { IsTrue result ↔ AreNamed entries.now }
{
    for entry in entries {
        if !may_stand(entry) {
            return false;
        }
    }
    true
}

// Whether an entry is free, or has a name.
fn may_stand(entry: &[u8; ENTRY_SIZE]) -> bool
    ensures { IsTrue result ↔ (is_free entry.now ≡ false → IsProper (name_in entry.now)) }
{
    is_free(entry) || is_proper(&name_in(entry))
}

// Whether each used entry is the first of its name.
fn names_stand_once(entries: &[[u8; ENTRY_SIZE]]) -> bool
    ensures { IsTrue result ↔ EachIndex entries.now (IsFirst entries.now) }
{
    for (place, entry) in entries.iter().enumerate() {
        if !is_free(entry) && first_named(entries, entry) != Some(place) {
            return false;
        }
    }
    true
}

// The place of the first entry with the name of an entry.
pub(crate) fn first_named(entries: &[[u8; ENTRY_SIZE]], named: &[u8; ENTRY_SIZE]) -> Option<usize>
    ensures { result ≡ position (is_for (name_in named.now)) entries.now }
{
    let name = name_in(named);
    entries.iter().position(|entry| is_named(entry, &name))
}

// Whether an entry is used, and has these bytes as its name.
fn is_named(entry: &[u8; ENTRY_SIZE], name: &[u8; NAME_SIZE]) -> bool
    ensures { result ≡ is_for name.now entry.now }
{
    !is_free(entry) && name_in(entry) == *name
}

/// Adds the numbers that a directory's entries lead down to behind those found before, with the
/// directory as their parent. One that was found before is added to those found again.
///
/// # Errors
///
/// `NoMemory` where memory for a number was refused.
pub fn add_children(
    entries: &[[u8; ENTRY_SIZE]],
    from: u16,
    numbers: &mut Vec<u16>,
    parents: &mut Vec<u16>,
    again: &mut Vec<u16>,
) -> Result<(), NoMemory>
    requires { AreApart numbers.old.items }
    ensures { OnOk result (AddsChildren entries.now from
        numbers.old.items parents.old.items again.old.items
        numbers.new.items parents.new.items again.new.items) }
{
    for entry in entries {
        if leads_down(entry) {
            add_child(number_in(entry), from, numbers, parents, again)?;
        }
    }
    Ok(())
}

// Adds a number behind those found before, or to those found again.
fn add_child(
    number: u16,
    from: u16,
    numbers: &mut Vec<u16>,
    parents: &mut Vec<u16>,
    again: &mut Vec<u16>,
) -> Result<(), NoMemory>
    ensures { OnOk result (AddsChild number from
        numbers.old.items parents.old.items again.old.items
        numbers.new.items parents.new.items again.new.items) }
{
    if is_among(numbers, number) {
        again.push(number)?;
    } else {
        numbers.push(number)?;
        parents.push(from)?;
    }
    Ok(())
}

// Whether a number is one of those.
pub(crate) fn is_among(numbers: &[u16], number: u16) -> bool
    ensures { IsTrue result ↔ Contains numbers.now number }
{
    numbers.contains(&number)
}
