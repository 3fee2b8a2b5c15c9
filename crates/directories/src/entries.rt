// The entries of a directory, and the writes that change one.
ghost use Rattle.std.specs.Prelude.{◌≡◌, ◌<◌, ◌≤◌, ◌*◌, ◌/◌, ◌^◌, replicate, length, position, Some, None, IfSome, IfNone, IfOk, IfErr};
ghost use Rattle.std.specs.Str.{bytes_eq};
ghost use Rattle.directories.specs.Entries.{entry_size, entries_of, entry_bytes, is_for, is_free, lookup, name_in, number_in, place_of, HasOnce, IsStored};
ghost use Rattle.directories.specs.Trees.{new_directory};
ghost use Rattle.directories.specs.Writes.{free_place, operation_of, written, IsLinkCause, KeepsOthers, Links, MayHold, Repoints, Unlinks};

use crate::name::{Name, name_in};
use blocks::NoMemory;
use byteorder::{ByteOrder, LittleEndian};
use model::content::Content;
use model::types::Op;
use std::alloc::Global;
use thiserror::Error;

/// The number of the root directory, which all paths begin at.
pub const DIRECTORY: u32 = 1;

/// The bytes of an entry.
pub const ENTRY_SIZE: usize = 16;

/// A directory of so many entries gets no other: as many as a file of the first form has room for.
pub const MOST_ENTRIES: usize = 17_152;

/// A write of one entry, which is all that a change of a directory writes.
#[derive(Clone, Copy)]
pub struct EntryWrite {
    /// Which entry of the directory it is, from 0.
    pub place: u32,
    /// The entry.
    pub entry: [u8; ENTRY_SIZE],
}

impl EntryWrite {
    /// The operation that makes this write in the directory of that number.
    ///
    /// # Errors
    ///
    /// `NoMemory` where memory for its 16 bytes was refused.
    pub fn operation(self, alloc: Global, directory: u32) -> Result<Op, NoMemory>
        requires { entry_size * self.place < 2 ^ 32 }
        ensures { IfOk result (λ op. op ≡ operation_of directory self) }
    {
        let bytes = Content::copy_of(alloc, &self.entry)?;
        Ok(Op::Write(directory, self.place * 16, bytes))
    }
}

/// Why a name can't be linked.
#[derive(Clone, Copy, Debug, PartialEq, Eq, Error)]
pub enum LinkFault {
    #[error("the name is there already")]
    Exists,
    #[error("the directory is full")]
    Full,
}

/// The number that a name leads to in a directory of these bytes: that of its first entry.
#[tactic(auto, unfolding(crate::specs::Entries::lookup))]
pub fn lookup(bytes: &[u8], name: &Name) -> Option<u16>
    ensures { result ≡ lookup bytes.now name.now }
{
    let place = place_of(bytes, name)?;
    Some(number_in(&entries_in(bytes)[place]))
}

/// The write that links a number under a name: into the first free entry, or behind the last.
///
/// # Errors
///
/// `Exists` where the name leads to a file already, else `Full` where no entry is free and there are
/// 17,152 or more.
pub fn link(bytes: &[u8], name: &Name, number: u16) -> Result<EntryWrite, LinkFault>
    requires used { 0 < number }
    requires size { length bytes.now < 2 ^ 32 }
    ensures within { IfOk result (λ write. entry_size * write.place < 2 ^ 32) }
    ensures room { IfOk result (λ write. MayHold bytes.now write.place) }
    ensures links { IfOk result (λ write. Links bytes.now name.now number write) }
    ensures leads { IfOk result (λ write. lookup (written bytes.now write) name.now ≡ Some number) }
    ensures others { IfOk result (λ write. KeepsOthers
        name.now bytes.now (written bytes.now write)) }
    ensures refused { IfErr result (IsLinkCause bytes.now name.now) }
{
    if lookup(bytes, name).is_some() {
        return Err(LinkFault::Exists);
    }
    let place = free_place(bytes);
    if place >= MOST_ENTRIES && place == entries_in(bytes).len() {
        return Err(LinkFault::Full);
    }
    Ok(link_at(place as u32, name, number))
}

/// The write that frees the entry of a name, or none where the name leads nowhere.
pub fn unlink(bytes: &[u8], name: &Name) -> Option<EntryWrite>
    requires { length bytes.now < 2 ^ 32 }
    ensures within { IfSome result (λ write. entry_size * write.place < 2 ^ 32) }
    ensures unlinks { IfSome result (λ write. Unlinks bytes.now name.now write) }
    ensures gone { IfSome result (λ write. HasOnce bytes.now name.now
        → lookup (written bytes.now write) name.now ≡ None) }
    ensures others { IfSome result (λ write. KeepsOthers
        name.now bytes.now (written bytes.now write)) }
    ensures absent { IfNone result (lookup bytes.now name.now ≡ None) }
{
    let place = place_of(bytes, name)?;
    Some(free_at(place as u32))
}

/// The write that gives the entry of a name another number, or none where the name leads nowhere.
pub fn repoint(bytes: &[u8], name: &Name, number: u16) -> Option<EntryWrite>
    requires used { 0 < number }
    requires size { length bytes.now < 2 ^ 32 }
    ensures within { IfSome result (λ write. entry_size * write.place < 2 ^ 32) }
    ensures repoints { IfSome result (λ write. Repoints bytes.now name.now number write) }
    ensures leads { IfSome result (λ write. lookup (written bytes.now write) name.now
        ≡ Some number) }
    ensures others { IfSome result (λ write. KeepsOthers
        name.now bytes.now (written bytes.now write)) }
    ensures absent { IfNone result (lookup bytes.now name.now ≡ None) }
{
    let place = place_of(bytes, name)?;
    Some(link_at(place as u32, name, number))
}

/// The entries of a directory.
#[tactic(auto, unfolding(crate::specs::Entries::entries_of))]
pub fn entries_in(bytes: &[u8]) -> &[[u8; ENTRY_SIZE]]
    ensures value { result.now ≡ entries_of bytes.now }
    ensures len { length result.now ≡ length bytes.now / entry_size }
{
    let (entries, _) = bytes.as_chunks::<ENTRY_SIZE>();
    entries
}

/// The number of an entry's file, 0 where it is free.
#[tactic(auto, unfolding(crate::specs::Entries::number_in))]
pub fn number_in(entry: &[u8; ENTRY_SIZE]) -> u16
    ensures { result ≡ number_in entry.now }
{
    LittleEndian::read_u16(entry)
}

pub(crate) fn is_free(entry: &[u8; ENTRY_SIZE]) -> bool
    ensures { result ≡ is_free entry.now }
{
    number_in(entry) == 0
}

// Whether an entry, used or free, has that name.
pub(crate) fn has_name(entry: &[u8; ENTRY_SIZE], name: &Name) -> bool
    ensures { result ≡ bytes_eq (name_in entry.now) name.now }
{
    let own = name_in(entry);
    &own[..] == name.as_slice()
}

// Whether an entry is used, and has that name.
fn is_for(entry: &[u8; ENTRY_SIZE], name: &Name) -> bool
    ensures { result ≡ is_for name.now entry.now }
{
    !is_free(entry) && has_name(entry, name)
}

// The place of the first entry with a name.
fn place_of(bytes: &[u8], name: &Name) -> Option<usize>
    ensures place { result ≡ place_of bytes.now name.now }
    ensures within { IfSome result (λ place. place < length bytes.now / entry_size) }
{
    entries_in(bytes)
        .iter()
        .position(|entry| is_for(entry, name))
}

// The first free place, or the one behind the last entry.
fn free_place(bytes: &[u8]) -> usize
    ensures place { result ≡ free_place bytes.now }
    ensures within { result ≤ length bytes.now / entry_size }
{
    let entries = entries_in(bytes);
    match first_free(entries) {
        Some(place) => place,
        None => entries.len(),
    }
}

fn first_free(entries: &[[u8; ENTRY_SIZE]]) -> Option<usize>
    ensures place { result ≡ position is_free entries.now }
    ensures within { IfSome result (λ place. place < length entries.now) }
{
    entries.iter().position(|entry| is_free(entry))
}

// The write of an entry.
fn link_at(place: u32, name: &Name, number: u16) -> EntryWrite
    ensures place { result.place ≡ place }
    ensures entry { result.entry ≡ entry_bytes number name.now }
    ensures name { IsStored name.now }
    ensures fits { number < 65536 }
{
    let mut entry = [0; ENTRY_SIZE];
    LittleEndian::write_u16(&mut entry[..2], number);
    entry[2..].copy_from_slice(name.as_slice());
    EntryWrite { place, entry }
}

/// The bytes of a new directory: its entries for itself and for its parent.
///
/// # Errors
///
/// `NoMemory` where memory for the 32 bytes was refused.
pub fn new_directory(alloc: Global, number: u16, parent: u16) -> Result<Content, NoMemory>
    ensures { IfOk result (λ bytes. bytes ≡ new_directory number parent) }
{
    let own = link_at(0, &Name::own(), number);
    let up = link_at(1, &Name::parent(), parent);
    let mut bytes = [0; 32];
    bytes[..ENTRY_SIZE].copy_from_slice(&own.entry);
    bytes[ENTRY_SIZE..].copy_from_slice(&up.entry);
    Content::copy_of(alloc, &bytes)
}

// The write of a free entry.
fn free_at(place: u32) -> EntryWrite
    ensures place { result.place ≡ place }
    ensures entry { result.entry ≡ replicate entry_size 0 }
{
    EntryWrite {
        place,
        entry: [0; ENTRY_SIZE],
    }
}
