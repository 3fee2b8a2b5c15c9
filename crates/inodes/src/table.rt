// The inodes in memory.
ghost use Rattle.std.specs.Prelude.{◌≡◌, ◌<◌, ◌+◌, ◌^◌, ℕ, IsSome, IfSome, Some, false, is_none, length, position, if◌then◌else◌};
ghost use Rattle.inodes.specs.Table.{HasNot, IsNumbered, TableState, new_table, HasPlaceFor, place_for, entry_at, holder_at, copy_at, is_of, number_in, with_reference, without_reference, referred, locked, renewed, left};

use layout::Super;
use model::types::{Dinode, Form};
use std::marker::Model;

// How many inodes are in memory at most: xv6's NINODE.
const PLACES: usize = 50;

/// An inode in memory, to which some process refers (xv6's `struct inode`).
#[derive(Clone, Copy)]
pub struct InMemory {
    /// Its number.
    pub number: u32,
    /// The processes that refer to it, at least one.
    pub references: u32,
    /// The process that has its sleep lock.
    pub holder: Option<u32>,
    /// The inode itself, once it was read. One that is free is never kept here.
    pub copy: Option<Dinode>,
}

/// The table of the inodes in memory: 50 places, numbered from 0 (the xv6 book, the chapter "File
/// system": "Code: Inodes"). A place to which nobody refers is free.
#[derive(Drop)]
pub struct Inodes {
    places: [Option<InMemory>; 50],
    // The number of each place's inode once more, side by side, where a search meets no inode. That
    // of a free place is 0, which no operation names, so that few searches go over the inodes.
    numbers: [u32; PLACES],
    inode_count: u32,
    form: Form,
}

impl Model for Inodes {
    ghost use Rattle.inodes.specs.Table.{HasNot, IsNumbered, TableState};

    ghost Value = { TableState };

    ghost view = { λ t.
        record { places = t.places; inode_count = t.inode_count; form = t.form } };

    ghost invariant = { λ t. IsNumbered t.numbers t.places };
}

impl Inodes {
    /// A table for the image of this superblock and form, with no inode in it.
    pub fn new(sup: &Super, form: Form) -> Inodes
        ensures { result ≡ new_table form sup.now.ninodes }
    {
        Inodes {
            places: [None; PLACES],
            numbers: [0; PLACES],
            inode_count: sup.ninodes,
            form,
        }
    }

    /// The image's form.
    pub fn form(&self) -> Form
        ensures { result ≡ self.now.form }
    {
        self.form
    }

    /// The image's inode numbers, the unused number 0 included.
    pub fn inode_count(&self) -> u32
        ensures { result ≡ self.now.inode_count }
    {
        self.inode_count
    }

    /// The inode that was read to a place; None where it was not read yet.
    pub fn copy(&self, place: usize) -> Option<Dinode>
        requires { place < 50 }
        ensures { result ≡ copy_at self.now.places place }
    {
        match self.places[place] {
            Some(inode) => inode.copy,
            None => None,
        }
    }

    /// Who has the sleep lock of the inode at a place.
    pub fn holder(&self, place: usize) -> Option<u32>
        ensures { result ≡ holder_at self.now.places place }
    {
        let inode = self.places.get(place)?;
        match inode {
            Some(inode) => inode.holder,
            None => None,
        }
    }

    /// Takes a reference to the inode of a number (`iget`): at its place, or else at the first free
    /// one, where it is not read yet and nobody has its lock. The place.
    pub fn refer(&mut self, number: u32) -> usize
        requires { HasPlaceFor self.old number }
        ensures place { Some result ≡ place_for self.old.places number }
        ensures within { result < 50 }
        ensures table { self.new ≡ referred self.old number result }
    {
        let Some(place) = place_for(&self.places, &self.numbers, number) else {
            unreachable!();
        };
        let inode = with_reference(self.places[place], number);
        self.numbers[place] = inode.number;
        self.places[place] = Some(inode);
        place
    }

    /// Takes an inode's sleep lock for a process (`ilock`), if nobody has it.
    pub fn lock(&mut self, place: usize, pid: u32) -> bool
        requires place { place < 50 }
        requires inode { IsSome (entry_at self.old.places place) }
        ensures answer { result ≡ is_none (holder_at self.old.places place) }
        ensures table { self.new ≡ (if result then locked self.old place pid else self.old) }
    {
        let Some(inode) = &mut self.places[place] else {
            unreachable!();
        };
        if inode.holder.is_some() {
            return false;
        }
        inode.holder = Some(pid);
        true
    }

    /// The inode of a place is this one from now on; None where it is to be read anew.
    pub fn renew(&mut self, place: usize, copy: Option<Dinode>)
        requires place { place < 50 }
        requires inode { IsSome (entry_at self.old.places place) }
        ensures { self.new ≡ renewed self.old place copy }
    {
        let Some(inode) = &mut self.places[place] else {
            unreachable!();
        };
        inode.copy = copy;
    }

    /// The holder of an inode's sleep lock gives up lock and reference (`iunlock`, `iput`). With the
    /// last reference the place is free.
    pub fn leave(&mut self, place: usize)
        requires { place < 50 }
        ensures { self.new ≡ left self.old place }
    {
        let left = without_reference(self.places[place]);
        self.numbers[place] = number_in(&left);
        self.places[place] = left;
    }
}

// Where an inode is in memory, or else the first free place.
fn place_for(places: &[Option<InMemory>], numbers: &[u32; PLACES], number: u32) -> Option<usize>
    requires { IsNumbered numbers.now places.now }
    ensures place { result ≡ place_for places.now number }
    ensures within { IfSome result (λ place. place < length places.now) }
{
    if !has_number(numbers, number) {
        return free_place(places);
    }
    match place_of(places, number) {
        Some(place) => Some(place),
        None => free_place(places),
    }
}

// Whether a number is among these. No number ends the search early, so that several are compared at
// once.
fn has_number(numbers: &[u32; PLACES], number: u32) -> bool
    ensures { result ≡ false → HasNot numbers.now number 50 }
{
    let mut found = false;
    for place in 0..PLACES {
        found |= numbers[place] == number;
    }
    found
}

// Where an inode is in memory.
fn place_of(places: &[Option<InMemory>], number: u32) -> Option<usize>
    ensures place { result ≡ position (is_of number) places.now }
    ensures within { IfSome result (λ place. place < length places.now) }
{
    places.iter().position(|inode| is_of(inode, number))
}

// The first free place.
fn free_place(places: &[Option<InMemory>]) -> Option<usize>
    ensures place { result ≡ position (λ inode. is_none inode) places.now }
    ensures within { IfSome result (λ place. place < length places.now) }
{
    places.iter().position(|inode| inode.is_none())
}

// The number of a place's inode; 0 where the place is free.
fn number_in(inode: &Option<InMemory>) -> u32
    ensures { result ≡ number_in inode.now }
{
    match inode {
        Some(inode) => inode.number,
        None => 0,
    }
}

// Whether a place is that number's.
fn is_of(inode: &Option<InMemory>, number: u32) -> bool
    ensures { result ≡ is_of number inode.now }
{
    match inode {
        Some(inode) => inode.number == number,
        None => false,
    }
}

// An inode with one reference more.
fn with_reference(inode: Option<InMemory>, number: u32) -> InMemory
    requires { IfSome inode (λ inode. inode.references + 1 < 2 ^ 32) }
    ensures { result ≡ with_reference inode number }
{
    match inode {
        Some(inode) => InMemory {
            references: inode.references + 1,
            ..inode
        },
        None => InMemory {
            number,
            references: 1,
            holder: None,
            copy: None,
        },
    }
}

// An inode without its lock, and with one reference less; none without the last.
fn without_reference(inode: Option<InMemory>) -> Option<InMemory>
    ensures { result ≡ without_reference inode }
{
    match inode {
        Some(inode) if inode.references > 1 => Some(InMemory {
            references: inode.references - 1,
            holder: None,
            ..inode
        }),
        Some(_) | None => None,
    }
}
