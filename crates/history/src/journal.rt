// The operations that had their turn, as clauses see them: no entry takes bytes.
ghost use Rattle.std.specs.Prelude.{◌≡◌, ◌<◌, ◌^◌, ◌+◌, [], length, IfOk, IfSome, OnErr};

use crate::{Record, Told};
use blocks::NoMemory;
use model::types::{Entry, Reply};
use std::alloc::Global;
use std::marker::Model;

/// The entries, the oldest first, and for how many more there is room. In memory are these two
/// counts alone, and the entries where a record of them is kept.
#[derive(Drop)]
pub struct Journal {
    told: Told,
    count: usize,
    room: usize,
    kept: Record,
}

impl Model for Journal {
    ghost use Rattle.std.specs.Prelude.{◌≡◌, ◌<◌, ◌+◌, ◌^◌, length};
    ghost use Rattle.history.specs.World.{Entries};

    ghost Value = { Entries };

    ghost view = { λ j. record { list = j.told.list; room = j.room } };

    ghost use Rattle.history.specs.Recording.{Records};

    ghost invariant = { λ j. (length j.told.list ≡ j.count) × (j.count + j.room < 2 ^ 64)
        × Records j.kept j.told.list };
}

impl Journal {
    ghost use Rattle.history.specs.Journal.{reserved, journal_with, journal_told};

    /// Without entries, and without room.
    pub fn new(alloc: Global) -> Journal
        ensures { result ≡ record { list = []; room = 0 } }
    {
        Journal {
            told: Told::new(),
            count: 0,
            room: 0,
            kept: Record::new(alloc),
        }
    }

    /// Keeps the entries in memory from now on, for `entries`, if there are none yet.
    pub fn record(&mut self)
        ensures { self.new ≡ self.old }
    {
        if self.count == 0 {
            self.kept.start();
        }
    }

    /// The entries, the oldest first, where they are kept.
    pub fn entries(&self) -> Option<&[Entry]>
        ensures { IfSome result (λ entries. entries.now ≡ self.now.list) }
    {
        self.kept.entries()
    }

    /// How many entries there are.
    pub fn count(&self) -> usize
        ensures { result ≡ length self.now.list }
    {
        self.count
    }

    /// Does nothing: entries and room can be counted.
    pub fn known(&self)
        ensures { length self.now.list + self.now.room < 2 ^ 64 }
    {
        let _ = &self.told;
    }

    /// Makes room for one more entry.
    ///
    /// # Errors
    ///
    /// `NoMemory` where entries could not be counted any more; nothing is changed.
    pub fn reserve(&mut self) -> Result<(), NoMemory>
        requires { self.old.room + 1 < 2 ^ 64 }
        ensures ok { IfOk result (λ _. self.new ≡ reserved self.old) }
        ensures err { OnErr result (self.new ≡ self.old) }
    {
        if self.count + self.room == usize::MAX {
            return Err(NoMemory);
        }
        self.room += 1;
        Ok(())
    }

    /// Adds an entry, in room that was made. Its index among the entries, from 0.
    pub fn add(&mut self, entry: &Entry) -> usize
        requires { 0 < self.old.room }
        ensures index { result ≡ length self.old.list }
        ensures entries { self.new ≡ journal_with self.old entry.now }
    {
        let index = self.count;
        self.room -= 1;
        self.count += 1;
        self.told.add(entry);
        self.kept.add(entry);
        index
    }

    /// The reply of the entry at this index is decided.
    pub fn tell(&mut self, index: usize, reply: &Reply)
        requires { index < length self.old.list }
        ensures { self.new ≡ journal_told self.old index reply.now }
    {
        self.told.reply(index, reply);
        self.kept.tell(index, reply);
    }
}
