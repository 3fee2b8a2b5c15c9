// The entries that a journal had, as clauses see them. They take no bytes.
ghost use Rattle.std.specs.Prelude.{◌≡◌, []};
ghost use Rattle.history.specs.Told.{told_with, told_reply};

use model::types::{Entry, Reply};
use std::marker::Model;
use std::mem;
use std::snapshot::Snapshot;

/// Contracts see the list of the entries, the oldest first, and how many events made it.
#[cycle(told)]
#[derive(Drop)]
pub struct Told {
    last: Snapshot<Event>,
}

#[cycle(told)]
#[derive(Drop)]
enum Event {
    Start,
    Added(Told, Snapshot<Entry>),
    Replied(Told, usize, Snapshot<Reply>),
}

impl Model for Told {
    ghost use Rattle.history.specs.Told.{Script};

    ghost Value = { Script };

    ghost use Rattle.history.specs.ToldEvents.{told_by};

    ghost view = { λ t. told_by t.last.value };

    ghost use Rattle.history.specs.Told.{events_of};

    ghost size = { events_of };

    ghost use Rattle.std.proofs.Common.{arith};

    ghost size_decreases = { λ t h. Prim.grind (arith) };
}

impl Told {
    /// No entries.
    pub fn new() -> Told
        ensures { result ≡ record { list = []; events = 0 } }
    {
        Told {
            last: Snapshot::of(&Event::Start),
        }
    }

    /// Adds an entry.
    pub fn add(&mut self, entry: &Entry)
        ensures { self.new ≡ told_with self.old entry.now }
    {
        let before = mem::replace(self, Told::new());
        let event = Event::Added(before, Snapshot::of(entry));
        *self = Told {
            last: Snapshot::of(&event),
        };
    }

    /// The entry at an index has this reply.
    pub fn reply(&mut self, index: usize, reply: &Reply)
        ensures { self.new ≡ told_reply self.old index reply.now }
    {
        let before = mem::replace(self, Told::new());
        let event = Event::Replied(before, index, Snapshot::of(reply));
        *self = Told {
            last: Snapshot::of(&event),
        };
    }
}
