// The notes of a turn's steps.
ghost use Rattle.std.specs.Prelude.{◌≡◌, ◌<◌, ◌++◌, ◌∷◌, [], IfOk, length};

use blocks::NoMemory;
use messages::StepNote;
use std::alloc::Global;
use std::marker::Model;

/// A process never makes so many steps in a turn, whatever the image's form.
pub(crate) const MOST_STEPS: usize = 40_000;

/// What a disk had counted before a run.
#[derive(Clone, Copy)]
pub struct Base {
    /// The blocks written.
    pub writes: u64,
    /// The syncs.
    pub syncs: u64,
}

/// Notes, with room for those of the longest turn.
#[derive(Drop)]
pub struct Notes {
    list: Vec<StepNote>,
}

impl Model for Notes {
    ghost use Rattle.std.specs.Prelude.{◌≡◌, ◌≤◌, List, length, vec_len, vec_capacity};
    ghost use Rattle.messages.specs.declared.deeds.StepNote.{StepNote};

    ghost Value = { List StepNote };

    ghost view = { λ n. n.list.items };

    ghost invariant = { λ n. 40000 ≤ vec_capacity n.list };
}

impl Notes {
    // None yet.
    pub(crate) fn new(alloc: Global) -> Result<Notes, NoMemory>
        ensures { IfOk result (λ notes. notes ≡ []) }
    {
        Ok(Notes {
            list: Vec::with_capacity(alloc, MOST_STEPS)?,
        })
    }

    // Lets all go.
    pub(crate) fn clear(&mut self)
        ensures { self.new ≡ [] }
    {
        self.list.clear();
    }

    // Adds one; no memory is taken.
    pub(crate) fn add(&mut self, note: StepNote)
        requires { length self.old < 40000 }
        ensures { self.new ≡ self.old ++ note ∷ [] }
    {
        self.list.push_reserved(note);
    }

    // The notes, the oldest first.
    pub(crate) fn as_slice(&self) -> &[StepNote]
        ensures { result.now ≡ self.now }
    {
        self.list.as_slice()
    }
}
