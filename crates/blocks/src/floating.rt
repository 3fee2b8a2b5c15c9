// What a crash may leave of a disk, as clauses see it. It takes no bytes.
ghost use Rattle.std.specs.Prelude.{◌≡◌, ◌∷◌, ◌++◌, [], false, true};
ghost use Rattle.blocks.specs.Held.{IsNoted, IsSettledOn};

use crate::moments::Moments;
use crate::{BLOCK_SIZE, Block};
use std::mem;
use std::snapshot::Snapshot;

/// A write that is held back: the block's number and its bytes.
#[derive(Drop)]
pub struct Noted {
    at: u32,
    block: Snapshot<Block>,
}

/// The blocks of the last sync, and the writes since, the oldest first.
#[derive(Drop)]
pub struct Floating {
    synced: Snapshot<Vec<[u8; BLOCK_SIZE]>>,
    held: Moments<Noted>,
}

impl Floating {
    // Nothing is held over these blocks.
    fn settled(blocks: &Vec<[u8; BLOCK_SIZE]>) -> Floating
        ensures { IsSettledOn blocks.now.items result }
    {
        Floating {
            synced: Snapshot::of(blocks),
            held: Moments::new(),
        }
    }

    // Holds one write more.
    fn note(&mut self, at: u32, from: &Block)
        ensures { IsNoted at from.now self.old self.new }
    {
        let block = Snapshot::of(from);
        let _ = self.held.remember(Noted { at, block });
    }
}

/// What a crash may leave now, and what it might have left at each moment before.
#[derive(Drop)]
pub struct Shadow {
    past: Moments<Floating>,
    state: Floating,
}

impl Shadow {
    /// Of a disk with these blocks, on which nothing is held.
    pub fn over(blocks: &Vec<[u8; BLOCK_SIZE]>) -> Shadow
        ensures past { result.past ≡ [] }
        ensures state { IsSettledOn blocks.now.items result.state }
    {
        Shadow {
            past: Moments::new(),
            state: Floating::settled(blocks),
        }
    }

    /// A write was made, of a disk that holds it back or now has these blocks.
    pub fn write(&mut self, holds: bool, at: u32, from: &Block, blocks: &Vec<[u8; BLOCK_SIZE]>)
        ensures past { self.new.past ≡ self.old.past ++ self.old.state ∷ [] }
        ensures held { holds ≡ true → IsNoted at from.now self.old.state self.new.state }
        ensures plain { holds ≡ false → IsSettledOn blocks.now.items self.new.state }
    {
        if holds {
            self.note(at, from, blocks);
        } else {
            self.settle(blocks);
        }
    }

    /// One write more is held.
    pub fn note(&mut self, at: u32, from: &Block, blocks: &Vec<[u8; BLOCK_SIZE]>)
        ensures past { self.new.past ≡ self.old.past ++ self.old.state ∷ [] }
        ensures state { IsNoted at from.now self.old.state self.new.state }
    {
        let state = mem::replace(&mut self.state, Floating::settled(blocks));
        let mut state = self.past.remember(state);
        state.note(at, from);
        self.state = state;
    }

    /// Nothing is held any more: the disk has these blocks.
    pub fn settle(&mut self, blocks: &Vec<[u8; BLOCK_SIZE]>)
        ensures past { self.new.past ≡ self.old.past ++ self.old.state ∷ [] }
        ensures state { IsSettledOn blocks.now.items self.new.state }
    {
        let state = mem::replace(&mut self.state, Floating::settled(blocks));
        let _ = self.past.remember(state);
    }
}
