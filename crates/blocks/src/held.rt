// The writes that a disk holds back.
ghost use Rattle.std.specs.Prelude.{◌≡◌, ◌<◌, ◌+◌, ◌∷◌, ◌++◌, [], length, IfOk};
ghost use Rattle.blocks.specs.Block.{IsBlock};
ghost use Rattle.blocks.specs.Held.{AreInside, chosen, held_by};

use crate::{BLOCK_SIZE, Block, NoMemory};
use std::alloc::Global;

/// The writes that it holds at most.
pub const ROOM: usize = 64;

/// A write that is held back.
#[derive(Drop)]
pub struct Held {
    pub at: u32,
    pub block: Block,
}

/// The blocks at the last sync, and the writes since, the oldest first: so many of the places.
#[derive(Drop)]
pub struct Holding {
    pub synced: Vec<[u8; BLOCK_SIZE]>,
    pub places: Vec<Held>,
    pub count: usize,
}

impl Holding {
    // Holds one write more.
    pub fn hold(&mut self, at: u32, from: &Block)
        requires { self.old.count < length self.old.places.items }
        ensures synced { self.new.synced ≡ self.old.synced }
        ensures held { held_by self.new ≡ held_by self.old ++ (at, from.now) ∷ [] }
        ensures count { self.new.count ≡ self.old.count + 1 }
        ensures room { length self.new.places.items ≡ length self.old.places.items }
        ensures block { IsBlock from.now }
    {
        let place = &mut self.places[self.count];
        place.at = at;
        place.block.copy_from(from);
        self.count += 1;
    }

    // Brings all that is held to the blocks, which are then these.
    pub fn settle(&mut self, shown: &Vec<[u8; BLOCK_SIZE]>)
        requires { length self.old.synced.items ≡ length shown.now.items }
        ensures synced { self.new.synced.items ≡ shown.now.items }
        ensures count { self.new.count ≡ 0 }
        ensures places { self.new.places ≡ self.old.places }
    {
        self.synced.copy_from_slice(shown);
        self.count = 0;
    }

    // The blocks with those of the writes that are kept.
    pub fn left(&self, alloc: Global, keep: &[bool]) -> Result<Vec<[u8; BLOCK_SIZE]>, NoMemory>
        requires count { length keep.now ≡ self.now.count }
        requires room { self.now.count < length self.now.places.items + 1 }
        requires inside { AreInside (length self.now.synced.items) (held_by self.now) }
        ensures { IfOk result (λ blocks. blocks.items
            ≡ chosen self.now.synced.items (held_by self.now) keep.now) }
    {
        let mut blocks = copies(alloc, &self.synced)?;
        for i in 0..self.count {
            if keep[i] {
                let write = &self.places[i];
                blocks[write.at as usize].copy_from_slice(write.block.as_slice());
            }
        }
        Ok(blocks)
    }
}

// The same blocks again.
pub fn copies(
    alloc: Global,
    from: &Vec<[u8; BLOCK_SIZE]>,
) -> Result<Vec<[u8; BLOCK_SIZE]>, NoMemory>
    ensures { IfOk result (λ blocks. blocks.items ≡ from.now.items) }
{
    let mut blocks = Vec::with_capacity(alloc, from.len())?;
    blocks.extend_from_slice(from)?;
    Ok(blocks)
}

// Places for all writes that may be held.
pub fn places(alloc: Global) -> Result<Vec<Held>, NoMemory>
    ensures { IfOk result (λ places. length places.items ≡ ROOM) }
{
    let mut places = Vec::new(alloc);
    for _ in 0..ROOM {
        places.push(Held {
            at: 0,
            block: Block::zeroed(alloc)?,
        })?;
    }
    Ok(places)
}
