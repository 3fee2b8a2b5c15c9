// At how many places each block of an image stands: none, one, or more.
ghost use Rattle.std.specs.Prelude.{◌≡◌, ◌≤◌, ◌+◌, ◌++◌, List, ℕ, length, min, replicate, IfOk};
ghost use Rattle.std.specs.List.{list_all};
ghost use Rattle.blocks.specs.Disk.{Image};
ghost use Rattle.model.specs.Places.{addresses_in, places_of};

use blocks::{Block, NoMemory};
use layout::bitmap::bit;
use model::types::Pointer;
use std::alloc::Global;

#[derive(Drop)]
pub struct Table {
    /// The first data block.
    pub first_data: u32,
    pub bitmap: Block,
    /// For each block of the image 0, 1, or 2 for more.
    pub counts: Vec<u8>,
    ghost limit: { length counts.items ≤ 8191 },
}

// One place more, of which no more than two are counted.
fn one_more(count: u8) -> u8
    ensures { result ≡ min 2 (count + 1) }
{
    if count == 0 { 1 } else { 2 }
}

impl Table {
    ghost use Rattle.offline.specs.Clean.{Counts, is_clean_pointer};
    ghost use Rattle.offline.specs.Owners.{there};

    /// A table of that many blocks, none of them at a place yet.
    pub fn new(alloc: Global, first_data: u32, size: u32, bitmap: Block) -> Result<Table, NoMemory>
        requires { size ≤ 8191 }
        ensures first { IfOk result (λ table. table.first_data ≡ first_data) }
        ensures bitmap { IfOk result (λ table. table.bitmap ≡ bitmap) }
        ensures counts { IfOk result (λ table. table.counts.items ≡ replicate size 0) }
    {
        Ok(Table {
            first_data,
            bitmap,
            counts: vec![in alloc; 0; size as usize]?,
        })
    }

    // Counts a place at this address, if there is one.
    fn count(&mut self, address: u32)
        ensures { (y : Image) (places : List ℕ) →
            Counts self.old y places → Counts self.new y (places ++ there address) }
    {
        if address != 0 && (address as usize) < self.counts.len() {
            let count = self.counts[address as usize];
            self.counts[address as usize] = one_more(count);
        }
    }

    /// Counts the places of pointers.
    pub fn count_all(&mut self, pointers: &[Pointer])
        ensures { (y : Image) (places : List ℕ) → Counts self.old y places →
            Counts self.new y (places ++ addresses_in pointers.now) }
    {
        for pointer in pointers {
            self.count(pointer.address);
        }
    }

    // Whether a pointer is clean, once all places are counted.
    fn is_clean(&self, pointer: Pointer) -> bool
        ensures { (y : Image) (i : ℕ) → Counts self.now y (places_of y) →
            result ≡ is_clean_pointer y i pointer }
    {
        if pointer.address == 0 {
            return !pointer.needed;
        }
        if pointer.address < self.first_data || pointer.address as usize >= self.counts.len() {
            return false;
        }
        bit(&self.bitmap, pointer.address) && self.counts[pointer.address as usize] < 2
    }

    /// Whether pointers are clean, once all places are counted.
    pub fn are_clean(&self, pointers: &[Pointer]) -> bool
        ensures { (y : Image) (i : ℕ) → Counts self.now y (places_of y) →
            result ≡ list_all (is_clean_pointer y i) pointers.now }
    {
        for pointer in pointers {
            if !self.is_clean(*pointer) {
                return false;
            }
        }
        true
    }
}
