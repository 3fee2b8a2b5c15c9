// Which blocks are owned, block by block: what tells a block at two places, or at none.
ghost use Rattle.std.specs.Prelude.{◌≡◌, ◌≢◌, ◌≤◌, ◌<◌, ◌^◌, ◌+◌, ◌∷◌, ◌++◌, [], List, ℕ, length, slice_index, replicate, false, OnErr, OnOk, IfOk};
ghost use Rattle.blocks.specs.Disk.{Image};
ghost use Rattle.model.specs.Places.{addresses_in, places_of, pointer_of};
ghost use Rattle.model.specs.Verdict.{mark_fault, pointer_fault};

use blocks::{BLOCK_SIZE, Block, NoMemory};
use layout::bitmap::bit;
use model::types::{CheckFault, Pointer};
use std::alloc::Global;

// An address, which a file of `size` bytes needs where it reaches its block `first`.
pub(crate) fn pointer(size: u32, first: u32, address: u32) -> Pointer
    requires { first < 2 ^ 22 }
    ensures { result ≡ pointer_of size first address }
{
    Pointer {
        address,
        needed: first * (BLOCK_SIZE as u32) < size,
    }
}

#[derive(Drop)]
pub struct Owners {
    /// The first data block.
    pub first_data: u32,
    /// Blocks of the image.
    pub size: u32,
    pub bitmap: Block,
    /// For each block, whether an inode owns it.
    pub owned: Vec<bool>,
    ghost limit: { size ≤ 8191 },
    ghost sized: { length owned.items ≡ size },
}

impl Owners {
    ghost use Rattle.offline.specs.Owners.{Stand, SameLimits, Judges, JudgesAddress, JudgesMark, JudgesMarks, there};

    /// A table of the blocks of an image, none of them owned yet.
    pub fn new(alloc: Global, first_data: u32, size: u32, bitmap: Block) -> Result<Owners, NoMemory>
        requires { size ≤ 8191 }
        ensures first { IfOk result (λ owners. owners.first_data ≡ first_data) }
        ensures size { IfOk result (λ owners. owners.size ≡ size) }
        ensures bitmap { IfOk result (λ owners. owners.bitmap ≡ bitmap) }
        ensures owned { IfOk result (λ owners. owners.owned.items ≡ replicate size false) }
    {
        Ok(Owners {
            first_data,
            size,
            bitmap,
            owned: vec![in alloc; false; size as usize]?,
        })
    }

    /// Notes that inode i has a block at this address.
    fn claim_address(&mut self, i: u32, address: u32) -> Result<(), CheckFault>
        ensures limits { SameLimits self.old self.new }
        ensures kept { OnErr result (self.new ≡ self.old) }
        ensures inside { OnOk result ((self.old.first_data ≤ address) × (address < self.old.size)) }
        ensures judged { (y : Image) (earlier : List ℕ) →
            Stand self.old y earlier → JudgesAddress y i earlier address self.new result }
    {
        if address < self.first_data || address >= self.size {
            return Err(CheckFault::BadAddress(i));
        }
        if self.owned[address as usize] {
            return Err(CheckFault::TwiceUsed(address));
        }
        if !bit(&self.bitmap, address) {
            return Err(CheckFault::UsedButFree(address));
        }
        self.owned[address as usize] = true;
        Ok(())
    }

    /// Notes what a pointer of inode i leads to.
    pub fn claim(&mut self, i: u32, pointer: Pointer) -> Result<(), CheckFault>
        ensures limits { SameLimits self.old self.new }
        ensures kept { OnErr result (self.new ≡ self.old) }
        ensures inside { OnOk result (pointer.address ≢ 0 →
            (self.old.first_data ≤ pointer.address) × (pointer.address < self.old.size)) }
        ensures judged { (y : Image) (earlier : List ℕ) →
            Stand self.old y earlier → Judges y i earlier (pointer ∷ []) self.new result }
    {
        if pointer.address != 0 {
            return self.claim_address(i, pointer.address);
        }
        if pointer.needed {
            return Err(CheckFault::BadAddress(i));
        }
        Ok(())
    }

    // Notes that an inode has a block at this address, if there is one.
    fn place(&mut self, address: u32)
        ensures limits { SameLimits self.old self.new }
        ensures stand { (y : Image) (earlier : List ℕ) →
            Stand self.old y earlier → Stand self.new y (earlier ++ there address) }
    {
        if address != 0 && address < self.size {
            self.owned[address as usize] = true;
        }
    }

    /// Notes what a pointer of inode i leads to, whatever is wrong with it. Its fault, if it has one.
    pub fn note(&mut self, i: u32, pointer: Pointer) -> Option<CheckFault>
        ensures limits { SameLimits self.old self.new }
        ensures noted { (y : Image) (earlier : List ℕ) → Stand self.old y earlier →
            (result ≡ pointer_fault y i earlier pointer)
            × Stand self.new y (earlier ++ addresses_in (pointer ∷ [])) }
    {
        match self.claim(i, pointer) {
            Ok(()) => None,
            Err(fault) => {
                self.place(pointer.address);
                Some(fault)
            }
        }
    }

    /// Judges the bit of block b, once all places are noted.
    #[tactic(auto, unfolding(model::specs::Verdict::mark_fault))]
    fn check_mark(&self, b: u32) -> Result<(), CheckFault>
        requires { b < self.now.size }
        ensures { (y : Image) → Stand self.now y (places_of y) → JudgesMark y b result }
    {
        let is_marked = bit(&self.bitmap, b);
        if b < self.first_data {
            return if is_marked {
                Ok(())
            } else {
                Err(CheckFault::UsedButFree(b))
            };
        }
        if is_marked && !self.owned[b as usize] {
            return Err(CheckFault::LostBlock(b));
        }
        Ok(())
    }

    /// The fault of the bit of block b, once all places are noted, if it has one.
    pub fn mark_fault(&self, b: u32) -> Option<CheckFault>
        requires { b < self.now.size }
        ensures { (y : Image) → Stand self.now y (places_of y) → result ≡ mark_fault y b }
    {
        match self.check_mark(b) {
            Ok(()) => None,
            Err(fault) => Some(fault),
        }
    }

    /// Judges the bits of all blocks, once all places are noted.
    pub fn check_marks(&self) -> Result<(), CheckFault>
        ensures { (y : Image) → Stand self.now y (places_of y) → JudgesMarks y result }
    {
        for b in 0..self.size {
            self.check_mark(b)?;
        }
        Ok(())
    }
}
