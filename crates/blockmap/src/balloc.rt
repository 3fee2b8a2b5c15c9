// A block is taken.
ghost use Rattle.std.specs.Prelude.{◌≡◌, ◌<◌, ◌≤◌, ◌+◌, ◌==◌, true, not, length, position, None, Some};
ghost use Rattle.model.specs.Format.{bits_per_block};
ghost use Rattle.wal.specs.Joint.{seen};
ghost use Rattle.wal.specs.Machine.{HasRoom, used_by};
ghost use Rattle.wal.specs.Volume.{Holds};
ghost use Rattle.blockmap.specs.Balloc.{MayAlloc, Allocs, AreFull, Zeroes, byte_with, lowest_clear};
ghost use Rattle.blockmap.specs.Deeds.{deed_of_alloc};
ghost use Rattle.blockmap.specs.declared.balloc.AllocAt.TheVariants as alloc_at;

use crate::Progress;
use crate::getting::{put_block, release_block};
use blocks::{BLOCK_SIZE, Block, Disk};
use std::marker::Model;
use wal::{TaskDeed, Volume};

// So many bytes of a bitmap are looked at at once.
const GROUP: usize = 32;

// What a block is zeroed from.
static ZEROES: [u8; BLOCK_SIZE] = [0; BLOCK_SIZE];

/// Where the taking of a block stands.
#[derive(Clone, Copy)]
pub enum AllocAt {
    /// The bitmap's block is got and looked at, in that slot once it was got.
    Looking(Option<u32>),
    /// A block was taken, and is got and zeroed.
    Zeroing {
        /// The block.
        block: u32,
        /// The slot that holds it, where it was got.
        slot: Option<u32>,
    },
}

/// The steps in which a block is taken (`balloc`; the xv6 book, the chapter "File system": "Code:
/// Block allocator"): one gets the bitmap's block, the next one sets the lowest clear bit in it,
/// and where there was one, one gets the block of that bit and the last one zeroes it.
#[derive(Clone, Copy)]
pub struct Balloc {
    /// The bitmap's block.
    bitmap: u32,
    /// The image's size in blocks: no bit from there on is taken.
    size: u32,
    at: AllocAt,
}

impl Model for Balloc {
    ghost use Rattle.blockmap.specs.Balloc.{AllocState};

    ghost Value = { AllocState };

    ghost view = { λ m. record { bitmap = m.bitmap; size = m.size; at = m.at } };

    ghost inverse = { λ m. record { bitmap = m.bitmap; size = m.size; at = m.at } };
}

impl Balloc {
    ghost use Rattle.blockmap.specs.Balloc.{first_alloc};

    /// Begins to take a block of an image of that many blocks, whose bits stand in that block of
    /// the bitmap.
    pub fn new(bitmap: u32, size: u32) -> Balloc
        ensures { result ≡ first_alloc bitmap size }
    {
        Balloc {
            bitmap,
            size,
            at: AllocAt::Looking(None),
        }
    }

    /// What the next step does.
    pub fn deed(&self) -> TaskDeed
        ensures { result ≡ deed_of_alloc self.now self.now.at }
    {
        match self.at {
            AllocAt::Looking(slot) => TaskDeed::with_block(self.bitmap, slot),
            AllocAt::Zeroing { block, slot } => TaskDeed::with_block(block, slot),
        }
    }

    /// Makes the next step. `Over` with the block that was taken, which is one of zeroes; with None
    /// where each block is taken, and nothing was changed. `Sleeping` where the buffer of a block
    /// is held by another process, or none is to be had.
    pub fn step<D: Disk>(&mut self, volume: &mut Volume<D>, pid: u32) -> Progress<Option<u32>>
        requires fault { volume.old.fault ≡ None }
        requires pid { pid < 32 }
        requires room { HasRoom (used_by volume.old.log pid) }
        requires ready { MayAlloc D.image volume.old pid self.old }
        ensures { Allocs D.Disk self.old.at volume.old pid self.old result self.new volume.new }
    {
        match self.at {
            AllocAt::Looking(None) => {
                let mut slot = None;
                let progress = volume.get(pid, self.bitmap, &mut slot);
                self.at = AllocAt::Looking(slot);
                progress
            }
            AllocAt::Looking(Some(slot)) => self.take_lowest(volume, pid, slot),
            AllocAt::Zeroing { block, slot: None } => {
                let mut slot = None;
                let progress = volume.get(pid, block, &mut slot);
                self.at = AllocAt::Zeroing { block, slot };
                progress
            }
            AllocAt::Zeroing {
                block,
                slot: Some(slot),
            } => {
                zero_block(volume, pid, block, slot);
                Progress::Over(Some(block))
            }
        }
    }

    // Sets the lowest clear bit of the bitmap's block, which that slot holds.
    fn take_lowest<D: Disk>(
        &mut self,
        volume: &mut Volume<D>,
        pid: u32,
        slot: u32,
    ) -> Progress<Option<u32>>
        requires fault { volume.old.fault ≡ None }
        requires pid { pid < 32 }
        requires room { HasRoom (used_by volume.old.log pid) }
        requires ready { MayAlloc D.image volume.old pid self.old }
        requires at { self.old.at ≡ alloc_at.Looking (Some slot) }
        ensures { Allocs D.Disk (alloc_at.Looking (Some slot)) volume.old pid self.old result
            self.new volume.new }
    {
        let bits = volume.data(slot);
        let Some(block) = lowest_clear(bits, self.size) else {
            release_block(volume, pid, slot);
            return Progress::Over(None);
        };
        let byte = byte_with(bits, block);
        put_block(volume, pid, slot, (block / 8) as usize, &[byte]);
        self.at = AllocAt::Zeroing { block, slot: None };
        Progress::Moved
    }
}

// Zeroes a block, which that slot holds.
fn zero_block<D: Disk>(volume: &mut Volume<D>, pid: u32, block: u32, slot: u32)
    requires fault { volume.old.fault ≡ None }
    requires pid { pid < 32 }
    requires room { HasRoom (used_by volume.old.log pid) }
    requires holds { Holds (seen (D.image volume.old.device) volume.old.buffers)
        volume.old.buffers pid block slot }
    ensures { Zeroes D.Disk volume.old pid slot block volume.new }
{
    let _bytes = volume.data(slot);
    put_block(volume, pid, slot, 0, &ZEROES);
}

// The lowest bit below a size that is clear.
fn lowest_clear(bits: &Block, size: u32) -> Option<u32>
    requires { size < bits_per_block }
    ensures { result ≡ lowest_clear bits.now size }
{
    let bytes = bits.as_slice();
    let at = first_not_full(bytes)?;
    let bit = 8 * at as u32 + bytes[at].trailing_ones();
    if bit < size { Some(bit) } else { None }
}

// The place of the first byte that has a clear bit.
fn first_not_full(bytes: &[u8]) -> Option<usize>
    ensures { result ≡ position (λ byte. not (byte == 255)) bytes.now }
{
    for place in full_groups(bytes)..bytes.len() {
        if bytes[place] != u8::MAX {
            return Some(place);
        }
    }
    None
}

// The place behind the whole groups of bytes without a clear bit with which these begin.
fn full_groups(bytes: &[u8]) -> usize
    ensures within { result ≤ length bytes.now }
    ensures full { AreFull bytes.now 0 result }
{
    let groups = bytes.len() / GROUP;
    for group in 0..groups {
        if !is_full(bytes, group * GROUP) {
            return group * GROUP;
        }
    }
    groups * GROUP
}

// Whether the group of bytes at a place has no clear bit. No byte ends the search early, so that
// several are compared at once.
fn is_full(bytes: &[u8], at: usize) -> bool
    requires { at + 32 ≤ length bytes.now }
    ensures { result ≡ true → AreFull bytes.now at (at + 32) }
{
    let mut full = true;
    for place in at..at + GROUP {
        full &= bytes[place] == u8::MAX;
    }
    full
}

// The byte in which a block's bit stands, with that bit set.
fn byte_with(bits: &Block, block: u32) -> u8
    requires { block < bits_per_block }
    ensures { result ≡ byte_with bits.now block }
{
    bits.as_slice()[(block / 8) as usize] | 1 << (block % 8)
}
