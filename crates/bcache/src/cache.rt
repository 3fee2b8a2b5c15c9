// The cache.
ghost use Rattle.std.specs.Prelude.{◌≡◌, ℕ, ◌<◌, ◌≤◌, ◌+◌, ◌^◌, length, slice_index, slice_index_or, if◌then◌else◌, Some, None, IfOk, OnOk, OnErr, IfErr, IfSome, IsSome, position, reverse};
ghost use Rattle.std.specs.Borrow.{Lends, sem};
ghost use Rattle.blocks.specs.Block.{IsBlock, overwritten, block_size};
ghost use Rattle.blocks.specs.Calls.{OnlyReads};
ghost use Rattle.blocks.specs.Disk.{CountsFault, block_at};
ghost use Rattle.blocks.specs.contracts.block.Block.{the_row as block_row};
ghost use Rattle.bcache.specs.Current.{is_of};
ghost use Rattle.bcache.specs.Links.{changed_entries, links_of, walk};
ghost use Rattle.bcache.specs.Buffers.{IsCache, buffer, found, victim, acquire_answer, after_acquire, taken, filled, changed, released, pinned, unpinned, lock_answer, after_lock, take_answer, after_take, block_or_zero, EndsUnfilled, fresh_buffers, empty_buffer};
ghost use Rattle.bcache.specs.Entries.{is_shared, with_slot};
ghost use Rattle.bcache.specs.contracts.cache.Cache.{the_row};

use crate::order::Order;
use crate::{Acquired, Buffer, Busy, Links};
use blocks::{Block, Disk, DiskFault, NoMemory};
use std::alloc::Global;
use std::marker::Model;

const SLOTS: usize = 40;

// How many entries the table of slots has: one for each block of the largest image.
const ENTRIES: usize = 8192;

// The entry of blocks of which several may have slots.
const SEVERAL: u8 = 40;

/// The buffers of the file system: 40 slots, numbered from 0, each with a copy of a block of 1024
/// bytes (the xv6 book, "Buffer cache layer": bget, brelse, bpin, bunpin).
///
/// Contracts see the slots' buffers, and their recency order. No block has two slots.
#[derive(Drop)]
pub struct Cache {
    buffers: Vec<Buffer>,
    // The slot that a block has, if it has one, so that no search goes over the buffers. Blocks whose
    // numbers differ by 8192 share an entry.
    slot_of: [u8; ENTRIES],
    order: Order,
}

impl Model for Cache {
    ghost use Rattle.bcache.specs.Buffers.{Buffers};
    ghost use Rattle.bcache.specs.Entries.{IsEntered};

    ghost Value = { Buffers };

    ghost view = { λ c. record { slots = c.buffers.items; order = c.order } };

    ghost invariant = { λ c.
        IsEntered c.slot_of (record { slots = c.buffers.items; order = c.order }) };
}

impl Cache {
    /// A cache whose 40 slots were never taken. Slot 0 will be the first one taken. That no later
    /// call takes memory is tested.
    ///
    /// # Errors
    ///
    /// `NoMemory` where the allocator refuses the slots or one of their blocks.
    pub fn new(alloc: Global) -> Result<Cache, NoMemory>
        ensures { IfOk result (λ cache. cache ≡ fresh_buffers) }
    {
        let mut buffers = Vec::new(alloc);
        for slot in 0..SLOTS {
            buffers.push(new_buffer(alloc)?)?;
        }
        Ok(Cache {
            buffers,
            slot_of: [0; ENTRIES],
            order: Order::new(),
        })
    }

    /// Does nothing: it says what is true of every cache.
    pub fn known(&self)
        ensures { IsCache self.now }
    {
        let _ = &self.buffers;
    }

    /// The slot of a block, if it has one.
    pub fn find(&self, block: u32) -> Option<u32>
        ensures slot { result ≡ found self.now block }
        ensures within { IfSome result (λ slot. slot < 40) }
    {
        let slot = self.slot_of[block as usize % ENTRIES] as u32;
        if slot < 40 {
            return this_if_of(&self.buffers, slot, block);
        }
        // Several blocks that share the entry have slots, as none of one image do.
        match place_of(&self.buffers, block) {
            Some(place) => Some(place as u32),
            None => None,
        }
    }

    /// The slot at a place of the recency order, from 0 to 39: at place 0 is the one released last.
    pub fn slot_at(&self, place: u32) -> u32
        requires { place < 40 }
        ensures { result ≡ slice_index self.now.order place }
    {
        self.order.at(place)
    }

    /// The links that hold the recency order: read from its front by `after` they are the order, and
    /// from its end by `before` the order reversed. Each walk ends at 40. The release of a slot
    /// leaves all but at most five of the 80 entries as they are.
    pub fn links(&self) -> &Links
        ensures links { result.now ≡ links_of self.now.order }
        ensures forward { walk result.now.after result.now.first ≡ self.now.order }
        ensures backward { walk result.now.before result.now.last ≡ reverse self.now.order }
        ensures entries { (slot : ℕ) → slot < 40
            → changed_entries result.now (links_of (released self.now slot).order) ≤ 5 }
    {
        self.order.links()
    }

    /// The block that a slot is for; None where it was never taken.
    pub fn block(&self, slot: u32) -> Option<u32>
        requires { slot < 40 }
        ensures { result ≡ (buffer self.now slot).block }
    {
        self.buffers[slot as usize].block
    }

    /// The process that has a slot's lock.
    pub fn holder(&self, slot: u32) -> Option<u32>
        requires { slot < 40 }
        ensures { result ≡ (buffer self.now slot).holder }
    {
        self.buffers[slot as usize].holder
    }

    /// The references that pins added to a slot.
    pub fn pins(&self, slot: u32) -> u32
        requires { slot < 40 }
        ensures { result ≡ (buffer self.now slot).pins }
    {
        self.buffers[slot as usize].pins
    }

    /// The bytes of a slot.
    pub fn data(&self, slot: u32) -> &Block
        requires { slot < 40 }
        ensures bytes { result.now ≡ (buffer self.now slot).bytes }
        ensures block { IsBlock result.now }
    {
        let bytes = &self.buffers[slot as usize].bytes;
        let _ = bytes.as_slice();
        bytes
    }

    /// The bytes of a slot, for its holder to change.
    pub fn data_mut(&mut self, pid: u32, slot: u32) -> &mut Block
        requires slot { slot < 40 }
        requires held { (buffer self.old slot).holder ≡ Some pid }
        ensures value { result.now ≡ (buffer self.old slot).bytes }
        ensures* lends { sem 𝓛 (Lends the_row block_row self.entry result
            (λ bytes. changed self.old slot bytes)) }
    {
        &mut self.buffers[slot as usize].bytes
    }

    /// The holder writes these bytes in the place of those of its slot from the index `at` on.
    pub fn put(&mut self, pid: u32, slot: u32, at: usize, bytes: &[u8])
        requires slot { slot < 40 }
        requires held { (buffer self.old slot).holder ≡ Some pid }
        requires fits { at + length bytes.now ≤ block_size }
        ensures cache { self.new
            ≡ changed self.old slot (overwritten (buffer self.old slot).bytes at bytes.now) }
        ensures block { IsBlock (overwritten (buffer self.old slot).bytes at bytes.now) }
    {
        self.data_mut(pid, slot).put(at, bytes);
    }

    /// Reads the slot's block from the disk, with one read, and makes the slot valid.
    ///
    /// # Errors
    ///
    /// `DiskFault` with the block's number where the disk fails. What bytes the slot then has is
    /// not said; all else of the cache is as before.
    pub fn fill<D: Disk>(&mut self, slot: u32, disk: &mut D) -> Result<(), DiskFault>
        requires slot { slot < 40 }
        requires block { IsSome (buffer self.old slot).block }
        requires inside { block_or_zero (buffer self.old slot).block < length (D.image disk.old) }
        ensures ok { OnOk result (self.new ≡ filled self.old slot
            (block_at (D.image disk.old) (block_or_zero (buffer self.old slot).block))) }
        ensures err { OnErr result (EndsUnfilled self.old slot self.new) }
        ensures fault { IfErr result (λ fault. fault.0
            ≡ block_or_zero (buffer self.old slot).block) }
        ensures reads { OnlyReads D.Disk disk.old disk.new }
        ensures faults { CountsFault result (D.fault_count disk.old) (D.fault_count disk.new) }
    {
        let buffer = &mut self.buffers[slot as usize];
        let Some(block) = buffer.block else {
            unreachable!();
        };
        match disk.read(block, &mut buffer.bytes) {
            Ok(()) => {
                buffer.valid = true;
                Ok(())
            }
            Err(fault) => Err(fault),
        }
    }

    /// Gets the lock of a block's slot, and a reference to it, for a process (`bget`).
    ///
    /// A block that has a slot keeps it: `Sleeping(Held)` where a process holds its lock, else
    /// `Got`. For a block that has none, the last slot of the order without references is taken;
    /// it is not valid then. `Sleeping(NoBuffer)` where all 40 have references. Sleeping changes
    /// nothing.
    pub fn acquire(&mut self, pid: u32, block: u32) -> Acquired
        ensures answer { result ≡ acquire_answer self.old block }
        ensures cache { self.new ≡ after_acquire self.old pid block }
    {
        match self.find(block) {
            Some(slot) => self.lock(pid, slot),
            None => self.take(pid, block),
        }
    }

    fn lock(&mut self, pid: u32, slot: u32) -> Acquired
        requires { slot < 40 }
        ensures answer { result
            ≡ lock_answer (buffer self.old slot).holder slot (buffer self.old slot).valid }
        ensures cache { self.new ≡ after_lock (buffer self.old slot).holder self.old pid slot }
    {
        let buffer = &mut self.buffers[slot as usize];
        if buffer.holder.is_some() {
            return Acquired::Sleeping(Busy::Held);
        }
        buffer.holder = Some(pid);
        Acquired::Got {
            slot,
            valid: buffer.valid,
        }
    }

    fn take(&mut self, pid: u32, block: u32) -> Acquired
        requires { found self.old block ≡ None }
        ensures answer { result ≡ take_answer (victim self.old) }
        ensures cache { self.new ≡ after_take (victim self.old) self.old pid block }
    {
        let Some(slot) = self.order.victim(&self.buffers) else {
            return Acquired::Sleeping(Busy::NoBuffer);
        };
        self.take_slot(pid, block, slot);
        Acquired::Got { slot, valid: false }
    }

    fn take_slot(&mut self, pid: u32, block: u32, slot: u32)
        requires slot { slot < 40 }
        requires other { found self.old block ≡ None }
        ensures { self.new ≡ taken self.old pid block slot }
    {
        enter(&mut self.slot_of, &self.buffers, block, slot);
        let buffer = &mut self.buffers[slot as usize];
        buffer.block = Some(block);
        buffer.valid = false;
        buffer.holder = Some(pid);
    }

    /// The holder gives up the lock and its reference (`brelse`). A slot that has no references
    /// then becomes the first of the order; else the order stays.
    pub fn release(&mut self, pid: u32, slot: u32)
        requires slot { slot < 40 }
        requires held { (buffer self.old slot).holder ≡ Some pid }
        ensures { self.new ≡ released self.old slot }
    {
        let buffer = &mut self.buffers[slot as usize];
        buffer.holder = None;
        if buffer.pins == 0 {
            self.order.move_to_front(slot);
        }
    }

    /// Adds a reference that keeps the slot for its block (`bpin`).
    pub fn pin(&mut self, slot: u32)
        requires slot { slot < 40 }
        requires few { (buffer self.old slot).pins + 1 < 2 ^ 32 }
        ensures { self.new ≡ pinned self.old slot }
    {
        let buffer = &mut self.buffers[slot as usize];
        buffer.pins += 1;
    }

    /// Takes a reference that a pin added away (`bunpin`).
    pub fn unpin(&mut self, slot: u32)
        requires slot { slot < 40 }
        requires some { 0 < (buffer self.old slot).pins }
        ensures { self.new ≡ unpinned self.old slot }
    {
        let buffer = &mut self.buffers[slot as usize];
        buffer.pins -= 1;
    }
}

// A buffer that was never taken.
fn new_buffer(alloc: Global) -> Result<Buffer, NoMemory>
    ensures { IfOk result (λ buffer. buffer ≡ empty_buffer) }
{
    Ok(Buffer {
        block: None,
        valid: false,
        bytes: Block::zeroed(alloc)?,
        holder: None,
        pins: 0,
    })
}

fn is_of(buffer: &Buffer, block: u32) -> bool
    ensures { result ≡ is_of block buffer.now }
{
    match buffer.block {
        Some(other) => other == block,
        None => false,
    }
}

// A slot, where it is the block's.
fn this_if_of(buffers: &[Buffer], slot: u32, block: u32) -> Option<u32>
    requires { slot < length buffers.now }
    ensures { result ≡ (if is_of block (slice_index_or buffers.now slot empty_buffer)
        then Some slot else None) }
{
    if is_of(&buffers[slot as usize], block) {
        Some(slot)
    } else {
        None
    }
}

// The first buffer of a block.
fn place_of(buffers: &[Buffer], block: u32) -> Option<usize>
    ensures place { result ≡ position (λ buffer. is_of block buffer) buffers.now }
    ensures within { IfSome result (λ place. place < length buffers.now) }
{
    buffers.iter().position(|buffer| is_of(buffer, block))
}

// A slot is that of a block from now on.
fn enter(slot_of: &mut [u8; ENTRIES], buffers: &[Buffer], block: u32, slot: u32)
    requires { slot < 40 }
    ensures { slot_of.new ≡ with_slot slot_of.old buffers.now block slot }
{
    let place = block as usize % ENTRIES;
    slot_of[place] = if is_shared(buffers, slot_of[place] as usize, block) {
        SEVERAL
    } else {
        slot as u8
    };
}

// Whether the slot of an entry is that of a block which shares it with this one, or it stands for
// several.
fn is_shared(buffers: &[Buffer], entry: usize, block: u32) -> bool
    ensures { result ≡ is_shared buffers.now entry block }
{
    if entry >= buffers.len() {
        return true;
    }
    match buffers[entry].block {
        Some(other) => other as usize % ENTRIES == block as usize % ENTRIES,
        None => false,
    }
}
