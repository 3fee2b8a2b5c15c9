// A disk in memory, whose reads and writes never fail.
ghost use Rattle.std.specs.Prelude.{◌≡◌, ◌<◌, ◌*◌, ◌^◌, length, replicate, slice_get, false, refl, IfOk, Some};
ghost use Rattle.std.specs.Simd.{first_chunks};
ghost use Rattle.std.proofs.Common.{inl, lit<};
ghost use Rattle.blocks.specs.Block.{zero_block};
ghost use Rattle.blocks.specs.Disk.{IsImage, block_at};
ghost use Rattle.blocks.specs.Images.{AreImages, HasLeft, only_last, has_left-image};
ghost use Rattle.blocks.specs.Told.{IsCounted, IsLast};

use crate::past::Past;
use crate::{BLOCK_SIZE, Block, Disk, DiskFault, NoMemory, SyncFault};
use std::alloc::Global;

/// A disk in memory. Its reads and writes never fail, and it is gone with the program: what a
/// crash leaves is a matter of contracts alone. It tells which block was written last, so that its
/// user can carry each write to a disk of his own.
#[derive(Drop)]
pub struct MemDisk {
    alloc: Global,
    size: u32,
    blocks: Vec<[u8; BLOCK_SIZE]>,
    past: Past,
    last: u32,
    writes: u64,
    syncs: u64,
    ghost sized: { size ≡ length blocks.items },
    ghost is_image: { IsImage blocks.items },
    ghost were_images: { AreImages past },
    ghost counted: { IsCounted past writes },
    ghost is_last: { IsLast past last blocks.items },
    ghost syncs_fit: { syncs < 2 ^ 64 },
}

impl MemDisk {
    ghost use Rattle.blocks.specs.Memory.{last_of};

    /// A disk of this many blocks of 1024 bytes, all of them zero.
    ///
    /// # Errors
    ///
    /// `NoMemory` where the allocator refuses the memory that they take, all in one piece.
    pub fn new(alloc: Global, size: u32) -> Result<MemDisk, NoMemory>
        ensures image { IfOk result
            (λ disk. ⟦<MemDisk as Disk>⟧.image disk ≡ replicate size zero_block) }
        ensures writes { IfOk result (λ disk. ⟦<MemDisk as Disk>⟧.write_count disk ≡ 0) }
        ensures faults { IfOk result (λ disk. ⟦<MemDisk as Disk>⟧.fault_count disk ≡ 0) }
        ensures syncs { IfOk result (λ disk. ⟦<MemDisk as Disk>⟧.sync_count disk ≡ 0) }
    {
        Ok(MemDisk::of(alloc, zeroed_blocks(alloc, size)?, size))
    }

    /// A disk with a copy of these bytes, which are `size` blocks of 1024. Nothing was written to
    /// it, and it was not synced.
    ///
    /// # Errors
    ///
    /// `NoMemory` where the allocator refuses the memory that they take, all in one piece.
    pub fn over(alloc: Global, image: &[u8], size: u32) -> Result<MemDisk, NoMemory>
        requires size { length image.now ≡ size * 1024 }
        ensures image { IfOk result
            (λ disk. ⟦<MemDisk as Disk>⟧.image disk ≡ first_chunks 1024 size image.now) }
        ensures writes { IfOk result (λ disk. ⟦<MemDisk as Disk>⟧.write_count disk ≡ 0) }
        ensures syncs { IfOk result (λ disk. ⟦<MemDisk as Disk>⟧.sync_count disk ≡ 0) }
    {
        let (blocks, _rest) = image.as_chunks::<BLOCK_SIZE>();
        let blocks = Vec::from_slice(alloc, blocks)?;
        Ok(MemDisk::of(alloc, blocks, size))
    }

    /// The number of the block that was written last, counted from 0; 0 where none was.
    pub fn last(&self) -> u32
        ensures { result ≡ last_of self.now }
    {
        self.last
    }

    /// The 1024 bytes of the block with this number, counted from 0.
    pub fn block(&self, block: u32) -> &[u8]
        requires { block < length (⟦<MemDisk as Disk>⟧.image self.now) }
        ensures value { result.now ≡ block_at (⟦<MemDisk as Disk>⟧.image self.now) block }
        ensures size { length result.now ≡ 1024 }
    {
        &self.blocks[block as usize]
    }

    // A disk of these blocks, to which nothing was written.
    pub(crate) fn of(alloc: Global, blocks: Vec<[u8; BLOCK_SIZE]>, size: u32) -> MemDisk
        requires sized { size ≡ length blocks.items }
        requires blocks { IsImage blocks.items }
        ensures image { result.blocks.items ≡ blocks.items }
        ensures writes { result.writes ≡ 0 }
        ensures syncs { result.syncs ≡ 0 }
    {
        MemDisk {
            alloc,
            size,
            blocks,
            past: Past::new(),
            last: 0,
            writes: 0,
            syncs: 0,
        }
    }

    // Its blocks.
    pub(crate) fn blocks(&self) -> &Vec<[u8; BLOCK_SIZE]>
        ensures blocks { result.now ≡ self.now.blocks }
        ensures image { IsImage result.now.items }
    {
        &self.blocks
    }

    // Its blocks, and its counts of writes and syncs.
    pub(crate) fn into_parts(self) -> (Vec<[u8; BLOCK_SIZE]>, u64, u64)
        ensures blocks { result.0 ≡ self.blocks }
        ensures image { IsImage result.0.items }
        ensures size { length result.0.items < 2 ^ 32 }
        ensures writes { result.1 ≡ self.writes }
        ensures syncs { result.2 ≡ self.syncs }
        ensures writes_fit { result.1 < 2 ^ 64 }
        ensures syncs_fit { result.2 < 2 ^ 64 }
    {
        let MemDisk {
            blocks,
            writes,
            syncs,
            ..
        } = self;
        (blocks, writes, syncs)
    }
}

fn zeroed_blocks(alloc: Global, size: u32) -> Result<Vec<[u8; BLOCK_SIZE]>, NoMemory>
    ensures zeroes { IfOk result (λ blocks. blocks.items ≡ replicate size zero_block) }
    ensures blocks { IfOk result (λ blocks. IsImage blocks.items) }
{
    let mut blocks = Vec::new(alloc);
    blocks.resize(size as usize, [0; BLOCK_SIZE])?;
    Ok(blocks)
}

// The bytes of the block with this number.
pub(crate) fn read_block(blocks: &Vec<[u8; BLOCK_SIZE]>, block: u32, into: &mut Block)
    requires inside { block < length blocks.now.items }
    requires image { IsImage blocks.now.items }
    ensures { slice_get blocks.now.items block ≡ Some into.new }
{
    into.put(0, &blocks[block as usize]);
}

impl Disk for MemDisk {
    ghost use Rattle.blocks.specs.Memory.{writes_fit};

    type Name = ();

    ghost name = { λ d. tt };

    ghost image = { λ d. d.blocks.items };

    ghost moment = { λ d. length d.past };

    ghost leaves = { λ d. HasLeft d.past d.blocks.items };

    ghost write_count = { λ d. d.writes };

    ghost fault_count = { λ d. 0 };

    ghost sync_count = { λ d. d.syncs };

    ghost holding = { λ n. false };

    ghost is_image = { λ d. d.is_image };

    ghost leaves_images = { λ d t x left.
        has_left-image d.past d.blocks.items t x d.were_images d.is_image left };

    ghost counts_fit = { λ d. (writes_fit d, lit< tt, d.syncs_fit) };

    ghost counts_now = { λ d t x le left. inl (only_last d.past d.blocks.items x left) };

    ghost has_now = { λ d. inl refl };

    ghost only_now = { λ d no x left. only_last d.past d.blocks.items x left };

    fn size(&self) -> u32 {
        self.size
    }

    fn writes(&self) -> u64 {
        self.writes
    }

    fn faults(&self) -> u64 {
        0
    }

    fn syncs(&self) -> u64 {
        self.syncs
    }

    fn holds(&self) -> bool {
        false
    }

    fn read(&mut self, block: u32, into: &mut Block) -> Result<(), DiskFault> {
        read_block(&self.blocks, block, into);
        Ok(())
    }

    fn write(&mut self, block: u32, from: &Block) -> Result<(), DiskFault> {
        self.past.remember(self.alloc, &mut self.blocks);
        self.blocks[block as usize].copy_from_slice(from.as_slice());
        self.last = block;
        self.writes = self.writes.saturating_add(1);
        Ok(())
    }

    fn sync(&mut self) -> Result<(), SyncFault> {
        self.syncs = self.syncs.saturating_add(1);
        Ok(())
    }
}
