// An image that is hurt and mended.
use crate::image_wrong::{Other, What, ensure};
use crate::reading::{blocks_of, if_done, read_into};
use blocks::{Block, Disk, MemDisk};
use std::alloc::Global;

/// A disk, and the blocks that it has while neither a kernel nor a recovery has written to it.
#[derive(Drop)]
pub struct Image {
    pub disk: MemDisk,
    pub blocks: Vec<Block>,
}

impl Image {
    /// The image of a disk.
    pub fn of(alloc: Global, mut disk: MemDisk) -> Result<Image, What> {
        match blocks_of(alloc, &mut disk) {
            Ok(blocks) => Ok(Image { disk, blocks }),
            Err(what) => Err(what),
        }
    }

    /// The image of so many of the first blocks.
    pub fn cut(&self, alloc: Global, size: u32) -> Result<Image, What> {
        let disk = MemDisk::new(alloc, size)?;
        let mut cut = Image {
            disk,
            blocks: Vec::new(alloc),
        };
        if_done(cut.take(alloc, &self.blocks, size as usize), cut)
    }

    // Takes so many of the first blocks.
    fn take(&mut self, alloc: Global, blocks: &[Block], size: usize) -> Result<(), What> {
        for block in blocks.iter().take(size) {
            self.blocks.push(block.copied(alloc)?)?;
        }
        self.put_back()
    }

    /// A byte of a block.
    pub fn byte(&self, b: u32, at: usize) -> Result<u8, What> {
        if let Some(block) = self.blocks.get(b as usize)
            && let Some(byte) = block.as_slice().get(at)
        {
            return Ok(*byte);
        }
        Err(What::Other(Other::NoByte))
    }

    /// Sets a byte of a block.
    pub fn set(&mut self, b: u32, at: usize, byte: u8) -> Result<(), What> {
        if b >= self.disk.size() || at >= 1024 {
            return Err(What::Other(Other::NoByte));
        }
        let Some(block) = self.blocks.get_mut(b as usize) else {
            return Err(What::Other(Other::NoByte));
        };
        block.put(at, &[byte]);
        self.disk.write(b, block)?;
        Ok(())
    }

    /// Writes all blocks to the disk.
    pub fn put_back(&mut self) -> Result<(), What> {
        for (b, block) in (0..self.disk.size()).zip(self.blocks.iter()) {
            if b < self.disk.size() {
                self.disk.write(b, block)?;
            }
        }
        Ok(())
    }

    /// Whether the disk has these blocks.
    pub fn has(&mut self, alloc: Global, blocks: &[Block]) -> Result<bool, What> {
        has_blocks(alloc, &mut self.disk, blocks)
    }

    /// Whether the disk is as it was.
    pub fn ensure_untouched(&mut self, alloc: Global) -> Result<(), What> {
        let is_same = has_blocks(alloc, &mut self.disk, &self.blocks)?;
        ensure(is_same, Other::RefusalWrote)
    }
}

fn has_blocks(alloc: Global, disk: &mut MemDisk, blocks: &[Block]) -> Result<bool, What> {
    let mut found = Block::zeroed(alloc)?;
    are_found(disk, blocks, &mut found)
}

fn are_found(disk: &mut MemDisk, blocks: &[Block], found: &mut Block) -> Result<bool, What> {
    for (b, block) in (0..disk.size()).zip(blocks.iter()) {
        read_into::<What>(disk, b, found)?;
        if found.as_slice() != block.as_slice() {
            return Ok(false);
        }
    }
    Ok(blocks.len() == disk.size() as usize)
}
