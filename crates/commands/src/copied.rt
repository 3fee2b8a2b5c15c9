// The blocks of the disk in a file, copied to memory.
ghost use Rattle.std.specs.Prelude.{◌≡◌, ◌*◌, IfOk, length};

use blocks::{BLOCK_SIZE, Block, Disk, FileDisk, MemDisk, NoMemory};
use std::alloc::Global;
use std::fs::OpenFile;
use std::io::{Seek, Write};

/// The bytes of a disk's blocks, one after the other.
#[derive(Drop)]
pub struct Copied {
    bytes: Vec<u8>,
    size: u32,
    ghost sized: { length bytes.items ≡ size * 1024 },
}

impl Copied {
    ghost use Rattle.blocks.specs.Calls.{OnlyReads};
    ghost use Rattle.blocks.specs.FileDisk.{file_of};
    ghost use Rattle.cmd.specs.Lemmas.Disks.{file_disk};
    ghost use Rattle.commands.specs.Copied.{copied_image};

    /// The blocks of a disk. The block is room for one: what it holds afterwards is not said.
    ///
    /// # Errors
    ///
    /// `NoMemory` where the allocator refuses the room for them.
    pub fn of<F: Write + Seek + OpenFile + Drop>(
        alloc: Global,
        disk: &mut FileDisk<F>,
        block: &mut Block,
    ) -> Result<Copied, NoMemory>
        ensures image { IfOk result
            (λ copied. copied_image copied ≡ file_disk.image disk.old) }
        ensures reads { OnlyReads file_disk disk.old disk.new }
        ensures file { file_of disk.new ≡ file_of disk.old }
    {
        let size = disk.size();
        let mut bytes = Vec::with_capacity(alloc, size as usize * BLOCK_SIZE)?;
        for b in 0..size {
            match disk.read(b, block) {
                Ok(()) => bytes.extend_from_slice(block.as_slice())?,
                Err(_) => unreachable!(),
            }
        }
        Ok(Copied { bytes, size })
    }

    /// A disk in memory with these blocks.
    ///
    /// # Errors
    ///
    /// `NoMemory` where the allocator refuses it.
    pub fn disk(&self, alloc: Global) -> Result<MemDisk, NoMemory>
        ensures { IfOk result (λ disk. ⟦<MemDisk as Disk>⟧.image disk ≡ copied_image self.now) }
    {
        MemDisk::over(alloc, self.bytes.as_slice(), self.size)
    }
}
