// The disk of a session.
ghost use Rattle.std.specs.Prelude.{◌≡◌, ◌<◌, ◌*◌, ◌^◌, length, false, IfOk};
ghost use Rattle.std.specs.Simd.{first_chunks};
ghost use Rattle.std.proofs.Common.{lit<};
ghost use Rattle.blocks.specs.Disk.{block_at};
ghost use Rattle.sessions.specs.Held.{IsCounted, LeftSince, MayLeave, WereWhole};
ghost use Rattle.sessions.specs.Track.{moment_of};

use crate::track::Track;
use blocks::{Block, Disk, DiskFault, MemDisk, NoMemory, SyncFault};
use std::alloc::Global;
use std::snapshot::Snapshot;

/// A disk in memory, whose reads, writes and syncs never fail, for a user who carries each write to a
/// disk of his own. It is plain, or it holds writes back: then a stop leaves of each block what was
/// written last, or what it held at some time since the last sync.
#[derive(Drop)]
pub struct HostDisk {
    pub(crate) copy: MemDisk,
    pub(crate) holds: bool,
    track: Track,
    ghost were_whole: { WereWhole (length copy.blocks.items) track },
    ghost counted: { IsCounted copy.writes copy.syncs track },
}

impl HostDisk {
    /// A disk with a copy of these bytes, which are `size` blocks of 1024. Nothing was written to it,
    /// and it was not synced.
    ///
    /// # Errors
    ///
    /// `NoMemory` where the allocator refuses the memory that they take, all in one piece.
    pub fn over(alloc: Global, image: &[u8], size: u32, holds: bool) -> Result<HostDisk, NoMemory>
        requires size { length image.now ≡ size * 1024 }
        ensures image { IfOk result
            (λ disk. ⟦<HostDisk as Disk>⟧.image disk ≡ first_chunks 1024 size image.now) }
        ensures writes { IfOk result (λ disk. ⟦<HostDisk as Disk>⟧.write_count disk ≡ 0) }
        ensures syncs { IfOk result (λ disk. ⟦<HostDisk as Disk>⟧.sync_count disk ≡ 0) }
        ensures holds { IfOk result (λ disk. ⟦<HostDisk as Disk>⟧.name disk ≡ holds) }
    {
        let copy = MemDisk::over(alloc, image, size)?;
        let track = Track::new();
        Ok(HostDisk { copy, holds, track })
    }

    /// The 1024 bytes of the block with this number, counted from 0.
    pub fn block(&self, block: u32) -> &[u8]
        requires { block < length (⟦<HostDisk as Disk>⟧.image self.now) }
        ensures value { result.now ≡ block_at (⟦<HostDisk as Disk>⟧.image self.now) block }
        ensures size { length result.now ≡ 1024 }
    {
        self.copy.block(block)
    }
}

impl Disk for HostDisk {
    ghost use Rattle.blocks.specs.Memory.{writes_fit};
    ghost use Rattle.sessions.specs.Lemmas.Held.{left_alone, left_later, left_now, left_whole};

    type Name = bool;

    ghost name = { λ d. d.holds };

    ghost image = { λ d. ⟦<MemDisk as Disk>⟧.image d.copy };

    ghost moment = { λ d. moment_of d.track };

    ghost leaves = { λ d. LeftSince d.holds d.copy.blocks.items d.track };

    ghost write_count = { λ d. ⟦<MemDisk as Disk>⟧.write_count d.copy };

    ghost fault_count = { λ d. 0 };

    ghost sync_count = { λ d. ⟦<MemDisk as Disk>⟧.sync_count d.copy };

    ghost holding = { λ n. n };

    ghost is_image = { λ d. d.copy.is_image };

    ghost leaves_images = { λ d.
        left_whole d.holds d.copy.blocks.items d.track d.copy.is_image d.were_whole };

    ghost counts_fit = { λ d. (writes_fit d.copy, lit< tt, d.copy.syncs_fit) };

    ghost counts_now = { λ d t x le left.
        left_later d.holds d.copy.blocks.items d.track t x left };

    ghost has_now = { λ d. left_now d.holds d.copy.blocks.items d.track };

    ghost only_now = { λ d free x left.
        left_alone d.holds d.copy.blocks.items d.track free x left };

    fn size(&self) -> u32 {
        self.copy.size()
    }

    fn writes(&self) -> u64 {
        self.copy.writes()
    }

    fn faults(&self) -> u64 {
        0
    }

    fn syncs(&self) -> u64 {
        self.copy.syncs()
    }

    fn holds(&self) -> bool {
        self.holds
    }

    fn read(&mut self, block: u32, into: &mut Block) -> Result<(), DiskFault> {
        self.copy.read(block, into)
    }

    fn write(&mut self, block: u32, from: &Block) -> Result<(), DiskFault> {
        let before = Snapshot::of(&self.copy);
        self.copy.write(block, from)?;
        self.track.add(before, false);
        Ok(())
    }

    fn sync(&mut self) -> Result<(), SyncFault> {
        let before = Snapshot::of(&self.copy);
        self.copy.sync()?;
        self.track.add(before, true);
        Ok(())
    }
}
