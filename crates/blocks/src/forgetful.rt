// A disk in memory over a device that keeps a write to itself where a sync failed.
ghost use Rattle.std.specs.Prelude.{◌≡◌, ◌≢◌, ◌<◌, ◌≤◌, ◌↔◌, ◌∷◌, ◌++◌, ℕ, [], false, true, length, slice_get, slice_set, Some, IfOk, IfErr, IsErr, IsOk, OnErr, OnOk};
ghost use Rattle.blocks.specs.Held.{applied, chosen};

use crate::held::copies;
use crate::{Block, Disk, DiskFault, MemDisk, NoMemory, SyncDisk};
use std::alloc::Global;

/// A disk in memory over a device, as Linux keeps a file. Reads give what was written, and a sync
/// brings the held writes to the device. A sync that fails may leave any of them out, and takes all
/// for written: reads still give such a block, no later sync brings it, and the device lacks it
/// until it is written anew and synced. It holds up to 64 writes.
///
/// It is no `Disk`: after a good sync of one a crash leaves what reads give.
#[derive(Drop)]
pub struct ForgetfulDisk {
    alloc: Global,
    // The blocks that reads give.
    shown: MemDisk,
    // The device, and the writes that are held.
    below: SyncDisk,
    ghost same_size: { length below.shown.items ≡ length shown.blocks.items },
}

impl ForgetfulDisk {
    ghost use Rattle.blocks.specs.ForgetfulDisk.{Lacks, device_of, held_of, is_held, shown_of};

    /// A disk with these blocks, all on its device, on which nothing is held.
    ///
    /// # Errors
    ///
    /// `NoMemory` where the allocator refuses two copies of the blocks, or room for 64 more.
    pub fn new(alloc: Global, disk: MemDisk) -> Result<ForgetfulDisk, NoMemory>
        ensures shown { IfOk result (λ d. shown_of d ≡ ⟦<MemDisk as Disk>⟧.image disk) }
        ensures device { IfOk result (λ d. device_of d ≡ ⟦<MemDisk as Disk>⟧.image disk) }
        ensures held { IfOk result (λ d. held_of d ≡ []) }
    {
        let device = MemDisk::of(alloc, copies(alloc, disk.blocks())?, disk.size());
        let below = SyncDisk::new(alloc, device)?;
        Ok(ForgetfulDisk {
            alloc,
            shown: disk,
            below,
        })
    }

    /// The number of blocks.
    pub fn size(&self) -> u32
        ensures { result ≡ length (shown_of self.now) }
    {
        self.shown.size()
    }

    /// How many writes are held.
    pub fn held(&self) -> usize
        ensures count { result ≡ length (held_of self.now) }
        ensures few { result ≤ 64 }
    {
        self.below.held()
    }

    /// Reads the block with this number, counted from 0.
    pub fn block(&self, block: u32) -> &[u8]
        requires { block < length (shown_of self.now) }
        ensures { slice_get (shown_of self.now) block ≡ Some result.now }
    {
        self.shown.block(block)
    }

    /// Whether the device lacks the block: it has another, and no held write brings it.
    pub fn lacks(&self, block: u32) -> bool
        requires { block < length (shown_of self.now) }
        ensures { result ≡ true ↔ Lacks self.now block }
    {
        *self.shown.block(block) != *self.below.block(block)
    }

    /// Writes the block with this number.
    ///
    /// # Errors
    ///
    /// `DiskFault` with the block's number where 64 writes are held, and nowhere else. The disk is
    /// as before.
    pub fn write(&mut self, block: u32, from: &Block) -> Result<(), DiskFault>
        requires { block < length (shown_of self.old) }
        ensures room { length (held_of self.old) < 64 ↔ IsOk result }
        ensures fault { IfErr result (λ fault. fault.0 ≡ block) }
        ensures shown { OnOk result
            (shown_of self.new ≡ slice_set (shown_of self.old) block from.now) }
        ensures device { device_of self.new ≡ device_of self.old }
        ensures held { OnOk result (held_of self.new ≡ held_of self.old ++ (block, from.now) ∷ []) }
        ensures lacking { OnOk result ((b : ℕ) → Lacks self.new b ↔ (Lacks self.old b × b ≢ block)) }
        ensures keeps { OnErr result ((shown_of self.new ≡ shown_of self.old)
            × (held_of self.new ≡ held_of self.old)) }
    {
        self.below.write(block, from)?;
        self.shown.write(block, from)
    }

    /// Brings the held writes to the device, which still lacks what it lacked.
    pub fn sync(&mut self)
        ensures shown { shown_of self.new ≡ shown_of self.old }
        ensures device { device_of self.new ≡ applied (device_of self.old) (held_of self.old) }
        ensures held { held_of self.new ≡ [] }
        ensures lacking { (b : ℕ) → Lacks self.new b ↔ Lacks self.old b }
    {
        let _ = self.below.sync();
    }

    /// A sync that fails: the device has of the held writes just these, one truth value for each, the
    /// oldest first. None is held any more, and reads give them all.
    ///
    /// # Errors
    ///
    /// `NoMemory` where the allocator refuses a copy of the blocks, or room for 64 more. The disk is
    /// as before.
    pub fn fail_sync(&mut self, brought: &[bool]) -> Result<(), NoMemory>
        requires { length brought.now ≡ length (held_of self.old) }
        ensures shown { shown_of self.new ≡ shown_of self.old }
        ensures device { OnOk result (device_of self.new
            ≡ chosen (device_of self.old) (held_of self.old) brought.now) }
        ensures held { OnOk result (held_of self.new ≡ []) }
        ensures lacking { OnOk result ((b : ℕ) → is_held b (held_of self.old) ≡ false
            → (Lacks self.new b ↔ Lacks self.old b)) }
        ensures err { OnErr result (self.new ≡ self.old) }
    {
        let device = self.below.left(brought)?;
        self.below = SyncDisk::new(self.alloc, device)?;
        Ok(())
    }

    /// A disk with what the device has at a stop where it has these of the held writes.
    ///
    /// # Errors
    ///
    /// `NoMemory` where the allocator refuses a copy of the blocks.
    pub fn left(&self, brought: &[bool]) -> Result<MemDisk, NoMemory>
        requires { length brought.now ≡ length (held_of self.now) }
        ensures { IfOk result (λ d. ⟦<MemDisk as Disk>⟧.image d
            ≡ chosen (device_of self.now) (held_of self.now) brought.now) }
    {
        self.below.left(brought)
    }
}
