// A disk in memory that holds writes back until a sync.
ghost use Rattle.std.specs.Prelude.{◌≡◌, ◌≤◌, ◌^◌, ◌<◌, ◌↔◌, ◌∷◌, ◌++◌, [], length, true, IfOk, IfErr, IsErr, IsOk, OnErr, OnOk};
ghost use Rattle.std.proofs.lemmas.Bool.{true≢false};
ghost use Rattle.blocks.specs.Calls.{ReadsOne, SyncsOne, WritesOne};
ghost use Rattle.blocks.specs.Disk.{Image, IsImage, IsSettled, block_at};
ghost use Rattle.blocks.specs.Held.{AreInside, HeldImages, IsShadow, LeftSince, chosen, held_by, noted_by};
ghost use Rattle.blocks.specs.Lemmas.Held.{left_whole, shadow_has, shadow_now};

use crate::floating::Shadow;
use crate::held::{Holding, ROOM, copies, places};
use crate::memory::read_block;
use crate::{BLOCK_SIZE, Block, Disk, DiskFault, MemDisk, NoMemory, SyncFault};
use std::alloc::Global;

/// A disk in memory that holds its writes back until a sync: a crash leaves the blocks of the last
/// sync with any of the writes since, each whole and in their order. It has room for 64 of them.
#[derive(Drop)]
pub struct SyncDisk {
    alloc: Global,
    size: u32,
    // The blocks that reads give.
    shown: Vec<[u8; BLOCK_SIZE]>,
    state: Holding,
    shadow: Shadow,
    writes: u64,
    faults: u64,
    syncs: u64,
    ghost sized: { size ≡ length shown.items },
    ghost same_size: { length state.synced.items ≡ length shown.items },
    ghost room: { length state.places.items ≡ 64 },
    ghost few: { state.count ≤ 64 },
    ghost inside: { AreInside (length state.synced.items) (held_by state) },
    ghost is_image: { IsImage shown.items },
    ghost synced: { state.synced.items ≡ shadow.state.synced.value.items },
    ghost held: { held_by state ≡ noted_by shadow.state },
    ghost shadowed: { IsShadow true shown.items shadow },
    ghost writes_fit: { writes < 2 ^ 64 },
    ghost faults_fit: { faults < 2 ^ 64 },
    ghost syncs_fit: { syncs < 2 ^ 64 },
}

impl SyncDisk {
    ghost use Rattle.blocks.specs.SyncDisk.{held_of, synced_of};

    /// A disk with these blocks, on which nothing is held. Its counts of writes and syncs go on
    /// from those of the disk that is handed in.
    ///
    /// # Errors
    ///
    /// `NoMemory` where the allocator refuses a copy of the blocks, or room for 64 more.
    pub fn new(alloc: Global, disk: MemDisk) -> Result<SyncDisk, NoMemory>
        ensures image { IfOk result (λ d. ⟦<SyncDisk as Disk>⟧.image d
            ≡ ⟦<MemDisk as Disk>⟧.image disk) }
        ensures held { IfOk result (λ d. held_of d ≡ []) }
        ensures synced { IfOk result (λ d. synced_of d ≡ ⟦<MemDisk as Disk>⟧.image disk) }
        ensures settled { IfOk result (λ d. IsSettled (⟦<SyncDisk as Disk>⟧.image d)
            (⟦<SyncDisk as Disk>⟧.leaves d (⟦<SyncDisk as Disk>⟧.moment d))) }
        ensures writes { IfOk result (λ d. ⟦<SyncDisk as Disk>⟧.write_count d
            ≡ ⟦<MemDisk as Disk>⟧.write_count disk) }
        ensures faults { IfOk result (λ d. ⟦<SyncDisk as Disk>⟧.fault_count d ≡ 0) }
        ensures syncs { IfOk result (λ d. ⟦<SyncDisk as Disk>⟧.sync_count d
            ≡ ⟦<MemDisk as Disk>⟧.sync_count disk) }
    {
        let size = disk.size();
        let (shown, writes, syncs) = disk.into_parts();
        let synced = copies(alloc, &shown)?;
        let places = places(alloc)?;
        let shadow = Shadow::over(&shown);
        Ok(SyncDisk {
            alloc,
            size,
            shown,
            state: Holding {
                synced,
                places,
                count: 0,
            },
            shadow,
            writes,
            faults: 0,
            syncs,
        })
    }

    /// How many writes are held.
    pub fn held(&self) -> usize
        ensures count { result ≡ length (held_of self.now) }
        ensures few { result ≤ 64 }
    {
        self.state.count
    }

    /// The 1024 bytes that a read of this block gives.
    pub(crate) fn block(&self, block: u32) -> &[u8]
        requires { block < length (⟦<SyncDisk as Disk>⟧.image self.now) }
        ensures { result.now ≡ block_at (⟦<SyncDisk as Disk>⟧.image self.now) block }
    {
        &self.shown[block as usize]
    }

    /// A disk with the image that a crash now leaves where it keeps these of the held writes: one
    /// truth value for each, the oldest first.
    ///
    /// # Errors
    ///
    /// `NoMemory` where the allocator refuses a copy of the blocks.
    pub fn left(&self, keep: &[bool]) -> Result<MemDisk, NoMemory>
        requires { length keep.now ≡ length (held_of self.now) }
        ensures image { IfOk result (λ d. ⟦<MemDisk as Disk>⟧.image d
            ≡ chosen (synced_of self.now) (held_of self.now) keep.now) }
        ensures leaves { IfOk result (λ d. ⟦<SyncDisk as Disk>⟧.leaves self.now
            (⟦<SyncDisk as Disk>⟧.moment self.now) (⟦<MemDisk as Disk>⟧.image d)) }
        ensures writes { IfOk result (λ d. ⟦<MemDisk as Disk>⟧.write_count d ≡ 0) }
        ensures syncs { IfOk result (λ d. ⟦<MemDisk as Disk>⟧.sync_count d ≡ 0) }
    {
        let blocks = self.state.left(self.alloc, keep)?;
        Ok(MemDisk::of(self.alloc, blocks, self.size))
    }

    /// Does nothing: it says what is true of every such disk: a crash now leaves the blocks of its
    /// last sync with any of the writes that it holds, and nothing else.
    pub fn known(&self)
        ensures { (x : Image) → (⟦<SyncDisk as Disk>⟧.leaves self.now
            (⟦<SyncDisk as Disk>⟧.moment self.now) x
            ↔ HeldImages (synced_of self.now) (held_of self.now) x) }
    {
        let _ = &self.state;
    }
}

impl Disk for SyncDisk {
    ghost use Rattle.blocks.specs.SyncDisk.{held_of, synced_of};

    type Name = ();

    ghost name = { λ d. tt };

    ghost image = { λ d. d.shown.items };

    ghost moment = { λ d. length d.shadow.past };

    ghost leaves = { λ d. LeftSince d.shadow };

    ghost write_count = { λ d. d.writes };

    ghost fault_count = { λ d. d.faults };

    ghost sync_count = { λ d. d.syncs };

    ghost holding = { λ n. true };

    ghost is_image = { λ d. d.is_image };

    ghost leaves_images = { λ d. left_whole true d.shown.items d.shadow d.shadowed };

    ghost counts_fit = { λ d. (d.writes_fit, d.faults_fit, d.syncs_fit) };

    ghost counts_now = { λ d t x le left.
        shadow_now true d.shown.items d.shadow d.shadowed t x left };

    ghost has_now = { λ d. shadow_has true d.shown.items d.shadow d.shadowed };

    ghost only_now = { λ d free x left. absurd (true≢false free) };

    fn holds(&self) -> bool {
        true
    }

    fn size(&self) -> u32 {
        self.size
    }

    fn faults(&self) -> u64 {
        self.faults
    }

    fn writes(&self) -> u64 {
        self.writes
    }

    fn syncs(&self) -> u64 {
        self.syncs
    }

    /// Never fails.
    fn read(&mut self, block: u32, into: &mut Block) -> Result<(), DiskFault>
        requires { block < length (⟦<SyncDisk as Disk>⟧.image self.old) }

        // As of each disk.
        ensures reads { ReadsOne ⟦<SyncDisk as Disk>⟧ block into.new result self.old self.new }
        ensures fault { IfErr result (λ fault. fault.0 ≡ block) }

        // Of this one.
        ensures succeeds { IsOk result }
        ensures same { self.new ≡ self.old }
    {
        read_block(&self.shown, block, into);
        Ok(())
    }

    /// Fails where 64 writes are held, and nowhere else. Reads then still give the block as it
    /// was.
    fn write(&mut self, block: u32, from: &Block) -> Result<(), DiskFault>
        requires { block < length (⟦<SyncDisk as Disk>⟧.image self.old) }

        // As of each disk.
        ensures writes { WritesOne ⟦<SyncDisk as Disk>⟧ block from.now result self.old self.new }
        ensures fault { IfErr result (λ fault. fault.0 ≡ block) }

        // Of this one.
        ensures room { length (held_of self.old) < 64 → IsOk result }
        ensures full { length (held_of self.old) ≡ 64 → IsErr result }
        ensures held { OnOk result (held_of self.new ≡ held_of self.old ++ (block, from.now) ∷ []) }
        ensures synced { synced_of self.new ≡ synced_of self.old }
        ensures keeps { OnErr result ((⟦<SyncDisk as Disk>⟧.image self.new
            ≡ ⟦<SyncDisk as Disk>⟧.image self.old) × (held_of self.new ≡ held_of self.old)) }
    {
        if self.state.count == ROOM {
            self.faults = self.faults.saturating_add(1);
            return Err(DiskFault(block));
        }
        self.state.hold(block, from);
        self.shadow.note(block, from, &self.shown);
        self.shown[block as usize].copy_from_slice(from.as_slice());
        self.writes = self.writes.saturating_add(1);
        Ok(())
    }

    /// Never fails. Then nothing is held.
    fn sync(&mut self) -> Result<(), SyncFault>
        // As of each disk.
        ensures syncs { SyncsOne ⟦<SyncDisk as Disk>⟧ result self.old self.new }

        // Of this one.
        ensures succeeds { IsOk result }
        ensures held { held_of self.new ≡ [] }
        ensures synced { synced_of self.new ≡ ⟦<SyncDisk as Disk>⟧.image self.old }
    {
        self.state.settle(&self.shown);
        self.shadow.settle(&self.shown);
        self.syncs = self.syncs.saturating_add(1);
        Ok(())
    }
}
