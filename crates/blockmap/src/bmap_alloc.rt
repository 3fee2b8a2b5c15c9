// The block of a file that a writer comes to, which is taken where it isn't there.
ghost use Rattle.std.specs.Prelude.{◌≡◌, ◌≢◌, ◌<◌, Some, None};
ghost use Rattle.model.specs.declared.types.image.Dinode.{Dinode};
ghost use Rattle.wal.specs.Joint.{seen};
ghost use Rattle.wal.specs.Machine.{HasRoom, used_by};
ghost use Rattle.wal.specs.Volume.{Holds};
ghost use Rattle.blockmap.specs.Balloc.{MayAlloc};
ghost use Rattle.blockmap.specs.Bmap.{IsNode, some_address};
ghost use Rattle.blockmap.specs.Branch.{named_by, node_at};
ghost use Rattle.blockmap.specs.BmapAlloc.{MayMap, MapSteps, FindsEntry, SetsEntry, LeadsThere, come_to, place_in};
ghost use Rattle.blockmap.specs.Deeds.{deed_on_way};
ghost use Rattle.blockmap.specs.declared.bmap_alloc.MapAt.TheVariants as map_at;

use crate::getting::{put_block, release_block};
use crate::{Balloc, Branch, Node, Progress};
use blocks::Disk;
use layout::entries::{bytes, entry};
use model::types::Dinode;
use std::marker::Model;
use std::snapshot::Snapshot;
use wal::{TaskDeed, Volume};

/// Where a writer's way to a block of a file stands.
#[derive(Clone, Copy)]
pub enum MapAt {
    /// A block is taken, which the inode itself will name.
    Address(Balloc),
    /// A block of addresses is got and its entry read.
    Entry {
        /// The block of addresses.
        node: Node,
        /// The slot that holds it, where it was got.
        slot: Option<u32>,
    },
    /// A block is taken, which the entry will name.
    Behind {
        /// The block of addresses.
        node: Node,
        /// The slot that keeps it.
        slot: u32,
        /// The steps that take the block.
        take: Balloc,
    },
    /// The entry is set next, and the block of addresses released.
    Setting {
        /// The block of addresses.
        node: Node,
        /// The slot that keeps it.
        slot: u32,
        /// The block that was taken; with None the entry stays as it is.
        found: Option<u32>,
    },
}

/// The steps in which a writer comes to a block of a file (`bmap`; the xv6 book, the chapter "File
/// system": "Code: Inode content"). What isn't there is taken: the block itself, and the blocks of
/// addresses that lead to it. Where an entry is missing, its block of addresses is kept while a
/// block is taken, and one step more sets the entry and releases it; the way goes on from there.
#[derive(Clone, Copy)]
pub struct BmapAlloc {
    /// Where the block stands.
    branch: Branch,
    /// The bitmap's block.
    bitmap: u32,
    /// The image's size in blocks.
    size: u32,
    at: MapAt,
}

impl Model for BmapAlloc {
    ghost use Rattle.blockmap.specs.BmapAlloc.{MapState};

    ghost Value = { MapState };

    ghost view = { λ m.
        record { branch = m.branch; bitmap = m.bitmap; size = m.size; at = m.at } };

    ghost inverse = { λ m.
        record { branch = m.branch; bitmap = m.bitmap; size = m.size; at = m.at } };
}

impl BmapAlloc {
    // The way to the block at that branch, which stands there.
    pub(crate) fn begin(branch: Branch, bitmap: u32, size: u32, at: MapAt) -> BmapAlloc
        ensures { result ≡ record { branch = branch; bitmap = bitmap; size = size; at = at } }
    {
        BmapAlloc {
            branch,
            bitmap,
            size,
            at,
        }
    }

    /// What the next step does.
    pub fn deed(&self) -> TaskDeed
        ensures { result ≡ deed_on_way self.now.at }
    {
        match &self.at {
            MapAt::Address(take) | MapAt::Behind { take, .. } => take.deed(),
            MapAt::Entry { node, slot } => TaskDeed::with_block(node.block, *slot),
            MapAt::Setting { node, .. } => TaskDeed::Use(node.block),
        }
    }

    /// Makes the next step, with the inode as the writer keeps it: what is taken for the inode
    /// itself is named there. `Over` with the file's block; with None where no block was left to
    /// take. `Sleeping` where the buffer of a block is held by another process, or none is to be
    /// had.
    pub fn step<D: Disk>(
        &mut self,
        volume: &mut Volume<D>,
        pid: u32,
        inode: &mut Dinode,
    ) -> Progress<Option<u32>>
        requires fault { volume.old.fault ≡ None }
        requires pid { pid < 32 }
        requires room { HasRoom (used_by volume.old.log pid) }
        requires ready { MayMap D.image volume.old pid self.old inode.old }
        ensures steps { MapSteps D.Disk self.old.at volume.old pid self.old inode.old result
            self.new inode.new volume.new }
        ensures there { LeadsThere D.image result self.old.branch self.old.at inode.new
            volume.new }
    {
        match &self.at {
            MapAt::Address(take) => {
                let was = Snapshot::of(take);
                self.take_address(volume, pid, inode, was)
            }
            MapAt::Entry { node, slot } => {
                let (node, slot) = (*node, *slot);
                match slot {
                    None => self.get(volume, pid, node),
                    Some(slot) => self.find_entry(volume, pid, node, slot),
                }
            }
            MapAt::Behind { node, slot, take } => {
                let (node, slot, was) = (*node, *slot, Snapshot::of(take));
                self.take_behind(volume, pid, node, slot, was)
            }
            MapAt::Setting { node, slot, found } => {
                let (node, slot, found) = (*node, *slot, *found);
                self.set_entry(volume, pid, node, slot, found)
            }
        }
    }

    // Makes the next step of taking a block that the inode itself will name.
    fn take_address<D: Disk>(
        &mut self,
        volume: &mut Volume<D>,
        pid: u32,
        inode: &mut Dinode,
        _was: Snapshot<Balloc>,
    ) -> Progress<Option<u32>>
        requires fault { volume.old.fault ≡ None }
        requires pid { pid < 32 }
        requires room { HasRoom (used_by volume.old.log pid) }
        requires ready { MayMap D.image volume.old pid self.old inode.old }
        requires at { self.old.at ≡ map_at.Address _was.value }
        ensures steps { MapSteps D.Disk (map_at.Address _was.value) volume.old pid self.old inode.old
            result self.new inode.new volume.new }
        ensures there { LeadsThere D.image result self.old.branch (map_at.Address _was.value)
            inode.new volume.new }
    {
        let MapAt::Address(take) = &mut self.at else {
            unreachable!();
        };
        let progress = take.step(volume, pid);
        if let Progress::Over(Some(block)) = progress {
            inode.addrs[self.branch.index] = block;
            return self.go_on(block, self.branch.depth, self.branch.rest);
        }
        progress
    }

    // Goes on from a block that was come to, from which so many blocks of addresses lead to the
    // data.
    fn go_on(&mut self, block: u32, depth: u32, rest: u32) -> Progress<Option<u32>>
        ensures progress { result ≡ come_to depth block }
        ensures at { self.new ≡ record self.old { at = place_in self.old.at depth rest block } }
    {
        if depth == 0 {
            return Progress::Over(Some(block));
        }
        self.at = entry_behind(block, depth, rest);
        Progress::Moved
    }

    // Gets a block of addresses.
    fn get<D: Disk>(
        &mut self,
        volume: &mut Volume<D>,
        pid: u32,
        node: Node,
    ) -> Progress<Option<u32>>
        requires fault { volume.old.fault ≡ None }
        requires node { IsNode volume.old node }
        ensures steps { (d : Dinode) → MapSteps D.Disk (map_at.Entry node None) volume.old pid
            self.old d result self.new d volume.new }
        ensures there { (d : Dinode) → LeadsThere D.image result self.old.branch
            (map_at.Entry node None) d volume.new }
    {
        let mut slot = None;
        let progress = volume.get(pid, node.block, &mut slot);
        self.at = MapAt::Entry { node, slot };
        progress
    }

    // Reads the entry in a block of addresses, and keeps it where the entry names no block.
    fn find_entry<D: Disk>(
        &mut self,
        volume: &mut Volume<D>,
        pid: u32,
        node: Node,
        slot: u32,
    ) -> Progress<Option<u32>>
        requires fault { volume.old.fault ≡ None }
        requires node { IsNode volume.old node }
        requires holds { Holds (seen (D.image volume.old.device) volume.old.buffers)
            volume.old.buffers pid node.block slot }
        ensures steps { FindsEntry D.Disk
            (some_address (named_by (seen (D.image volume.old.device) volume.old.buffers) node))
            volume.old pid node slot self.old result self.new volume.new }
        ensures there { (d : Dinode) → LeadsThere D.image result self.old.branch
            (map_at.Entry node (Some slot)) d volume.new }
    {
        let address = entry(volume.data(slot), node.entry());
        if address == 0 {
            let take = Balloc::new(self.bitmap, self.size);
            self.at = MapAt::Behind { node, slot, take };
            return Progress::Moved;
        }
        release_block(volume, pid, slot);
        self.go_on(address, node.level, node.rest_below())
    }

    // Makes the next step of taking a block that the entry will name.
    fn take_behind<D: Disk>(
        &mut self,
        volume: &mut Volume<D>,
        pid: u32,
        node: Node,
        slot: u32,
        _was: Snapshot<Balloc>,
    ) -> Progress<Option<u32>>
        requires fault { volume.old.fault ≡ None }
        requires pid { pid < 32 }
        requires room { HasRoom (used_by volume.old.log pid) }
        requires at { self.old.at ≡ map_at.Behind node slot _was.value }
        requires take { MayAlloc D.image volume.old pid _was.value }
        ensures steps { (d : Dinode) → MapSteps D.Disk (map_at.Behind node slot _was.value)
            volume.old pid self.old d result self.new d volume.new }
        ensures there { (d : Dinode) → LeadsThere D.image result self.old.branch
            (map_at.Behind node slot _was.value) d volume.new }
    {
        let MapAt::Behind { take, .. } = &mut self.at else {
            unreachable!();
        };
        match take.step(volume, pid) {
            Progress::Over(found) => {
                self.at = MapAt::Setting { node, slot, found };
                Progress::Moved
            }
            progress => progress,
        }
    }

    // Releases a block of addresses, in which the entry is set where a block was found.
    fn set_entry<D: Disk>(
        &mut self,
        volume: &mut Volume<D>,
        pid: u32,
        node: Node,
        slot: u32,
        found: Option<u32>,
    ) -> Progress<Option<u32>>
        requires fault { volume.old.fault ≡ None }
        requires pid { pid < 32 }
        requires room { HasRoom (used_by volume.old.log pid) }
        requires node { IsNode volume.old node }
        requires holds { Holds (seen (D.image volume.old.device) volume.old.buffers)
            volume.old.buffers pid node.block slot }
        ensures steps { SetsEntry D.Disk found volume.old pid node slot self.old result self.new
            volume.new }
        ensures there { (d : Dinode) → LeadsThere D.image result self.old.branch
            (map_at.Setting node slot found) d volume.new }
    {
        let _entries = volume.data(slot);
        let Some(block) = found else {
            release_block(volume, pid, slot);
            return Progress::Over(None);
        };
        let at = 4 * node.entry() as usize;
        put_block(volume, pid, slot, at, &bytes(block));
        self.go_on(block, node.level, node.rest_below())
    }
}

// The next stage of a way that came to a block of addresses, whose entries lead to the data through
// one block of addresses less.
pub(crate) fn entry_behind(block: u32, depth: u32, rest: u32) -> MapAt
    requires { depth ≢ 0 }
    ensures { result ≡ map_at.Entry (node_at depth rest block) None }
{
    let node = Node::at(block, depth, rest);
    MapAt::Entry { node, slot: None }
}
