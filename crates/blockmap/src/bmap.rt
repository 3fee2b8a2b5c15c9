// The entries of blocks of addresses, on the way to a block of a file.
ghost use Rattle.std.specs.Prelude.{◌≡◌, ◌<◌, ◌≤◌, ◌≢◌, None};
ghost use Rattle.blockmap.specs.Bmap.{below, first_entry, some_address, IsReady, LooksUp};
ghost use Rattle.blockmap.specs.Deeds.{deed_of_entry};

use crate::getting::release_block;
use crate::{Node, Progress};
use blocks::Disk;
use layout::entries::entry;
use std::marker::Model;
use wal::{TaskDeed, Volume};

/// The steps in which a block of a file is sought under a block of addresses (`bmap`; the xv6 book,
/// the chapter "File system": "Code: Inode content"): one gets the block of addresses, the next one
/// looks at the entry and releases the block; where the entry names another block of addresses the
/// same follows there.
#[derive(Clone, Copy)]
pub struct Bmap {
    /// The block of addresses.
    node: Node,
    /// The slot that holds it, where it was got.
    slot: Option<u32>,
}

impl Model for Bmap {
    ghost use Rattle.blockmap.specs.Bmap.{EntryState};

    ghost Value = { EntryState };

    ghost view = { λ m. record { node = m.node; slot = m.slot } };

    ghost inverse = { λ m. record { node = m.node; slot = m.slot } };
}

impl Bmap {
    /// Begins to seek a block of a file under a block of addresses.
    pub fn new(node: Node) -> Bmap
        ensures { result ≡ first_entry node }
    {
        Bmap { node, slot: None }
    }

    /// What the next step does.
    pub fn deed(&self) -> TaskDeed
        ensures { result ≡ deed_of_entry self.now }
    {
        TaskDeed::with_block(self.node.block, self.slot)
    }

    /// Makes the next step. `Over` with the block that is sought; with None where there is none.
    /// `Sleeping` where the buffer of the block of addresses is held by another process, or none is
    /// to be had.
    pub fn step<D: Disk>(&mut self, volume: &mut Volume<D>, pid: u32) -> Progress<Option<u32>>
        requires fault { volume.old.fault ≡ None }
        requires ready { IsReady D.image volume.old pid self.old }
        ensures { LooksUp D.Disk self.old.slot volume.old pid self.old result self.new volume.new }
    {
        let Some(slot) = self.slot else {
            return volume.get(pid, self.node.block, &mut self.slot);
        };
        let address = entry(volume.data(slot), self.node.entry());
        release_block(volume, pid, slot);
        if address == 0 || self.node.level == 0 {
            return Progress::Over(some_address(address));
        }
        self.go_below(address);
        Progress::Moved
    }

    // Goes on below an entry, which names that block of addresses.
    fn go_below(&mut self, block: u32)
        requires shallow { self.old.node.level ≤ 1 }
        requires more { self.old.node.level ≢ 0 }
        ensures { self.new ≡ below self.old block }
    {
        *self = Bmap::new(Node::at(block, self.node.level, self.node.rest_below()));
    }
}

// An address, if there is one.
pub(crate) fn some_address(address: u32) -> Option<u32>
    ensures { result ≡ some_address address }
{
    if address == 0 { None } else { Some(address) }
}
