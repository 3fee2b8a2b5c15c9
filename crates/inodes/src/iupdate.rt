// An inode is written back.
ghost use Rattle.std.specs.Prelude.{◌≡◌, ◌<◌, None, length};
ghost use Rattle.wal.specs.Machine.{HasRoom, used_by};
ghost use Rattle.wal.specs.Joint.{seen};
ghost use Rattle.wal.specs.Volume.{Holds};
ghost use Rattle.blockmap.specs.Getting.{WritesBlock};
ghost use Rattle.model.specs.Codec.{with_inode};
ghost use Rattle.model.specs.Layout.{inode_block};
ghost use Rattle.inodes.specs.Deeds.{deed_of_update};
ghost use Rattle.inodes.specs.Iupdate.{MayUpdate, Updates};

use blockmap::{Progress, put_block};
use blocks::Disk;
use layout::{inode, inode_block, inode_offset};
use model::types::Dinode;
use std::marker::Model;
use wal::{TaskDeed, Volume};

/// The steps in which an inode is written back (`iupdate`; the xv6 book, the chapter "File system":
/// "Code: Inodes"): one gets the block that holds it, the other one writes it there.
#[derive(Clone, Copy)]
pub struct Iupdate {
    /// The inode's number.
    number: u32,
    /// The slot that holds its block, where it was got.
    slot: Option<u32>,
}

impl Model for Iupdate {
    ghost use Rattle.inodes.specs.Iupdate.{UpdateState};

    ghost Value = { UpdateState };

    ghost view = { λ m. record { number = m.number; slot = m.slot } };

    ghost inverse = { λ m. record { number = m.number; slot = m.slot } };
}

impl Iupdate {
    /// Begins to write the inode of a number back.
    pub fn new(number: u32) -> Iupdate
        ensures { result ≡ record { number = number; slot = None } }
    {
        Iupdate { number, slot: None }
    }

    /// What the next step does.
    pub fn deed(&self) -> TaskDeed
        ensures { result ≡ deed_of_update self.now }
    {
        TaskDeed::with_block(inode_block(self.number), self.slot)
    }

    /// Makes the next step, with the inode as it is to be. `Over` where it is written, and its block
    /// logged. `Sleeping` where the block's buffer is held by another process, or none is to be had.
    pub fn step<D: Disk>(
        &mut self,
        volume: &mut Volume<D>,
        pid: u32,
        dinode: &Dinode,
    ) -> Progress<()>
        requires fault { volume.old.fault ≡ None }
        requires pid { pid < 32 }
        requires room { HasRoom (used_by volume.old.log pid) }
        requires addrs { length dinode.now.addrs ≡ 13 }
        requires ready { MayUpdate D.image volume.old pid self.old }
        ensures { Updates D.Disk self.old.slot volume.old pid self.old dinode.now
            result self.new volume.new }
    {
        let Some(slot) = self.slot else {
            return volume.get(pid, inode_block(self.number), &mut self.slot);
        };
        write_inode(volume, pid, slot, self.number, dinode);
        Progress::Over(())
    }
}

// Writes an inode at its number into its block, which that slot holds, logs the block and releases
// it.
pub(crate) fn write_inode<D: Disk>(
    volume: &mut Volume<D>,
    pid: u32,
    slot: u32,
    number: u32,
    dinode: &Dinode,
)
    requires fault { volume.old.fault ≡ None }
    requires pid { pid < 32 }
    requires room { HasRoom (used_by volume.old.log pid) }
    requires addrs { length dinode.now.addrs ≡ 13 }
    requires holds { Holds (seen (D.image volume.old.device) volume.old.buffers)
        volume.old.buffers pid (inode_block number) slot }
    ensures { WritesBlock D.Disk volume.old pid slot (inode_block number)
        (with_inode (seen (D.image volume.old.device) volume.old.buffers) number dinode.now)
        volume.new }
{
    let at = inode_offset(number);
    put_block(volume, pid, slot, at, &inode::bytes(dinode));
}
