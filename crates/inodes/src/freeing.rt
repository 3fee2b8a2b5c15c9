// The steps in which the blocks of a file are freed.
ghost use Rattle.std.specs.Prelude.{◌≡◌, ◌<◌, None, Some};
ghost use Rattle.wal.specs.Machine.{HasRoom, used_by};
ghost use Rattle.inodes.specs.Deeds.{deed_of_freeing};
ghost use Rattle.inodes.specs.Freeing.{FreesOn, MayFree, block_next, first_freeing, got_or, now_of, taken};
ghost use Rattle.inodes.specs.Itrunc.{Fits};

use crate::iupdate::write_inode;
use crate::{Itrunc, Progress, TruncAt};
use blockmap::{free_block, release_block};
use blocks::{Block, Disk};
use layout::inode_block;
use wal::{TaskDeed, Volume};

/// A block that was got.
#[derive(Clone, Copy)]
pub struct Got {
    /// The block.
    pub block: u32,
    /// The slot that holds it.
    pub slot: u32,
}

/// The blocks of addresses that are kept, two at most.
#[derive(Clone, Copy)]
pub struct Kept {
    /// The one that was kept last.
    pub inner: Option<Got>,
    /// The one that was kept before it.
    pub outer: Option<Got>,
}

/// The steps in which the blocks of a file are freed, and its inode is written back. Each block is
/// freed in two: one gets the bitmap's block, the other one clears the bit. A block of addresses is
/// kept while what it names is freed, and given back in a step of its own.
#[derive(Clone, Copy)]
pub struct Freeing {
    /// What is freed, and how far that has come.
    pub machine: Itrunc,
    /// The blocks of addresses that are kept.
    pub kept: Kept,
    /// The slot that holds the block which the next step uses, where it was got.
    pub used: Option<u32>,
}

impl Freeing {
    /// Begins with what is freed, and has got no block yet.
    pub fn new(machine: Itrunc) -> Freeing
        ensures { result ≡ first_freeing machine }
    {
        Freeing {
            machine,
            kept: Kept {
                inner: None,
                outer: None,
            },
            used: None,
        }
    }

    /// What the next step does.
    pub fn deed(&self) -> TaskDeed
        ensures { result ≡ deed_of_freeing self.now }
    {
        match self.in_hand() {
            None => TaskDeed::Get(self.next_block()),
            Some(got) => TaskDeed::Use(got.block),
        }
    }

    /// Makes the next step. `Over` where the inode is written, and its block logged. `Sleeping`
    /// where the buffer of a block is held by another process, or none is to be had.
    pub fn step<D: Disk>(&mut self, volume: &mut Volume<D>, pid: u32) -> Progress<()>
        requires fault { volume.old.fault ≡ None }
        requires pid { pid < 32 }
        requires room { HasRoom (used_by volume.old.log pid) }
        requires ready { MayFree D.image volume.old pid self.old }
        ensures { FreesOn D.Disk (now_of self.old) volume.old pid self.old result self.new
            volume.new }
    {
        match self.in_hand() {
            None => self.get(volume, pid),
            Some(got) => self.use_block(volume, pid, got),
        }
    }

    // The block that the next step uses, where it was got or is kept.
    fn in_hand(&self) -> Option<Got>
        ensures { result ≡ now_of self.now }
    {
        match self.machine.at {
            TruncAt::Loading(_) => None,
            TruncAt::Unloading => self.kept.inner,
            TruncAt::Direct | TruncAt::Entry | TruncAt::Freeing | TruncAt::Updating => {
                match self.used {
                    Some(slot) => Some(Got {
                        block: self.next_block(),
                        slot,
                    }),
                    None => None,
                }
            }
        }
    }

    // The block that a step gets, if it wasn't got yet; 0 where it gets none.
    fn next_block(&self) -> u32
        ensures { result ≡ block_next self.now }
    {
        match self.machine.at {
            TruncAt::Direct | TruncAt::Entry | TruncAt::Freeing => self.machine.bitmap,
            TruncAt::Loading(block) => block,
            TruncAt::Unloading => 0,
            TruncAt::Updating => inode_block(self.machine.number),
        }
    }

    // Gets the block that comes next.
    fn get<D: Disk>(&mut self, volume: &mut Volume<D>, pid: u32) -> Progress<()>
        requires fault { volume.old.fault ≡ None }
        requires ready { MayFree D.image volume.old pid self.old }
        requires none { now_of self.old ≡ None }
        ensures { FreesOn D.Disk None volume.old pid self.old result self.new volume.new }
    {
        let mut slot = None;
        let progress = volume.get(pid, self.next_block(), &mut slot);
        if let Some(slot) = slot {
            self.take(volume.data(slot), slot);
        }
        progress
    }

    // Takes a block that was got, with these bytes: it is used next, or kept.
    fn take(&mut self, bytes: &Block, slot: u32)
        requires fits { Fits self.old.machine }
        ensures { self.new ≡ taken bytes.now slot self.old.machine.at self.old }
    {
        match self.machine.at {
            TruncAt::Loading(block) => {
                self.machine.load(bytes);
                self.kept = Kept {
                    inner: Some(Got { block, slot }),
                    outer: self.kept.inner,
                };
                self.used = None;
            }
            TruncAt::Direct
            | TruncAt::Entry
            | TruncAt::Unloading
            | TruncAt::Freeing
            | TruncAt::Updating => self.used = Some(slot),
        }
    }

    // Uses the block in hand, and gives it back.
    fn use_block<D: Disk>(&mut self, volume: &mut Volume<D>, pid: u32, got: Got) -> Progress<()>
        requires fault { volume.old.fault ≡ None }
        requires pid { pid < 32 }
        requires room { HasRoom (used_by volume.old.log pid) }
        requires ready { MayFree D.image volume.old pid self.old }
        requires got { now_of self.old ≡ Some got }
        ensures { FreesOn D.Disk (Some got) volume.old pid self.old result self.new volume.new }
    {
        self.used = None;
        match self.machine.at {
            TruncAt::Direct | TruncAt::Entry | TruncAt::Freeing => {
                let above = beside(self.kept, got);
                let freed = self.machine.give_up(volume.data(above.slot));
                free_block(volume, pid, got.slot, freed);
                Progress::Moved
            }
            TruncAt::Loading(_) => unreachable!(),
            TruncAt::Unloading => {
                self.machine.at = TruncAt::Freeing;
                self.kept = Kept {
                    inner: self.kept.outer,
                    outer: None,
                };
                release_block(volume, pid, got.slot);
                Progress::Moved
            }
            TruncAt::Updating => {
                let inode = self.machine.last_inode();
                write_inode(volume, pid, got.slot, self.machine.number, &inode);
                Progress::Over(())
            }
        }
    }
}

// The block that was kept last beside one that is used, or that one.
fn beside(kept: Kept, used: Got) -> Got
    ensures { result ≡ got_or kept.inner used }
{
    match kept.inner {
        Some(kept) => kept,
        None => used,
    }
}
