// A process takes an inode.
ghost use Rattle.std.specs.Prelude.{◌≡◌, ◌<◌, None};
ghost use Rattle.model.specs.Layout.{inode_block, inode_of};
ghost use Rattle.wal.specs.Joint.{seen};
ghost use Rattle.wal.specs.Volume.{Holds};
ghost use Rattle.inodes.specs.Table.{HasPlaceFor, holder_at, copy_at};
ghost use Rattle.inodes.specs.Deeds.{deed_of_lock};
ghost use Rattle.inodes.specs.LockState.{place_of};
ghost use Rattle.inodes.specs.Ilock.{MayLock, IsAt, LockSteps, Refers, Locks, GetsInode, ReadsInode};
ghost use Rattle.inodes.specs.declared.ilock.LockAt.TheVariants as lock_at;

use crate::{Inodes, Progress};
use blockmap::release_block;
use blocks::Disk;
use layout::{inode, inode_block};
use model::types::Why;
use std::marker::Model;
use wal::{TaskDeed, Volume};

/// Where a process stands that takes an inode.
#[derive(Clone, Copy)]
pub enum LockAt {
    /// It takes a reference next.
    Reference,
    /// It has one to the inode at this place of the table, and takes its sleep lock next.
    Lock { place: usize },
    /// It has the lock, and reads the inode; the slot is that of the inode's block, once it was got.
    Read { place: usize, slot: Option<u32> },
}

/// The steps in which a process takes an inode (`iget`, `ilock`; the xv6 book, the chapter "File
/// system": "Code: Inodes"): it takes a reference in the table and then the inode's sleep lock, and
/// reads the inode where the table hasn't it yet, in two steps. The last step is the operation's
/// turn.
#[derive(Clone, Copy)]
pub struct Ilock {
    number: u32,
    at: LockAt,
}

impl Model for Ilock {
    ghost use Rattle.inodes.specs.LockState.{LockState};

    ghost Value = { LockState };

    ghost view = { λ m. record { number = m.number; at = m.at } };

    ghost inverse = { λ m. record { number = m.number; at = m.at } };
}

impl Ilock {
    /// Begins to take the inode of a number.
    pub fn new(number: u32) -> Ilock
        ensures { result ≡ record { number = number; at = lock_at.Reference } }
    {
        Ilock {
            number,
            at: LockAt::Reference,
        }
    }

    /// What the next step does.
    pub fn deed(&self) -> TaskDeed
        ensures { result ≡ deed_of_lock self.now.at self.now.number }
    {
        match self.at {
            LockAt::Reference => TaskDeed::Reference(self.number),
            LockAt::Lock { place } => TaskDeed::Lock {
                number: self.number,
                place,
            },
            LockAt::Read { slot: None, .. } => TaskDeed::Get(inode_block(self.number)),
            LockAt::Read { slot: Some(_), .. } => TaskDeed::Look(inode_block(self.number)),
        }
    }

    /// Makes the next step. `Over` with whether the inode is used; the process then has its lock, and
    /// a used one stands in the table. `Sleeping` with `InodeHeld` where another process has the
    /// lock, and as the volume's `get` where the inode's block can't be had.
    pub fn step<D: Disk>(
        &mut self,
        table: &mut Inodes,
        volume: &mut Volume<D>,
        pid: u32,
    ) -> Progress<bool>
        requires fault { volume.old.fault ≡ None }
        requires ready { MayLock D.image table.old volume.old pid self.old }
        ensures { LockSteps D.Disk self.old.at table.old volume.old pid self.old
            result table.new volume.new self.new }
    {
        match self.at {
            LockAt::Reference => self.refer(table),
            LockAt::Lock { place } => self.lock(table, pid, place),
            LockAt::Read { place, slot: None } => self.get(volume, pid, place),
            LockAt::Read {
                place,
                slot: Some(slot),
            } => self.look(table, volume, pid, place, slot),
        }
    }

    /// The place of the inode in the table, once it has a reference; 0 before.
    pub fn place(&self) -> usize
        ensures { result ≡ place_of self.now.at }
    {
        match self.at {
            LockAt::Reference => 0,
            LockAt::Lock { place } | LockAt::Read { place, .. } => place,
        }
    }

    // Takes a reference.
    fn refer(&mut self, table: &mut Inodes) -> Progress<bool>
        requires { HasPlaceFor table.old self.old.number }
        ensures { Refers table.old self.old result table.new self.new }
    {
        let place = table.refer(self.number);
        self.at = LockAt::Lock { place };
        Progress::Moved
    }

    // Takes the lock, if nobody has it.
    fn lock(&mut self, table: &mut Inodes, pid: u32, place: usize) -> Progress<bool>
        requires { IsAt table.old place self.old.number }
        ensures { Locks (holder_at table.old.places place) (copy_at table.old.places place)
            table.old pid place self.old result table.new self.new }
    {
        if !table.lock(place, pid) {
            return Progress::Sleeping(Why::InodeHeld);
        }
        if table.copy(place).is_some() {
            return Progress::Over(true);
        }
        self.at = LockAt::Read { place, slot: None };
        Progress::Moved
    }

    // Gets the inode's block.
    fn get<D: Disk>(&mut self, volume: &mut Volume<D>, pid: u32, place: usize) -> Progress<bool>
        requires fault { volume.old.fault ≡ None }
        requires within { inode_block self.old.number < volume.old.log.size }
        ensures { GetsInode D.Disk volume.old pid place self.old result volume.new self.new }
    {
        let mut slot = None;
        let progress = volume.get(pid, inode_block(self.number), &mut slot);
        self.at = LockAt::Read { place, slot };
        progress
    }

    // Reads the inode in its block, and releases it. A free inode is not kept.
    fn look<D: Disk>(
        &self,
        table: &mut Inodes,
        volume: &mut Volume<D>,
        pid: u32,
        place: usize,
        slot: u32,
    ) -> Progress<bool>
        requires fault { volume.old.fault ≡ None }
        requires at { IsAt table.old place self.now.number }
        requires holds { Holds (seen (D.image volume.old.device) volume.old.buffers)
            volume.old.buffers pid (inode_block self.now.number) slot }
        ensures { ReadsInode D.image volume.old pid place slot
            (inode_of (seen (D.image volume.old.device) volume.old.buffers) self.now.number)
            table.old result table.new volume.new }
    {
        let inode = inode::read_at(volume.data(slot), self.number);
        release_block(volume, pid, slot);
        if inode.kind == 0 {
            return Progress::Over(false);
        }
        table.renew(place, Some(inode));
        Progress::Over(true)
    }
}
