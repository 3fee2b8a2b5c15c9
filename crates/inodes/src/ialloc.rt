// A creation's search for a free inode number.
ghost use Rattle.std.specs.Prelude.{◌≡◌, ◌<◌, ◌≤◌, ◌-◌, Some, None, true, if◌then◌else◌};
ghost use Rattle.model.specs.Format.{inode_start, most_blocks, most_inodes};
ghost use Rattle.model.specs.Layout.{inode_block};
ghost use Rattle.model.specs.Codec.{new_inode, with_inode};
ghost use Rattle.wal.specs.Machine.{used_by, HasRoom};
ghost use Rattle.wal.specs.Held.{GivesUpLock};
ghost use Rattle.wal.specs.Joint.{seen};
ghost use Rattle.wal.specs.Volume.{Holds};
ghost use Rattle.inodes.specs.Creation.{AreUsed, is_free_in, lowest_free};
ghost use Rattle.inodes.specs.Deeds.{deed_of_search};
ghost use Rattle.inodes.specs.Ialloc.{MayStep, SearchSteps, is_last_block, at_next_block, with_new_inode};

use crate::Progress;
use blocks::{Block, Disk};
use layout::{INODE_START, INODES_PER_BLOCK, inode, inode_block, inode_offset};
use model::types::Dinode;
use std::marker::Model;
use wal::{TaskDeed, Volume};

/// The steps in which a creation claims an inode number (`ialloc`; the xv6 book, the chapter "File
/// system": "Code: Inodes"): it looks at the inode blocks in order, from the one of number 1 on,
/// and takes the lowest free number of the first block that has one.
///
/// A look is two steps: one that gets the block, and one that claims a number in it or goes on.
#[derive(Clone, Copy)]
pub struct Ialloc {
    /// The type of the new file, from 1 to 3.
    kind: u16,
    /// The inode numbers, the unused number 0 included: from 2 to 1024.
    inode_count: u32,
    /// The inode block that is looked at.
    block: u32,
    /// The slot that holds it, where it was got.
    slot: Option<u32>,
}

impl Model for Ialloc {
    ghost use Rattle.inodes.specs.Ialloc.{SearchState};

    ghost Value = { SearchState };

    ghost view = { λ s. record {
      kind = s.kind;
      inode_count = s.inode_count;
      block = s.block;
      slot = s.slot;
    } };

    ghost inverse = { λ s. record {
      kind = s.kind;
      inode_count = s.inode_count;
      block = s.block;
      slot = s.slot;
    } };
}

impl Ialloc {
    /// A search that begins at the first inode block, for a file of this type.
    pub fn new(kind: u16, inode_count: u32) -> Ialloc
        ensures { result ≡ record {
          kind = kind;
          inode_count = inode_count;
          block = inode_start;
          slot = None;
        } }
    {
        Ialloc {
            kind,
            inode_count,
            block: INODE_START,
            slot: None,
        }
    }

    /// What the next step does.
    pub fn deed(&self) -> TaskDeed
        ensures { result ≡ deed_of_search self.now }
    {
        TaskDeed::with_block(self.block, self.slot)
    }

    /// Makes the next step. `Over` with the number that was claimed, and whose inode is now that of
    /// an empty file with one link; or with None where each number was seen taken. `Sleeping` where
    /// the block's buffer is held by another process, or none is to be had.
    pub fn step<D: Disk>(&mut self, volume: &mut Volume<D>, pid: u32) -> Progress<Option<u32>>
        requires fault { volume.old.fault ≡ None }
        requires pid { pid < 32 }
        requires room { HasRoom (used_by volume.old.log pid) }
        requires ready { MayStep D.image volume.old pid self.old }
        ensures { SearchSteps D.Disk self.old.slot volume.old volume.new pid
            self.old self.new result }
    {
        match self.slot {
            None => self.get(volume, pid),
            Some(slot) => self.look(volume, pid, slot),
        }
    }

    fn get<D: Disk>(&mut self, volume: &mut Volume<D>, pid: u32) -> Progress<Option<u32>>
        requires fault { volume.old.fault ≡ None }
        requires ready { MayStep D.image volume.old pid self.old }
        requires slot { self.old.slot ≡ None }
        ensures { SearchSteps D.Disk None volume.old volume.new pid
            self.old self.new result }
    {
        volume.get(pid, self.block, &mut self.slot)
    }

    // Claims the lowest free number of the block, if there is one, and releases the block.
    fn look<D: Disk>(
        &mut self,
        volume: &mut Volume<D>,
        pid: u32,
        slot: u32,
    ) -> Progress<Option<u32>>
        requires fault { volume.old.fault ≡ None }
        requires pid { pid < 32 }
        requires room { HasRoom (used_by volume.old.log pid) }
        requires ready { MayStep D.image volume.old pid self.old }
        requires slot { self.old.slot ≡ Some slot }
        ensures { SearchSteps D.Disk (Some slot) volume.old volume.new pid
            self.old self.new result }
    {
        match lowest_free(volume.data(slot), self.inode_count, self.block) {
            Some(i) => {
                claim(volume, pid, slot, i, self.kind);
                Progress::Over(Some(i))
            }
            None => {
                volume.release(pid, slot);
                self.go_on()
            }
        }
    }

    // Goes on to the next block, if it has a number that operations may name.
    fn go_on(&mut self) -> Progress<Option<u32>>
        requires some { 2 ≤ self.old.inode_count }
        requires few { self.old.inode_count ≤ most_inodes }
        requires last { self.old.block ≤ inode_block (self.old.inode_count - 1) }
        ensures answer { result
            ≡ (if is_last_block self.old then Progress.Over None else Progress.Moved) }
        ensures search { self.new
            ≡ (if is_last_block self.old then self.old else at_next_block self.old) }
    {
        if self.block == inode_block(self.inode_count - 1) {
            return Progress::Over(None);
        }
        self.block += 1;
        self.slot = None;
        Progress::Moved
    }
}

// Writes the inode of a new file at a number of the block that the slot holds, and releases it.
fn claim<D: Disk>(volume: &mut Volume<D>, pid: u32, slot: u32, i: u32, kind: u16)
    requires fault { volume.old.fault ≡ None }
    requires pid { pid < 32 }
    requires room { HasRoom (used_by volume.old.log pid) }
    requires holds { Holds (seen (D.image volume.old.device) volume.old.buffers)
        volume.old.buffers pid (inode_block i) slot }
    ensures volume { volume.new ≡ with_new_inode volume.old pid slot i kind }
    ensures locks { GivesUpLock volume.old.buffers volume.new.buffers pid slot }
    ensures current { seen (D.image volume.new.device) volume.new.buffers
        ≡ with_inode (seen (D.image volume.old.device) volume.old.buffers) i (new_inode kind) }
{
    let at = inode_offset(i);
    volume.change(pid, slot, at, &inode::bytes(&new_inode(kind)));
    volume.release(pid, slot);
}

// Whether an inode block says that a number is free, and operations may name it.
fn is_free(block: &Block, i: u32, inode_count: u32) -> bool
    ensures { result ≡ is_free_in block.now inode_count i }
{
    0 < i && i < inode_count && inode::read_at(block, i).kind == 0
}

// The lowest free number in an inode block.
fn lowest_free(bytes: &Block, inode_count: u32, block: u32) -> Option<u32>
    requires behind { inode_start ≤ block }
    requires small { block ≤ most_blocks }
    ensures { result ≡ lowest_free bytes.now inode_count block }
{
    // Most blocks that a search looks at have none.
    if are_used(bytes) {
        return None;
    }
    let first = (block - INODE_START) * INODES_PER_BLOCK;
    (first..first + INODES_PER_BLOCK).find(|i| is_free(bytes, *i, inode_count))
}

// Whether each inode of an inode block is used.
fn are_used(block: &Block) -> bool
    ensures { result ≡ true → AreUsed block.now 16 }
{
    for place in 0..INODES_PER_BLOCK {
        if inode::read_at(block, place).kind == 0 {
            return false;
        }
    }
    true
}

fn new_inode(kind: u16) -> Dinode
    ensures { result ≡ new_inode kind }
{
    Dinode {
        kind,
        major: 0,
        minor: 0,
        nlink: 1,
        size: 0,
        addrs: [0; 13],
    }
}
