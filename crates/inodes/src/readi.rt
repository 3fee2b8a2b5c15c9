// The reading of a file's bytes.
ghost use Rattle.std.specs.Prelude.{◌≡◌, ◌<◌, ◌≤◌, ℕ, Some, None, length};
ghost use Rattle.model.specs.Gathered.{GatheredBytes};
ghost use Rattle.model.specs.Layout.{greatest_size};
ghost use Rattle.blockmap.specs.Deeds.{deed_of_target};
ghost use Rattle.blockmap.specs.Target.{got_slot};
ghost use Rattle.inodes.specs.Readi.{first_read, IsReading, HasRoomLeft, ReadSteps};

use crate::Progress;
use blockmap::{Target, release_block, seek, target_for};
use blocks::{BLOCK_SIZE, Disk};
use model::gathered::Gathered;
use model::types::{Dinode, Form};
use std::marker::Model;
use wal::{TaskDeed, Volume};

/// The steps in which bytes of a file are read (`readi`; the xv6 book, the chapter "File system":
/// "Code: Inode content"), whose inode is known and locked: for each of its blocks, those that lead
/// to it, one that gets it, and one that gathers its bytes and releases it.
#[derive(Clone, Copy)]
pub struct Readi {
    inode: Dinode,
    /// The form of its image.
    form: Form,
    /// The place of the next byte in the file.
    next: u32,
    /// The place behind the last one.
    end: u32,
    target: Target,
}

impl Model for Readi {
    ghost use Rattle.inodes.specs.Readi.{ReadState};

    ghost Value = { ReadState };

    ghost view = { λ m. record {
      inode = m.inode;
      form = m.form;
      next = m.next;
      end = m.end;
      target = m.target;
    } };

    ghost inverse = { λ m. record {
      inode = m.inode;
      form = m.form;
      next = m.next;
      end = m.end;
      target = m.target;
    } };
}

impl Readi {
    /// Begins to read that many bytes of an inode's file in an image of that form, from an offset
    /// on, or those that there are; None where there are none.
    pub fn new(inode: &Dinode, form: Form, offset: u32, count: u32) -> Option<Readi>
        requires addrs { length inode.now.addrs ≡ 13 }
        requires size { inode.now.size ≤ greatest_size form }
        ensures { result ≡ first_read form inode.now offset count }
    {
        if inode.size <= offset || count == 0 {
            return None;
        }
        Some(Readi {
            inode: *inode,
            form,
            next: offset,
            end: offset + count.min(inode.size - offset),
            target: target_for(inode, form, offset / BLOCK_SIZE as u32),
        })
    }

    /// What the next step does.
    pub fn deed(&self) -> TaskDeed
        ensures { result ≡ deed_of_target self.now.target }
    {
        self.target.deed()
    }

    /// Makes the next step, and adds the bytes that it reads. `Over` with the last ones. `Sleeping`
    /// where the buffer of a block is held by another process, or none is to be had.
    pub fn step<D: Disk>(
        &mut self,
        volume: &mut Volume<D>,
        pid: u32,
        into: &mut Gathered,
    ) -> Progress<()>
        requires fault { volume.old.fault ≡ None }
        requires ready { IsReading D.image volume.old pid self.old }
        requires room { HasRoomLeft self.old into.old }
        ensures { ReadSteps D.Disk volume.old pid self.old into.old result
            volume.new self.new into.new }
    {
        match self.target {
            Target::Block {
                slot: Some(slot),
                ..
            } => self.gather(volume, pid, slot, into),
            Target::Block { slot: None, .. } | Target::Entry(_) => self.seek(volume, pid),
        }
    }

    // Makes the next step to the block.
    fn seek<D: Disk>(&mut self, volume: &mut Volume<D>, pid: u32) -> Progress<()>
        requires fault { volume.old.fault ≡ None }
        requires ready { IsReading D.image volume.old pid self.old }
        requires target { got_slot self.old.target ≡ None }
        ensures { (g : GatheredBytes) → ReadSteps D.Disk volume.old pid self.old g result
            volume.new self.new g }
    {
        volume.known();
        seek(volume, pid, &mut self.target)
    }

    // Gathers the bytes of the block that are to be read, and releases it.
    fn gather<D: Disk>(
        &mut self,
        volume: &mut Volume<D>,
        pid: u32,
        slot: u32,
        into: &mut Gathered,
    ) -> Progress<()>
        requires fault { volume.old.fault ≡ None }
        requires ready { IsReading D.image volume.old pid self.old }
        requires target { got_slot self.old.target ≡ Some slot }
        requires room { HasRoomLeft self.old into.old }
        ensures { ReadSteps D.Disk volume.old pid self.old into.old result
            volume.new self.new into.new }
    {
        volume.known();
        let at = self.next % BLOCK_SIZE as u32;
        let count = (BLOCK_SIZE as u32 - at).min(self.end - self.next);
        into.add(&volume.data(slot).as_slice()[at as usize..(at + count) as usize]);
        release_block(volume, pid, slot);
        self.next += count;
        if self.next == self.end {
            return Progress::Over(());
        }
        self.target = target_for(&self.inode, self.form, self.next / BLOCK_SIZE as u32);
        Progress::Moved
    }
}
