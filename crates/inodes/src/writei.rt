// The writing of a file's bytes.
ghost use Rattle.std.specs.Prelude.{◌≡◌, ◌<◌, ◌≤◌, ◌+◌, length, Some, None};
ghost use Rattle.model.specs.Layout.{greatest_size};
ghost use Rattle.wal.specs.Machine.{HasRoom, used_by};
ghost use Rattle.inodes.specs.Deeds.{deed_of_write};
ghost use Rattle.inodes.specs.Writei.{MayWrite, WriteSteps, MapsOn, GetsNext, WritesNext, UpdatesCopy, first_write, next_place, place_of_mapped};
ghost use Rattle.inodes.specs.declared.writei.WriteAt.TheVariants as write_at;

use crate::Iupdate;
use blockmap::{BmapAlloc, MappedForWriting, Progress, map_for_writing, put_block};
use blocks::{BLOCK_SIZE, Disk};
use model::types::{Dinode, Form};
use std::marker::Model;
use std::snapshot::Snapshot;
use wal::{TaskDeed, Volume};

/// Where the writing of a file's bytes stands.
#[derive(Clone, Copy)]
pub enum WriteAt {
    /// These steps lead to the block of the next bytes, and make what isn't there.
    Mapping(BmapAlloc),
    /// This block is got, and the next bytes are written into it.
    Block {
        /// Its number.
        block: u32,
        /// The slot that holds it, where it was got.
        slot: Option<u32>,
    },
    /// All bytes are written, or no block was left, and the inode is written back.
    Updating(Iupdate),
}

/// The part of an image in which blocks are taken.
#[derive(Clone, Copy)]
pub struct Extent {
    /// The image's form.
    pub form: Form,
    /// The bitmap's block.
    pub bitmap: u32,
    /// The image's size in blocks.
    pub size: u32,
}

/// The steps in which bytes are written into a file, and its inode is written back (`writei`; the
/// xv6 book, the chapter "File system": "Code: Inode content"): for each block, those that lead to
/// it, one that gets it, and one that writes its bytes and releases it. Where no block is left the
/// writing ends early. The inode is written back always, also for no bytes.
#[derive(Clone, Copy)]
pub struct Writei {
    /// The inode's number.
    number: u32,
    /// The inode as it was read, with the addresses that were made and the size that was reached.
    inode: Dinode,
    /// The place in the file of the first byte.
    offset: u32,
    /// How many bytes there are, and how many of them were written.
    count: u32,
    done: u32,
    /// Where blocks are taken.
    extent: Extent,
    at: WriteAt,
}

impl Model for Writei {
    ghost use Rattle.inodes.specs.Writei.{WriteState};

    ghost Value = { WriteState };

    ghost view = { λ m. record {
      number = m.number;
      inode = m.inode;
      offset = m.offset;
      count = m.count;
      done = m.done;
      extent = m.extent;
      at = m.at;
    } };

    ghost inverse = { λ m. record {
      number = m.number;
      inode = m.inode;
      offset = m.offset;
      count = m.count;
      done = m.done;
      extent = m.extent;
      at = m.at;
    } };
}

impl Writei {
    /// Begins to write that many bytes into the file of a number's inode, from an offset on.
    pub fn new(number: u32, inode: &Dinode, offset: u32, count: u32, extent: Extent) -> Writei
        requires addrs { length inode.now.addrs ≡ 13 }
        requires fits { offset + count ≤ greatest_size extent.form }
        ensures { result ≡ first_write number inode.now offset count extent }
    {
        Writei {
            number,
            inode: *inode,
            offset,
            count,
            done: 0,
            extent,
            at: next_place(number, inode, offset, count, extent),
        }
    }

    /// How many bytes were written.
    pub fn done(&self) -> u32
        ensures { result ≡ self.now.done }
    {
        self.done
    }

    /// The inode, as it is written back.
    pub fn inode(&self) -> Dinode
        ensures { result ≡ self.now.inode }
    {
        self.inode
    }

    /// What the next step does.
    pub fn deed(&self) -> TaskDeed
        ensures { result ≡ deed_of_write self.now.at }
    {
        match &self.at {
            WriteAt::Mapping(way) => way.deed(),
            WriteAt::Block { block, slot } => TaskDeed::with_block(*block, *slot),
            WriteAt::Updating(update) => update.deed(),
        }
    }

    /// Makes the next step, with the bytes that are to be written. `Over` where the inode is written
    /// back. `Sleeping` where the buffer of a block is held by another process, or none is to be
    /// had.
    pub fn step<D: Disk>(&mut self, volume: &mut Volume<D>, pid: u32, bytes: &[u8]) -> Progress<()>
        requires fault { volume.old.fault ≡ None }
        requires pid { pid < 32 }
        requires room { HasRoom (used_by volume.old.log pid) }
        requires all { self.old.count ≤ length bytes.now }
        requires ready { MayWrite D.image volume.old pid self.old }
        ensures { WriteSteps D.Disk self.old.at volume.old pid self.old bytes.now result
            self.new volume.new }
    {
        match &self.at {
            WriteAt::Mapping(way) => {
                let was = Snapshot::of(way);
                self.go_on(volume, pid, was)
            }
            WriteAt::Block { block, slot } => {
                let (block, slot) = (*block, *slot);
                match slot {
                    None => self.get(volume, pid, block),
                    Some(slot) => self.write(volume, pid, block, slot, bytes),
                }
            }
            WriteAt::Updating(update) => {
                let update = *update;
                self.update(volume, pid, update)
            }
        }
    }

    // Makes the next step on the way to a block.
    fn go_on<D: Disk>(
        &mut self,
        volume: &mut Volume<D>,
        pid: u32,
        _was: Snapshot<BmapAlloc>,
    ) -> Progress<()>
        requires fault { volume.old.fault ≡ None }
        requires pid { pid < 32 }
        requires room { HasRoom (used_by volume.old.log pid) }
        requires ready { MayWrite D.image volume.old pid self.old }
        requires at { self.old.at ≡ write_at.Mapping _was.value }
        ensures { MapsOn D.Disk volume.old pid self.old _was.value result self.new volume.new }
    {
        let WriteAt::Mapping(way) = &mut self.at else {
            unreachable!();
        };
        match way.step(volume, pid, &mut self.inode).ended() {
            Ok(found) => {
                self.at = match found {
                    Some(block) => WriteAt::Block { block, slot: None },
                    None => WriteAt::Updating(Iupdate::new(self.number)),
                };
                Progress::Moved
            }
            Err(progress) => progress,
        }
    }

    fn get<D: Disk>(&mut self, volume: &mut Volume<D>, pid: u32, block: u32) -> Progress<()>
        requires fault { volume.old.fault ≡ None }
        requires ready { MayWrite D.image volume.old pid self.old }
        requires at { self.old.at ≡ write_at.Block block None }
        ensures { GetsNext D.Disk volume.old pid self.old block result self.new volume.new }
    {
        let mut slot = None;
        let progress = volume.get(pid, block, &mut slot);
        self.at = WriteAt::Block { block, slot };
        progress
    }

    // Writes the next bytes into a block that was got, and releases it.
    fn write<D: Disk>(
        &mut self,
        volume: &mut Volume<D>,
        pid: u32,
        block: u32,
        slot: u32,
        bytes: &[u8],
    ) -> Progress<()>
        requires fault { volume.old.fault ≡ None }
        requires pid { pid < 32 }
        requires room { HasRoom (used_by volume.old.log pid) }
        requires all { self.old.count ≤ length bytes.now }
        requires ready { MayWrite D.image volume.old pid self.old }
        requires at { self.old.at ≡ write_at.Block block (Some slot) }
        ensures { WritesNext D.Disk volume.old pid self.old block slot bytes.now result
            self.new volume.new }
    {
        let next = self.offset + self.done;
        let at = next % BLOCK_SIZE as u32;
        let count = (BLOCK_SIZE as u32 - at).min(self.count - self.done);
        let from = self.done as usize;
        put_block(
            volume,
            pid,
            slot,
            at as usize,
            &bytes[from..from + count as usize],
        );
        self.done += count;
        self.inode.size = self.inode.size.max(next + count);
        self.at = next_place(
            self.number,
            &self.inode,
            next + count,
            self.count - self.done,
            self.extent,
        );
        Progress::Moved
    }

    // Makes the next step of writing the inode back.
    fn update<D: Disk>(
        &mut self,
        volume: &mut Volume<D>,
        pid: u32,
        mut update: Iupdate,
    ) -> Progress<()>
        requires fault { volume.old.fault ≡ None }
        requires pid { pid < 32 }
        requires room { HasRoom (used_by volume.old.log pid) }
        requires ready { MayWrite D.image volume.old pid self.old }
        requires at { self.old.at ≡ write_at.Updating update }
        ensures { UpdatesCopy D.Disk volume.old pid self.old update result self.new volume.new }
    {
        let progress = update.step(volume, pid, &self.inode);
        self.at = WriteAt::Updating(update);
        progress
    }
}

// What comes next, where so many bytes are left to be written from a place in the file on.
fn next_place(number: u32, inode: &Dinode, next: u32, left: u32, extent: Extent) -> WriteAt
    requires addrs { length inode.now.addrs ≡ 13 }
    requires fits { next + left ≤ greatest_size extent.form }
    ensures { result ≡ next_place number inode.now next left extent }
{
    if left == 0 {
        return WriteAt::Updating(Iupdate::new(number));
    }
    let k = next / BLOCK_SIZE as u32;
    place_of_mapped(map_for_writing(inode, extent.form, k, extent.bitmap, extent.size))
}

// Where a block is found.
fn place_of_mapped(mapped: MappedForWriting) -> WriteAt
    ensures { result ≡ place_of_mapped mapped }
{
    match mapped {
        MappedForWriting::At(block) => WriteAt::Block { block, slot: None },
        MappedForWriting::Behind(way) => WriteAt::Mapping(way),
    }
}
