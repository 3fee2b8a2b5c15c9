// What a machine gets or uses next, on its way to a block of a file.
ghost use Rattle.std.specs.Prelude.{◌≡◌, ◌<◌, true, length, None};
ghost use Rattle.blockmap.specs.Branch.{block_limit};
ghost use Rattle.blockmap.specs.Deeds.{deed_of_target};
ghost use Rattle.blockmap.specs.Map.{address_or_zero};
ghost use Rattle.blockmap.specs.Target.{is_entry, target_for, IsSought, Seeks};

use crate::{Bmap, Mapped, Progress, map};
use blocks::Disk;
use model::types::{Dinode, Form};
use wal::{TaskDeed, Volume};

/// What a machine that works on a block of a file gets or uses next.
#[derive(Clone, Copy)]
pub enum Target {
    /// An entry of a block of addresses, below which the block stands.
    Entry(Bmap),
    /// The block itself.
    Block {
        /// Its number.
        block: u32,
        /// The slot that holds it, where it was got.
        slot: Option<u32>,
    },
}

impl Target {
    /// What the next step does with it.
    pub fn deed(&self) -> TaskDeed
        ensures { result ≡ deed_of_target self.now }
    {
        match self {
            Target::Entry(entry) => entry.deed(),
            Target::Block { block, slot } => TaskDeed::with_block(*block, *slot),
        }
    }
}

/// What leads to block `k` of an inode's file in an image of that form.
pub fn target_for(inode: &Dinode, form: Form, k: u32) -> Target
    requires addrs { length inode.now.addrs ≡ 13 }
    requires within { k < block_limit form }
    ensures { result ≡ target_for form inode.now k }
{
    match map(inode, form, k) {
        Mapped::At(found) => Target::Block {
            block: address_or_zero(found),
            slot: None,
        },
        Mapped::Behind(entry) => Target::Entry(entry),
    }
}

/// Makes the next step of a machine to its target's block, which it has not got: it reads the entry
/// that names the block, or gets the block.
pub fn seek<D: Disk>(volume: &mut Volume<D>, pid: u32, target: &mut Target) -> Progress<()>
    requires fault { volume.old.fault ≡ None }
    requires sought { IsSought D.image volume.old pid target.old }
    ensures { Seeks D.Disk target.old volume.old pid result target.new volume.new }
{
    let Target::Block { block, .. } = *target else {
        return look_up(volume, pid, target);
    };
    let mut slot = None;
    let progress = volume.get(pid, block, &mut slot);
    *target = Target::Block { block, slot };
    progress
}

// Makes the next step of reading the entry that names the block.
fn look_up<D: Disk>(volume: &mut Volume<D>, pid: u32, target: &mut Target) -> Progress<()>
    requires fault { volume.old.fault ≡ None }
    requires entry { is_entry target.old ≡ true }
    requires sought { IsSought D.image volume.old pid target.old }
    ensures { Seeks D.Disk target.old volume.old pid result target.new volume.new }
{
    let mut entry = entry_of(*target);
    match entry.step(volume, pid).ended() {
        Ok(found) => {
            let block = address_or_zero(found);
            *target = Target::Block { block, slot: None };
            Progress::Moved
        }
        Err(progress) => {
            *target = Target::Entry(entry);
            progress
        }
    }
}

// The entry that names the block.
fn entry_of(target: Target) -> Bmap
    requires { is_entry target ≡ true }
    ensures { Target.Entry result ≡ target }
{
    match target {
        Target::Entry(entry) => entry,
        Target::Block { .. } => unreachable!(),
    }
}

// The block of an address, 0 for none.
fn address_or_zero(found: Option<u32>) -> u32
    ensures { result ≡ address_or_zero found }
{
    match found {
        Some(block) => block,
        None => 0,
    }
}
