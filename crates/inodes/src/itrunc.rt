// The blocks of a file are freed.
ghost use Rattle.std.specs.Prelude.{◌≡◌, ◌<◌, ◌≤◌, length, IsSome, Some};
ghost use Rattle.model.specs.Format.{addresses_per_block};
ghost use Rattle.model.specs.Fields.{words_of};
ghost use Rattle.inodes.specs.Itrunc.{address_left, after_trunc, at_address, at_block, at_branches, at_entries, block_in_hand, block_left, first_trunc, freed_by, inode_left, last_inode_of, leads_to_data, present_from, Fits, IsBelow};

use blocks::Block;
use layout::entries::entry;
use layout::{ADDRESSES_PER_BLOCK, depths, direct_count};
use model::types::{Dinode, Form};

/// Where the freeing of a file's blocks stands.
#[derive(Clone, Copy)]
pub enum TruncAt {
    /// The data block that the inode's address names is freed.
    Direct,
    /// This block of addresses is got next, and kept.
    Loading(u32),
    /// The data block is freed that the first entry names which wasn't given up.
    Entry,
    /// No entry is left, and the block of addresses is given back.
    Unloading,
    /// It is freed itself.
    Freeing,
    /// No block is left, and the inode is written back.
    Updating,
}

/// How far the freeing of a file's blocks has come (`itrunc`; the xv6 book, the chapter "File
/// system": "Code: Inodes"): the blocks of the inode's own addresses are freed first, then those
/// that a block of addresses names, then that block; under a doubly indirect block so is each
/// second block. An address that isn't there takes no step. At last the inode is written back;
/// where the file is removed, that is a free one.
#[derive(Clone, Copy)]
pub struct Itrunc {
    /// The inode's number.
    pub number: u32,
    /// The inode as it was read, without the addresses that were given up.
    pub inode: Dinode,
    /// The image's form.
    pub form: Form,
    /// The index of the inode's address whose block is freed, or those behind it, from 0 to 12.
    pub slot: usize,
    /// Where a second block is in hand, the doubly indirect block's entry that names it.
    pub upper: Option<u32>,
    /// Of the block of addresses in hand, so many of the first entries were given up.
    pub given_up: u32,
    /// Whether the file is removed.
    pub removes: bool,
    /// The bitmap's block.
    pub bitmap: u32,
    /// Where it stands.
    pub at: TruncAt,
}

impl Itrunc {
    /// Begins to free the blocks of a number's inode, over an image of that form with that block of
    /// the bitmap.
    pub fn new(number: u32, inode: &Dinode, form: Form, removes: bool, bitmap: u32) -> Itrunc
        requires { length inode.now.addrs ≡ 13 }
        ensures { result ≡ first_trunc number inode.now form removes bitmap }
    {
        let mut first = Itrunc {
            number,
            inode: *inode,
            form,
            slot: 0,
            upper: None,
            given_up: 0,
            removes,
            bitmap,
            at: TruncAt::Updating,
        };
        first.go_to_address(0);
        first
    }

    /// What is left of the inode, once it is written back; None where the file is removed.
    pub fn left(&self) -> Option<Dinode>
        ensures { result ≡ inode_left self.now }
    {
        if self.removes {
            None
        } else {
            Some(self.last_inode())
        }
    }

    // The inode that is written back: without bytes, and a free one where the file is removed.
    pub(crate) fn last_inode(&self) -> Dinode
        ensures { result ≡ last_inode_of self.now }
    {
        Dinode {
            kind: if self.removes { 0 } else { self.inode.kind },
            size: 0,
            ..self.inode
        }
    }

    // Goes on with the first of the inode's addresses from an index on that is there.
    #[tactic(auto, using(crate::proofs::Present::present_before))]
    fn go_to_address(&mut self, from: usize)
        requires addrs { length self.old.inode.addrs ≡ 13 }
        requires from { from ≤ 13 }
        ensures { self.new ≡ at_address self.old from }
    {
        self.upper = None;
        self.given_up = 0;
        match next_address(&self.inode, from) {
            Some(slot) if slot < direct_count(self.form) => {
                self.slot = slot;
                self.at = TruncAt::Direct;
            }
            Some(slot) => {
                self.slot = slot;
                self.at = TruncAt::Loading(self.inode.addrs[slot]);
            }
            None => self.at = TruncAt::Updating,
        }
    }

    // Gives up the inode's address, and goes on behind it.
    fn leave_address(&mut self)
        requires addrs { length self.old.inode.addrs ≡ 13 }
        requires slot { self.old.slot < 13 }
        ensures { self.new ≡ address_left self.old }
    {
        self.inode.addrs[self.slot] = 0;
        self.go_to_address(self.slot + 1);
    }

    // Goes on with the first entry from an index on that is there, where entries name data blocks.
    fn go_to_entry(&mut self, entries: &Block, from: u32)
        requires { from ≤ addresses_per_block }
        ensures { self.new ≡ at_entries self.old (words_of entries.now) from }
    {
        match next_entry(entries, from) {
            Some(index) => {
                self.given_up = index;
                self.at = TruncAt::Entry;
            }
            None => {
                self.given_up = ADDRESSES_PER_BLOCK as u32;
                self.at = TruncAt::Unloading;
            }
        }
    }

    // The same where entries name second blocks.
    #[tactic(auto, using(crate::proofs::Present::present_before))]
    fn go_to_branch(&mut self, entries: &Block, from: u32)
        requires { from ≤ addresses_per_block }
        ensures { self.new ≡ at_branches self.old (words_of entries.now) from }
    {
        self.upper = next_entry(entries, from);
        match self.upper {
            Some(index) => {
                self.given_up = 0;
                self.at = TruncAt::Loading(entry(entries, index));
            }
            None => {
                self.given_up = ADDRESSES_PER_BLOCK as u32;
                self.at = TruncAt::Unloading;
            }
        }
    }

    // Whether the entries of the block of addresses in hand name data blocks.
    fn leads_to_data(&self) -> bool
        requires { self.now.slot < 13 }
        ensures { result ≡ leads_to_data self.now }
    {
        self.upper.is_some() || depths(self.form)[self.slot] == 1
    }

    // The block of addresses in hand, which an entry of the block above it names, or the inode.
    fn block_in_hand(&self, above: &Block) -> u32
        requires addrs { length self.now.inode.addrs ≡ 13 }
        requires slot { self.now.slot < 13 }
        requires upper { IsBelow self.now.upper addresses_per_block }
        ensures { result ≡ block_in_hand self.now (words_of above.now) }
    {
        match self.upper {
            Some(index) => entry(above, index),
            None => self.inode.addrs[self.slot],
        }
    }

    // Gives it up, and goes on behind it.
    fn leave_block(&mut self, above: &Block)
        requires addrs { length self.old.inode.addrs ≡ 13 }
        requires slot { self.old.slot < 13 }
        requires upper { IsBelow self.old.upper addresses_per_block }
        ensures { self.new ≡ block_left self.old (words_of above.now) }
    {
        match self.upper {
            Some(index) => self.go_to_branch(above, index + 1),
            None => self.leave_address(),
        }
    }

    // Goes on behind a block of addresses, which was got.
    pub(crate) fn load(&mut self, block: &Block)
        requires { Fits self.old }
        ensures { self.new ≡ at_block self.old (words_of block.now) }
    {
        if self.leads_to_data() {
            self.go_to_entry(block, 0);
        } else {
            self.go_to_branch(block, 0);
        }
    }

    // Gives up the block that is freed next, and goes on behind it. The block of addresses that was
    // kept last names it, where the inode does not.
    pub(crate) fn give_up(&mut self, kept: &Block) -> u32
        requires fits { Fits self.old }
        requires frees { IsSome (freed_by self.old (words_of kept.now) self.old.at) }
        ensures freed { Some result ≡ freed_by self.old (words_of kept.now) self.old.at }
        ensures rest { self.new ≡ after_trunc self.old (words_of kept.now) self.old.at }
    {
        match self.at {
            TruncAt::Direct => {
                let freed = self.inode.addrs[self.slot];
                self.leave_address();
                freed
            }
            TruncAt::Entry => {
                let freed = entry(kept, self.given_up);
                self.go_to_entry(kept, self.given_up + 1);
                freed
            }
            TruncAt::Freeing => {
                let freed = self.block_in_hand(kept);
                self.leave_block(kept);
                freed
            }
            TruncAt::Loading(_) | TruncAt::Unloading | TruncAt::Updating => unreachable!(),
        }
    }
}

// The first of an inode's addresses from an index on that is there.
fn next_address(inode: &Dinode, from: usize) -> Option<usize>
    requires addrs { length inode.now.addrs ≡ 13 }
    requires from { from ≤ 13 }
    ensures { result ≡ present_from inode.now.addrs from 13 }
{
    (from..inode.addrs.len()).find(|index| inode.addrs[*index] != 0)
}

// The first entry of a block of addresses from an index on that is there.
fn next_entry(entries: &Block, from: u32) -> Option<u32>
    requires { from ≤ addresses_per_block }
    ensures { result ≡ present_from (words_of entries.now) from addresses_per_block }
{
    (from..ADDRESSES_PER_BLOCK as u32).find(|index| entry(entries, *index) != 0)
}
