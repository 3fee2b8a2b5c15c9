// Addresses that are moved: one, those of a block of inodes, and those of a block of addresses.
ghost use Rattle.std.specs.Prelude.{◌≡◌, ◌≤◌, IfOk, length, map};
ghost use Rattle.model.specs.Format.{log_blocks};
ghost use Rattle.conversion.specs.Moving.{is_moved_mark, moved, moved_inode, moved_inodes, moved_marks, moved_words, source_in};

use crate::geometry::meta_with;
use crate::plan::Plan;
use blocks::{Block, NoMemory};
use layout::bitmap::{bit, set_bit};
use layout::entries::{read_all, set_entry};
use layout::{ADDRESSES_PER_BLOCK, INODES_PER_BLOCK, inode};
use model::types::Dinode;
use std::alloc::Global;

// An address behind a log of `from` blocks, where the log has `to` blocks; 0 for 0.
fn moved(from: u32, to: u32, address: u32) -> u32
    ensures { result ≡ moved from to address }
{
    if address == 0 {
        return 0;
    }
    address.saturating_add(to).saturating_sub(from)
}

// The addresses of an inode, moved.
fn moved_addresses(from: u32, to: u32, addresses: &[u32; 13]) -> [u32; 13]
    requires { length addresses.now ≡ 13 }
    ensures value { result ≡ map (moved from to) addresses.now }
    ensures len { length result ≡ 13 }
{
    let mut all = [0u32; 13];
    for k in 0..13usize {
        all[k] = moved(from, to, addresses[k]);
    }
    all
}

// An inode with its addresses moved.
fn moved_inode(from: u32, to: u32, inode: &Dinode) -> Dinode
    requires { length inode.now.addrs ≡ 13 }
    ensures value { result ≡ moved_inode from to inode.now }
    ensures len { length result.addrs ≡ 13 }
{
    Dinode {
        kind: inode.kind,
        major: inode.major,
        minor: inode.minor,
        nlink: inode.nlink,
        size: inode.size,
        addrs: moved_addresses(from, to, &inode.addrs),
    }
}

/// Moves the addresses of the 16 inodes in a block.
pub(crate) fn move_inodes(from: u32, to: u32, block: &mut Block)
    ensures { block.new ≡ moved_inodes from to block.old }
{
    let _bytes = block.as_slice();
    for k in 0..INODES_PER_BLOCK {
        let inode = inode::read_at(block, k);
        inode::write_at(block, k, &moved_inode(from, to, &inode));
    }
}

/// Moves the 256 addresses in a block of addresses.
pub(crate) fn move_entries(from: u32, to: u32, block: &mut Block)
    ensures { block.new ≡ moved_words from to block.old }
{
    let _bytes = block.as_slice();
    let addresses = read_all(block);
    for e in 0..ADDRESSES_PER_BLOCK {
        set_entry(block, e as u32, moved(from, to, addresses[e]));
    }
}

// Whether the new bitmap has a block, by the old bitmap.
fn is_moved_mark(plan: &Plan, bitmap: &Block, b: u32) -> bool
    requires size { plan.now.sup.size ≤ 8191 }
    requires to { plan.now.to ≤ log_blocks }
    requires from { plan.now.sup.nlog ≤ log_blocks }
    requires small { b ≤ 8191 }
    ensures { result ≡ is_moved_mark plan.now.sup bitmap.now plan.now.to plan.now.size b }
{
    if b < meta_with(plan.to, plan.size, plan.sup.ninodes) {
        return true;
    }
    let source = (b + plan.sup.nlog).saturating_sub(plan.to);
    source < plan.sup.size && bit(bitmap, source)
}

/// The new bitmap, by the old one.
pub(crate) fn moved_marks(alloc: Global, plan: &Plan, bitmap: &Block) -> Result<Block, NoMemory>
    requires small { plan.now.sup.size ≤ 8191 }
    requires most { plan.now.size ≤ 8191 }
    requires to { plan.now.to ≤ log_blocks }
    requires from { plan.now.sup.nlog ≤ log_blocks }
    ensures { IfOk result (λ block. block
        ≡ moved_marks plan.now.sup bitmap.now plan.now.to plan.now.size) }
{
    let mut marks = Block::zeroed(alloc)?;
    for b in 0..plan.size {
        if is_moved_mark(plan, bitmap, b) {
            set_bit(&mut marks, b);
        }
    }
    Ok(marks)
}
