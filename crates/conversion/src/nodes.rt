// Which blocks of an older image are blocks of addresses.
ghost use Rattle.std.specs.Prelude.{◌≡◌, ◌<◌, IfErr, IfOk, OnOk, [], false, length, replicate};
ghost use Rattle.blocks.specs.Calls.{OnlyReads};
ghost use Rattle.blocks.specs.Disk.{CountsFault, Rose};
ghost use Rattle.model.specs.Places.{numbers_of};
ghost use Rattle.conversion.specs.Older.{older_inode};
ghost use Rattle.conversion.specs.Prepared.{AreNoted, IsPlanned, NotesNode};

use crate::plan::Plan;
use blocks::{Block, Disk, DiskFault, NoMemory};
use layout::{DIRECT_COUNT, INODES_PER_BLOCK, inode};
use model::types::Dinode;
use std::alloc::Global;

// The inode of a number of an older image. The block is room for its block.
#[tactic(auto, unfolding(crate::specs::Older::older_inode))]
fn read_inode<D: Disk>(
    old: &mut D,
    plan: &Plan,
    i: u32,
    block: &mut Block,
) -> Result<Dinode, DiskFault>
    requires planned { IsPlanned (D.image old.old) plan.now }
    requires number { i < plan.now.sup.ninodes }
    ensures inode { IfOk result (λ inode. inode ≡ older_inode (D.image old.old) i) }
    ensures len { IfOk result (λ inode. length inode.addrs ≡ 13) }
    ensures fault { IfErr result (λ fault. fault.0 < length (D.image old.old)) }
    ensures reads { OnlyReads D.Disk old.old old.new }
    ensures faults { CountsFault result (D.fault_count old.old) (D.fault_count old.new) }
{
    old.read(plan.sup.inodestart + i / INODES_PER_BLOCK, block)?;
    Ok(inode::read_at(block, i))
}

// Notes the block of addresses of an inode, if it has one.
fn note_node(inode: &Dinode, nodes: &mut [bool])
    requires { length inode.now.addrs ≡ 13 }
    ensures { NotesNode inode.now nodes.old nodes.new }
{
    let address = inode.addrs[DIRECT_COUNT] as usize;
    if inode.kind != 0 && address < nodes.len() {
        nodes[address] = true;
    }
}

/// A table of so many blocks, none of which is noted.
pub(crate) fn new_nodes(alloc: Global, size: u32) -> Result<Vec<bool>, NoMemory>
    ensures { IfOk result (λ nodes. nodes.items ≡ replicate size false) }
{
    Ok(vec![in alloc; false; size as usize]?)
}

/// Notes the blocks of addresses of all inodes in a table that has none of them. The block is room for
/// one.
pub(crate) fn note_nodes<D: Disk>(
    old: &mut D,
    plan: &Plan,
    nodes: &mut [bool],
    block: &mut Block,
) -> Result<(), DiskFault>
    requires planned { IsPlanned (D.image old.old) plan.now }
    requires none { AreNoted (D.image old.old) [] nodes.old }
    ensures noted { OnOk result
        (AreNoted (D.image old.old) (numbers_of (D.image old.old)) nodes.new) }
    ensures fault { IfErr result (λ fault. fault.0 < length (D.image old.old)) }
    ensures reads { OnlyReads D.Disk old.old old.new }
    ensures faults { CountsFault result (D.fault_count old.old) (D.fault_count old.new) }
{
    for i in 1..plan.sup.ninodes {
        let inode = read_inode(old, plan, i, block)?;
        note_node(&inode, nodes);
    }
    Ok(())
}
