// What is known of an older image when its blocks are moved.
ghost use Rattle.std.specs.Prelude.{◌≡◌, IfErr, IfOk, OnOk};
ghost use Rattle.blocks.specs.Calls.{OnlyReads};
ghost use Rattle.conversion.specs.Converted.{IsBreak};
ghost use Rattle.conversion.specs.Prepared.{IsPlanned, IsPrepared};

use crate::fault::ConversionFault;
use crate::moving::moved_marks;
use crate::nodes::{new_nodes, note_nodes};
use crate::plan::Plan;
use blocks::{Block, Disk};
use std::alloc::Global;

/// The plan, with the new bitmap and with which blocks are blocks of addresses.
#[derive(Drop)]
pub(crate) struct Prepared {
    pub(crate) plan: Plan,
    /// The new image's bitmap.
    pub(crate) marks: Block,
    /// For each block of the old image, whether it is the block of addresses of an inode.
    pub(crate) nodes: Vec<bool>,
}

/// Reads the bitmap and the inodes of an older image. The block is room for one.
pub(crate) fn prepare<D: Disk>(
    alloc: Global,
    old: &mut D,
    plan: Plan,
    block: &mut Block,
) -> Result<Prepared, ConversionFault>
    requires planned { IsPlanned (D.image old.old) plan }
    ensures prepared { IfOk result (λ prepared.
        IsPrepared (D.image old.old) prepared × (prepared.plan ≡ plan)) }
    ensures refused { IfErr result
        (IsBreak (D.image old.old) (D.fault_count old.old) (D.fault_count old.new)) }
    ensures reads { OnlyReads D.Disk old.old old.new }
    ensures faults { OnOk result (D.fault_count old.new ≡ D.fault_count old.old) }
{
    old.read(plan.sup.bmapstart, block)?;
    let marks = moved_marks(alloc, &plan, block)?;
    let mut nodes = new_nodes(alloc, plan.sup.size)?;
    note_nodes(old, &plan, &mut nodes, block)?;
    Ok(Prepared { plan, marks, nodes })
}
