// Whether the files of the old image fit in the new one.
ghost use Rattle.std.specs.Prelude.{◌≡◌, ◌≤◌, ◌<◌, ◌+◌, ◌^◌, length, IfOk, IfErr, OnOk};
ghost use Rattle.blocks.specs.Calls.{OnlyReads};
ghost use Rattle.blocks.specs.Disk.{CountsFault, Rose};
ghost use Rattle.model.specs.Files.{file_in};
ghost use Rattle.model.specs.Layout.{inode_of};
ghost use Rattle.model.specs.Log.{recovered};
ghost use Rattle.transfer.specs.Fitting.{FindsUnfit, IsWhyShort, blocks_of};
ghost use Rattle.transfer.specs.Source.{IsSourceOf, chosen_files};

use crate::fault::CopyFault;
use crate::needs::needed_blocks;
use crate::source::Source;
use blocks::{Block, Disk, DiskFault};
use std::alloc::Global;

/// What is told where no block was free for all bytes of file i, in an image of so many blocks for
/// data: the first file that doesn't fit, or, where all do, that blocks were lost.
pub(crate) fn why_short<D: Disk>(
    alloc: Global,
    old: &mut D,
    source: &Source,
    room: u32,
    i: u32,
) -> CopyFault
    requires source { IsSourceOf (D.image old.old) source.now }
    requires few { room ≤ 2 ^ 13 }
    ensures why { IsWhyShort room source.now.form (recovered (D.image old.old))
        (chosen_files (recovered (D.image old.old)) source.now.kinds.items) i
        (D.fault_count old.old) (D.fault_count old.new) result }
    ensures reads { OnlyReads D.Disk old.old old.new }
{
    let Ok(mut block) = Block::zeroed(alloc) else {
        return CopyFault::NoMemory;
    };
    match first_unfit(old, source, room, &mut block) {
        Ok(Some(number)) => CopyFault::Full(number),
        Ok(None) => CopyFault::Leaked(i),
        Err(_failed) => CopyFault::Disk,
    }
}

// The first number whose file doesn't fit behind those before it, by the sizes in the old image. The
// block is room for its inodes: what it holds afterwards is not said.
#[tactic(auto, using(blocks::specs::Lemmas::Reads::reads_then))]
fn first_unfit<D: Disk>(
    old: &mut D,
    source: &Source,
    room: u32,
    block: &mut Block,
) -> Result<Option<u32>, DiskFault>
    requires source { IsSourceOf (D.image old.old) source.now }
    requires few { room ≤ 2 ^ 13 }
    ensures found { IfOk result (FindsUnfit room source.now.form (recovered (D.image old.old))
        (chosen_files (recovered (D.image old.old)) source.now.kinds.items)) }
    ensures refused { IfErr result (λ _. Rose (D.fault_count old.old) (D.fault_count old.new)) }
    ensures reads { OnlyReads D.Disk old.old old.new }
    ensures faults { OnOk result (D.fault_count old.new ≡ D.fault_count old.old) }
{
    let mut needed: u32 = 0;
    for k in 0..source.kinds.len() {
        needed += blocks_at(old, source, k, block)?;
        if needed > room {
            return Ok(Some(k as u32 + 1));
        }
    }
    Ok(None)
}

// How many blocks the file of number k + 1 needs in the new image, if it is copied.
fn blocks_at<D: Disk>(
    old: &mut D,
    source: &Source,
    k: usize,
    block: &mut Block,
) -> Result<u32, DiskFault>
    requires source { IsSourceOf (D.image old.old) source.now }
    requires k { k < length source.now.kinds.items }
    ensures count { IfOk result (λ count. count
        ≡ blocks_of source.now.form (inode_of (recovered (D.image old.old)) (k + 1)).size
        (file_in (chosen_files (recovered (D.image old.old)) source.now.kinds.items) (k + 1))) }
    ensures few { IfOk result (λ count. count ≤ 2 ^ 23) }
    ensures reads { OnlyReads D.Disk old.old old.new }
    ensures faults { CountsFault result (D.fault_count old.old) (D.fault_count old.new) }
{
    if source.kinds[k] == 0 {
        return Ok(0);
    }
    let inode = source.image.inode(old, k as u32 + 1, block)?;
    Ok(needed_blocks(source.form, inode.size))
}
