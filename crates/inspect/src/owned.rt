// The blocks that files own, gathered inode by inode.
ghost use Rattle.std.specs.Prelude.{◌≡◌, ◌≤◌, ◌++◌, IfOk, OnOk, length};
ghost use Rattle.blocks.specs.Calls.{OnlyReads};
ghost use Rattle.model.specs.Log.{recovered};
ghost use Rattle.model.specs.Names.{names_of, names_under};
ghost use Rattle.offline.specs.Recovered.{IsRecoveredOf};
ghost use Rattle.offline.specs.Checked.{IsCheckedOf};
ghost use Rattle.inspect.specs.Gathering.{KeepsCount, LieBehindLog};
ghost use Rattle.inspect.specs.Owned.{owned_by_all, owned_in, owned_under};

use crate::fault::GatherFault;
use blocks::{Block, Disk};
use layout::entries::read_all;
use layout::{ADDRESSES_PER_BLOCK, Dinode, depths};
use offline::Recovered;
use std::alloc::Global;

/// A block that a file owns.
#[derive(Clone, Copy)]
pub struct Owned {
    /// The number of the file.
    pub file: u32,
    /// The number of the block.
    pub block: u32,
    /// How many blocks of addresses one goes through from it to the data: 0 from a data block, 1
    /// from a block of addresses, 2 from a block of blocks of addresses.
    pub depth: u32,
}

// Adds the block of an address, if there is one, and then those under its entries. `entries` is
// room for blocks of addresses.
fn add_under<D: Disk>(
    disk: &mut D,
    image: &Recovered,
    entries: &mut Block,
    owned: &mut Vec<Owned>,
    top: Owned,
) -> Result<(), GatherFault>
    requires recovered { IsRecoveredOf (D.image disk.old) image.now }
    requires shallow { top.depth ≤ 2 }
    requires behind { LieBehindLog (recovered (D.image disk.old))
        (names_under (recovered (D.image disk.old)) top.depth top.block) }
    ensures added { OnOk result (owned.new.items ≡ owned.old.items
        ++ owned_under (recovered (D.image disk.old)) top.file top.depth top.block) }
    ensures reads { OnlyReads D.Disk disk.old disk.new }
    ensures faults { KeepsCount result (D.fault_count disk.old) (D.fault_count disk.new) }
{
    if top.block == 0 {
        return Ok(());
    }
    owned.push(top)?;
    if top.depth == 0 {
        return Ok(());
    }
    image.block(disk, top.block, entries)?;
    let addresses = read_all(entries);
    let file = top.file;
    let depth = top.depth - 1;
    for k in 0..ADDRESSES_PER_BLOCK {
        let block = addresses[k];
        add_under(disk, image, entries, owned, Owned { file, block, depth })?;
    }
    Ok(())
}

// Adds the blocks that the inode of a number owns, in the order of its places; none where it is
// free. `entries` is room for blocks of addresses.
pub fn add_owned<D: Disk>(
    disk: &mut D,
    image: &Recovered,
    entries: &mut Block,
    owned: &mut Vec<Owned>,
    file: u32,
    inode: &Dinode,
) -> Result<(), GatherFault>
    requires checked { IsCheckedOf (D.image disk.old) image.now }
    requires addresses { length inode.now.addrs ≡ 13 }
    requires behind { LieBehindLog (recovered (D.image disk.old))
        (names_of (recovered (D.image disk.old)) inode.now) }
    ensures added { OnOk result (owned.new.items ≡ owned.old.items
        ++ owned_in (recovered (D.image disk.old)) file inode.now) }
    ensures reads { OnlyReads D.Disk disk.old disk.new }
    ensures faults { KeepsCount result (D.fault_count disk.old) (D.fault_count disk.new) }
{
    if inode.kind == 0 {
        return Ok(());
    }
    let depths = depths(image.form);
    for k in 0..depths.len() {
        let block = inode.addrs[k];
        let depth = depths[k];
        add_under(disk, image, entries, owned, Owned { file, block, depth })?;
    }
    Ok(())
}

/// The blocks that files own, file by file.
///
/// # Errors
///
/// `Disk` where a read failed; `NoMemory` where memory was refused.
#[tactic(auto, using(blocks::specs::Lemmas::Reads::reads_none, blocks::specs::Lemmas::Reads::reads_then))]
pub fn owned_by_all<D: Disk>(
    alloc: Global,
    disk: &mut D,
    image: &Recovered,
) -> Result<Vec<Owned>, GatherFault>
    requires checked { IsCheckedOf (D.image disk.old) image.now }
    ensures all { IfOk result
        (λ owned. owned.items ≡ owned_by_all (recovered (D.image disk.old))) }
    ensures reads { OnlyReads D.Disk disk.old disk.new }
    ensures faults { KeepsCount result (D.fault_count disk.old) (D.fault_count disk.new) }
{
    let mut block = Block::zeroed(alloc)?;
    let mut entries = Block::zeroed(alloc)?;
    let mut owned = Vec::new(alloc);
    for i in 1..image.sup.ninodes {
        let inode = image.inode(disk, i, &mut block)?;
        add_owned(disk, image, &mut entries, &mut owned, i, &inode)?;
    }
    Ok(owned)
}
