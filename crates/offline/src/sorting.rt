// The numbers of an image, by whether their files are whole.
ghost use Rattle.std.specs.Prelude.{◌≡◌, ◌≤◌, ◌<◌, ◌+◌, [], length, OnOk, IfOk};
ghost use Rattle.blocks.specs.Calls.{OnlyReads};
ghost use Rattle.model.specs.Log.{recovered};
ghost use Rattle.model.specs.Places.{numbers_of, places_of};
ghost use Rattle.model.specs.Verdict.{places_below};
ghost use Rattle.offline.specs.Cause.{GoesThrough};
ghost use Rattle.offline.specs.Check.{IsGround};
ghost use Rattle.offline.specs.Clean.{Counts, Joins, Sorts, is_clean, is_clean_inode};
ghost use Rattle.offline.specs.Recovered.{IsRecoveredOf};

use crate::all_faults::early_fault;
use crate::pointers::read_pointers;
use crate::recovered::Recovered;
use crate::table::Table;
use blocks::{Block, Disk, NoMemory};
use layout::meta_count;
use model::types::{CheckFault, Dinode};
use std::alloc::Global;

/// The numbers of an image. One is clean where it is used, has a type and a size that there are, and
/// each of its pointers is lawful, with a block, if any, whose bit is set and that is at no other place.
#[derive(Drop)]
pub struct Sorted {
    /// The types of the numbers from 1 on; 0 for one that is free, or used and not clean.
    pub kinds: Vec<u16>,
    /// The clean numbers, in order.
    pub clean: Vec<u32>,
    /// Those that are used and not clean, in order.
    pub left: Vec<u32>,
}

// Adds a number of that type to the others.
fn join(sorted: &mut Sorted, i: u32, kind: u16, is_clean: bool) -> Result<(), NoMemory>
    ensures { OnOk result (Joins i kind is_clean sorted.old sorted.new) }
{
    if is_clean {
        sorted.kinds.push(kind)?;
        sorted.clean.push(i)?;
        return Ok(());
    }
    sorted.kinds.push(0)?;
    if kind != 0 {
        sorted.left.push(i)?;
    }
    Ok(())
}

// Counts the places of inode i.
fn count_inode<D: Disk>(
    alloc: Global,
    disk: &mut D,
    image: &Recovered,
    table: &mut Table,
    block: &mut Block,
    i: u32,
) -> Result<(), CheckFault>
    requires recovered { IsRecoveredOf (D.image disk.old) image.now }
    requires some { 1 ≤ i }
    requires number { i < image.now.sup.ninodes }
    requires counts { Counts table.old (recovered (D.image disk.old))
        (places_below (recovered (D.image disk.old)) i) }
    ensures reads { OnlyReads D.Disk disk.old disk.new }
    ensures faults { GoesThrough result (D.fault_count disk.old) (D.fault_count disk.new) }
    ensures counted { OnOk result (Counts table.new (recovered (D.image disk.old))
        (places_below (recovered (D.image disk.old)) (i + 1))) }
{
    let inode = image.inode(disk, i, block)?;
    let pointers = read_pointers(alloc, disk, image, block, i, &inode)?;
    table.count_all(pointers.as_slice());
    Ok(())
}

// Counts the places of all inodes.
fn count_inodes<D: Disk>(
    alloc: Global,
    disk: &mut D,
    image: &Recovered,
    table: &mut Table,
    block: &mut Block,
) -> Result<(), CheckFault>
    requires recovered { IsRecoveredOf (D.image disk.old) image.now }
    requires counts { Counts table.old (recovered (D.image disk.old)) [] }
    ensures reads { OnlyReads D.Disk disk.old disk.new }
    ensures faults { GoesThrough result (D.fault_count disk.old) (D.fault_count disk.new) }
    ensures counted { OnOk result (Counts table.new (recovered (D.image disk.old))
        (places_of (recovered (D.image disk.old)))) }
{
    for i in 1..image.sup.ninodes {
        count_inode(alloc, disk, image, table, block, i)?;
    }
    Ok(())
}

// Whether inode i is clean, once all places are counted.
fn is_clean<D: Disk>(
    alloc: Global,
    disk: &mut D,
    image: &Recovered,
    table: &Table,
    block: &mut Block,
    i: u32,
    inode: &Dinode,
) -> Result<bool, CheckFault>
    requires recovered { IsRecoveredOf (D.image disk.old) image.now }
    requires addresses { length inode.now.addrs ≡ 13 }
    requires counts { Counts table.now (recovered (D.image disk.old))
        (places_of (recovered (D.image disk.old))) }
    ensures reads { OnlyReads D.Disk disk.old disk.new }
    ensures faults { GoesThrough result (D.fault_count disk.old) (D.fault_count disk.new) }
    ensures clean { IfOk result (λ clean. clean
        ≡ is_clean_inode (recovered (D.image disk.old)) i inode.now) }
{
    if inode.kind == 0 {
        return Ok(false);
    }
    if early_fault(i, inode, image.form).is_some() {
        return Ok(false);
    }
    let pointers = read_pointers(alloc, disk, image, block, i, inode)?;
    Ok(table.are_clean(pointers.as_slice()))
}

// Sorts all numbers.
fn sort_inodes<D: Disk>(
    alloc: Global,
    disk: &mut D,
    image: &Recovered,
    table: &Table,
    block: &mut Block,
    sorted: &mut Sorted,
) -> Result<(), CheckFault>
    requires recovered { IsRecoveredOf (D.image disk.old) image.now }
    requires counts { Counts table.now (recovered (D.image disk.old))
        (places_of (recovered (D.image disk.old))) }
    requires none { Sorts (recovered (D.image disk.old)) [] sorted.old }
    ensures reads { OnlyReads D.Disk disk.old disk.new }
    ensures faults { GoesThrough result (D.fault_count disk.old) (D.fault_count disk.new) }
    ensures sorted { OnOk result (Sorts (recovered (D.image disk.old))
        (numbers_of (recovered (D.image disk.old))) sorted.new) }
{
    for i in 1..image.sup.ninodes {
        let inode = image.inode(disk, i, block)?;
        let is_clean = is_clean(alloc, disk, image, table, block, i, &inode)?;
        join(sorted, i, inode.kind, is_clean)?;
    }
    Ok(())
}

// The table of an image's blocks, none of them at a place yet.
fn new_table<D: Disk>(alloc: Global, disk: &mut D, image: &Recovered) -> Result<Table, CheckFault>
    requires ground { IsGround (D.image disk.old) image.now.sup image.now.form }
    requires recovered { IsRecoveredOf (D.image disk.old) image.now }
    ensures counts { IfOk result (λ table. Counts table (recovered (D.image disk.old)) []) }
    ensures reads { OnlyReads D.Disk disk.old disk.new }
    ensures faults { GoesThrough result (D.fault_count disk.old) (D.fault_count disk.new) }
{
    let mut bitmap = Block::zeroed(alloc)?;
    let sup = &image.sup;
    image.block(disk, sup.bmapstart, &mut bitmap)?;
    let first_data = meta_count(sup.size, sup.ninodes);
    Ok(Table::new(alloc, first_data, sup.size, bitmap)?)
}

/// Sorts the numbers of a disk's image as recovery would leave it. It writes nothing. The block is room
/// for those that are read: what it holds afterwards is not said.
///
/// # Errors
///
/// `Disk` where a read failed, and `NoMemory` where memory was refused: it needs one byte for each block
/// of the image, a block, and room for the pointers of one inode.
pub fn sort_numbers<D: Disk>(
    alloc: Global,
    disk: &mut D,
    image: &Recovered,
    block: &mut Block,
) -> Result<Sorted, CheckFault>
    requires recovered { IsRecoveredOf (D.image disk.old) image.now }
    ensures sorted { IfOk result (Sorts (recovered (D.image disk.old))
        (numbers_of (recovered (D.image disk.old)))) }

    // nothing is written
    ensures reads { OnlyReads D.Disk disk.old disk.new }
    ensures faults { GoesThrough result (D.fault_count disk.old) (D.fault_count disk.new) }
{
    let mut table = new_table(alloc, disk, image)?;
    count_inodes(alloc, disk, image, &mut table, block)?;
    let mut sorted = Sorted {
        kinds: Vec::new(alloc),
        clean: Vec::new(alloc),
        left: Vec::new(alloc),
    };
    sort_inodes(alloc, disk, image, &table, block, &mut sorted)?;
    Ok(sorted)
}
