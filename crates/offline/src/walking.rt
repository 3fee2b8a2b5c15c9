// A walk over the pointers of an inode: its addresses, and where these name blocks of addresses, those
// that their entries name, and so on. Under an address outside the image there is nothing more, as in
// the definition of the pointers.
ghost use Rattle.std.specs.Prelude.{◌≡◌, ◌≤◌, ◌<◌, ◌+◌, ◌*◌, ◌^◌, ◌∷◌, ◌++◌, [], ℕ, List, Result, Ok, Err, length};
ghost use Rattle.blocks.specs.Calls.{OnlyReads};
ghost use Rattle.model.specs.Format.{addresses_per_block};
ghost use Rattle.model.specs.Layout.{depths};
ghost use Rattle.model.specs.Log.{recovered};
ghost use Rattle.model.specs.Places.{pointers_along, pointers_under};
ghost use Rattle.model.specs.declared.types.fault.CheckFault.{CheckFault as SomeCheckFault};
ghost use Rattle.model.specs.declared.types.image.Pointer.{Pointer as SomePointer};
ghost use Rattle.offline.specs.Recovered.{IsRecoveredOf};
ghost use Rattle.offline.specs.Taking.{TakesAll};

use crate::owners::pointer;
use crate::recovered::Recovered;
use blocks::{Block, Disk};
use layout::{ADDRESSES_PER_BLOCK, depths, entries, reach};
use model::types::{CheckFault, Dinode, Pointer};

// What takes the pointers of inodes, one after the other.
pub(crate) trait TakesPointers {
    // What it makes of these pointers of the inode of that number: how it is then, and its answer.
    ghost takes: { Self → ℕ → List SomePointer → Self → Result (Unit {0}) SomeCheckFault → Type 0 };

    // Takes a pointer of inode i.
    fn take(&mut self, i: u32, pointer: Pointer) -> Result<(), CheckFault>
        ensures { takes self.old i (pointer ∷ []) self.new result };

    // It may take none.
    ghost takes_none: { (a : Self) (i : ℕ) → takes a i [] a (Ok tt) };

    // What it takes behind others it takes with them.
    ghost takes_more: { (a b c : Self) (i : ℕ) (front back : List SomePointer)
        (answer : Result (Unit {0}) SomeCheckFault) → takes a i front b (Ok tt)
        → takes b i back c answer → takes a i (front ++ back) c answer };

    // What it refuses it refuses whatever comes behind.
    ghost refuses_early: { (a b : Self) (i : ℕ) (front back : List SomePointer)
        (fault : SomeCheckFault) → takes a i front b (Err fault)
        → takes a i (front ++ back) b (Err fault) };
}

// An address of an inode or of a block of addresses.
#[derive(Clone, Copy)]
struct Branch {
    address: u32,
    // How many blocks of addresses one goes through from it to the data.
    depth: u32,
    // The first of the file's blocks that it leads to.
    first: u32,
}

// Takes the pointers under an address of a file of `size` bytes: its own, and then those under the
// entries of the block that it names.
fn take_under<D: Disk, T: TakesPointers>(
    disk: &mut D,
    image: &Recovered,
    block: &mut Block,
    taker: &mut T,
    i: u32,
    size: u32,
    branch: Branch,
) -> Result<(), CheckFault>
    requires recovered { IsRecoveredOf (D.image disk.old) image.now }
    requires shallow { branch.depth ≤ 2 }
    requires early { branch.first + branch.depth * addresses_per_block ^ 2 < 2 ^ 22 }
    ensures reads { OnlyReads D.Disk disk.old disk.new }
    ensures taken { TakesAll T.takes i (pointers_under (recovered (D.image disk.old))
        size branch.depth branch.first branch.address)
        (D.fault_count disk.old) (D.fault_count disk.new) taker.old taker.new result }
{
    taker.take(i, pointer(size, branch.first, branch.address))?;
    if branch.depth == 0 || branch.address == 0 || branch.address >= disk.size() {
        return Ok(());
    }
    image.any_block(disk, branch.address, block)?;
    let addresses = entries::read_all(block);
    let depth = branch.depth - 1;
    let step = reach(depth);
    let mut first = branch.first;
    for k in 0..ADDRESSES_PER_BLOCK {
        let entry = Branch {
            address: addresses[k],
            depth,
            first,
        };
        take_under(disk, image, block, taker, i, size, entry)?;
        first += step;
    }
    Ok(())
}

// Takes the pointers of a used inode, in order. The block is room for those of addresses: what it holds
// afterwards is not said.
pub(crate) fn take_pointers<D: Disk, T: TakesPointers>(
    disk: &mut D,
    image: &Recovered,
    block: &mut Block,
    taker: &mut T,
    i: u32,
    inode: &Dinode,
) -> Result<(), CheckFault>
    requires recovered { IsRecoveredOf (D.image disk.old) image.now }
    requires addresses { length inode.now.addrs ≡ 13 }
    ensures reads { OnlyReads D.Disk disk.old disk.new }
    ensures taken { TakesAll T.takes i (pointers_along (recovered (D.image disk.old))
        inode.now.size 0 (depths image.now.form) inode.now.addrs)
        (D.fault_count disk.old) (D.fault_count disk.new) taker.old taker.new result }
{
    let depths = depths(image.form);
    let mut first = 0;
    for k in 0..depths.len() {
        let depth = depths[k];
        let branch = Branch {
            address: inode.addrs[k],
            depth,
            first,
        };
        take_under(disk, image, block, taker, i, inode.size, branch)?;
        first += reach(depth);
    }
    Ok(())
}
