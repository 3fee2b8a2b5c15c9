// The pointers of an inode, in a list.
ghost use Rattle.std.specs.Prelude.{◌≡◌, length, IfOk};
ghost use Rattle.blocks.specs.Calls.{OnlyReads};
ghost use Rattle.model.specs.Log.{recovered};
ghost use Rattle.model.specs.Places.{pointers_in};
ghost use Rattle.offline.specs.Cause.{GoesThrough};
ghost use Rattle.offline.specs.Lemmas.Taking.{lists_more, lists_none};
ghost use Rattle.offline.specs.Recovered.{IsRecoveredOf};
ghost use Rattle.offline.specs.Taking.{Lists};

use crate::recovered::Recovered;
use crate::walking::{TakesPointers, take_pointers};
use blocks::{Block, Disk};
use model::types::{CheckFault, Dinode, Pointer};
use std::alloc::Global;

impl TakesPointers for Vec<Pointer> {
    ghost takes = { λ old i pointers new answer. Lists old.items pointers new.items answer };

    fn take(&mut self, _i: u32, pointer: Pointer) -> Result<(), CheckFault> {
        match self.push(pointer) {
            Ok(()) => Ok(()),
            Err(_refused) => Err(CheckFault::NoMemory),
        }
    }

    ghost takes_none = { λ a i. lists_none a.items };

    ghost takes_more = { λ a b c i. lists_more a.items b.items c.items };

    ghost refuses_early = { λ a b i front back fault refused. refused };
}

// The pointers of inode i, in order; none where it is free. The block is room for those of addresses:
// what it holds afterwards is not said.
pub fn read_pointers<D: Disk>(
    alloc: Global,
    disk: &mut D,
    image: &Recovered,
    block: &mut Block,
    i: u32,
    inode: &Dinode,
) -> Result<Vec<Pointer>, CheckFault>
    requires recovered { IsRecoveredOf (D.image disk.old) image.now }
    requires addresses { length inode.now.addrs ≡ 13 }
    ensures reads { OnlyReads D.Disk disk.old disk.new }
    ensures counts { GoesThrough result (D.fault_count disk.old) (D.fault_count disk.new) }
    ensures pointers { IfOk result (λ list. list.items
        ≡ pointers_in (recovered (D.image disk.old)) inode.now) }
{
    let mut list = Vec::new(alloc);
    if inode.kind == 0 {
        return Ok(list);
    }
    take_pointers(disk, image, block, &mut list, i, inode)?;
    Ok(list)
}
