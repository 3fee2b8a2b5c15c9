// One operation, in a transaction of its own.
ghost use Rattle.std.specs.Prelude.{◌+◌, ◌<◌, ◌^◌, IfErr, IfOk, OnOk};
ghost use Rattle.blocks.specs.Disk.{LeavesOnly};
ghost use Rattle.calls.specs.Calls.{KeepsCall, Makes, call_count, image_on};
ghost use Rattle.calls.specs.Pairing.{IsUnmade};
ghost use Rattle.calls.specs.Stepping.{IsReached};
ghost use Rattle.calls.specs.Stopped.{StaysOver};
ghost use Rattle.calls.specs.Transactions.{Rests};

use crate::transactions::beginning::{Pair, begin};
use crate::transactions::calling::call;
use crate::transactions::committing::commit;
use crate::transactions::fault::TransactionFault;
use blocks::Disk;
use model::types::{Op, Reply};
use std::alloc::Global;

/// Makes an operation in a transaction of its own, as `calls::call` makes one with a kernel of one
/// process: where it answers, the files on the disk are those after it, and a stop at any moment of it
/// keeps all of it or nothing.
///
/// # Errors
///
/// Those of `make_both`.
pub fn make_one<D: Disk>(
    alloc: Global,
    kernel: &mut Pair<D>,
    op: Op,
) -> Result<Reply, TransactionFault>
    requires rests { Rests D.fault_count kernel.old }
    requires few { call_count kernel.old + 2 < 2 ^ 63 }
    ensures rests { OnOk result (Rests D.fault_count kernel.new) }
    ensures makes { IfOk result (Makes 2 D.image op kernel.old kernel.new) }
    ensures refused { IfErr result (IsUnmade D.Disk kernel.old kernel.new) }
    ensures leaves { LeavesOnly D.moment D.leaves
        kernel.old.store.volume.device kernel.new.store.volume.device
        (KeepsCall (image_on D.image kernel.old) op result) }
    ensures stays { StaysOver D.Disk kernel.old kernel.new }
    ensures reached { IsReached D.Disk kernel.old kernel.new }
{
    begin(alloc, kernel)?;
    let reply = call(kernel, op)?;
    commit(kernel)?;
    Ok(reply)
}
