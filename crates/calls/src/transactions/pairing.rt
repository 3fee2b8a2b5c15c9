// Two operations, both or none.
ghost use Rattle.std.specs.Prelude.{◌+◌, ◌<◌, ◌^◌, IfErr, IfOk, OnOk};
ghost use Rattle.blocks.specs.Disk.{LeavesOnly};
ghost use Rattle.calls.specs.Calls.{call_count, image_on};
ghost use Rattle.calls.specs.Stopped.{StaysOver};
ghost use Rattle.calls.specs.Pairing.{IsUnmade, KeepsBoth, MakesBoth};
ghost use Rattle.calls.specs.Transactions.{Rests};

use crate::transactions::beginning::{Pair, begin};
use crate::transactions::calling::call;
use crate::transactions::committing::commit;
use crate::transactions::fault::TransactionFault;
use blocks::Disk;
use model::types::{Op, Reply};
use std::alloc::Global;

/// Makes two operations in one transaction: where it answers, the files on the disk are those after
/// both, and a stop at any moment of it keeps both or neither.
///
/// # Errors
///
/// - `Disk`: the disk failed, and the kernel tells the same fault.
/// - `NoMemory`: memory was refused, and nothing was written. That it was refused no clause can say.
///
/// Two operations always have room. After either no other call may be made, for the transaction isn't
/// at its end: `abandon` hands the disk back.
pub fn make_both<D: Disk>(
    alloc: Global,
    kernel: &mut Pair<D>,
    first: Op,
    second: Op,
) -> Result<(Reply, Reply), TransactionFault>
    requires rests { Rests D.fault_count kernel.old }
    requires few { call_count kernel.old + 3 < 2 ^ 63 }
    ensures rests { OnOk result (Rests D.fault_count kernel.new) }
    ensures makes { IfOk result (λ replies.
        MakesBoth D.image first second kernel.old kernel.new replies.0 replies.1) }
    ensures refused { IfErr result (IsUnmade D.Disk kernel.old kernel.new) }
    ensures leaves { LeavesOnly D.moment D.leaves
        kernel.old.store.volume.device kernel.new.store.volume.device
        (KeepsBoth (image_on D.image kernel.old) first second) }
    ensures stays { StaysOver D.Disk kernel.old kernel.new }
{
    begin(alloc, kernel)?;
    let one = call(kernel, first)?;
    let two = call(kernel, second)?;
    commit(kernel)?;
    Ok((one, two))
}
