// Two operations in one transaction: a stop at any moment keeps both or neither.
ghost use Rattle.std.specs.Prelude.{◌+◌, ◌<◌, ◌^◌};
ghost use Rattle.calls.specs.Calls.{call_count};
ghost use Rattle.calls.specs.Transactions.{Rests};

use blocks::Disk;
use calls::transactions::{Pair, TransactionFault, make_both};
use model::content::Content;
use model::types::{Op, Reply};
use std::alloc::Global;

/// Makes file 1 with these bytes, in an image without files.
pub fn make_file<D: Disk>(
    alloc: Global,
    kernel: &mut Pair<D>,
    bytes: Content,
) -> Result<(Reply, Reply), TransactionFault>
    requires rests { Rests D.fault_count kernel.old }
    requires few { call_count kernel.old + 3 < 2 ^ 63 }
{
    make_both(alloc, kernel, Op::Create(2), Op::Write(1, 0, bytes))
}
