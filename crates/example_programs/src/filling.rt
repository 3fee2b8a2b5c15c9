// A transaction that is too large.
ghost use Rattle.std.specs.Prelude.{◌≡◌, ◌+◌, ◌<◌, OnOk};
ghost use Rattle.calls.specs.Calls.{call_count};
ghost use Rattle.calls.specs.Transactions.{IsInside};

use crate::pairing::{new_disk, open, print_file};
use anyhow::bail;
use blocks::Disk;
use calls::transactions::{Pair, TransactionFault, abandon, begin, call, commit};
use model::content::Content;
use model::types::Op;
use std::alloc::Global;

// The bytes of a write, which are three blocks.
const BYTES: &[u8] = &[7; 3072];

// Writes three blocks into file 1 in a transaction, and prints what comes of it. Whether there was
// room for them.
fn fill<D: Disk>(
    rt: &impl Print,
    alloc: Global,
    kernel: &mut Pair<D>,
    off: u32,
) -> anyhow::Result<bool>
    requires inside { IsInside D.fault_count kernel.old }
    requires few { call_count kernel.old < 100 }
    ensures inside { OnOk result (IsInside D.fault_count kernel.new) }
    ensures few { OnOk result (call_count kernel.new < call_count kernel.old + 2) }
{
    match call(kernel, Op::Write(1, off, Content::copy_of(alloc, BYTES)?)) {
        Ok(reply) => {
            println!(rt; "at {off}: {reply:?}")?;
            Ok(true)
        }
        Err(TransactionFault::NoRoom) => {
            println!(rt; "at {off}: no room")?;
            Ok(false)
        }
        Err(fault) => Err(fault.into()),
    }
}

// Writes into file 1 until the transaction has no room.
fn fill_up<D: Disk>(rt: &impl Print, alloc: Global, kernel: &mut Pair<D>) -> anyhow::Result<()>
    requires inside { IsInside D.fault_count kernel.old }
    requires few { call_count kernel.old < 2 }
    ensures inside { OnOk result (IsInside D.fault_count kernel.new) }
    ensures few { OnOk result (call_count kernel.new < 100) }
{
    for third in 0..10u32 {
        if !fill(rt, alloc, kernel, third * 3072)? {
            return Ok(());
        }
    }
    bail!("the log was never full")
}

/// Fills a transaction, commits what there is, and prints it.
pub fn print_full(rt: &impl Print, alloc: Global) -> anyhow::Result<()> {
    let mut kernel = open(alloc, new_disk(alloc)?)?;
    begin(alloc, &mut kernel)?;
    call(&mut kernel, Op::Create(2))?;
    fill_up(rt, alloc, &mut kernel)?;
    commit(&mut kernel)?;
    print_file(rt, alloc, abandon(kernel))
}
