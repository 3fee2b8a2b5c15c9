// A file that is made and written in one transaction: all of it or nothing.
ghost use Rattle.std.specs.Prelude.{◌≡◌};
ghost use Rattle.calls.specs.Calls.{call_count};
ghost use Rattle.calls.specs.Transactions.{Rests};

use crate::pairing::{new_disk, open, print_file};
use crate::together::make_file;
use anyhow::bail;
use blocks::{Disk, FaultyDisk, Kind};
use calls::transactions::{Pair, TransactionFault, abandon, begin, call};
use model::content::Content;
use model::types::{Op, Reply};
use std::alloc::Global;

// More writes than the transaction makes.
const MOST_WRITES: u64 = 20;

const TEXT: &[u8] = b"to be, or not to be";

// Makes file 1 and writes into it.
fn make_text<D: Disk>(
    alloc: Global,
    kernel: &mut Pair<D>,
) -> Result<(Reply, Reply), TransactionFault>
    requires rests { Rests D.fault_count kernel.old }
    requires none { call_count kernel.old ≡ 0 }
{
    match Content::copy_of(alloc, TEXT) {
        Ok(text) => make_file(alloc, kernel, text),
        Err(_refused) => Err(TransactionFault::NoMemory),
    }
}

/// Stops the transaction before each of its writes, until one is made to its end, and prints what
/// each leaves.
pub fn print_stopped(rt: &impl Print, alloc: Global) -> anyhow::Result<()> {
    for write in 1..=MOST_WRITES {
        let disk = FaultyDisk::new(new_disk(alloc)?, write, Kind::WriteOld);
        let mut kernel = open(alloc, disk)?;
        let made = make_text(alloc, &mut kernel);
        match &made {
            Ok((one, two)) => print!(rt; "made to its end, {one:?} and {two:?}: ")?,
            Err(fault) => print!(rt; "stopped before write {write}, {fault}: ")?,
        }
        print_file(rt, alloc, abandon(kernel).into_inner())?;
        if made.is_ok() {
            return Ok(());
        }
    }
    bail!("the transaction has too many writes")
}

/// Makes a file in a transaction that is given up, and prints what that leaves.
pub fn print_abandoned(rt: &impl Print, alloc: Global) -> anyhow::Result<()> {
    let mut kernel = open(alloc, new_disk(alloc)?)?;
    begin(alloc, &mut kernel)?;
    let reply = call(&mut kernel, Op::Create(2))?;
    print!(rt; "given up behind {reply:?}: ")?;
    print_file(rt, alloc, abandon(kernel))
}
