// The beginning of a transaction.
ghost use Rattle.std.specs.Prelude.{◌≡◌, ◌<◌, ◌^◌, IfErr, OnOk};
ghost use Rattle.calls.specs.Calls.{LeavesFiles, call_count};
ghost use Rattle.calls.specs.Transactions.{Begins, IsInside, IsUnbegun, Rests};
ghost use Rattle.calls.specs.Stepping.{IsReached};

use crate::transactions::fault::TransactionFault;
use blocks::Disk;
use kernel::{Kernel, Step};
use model::content::Content;
use model::types::Op;
use ports::{PlainHerald, QueueIntake};
use std::alloc::Global;

/// A kernel of two processes, whose second one is the anchor.
pub type Pair<D> = Kernel<D, QueueIntake, PlainHerald>;

/// Begins a transaction: the calls behind it are one group, up to its commit.
///
/// # Errors
///
/// - `Disk`: the disk failed, and the kernel tells the same fault.
/// - `NoMemory`: memory was refused, and the disk was only read. That it was refused no clause can
///   say.
///
/// After either no other call may be made.
pub fn begin<D: Disk>(alloc: Global, kernel: &mut Pair<D>) -> Result<(), TransactionFault>
    requires rests { Rests D.fault_count kernel.old }
    requires few { call_count kernel.old < 2 ^ 63 }
    ensures inside { OnOk result (IsInside D.fault_count kernel.new) }
    ensures begins { OnOk result (Begins D.image kernel.old kernel.new) }
    ensures refused { IfErr result (IsUnbegun D.Disk kernel.old kernel.new) }
    ensures leaves { LeavesFiles D.Disk kernel.old kernel.new }
    ensures opening { kernel.new.opening ≡ kernel.old.opening }
    ensures name { D.name kernel.new.store.volume.device ≡ D.name kernel.old.store.volume.device }
    ensures reached { IsReached D.Disk kernel.old kernel.new }
{
    kernel.known();
    kernel.room_known();
    let Ok(_number) = kernel.submit(1, Op::Write(1, u32::MAX, Content::new(Vec::new(alloc)))) else {
        // None waits, and so many were not handed in.
        unreachable!()
    };
    kernel.known();
    let step = kernel.step(1);
    kernel.known();
    if let Some(fault) = kernel.fault() {
        return Err(TransactionFault::Disk(fault));
    }
    match step {
        Step::Moved => Ok(()),
        Step::NoMemory => Err(TransactionFault::NoMemory),
        Step::Answered | Step::Sleeping(_) | Step::Idle | Step::ShutDown | Step::Halted => {
            unreachable!()
        }
    }
}
