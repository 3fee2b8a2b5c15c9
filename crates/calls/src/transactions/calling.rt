// Calls in a transaction.
ghost use Rattle.std.specs.Prelude.{◌≡◌, ◌<◌, ◌^◌, IfErr, IfOk, OnOk};
ghost use Rattle.blocks.specs.Calls.{OnlyReads};
ghost use Rattle.calls.specs.Calls.{LeavesFiles, call_count};
ghost use Rattle.calls.specs.Transactions.{Adds, IsInside, IsUncalled, has_room};
ghost use Rattle.calls.specs.Stepping.{IsReached};

use crate::transactions::beginning::Pair;
use crate::transactions::fault::TransactionFault;
use blocks::Disk;
use kernel::Step;
use kernel::laws::sleeps_for_cause;
use model::types::{Op, Reply};
use ports::{PlainHerald, QueueIntake};
use stepping::make_steps;

/// Makes an operation in a transaction, from its submission to its answer. Nothing of it is kept
/// until the commit: however it ends, the disk was neither written nor synced. A creation logs one block at most, a write nine, what
/// frees blocks two and a look none; so two calls always have room.
///
/// # Errors
///
/// - `Disk`: the disk failed, and the kernel tells the same fault.
/// - `NoMemory`: memory for the operation was refused, and the disk was only read. That it was
///   refused no clause can say.
/// - `NoRoom`: the operation changes files, and the transaction logged more than ten blocks. Nothing
///   was done, and the transaction goes on.
///
/// After each but `NoRoom` no other call may be made, and the disk has the files from before the
/// transaction: `abandon` hands it back.
pub fn call<D: Disk>(kernel: &mut Pair<D>, op: Op) -> Result<Reply, TransactionFault>
    requires inside { IsInside D.fault_count kernel.old }
    requires few { call_count kernel.old < 2 ^ 63 }
    ensures inside { OnOk result (IsInside D.fault_count kernel.new) }
    ensures adds { IfOk result (Adds D.image op kernel.old kernel.new) }
    ensures refused { IfErr result (IsUncalled D.Disk op kernel.old kernel.new) }
    ensures reads { OnlyReads D.Disk kernel.old.store.volume.device
        kernel.new.store.volume.device }
    ensures leaves { LeavesFiles D.Disk kernel.old kernel.new }
    ensures reached { IsReached D.Disk kernel.old kernel.new }
    ensures opening { kernel.new.opening ≡ kernel.old.opening }
    ensures name { D.name kernel.new.store.volume.device ≡ D.name kernel.old.store.volume.device }
{
    kernel.known();
    if !has_room(kernel, &op) {
        return Err(TransactionFault::NoRoom);
    }
    let Ok(_number) = kernel.submit(0, op) else {
        // None waits, and so many were not handed in.
        unreachable!()
    };
    kernel.known();
    let step = make_steps(kernel, 0);
    kernel.known();
    kernel.room_known();
    sleeps_for_cause::<D, QueueIntake, PlainHerald>();
    if let Some(fault) = kernel.fault() {
        return Err(TransactionFault::Disk(fault));
    }
    match step {
        Step::Answered => match kernel.poll(0) {
            Some(answer) => Ok(answer.reply),
            None => unreachable!(),
        },
        Step::NoMemory => Err(TransactionFault::NoMemory),
        // Room in the log is left, and the anchor holds nothing: neither an inode nor a buffer.
        Step::Sleeping(_) | Step::Moved | Step::Idle | Step::ShutDown | Step::Halted =>
            unreachable!(),
    }
}

// Whether the log has room for an operation.
fn has_room<D: Disk>(kernel: &Pair<D>, op: &Op) -> bool
    ensures { result ≡ has_room op.now kernel.now.store.volume.log }
{
    match op {
        Op::Read(..) | Op::Stat(_) => true,
        Op::Create(_) | Op::Write(..) | Op::Trunc(_) | Op::Remove(_) | Op::SetAttribute(..) => {
            kernel.may_begin().is_none()
        }
    }
}
