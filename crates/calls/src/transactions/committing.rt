// The commit of a transaction.
ghost use Rattle.std.specs.Prelude.{◌≡◌, ◌<◌, ◌^◌, IfErr, OnOk};
ghost use Rattle.blocks.specs.Disk.{LeavesOnly};
ghost use Rattle.calls.specs.Calls.{call_count, image_on};
ghost use Rattle.model.specs.Files.{Files};
ghost use Rattle.calls.specs.Transactions.{Commits, HasFiles, IsInside, IsUncommitted, KeepsEither, Rests, labels_made};
ghost use Rattle.calls.specs.Stepping.{IsReached};

use crate::transactions::beginning::Pair;
use crate::transactions::fault::TransactionFault;
use blocks::Disk;
use kernel::Step;
use kernel::laws::sleeps_for_cause;
use ports::{PlainHerald, QueueIntake};
use stepping::make_steps;

/// Ends a transaction: where it is answered, the files on the disk are those after all its calls. A
/// stop at any moment of it keeps all of them or none.
///
/// # Errors
///
/// `Disk`: the disk failed, and the kernel tells the same fault. No other call may be made then, and
/// no other fault is answered: an operation of the anchor waits for nobody, and takes no memory.
pub fn commit<D: Disk>(kernel: &mut Pair<D>) -> Result<(), TransactionFault>
    requires inside { IsInside D.fault_count kernel.old }
    requires few { call_count kernel.old < 2 ^ 63 }
    ensures rests { OnOk result (Rests D.fault_count kernel.new) }
    ensures commits { OnOk result (Commits D.image kernel.old kernel.new) }
    ensures refused { IfErr result (IsUncommitted D.Disk kernel.old kernel.new) }
    ensures leaves { (f : Files) → HasFiles D.image kernel.old f → LeavesOnly D.moment D.leaves
        kernel.old.store.volume.device kernel.new.store.volume.device
        (KeepsEither (image_on D.image kernel.old) f (labels_made D.image kernel.old)) }
    ensures reached { IsReached D.Disk kernel.old kernel.new }
    ensures opening { kernel.new.opening ≡ kernel.old.opening }
    ensures name { D.name kernel.new.store.volume.device ≡ D.name kernel.old.store.volume.device }
{
    kernel.known();
    let step = make_steps(kernel, 1);
    kernel.known();
    sleeps_for_cause::<D, QueueIntake, PlainHerald>();
    if let Some(fault) = kernel.fault() {
        return Err(TransactionFault::Disk(fault));
    }
    match step {
        Step::Answered => match kernel.poll(1) {
            Some(_answer) => Ok(()),
            None => unreachable!(),
        },
        Step::Sleeping(_)
        | Step::NoMemory
        | Step::Moved
        | Step::Idle
        | Step::ShutDown
        | Step::Halted => { unreachable!() }
    }
}
