// Calls of a kernel's only process.
ghost use Rattle.std.specs.Prelude.{◌≡◌, ◌<◌, ◌^◌, IsTrue, IfOk, IfErr, OnOk};
ghost use Rattle.blocks.specs.Calls.{OnlyReads};
ghost use Rattle.blocks.specs.Disk.{LeavesOnly};
ghost use Rattle.calls.specs.Calls.{Calls, IsUncalled, KeepsCall, Rests, call_count, image_on, is_look};
ghost use Rattle.calls.specs.Stepping.{IsReached};

use crate::fault::CallFault;
use blocks::Disk;
use kernel::laws::sleeps_for_cause;
use kernel::{Kernel, Step};
use model::types::{Op, Reply};
use ports::{PlainHerald, QueueIntake};
use stepping::make_steps;

/// A kernel of one process.
pub type Sole<D> = Kernel<D, QueueIntake, PlainHerald>;

/// Makes an operation from its submission to its answer. Where it is answered, the files on the disk
/// are those before it after this operation, and its group is committed. A stop at any moment of it
/// keeps all of it or nothing. What no file shows stays: block 0, inode 0, the inodes behind the
/// last number, the bits behind the last block, and the labels of each file; those of a new one are
/// 0, 0 and 1.
///
/// # Errors
///
/// - `Disk`: the disk failed, and the kernel tells the same fault.
/// - `NoMemory`: memory for the operation was refused, and the disk was only read. That it was
///   refused no clause can say; the only process of a kernel waits for nobody.
///
/// After either no other call may be made.
pub fn call<D: Disk>(kernel: &mut Sole<D>, op: Op) -> Result<Reply, CallFault>
    requires rests { Rests D.fault_count kernel.old }
    requires few { call_count kernel.old < 2 ^ 63 }
    ensures rests { OnOk result (Rests D.fault_count kernel.new) }
    ensures calls { IfOk result (Calls D.image op kernel.old kernel.new) }
    ensures refused { IfErr result (IsUncalled D.Disk kernel.old kernel.new) }
    ensures leaves { LeavesOnly D.moment D.leaves
        kernel.old.store.volume.device kernel.new.store.volume.device
        (KeepsCall (image_on D.image kernel.old) op result) }
    ensures looks { IsTrue (is_look op) → OnlyReads D.Disk
        kernel.old.store.volume.device kernel.new.store.volume.device }
    ensures opening { kernel.new.opening ≡ kernel.old.opening }
    ensures name { D.name kernel.new.store.volume.device ≡ D.name kernel.old.store.volume.device }
    ensures reached { IsReached D.Disk kernel.old kernel.new }
{
    kernel.known();
    let Ok(_number) = kernel.submit(0, op) else {
        // None waits, and so many were not handed in.
        unreachable!()
    };
    kernel.known();
    let step = make_steps(kernel, 0);
    kernel.known();
    sleeps_for_cause::<D, QueueIntake, PlainHerald>();
    if let Some(fault) = kernel.fault() {
        return Err(CallFault::Disk(fault));
    }
    match step {
        Step::Answered => match kernel.poll(0) {
            Some(answer) => Ok(answer.reply),
            None => unreachable!(),
        },
        Step::NoMemory => Err(CallFault::NoMemory),
        Step::Moved | Step::Sleeping(_) | Step::Idle | Step::ShutDown | Step::Halted => {
            unreachable!()
        }
    }
}
