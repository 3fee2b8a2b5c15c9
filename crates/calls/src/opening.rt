// Opening a kernel of one process.
ghost use Rattle.std.specs.Prelude.{IfOk, IfErr};
ghost use Rattle.calls.specs.Opening.{IsNotOpenedSole, IsOpenedSole};

use crate::calling::Sole;
use blocks::Disk;
use kernel::{Kernel, OpenFault};
use ports::{PlainHerald, QueueIntake};
use std::alloc::Global;

/// A kernel of one process over the image of a disk, which is checked and recovered first.
///
/// # Errors
///
/// Hands the disk back with a fault of `Kernel::open`; with its `NoMemory` also where memory for the
/// process's queues was refused, and then nothing was done with the disk.
pub fn open_sole<D: Disk + Drop>(alloc: Global, disk: D) -> Result<Sole<D>, (OpenFault, D)>
    ensures opened { IfOk result (IsOpenedSole D.Disk disk) }
    ensures refused { IfErr result (λ e. IsNotOpenedSole D.Disk disk e.1 e.0) }
{
    let intake = match QueueIntake::new(alloc, 1) {
        Ok(intake) => intake,
        Err(_refused) => return Err((OpenFault::NoMemory, disk)),
    };
    Kernel::open(alloc, disk, intake, PlainHerald::new(), 1)
}
