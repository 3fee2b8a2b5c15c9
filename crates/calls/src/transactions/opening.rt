// Opening a kernel of two processes.
ghost use Rattle.std.specs.Prelude.{IfOk, IfErr};
ghost use Rattle.calls.specs.Opening.{IsNotOpenedPair, IsOpenedPair};

use crate::transactions::beginning::Pair;
use blocks::Disk;
use kernel::{Kernel, OpenFault};
use ports::{PlainHerald, QueueIntake};
use std::alloc::Global;

/// A kernel of two processes over the image of a disk, which is checked and recovered first. No
/// transaction is under way.
///
/// # Errors
///
/// Hands the disk back with a fault of `Kernel::open`; with its `NoMemory` also where memory for the
/// processes' queues was refused, and then nothing was done with the disk.
pub fn open_pair<D: Disk + Drop>(alloc: Global, disk: D) -> Result<Pair<D>, (OpenFault, D)>
    ensures opened { IfOk result (IsOpenedPair D.Disk disk) }
    ensures refused { IfErr result (λ e. IsNotOpenedPair D.Disk disk e.1 e.0) }
{
    let intake = match QueueIntake::new(alloc, 2) {
        Ok(intake) => intake,
        Err(_refused) => return Err((OpenFault::NoMemory, disk)),
    };
    Kernel::open(alloc, disk, intake, PlainHerald::new(), 2)
}
