// A kernel of two processes, over a disk that fails at one of its writes.
use crate::turning::take_turns;
use blocks::{FaultyDisk, Kind, MemDisk};
use kernel::{Kernel, OpenFault};
use ports::{PlainHerald, QueueIntake};
use std::alloc::Global;

/// What is left of the disk where its write of this number is not made.
pub fn stop_two(alloc: Global, disk: MemDisk, write: u64) -> Result<MemDisk, OpenFault> {
    let Ok(intake) = QueueIntake::new(alloc, 2) else {
        return Err(OpenFault::NoMemory);
    };
    let disk = FaultyDisk::new(disk, write, Kind::WriteOld);
    match Kernel::open(alloc, disk, intake, PlainHerald::new(), 2) {
        Ok(mut kernel) => {
            take_turns(&mut kernel);
            Ok(kernel.into_disk().into_inner())
        }
        Err((fault, _disk)) => Err(fault),
    }
}
