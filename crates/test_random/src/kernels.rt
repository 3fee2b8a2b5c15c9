// Kernels over images.
use crate::image_wrong::{Other, What, ensure};
use crate::reading::if_done;
use blocks::{FaultyDisk, Kind, MemDisk};
use kernel::{Kernel, OpenFault, Step};
use model::content::Content;
use model::types::Op;
use offline::mkfs;
use ports::{PlainHerald, QueueIntake};
use std::alloc::{AllocError, Global};

// A disk of which a write may fail.
type Faulty = FaultyDisk<MemDisk>;

// A kernel over one.
type Opened = Kernel<Faulty, QueueIntake, PlainHerald>;

// More steps than any operation makes.
const MOST_STEPS: u32 = 2000;

/// An image that is made, and where.
#[derive(Clone, Copy)]
pub struct Making {
    /// How many blocks and inode numbers it has.
    pub size: u32,
    pub inode_count: u32,
    /// So many of the first operations are made over it, up to the write of this number if it is not
    /// 0.
    pub operations: u32,
    pub stop: u64,
}

/// Opens a kernel over a disk, which recovers its image. The disk comes back, with the fault that
/// refused the opening, if one did.
pub fn opened(alloc: Global, disk: MemDisk) -> (Option<OpenFault>, MemDisk) {
    match open(alloc, FaultyDisk::new(disk, 0, Kind::WriteOld)) {
        Ok(kernel) => (None, kernel.into_disk().into_inner()),
        Err((fault, disk)) => (Some(fault), disk.into_inner()),
    }
}

fn open(alloc: Global, disk: Faulty) -> Result<Opened, (OpenFault, Faulty)> {
    match QueueIntake::new(alloc, 1) {
        Ok(intake) => Kernel::open(alloc, disk, intake, PlainHerald::new(), 1),
        Err(_refused) => Err((OpenFault::NoMemory, disk)),
    }
}

/// Makes an image.
pub fn made(alloc: Global, making: Making) -> Result<Faulty, What> {
    let disk = new_image(alloc, making)?;
    match open(alloc, FaultyDisk::new(disk, making.stop, Kind::WriteOld)) {
        Ok(mut kernel) => {
            let done = perform_all(alloc, &mut kernel, making);
            if_done(done, kernel.into_disk())
        }
        Err((fault, _disk)) => Err(What::NotOpened(fault)),
    }
}

fn new_image(alloc: Global, making: Making) -> Result<MemDisk, What> {
    let mut disk = MemDisk::new(alloc, making.size)?;
    match mkfs(alloc, &mut disk, making.size, making.inode_count) {
        Ok(()) => Ok(disk),
        Err(fault) => Err(fault.into()),
    }
}

fn perform_all(alloc: Global, kernel: &mut Opened, making: Making) -> Result<(), What> {
    for place in 0..making.operations {
        if kernel.fault().is_none() {
            hand_in(kernel, operation(alloc, place)?)?;
            go_on(kernel)?;
        }
    }
    ensure(
        kernel.fault().is_some() == (making.stop > 0),
        Other::NotStopped,
    )
}

fn hand_in(kernel: &mut Opened, op: Op) -> Result<(), What> {
    if kernel.processes() != 1 {
        return Err(What::Other(Other::NoPlace));
    }
    ensure(kernel.submit(0, op).is_ok(), Other::NoPlace)
}

// Makes the steps of an operation, to its end or to the stop.
fn go_on(kernel: &mut Opened) -> Result<(), What> {
    for _step in 0..MOST_STEPS {
        if kernel.processes() != 1 {
            return Err(What::Other(Other::NoStep));
        }
        match kernel.step(0) {
            Step::Moved => {}
            Step::Answered => {
                let _answer = kernel.poll(0);
                return Ok(());
            }
            Step::Halted => return Ok(()),
            _ => return Err(What::Other(Other::NoStep)),
        }
    }
    Err(What::Other(Other::TooManySteps))
}

// A file of 15 blocks, then others: one is removed, and its number used again.
fn operation(alloc: Global, place: u32) -> Result<Op, AllocError> {
    match place {
        0 | 10 => Ok(Op::Create(2)),
        1..=5 => write(alloc, 1, (place - 1) * 3072, 3072),
        6 => Ok(Op::Create(1)),
        7 => write(alloc, 2, 0, 2000),
        8 => Ok(Op::Create(3)),
        9 => write(alloc, 3, 0, 1024),
        11 => Ok(Op::Remove(3)),
        _ => write(alloc, 4, 0, 1500),
    }
}

fn write(alloc: Global, number: u32, offset: u32, count: usize) -> Result<Op, AllocError> {
    let bytes = vec![in alloc; 0x6f; count]?;
    Ok(Op::Write(number, offset, Content::new(bytes)))
}
