// Disks that fail in a replay and in a run: the refusal tells it, and what was done before is printed.
use crate::ground::new_image;
use crate::refusals::{is_block_of_replay, is_block_of_run};
use crate::replaying::{print_text, ran, replayed};
use crate::wrong::{Wrong, ensure};
use blocks::{FaultyDisk, Kind, MemDisk};
use std::alloc::{AllocGlobal, Global};
use std::rt::Clock;
use std::sync::Wait;
use std::thread::Threads;

// A disk with a new image, whose write of this number is not made.
fn failing_disk(alloc: Global, nth: u64) -> Result<FaultyDisk<MemDisk>, Wrong> {
    match new_image(alloc) {
        Ok(image) => Ok(FaultyDisk::new(image, nth, Kind::WriteOld)),
        Err(wrong) => Err(wrong),
    }
}

/// Prints what a replay printed until its second write failed.
pub fn print_replay(rt: &impl Print, alloc: Global) -> anyhow::Result<()> {
    let mut out = Vec::new(alloc);
    fail_replay(alloc, &mut out)?;
    print_text(rt, "replay, write 2 fails", out.as_slice())
}

fn fail_replay(alloc: Global, out: &mut Vec<u8>) -> Result<(), Wrong> {
    match failing_disk(alloc, 2) {
        Ok(disk) => match replayed(alloc, disk, "0 create 2\n", "0! 0", out) {
            Ok((ended, disk)) => ensure(
                is_block_of_replay(&ended) && disk.fired(),
                "the failing block was not told",
            ),
            Err(wrong) => Err(wrong),
        },
        Err(wrong) => Err(wrong),
    }
}

/// The same of a run whose sixth write failed. Its callers end where the workers do.
pub fn print_run<R: Print + Threads + Wait + Clock + AllocGlobal + Sync>(
    rt: &R,
) -> anyhow::Result<()> {
    let mut out = Vec::new(rt.alloc());
    fail_run(rt, &mut out)?;
    print_text(rt, "run, write 6 fails", out.as_slice())
}

fn fail_run<R: Threads + Wait + Clock + AllocGlobal + Sync>(
    rt: &R,
    out: &mut Vec<u8>,
) -> Result<(), Wrong> {
    match failing_disk(rt.alloc(), 6) {
        Ok(disk) => match ran(rt, disk, "0 create 2\n0 create 2\n0 stat 1\n", out) {
            Ok((ended, disk)) => ensure(
                is_block_of_run(&ended) && disk.fired(),
                "the failing block was not told",
            ),
            Err(wrong) => Err(wrong),
        },
        Err(wrong) => Err(wrong),
    }
}
