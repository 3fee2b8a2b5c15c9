// A file of an image, written out: all of it, and where a read of the disk fails.
use crate::ground::{MOST_CALLS, with_file};
use crate::refusals::{Shown, is_early, is_later, is_no_file};
use crate::wrong::{Wrong, ensure};
use anyhow::{Context, bail, ensure};
use blocks::{FaultyDisk, Kind, MemDisk};
use disk_commands::cat_disk;
use std::alloc::{AllocFailed, Global};

// How many bytes the file has: 22 blocks, of which one of addresses leads to the last ten.
const LENGTH: usize = 22_500;

// How many bytes are written out at once.
const PIECE: usize = 16 * 1024;

// How far a cat came.
#[derive(Clone, Copy)]
enum Ended {
    Whole,
    /// The disk failed before the recovery was done.
    Early,
    Later,
}

/// Looks for a file of numbers that have none, and then makes each read of a cat fail in turn. Prints
/// how many there were.
pub fn fail_cats(rt: &impl Print, alloc: Global) -> anyhow::Result<()> {
    for number in [0, 2, 31, 32, u32::MAX] {
        refuse_number(alloc, number).context(format_args!("number {number}"))?;
    }
    let (before, later) = fail_each(alloc)?;
    println!(rt; "cat, reads: {before} of check and recovery, {later} later")?;
    Ok(())
}

fn refuse_number(alloc: Global, number: u32) -> Result<(), Wrong> {
    let mut out = Vec::new(alloc);
    match lettered(alloc) {
        Ok(disk) => {
            let (shown, _disk) = cat_disk(alloc, disk, number, &mut out);
            ensure(is_no_file(&shown) && out.is_empty(), "it has a file")
        }
        Err(wrong) => Err(wrong),
    }
}

// Makes each read fail in turn, until a cat makes no more of them. How many there are up to the
// recovery's end, and behind it.
fn fail_each(alloc: Global) -> anyhow::Result<(u64, u64)> {
    let mut before: u64 = 0;
    let mut later: u64 = 0;
    for nth in 1..MOST_CALLS {
        match fail_read(alloc, nth).context(format_args!("read {nth}"))? {
            Ended::Whole => return Ok((before, later)),
            Ended::Early => {
                ensure!(later == 0, "read {nth}: the recovery is done");
                before = before.saturating_add(1);
            }
            Ended::Later => later = later.saturating_add(1),
        }
    }
    bail!("a cat makes too many reads")
}

fn fail_read(alloc: Global, nth: u64) -> Result<Ended, Wrong> {
    let mut out = Vec::new(alloc);
    match lettered(alloc) {
        Ok(disk) => {
            let disk = FaultyDisk::new(disk, nth, Kind::Read);
            let (shown, _disk) = cat_disk(alloc, disk, 1, &mut out);
            judge(&shown, out.as_slice())
        }
        Err(wrong) => Err(wrong),
    }
}

fn judge(shown: &Shown, bytes: &[u8]) -> Result<Ended, Wrong> {
    ensure(are_first(bytes), "other bytes than the first")?;
    if shown.is_ok() {
        ensure(bytes.len() == LENGTH, "not all of the bytes")?;
        return Ok(Ended::Whole);
    }
    if is_early(shown) {
        ensure(bytes.is_empty(), "bytes too early")?;
        return Ok(Ended::Early);
    }
    ensure(is_later(shown), "another refusal")?;
    ensure(bytes.len() % PIECE == 0, "part of a piece")?;
    Ok(Ended::Later)
}

// An image with that file: a letter for each hundred bytes.
fn lettered(alloc: Global) -> Result<MemDisk, Wrong> {
    let mut bytes = Vec::new(alloc);
    match put_letters(&mut bytes) {
        Ok(()) => with_file(alloc, bytes.as_slice()),
        Err(_refused) => Err(Wrong::NoMemory),
    }
}

fn put_letters(bytes: &mut Vec<u8>) -> Result<(), AllocFailed<u8>> {
    for i in 0..LENGTH {
        bytes.push(letter(i))?;
    }
    Ok(())
}

fn letter(i: usize) -> u8 {
    b'a' + (i / 100 % 26) as u8
}

// Whether these are the first bytes of the file.
fn are_first(bytes: &[u8]) -> bool {
    bytes.iter().enumerate().all(|(i, byte)| *byte == letter(i))
}
