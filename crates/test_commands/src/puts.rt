// Puts into the image whose calls fail in turn.
use crate::ground::{KINDS, MOST_CALLS, blocks_of, ground_of};
use crate::refusals::{Put, is_disk_of_put};
use crate::wrong::{Wrong, ensure};
use anyhow::{Context, bail};
use blocks::{FaultyDisk, Kind, MemDisk};
use messages::Silent;
use model::types::File;
use reference::report::files_after_recovery;
use std::alloc::Global;
use transfer::put_disk;

// The bytes that are put: of more blocks than one write has.
const BYTES: [u8; 4000] = [b'b'; 4000];

// How bytes are put.
#[derive(Clone, Copy)]
enum Way {
    // As a new file.
    New,
    // In the place of file 1, by way of a new one.
    Round,
    // In the place of file 1 alone.
    InPlace,
}

impl Way {
    // How many blocks the image has: two of its files find room, or one.
    fn size(&self) -> u32 {
        match self {
            Way::InPlace => 44,
            _ => 200,
        }
    }

    // The number of the old file, if the bytes are put over one.
    fn inum(&self) -> Option<u32> {
        match self {
            Way::New => None,
            _ => Some(1),
        }
    }

    // Whether a put that failed may have left bytes at this number.
    fn may_leave_at(&self, number: usize) -> bool {
        match self {
            Way::New => number == 2,
            Way::Round => number == 1 || number == 2,
            Way::InPlace => number == 1,
        }
    }

    // Whether one that was done has put them there.
    fn puts_at(&self, number: usize) -> bool {
        match self {
            Way::New => number == 2,
            _ => number == 1,
        }
    }
}

/// Makes each call of a put fail in turn: of one as a new file, of one in the place of the old one by way
/// of a new one, and of one that has no room for that. Prints how many there were.
pub fn fail_puts(rt: &impl Print, alloc: Global) -> anyhow::Result<()> {
    for (way, place) in [
        (Way::New, "new file"),
        (Way::Round, "file 1"),
        (Way::InPlace, "file 1 in place"),
    ] {
        for (kind, calls) in KINDS {
            let failed = fail_each(alloc, way, kind).context(calls)?;
            println!(rt; "put, {place}, {calls}: {failed}")?;
        }
    }
    Ok(())
}

// Makes each call of a kind fail in turn, until a put makes no more of them. How many there are.
fn fail_each(alloc: Global, way: Way, kind: Kind) -> anyhow::Result<u64> {
    for nth in 1..MOST_CALLS {
        if fail_call(alloc, way, kind, nth).context(format_args!("call {nth}"))? {
            return Ok(nth.saturating_sub(1));
        }
    }
    bail!("a put makes too many calls")
}

// Makes the call of this number fail. Whether the put was done all the same.
fn fail_call(alloc: Global, way: Way, kind: Kind, nth: u64) -> Result<bool, Wrong> {
    match ground_of(alloc, way.size()) {
        Ok(disk) => {
            let mut told = Vec::new(alloc);
            let disk = FaultyDisk::new(disk, nth, kind);
            let (put, disk) = put_disk(
                alloc,
                disk,
                &BYTES,
                way.inum(),
                true,
                &mut Silent,
                &mut told,
            );
            judge(alloc, &mut disk.into_inner(), way, &put)
        }
        Err(wrong) => Err(wrong),
    }
}

// Judges the image of a disk, and what was told. Whether the put was done.
fn judge(alloc: Global, disk: &mut MemDisk, way: Way, put: &Put) -> Result<bool, Wrong> {
    judge_files(alloc, disk, way, put.is_ok())?;
    ensure(put.is_ok() || is_disk_of_put(put), "another refusal")?;
    Ok(put.is_ok())
}

// Whether the image of a disk is recovered to a sound one in which each file is as before, or has the
// bytes that were put, or where it was not done, the first of them; and where there was a way round,
// the old bytes are there, or the new ones.
fn judge_files(alloc: Global, disk: &mut MemDisk, way: Way, is_done: bool) -> Result<(), Wrong> {
    let blocks = blocks_of(alloc, disk)?;
    let files = files_after_recovery(alloc, blocks.as_slice())?;
    let mut is_neither = matches!(way, Way::Round);
    for (i, place) in files.iter().enumerate() {
        let is_right = if is_done && way.puts_at(i) {
            has_put(place, true)
        } else {
            is_before(place, i == 1) || (!is_done && way.may_leave_at(i) && has_put(place, false))
        };
        ensure(is_right, "a file is not as it has to be")?;
        if has_put(place, true) || (i == 1 && is_before(place, true)) {
            is_neither = false;
        }
    }
    ensure(
        !is_neither,
        "neither the old bytes nor the new ones are there",
    )
}

// Whether a place is as before: with the file of one byte, or empty.
fn is_before(place: &Option<File>, is_first: bool) -> bool {
    match place {
        Some(file) => is_first && file.kind == 2 && file.bytes.as_slice() == [b'a'].as_slice(),
        None => !is_first,
    }
}

// Whether it has all of the bytes, or the first of them.
fn has_put(place: &Option<File>, is_all: bool) -> bool {
    let Some(file) = place else {
        return false;
    };
    let bytes = file.bytes.as_slice();
    let is_long = bytes.len() == BYTES.len() || (!is_all && bytes.len() < BYTES.len());
    file.kind == 2 && is_long && bytes.iter().all(|byte| *byte == b'b')
}
