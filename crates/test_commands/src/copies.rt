// Copies of the image whose calls fail in turn.
use crate::ground::{KINDS, MOST_CALLS, empty_disk, ensure_ground, ground};
use crate::wrong::{Wrong, ensure};
use anyhow::{Context, bail};
use blocks::{FaultyDisk, Kind, MemDisk};
use layout::CheckFault;
use messages::Silent;
use offline::check;
use std::alloc::Global;
use std::io;
use transfer::{CopyFault, copy};

// Which of the two disks fails.
#[derive(Clone, Copy)]
enum Failing {
    Old,
    New,
}

// How many calls failed, by what was told of it.
#[derive(Clone, Copy)]
struct Failures {
    checks: u64,
    later: u64,
}

impl Failures {
    fn count(&mut self, fault: CopyFault) -> anyhow::Result<()> {
        match fault {
            CopyFault::Old(CheckFault::Disk) => self.checks = self.checks.saturating_add(1),
            CopyFault::Disk => self.later = self.later.saturating_add(1),
            other => bail!("another fault: {other}"),
        }
        Ok(())
    }

    fn print(self, rt: &impl Print, disk: &str, calls: &str) -> io::Result<()> {
        println!(rt;
            "copy, {disk}, {calls}: Old(Disk) {}, Disk {}",
            self.checks, self.later
        )
    }
}

/// Makes each call of a copy fail in turn: the reads of the old disk, and the reads, the writes and
/// the syncs of the new one. Prints how many there were.
pub fn fail_copies(rt: &impl Print, alloc: Global) -> anyhow::Result<()> {
    fail_each(alloc, Failing::Old, Kind::Read)?.print(rt, "old disk", "reads")?;
    for (kind, calls) in KINDS {
        fail_each(alloc, Failing::New, kind)?.print(rt, "new disk", calls)?;
    }
    fail_each(alloc, Failing::New, Kind::Sync)?.print(rt, "new disk", "syncs")?;
    Ok(())
}

// Makes each call of a kind fail in turn, until a copy makes no more of them.
fn fail_each(alloc: Global, failing: Failing, kind: Kind) -> anyhow::Result<Failures> {
    let mut failures = Failures {
        checks: 0,
        later: 0,
    };
    for nth in 1..MOST_CALLS {
        match fail_call(alloc, failing, kind, nth).context(format_args!("call {nth}"))? {
            Some(fault) => failures.count(fault)?,
            None => return Ok(failures),
        }
    }
    bail!("a copy makes too many calls")
}

// Why there is no copy, if there is none.
fn fail_call(
    alloc: Global,
    failing: Failing,
    kind: Kind,
    nth: u64,
) -> Result<Option<CopyFault>, Wrong> {
    let (of_old, of_new) = match failing {
        Failing::Old => (nth, 0),
        Failing::New => (0, nth),
    };
    match (ground(alloc), empty_disk(alloc)) {
        (Ok(old), Ok(new)) => copy_all(
            alloc,
            FaultyDisk::new(old, of_old, kind),
            FaultyDisk::new(new, of_new, kind),
        ),
        (Err(wrong), _) | (_, Err(wrong)) => Err(wrong),
    }
}

// Makes a copy, and looks whether the old image stays as it was, and the new one is none or whole.
fn copy_all(
    alloc: Global,
    mut old: FaultyDisk<MemDisk>,
    new: FaultyDisk<MemDisk>,
) -> Result<Option<CopyFault>, Wrong> {
    match copy(alloc, &mut old, new, 200, true, &mut Silent) {
        Ok((files, _new)) => judge_whole(alloc, &mut old.into_inner(), files),
        Err((fault, new)) => {
            judge_failed(alloc, &mut old.into_inner(), &mut new.into_inner(), fault)
        }
    }
}

fn judge_whole(alloc: Global, old: &mut MemDisk, files: u32) -> Result<Option<CopyFault>, Wrong> {
    ensure_ground(alloc, old)?;
    ensure(files == 1, "more than one file was copied, or none")?;
    Ok(None)
}

fn judge_failed(
    alloc: Global,
    old: &mut MemDisk,
    new: &mut MemDisk,
    fault: CopyFault,
) -> Result<Option<CopyFault>, Wrong> {
    ensure_ground(alloc, old)?;
    ensure(is_none_or_whole(alloc, new), "the new image is cut short")?;
    Ok(Some(fault))
}

// Whether the disk has no superblock, or the whole copy.
fn is_none_or_whole(alloc: Global, disk: &mut MemDisk) -> bool {
    match check(alloc, disk) {
        Ok(report) => report.files == 1,
        Err(fault) => matches!(fault, CheckFault::BadMagic),
    }
}
