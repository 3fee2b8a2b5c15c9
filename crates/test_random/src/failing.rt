// Each call of the disk failing in turn.
use crate::ground::Ground;
use crate::judging::judge_disk;
use crate::playing::{Failure, opened};
use crate::stopping::try_run;
use crate::tally::{Row, Tally};
use crate::wrong::{Part, What, Wrong};
use blocks::{Kind, MemDisk};
use kernel::OpenFault;
use model::types::CheckFault;
use std::alloc::Global;
use wal::RecoverFault;

// More calls than any of the scripts makes.
const MOST_CALLS: u64 = 100_000;

/// Makes each read of a script fail in turn, those of the opening too, then each write, which leaves
/// its block as it was, and then each write once more, which leaves it as it was handed in.
pub fn fail_each(alloc: Global, ground: &Ground, tally: &mut Tally) -> Result<(), Wrong> {
    let reads = fail_opening(alloc, ground)?;
    tally.add(Row::OpeningReads, reads);
    fail_kind(alloc, ground, Kind::Read, reads, tally)?;
    fail_kind(alloc, ground, Kind::WriteOld, 0, tally)?;
    fail_kind(alloc, ground, Kind::WriteNew, 0, tally)?;
    tally.add(Row::Scripts, 1);
    Ok(())
}

// Makes each read of an opening fail in turn, and says how many there are.
fn fail_opening(alloc: Global, ground: &Ground) -> Result<u64, Wrong> {
    for reads in 0..MOST_CALLS {
        match is_refused(alloc, ground, reads + 1) {
            Ok(true) => {}
            Ok(false) => return Ok(reads),
            Err(what) => return Err(what.at(Part::OpeningRead, reads + 1)),
        }
    }
    Err(What::NoEnd.at(Part::OpeningRead, MOST_CALLS))
}

// Whether an opening has a read of this number. If so, that fails, the opening is refused, and the
// image stays as it was.
fn is_refused(alloc: Global, ground: &Ground, nth: u64) -> Result<bool, What> {
    let kind = Kind::Read;
    let disk = ground.disk(alloc)?;
    let (fault, disk) = opened(alloc, disk, Failure { kind, nth }, ground.setting.processes);
    match fault {
        None => Ok(false),
        Some(fault) => judge_refused(alloc, fault, disk, ground),
    }
}

fn judge_refused(
    alloc: Global,
    fault: OpenFault,
    disk: MemDisk,
    ground: &Ground,
) -> Result<bool, What> {
    match fault {
        OpenFault::Check(CheckFault::Disk) | OpenFault::Recover(RecoverFault::Disk) => {
            judge_disk(alloc, disk, &ground.files)?;
            Ok(true)
        }
        fault => Err(What::Opening(fault)),
    }
}

// Makes each call of a kind fail in turn, behind so many first ones, until a run has no more.
fn fail_kind(
    alloc: Global,
    ground: &Ground,
    kind: Kind,
    before: u64,
    tally: &mut Tally,
) -> Result<(), Wrong> {
    for nth in before.saturating_add(1)..MOST_CALLS {
        if !ground.fails(nth) {
            continue;
        }
        match fail_call(alloc, ground, Failure { kind, nth }, tally) {
            Ok(true) => {}
            Ok(false) => return Ok(()),
            Err(what) => return Err(what.at(part_of(kind), nth)),
        }
    }
    Err(What::NoEnd.at(part_of(kind), MOST_CALLS))
}

fn part_of(kind: Kind) -> Part {
    match kind {
        Kind::Read => Part::Read,
        Kind::WriteOld => Part::WriteOld,
        Kind::WriteNew => Part::WriteNew,
        Kind::Sync => Part::Sync,
    }
}

// Whether the script has such a call. If so, that fails.
fn fail_call(
    alloc: Global,
    ground: &Ground,
    failure: Failure,
    tally: &mut Tally,
) -> Result<bool, What> {
    let left = try_run(alloc, ground, failure, &mut Tally::new())?;
    if !left.has_failed {
        return Ok(false);
    }
    tally.add(row_of(failure.kind), 1);
    tally.keep(left.committed, left.kept);
    tally.add(Row::GroupsMore, left.is_committed as u64);
    Ok(true)
}

fn row_of(kind: Kind) -> Row {
    match kind {
        Kind::Read => Row::FailedReads,
        Kind::WriteOld => Row::FailedOld,
        Kind::WriteNew => Row::FailedNew,
        Kind::Sync => Row::FailedSyncs,
    }
}
