// Scripts that are stopped before their writes.
use crate::chance::Chance;
use crate::ground::Ground;
use crate::judging::{Left, judge_run};
use crate::playing::{Failure, Outcome, run};
use crate::tally::{Row, Tally};
use crate::wrong::{Part, What, Wrong};
use std::alloc::Global;

/// Makes the run of a script, in which a call of the disk may fail, and judges what it leaves: the
/// files after the committed groups, and after one group more where the write failed that commits
/// it, but left its block as it was handed in.
pub fn try_run(
    alloc: Global,
    ground: &Ground,
    failure: Failure,
    tally: &mut Tally,
) -> Result<Left, What> {
    let disk = ground.disk(alloc)?;
    let mut outcome = Outcome::new(alloc);
    let disk = run(alloc, disk, ground, failure, tally, &mut outcome);
    judge_run(alloc, disk, &outcome)
}

/// Runs a script to its end, and up to some of its writes.
pub fn stop_some(alloc: Global, ground: &Ground, tally: &mut Tally) -> Result<(), Wrong> {
    let writes = match run_whole(alloc, ground, tally) {
        Ok(writes) => writes,
        Err(what) => return Err(what.at(Part::Whole, 0)),
    };
    let mut chance = Chance::new(ground.seed, 3);
    let stops = ground.setting.stops;
    for k in 0..writes.min(stops) {
        let stop = if writes <= stops {
            k.saturating_add(1)
        } else {
            1 + chance.below(writes.clamp(1, 0xffff_ffff) as u32) as u64
        };
        if let Err(what) = stop_at(alloc, ground, stop, tally) {
            return Err(what.at(Part::Stop, stop));
        }
    }
    Ok(())
}

// Runs a script to its end, and answers how many writes it made.
fn run_whole(alloc: Global, ground: &Ground, tally: &mut Tally) -> Result<u64, What> {
    let whole = try_run(alloc, ground, Failure::none(), tally)?;
    if whole.has_failed {
        return Err(What::DiskFailed);
    }
    tally.add(Row::Scripts, 1);
    tally.add(Row::Processes, ground.setting.processes as u64);
    tally.add(Row::Groups, whole.committed);
    tally.add(Row::BlocksWritten, whole.writes);
    Ok(whole.writes)
}

// Runs a script up to the write of this number.
fn stop_at(alloc: Global, ground: &Ground, stop: u64, tally: &mut Tally) -> Result<(), What> {
    let left = try_run(alloc, ground, Failure::stop(stop), &mut Tally::new())?;
    if !left.has_failed {
        return Err(What::DiskDidNotFail);
    }
    tally.add(Row::Stops, 1);
    tally.keep(left.committed, left.kept);
    Ok(())
}
