// Scripts over a disk that holds writes back: stops that lose some of these, and each sync failing.
use crate::chance::Chance;
use crate::ground::Ground;
use crate::judging::{Due, judge_disk};
use crate::playing::{
    Failure, MOST_TURNS, Outcome, Over, journal_of, open, opened, run, take_turn,
};
use crate::script::Script;
use crate::setting::Setting;
use crate::tally::{Row, Tally};
use crate::wrong::{Part, What, Wrong};
use blocks::{Kind, MemDisk, SyncDisk};
use kernel::OpenFault;
use model::types::Entry;
use offline::check;
use std::alloc::Global;
use wal::RecoverFault;

// A stop is tried at one in so many turns.
const STOPS: u32 = 40;

// More syncs than any of the scripts makes.
const MOST_SYNCS: u64 = 100_000;

/// Stops a script at random turns, and loses random ones of the writes that are held then; and makes
/// each sync of it fail in turn, those of the opening too.
pub fn lose_some(alloc: Global, ground: &Ground, tally: &mut Tally) -> Result<(), Wrong> {
    let mut chance = Chance::new(ground.seed, 4);
    stop_at_turns(alloc, ground, &mut chance, tally)?;
    if let Err(what) = refuse_opening(alloc, ground) {
        return Err(what.at(Part::Sync, 1));
    }
    for nth in 2..MOST_SYNCS {
        if !ground.fails(nth) {
            continue;
        }
        match fail_sync(alloc, ground, nth, &mut chance, tally) {
            Ok(true) => {}
            Ok(false) => {
                tally.add(Row::Scripts, 1);
                return Ok(());
            }
            Err(what) => return Err(what.at(Part::Sync, nth)),
        }
    }
    Err(What::NoEnd.at(Part::Sync, MOST_SYNCS))
}

// A disk that holds writes back, with the image of a ground.
fn held_image(alloc: Global, ground: &Ground) -> Result<SyncDisk, What> {
    let disk = ground.disk(alloc)?;
    Ok(SyncDisk::new(alloc, disk)?)
}

// Each held write gets through or is lost.
fn choice(chance: &mut Chance) -> [bool; 64] {
    let mut keep = [false; 64];
    for is_kept in keep.iter_mut() {
        *is_kept = chance.is_one_in(2);
    }
    keep
}

fn stop_at_turns(
    alloc: Global,
    ground: &Ground,
    chance: &mut Chance,
    tally: &mut Tally,
) -> Result<(), Wrong> {
    let disk = match held_image(alloc, ground) {
        Ok(disk) => disk,
        Err(what) => return Err(what.at(Part::Turn, 0)),
    };
    match open(alloc, disk, ground.setting.processes) {
        Ok(mut kernel) => take_turns(alloc, &mut kernel, ground, chance, tally),
        Err((fault, _disk)) => Err(What::Opening(fault).at(Part::Turn, 0)),
    }
}

fn take_turns(
    alloc: Global,
    kernel: &mut Over<SyncDisk>,
    ground: &Ground,
    chance: &mut Chance,
    tally: &mut Tally,
) -> Result<(), Wrong> {
    let mut script = ground.script();
    for turn in 0..MOST_TURNS {
        match take_and_stop(alloc, kernel, &mut script, ground, chance, tally) {
            Ok(true) => {}
            Ok(false) => return Ok(()),
            Err(what) => return Err(what.at(Part::Turn, turn as u64)),
        }
    }
    Err(What::NoEnd.at(Part::Turn, MOST_TURNS as u64))
}

// Makes a turn, if the script has one more, and judges a stop behind it, if one is tried there.
// Whether it has one more.
fn take_and_stop(
    alloc: Global,
    kernel: &mut Over<SyncDisk>,
    script: &mut Script,
    ground: &Ground,
    chance: &mut Chance,
    tally: &mut Tally,
) -> Result<bool, What> {
    if script.is_over() {
        let is_whole = kernel.committed() == kernel.opened();
        return if is_whole {
            Ok(false)
        } else {
            Err(What::GroupOpen)
        };
    }
    take_turn(alloc, kernel, script, &mut Tally::new())?;
    if kernel.fault().is_some() {
        return Err(What::DiskFailed);
    }
    if stops_here(kernel.disk(), ground.setting, chance) {
        judge_stop(alloc, kernel, ground, &choice(chance), tally)?;
    }
    Ok(true)
}

// Whether a stop is tried behind a turn that left the disk so.
fn stops_here(disk: &SyncDisk, setting: Setting, chance: &mut Chance) -> bool {
    if chance.is_one_in(STOPS) {
        return true;
    }
    disk.held() > 0 && (setting.each == 1 || chance.is_one_in(setting.each))
}

// Judges what a stop leaves with these of the held writes.
fn judge_stop(
    alloc: Global,
    kernel: &Over<SyncDisk>,
    ground: &Ground,
    keep: &[bool; 64],
    tally: &mut Tally,
) -> Result<(), What> {
    let mut left = lose(kernel.disk(), keep, tally)?;
    // Only a header whose sync is still to come is in front of what is committed.
    let is_open = kernel.committed() < kernel.opened();
    let is_more = is_one_more(alloc, &mut left, is_open);
    let mut due = Due::new(alloc);
    due.groups = kernel.committed();
    let is_more = judge_more(alloc, journal_of(kernel)?, ground, is_more, &mut due);
    judge_left(alloc, left, is_more, &due, tally)?;
    tally.add(Row::Stops, 1);
    Ok(())
}

// Judges a journal, for the files after the groups that are due, or after one more.
fn judge_more(
    alloc: Global,
    journal: &[Entry],
    ground: &Ground,
    is_more: Result<bool, What>,
    due: &mut Due,
) -> Result<bool, What> {
    let is_more = is_more?;
    due.groups = due.groups.saturating_add(is_more as u64);
    due.judge(alloc, journal, ground, true)?;
    Ok(is_more)
}

// The image that a stop leaves of a disk with some of the held writes.
fn lose(disk: &SyncDisk, keep: &[bool; 64], tally: &mut Tally) -> Result<MemDisk, What> {
    let keep = &keep[..disk.held()];
    for is_kept in keep {
        tally.add(if *is_kept { Row::Through } else { Row::Lost }, 1);
    }
    Ok(disk.left(keep)?)
}

// Whether the image's log has the header of a group that is open.
fn is_one_more(alloc: Global, left: &mut MemDisk, is_open: bool) -> Result<bool, What> {
    Ok(check(alloc, left)?.logged > 0 && is_open)
}

// Judges such an image, which has one group more or hasn't.
fn judge_left(
    alloc: Global,
    left: MemDisk,
    is_more: Result<bool, What>,
    due: &Due,
    tally: &mut Tally,
) -> Result<(), What> {
    match is_more {
        Ok(is_more) => {
            tally.keep(due.groups, due.operations);
            tally.add(Row::GroupsMore, is_more as u64);
            judge_disk(alloc, left, &due.files)
        }
        Err(what) => Err(what),
    }
}

// The first sync fails: the opening is refused.
fn refuse_opening(alloc: Global, ground: &Ground) -> Result<(), What> {
    let (kind, nth) = (Kind::Sync, 1);
    let disk = held_image(alloc, ground)?;
    let (fault, _disk) = opened(alloc, disk, Failure { kind, nth }, ground.setting.processes);
    match fault {
        None => Err(What::IsOpened),
        Some(OpenFault::Recover(RecoverFault::Sync)) => Ok(()),
        Some(fault) => Err(What::Opening(fault)),
    }
}

// Makes the sync of this number fail, and loses all held writes, none, and random ones. Whether the
// script has so many syncs.
fn fail_sync(
    alloc: Global,
    ground: &Ground,
    nth: u64,
    chance: &mut Chance,
    tally: &mut Tally,
) -> Result<bool, What> {
    let kind = Kind::Sync;
    let disk = held_image(alloc, ground)?;
    let mut outcome = Outcome::new(alloc);
    let unseen = &mut Tally::new();
    let disk = run(
        alloc,
        disk,
        ground,
        Failure { kind, nth },
        unseen,
        &mut outcome,
    );
    judge_losses(alloc, &disk, &outcome, chance, tally)
}

fn judge_losses(
    alloc: Global,
    disk: &SyncDisk,
    outcome: &Outcome,
    chance: &mut Chance,
    tally: &mut Tally,
) -> Result<bool, What> {
    outcome.done?;
    if !outcome.has_failed {
        return Ok(false);
    }
    judge_loss(alloc, disk, outcome, &[false; 64], tally)?;
    judge_loss(alloc, disk, outcome, &[true; 64], tally)?;
    judge_loss(alloc, disk, outcome, &choice(chance), tally)?;
    tally.add(Row::FailedSyncs, 1);
    Ok(true)
}

// Judges what is left with these of the held writes, behind a sync that failed.
fn judge_loss(
    alloc: Global,
    disk: &SyncDisk,
    outcome: &Outcome,
    keep: &[bool; 64],
    tally: &mut Tally,
) -> Result<(), What> {
    let mut left = lose(disk, keep, tally)?;
    let is_more = is_one_more(alloc, &mut left, outcome.is_open);
    let due = match is_more {
        Ok(true) => &outcome.more,
        _ => &outcome.due,
    };
    judge_left(alloc, left, is_more, due, tally)
}
