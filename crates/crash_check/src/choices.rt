// The images that a stop may leave of a disk that holds writes back, one for each choice of what
// gets through.
ghost use Rattle.std.specs.Prelude.{◌≡◌, ◌≤◌, ◌+◌, ◌-◌, ◌^◌, ℕ, IfErr, IfNone, IfOk, IfSome, OnOk, length, take};
ghost use Rattle.blocks.specs.SyncDisk.{held_of};
ghost use Rattle.crash_check.specs.Choices.{HasAllDue, HasDue, HasRestDue, LacksDue, LacksDueBy, LacksSome, beginning, choice_count, due_of};
ghost use Rattle.crash_check.specs.Images.{HasFiles};
ghost use Rattle.crash_check.specs.Mismatches.{LacksFiles, OnMismatch};

use crate::fault::StopsFault;
use crate::files::first_difference;
use crate::images::recovered_files;
use crate::mismatch::{Cause, Choice, Mismatch, bits_of};
use blocks::{Disk, MemDisk, NoMemory, SyncDisk};
use reference::files::Files;
use std::alloc::Global;

// Of so many held writes each choice is tried; of more the first that get through, alone.
const MOST_CHOSEN: usize = 6;

/// The files that the images of a run have to have, None where no files can be those.
#[derive(Drop)]
pub struct Due {
    /// Those of the committed groups.
    pub committed: Option<Files>,
    /// Those of all groups that were opened, where the image's own header logs something.
    pub opened: Option<Files>,
}

/// Whether each image that a stop may leave of a disk has the files that are due: how many images
/// these are.
///
/// # Errors
///
/// `Mismatch` where one has other files, or can't be recovered: it tells by which choice, and the
/// first file that differs. Where the run was stopped is for the caller to say. `NoMemory`.
pub fn try_choices(alloc: Global, disk: &SyncDisk, due: &Due) -> Result<u64, StopsFault>
    ensures all { OnOk result (HasAllDue disk.now due.now) }
    ensures count { IfOk result (λ images. images ≡ choice_count (length (held_of disk.now))) }
    ensures lost { IfErr result (λ f. OnMismatch f (LacksDue disk.now due.now)) }
{
    let held = disk.held();
    let mut keep = [false; 64];
    if held > MOST_CHOSEN {
        try_beginnings(alloc, disk, due, &mut keep[..held])
    } else {
        try_rest(alloc, disk, due, &mut keep[..held], 0)
    }
}

// Tries the first of the held writes, and then one more each time.
fn try_beginnings(
    alloc: Global,
    disk: &SyncDisk,
    due: &Due,
    keep: &mut [bool],
) -> Result<u64, StopsFault>
    requires size { length keep.old ≡ length (held_of disk.now) }
    requires none { keep.old ≡ beginning (length keep.old) 0 }
    ensures all { OnOk result ((k : ℕ) → HasDue disk.now due.now (beginning (length keep.old) k)) }
    ensures count { IfOk result (λ images. images ≡ length keep.old + 1) }
    ensures lost { IfErr result (λ f. OnMismatch f (λ m. (k : ℕ)
        × LacksDueBy disk.now due.now (beginning (length keep.old) k) m)) }
{
    for kept in 0..keep.len() {
        try_choice(alloc, disk, due, keep)?;
        keep[kept] = true;
    }
    try_choice(alloc, disk, due, keep)?;
    Ok(keep.len() as u64 + 1)
}

// Tries each choice of the held writes from one on, behind a choice of those before it. The number
// of images doubles with each.
fn try_rest(
    alloc: Global,
    disk: &SyncDisk,
    due: &Due,
    keep: &mut [bool],
    from: usize,
) -> Result<u64, StopsFault>
    requires size { length keep.old ≡ length (held_of disk.now) }
    requires few { length keep.old ≤ 6 }
    requires from { from ≤ length keep.old }
    ensures size { length keep.new ≡ length keep.old }
    ensures before { OnOk result (take from keep.new ≡ take from keep.old) }
    ensures all { OnOk result (HasRestDue disk.now due.now from keep.old) }
    ensures count { IfOk result (λ images. images ≡ 2 ^ (length keep.old - from)) }
    ensures lost { IfErr result (λ f. OnMismatch f
        (LacksSome disk.now due.now (length keep.old))) }
{
    if from == keep.len() {
        try_choice(alloc, disk, due, keep)?;
        return Ok(1);
    }
    keep[from] = false;
    let without = try_rest(alloc, disk, due, keep, from + 1)?;
    keep[from] = true;
    let with = try_rest(alloc, disk, due, keep, from + 1)?;
    Ok(without + with)
}

// Whether the image that a choice leaves has the files that are due.
fn try_choice(alloc: Global, disk: &SyncDisk, due: &Due, keep: &[bool]) -> Result<(), StopsFault>
    requires { length keep.now ≡ length (held_of disk.now) }
    ensures has { OnOk result (HasDue disk.now due.now keep.now) }
    ensures lacks { IfErr result (λ f. OnMismatch f (LacksDueBy disk.now due.now keep.now)) }
{
    let mut left = disk.left(keep)?;
    match cause_on(alloc, &mut left, due)? {
        None => Ok(()),
        Some(cause) => Err(StopsFault::Mismatch(Mismatch {
            choice: Some(Choice {
                held: disk.held(),
                kept: bits_of(keep),
            }),
            ..Mismatch::new(cause)
        })),
    }
}

// What keeps an image from having the files that are due by its own header; None where it has them.
fn cause_on(alloc: Global, disk: &mut MemDisk, due: &Due) -> Result<Option<Cause>, NoMemory>
    ensures has { IfOk result (λ cause. IfNone cause (HasFiles (⟦<MemDisk as Disk>⟧.image disk.old)
        (due_of due.now (⟦<MemDisk as Disk>⟧.image disk.old)))) }
    ensures lacks { IfOk result (λ cause. IfSome cause
        (LacksFiles (⟦<MemDisk as Disk>⟧.image disk.old)
        (due_of due.now (⟦<MemDisk as Disk>⟧.image disk.old)))) }
{
    let Some((logged, found)) = recovered_files(alloc, disk)? else {
        return Ok(Some(Cause::Unrecovered));
    };
    let files = if logged == 0 {
        &due.committed
    } else {
        &due.opened
    };
    match files {
        Some(files) => Ok(first_difference(found.as_slice(), files.as_slice()).map(Cause::File)),
        None => Ok(Some(Cause::Undue)),
    }
}
