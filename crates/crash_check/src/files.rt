// The files that a run has to leave, by a plain replay, and whether an image has them.
ghost use Rattle.std.specs.Prelude.{◌≡◌, ◌↔◌, IfNone, IfOk, IfSome, IsTrue, None, option_map, replicate};
ghost use Rattle.model.specs.Log.{recovered};
ghost use Rattle.crash_check.specs.Images.{HasFiles, kept_files};
ghost use Rattle.crash_check.specs.Mismatches.{DifferFirst, LacksFiles};

use crate::images::{INODES, recovered_files};
use crate::mismatch::Cause;
use blocks::{Disk, MemDisk, NoMemory};
use model::types::{Entry, File, Form};
use reference::files::Files;
use reference::journal::replay_kept;
use std::alloc::Global;

/// The files after the operations of the committed groups, by a plain program that begins with the
/// files of a new image; None where one of them can't have the reply that the journal has.
pub fn kept_files(
    alloc: Global,
    entries: &[Entry],
    committed: u64,
) -> Result<Option<Files>, NoMemory>
    ensures { IfOk result (λ files. option_map (λ f. f.items) files
        ≡ kept_files entries.now committed) }
{
    let mut files = no_files(alloc)?;
    if replay_kept(alloc, Form::One, &mut files, INODES, entries, committed)? {
        Ok(Some(files))
    } else {
        Ok(None)
    }
}

fn no_files(alloc: Global) -> Result<Files, NoMemory>
    ensures { IfOk result (λ files. files.items ≡ replicate 16 None) }
{
    let mut files = Vec::new(alloc);
    for _number in 0..INODES {
        files.push(None)?;
    }
    Ok(files)
}

/// What keeps the image of a disk from having these files once it is recovered; None where it has
/// them. It is left recovered then.
pub fn cause_in(
    alloc: Global,
    disk: &mut MemDisk,
    files: Option<Files>,
) -> Result<Option<Cause>, NoMemory>
    ensures has { IfOk result (λ cause. IfNone cause
        (HasFiles (⟦<MemDisk as Disk>⟧.image disk.old) (option_map (λ f. f.items) files))) }
    ensures lacks { IfOk result (λ cause. IfSome cause
        (LacksFiles (⟦<MemDisk as Disk>⟧.image disk.old) (option_map (λ f. f.items) files))) }
    ensures left { IfOk result (λ cause. IfNone cause
        (⟦<MemDisk as Disk>⟧.image disk.new ≡ recovered (⟦<MemDisk as Disk>⟧.image disk.old))) }
{
    let Some(files) = files else {
        return Ok(Some(Cause::Undue));
    };
    match recovered_files(alloc, disk)? {
        Some((_logged, found)) => {
            Ok(first_difference(found.as_slice(), files.as_slice()).map(Cause::File))
        }
        None => Ok(Some(Cause::Unrecovered)),
    }
}

/// The first number whose file is another in `b` than in `a`, if there is one.
pub fn first_difference(a: &[Option<File>], b: &[Option<File>]) -> Option<usize>
    ensures none { IfNone result (a.now ≡ b.now) }
    ensures some { IfSome result (DifferFirst a.now b.now) }
{
    for k in 0..a.len() {
        if k >= b.len() || !is_same_file(&a[k], &b[k]) {
            return Some(k);
        }
    }
    if a.len() < b.len() {
        Some(a.len())
    } else {
        None
    }
}

fn is_same_file(a: &Option<File>, b: &Option<File>) -> bool
    ensures { IsTrue result ↔ (a.now ≡ b.now) }
{
    match (a, b) {
        (Some(a), Some(b)) => {
            a.kind == b.kind && a.links == b.links && a.bytes.as_slice() == b.bytes.as_slice()
        }
        (None, None) => true,
        _ => false,
    }
}
