// What a run left, against the plain program.
use crate::ground::Ground;
use crate::playing::{Failure, Outcome, opened};
use crate::reading::{blocks_of, if_done};
use crate::wrong::What;
use blocks::{MemDisk, NoMemory};
use model::types::{CheckFault, Entry, File};
use offline::check;
use reference::files::Files;
use reference::journal::{is_kept, replay_answered, replay_kept};
use reference::report::files_after_recovery;
use std::alloc::Global;

/// What the groups of a run that are kept have to leave.
#[derive(Drop)]
pub struct Due {
    pub groups: u64,
    /// How many operations they keep, and the files after these.
    pub operations: u64,
    pub files: Files,
}

impl Due {
    /// That of no run.
    pub fn new(alloc: Global) -> Due {
        Due {
            groups: 0,
            operations: 0,
            files: Vec::new(alloc),
        }
    }

    /// Whether the replies of a journal are right at their places; all are known unless the disk
    /// failed. Notes what the groups leave, where the files before them are those of the ground.
    pub fn judge(
        &mut self,
        alloc: Global,
        journal: &[Entry],
        ground: &Ground,
        has_failed: bool,
    ) -> Result<(), What> {
        self.operations = count_kept(journal, ground, self.groups, has_failed)?;
        judge_answered(alloc, journal, ground)?;
        self.files = files_after(alloc, journal, ground, self.groups)?;
        Ok(())
    }
}

fn count_kept(
    journal: &[Entry],
    ground: &Ground,
    groups: u64,
    has_failed: bool,
) -> Result<u64, What> {
    let mut kept: u64 = 0;
    for entry in journal {
        if !has_failed && entry.reply.is_none() {
            return Err(What::NoReply);
        }
        if is_kept(ground.setting.inode_count, entry, groups) {
            kept = kept.saturating_add(1);
        }
    }
    Ok(kept)
}

fn judge_answered(alloc: Global, journal: &[Entry], ground: &Ground) -> Result<(), What> {
    let mut files = ground.copied_files(alloc)?;
    let form = ground.setting.form;
    if_right(
        replay_answered(alloc, form, &mut files, journal),
        What::WrongReply,
    )
}

fn files_after(
    alloc: Global,
    journal: &[Entry],
    ground: &Ground,
    groups: u64,
) -> Result<Files, What> {
    let mut files = ground.copied_files(alloc)?;
    let (form, count) = (ground.setting.form, ground.setting.inode_count);
    let is_right = replay_kept(alloc, form, &mut files, count, journal, groups);
    if_done(if_right(is_right, What::WrongKeptReply), files)
}

fn if_right(is_right: Result<bool, NoMemory>, what: What) -> Result<(), What> {
    if is_right? { Ok(()) } else { Err(what) }
}

/// What a run came to that was right.
#[derive(Clone, Copy)]
pub struct Left {
    /// Whether a call of the disk failed, and whether it was a write that committed a group.
    pub has_failed: bool,
    pub is_committed: bool,
    pub writes: u64,
    /// The committed groups, and how many operations these keep.
    pub committed: u64,
    pub kept: u64,
}

/// Judges a run and the disk that it left.
pub fn judge_run(alloc: Global, disk: MemDisk, outcome: &Outcome) -> Result<Left, What> {
    outcome.done?;
    judge_disk(alloc, disk, &outcome.due.files)?;
    Ok(Left {
        has_failed: outcome.has_failed,
        is_committed: outcome.is_committed,
        writes: outcome.writes,
        committed: outcome.due.groups,
        kept: outcome.due.operations,
    })
}

/// Whether a disk has these files once a kernel was opened over it, which recovers its image.
pub fn judge_disk(alloc: Global, disk: MemDisk, files: &[Option<File>]) -> Result<(), What> {
    let (fault, mut disk) = opened(alloc, disk, Failure::none(), 1);
    match fault {
        None => judge_image(alloc, &mut disk, files),
        Some(fault) => Err(What::Opening(fault)),
    }
}

// Whether the image of a disk is sound, with an empty log, and has these files.
fn judge_image(alloc: Global, disk: &mut MemDisk, files: &[Option<File>]) -> Result<(), What> {
    if check(alloc, disk)?.logged > 0 {
        return Err(What::LogLeft);
    }
    let image = blocks_of::<What>(alloc, disk)?;
    judge_files(files_after_recovery(alloc, &image), files)
}

fn judge_files(found: Result<Files, CheckFault>, files: &[Option<File>]) -> Result<(), What> {
    if are_same_files(&found?, files) {
        Ok(())
    } else {
        Err(What::OtherFiles)
    }
}

fn are_same_files(a: &[Option<File>], b: &[Option<File>]) -> bool {
    a.len() == b.len() && a.iter().zip(b).all(|(a, b)| is_same_file(a, b))
}

fn is_same_file(a: &Option<File>, b: &Option<File>) -> bool {
    match (a, b) {
        (Some(a), Some(b)) => {
            a.kind == b.kind && a.links == b.links && a.bytes.as_slice() == b.bytes.as_slice()
        }
        (None, None) => true,
        _ => false,
    }
}
