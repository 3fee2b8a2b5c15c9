// The command that copies an image into a new one.
ghost use Rattle.std.specs.Prelude.{◌≡◌, false, IfErr, IfOk, OnOk};
ghost use Rattle.blocks.specs.Calls.{OnlyReads};
ghost use Rattle.cmd.specs.Lemmas.Disks.{file_disk};
ghost use Rattle.cmd.specs.Opened.{IsOpened};
ghost use Rattle.commands_changes.specs.Copies.{
  HasCopied,
  HasFilled,
  IsFilled,
  IsPlanned,
  IsUnfilled,
  IsUnmade,
  IsUnplanned,
  OnCopyRefusal,
};

use crate::refused::CopyRefusal;
use crate::targets::{Target, ensure_free, hold, mode_of, zeroes_in};
use blocks::{Disk, FileDisk};
use cmd::{Access, Command, Locking, Locks, open_for};
use commands::{Holder, remove_refused, sync_folder};
use layout::plan;
use messages::{Meter, print_files};
use model::types::Form;
use offline::check;
use std::alloc::Global;
use std::fs::OpenFile;
use std::io::{Read, Seek, Write};
use std::rt::Files;
use transfer::{CopyFault, copy};

/// Copies the image in the file at the path `old` into a new file, as `transfer::copy`, and prints how
/// many files it has. The new image has `size` blocks, as many as the old one where none is given.
///
/// It is refused for the first of these. `Exists` where something is at the target's path; `File`
/// with a fault of `open_for` over the old one; `Of` with `Old` and a fault of the old image,
/// with `NotFirst`, or with `Mkfs` and `SizeRange`: with these no file was made. A fault of
/// `Holder::hold_new`, where `Exists` and `Locked` are told as above; one of `FileDisk::zeroed`, and then
/// `Of` with one of the copy, or `File` where its folder can't be synced: by its code the new file is
/// taken away. `Output`, and then it stays. Who may use the old file may use the new one, and nobody
/// else.
#[derive(Drop)]
pub struct Copy<'a, P, H> {
    /// The path of the old image.
    pub old: &'a str,
    /// How its lock is taken.
    pub locking: Locking,
    /// How many blocks the new one has.
    pub size: Option<u32>,
    /// Where it is made.
    pub target: Target<'a, P, H>,
}

impl<'a, R: Locks + AllocGlobal, P: Meter + Drop, H: Holder<R::File> + Drop> Command<R>
    for Copy<'a, P, H> {
    type Refusal = CopyRefusal;

    ghost done = { λ copy. HasCopied R.File.remaining file_disk copy.size copy.target.sync };

    ghost refused = { λ copy old new.
        OnCopyRefusal R.File.remaining file_disk copy.size copy.target.sync };

    fn run<O: Write>(self, rt: &R, out: &mut O) -> Result<(), CopyRefusal> {
        let mut target = self.target;
        copy_files(rt, self.old, self.locking, self.size, &mut target, out)
    }
}

fn copy_files<'a, R: Locks + AllocGlobal, O: Write, P: Meter, H: Holder<R::File>>(
    rt: &R,
    old: &str,
    locking: Locking,
    size: Option<u32>,
    target: &mut Target<'a, P, H>,
    out: &mut O,
) -> Result<(), CopyRefusal>
    ensures copied { OnOk result (HasCopied R.File.remaining file_disk size target.old.sync
        (O.contents out.old) (O.contents out.new)) }
    ensures refused { IfErr result
        (OnCopyRefusal R.File.remaining file_disk size target.old.sync (out.new ≡ out.old)) }
{
    ensure_free(rt, target.path, locking)?;
    let mut disk = open_for(rt, old, Access::Look(locking))?;
    let mode = mode_of(rt, old)?;
    copy_from(rt, &mut disk, mode, size, target, out)
}

// Copies the image on a disk that was opened into a new file. The disk is lent, so that the proof
// doesn't repeat its type at each exit.
fn copy_from<'a, R: Files + AllocGlobal, O: Write, P: Meter, H: Holder<R::File>>(
    rt: &R,
    disk: &mut FileDisk<R::File>,
    mode: u32,
    size: Option<u32>,
    target: &mut Target<'a, P, H>,
    out: &mut O,
) -> Result<(), CopyRefusal>
    requires { IsOpened R.File.remaining file_disk false disk.old }
    ensures copied { OnOk result (HasCopied R.File.remaining file_disk size target.old.sync
        (O.contents out.old) (O.contents out.new)) }
    ensures refused { IfErr result
        (OnCopyRefusal R.File.remaining file_disk size target.old.sync (out.new ≡ out.old)) }
{
    let size = plan_copy(rt.alloc(), disk, size)?;
    let file = hold(target, mode)?;
    let copied = fill_file(rt, disk, size, &file, target);
    remove_refused(rt, target.path, &file, &copied);
    let files = copied?;
    match print_files(out, files) {
        Ok(()) => Ok(()),
        Err(_) => Err(CopyRefusal::Output),
    }
}

// Copies the image on a disk into the file, which is held, with so many blocks, and syncs its folder
// where that is asked for. How many files it has.
fn fill_file<'a, R: Files + AllocGlobal, P: Meter, H>(
    rt: &R,
    disk: &mut FileDisk<R::File>,
    size: u32,
    file: &R::File,
    target: &mut Target<'a, P, H>,
) -> Result<u32, CopyRefusal>
    ensures filled { IfOk result (HasFilled file_disk size target.old.sync disk.old) }
    ensures refused { IfErr result (IsUnmade file_disk size disk.old disk.new) }
{
    let path = target.path;
    let sync = target.sync;
    match fill_disk(rt.alloc(), disk, size, file, target) {
        Ok(files) => match sync_folder(rt, path, sync) {
            Ok(()) => Ok(files),
            Err(fault) => Err(CopyRefusal::File(fault)),
        },
        Err(refusal) => Err(refusal),
    }
}

// Copies the image on a disk into the file, which is held, with so many blocks. How many files it has.
fn fill_disk<'a, F: Read + Write + Seek + OpenFile + Drop, P: Meter, H>(
    alloc: Global,
    disk: &mut FileDisk<F>,
    size: u32,
    file: &F,
    target: &mut Target<'a, P, H>,
) -> Result<u32, CopyRefusal>
    ensures filled { IfOk result (HasFilled file_disk size target.old.sync disk.old) }
    ensures refused { IfErr result (IsUnmade file_disk size disk.old disk.new) }
{
    match zeroes_in(alloc, file, size) {
        Ok(new) => match fill(alloc, disk, new, size, target.sync, &mut target.progress) {
            Ok(files) => Ok(files),
            Err(fault) => Err(CopyRefusal::Of(fault)),
        },
        Err(fault) => Err(CopyRefusal::File(fault)),
    }
}

// Copies the image on a disk to another, which nobody keeps. How many files it has.
fn fill<D: Disk, E: Disk + Drop, P: Meter>(
    alloc: Global,
    old: &mut D,
    new: E,
    size: u32,
    sync: bool,
    progress: &mut P,
) -> Result<u32, CopyFault>
    ensures filled { IfOk result (IsFilled D.Disk E.Disk size sync old.old new) }
    ensures refused { IfErr result (IsUnfilled D.Disk E.Disk size old.old old.new new) }
{
    match copy(alloc, old, new, size, sync, progress) {
        Ok((files, _made)) => Ok(files),
        Err((fault, _made)) => Err(fault),
    }
}

// How many blocks a copy of a disk's image has, where one can be made.
fn plan_copy<D: Disk>(alloc: Global, disk: &mut D, size: Option<u32>) -> Result<u32, CopyFault>
    ensures planned { IfOk result (IsPlanned D.Disk size disk.old) }
    ensures refused { IfErr result (IsUnplanned D.Disk size disk.old disk.new) }
    ensures reads { OnlyReads D.Disk disk.old disk.new }
{
    let report = check(alloc, disk).map_err(CopyFault::Old)?;
    let Form::One = report.form else {
        return Err(CopyFault::NotFirst);
    };
    let size = match size {
        Some(size) => size,
        None => report.sup.size,
    };
    match plan(size, report.sup.ninodes) {
        Ok(_planned) => Ok(size),
        Err(fault) => Err(CopyFault::Mkfs(fault)),
    }
}
