// The command that rescues the whole files of a damaged image into a new one.
ghost use Rattle.std.specs.Prelude.{◌≡◌, false, IfErr, IfOk, OnOk};
ghost use Rattle.blocks.specs.Calls.{OnlyReads};
ghost use Rattle.cmd.specs.Lemmas.Disks.{file_disk};
ghost use Rattle.cmd.specs.Opened.{IsOpened};
ghost use Rattle.commands_changes.specs.Rescues.{
  HasFilledRescue,
  HasRescued,
  IsFilledRescue,
  IsUnfilledRescue,
  IsUnmadeRescue,
  OnRescueRefusal,
};
ghost use Rattle.transfer.specs.Rescues.{IsUnopened};

use crate::refused::CopyRefusal;
use crate::targets::{Target, ensure_free, hold, mode_of, zeroes_in};
use blocks::{Block, Disk, FileDisk};
use cmd::{Access, Command, Locking, Locks, open_for};
use commands::{Holder, remove_refused, sync_folder};
use messages::{Meter, print_rescued};
use offline::Recovered;
use std::alloc::Global;
use std::fs::OpenFile;
use std::io::{Read, Seek, Write};
use std::rt::Files;
use transfer::{CopyFault, Rescued, rescue};

/// Copies the clean files of the image in the file at the path `old` into a new image of as many
/// blocks, in a new file, as `transfer::rescue`, and prints the numbers of these and of those left out.
///
/// It is refused as `Copy` is, but that of the old image only superblock and log have to be lawful. With
/// a fault of these no file was made.
#[derive(Drop)]
pub struct Rescue<'a, P, H> {
    /// The path of the old image.
    pub old: &'a str,
    /// How its lock is taken.
    pub locking: Locking,
    /// Where the new one is made.
    pub target: Target<'a, P, H>,
}

impl<'a, R: Locks + AllocGlobal, P: Meter + Drop, H: Holder<R::File> + Drop> Command<R>
    for Rescue<'a, P, H> {
    type Refusal = CopyRefusal;

    ghost done = { λ rescue. HasRescued R.File.remaining file_disk rescue.target.sync };

    ghost refused = { λ rescue old new.
        OnRescueRefusal R.File.remaining file_disk rescue.target.sync };

    fn run<O: Write>(self, rt: &R, out: &mut O) -> Result<(), CopyRefusal> {
        let mut target = self.target;
        rescue_files(rt, self.old, self.locking, &mut target, out)
    }
}

fn rescue_files<'a, R: Locks + AllocGlobal, O: Write, P: Meter, H: Holder<R::File>>(
    rt: &R,
    old: &str,
    locking: Locking,
    target: &mut Target<'a, P, H>,
    out: &mut O,
) -> Result<(), CopyRefusal>
    ensures rescued { OnOk result (HasRescued R.File.remaining file_disk target.old.sync
        (O.contents out.old) (O.contents out.new)) }
    ensures refused { IfErr result
        (OnRescueRefusal R.File.remaining file_disk target.old.sync (out.new ≡ out.old)) }
{
    ensure_free(rt, target.path, locking)?;
    let mut disk = open_for(rt, old, Access::Look(locking))?;
    let mode = mode_of(rt, old)?;
    rescue_from(rt, &mut disk, mode, target, out)
}

// Rescues the files of the image on a disk that was opened into a new file. The disk is lent, so that
// the proof doesn't repeat its type at each exit.
fn rescue_from<'a, R: Files + AllocGlobal, O: Write, P: Meter, H: Holder<R::File>>(
    rt: &R,
    disk: &mut FileDisk<R::File>,
    mode: u32,
    target: &mut Target<'a, P, H>,
    out: &mut O,
) -> Result<(), CopyRefusal>
    requires { IsOpened R.File.remaining file_disk false disk.old }
    ensures rescued { OnOk result (HasRescued R.File.remaining file_disk target.old.sync
        (O.contents out.old) (O.contents out.new)) }
    ensures refused { IfErr result
        (OnRescueRefusal R.File.remaining file_disk target.old.sync (out.new ≡ out.old)) }
{
    plan_rescue(rt.alloc(), disk)?;
    let file = hold(target, mode)?;
    let rescued = fill_file(rt, disk, &file, target);
    remove_refused(rt, target.path, &file, &rescued);
    let told = rescued?;
    match print_rescued(out, told.clean.as_slice(), told.left.as_slice()) {
        Ok(()) => Ok(()),
        Err(_) => Err(CopyRefusal::Output),
    }
}

// Rescues the files of the image on a disk into the file, which is held, and syncs its folder where that
// is asked for.
fn fill_file<'a, R: Files + AllocGlobal, P: Meter, H>(
    rt: &R,
    disk: &mut FileDisk<R::File>,
    file: &R::File,
    target: &mut Target<'a, P, H>,
) -> Result<Rescued, CopyRefusal>
    ensures filled { IfOk result (HasFilledRescue file_disk target.old.sync disk.old) }
    ensures refused { IfErr result (IsUnmadeRescue file_disk disk.old disk.new) }
{
    let path = target.path;
    let sync = target.sync;
    match fill_disk(rt.alloc(), disk, file, target) {
        Ok(told) => match sync_folder(rt, path, sync) {
            Ok(()) => Ok(told),
            Err(fault) => Err(CopyRefusal::File(fault)),
        },
        Err(refusal) => Err(refusal),
    }
}

// Rescues the files of the image on a disk into the file, which is held.
fn fill_disk<'a, F: Read + Write + Seek + OpenFile + Drop, P: Meter, H>(
    alloc: Global,
    disk: &mut FileDisk<F>,
    file: &F,
    target: &mut Target<'a, P, H>,
) -> Result<Rescued, CopyRefusal>
    ensures filled { IfOk result (HasFilledRescue file_disk target.old.sync disk.old) }
    ensures refused { IfErr result (IsUnmadeRescue file_disk disk.old disk.new) }
{
    match zeroes_in(alloc, file, disk.size()) {
        Ok(new) => match fill(alloc, disk, new, target.sync, &mut target.progress) {
            Ok(told) => Ok(told),
            Err(fault) => Err(CopyRefusal::Of(fault)),
        },
        Err(fault) => Err(CopyRefusal::File(fault)),
    }
}

// Rescues the files of the image on a disk to another, which nobody keeps.
fn fill<D: Disk, E: Disk + Drop, P: Meter>(
    alloc: Global,
    old: &mut D,
    new: E,
    sync: bool,
    progress: &mut P,
) -> Result<Rescued, CopyFault>
    ensures filled { IfOk result (IsFilledRescue D.Disk E.Disk sync old.old new) }
    ensures refused { IfErr result (IsUnfilledRescue D.Disk E.Disk old.old old.new new) }
{
    match rescue(alloc, old, new, sync, progress) {
        Ok((told, _made)) => Ok(told),
        Err((fault, _made)) => Err(fault),
    }
}

// Judges superblock and log of a disk's image.
fn plan_rescue<D: Disk>(alloc: Global, disk: &mut D) -> Result<(), CopyFault>
    ensures refused { IfErr result (IsUnopened D.Disk disk.old disk.new) }
    ensures reads { OnlyReads D.Disk disk.old disk.new }
{
    let mut block = Block::zeroed(alloc)?;
    match Recovered::open(disk, &mut block) {
        Ok(_image) => Ok(()),
        Err(fault) => Err(CopyFault::Old(fault)),
    }
}
