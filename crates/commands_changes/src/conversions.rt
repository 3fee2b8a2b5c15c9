// The command that makes an image whose log has another length one of this format.
ghost use Rattle.std.specs.Prelude.{◌≡◌, ◌≤◌, false, length, IfErr, IfOk, OnOk};
ghost use Rattle.blocks.specs.FileDisk.{IsZeroed};
ghost use Rattle.cmd.specs.Lemmas.Disks.{file_disk};
ghost use Rattle.cmd.specs.Opened.{IsOpened};
ghost use Rattle.model.specs.Layout.{super_of};
ghost use Rattle.commands_changes.specs.Conversions.{
  HasConverted,
  HasLog,
  HasWrittenAnew,
  IsKept,
  IsNotWrittenAnew,
  IsUnkept,
  IsUnlogged,
  IsUnwrittenTo,
  IsWrittenTo,
  OnConvertRefusal,
  other_log,
};

use crate::refused::CopyRefusal;
use crate::targets::{Target, ensure_free, hold, mode_of, zeroes_in};
use blocks::{Block, Disk, FileDisk, MemDisk};
use cmd::{Access, Command, Locking, Locks, open_for};
use commands::{Holder, remove_refused, sync_folder};
use conversion::{convert, is_log_length, shorten};
use layout::{LOG_BLOCKS, superblock};
use messages::{Meter, print_numbers};
use std::alloc::Global;
use std::fs::OpenFile;
use std::io::{Read, Seek, Write};
use std::rt::Files;
use transfer::{CopyFault, write_image};

/// Makes the image in the file at the path `old`, whose log has another length, one of this format in a
/// new file, as `conversion::convert`, and prints the new one's numbers.
///
/// It is refused as `Copy` is, but that a fault of `convert` stands for those of the old image and of
/// the size; with one no file was made. Who may use the old file may use the new one, and nobody else.
#[derive(Drop)]
pub struct Convert<'a, P, H> {
    /// The path of the old image.
    pub old: &'a str,
    /// How its lock is taken.
    pub locking: Locking,
    /// How many blocks its log has; none for those of this format.
    pub log: Option<u32>,
    /// How many blocks the new one has; none for those of the old one and those that its log gets.
    pub size: Option<u32>,
    /// Where it is made.
    pub target: Target<'a, P, H>,
}

impl<'a, R: Locks + AllocGlobal, P: Meter + Drop, H: Holder<R::File> + Drop> Command<R>
    for Convert<'a, P, H> {
    type Refusal = CopyRefusal;

    ghost done = { λ convert.
        HasConverted R.File.remaining file_disk convert.log convert.size convert.target.sync };

    ghost refused = { λ convert old new.
        OnConvertRefusal R.File.remaining file_disk convert.log convert.size convert.target.sync };

    fn run<O: Write>(self, rt: &R, out: &mut O) -> Result<(), CopyRefusal> {
        let mut target = self.target;
        convert_file(
            rt,
            self.old,
            self.locking,
            self.log,
            self.size,
            &mut target,
            out,
        )
    }
}

fn convert_file<'a, R: Locks + AllocGlobal, O: Write, P: Meter, H: Holder<R::File>>(
    rt: &R,
    old: &str,
    locking: Locking,
    log: Option<u32>,
    size: Option<u32>,
    target: &mut Target<'a, P, H>,
    out: &mut O,
) -> Result<(), CopyRefusal>
    ensures converted { OnOk result (HasConverted R.File.remaining file_disk log size target.old.sync
        (O.contents out.old) (O.contents out.new)) }
    ensures refused { IfErr result
        (OnConvertRefusal R.File.remaining file_disk log size target.old.sync (out.new ≡ out.old)) }
{
    ensure_free(rt, target.path, locking)?;
    let mut disk = open_for(rt, old, Access::Look(locking))?;
    let mode = mode_of(rt, old)?;
    convert_from(rt, &mut disk, mode, log, size, target, out)
}

// Converts the image on a disk that was opened into a new file. The disk is lent, so that the proof
// doesn't repeat its type at each exit.
fn convert_from<'a, R: Files + AllocGlobal, O: Write, P: Meter, H: Holder<R::File>>(
    rt: &R,
    disk: &mut FileDisk<R::File>,
    mode: u32,
    log: Option<u32>,
    size: Option<u32>,
    target: &mut Target<'a, P, H>,
    out: &mut O,
) -> Result<(), CopyRefusal>
    requires { IsOpened R.File.remaining file_disk false disk.old }
    ensures converted { OnOk result (HasConverted R.File.remaining file_disk log size target.old.sync
        (O.contents out.old) (O.contents out.new)) }
    ensures refused { IfErr result
        (OnConvertRefusal R.File.remaining file_disk log size target.old.sync (out.new ≡ out.old)) }
{
    match with_log(rt.alloc(), disk, log, size) {
        Ok(mut memory) => keep(rt, &mut memory, mode, target, out),
        Err(refusal) => Err(refusal),
    }
}

// The image on a disk, in memory, with a log of this length.
fn with_log<D: Disk>(
    alloc: Global,
    disk: &mut D,
    log: Option<u32>,
    size: Option<u32>,
) -> Result<MemDisk, CopyRefusal>
    ensures made { IfOk result (λ new. HasLog (other_log log) size (D.image disk.old)
        (⟦<MemDisk as Disk>⟧.image new)) }
    ensures some { IfOk result (λ new. 2 ≤ length (⟦<MemDisk as Disk>⟧.image new)) }
    ensures refused { IfErr result (IsUnlogged log size (D.image disk.old)
        (D.fault_count disk.old) (D.fault_count disk.new)) }
{
    let made = match log {
        None | Some(LOG_BLOCKS) => convert(alloc, disk, size),
        Some(log) => {
            if !is_log_length(log) {
                return Err(CopyRefusal::LogRange);
            }
            shorten(alloc, disk, log, size)
        }
    };
    match made {
        Ok(new) => Ok(new),
        Err(fault) => Err(CopyRefusal::Unconverted(fault)),
    }
}

// Writes the image in memory to the new file of a target, and prints its numbers.
fn keep<'a, R: Files + AllocGlobal, O: Write, P: Meter, H: Holder<R::File>>(
    rt: &R,
    memory: &mut MemDisk,
    mode: u32,
    target: &mut Target<'a, P, H>,
    out: &mut O,
) -> Result<(), CopyRefusal>
    requires some { 2 ≤ length (⟦<MemDisk as Disk>⟧.image memory.old) }
    ensures kept { OnOk result (IsKept ⟦<FileDisk<R::File> as Disk>⟧
        (⟦<MemDisk as Disk>⟧.image memory.old) target.old.sync
        (O.contents out.old) (O.contents out.new)) }
    ensures refused { IfErr result (IsUnkept ⟦<FileDisk<R::File> as Disk>⟧
        (⟦<MemDisk as Disk>⟧.image memory.old) target.old.sync (out.new ≡ out.old)) }
{
    let fields = superblock::read(memory.block(1));
    let file = hold(target, mode)?;
    let written = fill_file(rt, memory, &file, target);
    remove_refused(rt, target.path, &file, &written);
    written?;
    match print_numbers(out, &fields) {
        Ok(()) => Ok(()),
        Err(_) => Err(CopyRefusal::Output),
    }
}

// Writes the image in memory into the file, which is held, and syncs its folder where that is asked for.
fn fill_file<'a, R: Files + AllocGlobal, P: Meter, H>(
    rt: &R,
    memory: &mut MemDisk,
    file: &R::File,
    target: &mut Target<'a, P, H>,
) -> Result<(), CopyRefusal>
    requires some { 2 ≤ length (⟦<MemDisk as Disk>⟧.image memory.old) }
    ensures written { OnOk result (HasWrittenAnew ⟦<FileDisk<R::File> as Disk>⟧
        (⟦<MemDisk as Disk>⟧.image memory.old) target.old.sync) }
    ensures refused { IfErr result (IsNotWrittenAnew ⟦<FileDisk<R::File> as Disk>⟧
        (⟦<MemDisk as Disk>⟧.image memory.old)) }
{
    let path = target.path;
    let sync = target.sync;
    match fill_disk(rt.alloc(), memory, file, target) {
        Ok(()) => match sync_folder(rt, path, sync) {
            Ok(()) => Ok(()),
            Err(fault) => Err(CopyRefusal::File(fault)),
        },
        Err(refusal) => Err(refusal),
    }
}

// Writes the image in memory into the file, which is held.
fn fill_disk<'a, F: Read + Write + Seek + OpenFile + Drop, P: Meter, H>(
    alloc: Global,
    memory: &mut MemDisk,
    file: &F,
    target: &mut Target<'a, P, H>,
) -> Result<(), CopyRefusal>
    requires some { 2 ≤ length (⟦<MemDisk as Disk>⟧.image memory.old) }
    ensures written { OnOk result (HasWrittenAnew ⟦<FileDisk<F> as Disk>⟧
        (⟦<MemDisk as Disk>⟧.image memory.old) target.old.sync) }
    ensures refused { IfErr result (IsNotWrittenAnew ⟦<FileDisk<F> as Disk>⟧
        (⟦<MemDisk as Disk>⟧.image memory.old)) }
{
    match zeroes_in(alloc, file, memory.size()) {
        Ok(new) => match write_to(alloc, memory, new, target.sync, &mut target.progress) {
            Ok(()) => Ok(()),
            Err(fault) => Err(CopyRefusal::Of(fault)),
        },
        Err(fault) => Err(CopyRefusal::File(fault)),
    }
}

// Writes the image in memory to a disk, which nobody keeps.
fn write_to<E: Disk + Drop, P: Meter>(
    alloc: Global,
    memory: &mut MemDisk,
    mut disk: E,
    sync: bool,
    progress: &mut P,
) -> Result<(), CopyFault>
    requires some { 2 ≤ length (⟦<MemDisk as Disk>⟧.image memory.old) }
    requires size { length (E.image disk) ≡ length (⟦<MemDisk as Disk>⟧.image memory.old) }
    ensures written { OnOk result
        (IsWrittenTo E.Disk (⟦<MemDisk as Disk>⟧.image memory.old) sync disk) }
    ensures refused { IfErr result (IsUnwrittenTo E.Disk disk) }
{
    let mut block = Block::zeroed(alloc)?;
    match write_image(memory, &mut disk, sync, &mut block, progress) {
        Ok(()) => Ok(()),
        Err(_) => Err(CopyFault::Disk),
    }
}
