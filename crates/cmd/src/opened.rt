// The disk in a file that a command opens.

ghost use Rattle.std.specs.Prelude.{◌≡◌, IfErr, IfOk, OnOk, false};
ghost use Rattle.cmd.specs.Freshening.{IsFreshened};
ghost use Rattle.cmd.specs.Locks.{IsOfOpening};
ghost use Rattle.cmd.specs.Opened.{IsOpened};
ghost use Rattle.cmd.specs.Over.{holds_back};

use crate::locks::{Locking, Locks, Share, fault_of, open_held};
use blocks::{BLOCK_SIZE, Disk, FileDisk, FileFault};
use std::alloc::Global;
use std::fs::{OpenFile, OpenOptions, metadata};
use std::io;
use std::io::{Read, Seek, SeekFrom, Write};
use std::os::unix::fs::FileTypeExt;
use std::rt::Files;

/// What a command opens a file for.
#[derive(Clone, Copy)]
pub enum Access {
    /// It looks at it. Others may look, too.
    Look(Locking),
    /// It changes it, and nobody else has it.
    Change {
        /// Whether the disk holds writes back until it is synced.
        sync: bool,
        /// How its lock is taken.
        locking: Locking,
    },
}

impl Access {
    /// Whether the disk holds writes back.
    pub fn holds_back(self) -> bool
        ensures { result ≡ holds_back self }
    {
        match self {
            Access::Look(_) => false,
            Access::Change { sync, .. } => sync,
        }
    }
}

/// The image's file at this path, opened for that and locked: the file that is opened is the one that
/// is locked. To look it is read alone.
///
/// # Errors
///
/// As those of `open_held`.
pub fn open_image<R: Locks>(rt: &R, image: &str, access: Access) -> Result<R::File, FileFault> {
    match access {
        Access::Look(locking) => {
            let how = way_to_look(rt, image);
            open_held(rt, image, &how, Share::Lookers, locking)
        }
        Access::Change { locking, .. } => {
            let mut how = OpenOptions::new();
            how.read(true).write(true);
            open_held(rt, image, &how, Share::Nobody, locking)
        }
    }
}

/// The disk in the file at this path, opened for that, and locked until the disk goes.
///
/// # Errors
///
/// As those of `open_image`, and then as those of `disk_over`.
pub fn open_for<R: Locks + AllocGlobal>(
    rt: &R,
    image: &str,
    access: Access,
) -> Result<FileDisk<R::File>, FileFault>
    ensures { IfOk result
        (IsOpened R.File.remaining ⟦<FileDisk<R::File> as Disk>⟧ (holds_back access)) }
{
    match open_image(rt, image, access) {
        Ok(file) => disk_of(rt.alloc(), file, access.holds_back()),
        Err(fault) => Err(fault),
    }
}

/// The disk in the file at this path, to be read, whoever has it: for a second look behind a refusal.
///
/// # Errors
///
/// A fault of `FileDisk::open_to_read`.
pub fn open_to_look<R: Files + AllocGlobal>(
    rt: &R,
    image: &str,
) -> Result<FileDisk<R::File>, FileFault>
    ensures { IfOk result
        (IsOpened R.File.remaining ⟦<FileDisk<R::File> as Disk>⟧ false) }
{
    let how = way_to_look(rt, image);
    let file = how.open(rt, image).map_err(|error| fault_of(error))?;
    FileDisk::whole_file(rt.alloc(), file)
}

// A file or a device is looked at by reading alone. Any other is opened for both: a pipe that is
// opened to be read would wait for its writer.
fn way_to_look<R: Files>(rt: &R, path: &str) -> OpenOptions {
    let mut how = OpenOptions::new();
    how.read(true);
    let is_plain = match metadata(rt, path) {
        Ok(found) => found.is_file() || found.file_type().is_block_device(),
        Err(_) => true,
    };
    if !is_plain {
        how.write(true);
    }
    how
}

/// The disk in an opened file, over another handle of it. With `sync` it holds writes back until it is
/// synced, also such as were made to the file before: then the log's header is first written as it is
/// read, as `freshen` says.
///
/// # Errors
///
/// `Open` or `NoMemory` where the file can't be read, or its header not be written over itself; `Length`.
pub fn disk_over<F: Read + Write + Seek + OpenFile + Drop>(
    alloc: Global,
    file: &F,
    sync: bool,
) -> Result<FileDisk<F>, FileFault>
    ensures { IfOk result (IsOpened F.remaining ⟦<FileDisk<F> as Disk>⟧ sync) }
{
    match file.try_clone() {
        Ok(own) => disk_of(alloc, own, sync),
        Err(error) => Err(fault_of(error)),
    }
}

// The disk in an opened file.
fn disk_of<F: Read + Write + Seek + OpenFile + Drop>(
    alloc: Global,
    mut file: F,
    sync: bool,
) -> Result<FileDisk<F>, FileFault>
    ensures { IfOk result (IsOpened F.remaining ⟦<FileDisk<F> as Disk>⟧ sync) }
{
    if sync {
        refresh(&mut file)?;
    }
    file.seek(SeekFrom::Start(0))
        .map_err(|error| fault_of(error))?;
    let disk = FileDisk::whole_file(alloc, file)?;
    if sync {
        return Ok(disk.hold_back());
    }
    Ok(disk)
}

// Writes the log's header over itself, where a file is long enough to have one.
fn refresh<F: Read + Write + Seek>(file: &mut F) -> Result<(), FileFault>
    ensures { IfErr result IsOfOpening }
{
    let length = file
        .seek(SeekFrom::End(0))
        .map_err(|error| fault_of(error))?;
    if length < HEADER_AT + BLOCK_SIZE as u64 {
        return Ok(());
    }
    freshen(file).map_err(|error| fault_of(error))
}

// Where the log's header stands in the file of an image.
const HEADER_AT: u64 = 2 * BLOCK_SIZE as u64;

/// Writes the log's header of the image in a file over itself. Where an earlier sync failed, the system
/// may have a header that it takes for written, though the device has another: it writes this one with
/// the next sync.
///
/// # Errors
///
/// The system's, where the file has no such block, or it can't be read or written.
pub fn freshen<F: Read + Write + Seek>(file: &mut F) -> io::Result<()>
    ensures { OnOk result (IsFreshened F.stream_position F.remaining F.contents file.old file.new) }
{
    let mut header = [0; BLOCK_SIZE];
    file.seek(SeekFrom::Start(HEADER_AT))?;
    file.read_exact(&mut header)?;
    file.seek(SeekFrom::Start(HEADER_AT))?;
    file.write_all(&header)
}
