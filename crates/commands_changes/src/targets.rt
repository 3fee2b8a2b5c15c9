// The new file in which a command makes an image.
ghost use Rattle.std.specs.Prelude.{◌≡◌, ◌≢◌, IfErr, IfOk};
ghost use Rattle.blocks.specs.FileDisk.{IsZeroed};
ghost use Rattle.commands_changes.specs.Copies.{IsOfPath};

use crate::refused::CopyRefusal;
use blocks::{Disk, FileDisk, FileFault};
use cmd::{Locking, Locks, fault_of};
use commands::{Holder, stays};
use std::alloc::Global;
use std::fs::{OpenFile, metadata, symlink_metadata};
use std::io::{Read, Seek, Write};
use std::os::unix::fs::PermissionsExt;
use std::rt::Files;

/// A file that is to be new, in which an image is made.
#[derive(Drop)]
pub struct Target<'a, P, H> {
    /// Its path.
    pub path: &'a str,
    /// Whether it is synced at the end.
    pub sync: bool,
    /// Who is told how far the image is.
    pub progress: P,
    /// Who holds the file.
    pub holder: H,
}

// Makes the file of a target, empty, where nothing has its name, and holds it. Others may use it as this
// mode lets them, and the system's mask.
pub fn hold<'a, F, P, H: Holder<F>>(
    target: &mut Target<'a, P, H>,
    mode: u32,
) -> Result<F, CopyRefusal>
    ensures sync { target.new.sync ≡ target.old.sync }
    ensures refused { IfErr result IsOfPath }
{
    match target.holder.hold_new(target.path, mode) {
        Ok(file) => Ok(file),
        Err(FileFault::Exists | FileFault::Locked) => Err(CopyRefusal::Exists),
        Err(fault) => Err(CopyRefusal::File(fault)),
    }
}

// Refuses a path where something is, or is still once no other program has it, where that is waited for.
pub fn ensure_free<R: Locks>(rt: &R, path: &str, locking: Locking) -> Result<(), CopyRefusal>
    ensures refused { IfErr result IsOfPath }
{
    if symlink_metadata(rt, path).is_err() {
        return Ok(());
    }
    match locking {
        Locking::Wait => match stays(rt, path) {
            Ok(true) => Err(CopyRefusal::Exists),
            Ok(false) => Ok(()),
            Err(fault) => Err(CopyRefusal::File(fault)),
        },
        _ => Err(CopyRefusal::Exists),
    }
}

// A disk of so many blocks of zeroes in a file, over another handle of it.
pub fn zeroes_in<F: Read + Write + Seek + OpenFile + Drop>(
    alloc: Global,
    file: &F,
    size: u32,
) -> Result<FileDisk<F>, FileFault>
    ensures made { IfOk result (IsZeroed size ⟦<FileDisk<F> as Disk>⟧) }
    ensures err { IfErr result (λ fault. fault ≢ FileFault.Length) }
{
    match file.try_clone() {
        Ok(own) => FileDisk::zeroed(alloc, own, size),
        Err(error) => Err(fault_of(error)),
    }
}

// What others may do with a copy of the file at a path: what they may with that.
pub fn mode_of<R: Files>(rt: &R, path: &str) -> Result<u32, CopyRefusal>
    ensures refused { IfErr result IsOfPath }
{
    match metadata(rt, path) {
        Ok(found) => Ok(found.permissions().mode() & 0o777),
        Err(error) => Err(CopyRefusal::File(fault_of(error))),
    }
}
