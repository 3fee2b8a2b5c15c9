// The plan of a copy of a file within an image.
ghost use Rattle.std.specs.Prelude.{◌≡◌, ◌++◌, codes, None, Ok, IfErr, IfOk, OnOk};
ghost use Rattle.blocks.specs.Calls.{OnlyReads};
ghost use Rattle.directories.specs.Paths.{names_of};
ghost use Rattle.directories.specs.Trees.{kind_of, root};
ghost use Rattle.directories.specs.Walks.{walked};
ghost use Rattle.model.specs.Files.{file_in, files_of};
ghost use Rattle.model.specs.Log.{recovered};
ghost use Rattle.model.specs.Verdict.{verdict};
ghost use Rattle.tree_looks.specs.Copies.{
  bytes_kind,
  leads_to_directory,
  path_of_copy,
  IsCopyOf,
  IsNoSource,
  IsNoTarget,
  IsUnaimed,
  IsUncopied,
  IsUnplanned,
  MayTake,
};

use crate::faults::LookRefusal;
use crate::finding::{Found, find, walk};
use crate::loading::load_tree;
use crate::looks::{copy, last_of, told};
use blocks::{Disk, NoMemory};
use directories::files::{bytes_at, kind_at};
use directories::{DIRECTORY_KIND, Name, Refusal, names_of};
use model::types::File;
use std::alloc::Global;

// The type of a file of bytes.
const BYTES_KIND: u16 = 2;

/// What a copy of a file puts, and where.
#[derive(Drop)]
pub struct CopyPlan {
    /// The path of the copy, from the root.
    pub path: Vec<u8>,
    /// Its bytes.
    pub bytes: Vec<u8>,
}

/// Why a file can't be copied.
#[derive(Clone, Copy, Debug)]
pub enum CopyFault {
    /// The files can't be had, or refuse: `IsADirectory` where the file is one, `Exists` where a
    /// directory has the copy's path.
    Look(LookRefusal),
    /// One of the two files is a device.
    IsADevice,
    /// Both paths lead to one file.
    SameFile,
}

/// Plans a copy of the file of bytes at the path `from` of a disk, as recovery would leave it, where its
/// files are a tree: at the path `to`, or, where that leads to a directory, under the file's own last
/// name in it. It writes no block.
///
/// # Errors
///
/// - `Look`: a fault of the image or of its check, `NoTree`, or memory was refused; `Path`, `NotFound`,
///   `NotADirectory` and `IsADirectory` for `from`; `Path` for `to`, and `Exists` where the copy's path
///   leads to a directory.
/// - `IsADevice`: `from`, or the copy's path, leads to a device.
/// - `SameFile`: both lead to one file.
pub fn plan_copy<D: Disk>(
    alloc: Global,
    disk: &mut D,
    from: &[u8],
    to: &[u8],
) -> Result<CopyPlan, CopyFault>
    ensures sound { OnOk result (verdict (D.image disk.old) ≡ None) }
    ensures plan { IfOk result (λ plan. IsCopyOf (files_of (recovered (D.image disk.old)))
        from.now to.now plan.path.items plan.bytes.items) }
    ensures reads { OnlyReads D.Disk disk.old disk.new }
    ensures faults { OnOk result (D.fault_count disk.new ≡ D.fault_count disk.old) }
    ensures refused { IfErr result
        (IsUnplanned D.Disk from.now to.now disk.old disk.new) }
{
    match load_tree(alloc, disk) {
        Ok(files) => plan(alloc, files.as_slice(), from, to),
        Err(refusal) => Err(CopyFault::Look(refusal)),
    }
}

// The plan among files.
fn plan(
    alloc: Global,
    files: &[Option<File>],
    from: &[u8],
    to: &[u8],
) -> Result<CopyPlan, CopyFault>
    ensures plan { IfOk result (λ plan.
        IsCopyOf files.now from.now to.now plan.path.items plan.bytes.items) }
    ensures refused { IfErr result (IsUncopied files.now from.now to.now) }
{
    let source = source_at(alloc, files, from)?;
    let path = match path_of_copy(alloc, files, source.names.as_slice(), to) {
        Ok(path) => path,
        Err(refusal) => return Err(CopyFault::Look(refusal)),
    };
    judge_target(alloc, files, source.number, path.as_slice())?;
    match copy(alloc, bytes_at(files, source.number)) {
        Ok(bytes) => Ok(CopyPlan { path, bytes }),
        Err(_refused) => Err(CopyFault::Look(LookRefusal::NoMemory)),
    }
}

// The file of bytes at a path.
fn source_at(alloc: Global, files: &[Option<File>], from: &[u8]) -> Result<Found, CopyFault>
    ensures names { IfOk result (λ found. found.names.items ≡ names_of from.now) }
    ensures led { IfOk result
        (λ found. walked files.now root (names_of from.now) ≡ Ok found.number) }
    ensures kind { IfOk result
        (λ found. kind_of (file_in files.now found.number) ≡ bytes_kind) }
    ensures refused { IfErr result (IsNoSource files.now from.now) }
{
    match find(alloc, files, from) {
        Ok(found) => {
            let kind = kind_at(files, found.number);
            if kind == DIRECTORY_KIND {
                return Err(CopyFault::Look(LookRefusal::Refused(Refusal::IsADirectory)));
            }
            if kind != BYTES_KIND {
                return Err(CopyFault::IsADevice);
            }
            Ok(found)
        }
        Err(refusal) => Err(CopyFault::Look(refusal)),
    }
}

// The path of a copy of the file that names lead to.
fn path_of_copy(
    alloc: Global,
    files: &[Option<File>],
    names: &[Name],
    to: &[u8],
) -> Result<Vec<u8>, LookRefusal>
    ensures path { IfOk result (λ path. path.items ≡ path_of_copy files.now names.now to.now) }
    ensures refused { IfErr result (IsUnaimed to.now) }
{
    let into = match names_of(alloc, to) {
        Ok(into) => into,
        Err(fault) => return Err(LookRefusal::Path(fault)),
    };
    if leads_to_directory(files, into.as_slice()) {
        return told(name_in(alloc, to, last_of(names)));
    }
    told(copy(alloc, to))
}

// Whether names lead to a directory.
fn leads_to_directory(files: &[Option<File>], names: &[Name]) -> bool
    ensures { result ≡ leads_to_directory files.now names.now }
{
    match walk(files, names) {
        Ok(number) => kind_at(files, number) == DIRECTORY_KIND,
        Err(_refusal) => false,
    }
}

// The path of a name in the directory at a path.
fn name_in(alloc: Global, directory: &[u8], name: &[u8]) -> Result<Vec<u8>, NoMemory>
    ensures { IfOk result (λ path. path.items ≡ directory.now ++ codes "/" ++ name.now) }
{
    let mut path = Vec::from_slice(alloc, directory)?;
    path.extend_from_slice(b"/")?;
    path.extend_from_slice(name)?;
    Ok(path)
}

// Whether a copy of the file of that number may be put at a path.
fn judge_target(
    alloc: Global,
    files: &[Option<File>],
    number: u32,
    path: &[u8],
) -> Result<(), CopyFault>
    ensures may_take { OnOk result
        (MayTake files.now number (walked files.now root (names_of path.now))) }
    ensures refused { IfErr result (IsNoTarget files.now number path.now) }
{
    let names = match names_of(alloc, path) {
        Ok(names) => names,
        Err(fault) => return Err(CopyFault::Look(LookRefusal::Path(fault))),
    };
    let Ok(other) = walk(files, names.as_slice()) else {
        return Ok(());
    };
    if other == number {
        return Err(CopyFault::SameFile);
    }
    let kind = kind_at(files, other);
    if kind == DIRECTORY_KIND {
        return Err(CopyFault::Look(LookRefusal::Refused(Refusal::Exists)));
    }
    if kind != BYTES_KIND {
        return Err(CopyFault::IsADevice);
    }
    Ok(())
}
