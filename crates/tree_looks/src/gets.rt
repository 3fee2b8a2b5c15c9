// Files of an image, copied into new files of the system.
ghost use Rattle.std.specs.Prelude.{◌≡◌, length, IfErr, IfOk, Ok, OnOk};
ghost use Rattle.cmd.specs.declared.files.OnFile.TheVariants as on;
ghost use Rattle.directories.specs.Paths.{names_of};
ghost use Rattle.directories.specs.Trees.{root, IsDirectory};
ghost use Rattle.directories.specs.Walks.{walked};
ghost use Rattle.tree_looks.specs.Gets.{
  CopiesBelow,
  CopiesEntry,
  HasCopied,
  HasGot,
  HasGotAll,
  HasWrittenNew,
  HasWrittenTo,
  IsOfFolder,
  IsOfNew,
  IsUncopied,
  IsUngot,
  IsUngotAll,
};
ghost use Rattle.tree_looks.specs.Looks.{HasNoPaths};
ghost use Rattle.tree_looks.specs.declared.faults.GetRefusal.TheVariants as get;

use crate::faults::{GetRefusal, LookRefusal};
use crate::finding::find;
use crate::loading::load_tree;
use crate::looks::Cat;
use crate::over_files::OverFiles;
use blocks::FileFault;
use cmd::{Access, Command, Locking, Locks, OnFile, OverFile, open_for};
use directories::files::{bytes_at, is_directory};
use directories::{ENTRY_SIZE, Refusal, entries_in, leads_down, number_in, text_in};
use messages::{Unwritten, pass_on, write_bytes};
use model::types::File as Stored;
use std::alloc::Global;
use std::fs::{File, create_dir, exists, remove_dir_all, remove_file};
use std::io;
use std::io::{ErrorKind, Write};
use std::rt::Files;

/// Copies the file at a path of the image in the file at the path `image` into a new file at the path
/// `file`.
#[derive(Clone, Copy, Drop)]
pub struct Get<'a> {
    /// The path of the image's file.
    pub image: &'a str,
    /// How its lock is taken.
    pub locking: Locking,
    /// The file's path in the image.
    pub path: &'a str,
    /// The path of the file that is made.
    pub file: &'a str,
}

impl<'a, R: Locks + AllocGlobal> Command<R> for Get<'a> {
    type Refusal = GetRefusal;

    ghost done = { λ get. HasGot R.File.remaining R.File.contents get.path.now };

    ghost refused = { λ get old new. IsUngot R.File.remaining get.path.now };

    fn run<O: Write>(self, rt: &R, _out: &mut O) -> Result<(), GetRefusal> {
        if let Ok(true) = exists(rt, self.file) {
            return Err(GetRefusal::Made(FileFault::Exists));
        }
        let mut bytes = Vec::new(rt.alloc());
        let look = OverFiles(Cat { path: self.path });
        match OverFile(self.image, Access::Look(self.locking), look).run(rt, &mut bytes) {
            Ok(()) => write_new(rt, self.file, bytes.as_slice()),
            Err(refusal) => Err(GetRefusal::Of(refusal)),
        }
    }
}

// Makes a file of these bytes, where nothing has its name. None is left where they can't be written.
pub fn write_new<R: Files>(rt: &R, path: &str, bytes: &[u8]) -> Result<(), GetRefusal>
    ensures written { OnOk result (HasWrittenNew R.File.contents bytes.now) }
    ensures cause { IfErr result IsOfNew }
    ensures below { IfErr result IsOfFolder }
{
    let file = File::create_new(rt, path).map_err(|error| GetRefusal::Made(fault_of(error)))?;
    match write_whole(file, bytes) {
        Ok(()) => Ok(()),
        Err(_) => {
            let _gone = remove_file(rt, path);
            Err(GetRefusal::Output)
        }
    }
}

fn write_whole<W: Write + Drop>(file: W, bytes: &[u8]) -> Result<(), Unwritten>
    ensures { OnOk result (HasWrittenTo W.contents file bytes.now) }
{
    let mut file = file;
    write_bytes(&mut file, bytes)?;
    pass_on(&mut file)
}

// Why a file can't be made.
fn fault_of(error: io::Error) -> FileFault {
    match error.kind() {
        ErrorKind::AlreadyExists => FileFault::Exists,
        ErrorKind::OutOfMemory => FileFault::NoMemory,
        _ => FileFault::Open,
    }
}

/// Copies the directory at a path of the image in the file at the path `image`, with all below it, into a
/// new folder at the path `folder`, where the files are a tree. Where that can't be done to its end, the folder is taken away again.
#[derive(Clone, Copy, Drop)]
pub struct GetAll<'a> {
    /// The path of the image's file.
    pub image: &'a str,
    /// How its lock is taken.
    pub locking: Locking,
    /// The directory's path in the image.
    pub path: &'a str,
    /// The path of the folder that is made.
    pub folder: &'a str,
}

impl<'a, R: Locks + AllocGlobal> Command<R> for GetAll<'a> {
    type Refusal = GetRefusal;

    ghost done = { λ get. HasGotAll R.File.remaining R.File.contents get.path.now };

    ghost refused = { λ get old new. IsUngotAll R.File.remaining get.path.now };

    fn run<O: Write>(self, rt: &R, _out: &mut O) -> Result<(), GetRefusal> {
        if let Ok(true) = exists(rt, self.folder) {
            return Err(GetRefusal::Made(FileFault::Exists));
        }
        let mut disk = match open_for(rt, self.image, Access::Look(self.locking)) {
            Ok(disk) => disk,
            Err(fault) => return Err(GetRefusal::Of(OnFile::File(fault))),
        };
        let files = match load_tree(rt.alloc(), &mut disk) {
            Ok(files) => files,
            Err(refusal) => return Err(of(refusal)),
        };
        get_below(rt, files.as_slice(), self.path, self.folder)
    }
}

// Copies what is in the directory at a path into a new folder.
fn get_below<R: Files + AllocGlobal>(
    rt: &R,
    files: &[Option<Stored>],
    path: &str,
    folder: &str,
) -> Result<(), GetRefusal>
    ensures copied { OnOk result (HasCopied R.File.contents path.now files.now) }
    ensures refused { IfErr result (IsUncopied path.now files.now) }
{
    match directory_at(rt.alloc(), files, path) {
        Ok(number) => fill_new(rt, files, number, folder),
        Err(refusal) => Err(of(refusal)),
    }
}

// Copies what is in a directory into a new folder, which is taken away again where that can't be done.
fn fill_new<R: Files + AllocGlobal>(
    rt: &R,
    files: &[Option<Stored>],
    number: u32,
    folder: &str,
) -> Result<(), GetRefusal>
    ensures copied { OnOk result
        (CopiesBelow R.File.contents (length files.now) files.now number) }
    ensures cause { IfErr result IsOfFolder }
{
    make_folder(rt, folder)?;
    match fill_folder(rt, files, number, folder, files.len()) {
        Ok(()) => Ok(()),
        Err(refusal) => {
            let _gone = remove_dir_all(rt, folder);
            Err(refusal)
        }
    }
}

fn of(refusal: LookRefusal) -> GetRefusal
    ensures { result ≡ get.Of (on.Of refusal) }
{
    GetRefusal::Of(OnFile::Of(refusal))
}

// The number of the directory at a path.
fn directory_at(alloc: Global, files: &[Option<Stored>], path: &str) -> Result<u32, LookRefusal>
    ensures led { IfOk result (λ number. walked files.now root (names_of path.now) ≡ Ok number) }
    ensures directory { IfOk result (IsDirectory files.now) }
    ensures refused { IfErr result (HasNoPaths path.now files.now) }
{
    match find(alloc, files, path.as_bytes()) {
        Ok(found) => {
            let number = found.number;
            if !is_directory(files, number) {
                return Err(LookRefusal::Refused(Refusal::NotADirectory));
            }
            Ok(number)
        }
        Err(refusal) => Err(refusal),
    }
}

// Makes a folder, where nothing has its name.
fn make_folder<R: Files>(rt: &R, folder: &str) -> Result<(), GetRefusal>
    ensures { IfErr result IsOfFolder }
{
    match create_dir(rt, folder) {
        Ok(()) => Ok(()),
        Err(error) => Err(GetRefusal::Made(fault_of(error))),
    }
}

// Copies what is in a directory into a folder, down to a depth.
#[cycle(folders)]
fn fill_folder<R: Files + AllocGlobal>(
    rt: &R,
    files: &[Option<Stored>],
    number: u32,
    folder: &str,
    depth: usize,
) -> Result<(), GetRefusal>
    ensures copied { OnOk result (CopiesBelow R.File.contents depth files.now number) }
    ensures cause { IfErr result IsOfFolder }
{
    if depth == 0 {
        return Ok(());
    }
    for entry in entries_in(bytes_at(files, number)) {
        copy_entry(rt, files, entry, folder, depth - 1)?;
    }
    Ok(())
}

// Copies the file of an entry that leads down into a folder, with all below it, down to a depth.
#[cycle(folders)]
fn copy_entry<R: Files + AllocGlobal>(
    rt: &R,
    files: &[Option<Stored>],
    entry: &[u8; ENTRY_SIZE],
    folder: &str,
    depth: usize,
) -> Result<(), GetRefusal>
    ensures copied { OnOk result (CopiesEntry R.File.contents depth files.now entry.now) }
    ensures cause { IfErr result IsOfFolder }
{
    if !leads_down(entry) {
        return Ok(());
    }
    let number = u32::from(number_in(entry));
    let path = path_in(rt.alloc(), folder, text_in(entry))?;
    if is_directory(files, number) {
        make_folder(rt, path.as_str())?;
        fill_folder(rt, files, number, path.as_str(), depth)
    } else {
        write_new(rt, path.as_str(), bytes_at(files, number))
    }
}

// The path of a name in a folder. A name that isn't one there, as `a/b`, has none.
fn path_in(alloc: Global, folder: &str, name: &[u8]) -> Result<String, GetRefusal>
    ensures { IfErr result IsOfFolder }
{
    let Ok(name) = str::from_utf8(name) else {
        return Err(GetRefusal::BadName);
    };
    if name.is_empty() || name.contains('/') {
        return Err(GetRefusal::BadName);
    }
    match format!(in alloc; "{folder}/{name}") {
        Ok(path) => Ok(path),
        Err(_) => Err(of(LookRefusal::NoMemory)),
    }
}
