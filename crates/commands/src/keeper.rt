// Holds files by locks.
use crate::holding::Holder;
use blocks::FileFault;
use cmd::{Locking, Locks, Share, fault_of, is_held_at, open_held};
use std::fs::{File, OpenOptions, metadata, remove_file, symlink_metadata};
use std::io;
use std::io::ErrorKind;
use std::os::unix::fs::{MetadataExt, OpenOptionsExt};

// How often a file is made, or one that was left is opened, that another program takes meanwhile.
const MOST_TRIES: u32 = 1000;

/// Holds the files that a command makes or replaces by their locks, which it takes in that way.
#[derive(Drop)]
pub struct Keeper<'a, R> {
    rt: &'a R,
    locking: Locking,
}

impl<'a, R: Locks> Keeper<'a, R> {
    /// It takes the locks of files in that way.
    pub fn new(rt: &'a R, locking: Locking) -> Keeper<'a, R> {
        Keeper { rt, locking }
    }

    fn waits(&self) -> bool {
        matches!(self.locking, Locking::Wait)
    }
}

impl<'a, R: Locks> Holder<R::File> for Keeper<'a, R> {
    fn hold_new(&mut self, path: &str, mode: u32) -> Result<R::File, FileFault> {
        for _ in 0..MOST_TRIES {
            match make_new(self.rt, path, mode, self.locking) {
                Err(FileFault::Exists) if self.waits() => {
                    if stays(self.rt, path)? {
                        return Err(FileFault::Exists);
                    }
                }
                Err(FileFault::Locked) if self.waits() => {}
                made => return made,
            }
        }
        Err(FileFault::Locked)
    }

    fn hold_left(&mut self, path: &str, mode: u32) -> Result<R::File, FileFault> {
        for _ in 0..MOST_TRIES {
            match make_new(self.rt, path, mode, self.locking) {
                Err(FileFault::Exists) => {
                    if let Some(file) = left_at(self.rt, path, self.locking)? {
                        return Ok(file);
                    }
                }
                Err(FileFault::Locked) if self.waits() => {}
                made => return made,
            }
        }
        Err(FileFault::Locked)
    }

    fn hold_any(&mut self, path: &str) -> Result<R::File, FileFault> {
        let mut how = OpenOptions::new();
        how.read(true).write(true).create(true);
        open_held(self.rt, path, &how, Share::Nobody, self.locking)
    }

    fn hold_there(&mut self, path: &str) -> Result<Option<R::File>, FileFault> {
        match metadata(self.rt, path) {
            Ok(found) if found.is_file() => {}
            Ok(_) => return Ok(None),
            Err(error) if error.kind() == ErrorKind::NotFound => return Ok(None),
            Err(error) => return Err(fault_of(error)),
        }
        let mut how = OpenOptions::new();
        how.write(true);
        match open_held(self.rt, path, &how, Share::Nobody, self.locking) {
            Ok(file) => Ok(Some(file)),
            Err(fault) => Err(fault),
        }
    }
}

// An empty file, made where nothing is, and locked. Another program may take it at once for one that was
// left, and give it another name.
fn make_new<R: Locks>(
    rt: &R,
    path: &str,
    mode: u32,
    locking: Locking,
) -> Result<R::File, FileFault> {
    let mut how = OpenOptions::new();
    how.read(true).write(true).create_new(true).mode(mode);
    let file = how.open(rt, path).map_err(|error| fault_of_new(error))?;
    let locking = match locking {
        Locking::Wait => Locking::AtOnce,
        locking => locking,
    };
    match is_held_at(rt, &file, path, Share::Nobody, locking) {
        Ok(true) => Ok(file),
        Ok(false) | Err(FileFault::Locked) => Err(FileFault::Locked),
        Err(fault) => {
            let _gone = remove_file(rt, path);
            Err(fault)
        }
    }
}

/// Waits until no other program has the file at a path. Whether it is there then.
///
/// # Errors
///
/// A fault of `cmd::fault_of` where it can't be looked at, or of its lock.
pub fn stays<R: Locks>(rt: &R, path: &str) -> Result<bool, FileFault> {
    match symlink_metadata(rt, path) {
        Ok(found) if found.is_file() => {}
        Ok(_) => return Ok(true),
        Err(error) if error.kind() == ErrorKind::NotFound => return Ok(false),
        Err(error) => return Err(fault_of(error)),
    }
    match OpenOptions::new().read(true).open(rt, path) {
        Ok(file) => is_held_at(rt, &file, path, Share::Lookers, Locking::Wait),
        Err(_) => Ok(true),
    }
}

// The plain file with one name at a path, held; none where it has gone.
fn left_at<R: Locks>(rt: &R, path: &str, locking: Locking) -> Result<Option<R::File>, FileFault> {
    match symlink_metadata(rt, path) {
        Ok(found) if found.is_file() && found.nlink() == 1 => {}
        Ok(found) if found.is_file() => return unless_it_stays(rt, path, locking),
        Ok(_) => return Err(FileFault::Exists),
        Err(error) if error.kind() == ErrorKind::NotFound => return Ok(None),
        Err(error) => return Err(fault_of(error)),
    }
    let file = match OpenOptions::new().read(true).write(true).open(rt, path) {
        Ok(file) => file,
        Err(error) if error.kind() == ErrorKind::NotFound => return Ok(None),
        Err(error) => return Err(fault_of(error)),
    };
    if is_held_at(rt, &file, path, Share::Nobody, locking)? {
        return Ok(Some(file));
    }
    Ok(None)
}

// None where a plain file with several names has gone from a path: another program that has it, and has
// given it the name of the image, takes this one away.
fn unless_it_stays<R: Locks>(
    rt: &R,
    path: &str,
    locking: Locking,
) -> Result<Option<R::File>, FileFault> {
    let file = match OpenOptions::new().read(true).open(rt, path) {
        Ok(file) => file,
        Err(error) if error.kind() == ErrorKind::NotFound => return Ok(None),
        Err(_) => return Err(FileFault::Exists),
    };
    if is_held_at(rt, &file, path, Share::Lookers, locking)? {
        return Err(FileFault::Exists);
    }
    Ok(None)
}

// Why a new file can't be made.
fn fault_of_new(error: io::Error) -> FileFault {
    match error.kind() {
        ErrorKind::AlreadyExists => FileFault::Exists,
        _ => fault_of(error),
    }
}
