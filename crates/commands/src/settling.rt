// What is done with the path of a file once something was made in it, or wasn't.
use blocks::FileFault;
use cmd::is_at;
use std::fs::{File, OpenFile, remove_file};
use std::io::ErrorKind;
use std::path::Path;
use std::rt::Files;

/// Takes a file that is held away from its path, if it is still there, where nothing was made in it.
pub fn remove_refused<R: Files, T, E>(rt: &R, path: &str, file: &R::File, made: &Result<T, E>) {
    if made.is_err() && matches!(is_at(rt, file, path), Ok(true)) {
        let _gone = remove_file(rt, path);
    }
}

/// Syncs the folder that has a name where that is asked for, as far as the system does that: a folder
/// that may not be read, or of a file system that syncs none, is left alone.
///
/// # Errors
///
/// `Open` where the folder can't be synced.
pub fn sync_folder<R: Files>(rt: &R, name: &str, sync: bool) -> Result<(), FileFault> {
    if !sync {
        return Ok(());
    }
    let folder = match Path::new(name).parent() {
        Some(folder) if !folder.as_str().is_empty() => folder.as_str(),
        _ => ".",
    };
    let Ok(opened) = File::open(rt, folder) else {
        return Ok(());
    };
    match opened.sync_all() {
        Ok(()) => Ok(()),
        Err(error) => match error.kind() {
            ErrorKind::InvalidInput | ErrorKind::Unsupported => Ok(()),
            _ => Err(FileFault::Open),
        },
    }
}
