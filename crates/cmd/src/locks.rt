// Locks on the files of images, so that no two programs change one at once.
ghost use Rattle.std.specs.Prelude.{◌≡◌, ◌≢◌, true, Err, IfErr};
ghost use Rattle.cmd.specs.Locks.{IsOfLock, IsOfOpening};

use blocks::FileFault;
use std::fs::{File, OpenFile, OpenOptions, TryLockError, metadata};
use std::io;
use std::io::ErrorKind;
use std::os::unix::fs::MetadataExt;
use std::rt::Files;

// How often a file at a path is opened that is another one once it is locked.
const MOST_TRIES: u32 = 1000;

/// Who may have a file at the same time.
#[derive(Clone, Copy)]
pub enum Share {
    /// Others that only look at it.
    Lookers,
    /// Nobody.
    Nobody,
}

/// How the lock of a file is taken.
#[derive(Clone, Copy, Debug)]
pub enum Locking {
    /// At once, or the file is refused.
    AtOnce,
    /// Once other programs have let go of it.
    Wait,
    /// Not at all.
    Never,
}

/// Where files are locked.
pub trait Locks: Files {
    /// Takes the lock of an opened file, as `flock` does, until that is closed, and each handle that
    /// was cloned from it; with `wait` it waits for one that another program holds.
    ///
    /// # Errors
    ///
    /// `Locked` where another program holds it, and this one doesn't wait; `Unlockable` where the system
    /// gives none.
    fn lock_file(&self, file: &Self::File, share: Share, wait: bool) -> Result<(), FileFault>
        ensures refused { IfErr result IsOfLock }
        ensures waits { wait ≡ true → result ≢ Err FileFault.Locked };
}

impl Locks for HostRuntime {
    fn lock_file(&self, file: &File, share: Share, wait: bool) -> Result<(), FileFault> {
        if wait {
            return wait_for(file, share);
        }
        let taken = match share {
            Share::Lookers => file.try_lock_shared(),
            Share::Nobody => file.try_lock(),
        };
        match taken {
            Ok(()) => Ok(()),
            Err(TryLockError::WouldBlock) => Err(FileFault::Locked),
            Err(TryLockError::Error(_)) => Err(FileFault::Unlockable),
        }
    }
}

fn wait_for(file: &File, share: Share) -> Result<(), FileFault>
    ensures { IfErr result (λ fault. fault ≡ FileFault.Unlockable) }
{
    let taken = match share {
        Share::Lookers => file.lock_shared(),
        Share::Nobody => file.lock(),
    };
    match taken {
        Ok(()) => Ok(()),
        Err(_) => Err(FileFault::Unlockable),
    }
}

/// Takes the lock of an opened file in that way. Whether the file is still the one at the path: who
/// makes an image anew gives its name to another.
///
/// # Errors
///
/// As those of `Locks::lock_file`; `Unlockable` where the system doesn't tell what is at the path.
pub fn is_held_at<R: Locks>(
    rt: &R,
    file: &R::File,
    path: &str,
    share: Share,
    locking: Locking,
) -> Result<bool, FileFault>
    ensures refused { IfErr result IsOfLock }
    ensures waits { locking ≡ Locking.Wait → result ≢ Err FileFault.Locked }
    ensures never { locking ≡ Locking.Never → result ≡ Ok true }
{
    let wait = match locking {
        Locking::Never => return Ok(true),
        Locking::AtOnce => false,
        Locking::Wait => true,
    };
    rt.lock_file(file, share, wait)?;
    is_at(rt, file, path)
}

/// Whether an opened file is the one at the path.
///
/// # Errors
///
/// `Unlockable` where the system doesn't tell.
pub fn is_at<R: Files>(rt: &R, file: &R::File, path: &str) -> Result<bool, FileFault>
    ensures { IfErr result (λ fault. fault ≡ FileFault.Unlockable) }
{
    match (file.metadata(), metadata(rt, path)) {
        (Ok(held), Ok(found)) => Ok(held.dev() == found.dev() && held.ino() == found.ino()),
        (Ok(_), Err(error)) if error.kind() == ErrorKind::NotFound => Ok(false),
        _ => Err(FileFault::Unlockable),
    }
}

/// The file at a path, opened in that way, and locked: the one that is at the path then.
///
/// # Errors
///
/// `Open`, or `NoMemory`, where it can't be opened; else one of `is_held_at`; `Locked` also where the
/// path has another file each time.
pub fn open_held<R: Locks>(
    rt: &R,
    path: &str,
    how: &OpenOptions,
    share: Share,
    locking: Locking,
) -> Result<R::File, FileFault> {
    for _ in 0..MOST_TRIES {
        let file = how.open(rt, path).map_err(|error| fault_of(error))?;
        if is_held_at(rt, &file, path, share, locking)? {
            return Ok(file);
        }
    }
    Err(FileFault::Locked)
}

/// Why a file can't be opened.
pub fn fault_of(error: io::Error) -> FileFault
    ensures { IsOfOpening result }
{
    match error.kind() {
        ErrorKind::OutOfMemory => FileFault::NoMemory,
        _ => FileFault::Open,
    }
}
