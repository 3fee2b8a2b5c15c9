// A new file in place of the one at a path, which is kept until the new one is whole.
ghost use Rattle.std.specs.Prelude.{IfErr, IfOk, IfSome};
ghost use Rattle.cmd.specs.declared.files.OnFile.{OnFile as SomeOnFile};
ghost use Rattle.cmd.specs.declared.files.OnFile.TheVariants as on;
ghost use Rattle.blocks.specs.declared.errors.FileFault.{FileFault as SomeFileFault};

use crate::beside::beside_of;
use crate::holding::Holder;
use crate::settling::{remove_refused, sync_folder};
use blocks::FileFault;
use cmd::{OnFile, fault_of};
use std::fs::{
    OpenFile, OpenOptions, canonicalize, hard_link, metadata, remove_file, rename, set_permissions,
    symlink_metadata,
};
use std::io::ErrorKind;
use std::os::unix::fs::{MetadataExt, PermissionsExt, chown};
use std::rt::Files;

// What others may do with a file that is made where none was, as far as the system's mask lets them.
const NEW_MODE: u32 = 0o666;

// The same where it isn't known what they may do with the one that is there.
const OWN_MODE: u32 = 0o600;

/// What is made in a new file of the system.
pub trait MakesThere<R: Files + AllocGlobal> {
    /// What is told of it.
    type Made: Drop;

    /// Why it isn't made.
    type Fault: Drop;

    /// It can be made.
    ghost can: { Self → Type 0 };

    /// It was made, and this is told of it.
    ghost made: { Self → Self.Made → Type 0 };

    /// It was not, for this reason.
    ghost unmade: { Self → SomeOnFile Self.Fault → Type 0 };

    /// Makes it in this file, which is empty.
    fn make_there(&self, rt: &R, file: R::File) -> Result<Self::Made, OnFile<Self::Fault>>
        requires { can self.now }
        ensures made { IfOk result (made self.now) }
        ensures unmade { IfErr result (unmade self.now) };

    /// The file may be one that can't be made or used.
    ghost files: { (m : Self) (fault : SomeFileFault) → unmade m (on.File fault) };
}

/// Makes something in place of the file that stands at the path, or where that is no file, there, and
/// syncs the folder where that is asked for. By its code a file that stands there, and that a link
/// there leads to, is kept until the new one is whole: that is made in a file beside it, `.xvfs-new`
/// behind its name, which then gets its owner, its permissions and its name. Where it is refused, that
/// file is taken away. One that an earlier run left is taken for it. Each file is held before it is
/// written or replaced. What is no file, as a device, is written where it stands.
///
/// # Errors
///
/// One of `make_there`; a fault of the holder, or `Open` where the file can't be written or replaced, or
/// its folder not synced, and then the new one stands.
pub fn make_in_place<R: Files + AllocGlobal, M: MakesThere<R>, H: Holder<R::File>>(
    rt: &R,
    image: &str,
    making: &M,
    sync: bool,
    holder: &mut H,
) -> Result<M::Made, OnFile<M::Fault>>
    requires { M.can making.now }
    ensures made { IfOk result (M.made making.now) }
    ensures unmade { IfErr result (M.unmade making.now) }
{
    match home_of(rt, image) {
        Ok(None) => match holder.hold_any(image) {
            Ok(file) => making.make_there(rt, file),
            Err(fault) => Err(OnFile::File(fault)),
        },
        Ok(Some(home)) => make_beside(rt, home.as_str(), making, sync, holder),
        Err(fault) => Err(OnFile::File(fault)),
    }
}

/// The same in place of a plain file with one name, and of nothing else: none where that isn't so, or its
/// folder has no place for a new file with its owner. Then by its code nothing was done.
///
/// # Errors
///
/// As those of `make_in_place`, but that a folder without a place for it is no error.
pub fn make_instead<R: Files + AllocGlobal, M: MakesThere<R>, H: Holder<R::File>>(
    rt: &R,
    image: &str,
    making: &M,
    holder: &mut H,
) -> Result<Option<M::Made>, OnFile<M::Fault>>
    requires { M.can making.now }
    ensures made { IfOk result (λ made. IfSome made (M.made making.now)) }
    ensures unmade { IfErr result (M.unmade making.now) }
{
    match home_of(rt, image) {
        Ok(Some(home)) if has_one_name(rt, home.as_str()) => {
            make_alike(rt, home.as_str(), making, holder)
        }
        Ok(_) => Ok(None),
        Err(fault) => Err(OnFile::File(fault)),
    }
}

fn has_one_name<R: Files>(rt: &R, path: &str) -> bool {
    matches!(symlink_metadata(rt, path), Ok(found) if found.is_file() && found.nlink() == 1)
}

// Makes something in a file beside `home` that has its owner, and then takes its name. None where there
// is no place for such a file.
fn make_alike<R: Files + AllocGlobal, M: MakesThere<R>, H: Holder<R::File>>(
    rt: &R,
    home: &str,
    making: &M,
    holder: &mut H,
) -> Result<Option<M::Made>, OnFile<M::Fault>>
    requires { M.can making.now }
    ensures made { IfOk result (λ made. IfSome made (M.made making.now)) }
    ensures unmade { IfErr result (M.unmade making.now) }
{
    let beside = match beside_of(rt.alloc(), home) {
        Ok(beside) => beside,
        Err(_) => return Err(OnFile::File(FileFault::NoMemory)),
    };
    let path = beside.as_str();
    match hold_alike(rt, path, home, holder) {
        Ok(Some(file)) => match make_synced(rt, path, home, &file, making, true, holder) {
            Ok(made) => Ok(Some(made)),
            Err(refused) => Err(refused),
        },
        Ok(None) => Ok(None),
        Err(fault) => Err(OnFile::File(fault)),
    }
}

// Holds a file at a path that has the owner of another. None where there is no place for one.
fn hold_alike<R: Files, H: Holder<R::File>>(
    rt: &R,
    path: &str,
    home: &str,
    holder: &mut H,
) -> Result<Option<R::File>, FileFault> {
    match holder.hold_left(path, mode_there(rt, home)) {
        Ok(file) => {
            if give_owner(rt, path, home).is_ok() {
                return Ok(Some(file));
            }
            let _gone = remove_file(rt, path);
            Ok(None)
        }
        Err(FileFault::Open | FileFault::Exists) => Ok(None),
        Err(fault) => Err(fault),
    }
}

// Makes something in the file at a path, which is held and then takes the name `home`, and syncs the
// folder where that is asked for.
fn make_synced<R: Files + AllocGlobal, M: MakesThere<R>, H: Holder<R::File>>(
    rt: &R,
    path: &str,
    home: &str,
    file: &R::File,
    making: &M,
    sync: bool,
    holder: &mut H,
) -> Result<M::Made, OnFile<M::Fault>>
    requires { M.can making.now }
    ensures made { IfOk result (M.made making.now) }
    ensures unmade { IfErr result (M.unmade making.now) }
{
    match make_held(rt, path, home, file, making, holder) {
        Ok(made) => match sync_folder(rt, home, sync) {
            Ok(()) => Ok(made),
            Err(fault) => Err(OnFile::File(fault)),
        },
        Err(refused) => Err(refused),
    }
}

// The name that a new file with an image at this path is given. None where it is made at the path.
fn home_of<R: Files + AllocGlobal>(rt: &R, path: &str) -> Result<Option<String>, FileFault> {
    match symlink_metadata(rt, path) {
        Ok(found) if found.is_symlink() => linked_home(rt, path),
        Ok(found) if found.is_file() => {
            ensure_writable(rt, path)?;
            named(rt, path)
        }
        Ok(_) => Ok(None),
        Err(error) if error.kind() == ErrorKind::NotFound => named(rt, path),
        Err(error) => Err(fault_of(error)),
    }
}

// The same where a link is there. One that leads nowhere is followed by whoever makes a file there.
fn linked_home<R: Files + AllocGlobal>(rt: &R, path: &str) -> Result<Option<String>, FileFault> {
    match metadata(rt, path) {
        Ok(found) if found.is_file() => {}
        Ok(_) => return Ok(None),
        Err(error) if error.kind() == ErrorKind::NotFound => return Ok(None),
        Err(error) => return Err(fault_of(error)),
    }
    ensure_writable(rt, path)?;
    let home = canonicalize(rt, path).map_err(|error| fault_of(error))?;
    named(rt, home.as_str())
}

fn ensure_writable<R: Files>(rt: &R, path: &str) -> Result<(), FileFault> {
    let _writable = OpenOptions::new()
        .write(true)
        .open(rt, path)
        .map_err(|error| fault_of(error))?;
    Ok(())
}

fn named<R: Files + AllocGlobal>(rt: &R, path: &str) -> Result<Option<String>, FileFault> {
    match path.to_string(rt.alloc()) {
        Ok(home) => Ok(Some(home)),
        Err(_) => Err(FileFault::NoMemory),
    }
}

// Makes something in a file beside `home`, which then takes that name. Of the two the first is held
// first, so that no two programs wait for each other.
fn make_beside<R: Files + AllocGlobal, M: MakesThere<R>, H: Holder<R::File>>(
    rt: &R,
    home: &str,
    making: &M,
    sync: bool,
    holder: &mut H,
) -> Result<M::Made, OnFile<M::Fault>>
    requires { M.can making.now }
    ensures made { IfOk result (M.made making.now) }
    ensures unmade { IfErr result (M.unmade making.now) }
{
    let beside = match beside_of(rt.alloc(), home) {
        Ok(beside) => beside,
        Err(_) => return Err(OnFile::File(FileFault::NoMemory)),
    };
    let path = beside.as_str();
    match holder.hold_left(path, mode_there(rt, home)) {
        Ok(file) => make_synced(rt, path, home, &file, making, sync, holder),
        Err(fault) => Err(OnFile::File(fault)),
    }
}

// What others may do with the file at a path, or with a new one where none is.
fn mode_there<R: Files>(rt: &R, path: &str) -> u32 {
    match metadata(rt, path) {
        Ok(found) => found.permissions().mode() & 0o777,
        Err(error) if error.kind() == ErrorKind::NotFound => NEW_MODE,
        Err(_) => OWN_MODE,
    }
}

// Makes something in the file at a path, which is held and then takes the name `home`. Where that name
// can't be held, a file that an earlier run left stays.
fn make_held<R: Files + AllocGlobal, M: MakesThere<R>, H: Holder<R::File>>(
    rt: &R,
    path: &str,
    home: &str,
    file: &R::File,
    making: &M,
    holder: &mut H,
) -> Result<M::Made, OnFile<M::Fault>>
    requires { M.can making.now }
    ensures made { IfOk result (M.made making.now) }
    ensures unmade { IfErr result (M.unmade making.now) }
{
    match holder.hold_there(home) {
        Ok(old) => {
            let made = make_named(rt, path, home, old.is_some(), file, making, holder);
            remove_refused(rt, path, file, &made);
            made
        }
        Err(fault) => {
            if matches!(file.metadata(), Ok(found) if found.len() == 0) {
                let _gone = remove_file(rt, path);
            }
            Err(OnFile::File(fault))
        }
    }
}

// Makes something in the file at a path, and gives it the name `home`, in place of the file that has it
// and is held, if one has.
fn make_named<R: Files + AllocGlobal, M: MakesThere<R>, H: Holder<R::File>>(
    rt: &R,
    path: &str,
    home: &str,
    is_held: bool,
    file: &R::File,
    making: &M,
    holder: &mut H,
) -> Result<M::Made, OnFile<M::Fault>>
    requires { M.can making.now }
    ensures made { IfOk result (M.made making.now) }
    ensures unmade { IfErr result (M.unmade making.now) }
{
    match make_emptied(rt, file, making) {
        Ok(made) => match take_name(rt, path, home, is_held, holder) {
            Ok(()) => Ok(made),
            Err(fault) => Err(OnFile::File(fault)),
        },
        Err(refused) => Err(refused),
    }
}

// Makes something in a file that is held, which loses its bytes.
fn make_emptied<R: Files + AllocGlobal, M: MakesThere<R>>(
    rt: &R,
    file: &R::File,
    making: &M,
) -> Result<M::Made, OnFile<M::Fault>>
    requires { M.can making.now }
    ensures made { IfOk result (M.made making.now) }
    ensures unmade { IfErr result (M.unmade making.now) }
{
    match emptied(file) {
        Ok(own) => making.make_there(rt, own),
        Err(fault) => Err(OnFile::File(fault)),
    }
}

// Another handle of a file, which loses its bytes.
fn emptied<F: OpenFile>(file: &F) -> Result<F, FileFault> {
    file.set_len(0).map_err(|error| fault_of(error))?;
    file.try_clone().map_err(|error| fault_of(error))
}

// Gives the file at a path another name, in place of the file that has it, if one has, which is held
// then.
fn take_name<R: Files, H: Holder<R::File>>(
    rt: &R,
    path: &str,
    name: &str,
    is_held: bool,
    holder: &mut H,
) -> Result<(), FileFault> {
    if is_held {
        return replace(rt, path, name);
    }
    name_new(rt, path, name, holder)
}

// Gives a file a name that nothing had. Another program may have made a file of that name by now.
fn name_new<R: Files, H: Holder<R::File>>(
    rt: &R,
    path: &str,
    name: &str,
    holder: &mut H,
) -> Result<(), FileFault> {
    match hard_link(rt, path, name) {
        Ok(()) => remove_file(rt, path).map_err(|error| fault_of(error)),
        Err(error) if error.kind() == ErrorKind::AlreadyExists => {
            match holder.hold_there(name)? {
                Some(_held) => replace(rt, path, name),
                None => Err(FileFault::Exists),
            }
        }
        // A file system whose files have one name each.
        Err(_) => match symlink_metadata(rt, name) {
            Err(error) if error.kind() == ErrorKind::NotFound => {
                rename(rt, path, name).map_err(|error| fault_of(error))
            }
            _ => Err(FileFault::Exists),
        },
    }
}

// Gives a file the name of another, its owner and its permissions.
fn replace<R: Files>(rt: &R, path: &str, name: &str) -> Result<(), FileFault> {
    give_owner(rt, path, name)?;
    let old = metadata(rt, name).map_err(|error| fault_of(error))?;
    set_permissions(rt, path, old.permissions()).map_err(|error| fault_of(error))?;
    rename(rt, path, name).map_err(|error| fault_of(error))
}

// Gives a file the owner of another.
fn give_owner<R: Files>(rt: &R, path: &str, name: &str) -> Result<(), FileFault> {
    let old = metadata(rt, name).map_err(|error| fault_of(error))?;
    let new = metadata(rt, path).map_err(|error| fault_of(error))?;
    if old.uid() == new.uid() && old.gid() == new.gid() {
        return Ok(());
    }
    chown(rt, path, Some(old.uid()), Some(old.gid())).map_err(|error| fault_of(error))
}
