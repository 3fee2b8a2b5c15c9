// The command that writes the bytes of a file of an image.
ghost use Rattle.std.specs.Prelude.{◌≡◌, [], false, true, IfErr, OnOk};
ghost use Rattle.commands_runs.specs.Cats.{HasCat, HasGathered, IsNotCat, IsUngathered, of_memory};

use cmd::{Access, Command, Locking, Locks, OnFile, OverFile};
use commands::write_whole;
use disk_commands::{Cat as Recovering, CatReadOnly, CatRefusal};
use std::alloc::Global;
use std::fs::OpenOptions;
use std::io::{ErrorKind, Write};
use std::rt::Files;

/// Writes the bytes of the file of a number of the image in the file at the path `image`: recovers that
/// first, as `player::cat_disk`; where it is only to be read, or may only be read, as
/// `player::cat_read_only`. The image's file is closed before the first byte is written, and its lock
/// given up.
///
/// It is refused with a fault of `open_for`, or as these are, and then nothing was written: with
/// `NoMemory` also where memory for the bytes is refused. Else with `Output`.
#[derive(Clone, Copy, Drop)]
pub struct Cat<'a> {
    /// The path of the image's file.
    pub image: &'a str,
    /// The file's number.
    pub inum: u32,
    /// Whether the image is only read.
    pub read_only: bool,
    /// How its lock is taken.
    pub locking: Locking,
}

impl<'a, R: Locks + AllocGlobal> Command<R> for Cat<'a> {
    type Refusal = OnFile<CatRefusal>;

    ghost done = { λ cat. HasCat R.File.remaining cat.read_only cat.inum };

    ghost refused = { λ cat old new. IsNotCat R.File.remaining cat.read_only cat.inum };

    fn run<O: Write>(self, rt: &R, out: &mut O) -> Result<(), OnFile<CatRefusal>> {
        let mut bytes = Vec::new(rt.alloc());
        match gather(rt, self, &mut bytes) {
            Ok(()) => match write_whole(out, bytes.as_slice()) {
                Ok(()) => Ok(()),
                Err(_) => Err(OnFile::Of(CatRefusal::Output)),
            },
            Err(refusal) => Err(refusal),
        }
    }
}

// Gathers the bytes. A file that may not be written is only read.
fn gather<R: Locks + AllocGlobal>(
    rt: &R,
    cat: Cat<'_>,
    bytes: &mut Vec<u8>,
) -> Result<(), OnFile<CatRefusal>>
    requires { bytes.old.items ≡ [] }
    ensures gathered { OnOk result
        (HasGathered R.File.remaining cat.entry.read_only cat.entry.inum bytes.new.items) }
    ensures refused { IfErr result
        (IsUngathered R.File.remaining cat.entry.read_only cat.entry.inum) }
{
    if cat.read_only || !may_be_written(rt, cat.image) {
        return gather_read_only(rt, cat, bytes);
    }
    gather_recovered(rt, cat, bytes)
}

// Gathers the bytes of an image that is recovered first.
fn gather_recovered<R: Locks + AllocGlobal>(
    rt: &R,
    cat: Cat<'_>,
    bytes: &mut Vec<u8>,
) -> Result<(), OnFile<CatRefusal>>
    requires { bytes.old.items ≡ [] }
    ensures gathered { OnOk result
        (HasGathered R.File.remaining false cat.entry.inum bytes.new.items) }
    ensures refused { IfErr result (IsUngathered R.File.remaining false cat.entry.inum) }
{
    let access = Access::Change {
        sync: false,
        locking: cat.locking,
    };
    of_memory(OverFile(cat.image, access, Recovering(cat.inum)).run(rt, bytes))
}

// Gathers the bytes of an image that is only read.
fn gather_read_only<R: Locks + AllocGlobal>(
    rt: &R,
    cat: Cat<'_>,
    bytes: &mut Vec<u8>,
) -> Result<(), OnFile<CatRefusal>>
    requires { bytes.old.items ≡ [] }
    ensures gathered { OnOk result
        (HasGathered R.File.remaining true cat.entry.inum bytes.new.items) }
    ensures refused { IfErr result (IsUngathered R.File.remaining true cat.entry.inum) }
{
    let access = Access::Look(cat.locking);
    of_memory(OverFile(cat.image, access, CatReadOnly(cat.inum)).run(rt, bytes))
}

// How it is told that bytes aren't gathered: what can't be written into memory, memory has no room for.
fn of_memory(gathered: Result<(), OnFile<CatRefusal>>) -> Result<(), OnFile<CatRefusal>>
    ensures { result ≡ of_memory gathered }
{
    match gathered {
        Err(OnFile::Of(CatRefusal::Output)) => Err(OnFile::Of(CatRefusal::NoMemory)),
        ended => ended,
    }
}

// Whether the system doesn't forbid to write a file.
fn may_be_written<R: Files>(rt: &R, path: &str) -> bool {
    match OpenOptions::new().read(true).write(true).open(rt, path) {
        Ok(_) => true,
        Err(error) => !matches!(
            error.kind(),
            ErrorKind::PermissionDenied | ErrorKind::ReadOnlyFilesystem
        ),
    }
}
