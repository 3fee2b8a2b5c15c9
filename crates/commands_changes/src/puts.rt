// The command that puts a file of the system into an image.
ghost use Rattle.std.specs.Prelude.{◌≡◌, IfErr, IfOk, IsTrue, OnErr, true};
ghost use Rattle.commands_changes.specs.Puts.{HasPut, OnPutRefusal};
ghost use Rattle.commands_changes.specs.PutsAnew.{HasPutIfSo, IsUnputAnew};
ghost use Rattle.commands_changes.specs.PutsOver.{IsUnputOver, PutsOver};

use crate::puts_anew::{PutAnew, put_anew};
use crate::refused::{PutFileRefusal, ReadFault};
use blocks::Disk;
use cmd::{Access, Command, DiskCommand, Locking, Locks, OnFile, OverFile};
use commands::Holder;
use layout::greatest_size;
use messages::Meter;
use model::types::{Form, TRANSFER_LIMIT};
use std::alloc::Global;
use std::fs::File;
use std::io;
use std::io::{ErrorKind, Read, Write};
use std::rt::Files;
use transfer::{PutRefusal, put_disk};

/// Puts the bytes of the file at the path `file` into the image in the file at the path `image`, as
/// `put_disk`.
///
/// With `sync`, more bytes than one write moves are put into a copy of the image, which is written to a
/// file beside it, synced, and then takes its name: the image is the old one or the new one, whatever
/// stops the system. So it is where the image is in a plain file with one name, whose folder has a place
/// for a new file with the same owner; else the image's log is written.
///
/// It is refused for the first of these. `Unread` where the file can't be read, or with `NoMemory`,
/// and then nothing else was done; `Of` with a fault of `FileDisk::open` or a refusal of `put_disk`, or of
/// the new file, and then the old one stands. No contract of std says which bytes a path's file has.
#[derive(Drop)]
pub struct Put<'a, P, H> {
    /// The path of the image's file.
    pub image: &'a str,
    /// The path of the file whose bytes are put.
    pub file: &'a str,
    /// The number of the image's file that gets them; none for a new one.
    pub inum: Option<u32>,
    /// Whether the image's file holds writes back until it is synced.
    pub sync: bool,
    /// Whether it is synced at the end.
    pub last: bool,
    /// How its lock is taken, once the bytes are read.
    pub locking: Locking,
    /// Who is told how far the put is.
    pub progress: P,
    /// Who holds the files where a new one is made.
    pub holder: H,
}

impl<'a, R: Locks + AllocGlobal, P: Meter + Drop, H: Holder<R::File> + Drop> Command<R>
    for Put<'a, P, H> {
    type Refusal = PutFileRefusal;

    ghost done = { λ put. HasPut R.File.remaining put.inum put.sync put.last };

    ghost refused = { λ put old new.
        OnPutRefusal R.File.remaining put.inum put.sync put.last };

    fn run<O: Write>(self, rt: &R, out: &mut O) -> Result<(), PutFileRefusal> {
        let bytes = bytes_from(rt, self.file)?;
        let mut holder = self.holder;
        let sync = self.sync;
        match put_whole(
            rt,
            self.image,
            bytes.as_slice(),
            self.inum,
            sync,
            &mut holder,
            out,
        ) {
            Ok(true) => Ok(()),
            Ok(false) => {
                let put = PutBytes {
                    bytes,
                    inum: self.inum,
                    last: self.last,
                    progress: self.progress,
                };
                let access = Access::Change {
                    sync,
                    locking: self.locking,
                };
                match OverFile(self.image, access, put).run(rt, out) {
                    Ok(()) => Ok(()),
                    Err(refusal) => Err(PutFileRefusal::Of(refusal)),
                }
            }
            Err(refusal) => Err(PutFileRefusal::Of(refusal)),
        }
    }
}

// Puts bytes by way of a new file where that is asked for and is the way. False where it isn't, and then
// nothing was done.
fn put_whole<R: Locks + AllocGlobal, H: Holder<R::File>, O: Write>(
    rt: &R,
    image: &str,
    bytes: &[u8],
    inum: Option<u32>,
    sync: bool,
    holder: &mut H,
    out: &mut O,
) -> Result<bool, OnFile<PutRefusal>>
    ensures put { IfOk result (HasPutIfSo R.File.remaining inum bytes.now
        (O.contents out.old) (O.contents out.new) (out.new ≡ out.old)) }
    ensures asked { IfOk result (λ whole. whole ≡ true → IsTrue sync) }
    ensures refused { IfErr result
        (IsUnputAnew R.File.remaining inum bytes.now (out.new ≡ out.old)) }
    ensures only { OnErr result (IsTrue sync) }
{
    if !sync || bytes.len() <= TRANSFER_LIMIT as usize {
        return Ok(false);
    }
    put_anew(rt, &PutAnew { image, bytes, inum }, holder, out)
}

// Puts these bytes.
#[derive(Drop)]
struct PutBytes<P> {
    bytes: Vec<u8>,
    inum: Option<u32>,
    last: bool,
    progress: P,
}

impl<P: Meter + Drop> DiskCommand for PutBytes<P> {
    type Refusal = PutRefusal;

    ghost done = { λ put c. PutsOver c.disk put.inum put.bytes.items put.last c.was c.now };

    ghost refused = { λ put c old new none.
        IsUnputOver c.disk put.inum put.bytes.items put.last none c.was c.now };

    fn run_on<D: Disk + Drop, O: Write>(
        self,
        alloc: Global,
        disk: D,
        out: &mut O,
    ) -> (Result<(), PutRefusal>, D) {
        let mut progress = self.progress;
        put_disk(
            alloc,
            disk,
            self.bytes.as_slice(),
            self.inum,
            self.last,
            &mut progress,
            out,
        )
    }
}

/// The bytes of the file at this path; of one that is larger than any in an image one more than these
/// may have.
///
/// # Errors
///
/// `NoMemory` where memory is refused, else `File` where it can't be read.
pub fn bytes_from<R: Files + AllocGlobal>(rt: &R, path: &str) -> Result<Vec<u8>, ReadFault> {
    let file = File::open(rt, path).map_err(|error| unread(error))?;
    read_bytes(rt.alloc(), file)
}

fn read_bytes<I: Read + Drop>(alloc: Global, file: I) -> Result<Vec<u8>, ReadFault> {
    let mut bytes = Vec::new(alloc);
    file.take(greatest_size(Form::Two) as u64 + 1)
        .read_to_end(&mut bytes)
        .map_err(|error| unread(error))?;
    Ok(bytes)
}

// Why a file can't be read.
fn unread(error: io::Error) -> ReadFault {
    match error.kind() {
        ErrorKind::OutOfMemory => ReadFault::NoMemory,
        _ => ReadFault::File,
    }
}
