// The command that puts a file of the system under a path of an image.
ghost use Rattle.std.specs.Prelude.{◌≡◌, ◌<◌, false, length, true, IfErr, IfOk, OnErr, OnOk};
ghost use Rattle.cmd.specs.Lemmas.Disks.{file_disk};
ghost use Rattle.cmd.specs.Opened.{OpensDisk};
ghost use Rattle.model.specs.Operations.{transfer_limit};
ghost use Rattle.tree_changes.specs.Puts.{Puts};
ghost use Rattle.tree_changes.specs.Room.{HasRoomFor};
ghost use Rattle.tree_puts.specs.Anew.{ChangesIn, HasChangedIfSo, IsUnchangedAnew};
ghost use Rattle.tree_puts.specs.Puts.{HasPut, PutsOver};
ghost use Rattle.tree_puts.specs.Refusals.{HasNoRoom, IsUnput, IsUnputIn, IsUnputOver};

use crate::anew::{ChangeAnew, change_anew};
use crate::refused::PutRefusal;
use cmd::{Access, Command, Locking, Locks, OnFile, disk_over, open_image, run_over};
use commands::Holder;
use commands_changes::bytes_from;
use model::types::TRANSFER_LIMIT;
use std::alloc::Global;
use std::fs::OpenFile;
use std::io::{Read, Seek, Write};
use tree_changes::{ChangeRefusal, OverTree, Put, judge_room};

/// Puts the bytes of the file at the path `file` under a path of the image in the file at the path
/// `image`.
///
/// More bytes than one call writes are put into a copy of the image, which is written to a file beside it,
/// synced, and then takes its name: the image is the old one or the new one, whatever stops the system. So
/// it is where the image is in a plain file with one name, whose folder has a place for a new file with
/// the same owner. Else they are put where it stands, if they have room in it, as `judge_room` says, which
/// is asked before anything is changed.
#[derive(Drop)]
pub struct PutFile<'a, H> {
    /// The path of the image's file.
    pub image: &'a str,
    /// The path of the file whose bytes are put.
    pub file: &'a str,
    /// The path under which they are put.
    pub path: &'a str,
    /// Whether the image's file holds writes back until it is synced.
    pub sync: bool,
    /// Whether it is synced at the end.
    pub last: bool,
    /// How its lock is taken, once the bytes are read.
    pub locking: Locking,
    /// Who holds the files where a new one is made.
    pub holder: H,
}

impl<'a, R: Locks + AllocGlobal, H: Holder<R::File> + Drop> Command<R> for PutFile<'a, H> {
    type Refusal = PutRefusal;

    ghost done = { λ put. HasPut R.File.remaining put.path.now put.sync put.last };

    ghost refused = { λ put old new.
        IsUnput R.File.remaining put.path.now put.sync put.last };

    fn run<O: Write>(self, rt: &R, out: &mut O) -> Result<(), PutRefusal> {
        let mut holder = self.holder;
        let place = Place {
            image: self.image,
            sync: self.sync,
            last: self.last,
            locking: self.locking,
        };
        match bytes_from(rt, self.file) {
            Ok(bytes) => {
                let put = Put {
                    path: self.path.as_bytes(),
                    bytes,
                };
                put_bytes(rt, &place, put, &mut holder, out)
            }
            Err(fault) => Err(PutRefusal::Unread(fault)),
        }
    }
}

// The image that bytes are put into, and how.
#[derive(Drop)]
struct Place<'a> {
    image: &'a str,
    sync: bool,
    last: bool,
    locking: Locking,
}

// Puts bytes by way of a new file where they are many and that is the way, else where the image stands.
fn put_bytes<R: Locks + AllocGlobal, H: Holder<R::File>, O: Write>(
    rt: &R,
    place: &Place<'_>,
    put: Put<'_>,
    holder: &mut H,
    out: &mut O,
) -> Result<(), PutRefusal>
    ensures put { OnOk result (HasPut R.File.remaining put.entry.path.now place.now.sync place.now.last
        (O.contents out.old) (O.contents out.new)) }
    ensures refused { IfErr result (IsUnput R.File.remaining put.entry.path.now
        place.now.sync place.now.last (out.new ≡ out.old)) }
{
    match put_anew(rt, place.image, &put, holder, out) {
        Ok(true) => Ok(()),
        Ok(false) => put_over(rt, place, put, out),
        Err(refused) => Err(PutRefusal::Of(refused)),
    }
}

// Puts more bytes than one call writes by way of a new file. False where they are fewer, or that is not
// the way: then nothing was done.
fn put_anew<R: Locks + AllocGlobal, H: Holder<R::File>, O: Write>(
    rt: &R,
    image: &str,
    put: &Put<'_>,
    holder: &mut H,
    out: &mut O,
) -> Result<bool, OnFile<ChangeRefusal>>
    ensures put { IfOk result (HasChangedIfSo R.File.remaining
        (ChangesIn (Puts put.now.path.now put.now.bytes.items))
        (O.contents out.old) (O.contents out.new) (out.new ≡ out.old)) }
    ensures long { IfOk result (λ anew. anew ≡ true → transfer_limit < length put.now.bytes.items) }
    ensures refused { IfErr result (IsUnchangedAnew R.File.remaining
        (ChangesIn (Puts put.now.path.now put.now.bytes.items))
        (IsUnputIn put.now.path.now put.now.bytes.items) (λ why. why) (out.new ≡ out.old)) }
    ensures many { OnErr result (transfer_limit < length put.now.bytes.items) }
{
    if put.bytes.len() <= TRANSFER_LIMIT as usize {
        return Ok(false);
    }
    change_anew(rt, &ChangeAnew { image, change: put }, holder, out)
}

// Puts bytes into an image where it stands.
fn put_over<R: Locks + AllocGlobal, O: Write>(
    rt: &R,
    place: &Place<'_>,
    put: Put<'_>,
    out: &mut O,
) -> Result<(), PutRefusal>
    ensures put { OnOk result (PutsOver R.File.remaining put.entry.path.now
        put.entry.bytes.items
        place.now.sync place.now.last (O.contents out.old) (O.contents out.new)) }
    ensures refused { IfErr result (IsUnputOver R.File.remaining put.entry.path.now
        place.now.sync place.now.last (out.new ≡ out.old)) }
{
    let access = Access::Change {
        sync: place.sync,
        locking: place.locking,
    };
    let file = match open_image(rt, place.image, access) {
        Ok(file) => file,
        Err(fault) => return Err(PutRefusal::Of(OnFile::File(fault))),
    };
    if let Err(refusal) = judge(rt.alloc(), &file, put.bytes.len()) {
        return Err(PutRefusal::NoRoom(refusal));
    }
    let over = OverTree {
        change: put,
        last: place.last,
    };
    match run_over(rt.alloc(), &file, place.sync, over, out) {
        Ok(()) => Ok(()),
        Err(refusal) => Err(PutRefusal::Of(refusal)),
    }
}

// Whether that many bytes may be put into the image in a file, as far as that is told before anything
// of it is changed: no more than one call writes always may. So a file loses no bytes for others that it
// can't have.
fn judge<F: Read + Write + Seek + OpenFile + Drop>(
    alloc: Global,
    file: &F,
    count: usize,
) -> Result<(), OnFile<ChangeRefusal>>
    ensures room { OnOk result (transfer_limit < count
        → OpensDisk F.remaining file_disk false (HasRoomFor file_disk count)) }
    ensures many { OnErr result (transfer_limit < count) }
    ensures refused { IfErr result (HasNoRoom F.remaining count) }
{
    if count <= TRANSFER_LIMIT as usize {
        return Ok(());
    }
    let mut disk = match disk_over(alloc, file, false) {
        Ok(disk) => disk,
        Err(fault) => return Err(OnFile::File(fault)),
    };
    match judge_room(alloc, &mut disk, count) {
        Ok(()) => Ok(()),
        Err(refusal) => Err(OnFile::Of(refusal)),
    }
}
