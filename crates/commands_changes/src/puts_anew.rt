// Many bytes put into an image that is made anew.
ghost use Rattle.std.specs.Prelude.{◌≡◌, ◌<◌, ◌≤◌, length, IfErr, IfOk, OnOk};
ghost use Rattle.std.proofs.Common.{inl};
ghost use Rattle.cmd.specs.Lemmas.Disks.{file_disk};
ghost use Rattle.cmd.specs.declared.files.OnFile.TheVariants as on;
ghost use Rattle.model.specs.Operations.{transfer_limit};
ghost use Rattle.commands.specs.Copied.{memory};
ghost use Rattle.commands_changes.specs.PutsAnew.{
  HasPutAnew,
  HasPutIfSo,
  IsNotPutAnew,
  IsUnputAnew,
  IsUnputIn,
  IsUnputOpened,
  IsUnwrittenAnew,
  IsWrittenAnew,
  PutsIn,
  PutsOpened,
};

use blocks::{Block, Disk, FileDisk, MemDisk, NoMemory};
use cmd::{Access, Locking, Locks, OnFile, open_for};
use commands::{Copied, Holder, MakesThere, make_instead, write_whole};
use messages::Silent;
use std::alloc::Global;
use std::fs::OpenFile;
use std::io::{Read, Seek, Write};
use transfer::{PutRefusal, put_disk, write_image};

/// More bytes than one write moves, which are put into the image in a file by way of a new file that
/// takes its place: a stop of the system leaves the old image or the new one.
#[derive(Drop)]
pub struct PutAnew<'a> {
    /// The path of the image's file.
    pub image: &'a str,
    /// The bytes.
    pub bytes: &'a [u8],
    /// The number of the image's file that gets them; none for a new one.
    pub inum: Option<u32>,
}

// Puts them so, and tells the number of their file. False where the image is in no plain file with one
// name, or there is no place for another beside it: then nothing was done.
pub fn put_anew<'a, R: Locks + AllocGlobal, H: Holder<R::File>, O: Write>(
    rt: &R,
    put: &PutAnew<'a>,
    holder: &mut H,
    out: &mut O,
) -> Result<bool, OnFile<PutRefusal>>
    requires { transfer_limit < length put.now.bytes.now }
    ensures put { IfOk result (HasPutIfSo R.File.remaining put.now.inum put.now.bytes.now
        (O.contents out.old) (O.contents out.new) (out.new ≡ out.old)) }
    ensures refused { IfErr result (IsUnputAnew R.File.remaining put.now.inum put.now.bytes.now
        (out.new ≡ out.old)) }
{
    match make_instead(rt, put.image, put, holder) {
        Ok(None) => Ok(false),
        Ok(Some(text)) => match write_whole(out, text.as_slice()) {
            Ok(()) => Ok(true),
            Err(_) => Err(OnFile::Of(PutRefusal::Output)),
        },
        Err(refused) => Err(refused),
    }
}

impl<'a, R: Locks + AllocGlobal> MakesThere<R> for PutAnew<'a> {
    // What tells the number of their file.
    type Made = Vec<u8>;

    type Fault = PutRefusal;

    ghost can = { λ put. transfer_limit < length put.bytes.now };

    ghost made = { λ put text. HasPutAnew R.File.remaining put.inum put.bytes.now text.items };

    ghost unmade = { λ put. IsNotPutAnew R.File.remaining put.inum put.bytes.now };

    ghost files = { λ put fault. inl tt };

    fn make_there(&self, rt: &R, file: R::File) -> Result<Vec<u8>, OnFile<PutRefusal>> {
        match put_opened(rt, self) {
            Ok((text, mut image)) => match write_new(rt.alloc(), &mut image, file) {
                Ok(()) => Ok(text),
                Err(refused) => Err(refused),
            },
            Err(refused) => Err(refused),
        }
    }
}

// Puts bytes into a copy in memory of an image whose file is held. What tells the number of their file,
// and the image.
fn put_opened<'a, R: Locks + AllocGlobal>(
    rt: &R,
    put: &PutAnew<'a>,
) -> Result<(Vec<u8>, MemDisk), OnFile<PutRefusal>>
    ensures put { IfOk result (λ made. PutsOpened R.File.remaining put.now.inum put.now.bytes.now
        made.0.items made.1) }
    ensures refused { IfErr result (IsUnputOpened R.File.remaining put.now.inum put.now.bytes.now) }
{
    match open_for(rt, put.image, Access::Look(Locking::Never)) {
        Ok(mut disk) => match copied_from(rt.alloc(), &mut disk) {
            Ok(copy) => match put_in(rt.alloc(), copy, put.bytes, put.inum) {
                Ok(made) => Ok(made),
                Err(refusal) => Err(OnFile::Of(refusal)),
            },
            Err(_) => Err(OnFile::Of(PutRefusal::NoMemory)),
        },
        Err(fault) => Err(OnFile::File(fault)),
    }
}

/// A disk in memory with the blocks of the one in a file.
///
/// # Errors
///
/// `NoMemory` where memory for them is refused.
pub fn copied_from<F: Write + Seek + OpenFile + Drop>(
    alloc: Global,
    disk: &mut FileDisk<F>,
) -> Result<MemDisk, NoMemory>
    ensures { IfOk result (λ copy. memory.image copy ≡ file_disk.image disk.old) }
{
    let mut block = Block::zeroed(alloc)?;
    let copied = Copied::of(alloc, disk, &mut block)?;
    copied.disk(alloc)
}

// Puts bytes into an image in memory. What tells the number of their file, and the image.
fn put_in(
    alloc: Global,
    image: MemDisk,
    bytes: &[u8],
    inum: Option<u32>,
) -> Result<(Vec<u8>, MemDisk), PutRefusal>
    ensures put { IfOk result (λ made. PutsIn inum bytes.now image made.0.items made.1) }
    ensures refused { IfErr result (IsUnputIn inum bytes.now image) }
{
    let mut text = Vec::new(alloc);
    match put_disk(alloc, image, bytes, inum, false, &mut Silent, &mut text) {
        (Ok(()), image) => Ok((text, image)),
        (Err(refusal), _image) => Err(refusal),
    }
}

/// Writes an image to a new file, the superblock last, and syncs it.
///
/// # Errors
///
/// `File` where the file can't be made as large; `Of` with `NoMemory`, or with `Disk` where a write or a
/// sync failed.
pub fn write_new<F: Read + Write + Seek + OpenFile + Drop>(
    alloc: Global,
    image: &mut MemDisk,
    file: F,
) -> Result<(), OnFile<PutRefusal>>
    requires { 2 ≤ length (memory.image image.old) }
    ensures written { OnOk result (IsWrittenAnew F (memory.image image.old)) }
    ensures refused { IfErr result (IsUnwrittenAnew F) }
{
    let mut block = match Block::zeroed(alloc) {
        Ok(block) => block,
        Err(_) => return Err(OnFile::Of(PutRefusal::NoMemory)),
    };
    match FileDisk::zeroed(alloc, file, image.size()) {
        Ok(mut disk) => match write_image(image, &mut disk, true, &mut block, &mut Silent) {
            Ok(()) => Ok(()),
            Err(fault) => Err(OnFile::Of(PutRefusal::from(fault))),
        },
        Err(fault) => Err(OnFile::File(fault)),
    }
}
