// The command that puts a folder of the system below a path of an image.
ghost use Rattle.std.specs.Prelude.{◌≡◌, IfErr, OnOk};
ghost use Rattle.tree_changes.specs.Filling.{Fills};
ghost use Rattle.tree_puts.specs.Anew.{ChangesIn};
ghost use Rattle.tree_puts.specs.Folders.{folder_telling, HasPutFolder, IsUnfilledIn, IsUnputFolder};
ghost use Rattle.tree_puts.specs.Gathering.{AreBelow};

use crate::anew::{ChangeAnew, InMemory, change_anew};
use crate::gathering::{FolderFault, gather};
use blocks::MemDisk;
use cmd::{Command, Locks, OnFile};
use commands::Holder;
use messages::{Reason, Told};
use std::alloc::Global;
use std::io::Write;
use tree_changes::{ChangeRefusal, Fill, Item, change_disk};

/// Why a folder of the system isn't put into an image.
#[derive(Clone, Copy, Debug)]
pub enum FolderRefusal {
    /// What is below it can't be had.
    Ungathered(FolderFault),
    /// The image is in no plain file with one name, or its folder has no place for another with its owner.
    NoPlace,
    /// The image's file can't be used, or what is below the folder isn't put into the image.
    Of(OnFile<ChangeRefusal>),
}

impl Reason for FolderRefusal {
    ghost telling = { folder_telling };

    fn told(&self) -> Told {
        match self {
            FolderRefusal::Ungathered(fault) => fault.told(),
            FolderRefusal::NoPlace => Told::new("put", 9, "NoPlace"),
            FolderRefusal::Of(refusal) => refusal.told(),
        }
    }
}

/// Puts all that is below the folder at the path `folder`, as `gather` says, below a path of the image in
/// the file at the path `image`, as `Fill`.
///
/// It is put into a copy of the image, which is written to a file beside it, synced, and then takes its
/// name: the image is the old one or the new one, whatever stops the system or is refused. So it is refused
/// with `NoPlace` where that can't be done. Nothing is printed.
#[derive(Drop)]
pub struct PutFolder<'a, H> {
    /// The path of the image's file.
    pub image: &'a str,
    /// The path of the folder.
    pub folder: &'a str,
    /// The path below which it is put: of a directory, or of nothing.
    pub path: &'a str,
    /// Who holds the files.
    pub holder: H,
}

impl<'a, R: Locks + AllocGlobal, H: Holder<R::File> + Drop> Command<R> for PutFolder<'a, H> {
    type Refusal = FolderRefusal;

    ghost done = { λ put. HasPutFolder R.File.remaining put.path.now };

    ghost refused = { λ put old new. IsUnputFolder R.File.remaining put.path.now };

    fn run<O: Write>(self, rt: &R, out: &mut O) -> Result<(), FolderRefusal> {
        let mut holder = self.holder;
        let path = self.path.as_bytes();
        match gather(rt, self.folder, path) {
            Ok(items) => {
                let fill = Fill {
                    path,
                    items: items.as_slice(),
                };
                fill_anew(rt, self.image, &fill, &mut holder, out)
            }
            Err(fault) => Err(FolderRefusal::Ungathered(fault)),
        }
    }
}

// Puts items below a path of an image by way of a new file.
fn fill_anew<R: Locks + AllocGlobal, H: Holder<R::File>, O: Write>(
    rt: &R,
    image: &str,
    fill: &Fill<'_>,
    holder: &mut H,
    out: &mut O,
) -> Result<(), FolderRefusal>
    requires below { AreBelow fill.now.path.now fill.now.items.now }
    ensures put { OnOk result (HasPutFolder R.File.remaining fill.now.path.now
        (O.contents out.old) (O.contents out.new)) }
    ensures refused { IfErr result (IsUnputFolder R.File.remaining fill.now.path.now
        (out.new ≡ out.old)) }
{
    let anew = ChangeAnew {
        image,
        change: fill,
    };
    match change_anew(rt, &anew, holder, out) {
        Ok(true) => Ok(()),
        Ok(false) => Err(FolderRefusal::NoPlace),
        Err(refused) => Err(FolderRefusal::Of(refused)),
    }
}

impl<'a> InMemory for Fill<'a> {
    type Refusal = ChangeRefusal;

    ghost makes = { λ fill. ChangesIn (Fills fill.path.now fill.items.now) };

    ghost undone = { λ fill. IsUnfilledIn fill.path.now fill.items.now };

    ghost told = { λ refusal. refusal };

    fn make_in(&self, alloc: Global, image: MemDisk) -> Result<(Vec<u8>, MemDisk), ChangeRefusal> {
        let mut text = Vec::new(alloc);
        match change_disk(alloc, image, self, false, &mut text) {
            (Ok(()), image) => Ok((text, image)),
            (Err(refusal), _image) => Err(refusal),
        }
    }

    fn tell(refusal: ChangeRefusal) -> ChangeRefusal
        ensures { result ≡ refusal }
    {
        refusal
    }
}
