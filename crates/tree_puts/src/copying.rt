// The command that copies a file within an image.
ghost use Rattle.std.specs.Prelude.{◌≡◌, IfErr, IfOk};
ghost use Rattle.tree_changes.specs.Copying.{asked_by};
ghost use Rattle.tree_changes.specs.declared.copying.CopyRefusal.TheVariants as uncopied;
ghost use Rattle.tree_puts.specs.Anew.{HasChangedIfSo, IsUnchangedAnew};
ghost use Rattle.tree_puts.specs.Copies.{asked_anew, CopiesFile, CopiesIn, IsUncopiedFile, IsUncopiedIn};

use crate::anew::{ChangeAnew, InMemory, change_anew};
use blocks::MemDisk;
use cmd::{Access, Command, Locking, Locks, OnFile, OverFile, open_for};
use commands::Holder;
use model::types::TRANSFER_LIMIT;
use std::alloc::Global;
use std::io::Write;
use tree_changes::{ChangeRefusal, CopyOver, CopyRefusal, copy_disk};
use tree_looks::plan_copy;

/// Copies a file within the image in the file at the path `image`, as `CopyOver` says.
///
/// More bytes than one call writes are put into a copy of the image, which then takes its name, where a
/// `PutFile` does so; else where the image stands, if they have room in it.
#[derive(Drop)]
pub struct CopyFile<'a, H> {
    /// The path of the image's file.
    pub image: &'a str,
    /// The file's path in the image.
    pub from: &'a str,
    /// The path of the copy, or of a directory that it goes into.
    pub to: &'a str,
    /// Whether the image's file holds writes back until it is synced.
    pub sync: bool,
    /// Whether it is synced at the end.
    pub last: bool,
    /// How its lock is taken.
    pub locking: Locking,
    /// Who holds the files where a new one is made.
    pub holder: H,
}

impl<'a, R: Locks + AllocGlobal, H: Holder<R::File> + Drop> Command<R> for CopyFile<'a, H> {
    type Refusal = OnFile<CopyRefusal>;

    ghost done = { λ copy.
        CopiesFile R.File.remaining copy.from.now copy.to.now copy.sync copy.last };

    ghost refused = { λ copy old new.
        IsUncopiedFile R.File.remaining copy.from.now copy.to.now copy.sync copy.last };

    fn run<O: Write>(self, rt: &R, out: &mut O) -> Result<(), OnFile<CopyRefusal>> {
        let mut holder = self.holder;
        let way = Way {
            image: self.image,
            locking: self.locking,
        };
        match copy_anew(rt, &way, self.from, self.to, &mut holder, out) {
            Ok(true) => Ok(()),
            Ok(false) => {
                let access = Access::Change {
                    sync: self.sync,
                    locking: self.locking,
                };
                let copy = CopyOver {
                    from: self.from,
                    to: self.to,
                    judges: true,
                    last: self.last,
                };
                OverFile(self.image, access, copy).run(rt, out)
            }
            Err(refused) => Err(refused),
        }
    }
}

// The image that a file is copied in, and how its lock is taken.
#[derive(Clone, Copy, Drop)]
struct Way<'a> {
    image: &'a str,
    locking: Locking,
}

// Copies a file of more bytes than one call writes by way of a new file. False where it has fewer, or that
// is not the way: then nothing was done.
fn copy_anew<R: Locks + AllocGlobal, H: Holder<R::File>, O: Write>(
    rt: &R,
    way: &Way<'_>,
    from: &str,
    to: &str,
    holder: &mut H,
    out: &mut O,
) -> Result<bool, OnFile<CopyRefusal>>
    ensures copied { IfOk result (HasChangedIfSo R.File.remaining
        (CopiesIn (asked_anew from.now to.now))
        (O.contents out.old) (O.contents out.new) (out.new ≡ out.old)) }
    ensures refused { IfErr result (IsUnchangedAnew R.File.remaining
        (CopiesIn (asked_anew from.now to.now)) (IsUncopiedIn (asked_anew from.now to.now))
        uncopied.Of (out.new ≡ out.old)) }
{
    if !is_long(rt, way, from, to) {
        return Ok(false);
    }
    let copy = CopyOver {
        from,
        to,
        judges: false,
        last: false,
    };
    let anew = ChangeAnew {
        image: way.image,
        change: &copy,
    };
    change_anew(rt, &anew, holder, out)
}

// Whether a file that can be copied has more bytes than one call writes.
fn is_long<R: Locks + AllocGlobal>(rt: &R, way: &Way<'_>, from: &str, to: &str) -> bool {
    let Ok(mut disk) = open_for(rt, way.image, Access::Look(way.locking)) else {
        return false;
    };
    match plan_copy(rt.alloc(), &mut disk, from.as_bytes(), to.as_bytes()) {
        Ok(plan) => plan.bytes.len() > TRANSFER_LIMIT as usize,
        Err(_fault) => false,
    }
}

impl<'a> InMemory for CopyOver<'a> {
    type Refusal = CopyRefusal;

    ghost makes = { λ copy. CopiesIn (asked_by copy) };

    ghost undone = { λ copy. IsUncopiedIn (asked_by copy) };

    ghost told = { uncopied.Of };

    fn make_in(&self, alloc: Global, image: MemDisk) -> Result<(Vec<u8>, MemDisk), CopyRefusal> {
        let mut text = Vec::new(alloc);
        match copy_disk(alloc, image, self, &mut text) {
            (Ok(()), image) => Ok((text, image)),
            (Err(refusal), _image) => Err(refusal),
        }
    }

    fn tell(refusal: ChangeRefusal) -> CopyRefusal
        ensures { result ≡ uncopied.Of refusal }
    {
        CopyRefusal::Of(refusal)
    }
}
