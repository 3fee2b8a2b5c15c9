// Who holds the file of a picture, but never the image of which it is drawn.
use blocks::FileFault;
use cmd::{Locking, Locks};
use commands::{Holder, Keeper};
use std::fs::metadata;
use std::os::unix::fs::MetadataExt;
use std::rt::Files;

/// A `Keeper` for which the image's file is one that another program has: a replay has let go of it when
/// its picture is drawn.
#[derive(Drop)]
pub struct Sparing<'a, R> {
    rt: &'a R,
    keeper: Keeper<'a, R>,
    image: &'a str,
}

impl<'a, R: Locks> Sparing<'a, R> {
    /// It takes the locks of other files in that way.
    pub fn new(rt: &'a R, locking: Locking, image: &'a str) -> Sparing<'a, R> {
        Sparing {
            rt,
            keeper: Keeper::new(rt, locking),
            image,
        }
    }
}

impl<'a, R: Locks> Holder<R::File> for Sparing<'a, R> {
    fn hold_new(&mut self, path: &str, mode: u32) -> Result<R::File, FileFault> {
        self.keeper.hold_new(path, mode)
    }

    fn hold_left(&mut self, path: &str, mode: u32) -> Result<R::File, FileFault> {
        self.keeper.hold_left(path, mode)
    }

    fn hold_any(&mut self, path: &str) -> Result<R::File, FileFault> {
        if are_one(self.rt, path, self.image) {
            return Err(FileFault::Locked);
        }
        self.keeper.hold_any(path)
    }

    fn hold_there(&mut self, path: &str) -> Result<Option<R::File>, FileFault> {
        if are_one(self.rt, path, self.image) {
            return Err(FileFault::Locked);
        }
        self.keeper.hold_there(path)
    }
}

// Whether two paths lead to one file.
fn are_one<R: Files>(rt: &R, one: &str, other: &str) -> bool {
    match (metadata(rt, one), metadata(rt, other)) {
        (Ok(one), Ok(other)) => one.dev() == other.dev() && one.ino() == other.ino(),
        _ => false,
    }
}
