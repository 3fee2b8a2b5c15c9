// The commands that look at a disk, and leave its image as it is.
ghost use Rattle.inspect.specs.Causes.{IsHidden, IsUncounted, IsUndrawn, IsUnlisted};
ghost use Rattle.inspect.specs.Looks.{HasCounted, HasListed, HasLogShown, HasShown};

use crate::drawing::show_disk;
use crate::listing::list_disk;
use crate::logging::show_log;
use crate::refused::{DfRefusal, LsRefusal, ShowRefusal};
use crate::showing::show_file;
use crate::usage::count_disk;
use blocks::Disk;
use cmd::DiskCommand;
use std::alloc::Global;
use std::io::Write;

/// Lists the files of an image, as `list_disk`.
#[derive(Clone, Copy, Drop)]
pub struct Ls {
    /// Whether they are told as JSON.
    pub json: bool,
}

impl DiskCommand for Ls {
    type Refusal = LsRefusal;

    ghost done = { λ ls c. HasListed c.disk ls.json c.was c.now };

    ghost refused = { λ ls c old new. IsUnlisted c.disk c.was c.now };

    fn run_on<D: Disk + Drop, O: Write>(
        self,
        alloc: Global,
        disk: D,
        out: &mut O,
    ) -> (Result<(), LsRefusal>, D) {
        let mut disk = disk;
        let ended = list_disk(alloc, &mut disk, self.json, out);
        (ended, disk)
    }
}

/// Draws the blocks of an image, as `show_disk`, or lists those of its file of a number, as
/// `show_file`.
#[derive(Clone, Copy, Drop)]
pub struct Show {
    /// The file's number.
    pub inum: Option<u32>,
    /// Whether they are told as JSON.
    pub json: bool,
}

impl DiskCommand for Show {
    type Refusal = ShowRefusal;

    ghost done = { λ show c. HasShown c.disk show.json show.inum c.was c.now };

    ghost refused = { λ show c old new. IsHidden c.disk show.inum c.was c.now };

    fn run_on<D: Disk + Drop, O: Write>(
        self,
        alloc: Global,
        disk: D,
        out: &mut O,
    ) -> (Result<(), ShowRefusal>, D) {
        let mut disk = disk;
        let ended = match self.inum {
            None => show_disk(alloc, &mut disk, self.json, out),
            Some(number) => show_file(alloc, &mut disk, number, self.json, out),
        };
        (ended, disk)
    }
}

/// Tells what the log of an image holds, as `show_log`.
#[derive(Clone, Copy, Drop)]
pub struct ShowLog {
    /// Whether it is told as JSON.
    pub json: bool,
}

impl DiskCommand for ShowLog {
    type Refusal = ShowRefusal;

    ghost done = { λ show c. HasLogShown c.disk show.json c.was c.now };

    ghost refused = { λ show c old new. IsUndrawn c.disk c.was c.now };

    fn run_on<D: Disk + Drop, O: Write>(
        self,
        alloc: Global,
        disk: D,
        out: &mut O,
    ) -> (Result<(), ShowRefusal>, D) {
        let mut disk = disk;
        let ended = show_log(alloc, &mut disk, self.json, out);
        (ended, disk)
    }
}

/// Tells how much of an image is used, as `count_disk`.
#[derive(Clone, Copy, Drop)]
pub struct Df {
    /// Whether it is told as JSON.
    pub json: bool,
}

impl DiskCommand for Df {
    type Refusal = DfRefusal;

    ghost done = { λ df c. HasCounted c.disk df.json c.was c.now };

    ghost refused = { λ df c old new. IsUncounted c.disk c.was c.now };

    fn run_on<D: Disk + Drop, O: Write>(
        self,
        alloc: Global,
        disk: D,
        out: &mut O,
    ) -> (Result<(), DfRefusal>, D) {
        let mut disk = disk;
        let ended = count_disk(alloc, &mut disk, self.json, out);
        (ended, disk)
    }
}
