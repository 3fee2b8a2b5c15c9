// The commands over a disk that need no kernel.
ghost use Rattle.disk_commands.specs.Causes.{IsNotRecovered, IsUncheckedBy};
ghost use Rattle.blocks.specs.Calls.{OnlyReads};
ghost use Rattle.disk_commands.specs.Looks.{HasRead, HasRecovered, HasReported, HasShown};
ghost use Rattle.disk_commands.specs.Showing.{IsNotShown, IsUnread};

use crate::checking::{check_disk, check_disk_all, check_disk_array};
use crate::recovering::recover_disk;
use crate::refusals::CatRefusal;
use crate::showing::{cat_disk, cat_read_only};
use blocks::Disk;
use cmd::DiskCommand;
use messages::{Meter, Printed};
use model::types::CheckFault;
use opening::RecoverRefusal;
use std::alloc::Global;
use std::io::Write;

/// Checks an image, as `check_disk`, or as `check_disk_all` or `check_disk_array`.
#[derive(Clone, Copy, Drop)]
pub struct Check {
    /// Whether all faults are told.
    pub all: bool,
    /// Whether it is told as JSON.
    pub json: bool,
}

impl DiskCommand for Check {
    type Refusal = Printed<CheckFault>;

    ghost done = { λ check c. HasReported c.disk check.json check.all c.was c.now };

    ghost refused = { λ check c old new.
        IsUncheckedBy c.disk check.json check.all c.was c.now old new };

    fn run_on<D: Disk + Drop, O: Write>(
        self,
        alloc: Global,
        disk: D,
        out: &mut O,
    ) -> (Result<(), Printed<CheckFault>>, D) {
        let mut disk = disk;
        let ended = match (self.json, self.all) {
            (json, false) => check_disk(alloc, &mut disk, json, out),
            (false, true) => check_disk_all(alloc, &mut disk, out),
            (true, true) => check_disk_array(alloc, &mut disk, out),
        };
        (ended, disk)
    }
}

/// Recovers an image, as `recover_disk`.
#[derive(Drop)]
pub struct Recover<P> {
    /// Who is told how far the recovery is.
    pub progress: P,
    /// Whether it is told as JSON.
    pub json: bool,
}

impl<P: Meter + Drop> DiskCommand for Recover<P> {
    type Refusal = Printed<RecoverRefusal>;

    ghost done = { λ recover c. HasRecovered c.disk recover.json c.was c.now };

    ghost refused = { λ recover c old new. IsNotRecovered c.disk c.was c.now };

    fn run_on<D: Disk + Drop, O: Write>(
        self,
        alloc: Global,
        disk: D,
        out: &mut O,
    ) -> (Result<(), Printed<RecoverRefusal>>, D) {
        let mut disk = disk;
        let mut progress = self.progress;
        let ended = recover_disk(alloc, &mut disk, self.json, &mut progress, out);
        (ended, disk)
    }
}

/// Recovers an image, and writes the bytes of its file of this number, as `cat_disk`.
#[derive(Clone, Copy, Drop)]
pub struct Cat(pub u32);

impl DiskCommand for Cat {
    type Refusal = CatRefusal;

    ghost done = { λ cat c. HasShown c.disk cat.0 c.was c.now };

    ghost refused = { λ cat c. IsNotShown c.disk c.was c.now cat.0 };

    fn run_on<D: Disk + Drop, O: Write>(
        self,
        alloc: Global,
        disk: D,
        out: &mut O,
    ) -> (Result<(), CatRefusal>, D) {
        cat_disk(alloc, disk, self.0, out)
    }
}

/// Writes the bytes of an image's file of this number, as `cat_read_only`.
#[derive(Clone, Copy, Drop)]
pub struct CatReadOnly(pub u32);

impl DiskCommand for CatReadOnly {
    type Refusal = CatRefusal;

    ghost done = { λ cat c. HasRead c.disk cat.0 c.was c.now };

    ghost refused = { λ cat c old new none r. OnlyReads c.disk c.was c.now
        × IsUnread c.disk c.was c.now cat.0 old new none r };

    fn run_on<D: Disk + Drop, O: Write>(
        self,
        alloc: Global,
        disk: D,
        out: &mut O,
    ) -> (Result<(), CatRefusal>, D) {
        let mut disk = disk;
        let ended = cat_read_only(alloc, &mut disk, self.0, out);
        (ended, disk)
    }
}
