// Why a file of an image isn't written.
ghost use Rattle.std.specs.Prelude.{◌≡◌};
ghost use Rattle.disk_commands.specs.Refusals.{cat_telling};

use blocks::DiskFault;
use messages::{Reason, Told, Unwritten};
use opening::RecoverRefusal;
use wal::DeviceFault;

/// Why the bytes of a file of an image aren't written.
#[derive(Clone, Copy, Debug)]
pub enum CatRefusal {
    /// Memory was refused before the recovery. It is told as that of a kernel's opening.
    NoMemory,
    /// The image can't be recovered.
    Unrecovered(RecoverRefusal),
    /// There is no file of that number.
    NoFile,
    /// A read after the recovery failed.
    Disk(DiskFault),
    /// The output can't be written.
    Output,
}

impl Reason for CatRefusal {
    ghost telling = { cat_telling };

    fn told(&self) -> Told {
        match self {
            CatRefusal::NoMemory => Told::new("open", 3, "NoMemory"),
            CatRefusal::Unrecovered(refusal) => refusal.told(),
            CatRefusal::NoFile => Told::new("cat", 1, "NoFile"),
            CatRefusal::Disk(fault) => DeviceFault::Block(*fault).told(),
            CatRefusal::Output => Unwritten.told(),
        }
    }
}

impl From<DiskFault> for CatRefusal {
    ghost use Rattle.disk_commands.specs.declared.refusals.CatRefusal.TheVariants as cat;

    ghost from_gives = { λ fault r. r ≡ cat.Disk fault };

    fn from(fault: DiskFault) -> CatRefusal {
        CatRefusal::Disk(fault)
    }
}

impl From<Unwritten> for CatRefusal {
    ghost use Rattle.disk_commands.specs.declared.refusals.CatRefusal.TheVariants as cat;

    ghost from_gives = { λ _ r. r ≡ cat.Output };

    fn from(_unwritten: Unwritten) -> CatRefusal {
        CatRefusal::Output
    }
}
