// A recovery of a disk's image.
ghost use Rattle.std.specs.Prelude.{◌≡◌, IfOk, OnOk, IfErr};
ghost use Rattle.wal.specs.Recovery.{IsCalm, LeavesFromSync, RecoversAs};
ghost use Rattle.kernel.specs.Opening.{LeavesRecovered};
ghost use Rattle.opening.specs.Recoveries.{
  IsRecovered,
  IsUnrecovered,
  IsUnwritten,
  unrecovered_telling,
};

use blocks::Disk;
use messages::{Meter, Reason, Told};
use model::types::CheckFault;
use offline::check;
use std::alloc::Global;
use wal::{RecoverFault, recover};

/// Why the image of a disk isn't recovered.
#[derive(Clone, Copy, Debug)]
pub enum RecoverRefusal {
    /// A fault of the image or of its check.
    Check(CheckFault),
    /// A fault of the recovery.
    Recover(RecoverFault),
}

impl Reason for RecoverRefusal {
    ghost telling = { unrecovered_telling };

    fn told(&self) -> Told {
        match self {
            RecoverRefusal::Check(fault) => fault.told(),
            RecoverRefusal::Recover(fault) => fault.told(),
        }
    }
}

impl From<CheckFault> for RecoverRefusal {
    ghost use Rattle.opening.specs.declared.recovering.RecoverRefusal.TheVariants as recover;

    ghost from_gives = { λ fault r. r ≡ recover.Check fault };

    fn from(fault: CheckFault) -> RecoverRefusal {
        RecoverRefusal::Check(fault)
    }
}

/// Checks the image of a disk, and copies the blocks of its log home. How many these were. The meter is
/// told when the first of these two steps is done, and when it is over.
///
/// # Errors
///
/// `Check` with a fault of the image or of its check, and then nothing was written; else `Recover`
/// with a fault of the recovery, which may be made again; where that is `NoMemory` nothing was
/// written.
///
/// Whatever a crash at any moment leaves is recovered to the same image: of a disk that holds
/// writes back from the first sync on, or from the start where nothing was held then.
pub fn recover_image<D: Disk, P: Meter>(
    alloc: Global,
    disk: &mut D,
    progress: &mut P,
) -> Result<u32, RecoverRefusal>
    ensures ok { IfOk result (λ copied. IsRecovered D.Disk copied disk.old disk.new) }
    ensures name { D.name disk.new ≡ D.name disk.old }
    ensures refused { IfErr result (IsUnrecovered D.Disk disk.old disk.new) }
    ensures unwritten { IfErr result (IsUnwritten D.Disk disk.old disk.new) }
    ensures stops { LeavesRecovered D.Disk disk.old disk.new }
    ensures synced { OnOk result
        (LeavesFromSync D.Disk disk.old disk.new (RecoversAs (D.image disk.old))) }
    ensures settled { OnOk result (IsCalm D.Disk disk.new) }
{
    let report = check(alloc, disk)?;
    progress.reached(1, 2, "steps");
    let recovered = recover(alloc, disk, &report.sup);
    progress.ended();
    match recovered {
        Ok(copied) => Ok(copied),
        Err(fault) => Err(RecoverRefusal::Recover(fault)),
    }
}
