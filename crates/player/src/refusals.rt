// Why a script is not replayed.
ghost use Rattle.std.specs.Prelude.{◌≡◌};
ghost use Rattle.player.specs.Refusals.{replay_telling};

use kernel::OpenFault;
use messages::{Reason, Told, Unwritten};
use opening::{RecoverRefusal, open_told};
use wal::DeviceFault;

/// Why a script's operations aren't made in turns over a disk, or not to the end.
#[derive(Clone, Copy, Debug)]
pub enum ReplayRefusal {
    /// The image can't be recovered.
    Unrecovered(RecoverRefusal),
    /// No kernel is opened over the disk.
    Unopened(OpenFault),
    /// A step found that the disk failed.
    Disk(DeviceFault),
    /// The output can't be written.
    Output,
}

impl Reason for ReplayRefusal {
    ghost telling = { replay_telling };

    fn told(&self) -> Told {
        match self {
            ReplayRefusal::Unrecovered(refusal) => refusal.told(),
            ReplayRefusal::Unopened(fault) => open_told(fault),
            ReplayRefusal::Disk(fault) => fault.told(),
            ReplayRefusal::Output => Unwritten.told(),
        }
    }
}

impl From<Unwritten> for ReplayRefusal {
    ghost use Rattle.player.specs.declared.refusals.ReplayRefusal.TheVariants as replay;

    ghost from_gives = { λ _ r. r ≡ replay.Output };

    fn from(_unwritten: Unwritten) -> ReplayRefusal {
        ReplayRefusal::Output
    }
}
