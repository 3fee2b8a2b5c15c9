// Why a check of the images that stops leave ended.
ghost use Rattle.std.specs.Prelude.{◌≡◌};
ghost use Rattle.crash_check.specs.Faults.{stops_telling};
ghost use Rattle.crash_check.specs.Mismatches.{met_at};

use crate::mismatch::{Mismatch, Stop};
use blocks::NoMemory;
use messages::{Reason, Told};
use thiserror::Error;

/// Why the check of a script's stops ended before its end.
#[derive(Clone, Copy, Debug, Error)]
pub enum StopsFault {
    /// The image that a stop left is not recovered to the files that it has to have.
    #[error("a stop left an image with other files")]
    Mismatch(Mismatch),
    /// Memory was refused.
    #[error("memory was refused")]
    NoMemory,
}

impl StopsFault {
    /// The same, met by a run that was stopped there.
    pub fn at(self, stop: Stop) -> StopsFault
        ensures { result ≡ met_at stop self }
    {
        match self {
            StopsFault::Mismatch(mismatch) => StopsFault::Mismatch(Mismatch { stop, ..mismatch }),
            StopsFault::NoMemory => StopsFault::NoMemory,
        }
    }
}

impl Reason for StopsFault {
    ghost telling = { stops_telling };

    fn told(&self) -> Told {
        match self {
            StopsFault::Mismatch(_) => Told::new("stops", 1, "Mismatch"),
            StopsFault::NoMemory => Told::new("stops", 2, "NoMemory"),
        }
    }
}

impl From<NoMemory> for StopsFault {
    ghost use Rattle.crash_check.specs.declared.fault.StopsFault.TheVariants as fault;

    ghost from_gives = { λ _ e. e ≡ fault.NoMemory };

    fn from(_refused: NoMemory) -> StopsFault {
        StopsFault::NoMemory
    }
}
