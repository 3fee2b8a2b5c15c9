//! Why no kernel is opened over a disk, as a command tells it, and what is known of the disk then;
//! and the recovery of a disk's image, which comes before an opening.
//!
//! The commands that open a kernel share these words: a check or a recovery that refuses is told as
//! its own layer's fault, and the kernel's own two faults as those of `open`.
#![tactic(auto)]

mod behind;
mod recovering;

ghost use Rattle.std.specs.Prelude.{◌≡◌};
ghost use Rattle.messages.specs.Telling.{telling_of};
ghost use Rattle.opening.specs.Openings.{open_telling};

pub use behind::recover_behind_a_stop;
use kernel::OpenFault;
use messages::{Reason, Told};
pub use recovering::{RecoverRefusal, recover_image};

/// How it is told why a kernel wasn't opened.
pub fn open_told(fault: &OpenFault) -> Told
    ensures { telling_of result ≡ open_telling fault.now }
{
    match fault {
        OpenFault::Check(fault) => fault.told(),
        OpenFault::Recover(fault) => fault.told(),
        OpenFault::NoMemory => Told::new("open", 3, "NoMemory"),
        OpenFault::ProcRange => Told::new("open", 4, "ProcRange"),
    }
}
