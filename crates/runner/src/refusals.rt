// Why a script isn't run by threads.
ghost use Rattle.runner.specs.Refusals.{run_telling};

use kernel::OpenFault;
use messages::{Reason, Told, Unwritten};
use opening::open_told;
use wal::DeviceFault;

/// Why a script's operations aren't made by threads over a disk, or not to the end.
#[derive(Clone, Copy, Debug)]
pub enum RunRefusal {
    /// No kernel is opened over the disk.
    Unopened(OpenFault),
    /// No thread can be started.
    Thread,
    /// A step found that the disk failed.
    Disk(DeviceFault),
    /// An operation has no answer.
    Unanswered,
    /// An operation has no answer, and for a second nothing moved, since memory was refused.
    NoMemory,
    /// The output can't be written.
    Output,
}

impl Reason for RunRefusal {
    ghost telling = { run_telling };

    fn told(&self) -> Told {
        match self {
            RunRefusal::Unopened(fault) => open_told(fault),
            RunRefusal::Thread => Told::new("run", 1, "Thread"),
            RunRefusal::Disk(fault) => fault.told(),
            RunRefusal::Unanswered => Told::new("run", 3, "Unanswered"),
            RunRefusal::NoMemory => Told::new("run", 4, "NoMemory"),
            RunRefusal::Output => Unwritten.told(),
        }
    }
}
