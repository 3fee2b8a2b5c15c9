// Why a mount isn't served up to its end.
ghost use Rattle.std.specs.Prelude.{◌≡◌};
ghost use Rattle.messages.specs.Telling.{telling_of};
ghost use Rattle.xvmount.specs.Tellings.{mount_telling, tree_open_telling};

use messages::{Reason, Told};
use names::TreeOpenFault;
use opening::open_told;

/// Why a mount isn't served up to its end.
#[derive(Clone, Copy, Debug)]
pub enum MountRefusal {
    /// No tree is opened over the image.
    Unopened(TreeOpenFault),
    /// Memory is refused.
    NoMemory,
    /// A call of the tree failed before the first request.
    NoCall,
    /// A sync of the image's file failed.
    Unsynced,
}

impl Reason for MountRefusal {
    ghost telling = { mount_telling };

    fn told(&self) -> Told {
        match self {
            MountRefusal::Unopened(fault) => tree_open_told(fault),
            MountRefusal::NoMemory => Told::new("names", 16, "NoMemory"),
            MountRefusal::NoCall => Told::new("names", 17, "NoCall"),
            MountRefusal::Unsynced => Told::new("disk", 2, "SyncFault"),
        }
    }
}

// How it is told why no tree is opened.
fn tree_open_told(fault: &TreeOpenFault) -> Told
    ensures { telling_of result ≡ tree_open_telling fault.now }
{
    match fault {
        TreeOpenFault::Kernel(fault) => open_told(fault),
        TreeOpenFault::NoTree => Told::new("names", 13, "NoTree"),
        TreeOpenFault::Miscounted(number) => Told::naming("names", 21, "Miscounted", *number),
    }
}
