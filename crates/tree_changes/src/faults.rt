// Why a change of files by their paths isn't done.
ghost use Rattle.std.specs.Prelude.{◌≡◌};
ghost use Rattle.messages.specs.Telling.{telling_of};
ghost use Rattle.tree_changes.specs.Tellings.{change_telling, tree_open_telling, tree_telling};

use calls::transactions::TransactionFault;
use messages::{Reason, Told, Unwritten as Unprinted};
use names::{TreeFault, TreeOpenFault, Unwritten};
use opening::open_told;
use tree_looks::{path_told, refusal_told};
use wal::DeviceFault;

/// Why a change of files isn't done, or what it answers isn't printed.
#[derive(Clone, Copy, Debug)]
pub enum ChangeRefusal {
    /// No tree is opened over the disk.
    Unopened(TreeOpenFault),
    /// The tree doesn't make it.
    Tree(TreeFault),
    /// The kernel refuses a write of the bytes.
    Unwritten(Unwritten),
    /// The disk failed in the sync at the end.
    Disk(DeviceFault),
    /// The output can't be written.
    Output,
}

impl Reason for ChangeRefusal {
    ghost telling = { change_telling };

    fn told(&self) -> Told {
        match self {
            ChangeRefusal::Unopened(fault) => tree_open_told(fault),
            ChangeRefusal::Tree(fault) => tree_told(fault),
            ChangeRefusal::Unwritten(_fault) => Told::new("names", 12, "TooBig"),
            ChangeRefusal::Disk(fault) => fault.told(),
            ChangeRefusal::Output => Unprinted.told(),
        }
    }
}

// How it is told why no tree was opened.
fn tree_open_told(fault: &TreeOpenFault) -> Told
    ensures { telling_of result ≡ tree_open_telling fault.now }
{
    match fault {
        TreeOpenFault::Kernel(fault) => open_told(fault),
        TreeOpenFault::NoTree => Told::new("names", 13, "NoTree"),
        TreeOpenFault::Miscounted(number) => Told::naming("names", 21, "Miscounted", *number),
    }
}

// How it is told why a tree didn't answer.
fn tree_told(fault: &TreeFault) -> Told
    ensures { telling_of result ≡ tree_telling fault.now }
{
    match fault {
        TreeFault::Path(fault) => path_told(fault),
        TreeFault::Refused(refusal) => refusal_told(refusal),
        TreeFault::Call(TransactionFault::Disk(fault)) => fault.told(),
        TreeFault::Call(TransactionFault::NoMemory) => Told::new("names", 16, "NoMemory"),
        TreeFault::Call(TransactionFault::NoRoom) => Told::new("names", 18, "NoRoom"),
        TreeFault::NoSpace => Told::new("names", 11, "NoBlock"),
        TreeFault::NoCall => Told::new("names", 17, "NoCall"),
    }
}
