// Why a command over files of the system isn't done.
ghost use Rattle.std.specs.Prelude.{◌≡◌};
ghost use Rattle.xvnames.specs.Refusals.{fill_telling, mkfs_telling};

use cmd::OnFile;
use commands_changes::ReadFault;
use layout::MkfsFault;
use messages::{Reason, Told, Unwritten};
use tree_changes::ChangeRefusal;

/// Why an image isn't made with files on a disk.
#[derive(Clone, Copy, Debug)]
pub enum FillFault {
    /// No image is made.
    Mkfs(MkfsFault),
    /// Its files aren't.
    Change(ChangeRefusal),
}

impl Reason for FillFault {
    ghost telling = { fill_telling };

    fn told(&self) -> Told {
        match self {
            FillFault::Mkfs(fault) => fault.told(),
            FillFault::Change(refusal) => refusal.told(),
        }
    }
}

/// Why an image isn't made with files in a file of the system.
#[derive(Clone, Copy, Debug)]
pub enum MkfsRefusal {
    /// There is no image of that size.
    Unplanned(MkfsFault),
    /// The bytes of a file can't be had.
    Unread(ReadFault),
    /// The image's file can't be made, or the image in it.
    Of(OnFile<FillFault>),
    /// The output can't be written.
    Output,
}

impl Reason for MkfsRefusal {
    ghost telling = { mkfs_telling };

    fn told(&self) -> Told {
        match self {
            MkfsRefusal::Unplanned(fault) => fault.told(),
            MkfsRefusal::Unread(fault) => fault.told(),
            MkfsRefusal::Of(refusal) => refusal.told(),
            MkfsRefusal::Output => Unwritten.told(),
        }
    }
}
