// Why a file of the system isn't put into an image.
ghost use Rattle.tree_puts.specs.Refusals.{put_telling};

use cmd::OnFile;
use commands_changes::ReadFault;
use messages::{Reason, Told};
use tree_changes::ChangeRefusal;

/// Why a file of the system isn't put into an image.
#[derive(Clone, Copy, Debug)]
pub enum PutRefusal {
    /// Its bytes can't be had.
    Unread(ReadFault),
    /// They have no room in the image where it stands; it is as it was.
    NoRoom(OnFile<ChangeRefusal>),
    /// The image's file can't be used as a disk, or they aren't put into the image.
    Of(OnFile<ChangeRefusal>),
}

impl Reason for PutRefusal {
    ghost telling = { put_telling };

    fn told(&self) -> Told {
        match self {
            PutRefusal::Unread(fault) => fault.told(),
            PutRefusal::NoRoom(refusal) => refusal.told(),
            PutRefusal::Of(refusal) => refusal.told(),
        }
    }
}
