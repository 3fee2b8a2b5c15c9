// Whether bytes have room in an image, before anything of it is changed.
ghost use Rattle.std.specs.Prelude.{IfErr, OnOk};
ghost use Rattle.tree_changes.specs.Room.{HasRoomFor, IsUnfit, LacksRoom};

use crate::faults::ChangeRefusal;
use blocks::Disk;
use directories::Refusal;
use kernel::OpenFault;
use names::{TreeFault, TreeOpenFault, Unwritten};
use std::alloc::Global;
use transfer::{PutRefusal, judge_new};

/// Whether that many bytes have room in the image of a disk: in a file of its form, and in its free
/// blocks besides one, which the directory may need for the file's name. Blocks that a file at the path
/// has are not counted. It writes no block.
///
/// # Errors
///
/// `Unopened` for a fault of the image, of its check or of a read behind that, or where memory is
/// refused; `Unwritten` with `TooBig`; `Tree` with `NoBlock` where the free blocks are too few.
pub fn judge_room<D: Disk>(alloc: Global, disk: &mut D, count: usize) -> Result<(), ChangeRefusal>
    ensures room { OnOk result (HasRoomFor D.Disk count disk.old disk.new) }
    ensures refused { IfErr result (LacksRoom D.Disk count disk.old disk.new) }
{
    match judge_new(alloc, disk, count) {
        Ok(0) => Err(ChangeRefusal::Tree(TreeFault::Refused(Refusal::NoBlock))),
        Ok(_besides) => Ok(()),
        Err(refusal) => Err(unfit(refusal)),
    }
}

// How it is told that an image is not fit for bytes.
fn unfit(refusal: PutRefusal) -> ChangeRefusal
    ensures { IsUnfit refusal result }
{
    match refusal {
        PutRefusal::Check(fault) => {
            ChangeRefusal::Unopened(TreeOpenFault::Kernel(OpenFault::Check(fault)))
        }
        PutRefusal::NoMemory => {
            ChangeRefusal::Unopened(TreeOpenFault::Kernel(OpenFault::NoMemory))
        }
        PutRefusal::TooBig => ChangeRefusal::Unwritten(Unwritten::TooBig),
        PutRefusal::Full => ChangeRefusal::Tree(TreeFault::Refused(Refusal::NoBlock)),
        // Nothing else is told of a new file before anything is written.
        _ => ChangeRefusal::Output,
    }
}
