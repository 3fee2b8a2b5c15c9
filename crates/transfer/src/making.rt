// A kernel over a new image.
ghost use Rattle.std.specs.Prelude.{◌≡◌, ◌&&◌, ◌==◌, false, length, IsTrue, IfOk, IfErr, OnOk};
ghost use Rattle.model.specs.Layout.{is_inode_count, is_size};
ghost use Rattle.transfer.specs.Copies.{IsNewKernel, IsUnmade};
ghost use Rattle.transfer.specs.Faults.{fault_of_opening};
ghost use Rattle.transfer.specs.Fitting.{data_count};

use crate::fault::CopyFault;
use blocks::Disk;
use calls::{Sole, open_sole};
use kernel::OpenFault;
use layout::{CheckFault, Form, MkfsFault, plan};
use offline::laws::new_image_is_sound;
use offline::mkfs_as;
use std::alloc::Global;
use wal::RecoverFault;

/// Refuses a size that no image of so many numbers has, or that isn't the disk's. How many blocks for
/// data there are.
pub(crate) fn check_size<E: Disk>(new: &E, size: u32, ninodes: u32) -> Result<u32, CopyFault>
    requires { IsTrue (is_inode_count ninodes) }
    ensures fits { OnOk result
        (IsTrue (is_size size ninodes) × (length (E.image new.now) ≡ size)) }
    ensures room { IfOk result (λ room. room ≡ data_count size ninodes) }
    ensures refused { IfErr result (λ fault. (fault ≡ CopyFault.Mkfs MkfsFault.SizeRange)
        × ((is_size size ninodes && (size == length (E.image new.now))) ≡ false)) }
{
    match plan(size, ninodes) {
        Ok(fields) if new.size() == size => Ok(fields.nblocks),
        _ => Err(CopyFault::Mkfs(MkfsFault::SizeRange)),
    }
}

/// Makes an image of that form, and opens a kernel of one process over it.
pub(crate) fn make_new<E: Disk + Drop>(
    alloc: Global,
    mut new: E,
    size: u32,
    ninodes: u32,
    form: Form,
) -> Result<Sole<E>, (CopyFault, E)>
    requires { IsTrue (is_inode_count ninodes) }
    ensures made { IfOk result (IsNewKernel E.Disk size ninodes form new) }
    ensures refused { IfErr result (λ e. IsUnmade E.Disk size ninodes new e.1 e.0) }
    ensures name { IfErr result (λ e. E.name e.1 ≡ E.name new) }
{
    new_image_is_sound();
    if let Err(fault) = mkfs_as(alloc, &mut new, size, ninodes, form) {
        return Err((CopyFault::Mkfs(fault), new));
    }
    match open_sole(alloc, new) {
        Ok(kernel) => Ok(kernel),
        Err((fault, new)) => Err((fault_of_opening(fault), new)),
    }
}

// A new image has no fault to find: a kernel isn't opened for want of memory, or the disk failed.
fn fault_of_opening(fault: OpenFault) -> CopyFault
    ensures { result ≡ fault_of_opening fault }
{
    match fault {
        OpenFault::NoMemory
        | OpenFault::Check(CheckFault::NoMemory)
        | OpenFault::Recover(RecoverFault::NoMemory) => CopyFault::NoMemory,
        _ => CopyFault::Disk,
    }
}
