// A new image on a disk, and a kernel of one process over it.
ghost use Rattle.std.specs.Prelude.{◌≡◌, IfOk};
ghost use Rattle.calls.specs.Calls.{Rests, call_count};

use blocks::Disk;
use calls::{Sole, open_sole};
use model::types::Form;
use offline::mkfs_as;
use std::alloc::Global;

/// Makes an image of 200 blocks with 32 inode numbers, and opens it for calls.
pub fn open_new<D: Disk + Drop>(alloc: Global, mut disk: D) -> anyhow::Result<Sole<D>>
    ensures rests { IfOk result (Rests D.fault_count) }
    ensures none { IfOk result (λ kernel. call_count kernel ≡ 0) }
{
    mkfs_as(alloc, &mut disk, 200, 32, Form::One)?;
    match open_sole(alloc, disk) {
        Ok(kernel) => Ok(kernel),
        Err((fault, _disk)) => Err(fault.into()),
    }
}
