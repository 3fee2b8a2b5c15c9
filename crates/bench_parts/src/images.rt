// The image that the programs work on.
ghost use Rattle.std.specs.Prelude.{◌≡◌, IfOk};
ghost use Rattle.model.specs.Codec.{made_image};
ghost use Rattle.model.specs.declared.types.image.Form.TheVariants.{One};

use crate::failed::Failed;
use blocks::{Disk, MemDisk, NoMemory};
use offline::mkfs;
use std::alloc::Global;

/// A new image of 200 blocks with 32 inode numbers.
pub fn new_image(alloc: Global) -> Result<MemDisk, Failed>
    ensures { IfOk result (λ disk. ⟦<MemDisk as Disk>⟧.image disk ≡ made_image One 200 32) }
{
    match MemDisk::new(alloc, 200) {
        Ok(mut disk) => match mkfs(alloc, &mut disk, 200, 32) {
            Ok(()) => Ok(disk),
            Err(fault) => Err(Failed::Image(fault)),
        },
        Err(NoMemory) => Err(Failed::NoMemory),
    }
}
