// Files made by paths, each stopped before one of the writes.
ghost use Rattle.std.specs.Prelude.{◌≡◌, IfOk};
ghost use Rattle.model.specs.Codec.{made_image};
ghost use Rattle.model.specs.declared.types.image.Form.TheVariants.{One};

use blocks::{Disk, FaultyDisk, Kind, MemDisk};
use directories::Refusal;
use layout::MkfsFault;
use names::{Tree, TreeFault};
use offline::mkfs;
use std::alloc::Global;

// The blocks and the inode numbers of an image.
const SIZE: u32 = 200;

const INODES: u32 = 32;

/// What a stop left of a path.
#[derive(Clone, Copy)]
pub struct Left {
    /// Whether there was a write of this number, before which the making was stopped.
    pub was_stopped: bool,
    /// Where the path leads in the image that was recovered.
    pub number: Option<u32>,
}

/// A new image.
pub fn new_disk(alloc: Global) -> Result<MemDisk, MkfsFault>
    ensures { IfOk result (λ disk. ⟦<MemDisk as Disk>⟧.image disk ≡ made_image One SIZE INODES) }
{
    let mut disk = MemDisk::new(alloc, SIZE)?;
    match mkfs(alloc, &mut disk, SIZE, INODES) {
        Ok(()) => Ok(disk),
        Err(fault) => Err(fault),
    }
}

/// Makes a file at a path of a disk whose files are a tree, stops that before its write of this number,
/// and opens what the stop left.
pub fn where_it_leads(
    alloc: Global,
    disk: MemDisk,
    path: &str,
    write: u64,
) -> anyhow::Result<Left> {
    match Tree::open(alloc, FaultyDisk::new(disk, write, Kind::WriteOld)) {
        Ok(mut tree) => {
            let made = tree.make(alloc, path.as_bytes());
            left_on(alloc, tree.into_disk().into_inner(), path, made.is_err())
        }
        Err((fault, _disk)) => Err(fault.into()),
    }
}

fn left_on(alloc: Global, disk: MemDisk, path: &str, was_stopped: bool) -> anyhow::Result<Left> {
    match Tree::open(alloc, disk) {
        Ok(mut tree) => match tree.lookup(alloc, path.as_bytes()) {
            Ok(number) => Ok(Left {
                was_stopped,
                number: Some(number),
            }),
            Err(TreeFault::Refused(Refusal::NotFound)) => Ok(Left {
                was_stopped,
                number: None,
            }),
            Err(fault) => Err(fault.into()),
        },
        Err((fault, _disk)) => Err(fault.into()),
    }
}
