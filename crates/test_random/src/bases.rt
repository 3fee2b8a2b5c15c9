// The images that are hurt, as a kernel left them.
ghost use Rattle.std.specs.Prelude.{◌≤◌, ◌<◌};

use crate::image::Image;
use crate::image_judging::agreed_fault;
use crate::image_wrong::{Other, What, ensure};
use crate::kernels::{Making, made};
use blocks::Disk;
use layout::inode;
use std::alloc::Global;

// How many operations there are.
const OPERATIONS: u32 = 13;

/// How many blocks and inode numbers the images have to which bytes are changed by chance.
pub const SIZES: [(u32, u32); 8] = [
    (54, 5),
    (60, 8),
    (66, 11),
    (58, 15),
    (64, 16),
    (70, 20),
    (62, 24),
    (90, 33),
];

/// An image with files, of which the first has a block of addresses.
#[derive(Drop)]
pub struct Base {
    pub image: Image,
    pub size: u32,
    pub inode_count: u32,
    /// The first file's block of addresses.
    pub addresses: u32,
    ghost some_blocks: { 0 < size },
    ghost few_blocks: { size ≤ 256 },
    ghost some_numbers: { 0 < inode_count },
    ghost few_numbers: { inode_count ≤ 1024 },
}

/// An image of 200 blocks, over which the commit of a creation was stopped before its third write, so
/// that the inode's block stands in the log alone.
pub fn stopped_creation(alloc: Global) -> Result<Image, What> {
    let making = Making {
        size: 200,
        inode_count: 32,
        operations: 1,
        stop: 3,
    };
    Image::of(alloc, made(alloc, making)?.into_inner())
}

/// Puts the images in a row, of which each second one has a log: it was stopped before its last write
/// but one.
pub fn put_bases(alloc: Global, bases: &mut Vec<Base>) -> Result<(), What> {
    for (k, (size, inode_count)) in SIZES.iter().enumerate() {
        let making = Making {
            size: *size,
            inode_count: *inode_count,
            operations: OPERATIONS,
            stop: 0,
        };
        bases.push(make_base(alloc, making, k % 2 == 1)?)?;
    }
    Ok(())
}

fn make_base(alloc: Global, mut making: Making, is_stopped: bool) -> Result<Base, What> {
    if is_stopped {
        making.stop = writes(alloc, making)?.saturating_sub(1);
    }
    let image = Image::of(alloc, made(alloc, making)?.into_inner())?;
    base_of(alloc, image, making)
}

// How many writes the operations make.
fn writes(alloc: Global, making: Making) -> Result<u64, What> {
    let disk = made(alloc, making)?;
    Ok(disk.writes().saturating_sub(making.size as u64))
}

fn base_of(alloc: Global, mut image: Image, making: Making) -> Result<Base, What> {
    match addresses(alloc, &mut image) {
        Ok(addresses) => Ok(Base {
            image,
            size: making.size.clamp(1, 256),
            inode_count: making.inode_count.clamp(1, 1024),
            addresses,
        }),
        Err(what) => Err(what),
    }
}

// The first file's block of addresses, where the image is sound.
fn addresses(alloc: Global, image: &mut Image) -> Result<u32, What> {
    if let Some(fault) = agreed_fault(alloc, image)? {
        return Err(What::Image(fault));
    }
    match image.blocks.get(33) {
        Some(block) => {
            let addresses = inode::read_at(block, 1).addrs[12];
            ensure(addresses > 0, Other::NoAddresses)?;
            Ok(addresses)
        }
        None => Err(What::Other(Other::NoAddresses)),
    }
}
