// Each byte of an image hurt in turn, and each cut of it.
use crate::bases::stopped_creation;
use crate::faults::Faults;
use crate::image::Image;
use crate::image_judging::{agreed_fault, judge_opening, judge_recovery};
use crate::image_wrong::{Place, What, Wrong};
use std::alloc::Global;

// Of the image the superblock, the log's header, the block in the log, its home, which has the
// inodes, and the bitmap.
const BLOCKS: [u32; 5] = [1, 2, 3, 33, 36];

// What each byte is set to.
const BYTES: [u8; 4] = [0x00, 0x01, 0x7f, 0xff];

// The image's blocks.
const SIZE: u32 = 200;

/// What came of the images.
#[derive(Drop)]
pub struct Seen {
    pub faults: Faults,
    /// Openings of a kernel.
    pub refused: u64,
    pub opened: u64,
    /// Recoveries of images with a lawful superblock.
    pub unrecovered: u64,
    pub recovered: u64,
}

impl Seen {
    /// No image was judged.
    pub fn new() -> Seen {
        Seen {
            faults: Faults::new(),
            refused: 0,
            opened: 0,
            unrecovered: 0,
            recovered: 0,
        }
    }
}

/// Hurts each byte of five blocks, and cuts the image to each smaller size.
pub fn hurt_each(alloc: Global, seen: &mut Seen) -> Result<(), Wrong> {
    match stopped_creation(alloc) {
        Ok(mut image) => hurt_all(alloc, &mut image, seen),
        Err(what) => Err(what.at(Place::Whole)),
    }
}

fn hurt_all(alloc: Global, image: &mut Image, seen: &mut Seen) -> Result<(), Wrong> {
    for b in BLOCKS {
        hurt_block(alloc, image, b, seen)?;
    }
    for size in 0..SIZE {
        if let Err(what) = cut(alloc, image, size, seen) {
            return Err(what.at(Place::Cut(size)));
        }
    }
    Ok(())
}

// Sets each byte of a block to each of four values.
fn hurt_block(alloc: Global, image: &mut Image, b: u32, seen: &mut Seen) -> Result<(), Wrong> {
    for k in 0..4096usize {
        let (at, byte) = (k / 4, BYTES[k % 4]);
        if let Err(what) = hurt_byte(alloc, image, b, at, byte, seen) {
            return Err(what.at(Place::Byte(b, at, byte)));
        }
    }
    Ok(())
}

fn hurt_byte(
    alloc: Global,
    image: &mut Image,
    b: u32,
    at: usize,
    byte: u8,
    seen: &mut Seen,
) -> Result<(), What> {
    let old = image.byte(b, at)?;
    image.set(b, at, byte)?;
    judge(alloc, image, seen)?;
    image.set(b, at, old)
}

fn cut(alloc: Global, image: &Image, size: u32, seen: &mut Seen) -> Result<(), What> {
    let mut cut = image.cut(alloc, size)?;
    judge(alloc, &mut cut, seen)
}

// Judges check, opening and recovery of an image, and leaves it as it is.
fn judge(alloc: Global, image: &mut Image, seen: &mut Seen) -> Result<(), What> {
    let fault = agreed_fault(alloc, image)?;
    seen.faults.add(fault)?;
    judge_opening(alloc, image, fault)?;
    if fault.is_some() {
        seen.refused = seen.refused.saturating_add(1);
    } else {
        seen.opened = seen.opened.saturating_add(1);
    }
    match judge_recovery(alloc, image)? {
        Some(true) => seen.recovered = seen.recovered.saturating_add(1),
        Some(false) => seen.unrecovered = seen.unrecovered.saturating_add(1),
        None => {}
    }
    Ok(())
}
