// Images of which some bytes are changed by chance.
ghost use Rattle.std.specs.Prelude.{◌<◌};

use crate::bases::{Base, SIZES, put_bases};
use crate::chance::Chance;
use crate::faults::Faults;
use crate::image::Image;
use crate::image_judging::agreed_fault;
use crate::image_wrong::{Other, Place, What, Wrong};
use model::types::CheckFault;
use std::alloc::Global;

// Bits of a byte. Flipping them twice changes nothing.
#[derive(Clone, Copy)]
struct Flip {
    b: u32,
    at: usize,
    bits: u8,
}

/// Judges the images of so many seeds by the check and the plain program, and counts their faults.
pub fn hurt_by_chance(
    alloc: Global,
    first: u64,
    count: u64,
    faults: &mut Faults,
) -> Result<(), Wrong> {
    let mut bases = Vec::new(alloc);
    match put_bases(alloc, &mut bases) {
        Ok(()) => hurt_seeds(alloc, &mut bases, first, count, faults),
        Err(what) => Err(what.at(Place::Whole)),
    }
}

fn hurt_seeds(
    alloc: Global,
    bases: &mut [Base],
    first: u64,
    count: u64,
    faults: &mut Faults,
) -> Result<(), Wrong> {
    for k in 0..count {
        let seed = first.wrapping_add(k);
        if let Err(what) = hurt_seed(alloc, bases, seed, faults) {
            return Err(what.at(Place::Seed(seed)));
        }
    }
    Ok(())
}

fn hurt_seed(
    alloc: Global,
    bases: &mut [Base],
    seed: u64,
    faults: &mut Faults,
) -> Result<(), What> {
    let mut chance = Chance::new(seed, 0);
    let place = chance.below(SIZES.len() as u32) as usize;
    match bases.get_mut(place) {
        Some(base) => faults.add(hurt(alloc, base, &mut chance)?),
        None => Err(What::Other(Other::NoImage)),
    }
}

// Changes one to eight bytes, most often few, has the image judged, and puts the bytes back.
fn hurt(alloc: Global, base: &mut Base, chance: &mut Chance) -> Result<Option<CheckFault>, What> {
    let mut flips = [Flip {
        b: 0,
        at: 0,
        bits: 0,
    }; 8];
    let most = 1 + chance.below(8);
    let count = 1 + chance.below(most);
    let flips = &mut flips[..count as usize];
    draw(base, chance, flips)?;
    flip_all(&mut base.image, flips)?;
    let fault = agreed_fault(alloc, &mut base.image)?;
    flip_all(&mut base.image, flips)?;
    Ok(fault)
}

fn flip_all(image: &mut Image, flips: &[Flip]) -> Result<(), What> {
    for flip in flips {
        let byte = image.byte(flip.b, flip.at)?;
        image.set(flip.b, flip.at, byte ^ flip.bits)?;
    }
    Ok(())
}

fn draw(base: &Base, chance: &mut Chance, flips: &mut [Flip]) -> Result<(), What> {
    for flip in flips {
        *flip = drawn(base, chance)?;
    }
    Ok(())
}
// Bits to be flipped: one, some of the low ones, those that leave a block's number, or any.
fn drawn(base: &Base, chance: &mut Chance) -> Result<Flip, What> {
    let (b, at) = place(base, chance);
    let bits = match chance.below(4) {
        0 => 1 << chance.below(8),
        1 => chance.below(16) as u8,
        2 => base.image.byte(b, at)? ^ chance.below(base.size) as u8,
        _ => chance.below(256) as u8,
    };
    Ok(Flip { b, at, bits })
}

// A block and the index of a byte in it: most often where the image says what is where.
fn place(base: &Base, chance: &mut Chance) -> (u32, usize) {
    match chance.below(64) {
        // The superblock, and the log's header.
        0 => (1, chance.below(32) as usize),
        1 => (2, chance.below(32) as usize),
        // Blocks in the log.
        2..=7 => (3 + chance.below(4), chance.below(1024) as usize),
        8..=31 => {
            let number = chance.below(base.inode_count);
            let at = number % 16 * 64 + in_words(chance, 64);
            (33 + number / 16, at as usize)
        }
        // The bitmap's block.
        32..=43 => (
            34 + base.inode_count / 16,
            chance.below(base.size / 8 + 1) as usize,
        ),
        44..=55 => (base.addresses, in_words(chance, 64) as usize),
        _ => (chance.below(base.size), chance.below(1024) as usize),
    }
}

// An index below the bound, most often of the lowest byte of a word.
fn in_words(chance: &mut Chance, bound: u32) -> u32
    requires { 0 < bound }
    ensures { result < bound }
{
    let at = chance.below(bound);
    if chance.is_one_in(4) { at } else { at / 4 * 4 }
}
