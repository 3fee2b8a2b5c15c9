// A sign for each block of an image.
ghost use Rattle.std.specs.Prelude.{◌≡◌, ◌==◌, ◌<◌, ◌≤◌, All, IfOk, None, ℕ, length, map, replicate, slice_index};
ghost use Rattle.std.specs.List.{list_any};
ghost use Rattle.blocks.specs.Calls.{OnlyReads};
ghost use Rattle.model.specs.Soundness.{count_of};
ghost use Rattle.model.specs.Verdict.{verdict};
ghost use Rattle.inspect.specs.Gathering.{KeepsCount};
ghost use Rattle.inspect.specs.Signs.{free_sign, owned_sign, owner_among, owner_sign, sign_among, signs_of, zone_sign};

use crate::fault::GatherFault;
use crate::owned::{Owned, owned_by_all};
use blocks::{Block, Disk};
use layout::{BITS_PER_BLOCK, INODE_START, Super, bitmap_block};
use offline::Recovered;
use std::alloc::Global;

// The signs of the blocks of a disk that was checked.
pub fn gather_signs<D: Disk>(alloc: Global, disk: &mut D) -> Result<Vec<u8>, GatherFault>
    requires { verdict (D.image disk.old) ≡ None }
    ensures signs { IfOk result (λ signs. signs.items ≡ signs_of (D.image disk.old)) }
    ensures reads { OnlyReads D.Disk disk.old disk.new }
    ensures faults { KeepsCount result (D.fault_count disk.old) (D.fault_count disk.new) }
{
    let mut block = Block::zeroed(alloc)?;
    let image = Recovered::open_checked(disk, &mut block)?;
    let owned = owned_by_all(alloc, disk, &image)?;
    let mut signs = vec![in alloc; b'.'; image.sup.size as usize]?;
    sign_owned(&mut signs, owned.as_slice());
    sign_others(&mut signs, &image);
    Ok(signs)
}

// Writes the signs of the blocks that files own.
fn sign_owned(signs: &mut [u8], owned: &[Owned])
    requires free { signs.old ≡ replicate (length signs.old) free_sign }
    requires inside { All (λ o. o.block < length signs.old) owned.now }
    requires once { (b : ℕ) → count_of b (map (λ o. o.block) owned.now) ≤ 1 }
    ensures signed { (b : ℕ) → b < length signs.old →
        slice_index signs.new b ≡ owner_sign (owner_among owned.now b) }
{
    for block in owned {
        signs[block.block as usize] = owned_sign(block);
    }
}

// The sign of a block that a file owns.
fn owned_sign(block: &Owned) -> u8
    ensures { result ≡ owned_sign block.now }
{
    if block.depth == 0 {
        b'0' + (block.file % 10) as u8
    } else {
        b'a'
    }
}

// Writes the signs of the other blocks, and those of the homes of the log.
fn sign_others(signs: &mut [u8], image: &Recovered)
    ensures signed { (b : ℕ) → b < length signs.old → slice_index signs.new b
        ≡ sign_among image.now.header.homes.items image.now.sup b (slice_index signs.old b) }
{
    for b in 0..signs.len() {
        signs[b] = sign_among(image, b, signs[b]);
    }
}

// The sign of block b, where its owner's or a free block's is known.
fn sign_among(image: &Recovered, b: usize, owner: u8) -> u8
    ensures { result ≡ sign_among image.now.header.homes.items image.now.sup b owner }
{
    if is_among(image.header.homes.as_slice(), b) {
        return b'*';
    }
    zone_sign(&image.sup, b, owner)
}

fn is_among(homes: &[u32], b: usize) -> bool
    ensures { result ≡ list_any (λ h. h == b) homes.now }
{
    homes.iter().any(|home| *home as usize == b)
}

// The same but for the homes of the log.
fn zone_sign(sup: &Super, b: usize, owner: u8) -> u8
    ensures { result ≡ zone_sign sup.now b owner }
{
    let bitmap = bitmap_block(sup.ninodes);
    let data = bitmap + sup.size / BITS_PER_BLOCK + 1;
    if b == 0 {
        b'b'
    } else if b == 1 {
        b's'
    } else if b < INODE_START as usize {
        b'l'
    } else if b < bitmap as usize {
        b'i'
    } else if b < data as usize {
        b'm'
    } else {
        owner
    }
}
