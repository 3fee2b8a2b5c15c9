// Where the blocks of inodes stand.
ghost use Rattle.std.specs.Prelude.{◌≡◌, ◌≤◌, ◌<◌, ◌+◌, ◌*◌, ◌^◌, length, All, IfOk};
ghost use Rattle.model.specs.Layout.{inode_block, inode_count_of};
ghost use Rattle.model.specs.Places.{pointer_of, pointers_under, pointers_along, pointers_in, pointers_of, addresses_in, places_of};
ghost use Rattle.model.specs.Verdict.{places_below};

use crate::inode::inode_of;
use crate::superblock::{form_of, inode_count};
use blocks::{BLOCK_SIZE, Block, NoMemory};
use layout::fields::read_u32;
use layout::{ADDRESSES_PER_BLOCK, depths, reach};
use model::types::{Dinode, Pointer};
use std::alloc::Global;

/// An address, needed where a file of `size` bytes reaches its block `first`.
fn pointer_of(size: u32, first: u32, address: u32) -> Pointer
    ensures { result ≡ pointer_of size first address }
{
    let needed = u64::from(first) * (BLOCK_SIZE as u64) < u64::from(size);
    Pointer { address, needed }
}

/// The pointers from an address on, itself first. It leads to the file's block `first`, through
/// `depth` blocks of addresses.
#[tactic(auto, using(crate::proofs::PlacesLemmas::behind_more, crate::proofs::PlacesLemmas::behind_all, crate::proofs::PlacesLemmas::under_block))]
fn pointers_under(
    alloc: Global,
    image: &[Block],
    size: u32,
    depth: u32,
    first: u32,
    address: u32,
) -> Result<Vec<Pointer>, NoMemory>
    requires shallow { depth ≤ 2 }
    requires early { first + depth * 2 ^ 24 < 2 ^ 32 }
    ensures { IfOk result (λ pointers. pointers.items
        ≡ pointers_under image.now size depth first address) }
{
    let mut pointers = Vec::new(alloc);
    pointers.push(pointer_of(size, first, address))?;
    if depth == 0 || address == 0 {
        return Ok(pointers);
    }
    let Some(block) = image.get(address as usize) else {
        return Ok(pointers);
    };
    let bytes = block.as_slice();
    let step = reach(depth - 1);
    let mut at = first;
    for k in 0..ADDRESSES_PER_BLOCK {
        let word = read_u32(bytes, 4 * k);
        let behind = pointers_under(alloc, image, size, depth - 1, at, word)?;
        pointers.extend_from_slice(behind.as_slice())?;
        at += step;
    }
    Ok(pointers)
}

/// The pointers of addresses of those depths.
fn pointers_along(
    alloc: Global,
    image: &[Block],
    size: u32,
    depths: &[u32],
    addresses: &[u32],
) -> Result<Vec<Pointer>, NoMemory>
    requires shallow { All (λ depth. depth ≤ 2) depths.now }
    requires short { length depths.now ≤ 13 }
    requires same { length addresses.now ≡ length depths.now }
    ensures { IfOk result (λ pointers. pointers.items
        ≡ pointers_along image.now size 0 depths.now addresses.now) }
{
    let mut pointers = Vec::new(alloc);
    let mut first = 0u32;
    for k in 0..depths.len() {
        let depth = depths[k];
        let under = pointers_under(alloc, image, size, depth, first, addresses[k])?;
        pointers.extend_from_slice(under.as_slice())?;
        first += reach(depth);
    }
    Ok(pointers)
}

/// The pointers of an inode, in order; none where it is free.
#[tactic(auto, unfolding(model::specs::Places::pointers_in))]
pub fn pointers_in(alloc: Global, image: &[Block], inode: &Dinode) -> Result<Vec<Pointer>, NoMemory>
    requires { 2 ≤ length image.now }
    ensures { IfOk result (λ pointers. pointers.items ≡ pointers_in image.now inode.now) }
{
    if inode.kind == 0 {
        return Ok(Vec::new(alloc));
    }
    let depths = depths(form_of(image));
    pointers_along(alloc, image, inode.size, &depths, &inode.addrs)
}

/// The pointers of inode `i`, in order; none where it is free.
pub fn pointers_of(alloc: Global, image: &[Block], i: u32) -> Result<Vec<Pointer>, NoMemory>
    requires { inode_block i < length image.now }
    ensures { IfOk result (λ pointers. pointers.items ≡ pointers_of image.now i) }
{
    let inode = inode_of(image, i);
    pointers_in(alloc, image, &inode)
}

/// The addresses that are there.
pub fn addresses_in(alloc: Global, pointers: &[Pointer]) -> Result<Vec<u32>, NoMemory>
    ensures { IfOk result (λ addresses. addresses.items ≡ addresses_in pointers.now) }
{
    let addresses = pointers
        .iter()
        .map(|pointer| pointer.address)
        .filter(|address| *address != 0)
        .collect(alloc)?;
    Ok(addresses)
}

/// The places of the inodes from 1 on and below `end`.
#[tactic(auto, using(model::specs::Lemmas::Steps::flat_mapped_next))]
pub fn places_below(alloc: Global, image: &[Block], end: u32) -> Result<Vec<u32>, NoMemory>
    requires known { inode_block end < length image.now }
    requires some { 1 ≤ end }
    ensures { IfOk result (λ places. places.items ≡ places_below image.now end) }
{
    let mut places = Vec::new(alloc);
    for i in 1..end {
        let pointers = pointers_of(alloc, image, i)?;
        let addresses = addresses_in(alloc, pointers.as_slice())?;
        places.extend_from_slice(addresses.as_slice())?;
    }
    Ok(places)
}

/// The places of an image: each address that is there, inode by inode.
pub fn places_of(alloc: Global, image: &[Block]) -> Result<Vec<u32>, NoMemory>
    requires { inode_block (inode_count_of image.now) < length image.now }
    ensures { IfOk result (λ places. places.items ≡ places_of image.now) }
{
    places_below(alloc, image, inode_count(image).max(1))
}
