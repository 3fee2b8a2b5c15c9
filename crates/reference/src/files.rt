// The files of an image.
ghost use Rattle.std.specs.Prelude.{◌≡◌, ◌≤◌, ◌<◌, length, All, IfOk};
ghost use Rattle.model.specs.Files.{blocks_for, data_at, joined, bytes_in, file_of, file_at, files_of};
ghost use Rattle.model.specs.Layout.{inode_block, inode_count_of};
ghost use Rattle.model.specs.Places.{address_under, address_along, address_in};

use crate::fields::{bytes_at, word_in};
use crate::inode::inode_of;
use crate::superblock::{form_of, inode_count};
use blocks::{BLOCK_SIZE, Block, NoMemory};
use layout::{depths, reach};
use model::content::Content;
use model::types::{Dinode, File};
use std::alloc::Global;

/// A place for each inode number, empty or with a file; number 0 is always empty.
pub type Files = Vec<Option<File>>;

/// The block at place `k` under an address: 0 where there is none.
#[tactic(auto, using(crate::proofs::FilesLemmas::address_data, crate::proofs::FilesLemmas::address_none, model::specs::Lemmas::Frames::address_block))]
fn address_under(image: &[Block], depth: u32, k: u32, address: u32) -> u32
    requires { depth ≤ 2 }
    ensures { result ≡ address_under image.now depth k address }
{
    if depth == 0 || address == 0 {
        return address;
    }
    let step = reach(depth - 1);
    let next = word_in(image, address, k / step);
    address_under(image, depth - 1, k % step, next)
}

/// The block at place `k` along addresses of those depths: 0 where there is none.
#[tactic(auto, using(crate::proofs::FilesLemmas::address_here, crate::proofs::FilesLemmas::address_later))]
fn address_along(image: &[Block], k: u32, depths: &[u32], addresses: &[u32]) -> u32
    requires shallow { All (λ depth. depth ≤ 2) depths.now }
    requires same { length addresses.now ≡ length depths.now }
    ensures { result ≡ address_along image.now k depths.now addresses.now }
{
    let mut place = k;
    for j in 0..depths.len() {
        let depth = depths[j];
        let step = reach(depth);
        if place < step {
            return address_under(image, depth, place, addresses[j]);
        }
        place -= step;
    }
    0
}

/// The data block that holds block `k` of an inode's file: 0 where there is none.
#[tactic(auto, unfolding(model::specs::Places::address_in))]
pub fn address_in(image: &[Block], inode: &Dinode, k: u32) -> u32
    requires { 2 ≤ length image.now }
    ensures { result ≡ address_in image.now inode.now k }
{
    let depths = depths(form_of(image));
    address_along(image, k, &depths, &inode.addrs)
}

/// How many blocks hold `size` bytes.
pub fn blocks_for(size: u32) -> u32
    ensures { result ≡ blocks_for size }
{
    (size as usize).div_ceil(BLOCK_SIZE) as u32
}

/// The bytes at an address; none where there is no block.
pub fn data_at(image: &[Block], address: u32) -> &[u8]
    ensures { result.now ≡ data_at image.now address }
{
    if address == 0 {
        &[]
    } else {
        bytes_at(image, address)
    }
}

/// The first `count` blocks of an inode's file, joined.
#[tactic(auto, using(model::specs::Lemmas::Steps::flat_mapped_more), unfolding(model::specs::Files::joined))]
pub fn joined(
    alloc: Global,
    image: &[Block],
    inode: &Dinode,
    count: u32,
) -> Result<Vec<u8>, NoMemory>
    requires { 2 ≤ length image.now }
    ensures { IfOk result (λ bytes. bytes.items ≡ joined image.now inode.now count) }
{
    let mut bytes = Vec::new(alloc);
    for k in 0..count {
        bytes.extend_from_slice(data_at(image, address_in(image, inode, k)))?;
    }
    Ok(bytes)
}

/// The bytes of an inode's data blocks, joined in order and cut at its size.
#[tactic(auto, unfolding(model::specs::Files::bytes_in))]
pub fn bytes_in(alloc: Global, image: &[Block], inode: &Dinode) -> Result<Vec<u8>, NoMemory>
    requires { 2 ≤ length image.now }
    ensures { IfOk result (λ bytes. bytes.items ≡ bytes_in image.now inode.now) }
{
    let mut bytes = joined(alloc, image, inode, blocks_for(inode.size))?;
    bytes.truncate(inode.size as usize);
    Ok(bytes)
}

/// The file of an inode; none where it is free.
#[tactic(auto, unfolding(model::specs::Files::file_of))]
pub fn file_of(alloc: Global, image: &[Block], inode: &Dinode) -> Result<Option<File>, NoMemory>
    requires { 2 ≤ length image.now }
    ensures { IfOk result (λ file. file ≡ file_of image.now inode.now) }
{
    if inode.kind == 0 {
        return Ok(None);
    }
    Ok(Some(File {
        kind: inode.kind,
        links: inode.nlink,
        bytes: Content::new(bytes_in(alloc, image, inode)?),
    }))
}

/// The file of number `i`; none for number 0.
pub fn file_at(alloc: Global, image: &[Block], i: u32) -> Result<Option<File>, NoMemory>
    requires { inode_block i < length image.now }
    ensures { IfOk result (λ file. file ≡ file_at image.now i) }
{
    if i == 0 {
        return Ok(None);
    }
    let inode = inode_of(image, i);
    file_of(alloc, image, &inode)
}

/// The files of an image, one place for each inode number.
#[tactic(auto, using(model::specs::Lemmas::Steps::mapped_more))]
pub fn files_of(alloc: Global, image: &[Block]) -> Result<Files, NoMemory>
    requires known { inode_block (inode_count_of image.now) < length image.now }
    requires long { 2 ≤ length image.now }
    ensures { IfOk result (λ files. files.items ≡ files_of image.now) }
{
    let mut files = Vec::new(alloc);
    for i in 0..inode_count(image) {
        files.push(file_at(alloc, image, i)?)?;
    }
    Ok(files)
}
