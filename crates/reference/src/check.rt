// The first fault of an image.
ghost use Rattle.std.specs.Prelude.{◌≡◌, ◌≤◌, ◌<◌, length, IfOk};
ghost use Rattle.model.specs.Layout.{inode_count_of};
ghost use Rattle.model.specs.Places.{places_of};
ghost use Rattle.model.specs.Readable.{IsReadable};
ghost use Rattle.model.specs.Verdict.{geometry_fault, address_fault, pointer_fault, first_pointer_fault, inode_fault, inodes_fault, mark_fault, marks_fault, verdict};

use crate::inode::inode_of;
use crate::log::is_lawful_log;
use crate::places::{places_below, places_of, pointers_of};
use crate::recovery::recovered;
use crate::superblock::{
    first_data_block, form_of, has_known_magic, inode_count, is_lawful_super, is_marked, super_of,
};
use blocks::{Block, NoMemory};
use layout::greatest_size;
use model::types::{CheckFault, Pointer};
use std::alloc::Global;

/// What is wrong with the superblock.
pub fn geometry_fault(image: &[Block]) -> Option<CheckFault>
    ensures { result ≡ geometry_fault image.now }
{
    if image.len() < 2 {
        return Some(CheckFault::BadGeometry);
    }
    if !has_known_magic(image) {
        return Some(CheckFault::BadMagic);
    }
    if !is_lawful_super(super_of(image), image.len()) {
        return Some(CheckFault::BadGeometry);
    }
    None
}

/// What is wrong with address `a` of inode `i`, where earlier ones are known.
fn address_fault(image: &[Block], i: u32, earlier: &[u32], a: u32) -> Option<CheckFault>
    requires { IsReadable image.now }
    ensures { result ≡ address_fault image.now i earlier.now a }
{
    if a < first_data_block(image) || a as usize >= image.len() {
        return Some(CheckFault::BadAddress(i));
    }
    if earlier.contains(&a) {
        return Some(CheckFault::TwiceUsed(a));
    }
    if !is_marked(image, a) {
        return Some(CheckFault::UsedButFree(a));
    }
    None
}

/// What is wrong with a pointer of inode `i`, where earlier addresses are known.
fn pointer_fault(image: &[Block], i: u32, earlier: &[u32], pointer: Pointer) -> Option<CheckFault>
    requires { IsReadable image.now }
    ensures { result ≡ pointer_fault image.now i earlier.now pointer }
{
    if pointer.address != 0 {
        return address_fault(image, i, earlier, pointer.address);
    }
    if pointer.needed {
        return Some(CheckFault::BadAddress(i));
    }
    None
}

/// The first fault of the pointers of inode `i`, each judged by the addresses before it.
fn first_pointer_fault(
    image: &[Block],
    i: u32,
    mut earlier: Vec<u32>,
    pointers: &[Pointer],
) -> Result<Option<CheckFault>, NoMemory>
    requires { IsReadable image.now }
    ensures { IfOk result (λ fault. fault
        ≡ first_pointer_fault image.now i earlier.items pointers.now) }
{
    for pointer in pointers {
        let fault = pointer_fault(image, i, earlier.as_slice(), *pointer);
        if fault.is_some() {
            return Ok(fault);
        }
        if pointer.address != 0 {
            earlier.push(pointer.address)?;
        }
    }
    Ok(None)
}

/// The first fault of inode `i`.
#[tactic(auto, unfolding(model::specs::Verdict::inode_fault))]
pub fn inode_fault(alloc: Global, image: &[Block], i: u32) -> Result<Option<CheckFault>, NoMemory>
    requires readable { IsReadable image.now }
    requires some { 1 ≤ i }
    requires below { i < inode_count_of image.now }
    ensures { IfOk result (λ fault. fault ≡ inode_fault image.now i) }
{
    let inode = inode_of(image, i);
    if inode.kind > 3 {
        return Ok(Some(CheckFault::BadType(i)));
    }
    if inode.kind == 0 {
        return Ok(None);
    }
    if inode.size > greatest_size(form_of(image)) {
        return Ok(Some(CheckFault::BadSize(i)));
    }
    let earlier = places_below(alloc, image, i)?;
    let pointers = pointers_of(alloc, image, i)?;
    first_pointer_fault(image, i, earlier, pointers.as_slice())
}

/// The first fault of the inodes, in the order of their numbers.
#[tactic(auto, using(model::specs::Lemmas::Verdict::first_here, model::specs::Lemmas::Verdict::first_later, model::specs::Lemmas::Verdict::first_none))]
pub fn inodes_fault(alloc: Global, image: &[Block]) -> Result<Option<CheckFault>, NoMemory>
    requires { IsReadable image.now }
    ensures { IfOk result (λ fault. fault ≡ inodes_fault image.now) }
{
    for i in 1..inode_count(image) {
        if let Some(fault) = inode_fault(alloc, image, i)? {
            return Ok(Some(fault));
        }
    }
    Ok(None)
}

/// What is wrong with the bit of block `b`, where the image's places are known.
#[tactic(auto, unfolding(model::specs::Verdict::mark_fault))]
fn mark_fault(image: &[Block], places: &[u32], b: u32) -> Option<CheckFault>
    requires readable { IsReadable image.now }
    requires places { places.now ≡ places_of image.now }
    requires below { b < length image.now }
    ensures { result ≡ mark_fault image.now b }
{
    let is_marked = is_marked(image, b);
    if b < first_data_block(image) {
        return if is_marked {
            None
        } else {
            Some(CheckFault::UsedButFree(b))
        };
    }
    if is_marked && !places.contains(&b) {
        return Some(CheckFault::LostBlock(b));
    }
    None
}

/// The first fault of the bitmap, in the order of the blocks.
#[tactic(auto, using(model::specs::Lemmas::Verdict::first_here, model::specs::Lemmas::Verdict::first_later, model::specs::Lemmas::Verdict::first_none))]
pub fn marks_fault(alloc: Global, image: &[Block]) -> Result<Option<CheckFault>, NoMemory>
    requires { IsReadable image.now }
    ensures { IfOk result (λ fault. fault ≡ marks_fault image.now) }
{
    let places = places_of(alloc, image)?;
    for b in 0..image.len() as u32 {
        if let Some(fault) = mark_fault(image, places.as_slice(), b) {
            return Ok(Some(fault));
        }
    }
    Ok(None)
}

/// The first fault of an image: of its superblock, of its log, and then of what recovery leaves.
/// None where it has no fault.
#[tactic(auto, using(model::specs::Lemmas::Super::readable_recovered), unfolding(model::specs::Verdict::verdict))]
pub fn verdict(alloc: Global, image: &[Block]) -> Result<Option<CheckFault>, NoMemory>
    ensures { IfOk result (λ fault. fault ≡ verdict image.now) }
{
    if let Some(fault) = geometry_fault(image) {
        return Ok(Some(fault));
    }
    if !is_lawful_log(alloc, image)? {
        return Ok(Some(CheckFault::BadLog));
    }
    let blocks = recovered(alloc, image)?;
    if let Some(fault) = inodes_fault(alloc, blocks.as_slice())? {
        return Ok(Some(fault));
    }
    marks_fault(alloc, blocks.as_slice())
}
