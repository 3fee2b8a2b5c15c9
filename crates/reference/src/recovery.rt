// The image that recovery leaves.
ghost use Rattle.std.specs.Prelude.{◌≡◌, ◌≤◌, ◌<◌, ◌+◌, length, IfOk, IfSome};
ghost use Rattle.model.specs.Format.{log_capacity, inode_start};
ghost use Rattle.model.specs.Log.{homes_of, place_among, block_from_log, recovered_block, recovered};

use crate::log::{homes_of, logged_count};
use blocks::{Block, NoMemory};
use layout::LOG_START;
use std::alloc::Global;

/// The place of block `b` among the homes, the first from 0 on.
#[tactic(auto, using(model::specs::Lemmas::Steps::position_from_zero))]
pub fn place_among(homes: &[u32], b: usize) -> Option<usize>
    ensures place { result ≡ place_among homes.now b }
    ensures below { IfSome result (λ k. k < length homes.now) }
{
    homes.iter().position(|home| *home as usize == b)
}

/// A copy of block `b`, or of the logged one at its place among the homes.
fn block_from_log(
    alloc: Global,
    image: &[Block],
    b: usize,
    place: Option<usize>,
) -> Result<Block, NoMemory>
    requires inside { b < length image.now }
    requires logged { IfSome place (λ k. 3 + k < length image.now) }
    ensures { IfOk result (λ block. block ≡ block_from_log image.now b place) }
{
    match place {
        Some(k) => image[LOG_START as usize + 1 + k].copied(alloc),
        None => image[b].copied(alloc),
    }
}

/// Block `b` of the image that recovery leaves, where something was logged.
#[tactic(auto, unfolding(model::specs::Log::recovered_block))]
pub fn recovered_block(
    alloc: Global,
    image: &[Block],
    homes: &[u32],
    b: usize,
) -> Result<Block, NoMemory>
    requires inside { b < length image.now }
    requires log { inode_start ≤ length image.now }
    requires known { homes.now ≡ homes_of image.now }
    requires few { length homes.now ≤ log_capacity }
    ensures { IfOk result (λ block. block ≡ recovered_block image.now b) }
{
    if b == LOG_START as usize {
        return Block::zeroed(alloc);
    }
    block_from_log(alloc, image, b, place_among(homes, b))
}

/// A copy of the image.
pub fn copied(alloc: Global, image: &[Block]) -> Result<Vec<Block>, NoMemory>
    ensures { IfOk result (λ blocks. blocks.items ≡ image.now) }
{
    let mut blocks = Vec::new(alloc);
    for block in image {
        blocks.push(block.copied(alloc)?)?;
    }
    Ok(blocks)
}

/// The image that recovery leaves.
#[tactic(auto, using(model::specs::Lemmas::Steps::mapped_more), unfolding(model::specs::Log::recovered))]
pub fn recovered(alloc: Global, image: &[Block]) -> Result<Vec<Block>, NoMemory>
    requires { inode_start ≤ length image.now }
    ensures { IfOk result (λ blocks. blocks.items ≡ recovered image.now) }
{
    if logged_count(image) == 0 {
        return copied(alloc, image);
    }
    let homes = homes_of(alloc, image)?;
    let mut blocks = Vec::new(alloc);
    for b in 0..image.len() {
        blocks.push(recovered_block(alloc, image, homes.as_slice(), b)?)?;
    }
    Ok(blocks)
}
