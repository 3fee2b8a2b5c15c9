// The header of an image's log.
ghost use Rattle.std.specs.Prelude.{◌≡◌, ◌≤◌, length, IfOk};
ghost use Rattle.model.specs.Format.{log_capacity};
ghost use Rattle.model.specs.Log.{logged_count, homes_of, are_distinct, are_in_place, is_lawful_log};

use blocks::{Block, NoMemory};
use layout::fields::read_u32;
use layout::{INODE_START, LOG_CAPACITY, LOG_START};
use std::alloc::Global;

/// How many blocks the header says are logged.
pub fn logged_count(image: &[Block]) -> u32
    requires { 3 ≤ length image.now }
    ensures { result ≡ logged_count image.now }
{
    read_u32(image[LOG_START as usize].as_slice(), 0)
}

/// The numbers of the blocks where the logged ones belong, in the order of logging: at most 30.
#[tactic(auto, using(model::specs::Lemmas::Words::header_words_more))]
pub fn homes_of(alloc: Global, image: &[Block]) -> Result<Vec<u32>, NoMemory>
    requires { 3 ≤ length image.now }
    ensures value { IfOk result (λ homes. homes.items ≡ homes_of image.now) }
    ensures few { IfOk result (λ homes. length homes.items ≤ log_capacity) }
{
    let header = image[LOG_START as usize].as_slice();
    let count = logged_count(image).min(LOG_CAPACITY);
    let mut homes = Vec::new(alloc);
    for k in 0..count {
        homes.push(read_u32(header, 4 + 4 * k as usize))?;
    }
    Ok(homes)
}

/// Whether no number stands twice.
pub fn are_distinct(numbers: &[u32]) -> bool
    ensures { result ≡ are_distinct numbers.now }
{
    for k in 0..numbers.len() {
        let others = &numbers[k + 1..];
        if others.contains(&numbers[k]) {
            return false;
        }
    }
    true
}

/// Whether each home lies behind the log and inside an image of `size` blocks.
pub fn are_in_place(homes: &[u32], size: usize) -> bool
    ensures { result ≡ are_in_place homes.now size }
{
    homes
        .iter()
        .all(|home| *home >= INODE_START && (*home as usize) < size)
}

/// Whether at most 30 blocks are logged, and their homes lie behind the log, inside the image, and
/// differ.
pub fn is_lawful_log(alloc: Global, image: &[Block]) -> Result<bool, NoMemory>
    requires { 3 ≤ length image.now }
    ensures { IfOk result (λ is_lawful. is_lawful ≡ is_lawful_log image.now) }
{
    if logged_count(image) > LOG_CAPACITY {
        return Ok(false);
    }
    let homes = homes_of(alloc, image)?;
    if !are_in_place(homes.as_slice(), image.len()) {
        return Ok(false);
    }
    Ok(are_distinct(homes.as_slice()))
}
