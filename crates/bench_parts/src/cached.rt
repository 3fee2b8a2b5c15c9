// Blocks of a cache, acquired in turn.
use crate::failed::Failed;
use bcache::{Acquired, Cache};
use blocks::NoMemory;
use std::alloc::Global;

/// Acquires and releases so many blocks in turn, in so many rounds. How often one was released.
pub fn count_released(alloc: Global, blocks: u32, rounds: u32) -> Result<u64, Failed> {
    match Cache::new(alloc) {
        Ok(mut cache) => Ok(release_all(&mut cache, blocks, rounds)),
        Err(NoMemory) => Err(Failed::NoMemory),
    }
}

fn release_all(cache: &mut Cache, blocks: u32, rounds: u32) -> u64 {
    let mut count: u64 = 0;
    for _ in 0..rounds {
        count = count.wrapping_add(release_each(cache, blocks));
    }
    count
}

fn release_each(cache: &mut Cache, blocks: u32) -> u64 {
    let mut count: u64 = 0;
    for block in 0..blocks {
        if is_released(cache, block) {
            count = count.wrapping_add(1);
        }
    }
    count
}

// Whether a block was got, and released.
fn is_released(cache: &mut Cache, block: u32) -> bool {
    let Acquired::Got { slot, .. } = cache.acquire(0, block) else {
        return false;
    };
    if slot >= 40 || cache.holder(slot) != Some(0) {
        return false;
    }
    cache.release(0, slot);
    true
}
