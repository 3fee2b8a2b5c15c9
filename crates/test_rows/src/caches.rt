// Calls of a cache by itself, beside the disk.
use crate::bench::{Faulty, done};
use bcache::Cache;
use blocks::Disk;
use std::alloc::Global;

/// Does a call of this file, if the line is one for which all holds that it asks.
pub fn call(
    alloc: Global,
    cache: &mut Cache,
    disk: &mut Faulty,
    words: &[&str],
) -> anyhow::Result<Option<String>> {
    match *words {
        ["acquire", pid, block] => acquire(alloc, cache, pid, block),
        ["find", block] => find(alloc, cache, block),
        ["fill", slot] => fill(alloc, cache, disk, slot),
        ["unlock", pid, slot] => unlock(alloc, cache, pid, slot),
        ["write", pid, slot, at, hex] => write(alloc, cache, pid, slot, at, hex),
        ["first", count] => first(alloc, cache, count),
        ["ends"] => ends(alloc, cache),
        ["beside", slot] => beside(alloc, cache, slot),
        ["data", slot, count] => data(alloc, cache, slot, count),
        _ => Ok(None),
    }
}

fn acquire(
    alloc: Global,
    cache: &mut Cache,
    pid: &str,
    block: &str,
) -> anyhow::Result<Option<String>> {
    let answer = cache.acquire(pid.parse()?, block.parse()?);
    Ok(Some(format!(in alloc; "{answer:?}")?))
}

fn find(alloc: Global, cache: &Cache, block: &str) -> anyhow::Result<Option<String>> {
    let answer = cache.find(block.parse()?);
    Ok(Some(format!(in alloc; "{answer:?}")?))
}

// The order's ends.
fn ends(alloc: Global, cache: &Cache) -> anyhow::Result<Option<String>> {
    let links = cache.links();
    Ok(Some(format!(in alloc; "{} {}", links.first, links.last)?))
}

fn fill(
    alloc: Global,
    cache: &mut Cache,
    disk: &mut Faulty,
    slot: &str,
) -> anyhow::Result<Option<String>> {
    let slot: u32 = slot.parse()?;
    if slot >= 40 {
        return Ok(None);
    }
    match cache.block(slot) {
        Some(block) if block < disk.size() => {
            let answer = cache.fill(slot, disk);
            Ok(Some(format!(in alloc; "{answer:?}")?))
        }
        _ => Ok(None),
    }
}

fn unlock(
    alloc: Global,
    cache: &mut Cache,
    pid: &str,
    slot: &str,
) -> anyhow::Result<Option<String>> {
    let pid: u32 = pid.parse()?;
    let slot: u32 = slot.parse()?;
    if slot >= 40 || cache.holder(slot) != Some(pid) {
        return Ok(None);
    }
    cache.release(pid, slot);
    done(alloc, true)
}

// The holder of a slot writes bytes into it: one into what it was lent, and more by `put`.
fn write(
    alloc: Global,
    cache: &mut Cache,
    pid: &str,
    slot: &str,
    at: &str,
    hex: &str,
) -> anyhow::Result<Option<String>> {
    let pid: u32 = pid.parse()?;
    let slot: u32 = slot.parse()?;
    let at: usize = at.parse()?;
    let bytes = hex::decode(alloc, hex)?;
    if slot >= 40 || at > 1024 || bytes.len() > 1024 - at || cache.holder(slot) != Some(pid) {
        return Ok(None);
    }
    if bytes.len() == 1 {
        cache.data_mut(pid, slot).put(at, bytes.as_slice());
    } else {
        cache.put(pid, slot, at, bytes.as_slice());
    }
    done(alloc, true)
}

// The slots of the order's first places.
fn first(alloc: Global, cache: &Cache, count: &str) -> anyhow::Result<Option<String>> {
    let count: u32 = count.parse()?;
    let mut slots = Vec::new(alloc);
    for place in 0..count.min(40) {
        slots.push(cache.slot_at(place))?;
    }
    Ok(Some(format!(in alloc; "{slots:?}")?))
}

// The slots before and after a slot in the order.
fn beside(alloc: Global, cache: &Cache, slot: &str) -> anyhow::Result<Option<String>> {
    let slot: usize = slot.parse()?;
    if slot >= 40 {
        return Ok(None);
    }
    let links = cache.links();
    let (before, after) = (links.before[slot], links.after[slot]);
    Ok(Some(format!(in alloc; "{before} {after}")?))
}

fn data(alloc: Global, cache: &Cache, slot: &str, count: &str) -> anyhow::Result<Option<String>> {
    let slot: u32 = slot.parse()?;
    let count: usize = count.parse()?;
    if slot >= 40 {
        return Ok(None);
    }
    match cache.data(slot).as_slice().get(..count) {
        Some(bytes) => Ok(Some(hex::encode(alloc, bytes)?)),
        None => Ok(None),
    }
}
