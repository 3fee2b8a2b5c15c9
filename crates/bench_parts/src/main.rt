//! Programs to be timed, for `bench/run`. The first word names one of them, and the others are its
//! numbers; with no word each but `idle` is run once, on small numbers.
//!
//! `writes N` makes N writes of 1024 bytes to files of an image in memory, by four processes in turn,
//! and prints how many steps that took. `named N` makes N such writes to one file of an open tree, which
//! each finds by its path, and prints how many were made. `pairs N` hands in N operations of one process
//! and polls their answers, one after the other, on one thread, and looks as often how many groups are
//! committed; it prints how many answers it got. `idle N` serves a kernel of 32 processes, none of which
//! has anything to do, with 8 workers for N milliseconds. `cache BLOCKS ROUNDS` acquires so many blocks of
//! a cache in turn, each released at once, in so many rounds, and prints how many were. Up to 40 blocks
//! keep their slots; of more, each takes another one's.
#![tactic(auto)]

mod cached;
mod failed;
mod idle;
mod images;
mod named;
mod pairs;
mod writes;

use crate::cached::count_released;
use crate::idle::idle;
use crate::named::count_named;
use crate::pairs::count_answers;
use crate::writes::count_steps;
use anyhow::bail;
use std::alloc::{AllocGlobal, Global};
use std::env;
use std::rt::Clock;
use std::sync::Wait;
use std::thread::Threads;

fn main(rt: HostRuntime) -> anyhow::Result<()> {
    let words: Vec<String> = env::args(&rt)?.skip(1).collect(rt.alloc())?;
    match words.as_slice() {
        [] => print_all(&rt, rt.alloc()),
        [part, count] => print_part(&rt, part.as_str(), count.as_str().parse()?),
        [cache, blocks, rounds] if cache.as_str() == "cache" => print_cache(
            &rt,
            rt.alloc(),
            blocks.as_str().parse()?,
            rounds.as_str().parse()?,
        ),
        _ => bail!("the words are a part and its numbers, or none"),
    }
}

fn print_all(rt: &impl Print, alloc: Global) -> anyhow::Result<()> {
    print_writes(rt, alloc, 20)?;
    print_named(rt, alloc, 20)?;
    print_pairs(rt, alloc, 20)?;
    print_cache(rt, alloc, 41, 100)
}

fn print_part<R: Print + Threads + Wait + Clock + AllocGlobal + Sync>(
    rt: &R,
    part: &str,
    count: u32,
) -> anyhow::Result<()> {
    match part {
        "writes" => print_writes(rt, rt.alloc(), count),
        "named" => print_named(rt, rt.alloc(), count),
        "pairs" => print_pairs(rt, rt.alloc(), count),
        "idle" => Ok(idle(rt, u64::from(count))?),
        _ => bail!("the first word is writes, named, pairs, idle or cache"),
    }
}

fn print_writes(rt: &impl Print, alloc: Global, writes: u32) -> anyhow::Result<()> {
    let steps = count_steps(alloc, writes)?;
    println!(rt; "{steps}")?;
    Ok(())
}

fn print_named(rt: &impl Print, alloc: Global, writes: u32) -> anyhow::Result<()> {
    let made = count_named(alloc, writes)?;
    println!(rt; "{made}")?;
    Ok(())
}

fn print_pairs(rt: &impl Print, alloc: Global, pairs: u32) -> anyhow::Result<()> {
    let answers = count_answers(alloc, pairs)?;
    println!(rt; "{answers}")?;
    Ok(())
}

fn print_cache(rt: &impl Print, alloc: Global, blocks: u32, rounds: u32) -> anyhow::Result<()> {
    let released = count_released(alloc, blocks, rounds)?;
    println!(rt; "{released}")?;
    Ok(())
}
