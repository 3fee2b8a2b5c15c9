//! Programs that stand on these crates, as examples. With the word `using` it does what docs/USING.md
//! shows: an image is made and opened, operations are called one after the other, and two processes
//! take turns up to a stop. With `trees` it makes directories and files by paths, finds and removes some,
//! stops the making of one before each of its writes, asks for a file with two names, and for names
//! in a large directory. With
//! `transactions` one is made to its end, stopped before each of its writes, given up, and made too large
//! for the log. With no word it does all three.
#![tactic(auto)]

mod calling;
mod counting;
mod crowding;
mod filling;
mod keeping;
mod knowing;
mod linking;
mod making;
mod naming;
mod pairing;
mod stopping;
mod stops;
mod together;
mod trees;
mod turning;
mod using;

use crate::crowding::print_crowded;
use crate::filling::print_full;
use crate::keeping::{print_abandoned, print_stopped};
use crate::linking::print_linked;
use crate::trees::print_trees;
use crate::using::print_using;
use anyhow::bail;
use std::alloc::Global;
use std::env;

fn main(rt: HostRuntime) -> anyhow::Result<()> {
    let words: Vec<String> = env::args(&rt)?.skip(1).collect(rt.alloc())?;
    match words.first() {
        Some(word) => print_part(&rt, rt.alloc(), word.as_str()),
        None => {
            print_using(&rt, rt.alloc())?;
            print_trees(&rt, rt.alloc())?;
            print_linked(&rt, rt.alloc())?;
            print_crowded(&rt, rt.alloc())?;
            print_transactions(&rt, rt.alloc())
        }
    }
}

fn print_part(rt: &impl Print, alloc: Global, part: &str) -> anyhow::Result<()> {
    match part {
        "using" => print_using(rt, alloc),
        "trees" => {
            print_trees(rt, alloc)?;
            print_linked(rt, alloc)?;
            print_crowded(rt, alloc)
        }
        "transactions" => print_transactions(rt, alloc),
        _ => bail!("the word is using, trees or transactions"),
    }
}

fn print_transactions(rt: &impl Print, alloc: Global) -> anyhow::Result<()> {
    print_stopped(rt, alloc)?;
    print_abandoned(rt, alloc)?;
    print_full(rt, alloc)
}
