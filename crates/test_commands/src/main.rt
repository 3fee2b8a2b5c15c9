//! Tests of what the commands stand on, by public calls. Its first word names a part, and with none
//! all of them are run.
//!
//! `disks`: disks over files, with a fake system of files and with the real one, an image that is
//! read as recovery would leave it, what the plain program says of replies, and what is told of a
//! mismatch. `failures`: copies of an image, puts into one, and the `cat` of a file, each of whose
//! calls of a disk fails in turn; the first that leaves something else than it has to ends the
//! program, with status 1. `replays`: replays and runs over disks that fail or can't sync, outputs
//! that are refused, a long script, and the texts of a kernel's faults.
#![tactic(auto)]

mod all_faults;
mod cats;
mod copies;
mod disks;
mod failing;
mod faults;
mod files;
mod ground;
mod holding;
mod linked;
mod long_script;
mod mismatches;
mod outputs;
mod puts;
mod real_file;
mod recovered;
mod refusals;
mod replaying;
mod replies;
mod wrong;

use crate::cats::fail_cats;
use crate::copies::fail_copies;
use crate::disks::print_disks;
use crate::failing::{print_replay, print_run};
use crate::faults::print_faults;
use crate::holding::{print_recoveries, print_syncs};
use crate::long_script::print_long_script;
use crate::outputs::print_outputs;
use crate::puts::fail_puts;
use anyhow::bail;
use std::alloc::{AllocGlobal, Global};
use std::env;
use std::rt::Clock;
use std::sync::Wait;
use std::thread::Threads;

fn main(rt: HostRuntime) -> anyhow::Result<()> {
    let words: Vec<String> = env::args(&rt)?.skip(1).collect(rt.alloc())?;
    match words.first().map(|word| word.as_str()) {
        Some("disks") => print_disks(&rt),
        Some("failures") => print_failures(&rt, rt.alloc()),
        Some("replays") => print_replays(&rt),
        Some(_) => bail!("the word is disks, failures or replays"),
        None => {
            print_disks(&rt)?;
            print_failures(&rt, rt.alloc())?;
            print_replays(&rt)
        }
    }
}

// Behind each failed copy the old image is as it was, and the new one is none or whole. Behind each
// failed put the image is recovered to a sound one, whose files are those before it, or those with
// the first of the bytes; over a file, where there is room for both, the old bytes are there or the
// new ones. A `cat` that fails has written the first of the bytes, in whole pieces.
fn print_failures(rt: &impl Print, alloc: Global) -> anyhow::Result<()> {
    fail_copies(rt, alloc)?;
    fail_puts(rt, alloc)?;
    fail_cats(rt, alloc)
}

fn print_replays<R: Print + Threads + Wait + Clock + AllocGlobal + Sync>(
    rt: &R,
) -> anyhow::Result<()> {
    print_replay(rt, rt.alloc())?;
    print_run(rt)?;
    print_recoveries(rt, rt.alloc())?;
    print_syncs(rt, rt.alloc())?;
    print_outputs(rt, rt.alloc())?;
    print_long_script(rt, rt.alloc())?;
    print_faults(rt)
}
