//! Tests by rows: each line of a file is a call, and is printed with what its call answered. The word
//! names a part, and with none all are run.
//!
//! `volumes` has calls of disks, caches, volumes and recovery, `kernels` of disks and of a kernel over
//! one, with scripts and schedules that are read. There a call may fail, images may be kept, and what
//! a call asks of its caller is tested first: a line for which it doesn't hold is refused. Empty lines,
//! and lines that begin with `#`, are printed as they are. `rings` has calls of kernels over rings and
//! a board, and `sharing` kernels that threads share.
#![tactic(auto)]

mod bench;
mod caches;
mod calls;
mod fault;
mod flushes;
mod images;
mod kernel_rows;
mod kernels;
mod lines;
mod operations;
mod pieces;
mod readings;
mod ring_rows;
mod rounds;
mod rows;
mod session;
mod sharing;
mod teller;
mod volume_rows;
mod volumes;

use crate::kernel_rows::print_kernel_rows;
use crate::ring_rows::print_ring_rows;
use crate::sharing::print_sharing;
use crate::volume_rows::print_volume_rows;
use anyhow::bail;
use std::env;

fn main(rt: HostRuntime) -> anyhow::Result<()> {
    let words: Vec<String> = env::args(&rt)?.skip(1).collect(rt.alloc())?;
    match words.first().map(|word| word.as_str()) {
        Some("volumes") => print_volume_rows(&rt),
        Some("kernels") => print_kernel_rows(&rt),
        Some("rings") => print_ring_rows(&rt),
        Some("sharing") => print_sharing(&rt),
        Some(_) => bail!("the word is volumes, kernels, rings or sharing"),
        None => {
            print_volume_rows(&rt)?;
            print_kernel_rows(&rt)?;
            print_ring_rows(&rt)?;
            print_sharing(&rt)
        }
    }
}
