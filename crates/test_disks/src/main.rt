//! Tests of disks by public calls: in memory, over a file that tells of its bytes, and over a device
//! that lacks what a failed sync left out.
#![tactic(auto)]

mod file;
mod forgetful;
mod known_file;
mod memory;

use crate::file::{print_new, print_opened};
use crate::forgetful::print_forgetful;
use crate::memory::print_memory;

fn main(rt: HostRuntime) -> anyhow::Result<()> {
    let alloc = rt.alloc();
    print_memory(&rt, alloc)?;
    print_new(&rt, alloc)?;
    print_opened(&rt, alloc)?;
    print_forgetful(&rt, alloc)
}
