//! Conversions of images whose log has 30 blocks, as xv6's mkfs of the courses of 2019 to 2024 makes
//! them: what becomes of one, that it gets its log again, and why others are refused.
#![tactic(auto)]

mod back;
mod olden;
mod refused;
mod told;

use crate::back::print_back;
use crate::refused::print_refused;
use crate::told::print_converted;

fn main(rt: HostRuntime) -> anyhow::Result<()> {
    let alloc = rt.alloc();
    print_converted(&rt, alloc, None)?;
    print_converted(&rt, alloc, Some(100))?;
    print_back(&rt, alloc)?;
    print_refused(&rt, alloc)
}
