// Disks over files, images that are read as recovery would leave them, what the plain program says of
// replies, and what is told of a mismatch.
use crate::all_faults::print_all_faults;
use crate::files::{print_makings, print_openings};
use crate::linked::print_links;
use crate::mismatches::print_mismatches;
use crate::real_file::print_real_file;
use crate::recovered::print_readings;
use crate::replies::{print_journals, print_replies, print_short_writes};
use blocks::{DiskFault, FileFault, NoMemory};

/// Each row is a call, which is printed with what it answers.
pub fn print_disks(rt: &HostRuntime) -> anyhow::Result<()> {
    let alloc = rt.alloc();
    print_openings(rt, alloc)?;
    print_makings(rt, alloc)?;
    print_real_file(rt)?;
    print_fault_texts(rt)?;
    print_readings(rt, alloc)?;
    print_all_faults(rt, alloc)?;
    print_replies(rt, alloc)?;
    print_short_writes(rt, alloc)?;
    print_journals(rt, alloc)?;
    print_links(rt, alloc)?;
    print_mismatches(rt, alloc)
}

fn print_fault_texts(rt: &impl Print) -> anyhow::Result<()> {
    println!(rt; "\nfaults have texts")?;
    println!(rt; "{}, {}", DiskFault(7), NoMemory)?;
    println!(rt;
        "{}, {}, {}, {}, {}",
        FileFault::Open,
        FileFault::Length,
        FileFault::NoMemory,
        FileFault::Locked,
        FileFault::Exists
    )?;
    Ok(())
}
