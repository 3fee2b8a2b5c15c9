// A new file gets links by a call, and by a transaction.
ghost use Rattle.std.specs.Prelude.{◌+◌, ◌<◌, ◌≤◌, ◌^◌};
ghost use Rattle.calls.specs.Calls.{Rests, call_count};
ghost use Rattle.calls.specs.Transactions as of_pairs;

use crate::ground::{blocks_of, new_image};
use anyhow::bail;
use blocks::{Disk, MemDisk};
use calls::transactions::{self, Pair, open_pair};
use calls::{Sole, create, open_sole, set_links};
use reference::report::files_after_recovery;
use std::alloc::Global;

/// Prints how many links the file has then.
pub fn print_links(rt: &impl Print, alloc: Global) -> anyhow::Result<()> {
    println!(rt; "\na new file gets links")?;
    let mut called = with_links(alloc, new_image(alloc)?)?;
    println!(rt; "by a call: {:?}", first_links(alloc, &mut called)?)?;
    let mut kept = with_links_kept(alloc, new_image(alloc)?)?;
    println!(rt; "by a transaction: {:?}", first_links(alloc, &mut kept)?)?;
    Ok(())
}

fn with_links(alloc: Global, disk: MemDisk) -> anyhow::Result<MemDisk> {
    match open_sole(alloc, disk) {
        Ok(mut kernel) => match make_linked(&mut kernel) {
            Ok(()) => Ok(kernel.into_disk()),
            Err(fault) => Err(fault),
        },
        Err((fault, _disk)) => Err(fault.into()),
    }
}

fn make_linked<D: Disk>(kernel: &mut Sole<D>) -> anyhow::Result<()>
    requires rests { Rests D.fault_count kernel.old }
    requires few { call_count kernel.old + 2 ≤ 2 ^ 63 }
{
    let Some(number) = create(kernel, 2)? else {
        bail!("each number is taken");
    };
    Ok(set_links(kernel, number, 300)?)
}

fn with_links_kept(alloc: Global, disk: MemDisk) -> anyhow::Result<MemDisk> {
    match open_pair(alloc, disk) {
        Ok(mut kernel) => match make_linked_whole(alloc, &mut kernel) {
            Ok(()) => Ok(kernel.into_disk()),
            Err(fault) => Err(fault),
        },
        Err((fault, _disk)) => Err(fault.into()),
    }
}

fn make_linked_whole<D: Disk>(alloc: Global, kernel: &mut Pair<D>) -> anyhow::Result<()>
    requires rests { of_pairs.Rests D.fault_count kernel.old }
    requires few { call_count kernel.old + 4 < 2 ^ 63 }
{
    let Some(number) = transactions::create(alloc, kernel, 2)? else {
        bail!("each number is taken");
    };
    Ok(transactions::set_links(alloc, kernel, number, 65_535)?)
}

// How many links file 1 has, once the disk is recovered.
fn first_links(alloc: Global, disk: &mut MemDisk) -> anyhow::Result<Option<u16>> {
    let blocks = blocks_of(alloc, disk)?;
    let files = files_after_recovery(alloc, blocks.as_slice())?;
    match files.get(1) {
        Some(Some(file)) => Ok(Some(file.links)),
        _ => Ok(None),
    }
}
