// A file with two names, which goes with the last of them. And an image in which a name was written
// without the file's count of links: no tree is opened over it until its counts are put right.
ghost use Rattle.std.specs.Prelude.{◌≡◌, ◌+◌, ◌≤◌, ◌^◌};
ghost use Rattle.calls.specs.Calls.{Rests, call_count};
ghost use Rattle.names.specs.Ready.{MayGoOn};

use crate::counting::print_counts;
use crate::trees::{Bytes, Name as Ask, ask_bytes, ask_name, new_tree};
use anyhow::bail;
use blocks::{Disk, MemDisk};
use calls::{Sole, call, open_sole};
use directories::{DIRECTORY, Name, link};
use model::types::{Op, Reply, TRANSFER_LIMIT};
use names::{Tree, TreeOpenFault, recount};
use std::alloc::Global;

/// Gives a file a second name, and prints what comes of calls at both. Then it opens an image with a
/// wrong count, puts that right, and prints what came of it.
pub fn print_linked(rt: &impl Print, alloc: Global) -> anyhow::Result<()> {
    print_names(rt, alloc)?;
    print_wrong(rt, alloc)
}

fn print_names(rt: &impl Print, alloc: Global) -> anyhow::Result<()> {
    match new_tree(alloc) {
        Ok(mut tree) => ask_both(rt, alloc, &mut tree),
        Err(fault) => Err(fault),
    }
}

fn ask_both<D: Disk>(rt: &impl Print, alloc: Global, tree: &mut Tree<D>) -> anyhow::Result<()>
    requires { MayGoOn D.Disk tree.old.kernel tree.old.calls_left }
{
    ask_name(rt, alloc, tree, Ask::Make, "note")?;
    ask_name(rt, alloc, tree, Ask::Link("again"), "note")?;
    ask_name(rt, alloc, tree, Ask::Find, "again")?;
    ask_name(rt, alloc, tree, Ask::Remove, "note")?;
    ask_name(rt, alloc, tree, Ask::MakeDirectory, "docs")?;
    ask_name(rt, alloc, tree, Ask::Rename("docs/again"), "again")?;
    ask_bytes(rt, alloc, tree, Bytes::Put("milk"), "docs/again")?;
    ask_name(rt, alloc, tree, Ask::Link("more"), "docs")?;
    ask_name(rt, alloc, tree, Ask::Remove, "docs/again")?;
    ask_name(rt, alloc, tree, Ask::Find, "docs/again")?;
    ask_name(rt, alloc, tree, Ask::Make, "alone")
}

fn print_wrong(rt: &impl Print, alloc: Global) -> anyhow::Result<()> {
    match counted_disk(rt, alloc) {
        Ok(disk) => match Tree::open(alloc, disk) {
            Ok(_tree) => bail!("a tree is opened over a wrong count"),
            Err((fault, disk)) => put_right(rt, alloc, fault, disk),
        },
        Err(fault) => Err(fault),
    }
}

// Puts right the counts of a disk over which no tree was opened.
fn put_right(
    rt: &impl Print,
    alloc: Global,
    fault: TreeOpenFault,
    disk: MemDisk,
) -> anyhow::Result<()> {
    let (done, mut disk) = recount(alloc, disk);
    match done {
        Ok(count) => {
            println!(rt; "no tree is opened: {fault}; {count} count was put right")?;
            print_counts(rt, alloc, &mut disk)
        }
        Err(fault) => Err(fault.into()),
    }
}

fn counted_disk(rt: &impl Print, alloc: Global) -> anyhow::Result<MemDisk> {
    match linked_disk(alloc) {
        Ok(mut disk) => match print_counts(rt, alloc, &mut disk) {
            Ok(()) => Ok(disk),
            Err(fault) => Err(fault),
        },
        Err(fault) => Err(fault),
    }
}

// A disk whose file 2 has the names `note` and `again` in the root, and 1 as its count.
fn linked_disk(alloc: Global) -> anyhow::Result<MemDisk> {
    match open_sole(alloc, with_note(alloc)?) {
        Ok(mut kernel) => match link_again(alloc, &mut kernel) {
            Ok(()) => Ok(kernel.into_disk()),
            Err(fault) => Err(fault),
        },
        Err((fault, _disk)) => Err(fault.into()),
    }
}

fn with_note(alloc: Global) -> anyhow::Result<MemDisk> {
    match new_tree(alloc) {
        Ok(mut tree) => match tree.make(alloc, b"note") {
            Ok(_number) => Ok(tree.into_disk()),
            Err(fault) => Err(fault.into()),
        },
        Err(fault) => Err(fault),
    }
}

fn link_again<D: Disk>(alloc: Global, kernel: &mut Sole<D>) -> anyhow::Result<()>
    requires rests { Rests D.fault_count kernel.old }
    requires few { call_count kernel.old + 2 ≤ 2 ^ 63 }
{
    let root = Op::Read(DIRECTORY, 0, TRANSFER_LIMIT);
    let Reply::Bytes(bytes) = call(kernel, root)? else {
        bail!("there is no root");
    };
    let write = again_in(alloc, bytes.as_slice())?;
    match call(kernel, write)? {
        Reply::Wrote(16) => Ok(()),
        reply => bail!("the name was not written: {reply:?}"),
    }
}

// The operation that links file 2 once more, in a root of these bytes.
fn again_in(alloc: Global, bytes: &[u8]) -> anyhow::Result<Op> {
    if bytes.len() > TRANSFER_LIMIT as usize {
        bail!("the root is too long");
    }
    let write = link(bytes, &Name::new(b"again")?, 2)?;
    Ok(write.operation(alloc, DIRECTORY)?)
}
