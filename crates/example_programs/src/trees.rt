// A tree of directories: directories and files are made, written, found and removed by their paths, and
// the making of a file is stopped before each of its writes.
ghost use Rattle.std.specs.Prelude.{IfOk};
ghost use Rattle.model.specs.Files.{files_of};
ghost use Rattle.model.specs.Log.{recovered};
ghost use Rattle.names.specs.Ready.{HasNoFile, IsReady, MayGoOn};

use crate::stops::{new_disk, where_it_leads};
use anyhow::bail;
use blocks::{Disk, MemDisk};
use calls::transactions::open_pair;
use directories::ENTRY_SIZE;
use names::Tree;
use std::alloc::Global;

// More writes than the making of a file makes.
const MOST_WRITES: u64 = 20;

/// What is asked of a path as a name.
#[derive(Drop)]
pub enum Name<'a> {
    Make,
    MakeDirectory,
    Find,
    Link(&'a str),
    Rename(&'a str),
    Remove,
    RemoveDirectory,
}

/// What is asked of the bytes that a path leads to.
#[derive(Drop)]
pub enum Bytes<'a> {
    Write(&'a str),
    Put(&'a str),
    Read,
    Look,
    List,
}

/// Makes a root, directories and files in it by their paths, writes and reads one, finds and removes
/// some, moves a directory, and prints what came of each. Then it stops the making of a file before each
/// of its writes in turn, opens what the stop left, and prints where the path leads. So the one write
/// that counts is seen.
pub fn print_trees(rt: &impl Print, alloc: Global) -> anyhow::Result<()> {
    match new_tree(alloc) {
        Ok(mut tree) => {
            ask_all(rt, alloc, &mut tree)?;
            print_stops(rt, alloc, "docs/late")
        }
        Err(fault) => Err(fault),
    }
}

/// A tree of the root alone, on a new disk.
pub fn new_tree(alloc: Global) -> anyhow::Result<Tree<MemDisk>>
    ensures { IfOk result (λ tree. IsReady ⟦<MemDisk as Disk>⟧ tree.kernel tree.calls_left) }
{
    match new_disk(alloc) {
        Ok(disk) => rooted(alloc, disk),
        Err(fault) => Err(fault.into()),
    }
}

/// The root is made on a disk that has no file.
pub fn rooted<D: Disk + Drop>(alloc: Global, disk: D) -> anyhow::Result<Tree<D>>
    requires { HasNoFile (files_of (recovered (D.image disk))) }
    ensures { IfOk result (λ tree. IsReady D.Disk tree.kernel tree.calls_left) }
{
    match open_pair(alloc, disk) {
        Ok(kernel) => {
            let mut tree = Tree::over(alloc, kernel);
            match tree.make_root(alloc) {
                Ok(()) => Ok(tree),
                Err(fault) => Err(fault.into()),
            }
        }
        Err((fault, _disk)) => Err(fault.into()),
    }
}

fn ask_all<D: Disk>(rt: &impl Print, alloc: Global, tree: &mut Tree<D>) -> anyhow::Result<()>
    requires { MayGoOn D.Disk tree.old.kernel tree.old.calls_left }
{
    make_all(rt, alloc, tree)?;
    ask_bytes(
        rt,
        alloc,
        tree,
        Bytes::Write("to be, or not to be"),
        "docs/notes",
    )?;
    ask_bytes(rt, alloc, tree, Bytes::Read, "docs/notes")?;
    ask_name(rt, alloc, tree, Name::Find, "/./docs/../plan")?;
    ask_name(rt, alloc, tree, Name::Rename("docs/notes"), "plan")?;
    ask_name(rt, alloc, tree, Name::Rename("docs/plan"), "plan")?;
    move_directory(rt, alloc, tree)?;
    remove_all(rt, alloc, tree)?;
    ask_bytes(rt, alloc, tree, Bytes::List, "/")
}

fn make_all<D: Disk>(rt: &impl Print, alloc: Global, tree: &mut Tree<D>) -> anyhow::Result<()>
    requires { MayGoOn D.Disk tree.old.kernel tree.old.calls_left }
    ensures { MayGoOn D.Disk tree.new.kernel tree.new.calls_left }
{
    ask_name(rt, alloc, tree, Name::MakeDirectory, "/docs")?;
    ask_name(rt, alloc, tree, Name::Make, "docs/notes")?;
    ask_name(rt, alloc, tree, Name::Make, "plan")?;
    ask_name(rt, alloc, tree, Name::Make, "//docs/notes/")?;
    ask_name(rt, alloc, tree, Name::Make, "plan/today")?;
    ask_name(rt, alloc, tree, Name::Make, "a-name-of-15-by")
}

// A directory is moved into another one, and bytes are put into a file of it, and others then.
fn move_directory<D: Disk>(rt: &impl Print, alloc: Global, tree: &mut Tree<D>) -> anyhow::Result<()>
    requires { MayGoOn D.Disk tree.old.kernel tree.old.calls_left }
    ensures { MayGoOn D.Disk tree.new.kernel tree.new.calls_left }
{
    ask_name(rt, alloc, tree, Name::MakeDirectory, "old")?;
    ask_name(rt, alloc, tree, Name::Rename("docs/old"), "old")?;
    ask_name(rt, alloc, tree, Name::Rename("docs/old/docs"), "docs")?;
    ask_bytes(
        rt,
        alloc,
        tree,
        Bytes::Put("milk and bread"),
        "docs/old/list",
    )?;
    ask_bytes(rt, alloc, tree, Bytes::Put("milk"), "docs/old/list")?;
    ask_bytes(rt, alloc, tree, Bytes::Look, "docs/old/list")
}

fn remove_all<D: Disk>(rt: &impl Print, alloc: Global, tree: &mut Tree<D>) -> anyhow::Result<()>
    requires { MayGoOn D.Disk tree.old.kernel tree.old.calls_left }
    ensures { MayGoOn D.Disk tree.new.kernel tree.new.calls_left }
{
    ask_name(rt, alloc, tree, Name::RemoveDirectory, "docs")?;
    ask_name(rt, alloc, tree, Name::Remove, "docs/notes")?;
    ask_name(rt, alloc, tree, Name::Remove, "docs/plan")?;
    ask_name(rt, alloc, tree, Name::Remove, "docs/old/list")?;
    ask_name(rt, alloc, tree, Name::RemoveDirectory, "docs/old")?;
    ask_name(rt, alloc, tree, Name::Remove, "..")?;
    ask_name(rt, alloc, tree, Name::Find, "docs/notes")?;
    ask_name(rt, alloc, tree, Name::RemoveDirectory, "docs")
}

/// Asks it, and prints what came of it.
pub fn ask_name<D: Disk>(
    rt: &impl Print,
    alloc: Global,
    tree: &mut Tree<D>,
    what: Name<'_>,
    path: &str,
) -> anyhow::Result<()>
    requires { MayGoOn D.Disk tree.old.kernel tree.old.calls_left }
    ensures { MayGoOn D.Disk tree.new.kernel tree.new.calls_left }
{
    match what {
        Name::Make => match tree.make(alloc, path.as_bytes()) {
            Ok(number) => println!(rt; "{path} was made, file {number}")?,
            Err(fault) => println!(rt; "{path} was not made: {fault}")?,
        },
        Name::MakeDirectory => match tree.make_directory(alloc, path.as_bytes()) {
            Ok(number) => println!(rt; "{path} was made, directory {number}")?,
            Err(fault) => println!(rt; "{path} was not made: {fault}")?,
        },
        Name::Find => match tree.lookup(alloc, path.as_bytes()) {
            Ok(number) => println!(rt; "{path} is file {number}")?,
            Err(fault) => println!(rt; "{path} was not found: {fault}")?,
        },
        Name::Link(new) => match tree.link(alloc, path.as_bytes(), new.as_bytes()) {
            Ok(()) => println!(rt; "{path} is {new}, too")?,
            Err(fault) => println!(rt; "{path} did not become {new}, too: {fault}")?,
        },
        Name::Rename(new) => match tree.rename(alloc, path.as_bytes(), new.as_bytes()) {
            Ok(()) => println!(rt; "{path} is {new} now")?,
            Err(fault) => println!(rt; "{path} did not become {new}: {fault}")?,
        },
        Name::Remove => match tree.remove(alloc, path.as_bytes()) {
            Ok(()) => println!(rt; "{path} was removed")?,
            Err(fault) => println!(rt; "{path} was not removed: {fault}")?,
        },
        Name::RemoveDirectory => match tree.remove_directory(alloc, path.as_bytes()) {
            Ok(()) => println!(rt; "{path} was removed")?,
            Err(fault) => println!(rt; "{path} was not removed: {fault}")?,
        },
    }
    Ok(())
}

/// Asks it, and prints what came of it.
pub fn ask_bytes<D: Disk>(
    rt: &impl Print,
    alloc: Global,
    tree: &mut Tree<D>,
    what: Bytes<'_>,
    path: &str,
) -> anyhow::Result<()>
    requires { MayGoOn D.Disk tree.old.kernel tree.old.calls_left }
    ensures { MayGoOn D.Disk tree.new.kernel tree.new.calls_left }
{
    match what {
        Bytes::Write(text) => match tree.write(alloc, path.as_bytes(), 0, text.as_bytes()) {
            Ok(Ok(())) => println!(rt; "{path} has {} bytes", text.len())?,
            Ok(Err(cause)) => println!(rt; "{path} was not written: {cause}")?,
            Err(fault) => println!(rt; "{path} was not written: {fault}")?,
        },
        Bytes::Put(text) => match tree.put(alloc, path.as_bytes(), text.as_bytes()) {
            Ok(Ok(number)) => println!(rt; "{path} has {} bytes now, file {number}", text.len())?,
            Ok(Err(cause)) => println!(rt; "{path} was not put: {cause}")?,
            Err(fault) => println!(rt; "{path} was not put: {fault}")?,
        },
        Bytes::Read => match tree.read(alloc, path.as_bytes(), 6, 100) {
            Ok(bytes) => println!(rt; "{path} has {} bytes from byte 6 on", bytes.len())?,
            Err(fault) => println!(rt; "{path} was not read: {fault}")?,
        },
        Bytes::Look => match tree.look(alloc, path.as_bytes()) {
            Ok(found) => println!(rt;
                "{path} is of type {} and has {} bytes",
                found.kind, found.size
            )?,
            Err(fault) => println!(rt; "{path} was not found: {fault}")?,
        },
        Bytes::List => match tree.list(alloc, path.as_bytes()) {
            Ok(bytes) => println!(rt; "{path} has {} entries", bytes.len() / ENTRY_SIZE)?,
            Err(fault) => println!(rt; "{path} was not listed: {fault}")?,
        },
    }
    Ok(())
}

// Stops the making of a file before each of its writes, until one is not stopped.
fn print_stops(rt: &impl Print, alloc: Global, path: &str) -> anyhow::Result<()> {
    for write in 1..=MOST_WRITES {
        let left = where_it_leads(alloc, with_docs(alloc)?, path, write)?;
        if left.was_stopped {
            print!(rt; "stopped before write {write}: ")?;
        } else {
            print!(rt; "made to its end: ")?;
        }
        match left.number {
            Some(number) => println!(rt; "{path} leads to file {number}")?,
            None => println!(rt; "{path} leads nowhere")?,
        }
        if !left.was_stopped {
            return Ok(());
        }
    }
    bail!("the making has too many writes")
}

// A disk with a root and a directory in it.
fn with_docs(alloc: Global) -> anyhow::Result<MemDisk> {
    match new_tree(alloc) {
        Ok(mut tree) => match tree.make_directory(alloc, b"docs") {
            Ok(_number) => Ok(tree.into_disk()),
            Err(fault) => Err(fault.into()),
        },
        Err(fault) => Err(fault),
    }
}
