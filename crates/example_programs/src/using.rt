// What docs/USING.md shows, and what comes of it.
use crate::calling::write_and_read;
use crate::making::open_new;
use crate::naming::make_note;
use crate::stopping::stop_two;
use crate::trees::new_tree;
use anyhow::bail;
use blocks::MemDisk;
use model::content::Content;
use offline::check;
use std::alloc::Global;

/// Writes and reads a file, stops two processes before each of five writes, and gives a file a name.
pub fn print_using(rt: &impl Print, alloc: Global) -> anyhow::Result<()> {
    print_read(rt, alloc)?;
    for write in 1..=5 {
        print_stop(rt, alloc, write)?;
    }
    print_note(rt, alloc)
}

// Makes a file that has a name, and prints its number.
fn print_note(rt: &impl Print, alloc: Global) -> anyhow::Result<()> {
    let number = note_in_new(alloc)?;
    println!(rt; "/docs/note is file {number}")?;
    Ok(())
}

fn note_in_new(alloc: Global) -> anyhow::Result<u32> {
    match new_tree(alloc) {
        Ok(mut tree) => make_note(alloc, &mut tree, b"to be, or not to be"),
        Err(fault) => Err(fault),
    }
}

// Writes a file and prints what is read of it.
fn print_read(rt: &impl Print, alloc: Global) -> anyhow::Result<()> {
    let text = Content::copy_of(alloc, b"to be, or not to be")?;
    let read = read_back(alloc, text)?;
    let Ok(text) = str::from_utf8(read.as_slice()) else {
        bail!("other bytes were read");
    };
    println!(rt; "read: {text}")?;
    Ok(())
}

fn read_back(alloc: Global, text: Content) -> anyhow::Result<Content> {
    match open_new(alloc, MemDisk::new(alloc, 200)?) {
        Ok(mut kernel) => write_and_read(&mut kernel, text),
        Err(fault) => Err(fault),
    }
}

// Stops two processes before a write, and prints how many files recovery leaves.
fn print_stop(rt: &impl Print, alloc: Global, write: u64) -> anyhow::Result<()> {
    let files = files_left(alloc, write)?;
    println!(rt; "without write {write}: {files} files")?;
    Ok(())
}

fn files_left(alloc: Global, write: u64) -> anyhow::Result<u32> {
    match stop_two(alloc, new_image(alloc)?, write) {
        Ok(mut left) => files_on(alloc, &mut left),
        Err(fault) => Err(fault.into()),
    }
}

fn files_on(alloc: Global, disk: &mut MemDisk) -> anyhow::Result<u32> {
    Ok(check(alloc, disk)?.files)
}

// A disk with a new image.
fn new_image(alloc: Global) -> anyhow::Result<MemDisk> {
    match open_new(alloc, MemDisk::new(alloc, 200)?) {
        Ok(kernel) => Ok(kernel.into_disk()),
        Err(fault) => Err(fault),
    }
}
