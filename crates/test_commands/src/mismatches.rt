// What is told of images that have other files than they have to.
use crate::replaying::print_text;
use crate::wrong::Wrong;
use blocks::{Block, Disk, NoMemory, SyncDisk};
use crash_check::{Due, StopsFault, new_image, print_mismatch, try_choices};
use layout::{Dinode, inode};
use messages::{Unwritten, write_bytes};
use model::content::Content;
use model::types::File;
use reference::files::Files;
use std::alloc::Global;

// A write that is held on a disk with a new image of 48 blocks and 16 inode numbers.
#[derive(Clone, Copy)]
enum Held {
    /// Of the inodes: these numbers have empty files of type 2.
    Files(&'static [u32]),
    /// Of the superblock, as zeroes.
    NoSuperblock,
}

const NOTHING: Held = Held::Files(&[]);

// The last of eight makes a file.
const EIGHT: [Held; 8] = [
    NOTHING,
    NOTHING,
    NOTHING,
    NOTHING,
    NOTHING,
    NOTHING,
    NOTHING,
    Held::Files(&[4]),
];

/// Each row is what is told of a disk on which some writes are held, by the choices of them.
pub fn print_mismatches(rt: &impl Print, alloc: Global) -> anyhow::Result<()> {
    println!(rt; "\nmismatches are told")?;
    print_told(rt, alloc, "as it has to be", &[NOTHING], Some(&[]))?;
    print_told(rt, alloc, "a file is missing", &[], Some(&[2]))?;
    print_told(rt, alloc, "no files are due", &[], None)?;
    print_told(
        rt,
        alloc,
        "two files too many",
        &[Held::Files(&[5, 3])],
        Some(&[]),
    )?;
    print_told(
        rt,
        alloc,
        "by none",
        &[NOTHING, Held::Files(&[7, 9])],
        Some(&[9]),
    )?;
    print_told(
        rt,
        alloc,
        "by the second",
        &[NOTHING, Held::Files(&[7, 9])],
        Some(&[]),
    )?;
    print_told(
        rt,
        alloc,
        "not recovered",
        &[NOTHING, NOTHING, Held::NoSuperblock],
        Some(&[]),
    )?;
    print_told(rt, alloc, "by the last", &EIGHT, Some(&[]))
}

fn print_told(
    rt: &impl Print,
    alloc: Global,
    what: &str,
    held: &[Held],
    numbers: Option<&[u32]>,
) -> anyhow::Result<()> {
    let mut out = Vec::new(alloc);
    tell(alloc, held, numbers, &mut out)?;
    print_text(rt, what, out.as_slice())
}

// Tells what becomes of the choices of these held writes, where the files of these numbers are due.
fn tell(
    alloc: Global,
    held: &[Held],
    numbers: Option<&[u32]>,
    out: &mut Vec<u8>,
) -> Result<(), Wrong> {
    let due = due_of(alloc, numbers)?;
    let tried = tried(alloc, held, &due)?;
    told(tried, out).map_err(|_| Wrong::NoMemory)
}

fn told(tried: Result<u64, StopsFault>, out: &mut Vec<u8>) -> Result<(), Unwritten> {
    match tried {
        Ok(_images) => write_bytes(out, b"passes"),
        Err(StopsFault::Mismatch(mismatch)) => print_mismatch(out, &mismatch),
        Err(StopsFault::NoMemory) => write_bytes(out, b"no memory"),
    }
}

fn tried(alloc: Global, held: &[Held], due: &Due) -> Result<Result<u64, StopsFault>, Wrong> {
    match holding_disk(alloc, held) {
        Ok(disk) => Ok(try_choices(alloc, &disk, due)),
        Err(wrong) => Err(wrong),
    }
}

fn holding_disk(alloc: Global, held: &[Held]) -> Result<SyncDisk, Wrong> {
    match SyncDisk::new(alloc, new_image(alloc)?) {
        Ok(mut disk) => match hold_all(alloc, &mut disk, held) {
            Ok(()) => Ok(disk),
            Err(wrong) => Err(wrong),
        },
        Err(_refused) => Err(Wrong::NoMemory),
    }
}

fn hold_all(alloc: Global, disk: &mut SyncDisk, held: &[Held]) -> Result<(), Wrong> {
    for write in held {
        match write {
            Held::Files(numbers) => hold(disk, 33, &inodes(alloc, numbers)?)?,
            Held::NoSuperblock => hold(disk, 1, &Block::zeroed(alloc)?)?,
        }
    }
    Ok(())
}

fn hold(disk: &mut SyncDisk, b: u32, block: &Block) -> Result<(), Wrong> {
    if b < disk.size() {
        disk.write(b, block)?;
    }
    Ok(())
}

// The block of all inodes, where these numbers have empty files.
fn inodes(alloc: Global, numbers: &[u32]) -> Result<Block, NoMemory> {
    let mut block = Block::zeroed(alloc)?;
    for number in numbers {
        if *number < 16 {
            inode::write_at(&mut block, *number, &EMPTY);
        }
    }
    Ok(block)
}

const EMPTY: Dinode = Dinode {
    kind: 2,
    major: 0,
    minor: 0,
    nlink: 1,
    size: 0,
    addrs: [0; 13],
};

// The files of these numbers, as those that are due.
fn due_of(alloc: Global, numbers: Option<&[u32]>) -> Result<Due, NoMemory> {
    let committed = match numbers {
        Some(numbers) => Some(files_of(alloc, numbers)?),
        None => None,
    };
    Ok(Due {
        committed,
        opened: None,
    })
}

fn files_of(alloc: Global, numbers: &[u32]) -> Result<Files, NoMemory> {
    let mut files = Vec::new(alloc);
    for number in 0..16 {
        files.push(file_of(alloc, numbers.contains(&number))?)?;
    }
    Ok(files)
}

fn file_of(alloc: Global, is_there: bool) -> Result<Option<File>, NoMemory> {
    if !is_there {
        return Ok(None);
    }
    Ok(Some(File {
        kind: 2,
        links: 1,
        bytes: Content::copy_of(alloc, &[])?,
    }))
}
