// Calls of disks, of images on them, and of their recovery.
ghost use Rattle.std.specs.Prelude.{◌<◌};

use crate::bench::{Bench, Faulty, block_of, blocks_of, disk_of, disk_with, done, put_block};
use crate::fault::LineFault;
use blocks::{Block, Disk, FaultyDisk, Kind};
use layout::{plan, superblock};
use model::types::{File, Form};
use offline::{check, mkfs, mkfs_as};
use reference::check::verdict;
use reference::report::files_after_recovery;
use std::alloc::{AllocError, Global};
use wal::recover;

// What a call answers; None where the line is no call for which all holds that it asks.
type Answered = Result<Option<String>, LineFault>;

fn answered(text: Result<String, AllocError>) -> Answered {
    Ok(Some(text?))
}

/// Does a call of a disk or an image, if the line is one for which all holds that it asks.
pub fn call(alloc: Global, bench: &mut Bench, words: &[&str]) -> Answered {
    match *words {
        ["disk", size] => make_disk(alloc, bench, size),
        ["put", b, at, digits] => put(alloc, &mut bench.disk, b, at, digits),
        ["bytes", b, at, count] => bytes(alloc, &mut bench.disk, b, at, count),
        ["fail", kind, n] => fail(alloc, bench, kind, n),
        ["counts"] => counts(alloc, &bench.disk),
        ["keep"] => keep(alloc, bench),
        ["back", k] => back(alloc, bench, k),
        ["same", k] => same(alloc, bench, k),
        _ => call_image(alloc, &mut bench.disk, words),
    }
}

fn call_image(alloc: Global, disk: &mut Faulty, words: &[&str]) -> Answered {
    match *words {
        ["mkfs", size, inodes] => make_image(alloc, disk, Form::One, size, inodes),
        ["mkfs", size, inodes, "large"] => make_image(alloc, disk, Form::Two, size, inodes),
        ["plan", size, inodes] => told_plan(alloc, size, inodes),
        ["check"] => told_check(alloc, disk),
        ["verdict"] => told_verdict(alloc, disk),
        ["hurt", b, count] => hurt(alloc, disk, b, count),
        ["files"] => files(alloc, disk),
        ["recover"] => told_recovery(alloc, disk),
        _ => Ok(None),
    }
}

fn make_disk(alloc: Global, bench: &mut Bench, size: &str) -> Answered {
    bench.disk = disk_of(alloc, size.parse()?)?;
    done(alloc, true)
}

// Puts bytes into a block, from the index `at` on.
fn put(alloc: Global, disk: &mut Faulty, b: &str, at: &str, digits: &str) -> Answered {
    let (b, at): (u32, usize) = (b.parse()?, at.parse()?);
    let bytes = hex::decode(alloc, digits)?;
    let is_done = put_bytes(alloc, disk, b, at, &bytes)?;
    done(alloc, is_done)
}

// Whether there is such a block, with room for them.
fn put_bytes(
    alloc: Global,
    disk: &mut Faulty,
    b: u32,
    at: usize,
    bytes: &[u8],
) -> Result<bool, LineFault> {
    let Some(mut block) = block_of(alloc, disk, b)? else {
        return Ok(false);
    };
    if at > 1024 || bytes.len() > 1024 - at {
        return Ok(false);
    }
    block.put(at, bytes);
    Ok(put_block(disk, b, &block)?)
}

fn bytes(alloc: Global, disk: &mut Faulty, b: &str, at: &str, count: &str) -> Answered {
    let (at, count): (usize, usize) = (at.parse()?, count.parse()?);
    let Some(block) = block_of(alloc, disk, b.parse()?)? else {
        return Ok(None);
    };
    match block.as_slice().get(at..at.saturating_add(count)) {
        Some(bytes) => answered(hex::encode(alloc, bytes)),
        None => Ok(None),
    }
}

// The nth call of a kind fails from now on.
fn fail(alloc: Global, bench: &mut Bench, kind: &str, n: &str) -> Answered {
    let kind = match kind {
        "read" => Kind::Read,
        "write-old" => Kind::WriteOld,
        "write-new" => Kind::WriteNew,
        _ => return Ok(None),
    };
    let n: u64 = n.parse()?;
    let empty = disk_of(alloc, 0)?;
    let disk = std::mem::replace(&mut bench.disk, empty);
    bench.disk = FaultyDisk::new(disk.into_inner(), n, kind);
    done(alloc, true)
}

fn counts(alloc: Global, disk: &Faulty) -> Answered {
    let (writes, faults, fired) = (disk.writes(), disk.faults(), disk.fired());
    answered(format!(in alloc; "{writes} writes, {faults} faults, fired {fired}"))
}

fn make_image(alloc: Global, disk: &mut Faulty, form: Form, size: &str, inodes: &str) -> Answered {
    let (size, inodes): (u32, u32) = (size.parse()?, inodes.parse()?);
    let answer = match form {
        Form::One => mkfs(alloc, disk, size, inodes),
        Form::Two => mkfs_as(alloc, disk, size, inodes, Form::Two),
    };
    answered(format!(in alloc; "{answer:?}"))
}

fn told_plan(alloc: Global, size: &str, inodes: &str) -> Answered {
    let answer = plan(size.parse()?, inodes.parse()?);
    answered(format!(in alloc; "{answer:?}"))
}

fn told_check(alloc: Global, disk: &mut Faulty) -> Answered {
    match check(alloc, disk) {
        Ok(report) => {
            let (logged, files) = (report.logged, report.files);
            answered(format!(in alloc; "sound, {logged} logged, {files} files"))
        }
        Err(fault) => answered(format!(in alloc; "{fault:?}")),
    }
}

fn told_verdict(alloc: Global, disk: &mut Faulty) -> Answered {
    let image = blocks_of(alloc, disk)?;
    let answer = verdict(alloc, image.as_slice())?;
    answered(format!(in alloc; "{answer:?}"))
}

// Sets the first bytes of a block to four values, one byte and one value at a time. For how many of
// these images the check and the plain program answer alike.
fn hurt(alloc: Global, disk: &mut Faulty, b: &str, count: &str) -> Answered {
    let (b, count): (u32, usize) = (b.parse()?, count.parse()?);
    let Some(whole) = block_of(alloc, disk, b)? else {
        return Ok(None);
    };
    let mut alike: u32 = 0;
    for k in 0..4 * count.min(1024) {
        let value = [0x00, 0x01, 0x7f, 0xff][k % 4];
        put_hurt(alloc, disk, b, &whole, k / 4, value)?;
        if is_alike(alloc, disk)? {
            alike = alike.saturating_add(1);
        }
    }
    put_block(disk, b, &whole)?;
    answered(format!(in alloc; "{alike} alike"))
}

// Writes a block with this value as its byte at an index.
fn put_hurt(
    alloc: Global,
    disk: &mut Faulty,
    b: u32,
    whole: &Block,
    at: usize,
    value: u8,
) -> Result<(), LineFault>
    requires { at < 1024 }
{
    let mut block = whole.copied(alloc)?;
    block.put(at, &[value]);
    put_block(disk, b, &block)?;
    Ok(())
}

// Whether the check and the plain program answer alike.
fn is_alike(alloc: Global, disk: &mut Faulty) -> Result<bool, LineFault> {
    let image = blocks_of(alloc, disk)?;
    let answer = verdict(alloc, image.as_slice())?;
    Ok(check(alloc, disk).err() == answer)
}

// The files of an image once it is recovered: number, type and length.
fn files(alloc: Global, disk: &mut Faulty) -> Answered {
    let image = blocks_of(alloc, disk)?;
    match files_after_recovery(alloc, image.as_slice()) {
        Ok(files) => answered(told_files(alloc, files.as_slice())),
        Err(fault) => answered(format!(in alloc; "{fault:?}")),
    }
}

fn told_files(alloc: Global, files: &[Option<File>]) -> Result<String, AllocError> {
    let mut text = format!(in alloc; "{} numbers", files.len())?;
    for (i, place) in files.iter().enumerate() {
        if let Some(file) = place {
            let (kind, length) = (file.kind, file.bytes.len());
            text = format!(in alloc; "{text}, {i} of type {kind} has {length}")?;
        }
    }
    Ok(text)
}

fn told_recovery(alloc: Global, disk: &mut Faulty) -> Answered {
    let Some(block) = block_of(alloc, disk, 1)? else {
        return Ok(None);
    };
    let sup = superblock::read(block.as_slice());
    let size = disk.size();
    if !superblock::is_lawful(&sup, size) {
        return Ok(None);
    }
    let answer = recover(alloc, disk, &sup);
    answered(format!(in alloc; "{answer:?}"))
}

// Keeps the image, and answers its number.
fn keep(alloc: Global, bench: &mut Bench) -> Answered {
    let image = blocks_of(alloc, &mut bench.disk)?;
    let number = bench.kept.len();
    bench.kept.push(image)?;
    answered(format!(in alloc; "image {number}"))
}

// Takes a new disk with an image that was kept.
fn back(alloc: Global, bench: &mut Bench, k: &str) -> Answered {
    let k: usize = k.parse()?;
    match bench.kept.get(k) {
        Some(image) => {
            bench.disk = disk_with(alloc, image.as_slice())?;
            done(alloc, true)
        }
        None => Ok(None),
    }
}

// Whether the disk has an image that was kept.
fn same(alloc: Global, bench: &mut Bench, k: &str) -> Answered {
    let k: usize = k.parse()?;
    let image = blocks_of(alloc, &mut bench.disk)?;
    match bench.kept.get(k) {
        Some(kept) => {
            let is_same = is_same_image(image.as_slice(), kept.as_slice());
            answered(format!(in alloc; "{is_same}"))
        }
        None => Ok(None),
    }
}

fn is_same_image(a: &[Block], b: &[Block]) -> bool {
    a.len() == b.len() && a.iter().zip(b).all(|(a, b)| a.as_slice() == b.as_slice())
}
