// Calls of a volume, which is opened over the disk once its image was recovered.
use crate::bench::{Faulty, block_of, disk_of, done};
use bcache::Cache;
use blocks::Disk;
use layout::{Super, superblock};
use model::types::Progress;
use std::alloc::Global;
use wal::{Commit, Committed, Log, Volume, recover};

/// A volume over a disk of which a call may fail.
pub type Opened = Volume<Faulty>;

/// Does a call of this file, if the line is one for which all holds that it asks.
pub fn call(
    alloc: Global,
    disk: &mut Faulty,
    volume: &mut Option<Opened>,
    words: &[&str],
) -> anyhow::Result<Option<String>> {
    match *words {
        ["open"] => open(alloc, disk, volume),
        ["close"] => done(alloc, take_back(disk, volume)),
        _ => match volume {
            Some(volume) => call_open(alloc, volume, words),
            None => Ok(None),
        },
    }
}

fn call_open(alloc: Global, volume: &mut Opened, words: &[&str]) -> anyhow::Result<Option<String>> {
    match *words {
        ["stand"] => stand(alloc, volume),
        ["slot", slot] => holding(alloc, volume, slot),
        ["show", slot, at, count] => show(alloc, volume, slot, at, count),
        ["may"] => may(alloc, volume),
        ["begin", pid] => begin(alloc, volume, pid),
        ["end", pid] => end(alloc, volume, pid),
        ["get", pid, block] => get(alloc, volume, pid, block),
        ["release", pid, slot] => release(alloc, volume, pid, slot),
        ["change", pid, block, at, hex] => change(alloc, volume, pid, block, at, hex),
        ["commit", count] => commit(alloc, volume, count),
        _ => Ok(None),
    }
}

// Recovers the image, and opens a volume over the disk.
fn open(
    alloc: Global,
    desk: &mut Faulty,
    volume: &mut Option<Opened>,
) -> anyhow::Result<Option<String>> {
    let Some(block) = block_of(alloc, desk, 1)? else {
        return Ok(None);
    };
    let sup = superblock::read(block.as_slice());
    recover_and_open(alloc, desk, volume, &sup)
}

fn recover_and_open(
    alloc: Global,
    desk: &mut Faulty,
    volume: &mut Option<Opened>,
    sup: &Super,
) -> anyhow::Result<Option<String>> {
    let size = desk.size();
    if !superblock::is_lawful(sup, size) {
        return Ok(None);
    }
    let count = recover(alloc, desk, sup)?;
    let size = desk.size();
    if sup.size != size || !superblock::is_lawful(sup, size) {
        return Ok(None);
    }
    let empty = disk_of(alloc, 0)?;
    let cache = Cache::new(alloc)?;
    let log = Log::new(alloc, sup)?;
    let disk = std::mem::replace(desk, empty);
    *volume = Some(Volume::open(disk, cache, log));
    Ok(Some(format!(in alloc; "{count} recovered")?))
}

// Takes the disk back from the volume, if there is one.
fn take_back(disk: &mut Faulty, volume: &mut Option<Opened>) -> bool {
    match volume.take() {
        Some(volume) => {
            *disk = volume.into_disk();
            true
        }
        None => false,
    }
}

// Where the log stands, and the writes of the disk.
fn stand(alloc: Global, volume: &Opened) -> anyhow::Result<Option<String>> {
    let log = volume.log();
    let (open, committed, commit) = (log.outstanding(), log.committed(), log.commit());
    let (homes, writes) = (log.homes(), volume.disk().writes());
    let fault = volume.fault();
    Ok(Some(format!(in alloc;
        "{open} open, {committed} committed, {commit:?}, homes {homes:?}, {writes} writes, fault {fault:?}"
    )?))
}

// Who holds a slot, and its pins.
fn holding(alloc: Global, volume: &Opened, slot: &str) -> anyhow::Result<Option<String>> {
    let slot: u32 = slot.parse()?;
    if slot >= 40 {
        return Ok(None);
    }
    let cache = volume.cache();
    let (block, holder, pins) = (cache.block(slot), cache.holder(slot), cache.pins(slot));
    Ok(Some(format!(in alloc; "block {block:?}, holder {holder:?}, {pins} pins")?))
}

// Bytes of a slot.
fn show(
    alloc: Global,
    volume: &Opened,
    slot: &str,
    at: &str,
    count: &str,
) -> anyhow::Result<Option<String>> {
    let slot: u32 = slot.parse()?;
    let at: usize = at.parse()?;
    let count: usize = count.parse()?;
    if slot >= 40 {
        return Ok(None);
    }
    match volume
        .data(slot)
        .as_slice()
        .get(at..at.saturating_add(count))
    {
        Some(bytes) => Ok(Some(hex::encode(alloc, bytes)?)),
        None => Ok(None),
    }
}

// Why an operation would have to wait.
fn may(alloc: Global, volume: &Opened) -> anyhow::Result<Option<String>> {
    if volume.fault().is_some() {
        return Ok(None);
    }
    let cause = volume.may_begin();
    Ok(Some(format!(in alloc; "{cause:?}")?))
}

fn begin(alloc: Global, volume: &mut Opened, pid: &str) -> anyhow::Result<Option<String>> {
    let pid: u32 = pid.parse()?;
    if pid >= 32 || volume.fault().is_some() || volume.log().used(pid).is_some() {
        return Ok(None);
    }
    if volume.log().opened() == u64::MAX {
        return Ok(None);
    }
    let answer = volume.begin(pid);
    Ok(Some(format!(in alloc; "{answer:?}")?))
}

fn end(alloc: Global, volume: &mut Opened, pid: &str) -> anyhow::Result<Option<String>> {
    let pid: u32 = pid.parse()?;
    if pid >= 32 || volume.fault().is_some() || volume.log().used(pid).is_none() {
        return Ok(None);
    }
    let answer = volume.end(pid);
    Ok(Some(format!(in alloc; "{answer:?}")?))
}

// Asks for a block's slot, if the volume may be asked for it.
fn get(
    alloc: Global,
    volume: &mut Opened,
    pid: &str,
    block: &str,
) -> anyhow::Result<Option<String>> {
    let pid: u32 = pid.parse()?;
    let block: u32 = block.parse()?;
    if block < 33 || block >= volume.log().size() || volume.fault().is_some() {
        return Ok(None);
    }
    let mut slot = None;
    let progress = volume.get(pid, block, &mut slot);
    Ok(Some(got_text(alloc, progress, slot)?))
}

// What the volume answers that was asked for a slot.
fn got_text(alloc: Global, progress: Progress<()>, slot: Option<u32>) -> anyhow::Result<String> {
    let text = match (progress, slot) {
        (Progress::Sleeping(why), _) => format!(in alloc; "Sleeping({why:?})")?,
        (Progress::Fault(fault), _) => format!(in alloc; "Fault({fault:?})")?,
        (_, Some(slot)) => format!(in alloc; "Got({slot})")?,
        (_, None) => format!(in alloc; "None")?,
    };
    Ok(text)
}

fn release(
    alloc: Global,
    volume: &mut Opened,
    pid: &str,
    slot: &str,
) -> anyhow::Result<Option<String>> {
    let pid: u32 = pid.parse()?;
    let slot: u32 = slot.parse()?;
    if slot >= 40 || volume.fault().is_some() || volume.cache().holder(slot) != Some(pid) {
        return Ok(None);
    }
    volume.release(pid, slot);
    done(alloc, true)
}

// A process gets a block, writes bytes into it from the index `at` on, and gives its slot back.
fn change(
    alloc: Global,
    volume: &mut Opened,
    pid: &str,
    block: &str,
    at: &str,
    hex: &str,
) -> anyhow::Result<Option<String>> {
    let pid: u32 = pid.parse()?;
    let block: u32 = block.parse()?;
    let at: usize = at.parse()?;
    let bytes = hex::decode(alloc, hex)?;
    if pid >= 32 || !volume.log().has_room(pid) || at > 1024 || bytes.len() > 1024 - at {
        return Ok(None);
    }
    if block < 33 || block >= volume.log().size() || volume.fault().is_some() {
        return Ok(None);
    }
    let mut slot = None;
    let progress = volume.get(pid, block, &mut slot);
    let text = got_text(alloc, progress, slot)?;
    if let Some(slot) = slot {
        volume.change(pid, slot, at, bytes.as_slice());
        volume.release(pid, slot);
    }
    Ok(Some(text))
}

// Makes so many steps of a commit, but none behind a fault or where no commit is under way.
fn commit(alloc: Global, volume: &mut Opened, count: &str) -> anyhow::Result<Option<String>> {
    let count: u32 = count.parse()?;
    let mut text = String::from_str(alloc, "steps")?;
    for _ in 0..count {
        if volume.fault().is_some() || matches!(volume.log().commit(), Commit::Quiet) {
            break;
        }
        let answer = volume.commit_step();
        text = match answer {
            Committed::More => format!(in alloc; "{text} .")?,
            _ => format!(in alloc; "{text} {answer:?}")?,
        };
    }
    Ok(Some(text))
}
