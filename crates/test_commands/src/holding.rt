// A disk that holds writes back, of which a sync fails.
use crate::ground::new_image;
use crate::refusals::{is_sync_of_recovery, is_sync_of_replay};
use crate::replaying::{print_text, replayed};
use crate::wrong::{Wrong, ensure};
use blocks::{FaultyDisk, Kind, MemDisk, SyncDisk};
use offline::check;
use std::alloc::Global;

// What a stop leaves where a sync failed.
#[derive(Clone, Copy)]
struct Left {
    /// How many writes are held.
    held: usize,
    /// How many files there are where these are lost, and where they get through.
    lost: u32,
    through: u32,
}

// Where a sync is to fail.
#[derive(Clone, Copy)]
enum Place {
    Recovery,
    Turns,
}

/// A replay recovers the image, and so does the opening behind it; each makes one sync.
pub fn print_recoveries(rt: &impl Print, alloc: Global) -> anyhow::Result<()> {
    for nth in 1..3 {
        let mut out = Vec::new(alloc);
        let left = create(alloc, nth, Place::Recovery, &mut out)?;
        print!(rt; "sync {nth} fails, of a recovery, {} held, ", left.held)?;
        print_text(rt, "printed", out.as_slice())?;
    }
    Ok(())
}

/// The group is committed with the second sync behind these; before it a stop keeps it where the
/// header got through.
pub fn print_syncs(rt: &impl Print, alloc: Global) -> anyhow::Result<()> {
    for nth in 3..7 {
        let mut out = Vec::new(alloc);
        let left = create(alloc, nth, Place::Turns, &mut out)?;
        let (held, lost, through) = (left.held, left.lost, left.through);
        print!(rt; "sync {nth} fails, {held} held, {lost} or {through} files are left, ")?;
        print_text(rt, "printed", out.as_slice())?;
    }
    Ok(())
}

// Replays a creation of which the nth sync fails.
fn create(alloc: Global, nth: u64, place: Place, out: &mut Vec<u8>) -> Result<Left, Wrong> {
    match holding_disk(alloc, nth) {
        Ok(disk) => match replayed(alloc, disk, "0 create 2\n", "0!", out) {
            Ok((ended, disk)) => {
                let is_told = match place {
                    Place::Recovery => is_sync_of_recovery(&ended),
                    Place::Turns => is_sync_of_replay(&ended),
                };
                left_on(alloc, &disk.into_inner(), is_told)
            }
            Err(wrong) => Err(wrong),
        },
        Err(wrong) => Err(wrong),
    }
}

// A new image over a disk that holds writes back, of which the nth sync fails.
fn holding_disk(alloc: Global, nth: u64) -> Result<FaultyDisk<SyncDisk>, Wrong> {
    match new_image(alloc) {
        Ok(image) => match SyncDisk::new(alloc, image) {
            Ok(disk) => Ok(FaultyDisk::new(disk, nth, Kind::Sync)),
            Err(_refused) => Err(Wrong::NoMemory),
        },
        Err(wrong) => Err(wrong),
    }
}

fn left_on(alloc: Global, disk: &SyncDisk, is_told: bool) -> Result<Left, Wrong> {
    ensure(is_told, "the failing sync was not told")?;
    Ok(Left {
        held: disk.held(),
        lost: files_left(alloc, disk, false)?,
        through: files_left(alloc, disk, true)?,
    })
}

// How many files a stop leaves, where the writes that are held get through or are lost.
fn files_left(alloc: Global, disk: &SyncDisk, gets_through: bool) -> Result<u32, Wrong> {
    let keep = [gets_through; 64];
    match disk.left(&keep[..disk.held()]) {
        Ok(mut left) => files_on(alloc, &mut left),
        Err(_refused) => Err(Wrong::NoMemory),
    }
}

fn files_on(alloc: Global, disk: &mut MemDisk) -> Result<u32, Wrong> {
    Ok(check(alloc, disk)?.files)
}
