// What the program under test says of an image, against the plain program.
use crate::image::Image;
use crate::image_wrong::{Other, What, ensure};
use crate::kernels::opened;
use blocks::{Block, Disk, MemDisk};
use kernel::OpenFault;
use layout::superblock;
use model::types::CheckFault;
use offline::check;
use reference::check::verdict;
use reference::log::is_lawful_log;
use reference::recovery::recovered;
use std::alloc::Global;
use std::mem;
use wal::{RecoverFault, recover};

/// The first fault of an image, on which the check and the plain program have to agree.
pub fn agreed_fault(alloc: Global, image: &mut Image) -> Result<Option<CheckFault>, What> {
    let found = check(alloc, &mut image.disk).err();
    let wanted = verdict(alloc, &image.blocks)?;
    if found == wanted {
        Ok(found)
    } else {
        Err(What::Disagreement(found, wanted))
    }
}

/// Opens a kernel over an image of this first fault. With a fault the opening is refused for it, and
/// writes nothing; without one the image is then the recovered one, sound and with an empty log.
pub fn judge_opening(
    alloc: Global,
    image: &mut Image,
    wanted: Option<CheckFault>,
) -> Result<(), What> {
    let empty = MemDisk::new(alloc, 0)?;
    let disk = mem::replace(&mut image.disk, empty);
    let (fault, disk) = opened(alloc, disk);
    image.disk = disk;
    match (fault, wanted) {
        (None, None) => judge_opened(alloc, image),
        (None, Some(wanted)) => Err(What::Opened(wanted)),
        (Some(OpenFault::Check(found)), _) if wanted == Some(found) => {
            image.ensure_untouched(alloc)
        }
        (Some(OpenFault::Check(found)), _) => Err(What::Refused(found, wanted)),
        (Some(fault), _) => Err(What::NotOpened(fault)),
    }
}

// Judges the image over which a kernel was opened, and makes it again what it was.
fn judge_opened(alloc: Global, image: &mut Image) -> Result<(), What> {
    let report = check(alloc, &mut image.disk)?;
    ensure(report.logged == 0, Other::OpenedWithLog)?;
    match plainly_recovered(alloc, &image.blocks)? {
        Some(blocks) => mend(alloc, image, &blocks, Other::OpenedOther),
        None => Err(What::Other(Other::OpenedBadLog)),
    }
}

// Makes an image again what it was, where its disk has these blocks.
fn mend(alloc: Global, image: &mut Image, blocks: &[Block], other: Other) -> Result<(), What> {
    ensure(image.has(alloc, blocks)?, other)?;
    image.put_back()
}

/// Recovers an image with a lawful superblock, and says whether its log is lawful: then the image is
/// what the plain program makes of it, and else it stays as it was. None where the superblock is not
/// lawful, since the recovery may not be called.
pub fn judge_recovery(alloc: Global, image: &mut Image) -> Result<Option<bool>, What> {
    let Some(block) = image.blocks.get(1) else {
        return Ok(None);
    };
    let sup = superblock::read(block.as_slice());
    let size = image.disk.size();
    if !superblock::is_lawful(&sup, size) {
        return Ok(None);
    }
    match recover(alloc, &mut image.disk, &sup) {
        Ok(_count) => {
            judge_recovered(alloc, image)?;
            Ok(Some(true))
        }
        Err(RecoverFault::BadLog) => {
            judge_unrecovered(alloc, image)?;
            Ok(Some(false))
        }
        Err(fault) => Err(What::NotRecovered(fault)),
    }
}

fn judge_recovered(alloc: Global, image: &mut Image) -> Result<(), What> {
    match plainly_recovered(alloc, &image.blocks)? {
        Some(blocks) => mend(alloc, image, &blocks, Other::RecoveredOther),
        None => Err(What::Other(Other::RecoveredBadLog)),
    }
}

fn judge_unrecovered(alloc: Global, image: &mut Image) -> Result<(), What> {
    match plainly_recovered(alloc, &image.blocks)? {
        Some(_blocks) => Err(What::Other(Other::RefusedGoodLog)),
        None => image.ensure_untouched(alloc),
    }
}

// The image that the plain program recovers; None where the log is not lawful.
fn plainly_recovered(alloc: Global, blocks: &[Block]) -> Result<Option<Vec<Block>>, What> {
    if blocks.len() < 33 || !is_lawful_log(alloc, blocks)? {
        return Ok(None);
    }
    Ok(Some(recovered(alloc, blocks)?))
}
