// How many blocks files need, and how many there are for them.
ghost use Rattle.std.specs.Prelude.{◌≡◌, ◌-◌, IfSome, length};
ghost use Rattle.blocks.specs.Calls.{OnlyReads};
ghost use Rattle.model.specs.Layout.{super_of};
ghost use Rattle.model.specs.Log.{recovered};
ghost use Rattle.offline.specs.Recovered.{IsRecoveredOf};
ghost use Rattle.offline.specs.Checked.{IsCheckedOf};
ghost use Rattle.inspect.specs.Owned.{owned_by_all};

use crate::given::Given;
use crate::paths::{bytes_of, length_of};
use crate::quoting::quoted;
use blocks::{BLOCK_SIZE, Block, Disk, DiskFault};
use cmd::open_to_look;
use inspect::owned_by_all;
use layout::{ADDRESSES_PER_BLOCK, Form, direct_count, greatest_size, plan, superblock};
use offline::{Recovered, check};
use std::alloc::Global;
use std::rt::Files;

// The blocks that files need, and those that there are for them.
#[derive(Clone, Copy)]
struct Room {
    needed: u64,
    free: u64,
}

// How many blocks the bytes that are put need, and how many there are: the free ones, and those that
// the old file gives up. None where these are enough.
pub fn room_to_put<R: Files + AllocGlobal>(rt: &R, given: &Given<'_>) -> Option<String> {
    let path = given.image?;
    let size = u32::try_from(length_of(rt, given.file?)?).ok()?;
    let room = match open_to_look(rt, path) {
        Ok(disk) => room_on(rt.alloc(), disk, given.inum, size),
        Err(_) => None,
    };
    told(rt.alloc(), path, room?)
}

// How many blocks the files that are copied need, and how many the new image has for them.
pub fn room_to_copy<R: Files + AllocGlobal>(rt: &R, given: &Given<'_>) -> Option<String> {
    let path = given.made?;
    let room = match open_to_look(rt, given.image?) {
        Ok(disk) => room_for_all(rt.alloc(), disk, given.size),
        Err(_) => None,
    };
    told(rt.alloc(), path, room?)
}

// How many bytes are put, and how many a file of the image may have.
pub fn too_big<R: Files + AllocGlobal>(rt: &R, given: &Given<'_>) -> Option<String> {
    let path = given.file?;
    let length = length_of(rt, path)?;
    let bytes = bytes_of(rt, given.image?, 2 * BLOCK_SIZE as u64)?;
    if bytes.len() < 2 * BLOCK_SIZE {
        return None;
    }
    let most = greatest_size(superblock::form(&bytes[BLOCK_SIZE..]));
    let path = quoted(rt.alloc(), path)?;
    format!(in rt.alloc(); "{path}: {length} bytes, expected {most} at most").ok()
}

fn told(alloc: Global, path: &str, room: Room) -> Option<String> {
    let Room { needed, free } = room;
    if needed <= free {
        return None;
    }
    let path = quoted(alloc, path)?;
    format!(in alloc; "{path}: {needed} blocks are needed, {free} are free").ok()
}

// Those of a put into the image of a disk that nobody keeps.
fn room_on<D: Disk + Drop>(
    alloc: Global,
    mut disk: D,
    inum: Option<u32>,
    size: u32,
) -> Option<Room> {
    room_of_put(alloc, &mut disk, inum, size)
}

// The image of a disk, if it has no fault.
fn checked_image<D: Disk>(alloc: Global, disk: &mut D, block: &mut Block) -> Option<Recovered>
    ensures { IfSome result (IsCheckedOf (D.image disk.new)) }
{
    let Ok(_report) = check(alloc, disk) else {
        return None;
    };
    Recovered::open_checked(disk, block).ok()
}

fn room_of_put<D: Disk>(alloc: Global, disk: &mut D, inum: Option<u32>, size: u32) -> Option<Room> {
    let mut block = Block::zeroed(alloc).ok()?;
    let image = checked_image(alloc, disk, &mut block)?;
    let old = old_blocks(disk, &image, &mut block, inum)?;
    let free = free_blocks(alloc, disk, &image)?;
    Some(Room {
        needed: needed_blocks(image.form, size),
        free: free.saturating_add(old),
    })
}

// The blocks that the size of the old file needs.
fn old_blocks<D: Disk>(
    disk: &mut D,
    image: &Recovered,
    block: &mut Block,
    inum: Option<u32>,
) -> Option<u64>
    requires { IsCheckedOf (D.image disk.old) image.now }
    ensures { OnlyReads D.Disk disk.old disk.new }
{
    let Some(number) = inum else {
        return Some(0);
    };
    if number >= image.sup.ninodes {
        return None;
    }
    let Ok(inode) = image.inode(disk, number, block) else {
        return None;
    };
    Some(needed_blocks(image.form, inode.size))
}

// The blocks that no file owns, as `df` counts them.
fn free_blocks<D: Disk>(alloc: Global, disk: &mut D, image: &Recovered) -> Option<u64>
    requires { IsCheckedOf (D.image disk.old) image.now }
    ensures { IfSome result (λ free. free ≡ (super_of (D.image disk.old)).nblocks
        - length (owned_by_all (recovered (D.image disk.old)))) }
{
    let Ok(owned) = owned_by_all(alloc, disk, image) else {
        return None;
    };
    Some((image.sup.nblocks as u64).saturating_sub(owned.len() as u64))
}

// Those of a copy of the image of a disk that nobody keeps.
fn room_for_all<D: Disk + Drop>(alloc: Global, mut disk: D, size: Option<u32>) -> Option<Room> {
    room_of_copy(alloc, &mut disk, size)
}

fn room_of_copy<D: Disk>(alloc: Global, disk: &mut D, size: Option<u32>) -> Option<Room> {
    let mut block = Block::zeroed(alloc).ok()?;
    let image = checked_image(alloc, disk, &mut block)?;
    let Ok(needed) = needed_by_all(disk, &image, &mut block) else {
        return None;
    };
    let Ok(planned) = plan(size.unwrap_or(image.sup.size), image.sup.ninodes) else {
        return None;
    };
    Some(Room {
        needed,
        free: planned.nblocks as u64,
    })
}

// The blocks that copies of all files need, in an image of the second form.
fn needed_by_all<D: Disk>(
    disk: &mut D,
    image: &Recovered,
    block: &mut Block,
) -> Result<u64, DiskFault>
    requires { IsRecoveredOf (D.image disk.old) image.now }
{
    let mut needed = 0u64;
    for number in 1..image.sup.ninodes {
        let inode = image.inode(disk, number, block)?;
        if inode.kind != 0 {
            needed = needed.saturating_add(needed_blocks(Form::Two, inode.size));
        }
    }
    Ok(needed)
}

// The blocks that a file of that many bytes needs, blocks of addresses among them.
fn needed_blocks(form: Form, size: u32) -> u64 {
    let count = (size as u64).div_ceil(BLOCK_SIZE as u64);
    count.saturating_add(address_blocks(form, count))
}

fn address_blocks(form: Form, count: u64) -> u64 {
    let direct = direct_count(form) as u64;
    let entries = ADDRESSES_PER_BLOCK as u64;
    if count <= direct {
        0
    } else if count <= direct + entries {
        1
    } else {
        (count - direct - entries)
            .div_ceil(entries)
            .saturating_add(2)
    }
}
