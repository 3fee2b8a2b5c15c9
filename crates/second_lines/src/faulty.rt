// What an inode has to which a check objects.
ghost use Rattle.std.specs.Prelude.{◌≡◌, ◌≤◌, IfSome, length};
ghost use Rattle.offline.specs.Recovered.{IsRecoveredOf};

use crate::addresses::{Wanted, needed_of, wrong_place};
use crate::quoting::quoted;
use blocks::{Block, Disk};
use cmd::open_to_look;
use layout::{
    ADDRESSES_PER_BLOCK, Dinode, LOG_START, direct_count, entries, greatest_size, meta_count,
};
use offline::Recovered;
use std::alloc::Global;
use std::rt::Files;

// How many addresses a block of them has.
const ENTRIES: u32 = ADDRESSES_PER_BLOCK as u32;

// The place of the last of an inode's addresses.
const LAST: usize = 12;

// An address that isn't as it has to be: of the inode itself, or of a block of addresses.
#[derive(Clone, Copy)]
struct Wrong {
    holder: Option<u32>,
    place: u32,
    found: u32,
}

// What the inode of a number has of which `check` tells the fault of that number, in the image at a
// path: its type, its size, or the first of its addresses that is wrong.
pub fn wrong_inode<R: Files + AllocGlobal>(
    rt: &R,
    path: &str,
    fault: u32,
    number: u32,
) -> Option<String> {
    match open_to_look(rt, path) {
        Ok(disk) => told_of(rt.alloc(), disk, path, fault, number),
        Err(_) => None,
    }
}

// The same in the image of a disk that nobody keeps.
fn told_of<D: Disk + Drop>(
    alloc: Global,
    mut disk: D,
    path: &str,
    fault: u32,
    number: u32,
) -> Option<String> {
    let path = quoted(alloc, path)?;
    told_in(alloc, &mut disk, path.as_str(), fault, number)
}

fn told_in<D: Disk>(
    alloc: Global,
    disk: &mut D,
    path: &str,
    fault: u32,
    number: u32,
) -> Option<String> {
    let mut block = Block::zeroed(alloc).ok()?;
    let image = opened_image(disk, &mut block)?;
    if number >= image.sup.ninodes {
        return None;
    }
    let Ok(inode) = image.inode(disk, number, &mut block) else {
        return None;
    };
    match fault {
        4 => told_type(alloc, path, number, &inode),
        5 => told_size(alloc, path, number, &inode, greatest_size(image.form)),
        _ => match wrong_address(disk, &image, &inode, &mut block) {
            Some(wrong) => told_address(alloc, path, number, &image, wrong),
            None => None,
        },
    }
}

// The image of a disk, if its superblock and its log are lawful.
fn opened_image<D: Disk>(disk: &mut D, block: &mut Block) -> Option<Recovered>
    ensures { IfSome result (IsRecoveredOf (D.image disk.new)) }
{
    Recovered::open(disk, block).ok()
}

fn told_type(alloc: Global, path: &str, number: u32, inode: &Dinode) -> Option<String> {
    let kind = inode.kind;
    format!(in alloc; "{path}: inode {number}: type {kind}, expected 0 to 3").ok()
}

fn told_size(alloc: Global, path: &str, number: u32, inode: &Dinode, most: u32) -> Option<String> {
    let size = inode.size;
    format!(in alloc; "{path}: inode {number}: size {size}, expected {most} at most").ok()
}

fn told_address(
    alloc: Global,
    path: &str,
    number: u32,
    image: &Recovered,
    wrong: Wrong,
) -> Option<String> {
    let Wrong {
        holder,
        place,
        found,
    } = wrong;
    let first = meta_count(image.sup.size, image.sup.ninodes);
    let end = image.sup.size;
    match holder {
        None => format!(in alloc;
            "{path}: inode {number}: address {place} is {found}, expected {first} or more, below {end}"
        ).ok(),
        Some(holder) => format!(in alloc;
            "{path}: inode {number}: entry {place} of block {holder} is {found}, expected {first} or more, below {end}"
        ).ok(),
    }
}

// The first address of an inode that is wrong, in the order of a check, as far as its own ones and
// those of its first block of addresses tell.
fn wrong_address<D: Disk>(
    disk: &mut D,
    image: &Recovered,
    inode: &Dinode,
    block: &mut Block,
) -> Option<Wrong>
    requires recovered { IsRecoveredOf (D.image disk.old) image.now }
    requires addresses { length inode.now.addrs ≡ 13 }
{
    let direct = direct_count(image.form).min(LAST);
    let own = Wanted {
        needed: needed_of(inode.size, 0, 1),
        first: meta_count(image.sup.size, image.sup.ninodes),
        end: image.sup.size,
    };
    if let Some(wrong) = wrong_among(None, &inode.addrs[..direct + 1], own) {
        return Some(wrong);
    }
    let entries = Wanted {
        needed: needed_of(inode.size, direct as u32, 1),
        ..own
    };
    if let Some(wrong) = wrong_entry(disk, image, inode.addrs[direct], entries, block) {
        return Some(wrong);
    }
    let last = Wanted {
        needed: needed_of(inode.size, direct as u32 + ENTRIES, ENTRIES * ENTRIES),
        ..own
    };
    wrong_last(inode.addrs[LAST], last)
}

// The last address of an inode, if that is wrong.
fn wrong_last(address: u32, wanted: Wanted) -> Option<Wrong> {
    match wrong_place(&[address], wanted) {
        Some(_place) => Some(Wrong {
            holder: None,
            place: LAST as u32,
            found: address,
        }),
        None => None,
    }
}

// The first of these addresses that is wrong.
fn wrong_among(holder: Option<u32>, addresses: &[u32], wanted: Wanted) -> Option<Wrong>
    requires { length addresses.now ≤ 256 }
{
    match wrong_place(addresses, wanted) {
        Some(place) => Some(Wrong {
            holder,
            place,
            found: addresses[place as usize],
        }),
        None => None,
    }
}

// The first entry of the block of addresses that is wrong, where that is a block that can be read.
fn wrong_entry<D: Disk>(
    disk: &mut D,
    image: &Recovered,
    holder: u32,
    wanted: Wanted,
    block: &mut Block,
) -> Option<Wrong>
    requires { IsRecoveredOf (D.image disk.old) image.now }
{
    if holder <= LOG_START || holder >= disk.size() {
        return None;
    }
    let Ok(()) = image.block(disk, holder, block) else {
        return None;
    };
    wrong_among(Some(holder), &entries::read_all(block), wanted)
}
