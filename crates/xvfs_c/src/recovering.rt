// The recovery of a host's own device, told place by place.
ghost use Rattle.std.specs.Prelude.{◌≡◌, ◌≢◌, ◌≤◌, ◌<◌, ℕ, length, IfSome, IfNone, IsTrue};
ghost use Rattle.blocks.specs.Disk.{block_at};
ghost use Rattle.model.specs.Format.{inode_start};
ghost use Rattle.model.specs.Log.{homes_of, is_lawful_log, logged_count, recovered};
ghost use Rattle.xvfs_c.specs.Images.{IsNoImage};
ghost use Rattle.xvfs_c.specs.Recovering.{HasNoLog, RefusesRecovery, TellsRecovery, laid_bytes, recovery_at};

use crate::image::{blocks_of, check_bytes};
use crate::report::{BLOCK, LENGTH, LOG, XvfsTold, check_number, told_number};
use blocks::BLOCK_SIZE;
use layout::header::Header;
use layout::{INODE_START, LOG_START};
use sessions::Told;
use std::alloc::Global;

// The header of the log of these blocks, if that is lawful.
fn lawful_header(blocks: &[[u8; BLOCK_SIZE]]) -> Option<Header>
    requires few { length blocks.now ≤ 8191 }
    requires sizes { (b : ℕ) → b < length blocks.now → length (block_at blocks.now b) ≡ 1024 }
    ensures long { IfSome result (λ h. inode_start ≤ length blocks.now) }
    ensures lawful { IfSome result (λ h. IsTrue (is_lawful_log blocks.now)) }
    ensures count { IfSome result (λ h. h.n ≡ logged_count blocks.now) }
    ensures homes { IfSome result (λ h. h.homes.items ≡ homes_of blocks.now) }
    ensures none { IfNone result (HasNoLog blocks.now) }
{
    if blocks.len() < INODE_START as usize {
        return None;
    }
    let header = Header::read(&blocks[LOG_START as usize]);
    if !header.is_lawful(blocks.len() as u32) {
        return None;
    }
    Some(header)
}

// Tells what is done at a place of the recovery of these blocks, and lays the block that it tells.
fn tell_at(blocks: &[[u8; BLOCK_SIZE]], header: &Header, place: u32, block: &mut [u8]) -> Told
    requires long { inode_start ≤ length blocks.now }
    requires lawful { IsTrue (is_lawful_log blocks.now) }
    requires count { header.now.n ≡ logged_count blocks.now }
    requires homes { header.now.homes.items ≡ homes_of blocks.now }
    requires sizes { (b : ℕ) → b < length blocks.now → length (block_at blocks.now b) ≡ 1024 }
    requires room { length block.old ≡ 1024 }
    ensures told { result ≡ recovery_at blocks.now place }
    ensures laid { block.new ≡ laid_bytes result (recovered blocks.now) block.old }
{
    if header.n == 0 {
        return Told::Nothing;
    }
    let homes = header.homes.as_slice();
    let count = homes.len() as u32;
    if place < count {
        block.copy_from_slice(&blocks[(LOG_START + 1 + place) as usize]);
        return Told::Wrote(homes[place as usize]);
    }
    match place - count {
        0 | 2 => Told::Synced,
        1 => {
            block.copy_from_slice(&[0; BLOCK_SIZE]);
            Told::Wrote(LOG_START)
        }
        _ => Told::Nothing,
    }
}

/// Tells one write or sync of the recovery of an image: `xvfs.h` says more.
#[unsafe(no_mangle)]
pub extern "C" fn xvfs_recover_step(
    alloc: Global,
    image: &[u8],
    place: u32,
    out: &mut XvfsTold,
    block: &mut [u8],
) -> u32
    ensures done { result ≡ 0
        → TellsRecovery image.now place out.new block.old block.new }
    ensures length { result ≡ 258 → IsNoImage image.now }
    ensures room { result ≡ 1540 → length block.old ≢ 1024 }
    ensures refused { result ≢ 0 → result ≢ 258 → result ≢ 1540
        → RefusesRecovery image.now place result }
    ensures kept { result ≢ 0 → (out.new ≡ out.old) × (block.new ≡ block.old) }
{
    let Some(count) = blocks_of(image) else {
        return LENGTH;
    };
    if block.len() != BLOCK_SIZE {
        return BLOCK;
    }
    if place == 0 {
        if let Err(fault) = check_bytes(alloc, image, count) {
            return check_number(fault).0;
        }
    }
    let (blocks, _rest) = image.as_chunks::<BLOCK_SIZE>();
    let Some(header) = lawful_header(blocks) else {
        return LOG;
    };
    let told = tell_at(blocks, &header, place, block);
    let (wrote, written, synced) = told_number(told);
    *out = XvfsTold {
        wrote,
        block: written,
        synced,
    };
    0
}
