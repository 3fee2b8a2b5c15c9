// Calls over an image in the caller's memory.
ghost use Rattle.std.specs.Prelude.{◌≡◌, ◌≢◌, ◌≤◌, ◌*◌, ◌+◌, length, IfOk, IfErr, IfNone, IfSome, None};
ghost use Rattle.std.specs.List.{concat};
ghost use Rattle.std.specs.Simd.{first_chunks};
ghost use Rattle.blocks.specs.Block.{overwritten};
ghost use Rattle.model.specs.Log.{logged_count, recovered};
ghost use Rattle.model.specs.Verdict.{verdict};
ghost use Rattle.offline.specs.Check.{IsReportOf};
ghost use Rattle.sessions.specs.Refusal.{HasBlocks};
ghost use Rattle.xvfs_c.specs.Images.{IsFaultOf, IsNoImage, IsUnrecovered, Makes, Recovers, RefusesToMake, RefusesToRecover, TellsFault, TellsReport};

use crate::report::{
    CHECK_MEMORY, LENGTH, XvfsReport, check_number, form_meant, form_number, mkfs_number,
    recover_number,
};
use blocks::{BLOCK_SIZE, Disk, MemDisk};
use model::types::CheckFault;
use offline::{Report, check, mkfs_as};
use std::alloc::Global;
use wal::recover;

// How many blocks these bytes are, from 1 to 8191.
pub fn blocks_of(image: &[u8]) -> Option<u32>
    ensures some { IfSome result (HasBlocks image.now) }
    ensures none { IfNone result (IsNoImage image.now) }
{
    let count = image.len() / BLOCK_SIZE;
    if image.len() % BLOCK_SIZE != 0 || count == 0 || count > 8191 {
        return None;
    }
    Some(count as u32)
}

// Writes these bytes in the place of those from the index `at` on.
fn put(into: &mut [u8], at: usize, bytes: &[u8])
    requires { at + length bytes.now ≤ length into.old }
    ensures { into.new ≡ overwritten into.old at bytes.now }
{
    into[at..at + bytes.len()].copy_from_slice(bytes);
}

// Writes the blocks of a disk into the caller's memory, one after the other.
fn store(disk: &MemDisk, image: &mut [u8])
    requires { length image.old ≡ length (⟦<MemDisk as Disk>⟧.image disk.now) * 1024 }
    ensures { image.new ≡ concat (⟦<MemDisk as Disk>⟧.image disk.now) }
{
    for b in 0..disk.size() {
        put(image, b as usize * BLOCK_SIZE, disk.block(b));
    }
}

// Checks these blocks.
pub fn check_bytes(alloc: Global, image: &[u8], count: u32) -> Result<Report, CheckFault>
    requires { HasBlocks image.now count }
    ensures sound { IfOk result (λ report. verdict (first_chunks 1024 count image.now) ≡ None) }
    ensures report { IfOk result (IsReportOf (first_chunks 1024 count image.now)) }
    ensures fault { IfErr result (IsFaultOf (first_chunks 1024 count image.now)) }
{
    let Ok(mut disk) = MemDisk::over(alloc, image, count) else {
        return Err(CheckFault::NoMemory);
    };
    check(alloc, &mut disk)
}

/// Says that an image is sound once its log is copied home, or its first fault: `xvfs.h` says more.
#[unsafe(no_mangle)]
pub extern "C" fn xvfs_check(alloc: Global, image: &[u8], out: &mut XvfsReport) -> u32
    ensures sound { result ≡ 0 → TellsReport image.now out.new }
    ensures length { result ≡ 258 → IsNoImage image.now × (out.new ≡ out.old) }
    ensures fault { result ≢ 0 → result ≢ 258 → TellsFault image.now result out.old out.new }
{
    let Some(count) = blocks_of(image) else {
        return LENGTH;
    };
    match check_bytes(alloc, image, count) {
        Ok(report) => {
            *out = XvfsReport {
                fault: 0,
                at: 0,
                form: form_number(report.form),
                size: report.sup.size,
                nblocks: report.sup.nblocks,
                ninodes: report.sup.ninodes,
                logged: report.logged,
                files: report.files,
            };
            0
        }
        Err(fault) => {
            let (number, at) = check_number(fault);
            out.fault = number;
            out.at = at;
            number
        }
    }
}

/// Makes an empty image: `xvfs.h` says more.
#[unsafe(no_mangle)]
pub extern "C" fn xvfs_mkfs(alloc: Global, image: &mut [u8], ninodes: u32, form: u32) -> u32
    ensures made { result ≡ 0 → Makes image.old ninodes form image.new }
    ensures length { result ≡ 258 → IsNoImage image.old }
    ensures refused { result ≢ 0 → result ≢ 258 → RefusesToMake image.old ninodes result }
    ensures kept { result ≢ 0 → image.new ≡ image.old }
{
    let Some(count) = blocks_of(image) else {
        return LENGTH;
    };
    let Ok(mut disk) = MemDisk::over(alloc, image, count) else {
        return 516;
    };
    if let Err(fault) = mkfs_as(alloc, &mut disk, count, ninodes, form_meant(form)) {
        return mkfs_number(fault);
    }
    store(&disk, image);
    0
}

// Checks and recovers the image of a disk: how many blocks were copied home, or the number that says
// why not.
fn recover_disk(alloc: Global, disk: &mut MemDisk) -> Result<u32, u32>
    ensures sound { IfOk result (λ n. verdict (⟦<MemDisk as Disk>⟧.image disk.old) ≡ None) }
    ensures count { IfOk result (λ n. n ≡ logged_count (⟦<MemDisk as Disk>⟧.image disk.old)) }
    ensures recovered { IfOk result (λ n. ⟦<MemDisk as Disk>⟧.image disk.new
        ≡ recovered (⟦<MemDisk as Disk>⟧.image disk.old)) }
    ensures refused { IfErr result (IsUnrecovered (⟦<MemDisk as Disk>⟧.image disk.old)) }
{
    let sup = match check(alloc, disk) {
        Ok(report) => report.sup,
        Err(fault) => return Err(check_number(fault).0),
    };
    match recover(alloc, disk, &sup) {
        Ok(count) => Ok(count),
        Err(fault) => Err(recover_number(fault)),
    }
}

/// Copies the blocks of the log home, and empties the log: `xvfs.h` says more.
#[unsafe(no_mangle)]
pub extern "C" fn xvfs_recover(alloc: Global, image: &mut [u8], recovered: &mut u32) -> u32
    ensures done { result ≡ 0 → Recovers image.old recovered.new image.new }
    ensures length { result ≡ 258 → IsNoImage image.old }
    ensures refused { result ≢ 0 → result ≢ 258 → RefusesToRecover image.old result }
    ensures kept { result ≢ 0 → (image.new ≡ image.old) × (recovered.new ≡ recovered.old) }
{
    let Some(count) = blocks_of(image) else {
        return LENGTH;
    };
    let Ok(mut disk) = MemDisk::over(alloc, image, count) else {
        return CHECK_MEMORY;
    };
    match recover_disk(alloc, &mut disk) {
        Ok(count) => {
            *recovered = count;
            store(&disk, image);
            0
        }
        Err(number) => number,
    }
}
