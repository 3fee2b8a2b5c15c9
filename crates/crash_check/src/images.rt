// The images of runs: new ones, and what they leave.
ghost use Rattle.std.specs.Prelude.{◌≡◌, ◌↔◌, IfNone, IfOk, IfSome, IsTrue, None};
ghost use Rattle.model.specs.Log.{logged_count, recovered};
ghost use Rattle.model.specs.Verdict.{verdict};
ghost use Rattle.opening.specs.Recoveries.{IsRecovered};
ghost use Rattle.crash_check.specs.Images.{IsFound, IsRecoveredTo, as_of_opening, is_want_of_memory, new_image};

use blocks::{Block, Disk, MemDisk, NoMemory};
use kernel::OpenFault;
use layout::CheckFault;
use messages::Silent;
use offline::mkfs;
use opening::{RecoverRefusal, recover_image};
use reference::files::Files;
use reference::report::files_after_recovery;
use std::alloc::Global;
use wal::RecoverFault;

// The blocks of an image.
const SIZE: u32 = 48;

/// Its inode numbers, the unused number 0 included.
pub const INODES: u32 = 16;

/// A new image in memory.
pub fn new_image(alloc: Global) -> Result<MemDisk, NoMemory>
    ensures { IfOk result (λ disk. ⟦<MemDisk as Disk>⟧.image disk ≡ new_image) }
{
    let mut disk = MemDisk::new(alloc, SIZE)?;
    // An image of this size can be made, and a disk in memory doesn't fail.
    mkfs(alloc, &mut disk, SIZE, INODES).map_err(|_| NoMemory)?;
    Ok(disk)
}

/// Recovers the image of a disk, twice: how many blocks its log held, and the files that it has then.
/// None where it can't be recovered.
pub fn recovered_files(alloc: Global, disk: &mut MemDisk) -> Result<Option<(u32, Files)>, NoMemory>
    ensures some { IfOk result (λ found. IfSome found (λ f.
        IsFound (⟦<MemDisk as Disk>⟧.image disk.old) f.0
        (⟦<MemDisk as Disk>⟧.image disk.new) f.1.items)) }
    ensures none { IfOk result (λ found. IfNone found
        (¬ (verdict (⟦<MemDisk as Disk>⟧.image disk.old) ≡ None))) }
{
    let Some(logged) = recover_twice(alloc, disk)? else {
        return Ok(None);
    };
    let blocks = blocks_of(alloc, disk)?;
    match files_after_recovery(alloc, blocks.as_slice()) {
        Ok(files) => Ok(Some((logged, files))),
        Err(fault) if is_want_of_memory(&OpenFault::Check(fault)) => Err(NoMemory),
        Err(_) => Ok(None),
    }
}

// The blocks of a disk.
fn blocks_of(alloc: Global, disk: &mut MemDisk) -> Result<Vec<Block>, NoMemory>
    ensures blocks { IfOk result (λ blocks. blocks.items ≡ ⟦<MemDisk as Disk>⟧.image disk.old) }
    ensures same { ⟦<MemDisk as Disk>⟧.image disk.new ≡ ⟦<MemDisk as Disk>⟧.image disk.old }
{
    let mut blocks = Vec::new(alloc);
    for b in 0..disk.size() {
        let mut block = Block::zeroed(alloc)?;
        if disk.read(b, &mut block).is_err() {
            // A disk in memory doesn't fail.
            return Err(NoMemory);
        }
        blocks.push(block)?;
    }
    Ok(blocks)
}

// Recovers the image of a disk, and once more. How many blocks were copied home the first time; None
// where it can't be recovered, or something was left to do the second time.
fn recover_twice(alloc: Global, disk: &mut MemDisk) -> Result<Option<u32>, NoMemory>
    ensures some { IfOk result (λ logged. IfSome logged (λ n.
        IsRecoveredTo (⟦<MemDisk as Disk>⟧.image disk.old) n
        (⟦<MemDisk as Disk>⟧.image disk.new))) }
    ensures none { IfOk result (λ logged. IfNone logged
        (¬ (verdict (⟦<MemDisk as Disk>⟧.image disk.old) ≡ None))) }
{
    let Some(logged) = recover(alloc, disk)? else {
        return Ok(None);
    };
    match recover(alloc, disk)? {
        Some(left) if left == 0 => Ok(Some(logged)),
        Some(_) => Ok(None),
        None => Ok(None),
    }
}

// Recovers the image of a disk. How many blocks were copied home; None where it can't be recovered.
fn recover(alloc: Global, disk: &mut MemDisk) -> Result<Option<u32>, NoMemory>
    ensures some { IfOk result (λ copied. IfSome copied (λ n.
        IsRecovered ⟦<MemDisk as Disk>⟧ n disk.old disk.new)) }
    ensures none { IfOk result (λ copied. IfNone copied
        (¬ (verdict (⟦<MemDisk as Disk>⟧.image disk.old) ≡ None))) }
{
    match recover_image(alloc, disk, &mut Silent) {
        Ok(copied) => Ok(Some(copied)),
        Err(refusal) if is_want_of_memory(&as_of_opening(refusal)) => Err(NoMemory),
        Err(_) => Ok(None),
    }
}

// The refusal of a recovery as that of an opening, which makes one, too.
fn as_of_opening(refusal: RecoverRefusal) -> OpenFault
    ensures { result ≡ as_of_opening refusal }
{
    match refusal {
        RecoverRefusal::Check(fault) => OpenFault::Check(fault),
        RecoverRefusal::Recover(fault) => OpenFault::Recover(fault),
    }
}

/// Whether an opening's fault says that memory was refused.
pub fn is_want_of_memory(fault: &OpenFault) -> bool
    ensures { result ≡ is_want_of_memory fault.now }
{
    match fault {
        OpenFault::Check(fault) => matches!(fault, CheckFault::NoMemory),
        OpenFault::Recover(fault) => matches!(fault, RecoverFault::NoMemory),
        OpenFault::NoMemory => true,
        OpenFault::ProcRange => false,
    }
}
