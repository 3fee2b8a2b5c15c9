// The bytes of a file of a disk's image.
ghost use Rattle.std.specs.Prelude.{◌≡◌, None, OnOk, IfErr};
ghost use Rattle.std.specs.Io.KnownBytes.{Appends};
ghost use Rattle.blocks.specs.Calls.{OnlyReads};
ghost use Rattle.model.specs.Files.{bytes_in};
ghost use Rattle.model.specs.Log.{logged_count, recovered};
ghost use Rattle.model.specs.Verdict.{verdict};
ghost use Rattle.offline.specs.Recovered.{IsRecoveredOf, MayReadFile};
ghost use Rattle.wal.specs.Recovery.{LeavesIfCalm, RecoversAs};
ghost use Rattle.opening.specs.Recoveries.{IsRecovered};
ghost use Rattle.disk_commands.specs.Showing.{IsLeftUnlogged, IsNotShown, IsPartly, IsUnread, IsUnshown, Shows, ShowsFile};

use crate::refusals::CatRefusal;
use blocks::{BLOCK_SIZE, Block, Disk};
use layout::Dinode;
use messages::{Silent, pass_on, write_bytes};
use offline::{Recovered, check};
use opening::{RecoverRefusal, recover_image};
use std::alloc::Global;
use std::io::Write;

// So many bytes are read and then written at once.
const PIECE_SIZE: u32 = 16 * BLOCK_SIZE as u32;

/// Recovers the image of a disk, and writes the bytes of its file of a number, and nothing else.
/// The file is read and written piece by piece, by its code without memory after the recovery.
///
/// Hands the disk back, with nothing but the recovery done to it: where the log was empty, no write.
/// Where the disk held nothing back at the start, whatever a crash at any moment leaves is recovered
/// to the same image.
///
/// # Errors
///
/// `NoMemory` where memory for a block is refused, and then nothing was done with the disk.
/// `Unrecovered` with a refusal of `recover_image`, or `NoFile` where there is no such file. With
/// these nothing was written. `Disk` where a read after the recovery failed: then the file's first
/// bytes were written, if any. `Output`.
pub fn cat_disk<D: Disk + Drop, O: Write>(
    alloc: Global,
    disk: D,
    number: u32,
    out: &mut O,
) -> (Result<(), CatRefusal>, D)
    ensures shown { OnOk result.0
        (Shows (D.image disk) number (O.contents out.old) (O.contents out.new)) }
    ensures recovered { OnOk result.0
        (IsRecovered D.Disk (logged_count (D.image disk)) disk result.1) }
    ensures unlogged { OnOk result.0 (IsLeftUnlogged D.Disk disk result.1) }
    ensures refused { IfErr result.0 (IsNotShown D.Disk disk result.1 number
        (O.contents out.old) (O.contents out.new) (out.new ≡ out.old)) }
    ensures name { D.name result.1 ≡ D.name disk }
    ensures any_moment { LeavesIfCalm D.Disk disk result.1 (RecoversAs (D.image disk)) }
{
    let mut block = match Block::zeroed(alloc) {
        Ok(block) => block,
        Err(_) => return (Err(CatRefusal::NoMemory), disk),
    };
    let mut disk = disk;
    if let Err(refusal) = recover_image(alloc, &mut disk, &mut Silent) {
        return (Err(CatRefusal::Unrecovered(refusal)), disk);
    }
    let shown = show(&mut disk, number, &mut block, out);
    (shown, disk)
}

/// Checks the image of a disk, and writes the bytes of its file of a number, and nothing else, as a
/// recovery would leave the image. It writes no block.
///
/// # Errors
///
/// `NoMemory` where memory for a block is refused. `Unrecovered` with a fault of the image or of its
/// check, or `NoFile` where there is no such file: with these nothing was written. `Disk` where a read
/// after the check failed: then the file's first bytes were written, if any. `Output`.
pub fn cat_read_only<D: Disk, O: Write>(
    alloc: Global,
    disk: &mut D,
    number: u32,
    out: &mut O,
) -> Result<(), CatRefusal>
    ensures shown { OnOk result
        (Shows (D.image disk.old) number (O.contents out.old) (O.contents out.new)) }
    ensures refused { IfErr result (IsUnread D.Disk disk.old disk.new number
        (O.contents out.old) (O.contents out.new) (out.new ≡ out.old)) }
    ensures reads { OnlyReads D.Disk disk.old disk.new }
{
    let mut block = match Block::zeroed(alloc) {
        Ok(block) => block,
        Err(_) => return Err(CatRefusal::NoMemory),
    };
    if let Err(fault) = check(alloc, disk) {
        return Err(CatRefusal::Unrecovered(RecoverRefusal::Check(fault)));
    }
    show(disk, number, &mut block, out)
}

// Writes the bytes of the file of a number of a disk that has no fault, and passes them on. What
// the block holds afterwards is not said, here and below.
fn show<D: Disk, O: Write>(
    disk: &mut D,
    number: u32,
    block: &mut Block,
    out: &mut O,
) -> Result<(), CatRefusal>
    requires sound { verdict (D.image disk.old) ≡ None }
    ensures shown { OnOk result (ShowsFile (recovered (D.image disk.old)) number
        (O.contents out.old) (O.contents out.new)) }
    ensures faultless { OnOk result (D.fault_count disk.new ≡ D.fault_count disk.old) }
    ensures refused { IfErr result (IsUnshown D.Disk disk.old disk.new number
        (O.contents out.old) (O.contents out.new) (out.new ≡ out.old)) }
    ensures reads { OnlyReads D.Disk disk.old disk.new }
{
    let image = Recovered::open_checked(disk, block)?;
    let found = image.inode_at(disk, number, block)?;
    let Some(inode) = found else {
        return Err(CatRefusal::NoFile);
    };
    write_file(disk, &image, &inode, block, out)?;
    pass_on(out)?;
    Ok(())
}

// Writes the bytes of an inode's file, piece by piece.
fn write_file<D: Disk, O: Write>(
    disk: &mut D,
    image: &Recovered,
    inode: &Dinode,
    block: &mut Block,
    out: &mut O,
) -> Result<(), CatRefusal>
    requires recovered { IsRecoveredOf (D.image disk.old) image.now }
    requires file { MayReadFile (recovered (D.image disk.old)) inode.now }
    ensures all { OnOk result (Appends (O.contents out.old) (O.contents out.new)
        (bytes_in (recovered (D.image disk.old)) inode.now)) }
    ensures faultless { OnOk result (D.fault_count disk.new ≡ D.fault_count disk.old) }
    ensures part { IfErr result (IsPartly D.Disk disk.old disk.new
        (bytes_in (recovered (D.image disk.old)) inode.now)
        (O.contents out.old) (O.contents out.new)) }
    ensures reads { OnlyReads D.Disk disk.old disk.new }
{
    let mut piece = [0; PIECE_SIZE as usize];
    let mut at = 0;
    while at < inode.size {
        let count = (inode.size - at).min(PIECE_SIZE);
        let bytes = &mut piece[..count as usize];
        image.read(disk, inode, at, bytes, block)?;
        write_bytes(out, bytes)?;
        at += count;
    }
    Ok(())
}
