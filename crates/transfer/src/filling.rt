// Filling the new image with the files of the old one.
ghost use Rattle.std.specs.Prelude.{◌≡◌, ◌≤◌, ◌<◌, ◌+◌, ◌*◌, ◌^◌, All, length, replicate, None, Some, IfErr, OnOk};
ghost use Rattle.blocks.specs.Calls.{OnlyReads};
ghost use Rattle.model.specs.Files.{bytes_in, file_in};
ghost use Rattle.model.specs.Layout.{form_of, inode_of, inode_count_of};
ghost use Rattle.model.specs.Log.{recovered};
ghost use Rattle.calls.specs.Calls.{call_count};
ghost use Rattle.calls.specs.Files.{appended, files_on, size_of};
ghost use Rattle.calls.specs.Stopped.{StaysOver};
ghost use Rattle.transfer.specs.Holding.{BreaksOff, CutsShort, Holds, IsUnanswered, IsUnwritten};
ghost use Rattle.transfer.specs.Source.{IsFileOf, IsSourceOf, chosen_files};
ghost use Rattle.transfer.specs.Stages.{kept_at, kind_or_plain, listed, made_at};

use crate::fault::CopyFault;
use crate::source::Source;
use blocks::{Block, Disk};
use calls::{CallFault, Sole, append, create, remove};
use messages::Meter;
use model::types::TRANSFER_LIMIT;
use std::alloc::Global;

// The type of a plain file, `T_FILE` of xv6.
pub(crate) const PLAIN: u16 = 2;

/// Writes the source's files to a kernel without files, each with its number.
pub(crate) fn fill<D: Disk, E: Disk, P: Meter>(
    alloc: Global,
    old: &mut D,
    source: &Source,
    kernel: &mut Sole<E>,
    progress: &mut P,
) -> Result<(), CopyFault>
    requires source { IsSourceOf (D.image old.old) source.now }
    requires form { source.now.form ≡ form_of (E.image kernel.old.opening) }
    requires none { Holds E.Disk 0 (replicate (inode_count_of (D.image old.old)) None) kernel.old }
    ensures filled { OnOk result (Holds E.Disk (21937 * length source.now.kinds.items)
        (chosen_files (recovered (D.image old.old)) source.now.kinds.items) kernel.new) }
    ensures refused { IfErr result (IsUnwritten D.Disk E.Disk
        (BreaksOff (chosen_files (recovered (D.image old.old)) source.now.kinds.items))
        old.old old.new kernel.old.opening kernel.new.store.volume.device) }
    ensures reads { OnlyReads D.Disk old.old old.new }
    ensures faults { OnOk result (D.fault_count old.new ≡ D.fault_count old.old) }
    ensures stays { StaysOver E.Disk kernel.old kernel.new }
{
    create_numbers(kernel, &source.kinds)?;
    remove_free(kernel, &source.kinds)?;
    let mut block = Block::zeroed(alloc)?;
    let mut copied: u32 = 0;
    for (k, kind) in source.kinds.iter().enumerate() {
        if *kind != 0 {
            write_file(alloc, old, source, k as u32 + 1, kernel, &mut block)?;
            copied += 1;
            progress.reached(u64::from(copied), source.files, "files");
        }
    }
    Ok(())
}

// Makes the numbers from 1 on, as many as there are types.
fn create_numbers<E: Disk>(kernel: &mut Sole<E>, kinds: &[u16]) -> Result<(), CallFault>
    requires room { length kinds.now < length (files_on E.image kernel.old) }
    requires few { length kinds.now < 1024 }
    requires kinds { All (λ kind. kind ≤ 3) kinds.now }
    requires none { Holds E.Disk 0
        (replicate (length (files_on E.image kernel.old)) None) kernel.old }
    ensures made { OnOk result (Holds E.Disk (length kinds.now)
        (listed (length (files_on E.image kernel.old)) (made_at kinds.now (length kinds.now)))
        kernel.new) }
    ensures refused { IfErr result (IsUnanswered E.Disk
        kernel.old.opening kernel.new.store.volume.device) }
    ensures stays { StaysOver E.Disk kernel.old kernel.new }
{
    for kind in kinds {
        let Some(_number) = create(kernel, kind_or_plain(*kind))? else {
            // The number behind those that were made is free.
            unreachable!()
        };
    }
    Ok(())
}

// The type of a number, and that of a plain file for a free one.
fn kind_or_plain(kind: u16) -> u16
    ensures { result ≡ kind_or_plain kind }
{
    if kind == 0 { PLAIN } else { kind }
}

// Removes the files that hold the places of free numbers.
fn remove_free<E: Disk>(kernel: &mut Sole<E>, kinds: &[u16]) -> Result<(), CallFault>
    requires room { length kinds.now < length (files_on E.image kernel.old) }
    requires few { length kinds.now < 1024 }
    requires made { Holds E.Disk (length kinds.now)
        (listed (length (files_on E.image kernel.old)) (made_at kinds.now (length kinds.now)))
        kernel.old }
    ensures kept { OnOk result (Holds E.Disk (2 * length kinds.now)
        (listed (length (files_on E.image kernel.old)) (kept_at kinds.now (length kinds.now)))
        kernel.new) }
    ensures refused { IfErr result (IsUnanswered E.Disk
        kernel.old.opening kernel.new.store.volume.device) }
    ensures stays { StaysOver E.Disk kernel.old kernel.new }
{
    for (k, kind) in kinds.iter().enumerate() {
        if *kind == 0 {
            remove(kernel, k as u32 + 1)?;
        }
    }
    Ok(())
}

// Writes the bytes of the old file of a number to the new one, which is empty, piece by piece. The
// block is room for the old one's: what it holds afterwards is not said.
#[tactic(auto, using(blocks::specs::Lemmas::Reads::reads_then))]
fn write_file<D: Disk, E: Disk>(
    alloc: Global,
    old: &mut D,
    source: &Source,
    i: u32,
    kernel: &mut Sole<E>,
    block: &mut Block,
) -> Result<(), CopyFault>
    requires file { IsFileOf (D.image old.old) source.now i }
    requires form { source.now.form ≡ form_of (E.image kernel.old.opening) }
    requires few { call_count kernel.old < 2 ^ 62 }
    requires empty { Holds E.Disk (call_count kernel.old) (files_on E.image kernel.old) kernel.old
        × (size_of (file_in (files_on E.image kernel.old) i) ≡ Some 0) }
    ensures written { OnOk result (Holds E.Disk (call_count kernel.old + 21935)
        (appended (files_on E.image kernel.old) i
        (bytes_in (recovered (D.image old.old)) (inode_of (recovered (D.image old.old)) i)))
        kernel.new) }
    ensures refused { IfErr result (IsUnwritten D.Disk E.Disk
        (CutsShort i (appended (files_on E.image kernel.old) i
        (bytes_in (recovered (D.image old.old)) (inode_of (recovered (D.image old.old)) i))))
        old.old old.new kernel.old.opening kernel.new.store.volume.device) }
    ensures reads { OnlyReads D.Disk old.old old.new }
    ensures faults { OnOk result (D.fault_count old.new ≡ D.fault_count old.old) }
    ensures stays { StaysOver E.Disk kernel.old kernel.new }
{
    let mut room = [0; TRANSFER_LIMIT as usize];
    let inode = source.image.inode(old, i, block)?;
    for piece in 0..inode.size.div_ceil(TRANSFER_LIMIT) {
        let at = piece * TRANSFER_LIMIT;
        let bytes = &mut room[..TRANSFER_LIMIT.min(inode.size - at) as usize];
        source.image.read(old, &inode, at, bytes, block)?;
        if !append(kernel, alloc, i, at, bytes)? {
            return Err(CopyFault::Leaked(i));
        }
    }
    Ok(())
}
