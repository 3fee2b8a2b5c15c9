// The bytes of files.
ghost use Rattle.std.specs.Prelude.{◌≡◌, ◌+◌, ◌-◌, ◌^◌, ◌<◌, ◌≤◌, ◌==◌, ◌++◌, length};
ghost use Rattle.std.specs.Prelude.{IfErr, IfOk, OnOk};
ghost use Rattle.mounting.specs.Causes.{
  AreUnwritten,
  IsHindered,
  IsNotDone,
  IsUnfilled,
  IsUnread,
  IsUnresized,
  IsUnwritten,
  LeavesBytes,
  WroteBehind,
  WroteFewer,
};
ghost use Rattle.mounting.specs.Changes.{
  bytes_on,
  wrote_count,
  EndsAt,
  Lengthens,
  Makes,
  OnlyLooks,
  Resizes,
  StandsAt,
  StaySame,
  WritesIn,
  WritesPart,
};
ghost use Rattle.model.specs.Operations.{part_of, transfer_limit};
ghost use Rattle.names.specs.Numbered.{IsNoFileOrDirectory};
ghost use Rattle.names.specs.Ready.{MayGoOn};

use crate::calling::{cut_at, look_at, read_at, write_at};
use crate::errno::Errno;
use blocks::Disk;
use names::{Tree, TreeFault, Unwritten};
use std::alloc::Global;

// So many bytes are written by one call.
const PIECE: u32 = 3072;

/// The bytes of a file from an offset on, no more than `size`, added to these.
pub(crate) fn read<D: Disk>(
    alloc: Global,
    tree: &mut Tree<D>,
    number: u32,
    offset: u64,
    size: u32,
    out: &mut Vec<u8>,
) -> Result<(), Errno>
    requires ready { MayGoOn D.Disk tree.old.kernel tree.old.calls_left }
    ensures ready { MayGoOn D.Disk tree.new.kernel tree.new.calls_left }
    ensures looks { OnlyLooks D.Disk tree.old.kernel tree.new.kernel
        tree.old.calls_left tree.new.calls_left }
    ensures same { OnOk result (StaySame D.Disk tree.old.kernel tree.new.kernel) }
    ensures reads { OnOk result (offset < 2 ^ 32 → out.new.items ≡ out.old.items
        ++ part_of (bytes_on D.Disk number tree.old.kernel) offset size) }
    ensures none { OnOk result (2 ^ 32 ≤ offset → out.new.items ≡ out.old.items) }
    ensures hindered { IfErr result (IsHindered D.Disk (IsUnread number offset size)
        tree.new.kernel tree.new.calls_left) }
{
    let Ok(offset) = u32::try_from(offset) else {
        return Ok(());
    };
    let mut left = size;
    for _piece in 0..size.div_ceil(PIECE) {
        let most = PIECE.min(left);
        if !read_piece(alloc, tree, number, offset, size - left, most, out)? {
            return Ok(());
        }
        left -= most;
    }
    Ok(())
}

// The bytes of a file that stand so far behind an offset, no more than one call reads, added to
// these.
// Whether there are as many.
fn read_piece<D: Disk>(
    alloc: Global,
    tree: &mut Tree<D>,
    number: u32,
    offset: u32,
    done: u32,
    most: u32,
    out: &mut Vec<u8>,
) -> Result<bool, Errno>
    requires ready { MayGoOn D.Disk tree.old.kernel tree.old.calls_left }
    requires few { most ≤ transfer_limit }
    ensures ready { MayGoOn D.Disk tree.new.kernel tree.new.calls_left }
    ensures looks { OnlyLooks D.Disk tree.old.kernel tree.new.kernel
        tree.old.calls_left tree.new.calls_left }
    ensures same { OnOk result (StaySame D.Disk tree.old.kernel tree.new.kernel) }
    ensures reads { OnOk result (out.new.items ≡ out.old.items
        ++ part_of (bytes_on D.Disk number tree.old.kernel) (offset + done) most) }
    ensures whole { IfOk result (λ whole. whole ≡
        (length (part_of (bytes_on D.Disk number tree.old.kernel) (offset + done) most) == most)) }
    ensures hindered { IfErr result (IsHindered D.Disk (IsUnread number offset (done + most))
        tree.new.kernel tree.new.calls_left) }
{
    let Some(at) = offset.checked_add(done) else {
        return Err(Errno::Invalid);
    };
    let bytes = read_at(alloc, tree, number, at, most)?;
    out.extend_from_slice(bytes.as_slice())?;
    Ok(bytes.len() == most as usize)
}

/// Writes bytes into a file from an offset on. How many were written. What is before the offset and
/// behind the file's end becomes zeroes.
pub(crate) fn write<D: Disk>(
    alloc: Global,
    tree: &mut Tree<D>,
    number: u32,
    offset: u64,
    bytes: &[u8],
) -> Result<u32, Errno>
    requires ready { MayGoOn D.Disk tree.old.kernel tree.old.calls_left }
    ensures ready { MayGoOn D.Disk tree.new.kernel tree.new.calls_left }
    ensures makes { Makes D.Disk (WritesIn number offset bytes.now) tree.old.kernel tree.new.kernel
        tree.old.calls_left tree.new.calls_left }
    ensures stands { IfOk result (StandsAt (bytes_on D.Disk number tree.new.kernel) offset
        bytes.now) }
    ensures short { IfOk result (WroteFewer D.Disk number offset bytes.now tree.new.kernel) }
    ensures hindered { IfErr result (IsHindered D.Disk (IsUnwritten number offset bytes.now)
        tree.new.kernel tree.new.calls_left) }
{
    let Ok(offset) = u32::try_from(offset) else {
        return Err(Errno::TooBig);
    };
    fill_up(alloc, tree, number, offset)?;
    let left = write_pieces(alloc, tree, number, offset, bytes)?;
    if left == bytes.len() && left > 0 {
        return Err(Errno::NoSpace);
    }
    match u32::try_from(bytes.len().saturating_sub(left)) {
        Ok(count) => Ok(count),
        Err(_) => Err(Errno::TooBig),
    }
}

// Writes zeroes from a file's end up to an offset that is behind it.
fn fill_up<D: Disk>(
    alloc: Global,
    tree: &mut Tree<D>,
    number: u32,
    offset: u32,
) -> Result<(), Errno>
    requires ready { MayGoOn D.Disk tree.old.kernel tree.old.calls_left }
    ensures ready { MayGoOn D.Disk tree.new.kernel tree.new.calls_left }
    ensures makes { Makes D.Disk (Lengthens number offset) tree.old.kernel tree.new.kernel
        tree.old.calls_left tree.new.calls_left }
    ensures far { OnOk result (offset ≤ length (bytes_on D.Disk number tree.new.kernel)) }
    ensures hindered { IfErr result (IsHindered D.Disk (IsUnfilled number offset)
        tree.new.kernel tree.new.calls_left) }
{
    let found = look_at(alloc, tree, number)?;
    if found.size < offset {
        return fill(alloc, tree, number, found.size, offset);
    }
    Ok(())
}

// Writes bytes into a file, piece by piece. How many are left.
fn write_pieces<D: Disk>(
    alloc: Global,
    tree: &mut Tree<D>,
    number: u32,
    offset: u32,
    bytes: &[u8],
) -> Result<usize, Errno>
    requires ready { MayGoOn D.Disk tree.old.kernel tree.old.calls_left }
    requires far { offset ≤ length (bytes_on D.Disk number tree.old.kernel) }
    ensures ready { MayGoOn D.Disk tree.new.kernel tree.new.calls_left }
    ensures makes { Makes D.Disk (WritesPart number offset bytes.now) tree.old.kernel
        tree.new.kernel tree.old.calls_left tree.new.calls_left }
    ensures stands { IfOk result (λ left. (left ≤ length bytes.now) × StandsAt
        (bytes_on D.Disk number tree.new.kernel) offset bytes.now (length bytes.now - left)) }
    ensures short { IfOk result (LeavesBytes D.Disk number offset bytes.now tree.new.kernel) }
    ensures hindered { IfErr result (IsHindered D.Disk (AreUnwritten number offset bytes.now)
        tree.new.kernel tree.new.calls_left) }
{
    let mut left = bytes.len();
    for _piece in 0..bytes.len() {
        if left == 0 {
            return Ok(0);
        }
        match write_piece(alloc, tree, number, offset, bytes, bytes.len() - left)? {
            Ok(0) => return Ok(left),
            Ok(count) => left -= left.min(count as usize),
            Err(cause) => {
                if left == bytes.len() {
                    return Err(cause.into());
                }
                return Ok(left);
            }
        }
    }
    Ok(left)
}

// Writes the bytes behind so many of them, up to a block's end. How many were written.
fn write_piece<D: Disk>(
    alloc: Global,
    tree: &mut Tree<D>,
    number: u32,
    offset: u32,
    bytes: &[u8],
    done: usize,
) -> Result<Result<u32, Unwritten>, TreeFault>
    requires ready { MayGoOn D.Disk tree.old.kernel tree.old.calls_left }
    requires stands { StandsAt (bytes_on D.Disk number tree.old.kernel) offset bytes.now done }
    ensures ready { MayGoOn D.Disk tree.new.kernel tree.new.calls_left }
    ensures makes { Makes D.Disk (WritesPart number offset bytes.now) tree.old.kernel
        tree.new.kernel tree.old.calls_left tree.new.calls_left }
    ensures stands { IfOk result (λ wrote. StandsAt (bytes_on D.Disk number tree.new.kernel)
        offset bytes.now (done + wrote_count wrote)) }
    ensures part { IfOk result (WroteBehind D.Disk number offset bytes.now done tree.new.kernel) }
    ensures hindered { IfErr result (IsNotDone D.Disk (IsNoFileOrDirectory number)
        tree.new.kernel tree.new.calls_left) }
{
    let Ok(at) = u32::try_from(offset as usize + done) else {
        return Ok(Err(Unwritten::TooBig));
    };
    let room = (PIECE - at % 1024) as usize;
    let end = done + room.min(bytes.len() - done);
    write_at(alloc, tree, number, at, &bytes[done..end])
}

// Writes zeroes from a file's end up to an offset.
fn fill<D: Disk>(
    alloc: Global,
    tree: &mut Tree<D>,
    number: u32,
    from: u32,
    to: u32,
) -> Result<(), Errno>
    requires ready { MayGoOn D.Disk tree.old.kernel tree.old.calls_left }
    requires end { EndsAt D.Disk number tree.old.kernel from }
    requires low { from ≤ to }
    ensures ready { MayGoOn D.Disk tree.new.kernel tree.new.calls_left }
    ensures makes { Makes D.Disk (Lengthens number to) tree.old.kernel tree.new.kernel
        tree.old.calls_left tree.new.calls_left }
    ensures end { OnOk result (EndsAt D.Disk number tree.new.kernel to) }
    ensures hindered { IfErr result (IsHindered D.Disk (IsUnfilled number to)
        tree.new.kernel tree.new.calls_left) }
{
    let mut at = from;
    for _piece in 0..to {
        if at >= to {
            break;
        }
        at = fill_piece(alloc, tree, number, at, to)?;
    }
    Ok(())
}

// Writes zeroes behind a file's end, up to a block's end, or to that offset. Where they end.
fn fill_piece<D: Disk>(
    alloc: Global,
    tree: &mut Tree<D>,
    number: u32,
    at: u32,
    to: u32,
) -> Result<u32, Errno>
    requires ready { MayGoOn D.Disk tree.old.kernel tree.old.calls_left }
    requires some { at < to }
    requires end { EndsAt D.Disk number tree.old.kernel at }
    ensures ready { MayGoOn D.Disk tree.new.kernel tree.new.calls_left }
    ensures makes { Makes D.Disk (Lengthens number to) tree.old.kernel tree.new.kernel
        tree.old.calls_left tree.new.calls_left }
    ensures end { IfOk result (EndsAt D.Disk number tree.new.kernel) }
    ensures more { IfOk result (λ next. (at < next) × (next ≤ to)) }
    ensures hindered { IfErr result (IsHindered D.Disk (IsUnfilled number to)
        tree.new.kernel tree.new.calls_left) }
{
    let zeroes = [0u8; PIECE as usize];
    let count = (PIECE - at % 1024).min(to - at);
    match write_at(alloc, tree, number, at, &zeroes[..count as usize])? {
        Ok(0) => Err(Errno::NoSpace),
        Ok(wrote) => Ok(at + wrote.min(count)),
        Err(cause) => Err(cause.into()),
    }
}

/// Gives a file another length. A shorter one it has whole over a stop. What is new of a longer one
/// are zeroes, of which a stop may leave fewer.
pub(crate) fn resize<D: Disk>(
    alloc: Global,
    tree: &mut Tree<D>,
    number: u32,
    size: u64,
) -> Result<(), Errno>
    requires ready { MayGoOn D.Disk tree.old.kernel tree.old.calls_left }
    ensures ready { MayGoOn D.Disk tree.new.kernel tree.new.calls_left }
    ensures makes { Makes D.Disk (Resizes number size) tree.old.kernel tree.new.kernel
        tree.old.calls_left tree.new.calls_left }
    ensures end { OnOk result (EndsAt D.Disk number tree.new.kernel size) }
    ensures hindered { IfErr result (IsHindered D.Disk (IsUnresized number size)
        tree.new.kernel tree.new.calls_left) }
{
    let Ok(size) = u32::try_from(size) else {
        return Err(Errno::TooBig);
    };
    let found = look_at(alloc, tree, number)?;
    if size > found.size {
        return fill(alloc, tree, number, found.size, size);
    }
    if size == found.size {
        return Ok(());
    }
    // It has so many bytes, so it is cut.
    let _cut = cut_at(alloc, tree, number, size)?;
    Ok(())
}
