// Changes of files, each in a transaction of its own. Each is made whole or not at all, whenever a stop
// comes.
ghost use Rattle.std.specs.Prelude.{◌≢◌, ◌+◌, ◌*◌, ◌<◌, ◌≤◌, ◌^◌, length, None, IsTrue, IfOk, IfErr, OnOk};
ghost use Rattle.model.specs.Files.{file_in};
ghost use Rattle.model.specs.Layout.{form_of};
ghost use Rattle.model.specs.Operations.{is_kind, transfer_limit};
ghost use Rattle.calls.specs.Answered.{IsCommitted};
ghost use Rattle.calls.specs.Calls.{call_count, image_on};
ghost use Rattle.calls.specs.Files.{Appends, Creates, HasBytes, MayAppend, MayAppendTwo, files_on};
ghost use Rattle.calls.specs.Pairing.{IsUnmade};
ghost use Rattle.calls.specs.Stepping.{IsReached};
ghost use Rattle.calls.specs.Stopped.{AppendsFirst, Empties, LeavesChange, MakesAny, Relinks, Removes, Resizes, StaysOver};
ghost use Rattle.calls.specs.Transactions.{Rests};

use crate::transactions::beginning::{Pair, begin};
use crate::transactions::calling::call;
use crate::transactions::committing::commit;
use crate::transactions::fault::TransactionFault;
use crate::transactions::making::make_one;
use crate::transactions::resting::rested;
use blocks::Disk;
use model::content::Content;
use model::types::{Attribute, Op, Reply, TRANSFER_LIMIT};
use std::alloc::Global;

/// Makes an empty file of this type at the lowest free number, which it answers; none where each
/// number is taken.
///
/// # Errors
///
/// Those of `make_one`.
pub fn create<D: Disk>(
    alloc: Global,
    kernel: &mut Pair<D>,
    kind: u16,
) -> Result<Option<u32>, TransactionFault>
    requires rests { Rests D.fault_count kernel.old }
    requires few { call_count kernel.old + 2 < 2 ^ 63 }
    requires kind { IsTrue (is_kind kind) }
    ensures creates { IfOk result (λ made.
        Creates kind made (files_on D.image kernel.old) (files_on D.image kernel.new)) }
    ensures committed { OnOk result (IsCommitted D.Disk 2 kernel.old kernel.new) }
    ensures refused { IfErr result (IsUnmade D.Disk kernel.old kernel.new) }
    ensures leaves { LeavesChange D.Disk (MakesAny kind) kernel.old kernel.new }
    ensures stays { StaysOver D.Disk kernel.old kernel.new }
    ensures reached { IsReached D.Disk kernel.old kernel.new }
{
    match make_one(alloc, kernel, Op::Create(kind))? {
        Reply::Made(number) => Ok(Some(number)),
        Reply::NoInode => Ok(None),
        _ => unreachable!(),
    }
}

/// Gives up the bytes of a file and its number.
///
/// # Errors
///
/// Those of `make_one`.
pub fn remove<D: Disk>(alloc: Global, kernel: &mut Pair<D>, i: u32) -> Result<(), TransactionFault>
    requires rests { Rests D.fault_count kernel.old }
    requires few { call_count kernel.old + 2 < 2 ^ 63 }
    requires there { file_in (files_on D.image kernel.old) i ≢ None }
    ensures removes { OnOk result
        (Removes i (files_on D.image kernel.old) (files_on D.image kernel.new)) }
    ensures committed { OnOk result (IsCommitted D.Disk 2 kernel.old kernel.new) }
    ensures refused { IfErr result (IsUnmade D.Disk kernel.old kernel.new) }
    ensures leaves { LeavesChange D.Disk (Removes i) kernel.old kernel.new }
    ensures stays { StaysOver D.Disk kernel.old kernel.new }
    ensures reached { IsReached D.Disk kernel.old kernel.new }
{
    let Reply::Done = make_one(alloc, kernel, Op::Remove(i))? else {
        unreachable!()
    };
    Ok(())
}

/// Gives up the bytes of a file.
///
/// # Errors
///
/// Those of `make_one`.
pub fn empty<D: Disk>(alloc: Global, kernel: &mut Pair<D>, i: u32) -> Result<(), TransactionFault>
    requires rests { Rests D.fault_count kernel.old }
    requires few { call_count kernel.old + 2 < 2 ^ 63 }
    requires there { file_in (files_on D.image kernel.old) i ≢ None }
    ensures empties { OnOk result
        (Empties i (files_on D.image kernel.old) (files_on D.image kernel.new)) }
    ensures committed { OnOk result (IsCommitted D.Disk 2 kernel.old kernel.new) }
    ensures refused { IfErr result (IsUnmade D.Disk kernel.old kernel.new) }
    ensures leaves { LeavesChange D.Disk (Empties i) kernel.old kernel.new }
    ensures stays { StaysOver D.Disk kernel.old kernel.new }
    ensures reached { IsReached D.Disk kernel.old kernel.new }
{
    let Reply::Done = make_one(alloc, kernel, Op::Trunc(i))? else {
        unreachable!()
    };
    Ok(())
}

/// Gives a file that many links. Its bytes stay, and with no link, too, it is there.
///
/// # Errors
///
/// Those of `make_one`.
pub fn set_links<D: Disk>(
    alloc: Global,
    kernel: &mut Pair<D>,
    i: u32,
    count: u16,
) -> Result<(), TransactionFault>
    requires rests { Rests D.fault_count kernel.old }
    requires few { call_count kernel.old + 2 < 2 ^ 63 }
    requires there { file_in (files_on D.image kernel.old) i ≢ None }
    ensures relinks { OnOk result
        (Relinks i count (files_on D.image kernel.old) (files_on D.image kernel.new)) }
    ensures committed { OnOk result (IsCommitted D.Disk 2 kernel.old kernel.new) }
    ensures refused { IfErr result (IsUnmade D.Disk kernel.old kernel.new) }
    ensures leaves { LeavesChange D.Disk (Relinks i count) kernel.old kernel.new }
    ensures stays { StaysOver D.Disk kernel.old kernel.new }
    ensures reached { IsReached D.Disk kernel.old kernel.new }
{
    let Reply::Done = make_one(alloc, kernel, Op::SetAttribute(i, Attribute::Links(count)))? else {
        unreachable!()
    };
    Ok(())
}

/// Cuts a file to its first `size` bytes, which are no more than it has. The blocks behind them stay
/// its own until it is emptied or removed.
///
/// # Errors
///
/// Those of `make_one`.
pub fn resize<D: Disk>(
    alloc: Global,
    kernel: &mut Pair<D>,
    i: u32,
    size: u32,
) -> Result<(), TransactionFault>
    requires rests { Rests D.fault_count kernel.old }
    requires few { call_count kernel.old + 2 < 2 ^ 63 }
    requires within { HasBytes (file_in (files_on D.image kernel.old) i) size }
    ensures resizes { OnOk result
        (Resizes i size (files_on D.image kernel.old) (files_on D.image kernel.new)) }
    ensures committed { OnOk result (IsCommitted D.Disk 2 kernel.old kernel.new) }
    ensures refused { IfErr result (IsUnmade D.Disk kernel.old kernel.new) }
    ensures leaves { LeavesChange D.Disk (Resizes i size) kernel.old kernel.new }
    ensures stays { StaysOver D.Disk kernel.old kernel.new }
    ensures reached { IsReached D.Disk kernel.old kernel.new }
{
    let Reply::Done = make_one(alloc, kernel, Op::SetAttribute(i, Attribute::Size(size)))? else {
        unreachable!()
    };
    Ok(())
}

/// Writes bytes behind those of a file, whose length is `off`: as many as two writes move, in one
/// transaction. False where fewer were written than these, since no block was free.
///
/// # Errors
///
/// Those of `make_one`; `NoMemory` also where memory for a copy of the bytes was refused.
pub fn append<D: Disk>(
    alloc: Global,
    kernel: &mut Pair<D>,
    i: u32,
    off: u32,
    bytes: &[u8],
) -> Result<bool, TransactionFault>
    requires rests { Rests D.fault_count kernel.old }
    requires few { call_count kernel.old + 3 < 2 ^ 63 }
    requires room { MayAppendTwo (form_of (image_on D.image kernel.old))
        (file_in (files_on D.image kernel.old) i) off (length bytes.now) }
    ensures appends { IfOk result (λ all.
        Appends all i bytes.now (image_on D.image kernel.old) (image_on D.image kernel.new)) }
    ensures committed { OnOk result (IsCommitted D.Disk 3 kernel.old kernel.new) }
    ensures refused { IfErr result (IsUnmade D.Disk kernel.old kernel.new) }
    ensures leaves { LeavesChange D.Disk (AppendsFirst i bytes.now) kernel.old kernel.new }
    ensures stays { StaysOver D.Disk kernel.old kernel.new }
    ensures reached { IsReached D.Disk kernel.old kernel.new }
{
    if bytes.len() > TRANSFER_LIMIT as usize {
        append_two(alloc, kernel, i, off, bytes)
    } else {
        append_one(alloc, kernel, i, off, bytes)
    }
}

// Appends no more bytes than one write moves.
fn append_one<D: Disk>(
    alloc: Global,
    kernel: &mut Pair<D>,
    i: u32,
    off: u32,
    bytes: &[u8],
) -> Result<bool, TransactionFault>
    requires rests { Rests D.fault_count kernel.old }
    requires few { call_count kernel.old + 2 < 2 ^ 63 }
    requires room { MayAppend (form_of (image_on D.image kernel.old))
        (file_in (files_on D.image kernel.old) i) off (length bytes.now) }
    ensures appends { IfOk result (λ all.
        Appends all i bytes.now (image_on D.image kernel.old) (image_on D.image kernel.new)) }
    ensures committed { OnOk result (IsCommitted D.Disk 2 kernel.old kernel.new) }
    ensures refused { IfErr result (IsUnmade D.Disk kernel.old kernel.new) }
    ensures leaves { LeavesChange D.Disk (AppendsFirst i bytes.now) kernel.old kernel.new }
    ensures stays { StaysOver D.Disk kernel.old kernel.new }
    ensures reached { IsReached D.Disk kernel.old kernel.new }
{
    rested(kernel);
    let Ok(content) = Content::copy_of(alloc, bytes) else {
        return Err(TransactionFault::NoMemory);
    };
    let Reply::Wrote(count) = make_one(alloc, kernel, Op::Write(i, off, content))? else {
        unreachable!()
    };
    Ok(count as usize == bytes.len())
}

// Appends more bytes than one write moves. Where the first write finds no block free, there is no
// second one.
fn append_two<D: Disk>(
    alloc: Global,
    kernel: &mut Pair<D>,
    i: u32,
    off: u32,
    bytes: &[u8],
) -> Result<bool, TransactionFault>
    requires rests { Rests D.fault_count kernel.old }
    requires few { call_count kernel.old + 3 < 2 ^ 63 }
    requires more { transfer_limit < length bytes.now }
    requires room { MayAppendTwo (form_of (image_on D.image kernel.old))
        (file_in (files_on D.image kernel.old) i) off (length bytes.now) }
    ensures appends { IfOk result (λ all.
        Appends all i bytes.now (image_on D.image kernel.old) (image_on D.image kernel.new)) }
    ensures committed { OnOk result (IsCommitted D.Disk 3 kernel.old kernel.new) }
    ensures refused { IfErr result (IsUnmade D.Disk kernel.old kernel.new) }
    ensures leaves { LeavesChange D.Disk (AppendsFirst i bytes.now) kernel.old kernel.new }
    ensures stays { StaysOver D.Disk kernel.old kernel.new }
    ensures reached { IsReached D.Disk kernel.old kernel.new }
{
    rested(kernel);
    let (first, second) = bytes.split_at(TRANSFER_LIMIT as usize);
    let Ok(one) = Content::copy_of(alloc, first) else {
        return Err(TransactionFault::NoMemory);
    };
    let Ok(two) = Content::copy_of(alloc, second) else {
        return Err(TransactionFault::NoMemory);
    };
    begin(alloc, kernel)?;
    let Reply::Wrote(count) = call(kernel, Op::Write(i, off, one))? else {
        unreachable!()
    };
    if count < TRANSFER_LIMIT {
        commit(kernel)?;
        return Ok(false);
    }
    let Reply::Wrote(count) = call(kernel, Op::Write(i, off + TRANSFER_LIMIT, two))? else {
        unreachable!()
    };
    commit(kernel)?;
    Ok(count as usize == second.len())
}
