// Changes of files by calls of a kernel's only process. Each is made whole or not at all, whenever a
// stop comes.
ghost use Rattle.std.specs.Prelude.{◌≢◌, ◌<◌, ◌^◌, length, None, IsTrue, IfOk, IfErr, OnOk};
ghost use Rattle.model.specs.Files.{file_in};
ghost use Rattle.model.specs.Layout.{form_of};
ghost use Rattle.model.specs.Operations.{is_kind};
ghost use Rattle.calls.specs.Calls.{IsUncalled, Rests, call_count, image_on};
ghost use Rattle.calls.specs.Files.{Appends, Creates, HasBytes, MayAppend, files_on};
ghost use Rattle.calls.specs.Answered.{IsAnswered};
ghost use Rattle.calls.specs.Stepping.{IsReached};
ghost use Rattle.calls.specs.Stopped.{AppendsFirst, Empties, LeavesChange, MakesAny, Relinks, Removes, Resizes, StaysOver};

use crate::calling::{Sole, call};
use crate::fault::CallFault;
use crate::resting::rested;
use blocks::Disk;
use model::content::Content;
use model::types::{Attribute, Op, Reply};
use std::alloc::Global;

/// Makes an empty file of this type at the lowest free number, which it answers; none where each
/// number is taken.
///
/// # Errors
///
/// Those of `call`.
pub fn create<D: Disk>(kernel: &mut Sole<D>, kind: u16) -> Result<Option<u32>, CallFault>
    requires rests { Rests D.fault_count kernel.old }
    requires few { call_count kernel.old < 2 ^ 63 }
    requires kind { IsTrue (is_kind kind) }
    ensures creates { IfOk result (λ made.
        Creates kind made (files_on D.image kernel.old) (files_on D.image kernel.new)) }
    ensures answered { OnOk result (IsAnswered D.Disk kernel.old kernel.new) }
    ensures refused { IfErr result (IsUncalled D.Disk kernel.old kernel.new) }
    ensures leaves { LeavesChange D.Disk (MakesAny kind) kernel.old kernel.new }
    ensures stays { StaysOver D.Disk kernel.old kernel.new }
    ensures reached { IsReached D.Disk kernel.old kernel.new }
{
    match call(kernel, Op::Create(kind))? {
        Reply::Made(number) => Ok(Some(number)),
        Reply::NoInode => Ok(None),
        _ => unreachable!(),
    }
}

/// Gives up the bytes of a file and its number.
///
/// # Errors
///
/// Those of `call`.
pub fn remove<D: Disk>(kernel: &mut Sole<D>, i: u32) -> Result<(), CallFault>
    requires rests { Rests D.fault_count kernel.old }
    requires few { call_count kernel.old < 2 ^ 63 }
    requires there { file_in (files_on D.image kernel.old) i ≢ None }
    ensures removes { OnOk result
        (Removes i (files_on D.image kernel.old) (files_on D.image kernel.new)) }
    ensures answered { OnOk result (IsAnswered D.Disk kernel.old kernel.new) }
    ensures refused { IfErr result (IsUncalled D.Disk kernel.old kernel.new) }
    ensures leaves { LeavesChange D.Disk (Removes i) kernel.old kernel.new }
    ensures stays { StaysOver D.Disk kernel.old kernel.new }
    ensures reached { IsReached D.Disk kernel.old kernel.new }
{
    let Reply::Done = call(kernel, Op::Remove(i))? else {
        unreachable!()
    };
    Ok(())
}

/// Gives up the bytes of a file.
///
/// # Errors
///
/// Those of `call`.
pub fn empty<D: Disk>(kernel: &mut Sole<D>, i: u32) -> Result<(), CallFault>
    requires rests { Rests D.fault_count kernel.old }
    requires few { call_count kernel.old < 2 ^ 63 }
    requires there { file_in (files_on D.image kernel.old) i ≢ None }
    ensures empties { OnOk result
        (Empties i (files_on D.image kernel.old) (files_on D.image kernel.new)) }
    ensures answered { OnOk result (IsAnswered D.Disk kernel.old kernel.new) }
    ensures refused { IfErr result (IsUncalled D.Disk kernel.old kernel.new) }
    ensures leaves { LeavesChange D.Disk (Empties i) kernel.old kernel.new }
    ensures stays { StaysOver D.Disk kernel.old kernel.new }
    ensures reached { IsReached D.Disk kernel.old kernel.new }
{
    let Reply::Done = call(kernel, Op::Trunc(i))? else {
        unreachable!()
    };
    Ok(())
}

/// Gives a file that many links. Its bytes stay, and with no link, too, it is there.
///
/// # Errors
///
/// Those of `call`.
pub fn set_links<D: Disk>(kernel: &mut Sole<D>, i: u32, count: u16) -> Result<(), CallFault>
    requires rests { Rests D.fault_count kernel.old }
    requires few { call_count kernel.old < 2 ^ 63 }
    requires there { file_in (files_on D.image kernel.old) i ≢ None }
    ensures relinks { OnOk result
        (Relinks i count (files_on D.image kernel.old) (files_on D.image kernel.new)) }
    ensures answered { OnOk result (IsAnswered D.Disk kernel.old kernel.new) }
    ensures refused { IfErr result (IsUncalled D.Disk kernel.old kernel.new) }
    ensures leaves { LeavesChange D.Disk (Relinks i count) kernel.old kernel.new }
    ensures stays { StaysOver D.Disk kernel.old kernel.new }
    ensures reached { IsReached D.Disk kernel.old kernel.new }
{
    let Reply::Done = call(kernel, Op::SetAttribute(i, Attribute::Links(count)))? else {
        unreachable!()
    };
    Ok(())
}

/// Cuts a file to its first `size` bytes, which are no more than it has. The blocks behind them stay
/// its own until it is emptied or removed.
///
/// # Errors
///
/// Those of `call`.
pub fn resize<D: Disk>(kernel: &mut Sole<D>, i: u32, size: u32) -> Result<(), CallFault>
    requires rests { Rests D.fault_count kernel.old }
    requires few { call_count kernel.old < 2 ^ 63 }
    requires within { HasBytes (file_in (files_on D.image kernel.old) i) size }
    ensures resizes { OnOk result
        (Resizes i size (files_on D.image kernel.old) (files_on D.image kernel.new)) }
    ensures answered { OnOk result (IsAnswered D.Disk kernel.old kernel.new) }
    ensures refused { IfErr result (IsUncalled D.Disk kernel.old kernel.new) }
    ensures leaves { LeavesChange D.Disk (Resizes i size) kernel.old kernel.new }
    ensures stays { StaysOver D.Disk kernel.old kernel.new }
    ensures reached { IsReached D.Disk kernel.old kernel.new }
{
    let Reply::Done = call(kernel, Op::SetAttribute(i, Attribute::Size(size)))? else {
        unreachable!()
    };
    Ok(())
}

/// Writes bytes behind those of a file, whose length is `off`. False where fewer were written than
/// these, since no block was free.
///
/// # Errors
///
/// Those of `call`; `NoMemory` also where memory for a copy of the bytes was refused.
pub fn append<D: Disk>(
    kernel: &mut Sole<D>,
    alloc: Global,
    i: u32,
    off: u32,
    bytes: &[u8],
) -> Result<bool, CallFault>
    requires rests { Rests D.fault_count kernel.old }
    requires few { call_count kernel.old < 2 ^ 63 }
    requires room { MayAppend (form_of (image_on D.image kernel.old))
        (file_in (files_on D.image kernel.old) i) off (length bytes.now) }
    ensures appends { IfOk result (λ all.
        Appends all i bytes.now (image_on D.image kernel.old) (image_on D.image kernel.new)) }
    ensures answered { OnOk result (IsAnswered D.Disk kernel.old kernel.new) }
    ensures refused { IfErr result (IsUncalled D.Disk kernel.old kernel.new) }
    ensures leaves { LeavesChange D.Disk (AppendsFirst i bytes.now) kernel.old kernel.new }
    ensures stays { StaysOver D.Disk kernel.old kernel.new }
    ensures reached { IsReached D.Disk kernel.old kernel.new }
{
    rested(kernel);
    let Ok(content) = Content::copy_of(alloc, bytes) else {
        return Err(CallFault::NoMemory);
    };
    let Reply::Wrote(count) = call(kernel, Op::Write(i, off, content))? else {
        unreachable!()
    };
    Ok(count as usize == bytes.len())
}
