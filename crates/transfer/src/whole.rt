// Few bytes put in one transaction: all or none of them.
ghost use Rattle.std.specs.Prelude.{◌≡◌, ◌+◌, ◌<◌, ◌≤◌, ◌^◌, [], length, None, IfErr, IfOk, OnOk};
ghost use Rattle.model.specs.Layout.{form_of, greatest_size};
ghost use Rattle.model.specs.Operations.{transfer_limit};
ghost use Rattle.calls.specs.Calls.{call_count, image_on};
ghost use Rattle.calls.specs.Files.{files_on};
ghost use Rattle.calls.specs.Pairing.{IsUnmade};
ghost use Rattle.calls.specs.Transactions.{IsInside, Rests};
ghost use Rattle.transfer.specs.Midst.{HasTried, IsCleared, IsMidst, IsSame, StaysMidst, Writes};
ghost use Rattle.transfer.specs.Places.{HasOld, put_at};
ghost use Rattle.transfer.specs.Putting.{EndsPut};
ghost use Rattle.transfer.specs.Whole.{AllTo, IsUnwhole, StaysWhole, WholeTo};
ghost use Rattle.transfer.specs.declared.writing.Outcome.TheVariants as outcome;

use crate::judging::judge;
use crate::putting::tell;
use crate::refused::PutRefusal;
use crate::writing::{NEW_KIND, Outcome};
use blocks::Disk;
use calls::transactions::{Pair, TransactionFault, abandon, begin, call, commit, open_pair, still};
use messages::Meter;
use model::content::Content;
use model::types::{Op, Reply};
use std::alloc::Global;
use std::io::Write;

// Puts no more bytes than one write moves, in one transaction: `put_disk` says how.
pub fn put_few<D: Disk + Drop, P: Meter, O: Write>(
    alloc: Global,
    disk: D,
    bytes: &[u8],
    inum: Option<u32>,
    sync: bool,
    progress: &mut P,
    out: &mut O,
) -> (Result<(), PutRefusal>, D)
    requires few { length bytes.now ≤ transfer_limit }
    ensures { EndsPut D.Disk O.contents inum bytes.now sync disk result.1 result.0
        out.old out.new }
{
    let mut disk = disk;
    let _twice = match judge(alloc, &mut disk, inum, bytes.len()) {
        Ok(twice) => twice,
        Err(refusal) => return (Err(refusal), disk),
    };
    let mut kernel = match open_pair(alloc, disk) {
        Ok(kernel) => kernel,
        Err((fault, disk)) => return (Err(PutRefusal::Unopened(fault)), disk),
    };
    let put = put_once(&mut kernel, alloc, bytes, inum, progress);
    progress.ended();
    match put {
        Ok(number) => {
            let mut disk = kernel.into_disk();
            let told = tell(&mut disk, number, sync, out);
            (told, disk)
        }
        Err(refusal) => (Err(refusal), abandon(kernel)),
    }
}

// Puts bytes through a kernel, in one transaction. The number of their file.
fn put_once<D: Disk, P: Meter>(
    kernel: &mut Pair<D>,
    alloc: Global,
    bytes: &[u8],
    inum: Option<u32>,
    progress: &mut P,
) -> Result<u32, PutRefusal>
    requires few { length bytes.now ≤ transfer_limit }
    requires rests { Rests D.fault_count kernel.old }
    requires opened { (kernel.old.store.volume.device ≡ kernel.old.opening)
        × (call_count kernel.old ≤ 2 ^ 62) }
    requires there { HasOld (files_on D.image kernel.old) inum }
    requires short { length bytes.now ≤ greatest_size (form_of (image_on D.image kernel.old)) }
    ensures put { IfOk result (λ number.
        AllTo D.Disk inum bytes.now kernel.old kernel.new (outcome.Put number)) }
    ensures refused { IfErr result (IsUnwhole D.Disk inum bytes.now kernel.old kernel.new) }
    ensures stays { StaysWhole D.Disk inum bytes.now kernel.old kernel.new }
{
    match put_whole(alloc, kernel, bytes, inum) {
        Ok(Outcome::Put(number)) => {
            progress.reached(bytes.len() as u64, bytes.len() as u64, "bytes");
            Ok(number)
        }
        Ok(Outcome::NoInode) => Err(PutRefusal::NoInode),
        Ok(Outcome::Full) => Err(PutRefusal::Full),
        Err(TransactionFault::Disk(fault)) => Err(PutRefusal::Disk(fault)),
        Err(TransactionFault::NoMemory) => Err(PutRefusal::NoMemory),
        // Two calls always have room.
        Err(TransactionFault::NoRoom) => unreachable!(),
    }
}

// Puts bytes in the place of those of a file, or as those of a new one, in one transaction. Where it
// doesn't come to all of them, it isn't committed.
pub fn put_whole<D: Disk>(
    alloc: Global,
    kernel: &mut Pair<D>,
    bytes: &[u8],
    inum: Option<u32>,
) -> Result<Outcome, TransactionFault>
    requires rests { Rests D.fault_count kernel.old }
    requires opened { (kernel.old.store.volume.device ≡ kernel.old.opening)
        × (call_count kernel.old ≤ 2 ^ 62) }
    requires there { HasOld (files_on D.image kernel.old) inum }
    requires few { length bytes.now ≤ transfer_limit }
    requires short { length bytes.now ≤ greatest_size (form_of (image_on D.image kernel.old)) }
    ensures comes { IfOk result (WholeTo D.Disk inum bytes.now kernel.old kernel.new) }
    ensures refused { IfErr result (IsUnmade D.Disk kernel.old kernel.new) }
    ensures stays { StaysWhole D.Disk inum bytes.now kernel.old kernel.new }
{
    begin(alloc, kernel)?;
    let outcome = try_put(kernel, alloc, bytes, inum)?;
    if let Outcome::Put(_) = outcome {
        commit(kernel)?;
    }
    Ok(outcome)
}

// Empties the old file or makes a new one, and writes the bytes into it.
fn try_put<D: Disk>(
    kernel: &mut Pair<D>,
    alloc: Global,
    bytes: &[u8],
    inum: Option<u32>,
) -> Result<Outcome, TransactionFault>
    requires midst { IsMidst D.Disk 0 (files_on D.image kernel.old) kernel.old }
    requires there { HasOld (files_on D.image kernel.old) inum }
    requires few { length bytes.now ≤ transfer_limit }
    requires short { length bytes.now ≤ greatest_size (form_of (image_on D.image kernel.old)) }
    ensures tried { IfOk result (HasTried D.Disk inum bytes.now kernel.old kernel.new) }
    ensures inside { OnOk result (IsInside D.fault_count kernel.new
        × IsSame D.Disk kernel.old kernel.new) }
    ensures refused { IfErr result (IsUnmade D.Disk kernel.old kernel.new) }
    ensures stays { StaysMidst D.Disk kernel.old kernel.new }
{
    let Some(number) = clear(kernel, inum)? else {
        return Ok(Outcome::NoInode);
    };
    if write_first(kernel, alloc, number, bytes)? {
        Ok(Outcome::Put(number))
    } else {
        Ok(Outcome::Full)
    }
}

// Empties the old file, or makes a new one. None where each number is taken.
fn clear<D: Disk>(kernel: &mut Pair<D>, inum: Option<u32>) -> Result<Option<u32>, TransactionFault>
    requires midst { IsMidst D.Disk 0 (files_on D.image kernel.old) kernel.old }
    requires there { HasOld (files_on D.image kernel.old) inum }
    ensures cleared { IfOk result (IsCleared D.Disk inum kernel.old kernel.new) }
    ensures inside { OnOk result (IsInside D.fault_count kernel.new
        × IsSame D.Disk kernel.old kernel.new) }
    ensures refused { IfErr result (IsUnmade D.Disk kernel.old kernel.new) }
    ensures stays { StaysMidst D.Disk kernel.old kernel.new }
{
    match inum {
        Some(number) => {
            let Reply::Done = call(kernel, Op::Trunc(number))? else {
                unreachable!()
            };
            Ok(Some(number))
        }
        None => create(kernel),
    }
}

// Makes an empty file. None where each number is taken.
fn create<D: Disk>(kernel: &mut Pair<D>) -> Result<Option<u32>, TransactionFault>
    requires midst { IsMidst D.Disk 0 (files_on D.image kernel.old) kernel.old }
    ensures created { IfOk result (IsCleared D.Disk None kernel.old kernel.new) }
    ensures inside { OnOk result (IsInside D.fault_count kernel.new
        × IsSame D.Disk kernel.old kernel.new) }
    ensures refused { IfErr result (IsUnmade D.Disk kernel.old kernel.new) }
    ensures stays { StaysMidst D.Disk kernel.old kernel.new }
{
    match call(kernel, Op::Create(NEW_KIND))? {
        Reply::Made(number) => Ok(Some(number)),
        Reply::NoInode => Ok(None),
        _ => unreachable!(),
    }
}

// Writes the bytes of a file, which is empty. False where no block was free for all.
fn write_first<D: Disk>(
    kernel: &mut Pair<D>,
    alloc: Global,
    i: u32,
    bytes: &[u8],
) -> Result<bool, TransactionFault>
    requires midst { IsMidst D.Disk 1 (put_at (files_on D.image kernel.old) i []) kernel.old }
    requires below { i < length (files_on D.image kernel.old) }
    requires few { length bytes.now ≤ transfer_limit }
    requires short { length bytes.now ≤ greatest_size (form_of (image_on D.image kernel.old)) }
    ensures writes { IfOk result (Writes D.Disk i bytes.now kernel.old kernel.new) }
    ensures inside { OnOk result (IsInside D.fault_count kernel.new
        × IsSame D.Disk kernel.old kernel.new) }
    ensures refused { IfErr result (IsUnmade D.Disk kernel.old kernel.new) }
    ensures stays { StaysMidst D.Disk kernel.old kernel.new }
{
    still(kernel);
    let Ok(content) = Content::copy_of(alloc, bytes) else {
        return Err(TransactionFault::NoMemory);
    };
    let Reply::Wrote(count) = call(kernel, Op::Write(i, 0, content))? else {
        unreachable!()
    };
    Ok(count as usize == bytes.len())
}
