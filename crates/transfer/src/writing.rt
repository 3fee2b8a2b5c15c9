// Calls that put bytes.
ghost use Rattle.std.specs.Prelude.{◌≡◌, ◌≢◌, ◌+◌, ◌<◌, ◌≤◌, ◌^◌, length, true, None, Some, IfErr, IfOk, OnOk};
ghost use Rattle.model.specs.Files.{file_in};
ghost use Rattle.model.specs.Layout.{form_of, greatest_size};
ghost use Rattle.calls.specs.Calls.{call_count, image_on};
ghost use Rattle.calls.specs.Files.{files_on, size_of};
ghost use Rattle.transfer.specs.Places.{HasOld};
ghost use Rattle.transfer.specs.Stopped.{StaysPlace, StaysPut};
ghost use Rattle.transfer.specs.PutWriting.{AreAnswered, Comes, IsCutOff, IsPutCutOff, MayCall, PutComes, Puts};

use blocks::Disk;
use calls::transactions::{Pair, TransactionFault, append, create, empty, remove, rested};
use messages::Meter;
use model::types::TRANSFER_LIMIT;
use std::alloc::Global;

// The type of a new file.
pub const NEW_KIND: u16 = 2;

// The most bytes of a piece: two writes move them, in one transaction.
const PIECE: usize = 2 * TRANSFER_LIMIT as usize;

// What the calls came to.
#[derive(Clone, Copy)]
pub enum Outcome {
    // All bytes were put at this number.
    Put(u32),
    // Each number is taken.
    NoInode,
    // No block was free for all bytes.
    Full,
}

// Puts bytes in the place of those of a file, or as those of a new one. `twice` says whether there is
// room for them in a new file, and then beside it in the old one.
pub fn put_bytes<D: Disk, P: Meter>(
    alloc: Global,
    kernel: &mut Pair<D>,
    bytes: &[u8],
    inum: Option<u32>,
    twice: bool,
    progress: &mut P,
) -> Result<Outcome, TransactionFault>
    requires ready { MayCall D.Disk (2 ^ 62) kernel.old }
    requires there { HasOld (files_on D.image kernel.old) inum }
    requires short { length bytes.now ≤ greatest_size (form_of (image_on D.image kernel.old)) }
    ensures comes { IfOk result (PutComes twice (image_on D.image kernel.old) inum bytes.now
        (image_on D.image kernel.new)) }
    ensures answered { OnOk result (AreAnswered D.Disk kernel.old kernel.new) }
    ensures refused { IfErr result (IsPutCutOff twice D.Disk inum bytes.now
        kernel.old kernel.new) }
    ensures stays { StaysPut D.Disk twice (image_on D.image kernel.old) inum bytes.now
        kernel.old kernel.new }
{
    match inum {
        Some(number) => {
            if twice {
                go_round(kernel, alloc, number, bytes, progress)
            } else {
                replace(alloc, kernel, bytes, number, progress)
            }
        }
        None => add(alloc, kernel, bytes, progress),
    }
}

// Puts bytes in the place of those of a file by way of a new one: that gets all of them before the
// old one is emptied, and is removed once the old one has them, too. Where each number is taken
// there is no way round.
fn go_round<D: Disk, P: Meter>(
    kernel: &mut Pair<D>,
    alloc: Global,
    number: u32,
    bytes: &[u8],
    progress: &mut P,
) -> Result<Outcome, TransactionFault>
    requires ready { MayCall D.Disk (2 ^ 62) kernel.old }
    requires there { file_in (files_on D.image kernel.old) number ≢ None }
    requires short { length bytes.now ≤ greatest_size (form_of (image_on D.image kernel.old)) }
    ensures comes { IfOk result (PutComes true (image_on D.image kernel.old) (Some number)
        bytes.now (image_on D.image kernel.new)) }
    ensures answered { OnOk result (AreAnswered D.Disk kernel.old kernel.new) }
    ensures refused { IfErr result (IsPutCutOff true D.Disk (Some number) bytes.now
        kernel.old kernel.new) }
    ensures stays { StaysPut D.Disk true (image_on D.image kernel.old) (Some number) bytes.now
        kernel.old kernel.new }
{
    let spare = match add(alloc, kernel, bytes, progress)? {
        Outcome::Put(spare) => spare,
        Outcome::NoInode => return replace(alloc, kernel, bytes, number, progress),
        Outcome::Full => return Ok(Outcome::Full),
    };
    if !refill(alloc, kernel, bytes, number, progress)? {
        return Ok(Outcome::Full);
    }
    remove(alloc, kernel, spare)?;
    Ok(Outcome::Put(number))
}

// Puts bytes as those of a new file, which is removed again where no block is free for all.
fn add<D: Disk, P: Meter>(
    alloc: Global,
    kernel: &mut Pair<D>,
    bytes: &[u8],
    progress: &mut P,
) -> Result<Outcome, TransactionFault>
    requires ready { MayCall D.Disk (2 ^ 62) kernel.old }
    requires short { length bytes.now ≤ greatest_size (form_of (image_on D.image kernel.old)) }
    ensures comes { IfOk result (Comes (image_on D.image kernel.old) None bytes.now
        (image_on D.image kernel.new)) }
    ensures answered { OnOk result (AreAnswered D.Disk kernel.old kernel.new) }
    ensures few { OnOk result (call_count kernel.new ≤ 2 ^ 62 + 2 ^ 17) }
    ensures refused { IfErr result (IsCutOff D.Disk None bytes.now
        kernel.old kernel.new) }
    ensures stays { StaysPlace D.Disk (image_on D.image kernel.old) None bytes.now
        kernel.old kernel.new }
{
    let Some(number) = create(alloc, kernel, NEW_KIND)? else {
        return Ok(Outcome::NoInode);
    };
    if append_all(kernel, alloc, number, bytes, progress)? {
        return Ok(Outcome::Put(number));
    }
    remove(alloc, kernel, number)?;
    Ok(Outcome::Full)
}

// Puts bytes in the place of those of a file.
fn replace<D: Disk, P: Meter>(
    alloc: Global,
    kernel: &mut Pair<D>,
    bytes: &[u8],
    number: u32,
    progress: &mut P,
) -> Result<Outcome, TransactionFault>
    requires ready { MayCall D.Disk (2 ^ 62 + 2 ^ 17) kernel.old }
    requires there { file_in (files_on D.image kernel.old) number ≢ None }
    requires short { length bytes.now ≤ greatest_size (form_of (image_on D.image kernel.old)) }
    ensures comes { IfOk result (Comes (image_on D.image kernel.old) (Some number) bytes.now
        (image_on D.image kernel.new)) }
    ensures answered { OnOk result (AreAnswered D.Disk kernel.old kernel.new) }
    ensures refused { IfErr result (IsCutOff D.Disk (Some number) bytes.now
        kernel.old kernel.new) }
    ensures stays { StaysPlace D.Disk (image_on D.image kernel.old) (Some number) bytes.now
        kernel.old kernel.new }
{
    if refill(alloc, kernel, bytes, number, progress)? {
        Ok(Outcome::Put(number))
    } else {
        Ok(Outcome::Full)
    }
}

// Empties a file, and puts bytes into it. False where no block was free for all.
fn refill<D: Disk, P: Meter>(
    alloc: Global,
    kernel: &mut Pair<D>,
    bytes: &[u8],
    number: u32,
    progress: &mut P,
) -> Result<bool, TransactionFault>
    requires ready { MayCall D.Disk (2 ^ 62 + 2 ^ 17) kernel.old }
    requires there { file_in (files_on D.image kernel.old) number ≢ None }
    requires short { length bytes.now ≤ greatest_size (form_of (image_on D.image kernel.old)) }
    ensures puts { IfOk result (λ all. Puts all number bytes.now (image_on D.image kernel.old)
        (image_on D.image kernel.new)) }
    ensures answered { OnOk result (AreAnswered D.Disk kernel.old kernel.new) }
    ensures few { OnOk result (call_count kernel.new + 2 < 2 ^ 63) }
    ensures refused { IfErr result (IsCutOff D.Disk (Some number) bytes.now
        kernel.old kernel.new) }
    ensures stays { StaysPlace D.Disk (image_on D.image kernel.old) (Some number) bytes.now
        kernel.old kernel.new }
{
    empty(alloc, kernel, number)?;
    append_all(kernel, alloc, number, bytes, progress)
}

// Writes bytes into an empty file, piece by piece. False where no block was free for all.
fn append_all<D: Disk, P: Meter>(
    kernel: &mut Pair<D>,
    alloc: Global,
    number: u32,
    bytes: &[u8],
    progress: &mut P,
) -> Result<bool, TransactionFault>
    requires ready { MayCall D.Disk (2 ^ 62 + 2 ^ 18) kernel.old }
    requires empty { size_of (file_in (files_on D.image kernel.old) number) ≡ Some 0 }
    requires short { length bytes.now ≤ greatest_size (form_of (image_on D.image kernel.old)) }
    ensures puts { IfOk result (λ all. Puts all number bytes.now (image_on D.image kernel.old)
        (image_on D.image kernel.new)) }
    ensures answered { OnOk result (AreAnswered D.Disk kernel.old kernel.new) }
    ensures few { OnOk result (call_count kernel.new ≤ call_count kernel.old + 2 ^ 16) }
    ensures refused { IfErr result (IsCutOff D.Disk (Some number) bytes.now
        kernel.old kernel.new) }
    ensures stays { StaysPlace D.Disk (image_on D.image kernel.old) (Some number) bytes.now
        kernel.old kernel.new }
{
    rested(kernel);
    for piece in 0..bytes.len().div_ceil(PIECE) {
        let from = piece * PIECE;
        let to = (from + PIECE).min(bytes.len());
        if !append(alloc, kernel, number, from as u32, &bytes[from..to])? {
            return Ok(false);
        }
        progress.reached(to as u64, bytes.len() as u64, "bytes");
    }
    Ok(true)
}
