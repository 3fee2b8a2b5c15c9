// Many bytes put into an image.
ghost use Rattle.std.specs.Prelude.{◌≡◌, ◌<◌, ◌≤◌, ◌^◌, IfErr, IfOk, OnOk, length};
ghost use Rattle.std.specs.Io.KnownBytes.{Appends};
ghost use Rattle.blocks.specs.Disk.{AddsNone};
ghost use Rattle.messages.specs.Output.{number_text};
ghost use Rattle.model.specs.Layout.{form_of, greatest_size};
ghost use Rattle.model.specs.Operations.{transfer_limit};
ghost use Rattle.calls.specs.Calls.{image_on};
ghost use Rattle.calls.specs.Files.{files_on};
ghost use Rattle.transfer.specs.Places.{HasOld};
ghost use Rattle.transfer.specs.Ending.{SyncsIf};
ghost use Rattle.transfer.specs.Putting.{EndsPut, IsUntold};
ghost use Rattle.transfer.specs.Stopped.{StaysPut};
ghost use Rattle.transfer.specs.PutWriting.{CallsTo, IsUnwritten, MayCall};
ghost use Rattle.transfer.specs.declared.writing.Outcome.TheVariants as outcome;

use crate::ending::sync_if;
use crate::judging::judge;
use crate::refused::PutRefusal;
use crate::writing::{Outcome, put_bytes};
use blocks::Disk;
use calls::transactions::{Pair, TransactionFault, open_pair};
use messages::{Meter, print_number};
use std::alloc::Global;
use std::io::Write;
use wal::DeviceFault;

// Puts more bytes than one write moves, in several transactions: `put_disk` says how.
pub fn put_long<D: Disk + Drop, P: Meter, O: Write>(
    alloc: Global,
    disk: D,
    bytes: &[u8],
    inum: Option<u32>,
    sync: bool,
    progress: &mut P,
    out: &mut O,
) -> (Result<(), PutRefusal>, D)
    requires many { transfer_limit < length bytes.now }
    ensures { EndsPut D.Disk O.contents inum bytes.now sync disk result.1 result.0
        out.old out.new }
{
    let mut disk = disk;
    let twice = match judge(alloc, &mut disk, inum, bytes.len()) {
        Ok(twice) => twice,
        Err(refusal) => return (Err(refusal), disk),
    };
    let mut kernel = match open_pair(alloc, disk) {
        Ok(kernel) => kernel,
        Err((fault, disk)) => return (Err(PutRefusal::Unopened(fault)), disk),
    };
    let put = put(&mut kernel, alloc, bytes, inum, twice, progress);
    progress.ended();
    match put {
        Ok(number) => {
            let mut disk = kernel.into_disk();
            let told = tell(&mut disk, number, sync, out);
            (told, disk)
        }
        Err(refusal) => (Err(refusal), kernel.into_disk()),
    }
}

// Puts bytes through a kernel, over a file by way of a new one where there is room `twice`. The number of
// their file.
fn put<D: Disk, P: Meter>(
    kernel: &mut Pair<D>,
    alloc: Global,
    bytes: &[u8],
    inum: Option<u32>,
    twice: bool,
    progress: &mut P,
) -> Result<u32, PutRefusal>
    requires ready { MayCall D.Disk (2 ^ 62) kernel.old }
    requires there { HasOld (files_on D.image kernel.old) inum }
    requires short { length bytes.now ≤ greatest_size (form_of (image_on D.image kernel.old)) }
    ensures put { IfOk result (λ number. CallsTo twice D.Disk inum bytes.now
        kernel.old kernel.new (outcome.Put number)) }
    ensures refused { IfErr result (IsUnwritten twice D.Disk inum bytes.now
        kernel.old kernel.new) }
    ensures stays { StaysPut D.Disk twice (image_on D.image kernel.old) inum bytes.now
        kernel.old kernel.new }
{
    match put_bytes(alloc, kernel, bytes, inum, twice, progress) {
        Ok(Outcome::Put(number)) => Ok(number),
        Ok(Outcome::NoInode) => Err(PutRefusal::NoInode),
        Ok(Outcome::Full) => Err(PutRefusal::Full),
        Err(TransactionFault::Disk(fault)) => Err(PutRefusal::Disk(fault)),
        Err(TransactionFault::NoMemory) => Err(PutRefusal::NoMemory),
        // Two calls always have room.
        Err(TransactionFault::NoRoom) => unreachable!(),
    }
}

// Syncs a disk on which bytes were put, where that is asked for, and prints the number of their file.
pub fn tell<D: Disk, O: Write>(
    disk: &mut D,
    number: u32,
    sync: bool,
    out: &mut O,
) -> Result<(), PutRefusal>
    ensures syncs { OnOk result (SyncsIf sync D.Disk disk.old disk.new) }
    ensures printed { OnOk result
        (Appends (O.contents out.old) (O.contents out.new) (number_text number)) }
    ensures refused { IfErr result (IsUntold D.Disk sync disk.old disk.new (out.new ≡ out.old)) }
    ensures name { D.name disk.new ≡ D.name disk.old }
    ensures time { AddsNone (D.moment disk.old) (D.moment disk.new)
        (D.leaves disk.old) (D.leaves disk.new) }
{
    if let Err(fault) = sync_if(sync, disk) {
        return Err(PutRefusal::Disk(DeviceFault::Sync(fault)));
    }
    print_number(out, number).map_err(|_| PutRefusal::Output)
}
