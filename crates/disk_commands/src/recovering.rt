// A recovery of a disk's image, and what it prints.
ghost use Rattle.std.specs.Prelude.{◌≡◌, OnOk, IfErr};
ghost use Rattle.std.specs.Io.KnownBytes.{Appends};
ghost use Rattle.model.specs.Log.{logged_count};
ghost use Rattle.wal.specs.Recovery.{IsCalm, LeavesFromSync, RecoversAs};
ghost use Rattle.kernel.specs.Opening.{LeavesRecovered};
ghost use Rattle.opening.specs.Recoveries.{IsRecovered};
ghost use Rattle.disk_commands.specs.Causes.{IsNotRecovered};
ghost use Rattle.disk_commands.specs.Looks.{copied_in};

use blocks::Disk;
use json_lines::print_number_object;
use messages::{Meter, Printed, Unwritten, print_copied};
use opening::{RecoverRefusal, recover_image};
use std::alloc::Global;
use std::io::Write;

/// Checks the image of a disk, copies the blocks of its log home, and prints how many these were,
/// as an object of JSON or as a line. The meter is told as by `recover_image`.
///
/// # Errors
///
/// `Check` with a fault of the image or of its check, and then nothing was written; else `Recover`
/// with a fault of the recovery, which may be made again. With these nothing was printed. Else
/// `Output`, and the image is recovered.
///
/// Whatever a crash at any moment leaves is recovered to the same image: of a disk that holds
/// writes back from the first sync on, or from the start where nothing was held then.
pub fn recover_disk<D: Disk, P: Meter, O: Write>(
    alloc: Global,
    disk: &mut D,
    json: bool,
    progress: &mut P,
    out: &mut O,
) -> Result<(), Printed<RecoverRefusal>>
    ensures recovered { OnOk result (IsRecovered D.Disk
        (logged_count (D.image disk.old)) disk.old disk.new) }
    ensures name { D.name disk.new ≡ D.name disk.old }
    ensures printed { OnOk result (Appends (O.contents out.old) (O.contents out.new)
        (copied_in json (logged_count (D.image disk.old)))) }
    ensures refused { IfErr result (IsNotRecovered D.Disk disk.old disk.new (out.new ≡ out.old)) }
    ensures stops { LeavesRecovered D.Disk disk.old disk.new }
    ensures synced { OnOk result
        (LeavesFromSync D.Disk disk.old disk.new (RecoversAs (D.image disk.old))) }
    ensures settled { OnOk result (IsCalm D.Disk disk.new) }
{
    let copied = match recover_image(alloc, disk, progress) {
        Ok(copied) => copied,
        Err(refusal) => return Err(Printed::Fault(refusal)),
    };
    print_copied_in(out, json, copied).map_err(|_| Printed::Output)
}

// Prints how many blocks were copied home, as an object or as a line, as the last text of a
// command.
fn print_copied_in<O: Write>(out: &mut O, json: bool, copied: u32) -> Result<(), Unwritten>
    ensures ok { OnOk result (Appends (O.contents out.old) (O.contents out.new)
        (copied_in json copied)) }
{
    if json {
        print_number_object(out, "recovered", copied as u64)
    } else {
        print_copied(out, copied)
    }
}
