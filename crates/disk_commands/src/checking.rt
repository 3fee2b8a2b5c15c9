// A check of a disk's image, and what it prints.
ghost use Rattle.std.specs.Prelude.{◌≡◌, false, true, OnOk, IfErr};
ghost use Rattle.std.specs.Io.KnownBytes.{Appends};
ghost use Rattle.blocks.specs.Calls.{OnlyReads};
ghost use Rattle.disk_commands.specs.Causes.{EndsWith, HasArrayTold, HasFaultsTold, IsToldWith, IsUnchecked};
ghost use Rattle.disk_commands.specs.Looks.{HasReported, report_in};

use crate::fault_lines::print_faults;
use blocks::Disk;
use json_lines::print_report_object;
use messages::{Printed, Unwritten, print, print_fault_count, print_last, print_report};
use model::types::CheckFault;
use offline::{Report, check};
use std::alloc::Global;
use std::io::Write;

/// Checks the image of a disk, and prints how many blocks its log holds and how many files there
/// are once they are copied home, as an object of JSON or as a line. It writes no block.
///
/// # Errors
///
/// A fault of the image or of its check, and then nothing was printed; else `Output`.
pub fn check_disk<D: Disk, O: Write>(
    alloc: Global,
    disk: &mut D,
    json: bool,
    out: &mut O,
) -> Result<(), Printed<CheckFault>>
    ensures reported { OnOk result (HasReported D.Disk json false disk.old disk.new
        (O.contents out.old) (O.contents out.new)) }
    ensures reads { OnlyReads D.Disk disk.old disk.new }
    ensures refused { IfErr result (IsUnchecked D.Disk disk.old disk.new (out.new ≡ out.old)) }
{
    let report = check(alloc, disk).map_err(Printed::Fault)?;
    print_report_in(out, json, &report).map_err(|_| Printed::Output)
}

// Prints what a check found, as an object or as a line, as the last text of a command.
fn print_report_in<O: Write>(out: &mut O, json: bool, report: &Report) -> Result<(), Unwritten>
    ensures ok { OnOk result (Appends (O.contents out.old) (O.contents out.new)
        (report_in json false report.now.logged report.now.files)) }
{
    if json {
        print_report_object(out, report.logged, report.files)
    } else {
        print_report(out, report.logged, report.files)
    }
}

/// Checks the image of a disk as `check_disk`, but that of one with faults it prints them all while
/// the image is walked over, a line each, and then how many they are. It writes no block.
///
/// # Errors
///
/// The first fault of the image, and then all were printed. What else kept it from an answer, and
/// then a beginning of the image's faults was printed. `Output` where one of them was not.
pub fn check_disk_all<D: Disk, O: Write>(
    alloc: Global,
    disk: &mut D,
    out: &mut O,
) -> Result<(), Printed<CheckFault>>
    ensures reported { OnOk result (HasReported D.Disk false true disk.old disk.new
        (O.contents out.old) (O.contents out.new)) }
    ensures reads { OnlyReads D.Disk disk.old disk.new }
    ensures refused { IfErr result (HasFaultsTold D.Disk disk.old disk.new
        (O.contents out.old) (O.contents out.new) (out.new ≡ out.old)) }
{
    let (ended, heard) = print_faults(alloc, disk, false, out);
    if !heard.is_printed {
        return Err(Printed::Output);
    }
    match ended {
        Ok(()) => match heard.first {
            None => check_disk(alloc, disk, false, out),
            Some(first) => Err(tell_count(out, heard.count, first)),
        },
        Err(fault) => Err(Printed::Fault(fault)),
    }
}

// Prints how many faults there were. The refusal: the first of them, or that it could not be printed.
fn tell_count<O: Write>(out: &mut O, count: u64, first: CheckFault) -> Printed<CheckFault>
    ensures { IsToldWith (O.contents out.old) (O.contents out.new) count first result }
{
    match print_fault_count(out, count) {
        Ok(()) => Printed::Fault(first),
        Err(_) => Printed::Output,
    }
}

/// Checks the image of a disk, and prints an array of JSON while the image is walked over, with an
/// object for each of its faults: none where it is sound. It writes no block.
///
/// # Errors
///
/// The first fault of the image, and then all were printed. What else kept it from an answer, and
/// then a beginning of the image's faults was printed, in an array that isn't closed. `Output`
/// where a part of it was not.
pub fn check_disk_array<D: Disk, O: Write>(
    alloc: Global,
    disk: &mut D,
    out: &mut O,
) -> Result<(), Printed<CheckFault>>
    ensures reported { OnOk result (HasReported D.Disk true true disk.old disk.new
        (O.contents out.old) (O.contents out.new)) }
    ensures reads { OnlyReads D.Disk disk.old disk.new }
    ensures refused { IfErr result (HasArrayTold D.Disk disk.old disk.new
        (O.contents out.old) (O.contents out.new)) }
{
    let Ok(()) = print(out, "[") else {
        return Err(Printed::Output);
    };
    let (ended, heard) = print_faults(alloc, disk, true, out);
    match (heard.is_printed, ended) {
        (true, Ok(())) => end_array(out, heard.first),
        (true, Err(fault)) => Err(Printed::Fault(fault)),
        (false, _) => Err(Printed::Output),
    }
}

// Prints the end of an array of faults, of which this is the first.
fn end_array<O: Write>(out: &mut O, first: Option<CheckFault>) -> Result<(), Printed<CheckFault>>
    ensures { EndsWith (O.contents out.old) (O.contents out.new) first result }
{
    match print_last(out, "]\n") {
        Ok(()) => match first {
            None => Ok(()),
            Some(first) => Err(Printed::Fault(first)),
        },
        Err(_) => Err(Printed::Output),
    }
}
