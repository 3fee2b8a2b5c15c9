// Who hears of an image's faults, and prints each of them.
ghost use Rattle.std.specs.Prelude.{◌∷◌, [], true, OnOk};
ghost use Rattle.std.specs.Io.KnownBytes.{Appends};
ghost use Rattle.blocks.specs.Calls.{OnlyReads};
ghost use Rattle.model.specs.Faults.{faults};
ghost use Rattle.offline.specs.Cause.{GoesThrough};
ghost use Rattle.disk_commands.specs.FaultLines.{HearsLines, PrintsAll, PrintsFaults, faults_in};
ghost use Rattle.disk_commands.specs.Lemmas.FaultLines.{lines_more, lines_none};

use blocks::Disk;
use json_lines::{print_comma, print_fault_object};
use messages::{Unwritten, print_fault};
use model::types::CheckFault;
use offline::{HearsFaults, check_all};
use std::alloc::Global;
use std::io::Write;

// What was heard of faults.
#[derive(Clone, Copy)]
pub struct Heard {
    // The first of them, if there was one.
    pub first: Option<CheckFault>,
    pub count: u64,
    // Whether all of them were printed.
    pub is_printed: bool,
}

// Prints each fault that it hears of, until the output fails.
#[derive(Drop)]
struct FaultLines<'a, O> {
    out: &'a mut O,
    // Whether as elements of an array of JSON, and not as lines.
    json: bool,
    heard: Heard,
}

// Prints a fault that is behind so many others, as an element of an array or as a line.
fn print_fault_in<O: Write>(
    out: &mut O,
    json: bool,
    others: u64,
    fault: &CheckFault,
) -> Result<(), Unwritten>
    ensures ok { OnOk result (Appends (O.contents out.old) (O.contents out.new)
        (faults_in json others (fault.now ∷ []))) }
{
    if json {
        print_element(out, others, fault)
    } else {
        print_fault(out, fault)
    }
}

fn print_element<O: Write>(out: &mut O, others: u64, fault: &CheckFault) -> Result<(), Unwritten>
    ensures ok { OnOk result (Appends (O.contents out.old) (O.contents out.new)
        (faults_in true others (fault.now ∷ []))) }
{
    print_comma(out, others)?;
    print_fault_object(out, fault)
}

// Prints one fault more.
fn heard_one<O: Write>(out: &mut O, json: bool, before: Heard, fault: CheckFault) -> Heard
    ensures { PrintsFaults O.contents json (fault ∷ []) out.old before out.new result }
{
    let first = match before.first {
        Some(first) => Some(first),
        None => Some(fault),
    };
    if !before.is_printed || before.count == u64::MAX {
        return Heard {
            first,
            count: before.count,
            is_printed: false,
        };
    }
    let is_printed = print_fault_in(out, json, before.count, &fault).is_ok();
    Heard {
        first,
        count: before.count + 1,
        is_printed,
    }
}

impl<O: Write> HearsFaults for FaultLines<'_, O> {
    ghost hears = { HearsLines O.contents };

    fn hear(&mut self, fault: CheckFault) {
        self.heard = heard_one(self.out, self.json, self.heard, fault);
    }

    ghost hears_none = { lines_none O.contents };

    ghost hears_more = { lines_more O.contents };
}

// Prints a disk's faults while its image is walked over, as far as that goes: as elements of an
// array of JSON, or as lines.
pub fn print_faults<D: Disk, O: Write>(
    alloc: Global,
    disk: &mut D,
    json: bool,
    out: &mut O,
) -> (Result<(), CheckFault>, Heard)
    ensures printed { PrintsAll O.contents json (faults (D.image disk.old))
        out.old out.new result.1 result.0 }
    ensures reads { OnlyReads D.Disk disk.old disk.new }
    ensures counts { GoesThrough result.0 (D.fault_count disk.old) (D.fault_count disk.new) }
{
    let mut lines = FaultLines {
        out,
        json,
        heard: Heard {
            first: None,
            count: 0,
            is_printed: true,
        },
    };
    let ended = check_all(alloc, disk, &mut lines);
    let FaultLines { out, heard, .. } = lines;
    // No effect at run time. The proof reads what the caller's output holds from this use of it.
    let _ = &*out;
    (ended, heard)
}
