// The object of a fault of an image.
ghost use Rattle.std.specs.Prelude.{◌≡◌, OnOk};
ghost use Rattle.std.specs.Io.KnownBytes.{Appends};
ghost use Rattle.messages.specs.Telling.{check_telling};
ghost use Rattle.json_lines.specs.Faults.{fault_object, place_field};

use crate::fields::{print_first_number, print_number, print_word};
use messages::{Unwritten, print};
use model::types::CheckFault;
use std::io::Write;

/// Writes the object of a fault of an image. The writer may hold it back.
#[tactic(auto, unfolding(crate::specs::Faults::fault_object))]
pub fn print_fault_object<O: Write>(out: &mut O, fault: &CheckFault) -> Result<(), Unwritten>
    ensures ok { OnOk result (Appends (O.contents out.old) (O.contents out.new)
        (fault_object fault.now)) }
{
    print_first_number(out, "code", code_of(fault) as u64)?;
    print_word(out, "name", name_of(fault))?;
    print_place(out, fault)?;
    print(out, "}")
}

// The number of a fault among those of a check.
fn code_of(fault: &CheckFault) -> u32
    ensures { result ≡ (check_telling fault.now).number }
{
    match fault {
        CheckFault::BadMagic => 1,
        CheckFault::BadGeometry => 2,
        CheckFault::BadLog => 3,
        CheckFault::BadType(_) => 4,
        CheckFault::BadSize(_) => 5,
        CheckFault::BadAddress(_) => 6,
        CheckFault::TwiceUsed(_) => 7,
        CheckFault::UsedButFree(_) => 8,
        CheckFault::LostBlock(_) => 9,
        CheckFault::Disk => 10,
        CheckFault::NoMemory => 11,
    }
}

fn name_of(fault: &CheckFault) -> &'static str
    ensures { result.now ≡ (check_telling fault.now).name }
{
    match fault {
        CheckFault::BadMagic => "BadMagic",
        CheckFault::BadGeometry => "BadGeometry",
        CheckFault::BadLog => "BadLog",
        CheckFault::BadType(_) => "BadType",
        CheckFault::BadSize(_) => "BadSize",
        CheckFault::BadAddress(_) => "BadAddress",
        CheckFault::TwiceUsed(_) => "TwiceUsed",
        CheckFault::UsedButFree(_) => "UsedButFree",
        CheckFault::LostBlock(_) => "LostBlock",
        CheckFault::Disk => "Disk",
        CheckFault::NoMemory => "NoMemory",
    }
}

// Writes the inode or the block that a fault names.
fn print_place<O: Write>(out: &mut O, fault: &CheckFault) -> Result<(), Unwritten>
    ensures ok { OnOk result (Appends (O.contents out.old) (O.contents out.new)
        (place_field fault.now)) }
{
    match fault {
        CheckFault::BadType(inode) => print_number(out, "inode", *inode as u64),
        CheckFault::BadSize(inode) => print_number(out, "inode", *inode as u64),
        CheckFault::BadAddress(inode) => print_number(out, "inode", *inode as u64),
        CheckFault::TwiceUsed(block) => print_number(out, "block", *block as u64),
        CheckFault::UsedButFree(block) => print_number(out, "block", *block as u64),
        CheckFault::LostBlock(block) => print_number(out, "block", *block as u64),
        _ => Ok(()),
    }
}
