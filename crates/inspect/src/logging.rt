// What the log of an image holds.
ghost use Rattle.std.specs.Prelude.{◌≡◌, IfErr, IfOk, None, OnOk};
ghost use Rattle.std.specs.Io.KnownBytes.{Appends};
ghost use Rattle.blocks.specs.Calls.{OnlyReads};
ghost use Rattle.model.specs.Verdict.{verdict};
ghost use Rattle.inspect.specs.Causes.{IsUndrawn};
ghost use Rattle.offline.specs.Checked.{IsCheckedOf};
ghost use Rattle.inspect.specs.Gathering.{KeepsCount};
ghost use Rattle.inspect.specs.Logging.{count_line, home_line, homes_in, homes_lines, log_text};

use crate::fault::GatherFault;
use crate::objects::print_log_object;
use crate::refused::ShowRefusal;
use blocks::{Block, Disk};
use itoa::Buffer;
use messages::{Unwritten, pass_on, print, role_of};
use offline::{Recovered, check};
use std::alloc::Global;
use std::io::Write;

/// Checks the image of a disk, and prints how many blocks its log holds, and a line for each: its
/// place in the log, from 0, its home, and what the home is. Or it prints an object of JSON with
/// the homes, in the order of their places. It writes no block.
///
/// # Errors
///
/// `Check` with a fault of the image or of its check, or with `Disk` where a read after the check
/// failed. `NoMemory` where memory after the check was refused. With these nothing was printed. Else
/// `Output`.
pub fn show_log<D: Disk, O: Write>(
    alloc: Global,
    disk: &mut D,
    json: bool,
    out: &mut O,
) -> Result<(), ShowRefusal>
    ensures sound { OnOk result (verdict (D.image disk.old) ≡ None) }
    ensures printed { OnOk result (Appends (O.contents out.old) (O.contents out.new)
        (log_text json (D.image disk.old))) }
    ensures reads { OnlyReads D.Disk disk.old disk.new }
    ensures refused { IfErr result (IsUndrawn D.Disk disk.old disk.new (out.new ≡ out.old)) }
{
    check(alloc, disk).map_err(ShowRefusal::Check)?;
    let image = open_checked(alloc, disk)?;
    print_log_in(out, json, image.sup.ninodes, image.header.homes.as_slice()).map_err(
        |_| ShowRefusal::Output,
    )
}

// Opens the image of a disk that was checked.
#[tactic(auto, using(blocks::specs::Lemmas::Reads::reads_none, blocks::specs::Lemmas::Reads::reads_then))]
fn open_checked<D: Disk>(alloc: Global, disk: &mut D) -> Result<Recovered, GatherFault>
    requires { verdict (D.image disk.old) ≡ None }
    ensures opened { IfOk result (λ image. IsCheckedOf (D.image disk.old) image) }
    ensures reads { OnlyReads D.Disk disk.old disk.new }
    ensures faults { KeepsCount result (D.fault_count disk.old) (D.fault_count disk.new) }
{
    let mut block = Block::zeroed(alloc)?;
    let image = Recovered::open_checked(disk, &mut block)?;
    Ok(image)
}

// Prints these homes, as an object of JSON or as lines, in an image of so many inode numbers, as
// the last text of a command.
fn print_log_in<O: Write>(
    out: &mut O,
    json: bool,
    inode_count: u32,
    homes: &[u32],
) -> Result<(), Unwritten>
    ensures printed { OnOk result (Appends (O.contents out.old) (O.contents out.new)
        (homes_in json inode_count homes.now)) }
{
    if json {
        print_log_object(out, inode_count, homes)
    } else {
        print_log(out, inode_count, homes)
    }
}

// Prints how many homes there are, and a line for each, in an image of so many inode numbers.
fn print_log<O: Write>(out: &mut O, inode_count: u32, homes: &[u32]) -> Result<(), Unwritten>
    ensures printed { OnOk result (Appends (O.contents out.old) (O.contents out.new)
        (homes_lines inode_count homes.now)) }
{
    print_count(out, homes.len())?;
    for (place, home) in homes.iter().enumerate() {
        print_home(out, inode_count, place, *home)?;
    }
    pass_on(out)
}

// Prints how many blocks the log holds.
fn print_count<O: Write>(out: &mut O, count: usize) -> Result<(), Unwritten>
    ensures printed { OnOk result (Appends (O.contents out.old) (O.contents out.new)
        (count_line count)) }
{
    let mut buffer = Buffer::new();
    let count = buffer.format(count);
    print(out, format_args!("log n {count}\n"))
}

// Prints the line of a logged block.
fn print_home<O: Write>(
    out: &mut O,
    inode_count: u32,
    place: usize,
    home: u32,
) -> Result<(), Unwritten>
    ensures printed { OnOk result (Appends (O.contents out.old) (O.contents out.new)
        (home_line inode_count place home)) }
{
    let role = role_of(inode_count, home);
    let mut buffers = (Buffer::new(), Buffer::new());
    let place = buffers.0.format(place);
    let home = buffers.1.format(home);
    print(out, format_args!("log {place} home {home} {role}\n"))
}
