// The blocks of one file of an image.
ghost use Rattle.std.specs.Prelude.{◌≡◌, IfErr, IfOk, IsSome, MatchOption, None, OnOk};
ghost use Rattle.std.specs.Io.KnownBytes.{Appends};
ghost use Rattle.blocks.specs.Calls.{OnlyReads};
ghost use Rattle.model.specs.Files.{file_in, files_of};
ghost use Rattle.model.specs.Log.{recovered};
ghost use Rattle.model.specs.Verdict.{verdict};
ghost use Rattle.inspect.specs.Causes.{IsUnshown};
ghost use Rattle.inspect.specs.Gathering.{KeepsCount};
ghost use Rattle.inspect.specs.Showing.{IsOwnedBy, block_line, blocks_in, blocks_text, file_text};

use crate::fault::GatherFault;
use crate::objects::print_file_object;
use crate::owned::{Owned, add_owned};
use crate::refused::ShowRefusal;
use blocks::{Block, Disk};
use itoa::Buffer;
use messages::{Unwritten, pass_on, print};
use offline::{Recovered, check};
use std::alloc::Global;
use std::io::Write;

/// Checks the image of a disk, and prints the numbers of the blocks that one of its files owns once
/// the log is copied home, a line for each in the order of the file's places. A block of addresses
/// comes before those that it leads to, and its line ends with ` addresses`. Or it prints
/// an object of JSON with these. It writes no block.
///
/// # Errors
///
/// `Check` with a fault of the image or of its check, or with `Disk` where a read after the check
/// failed. `NoFile` where there is no file of that number, or `NoMemory` where memory after the check
/// was refused. With these nothing was printed. Else `Output`.
pub fn show_file<D: Disk, O: Write>(
    alloc: Global,
    disk: &mut D,
    number: u32,
    json: bool,
    out: &mut O,
) -> Result<(), ShowRefusal>
    ensures sound { OnOk result (verdict (D.image disk.old) ≡ None) }
    ensures there { OnOk result
        (IsSome (file_in (files_of (recovered (D.image disk.old))) number)) }
    ensures printed { OnOk result (Appends (O.contents out.old) (O.contents out.new)
        (file_text json (recovered (D.image disk.old)) number)) }
    ensures reads { OnlyReads D.Disk disk.old disk.new }
    ensures refused { IfErr result
        (IsUnshown D.Disk number disk.old disk.new (out.new ≡ out.old)) }
{
    check(alloc, disk).map_err(ShowRefusal::Check)?;
    let Some(owned) = blocks_of(alloc, disk, number)? else {
        return Err(ShowRefusal::NoFile);
    };
    print_blocks_in(out, json, number, owned.as_slice()).map_err(|_| ShowRefusal::Output)
}

// The blocks of the file of a number, on a disk that was checked; None where there is no such file.
#[tactic(auto, using(blocks::specs::Lemmas::Reads::reads_none, blocks::specs::Lemmas::Reads::reads_then))]
fn blocks_of<D: Disk>(
    alloc: Global,
    disk: &mut D,
    number: u32,
) -> Result<Option<Vec<Owned>>, GatherFault>
    requires { verdict (D.image disk.old) ≡ None }
    ensures blocks { IfOk result
        (λ found. MatchOption found
        (file_in (files_of (recovered (D.image disk.old))) number ≡ None)
        (λ owned. IsOwnedBy (recovered (D.image disk.old)) number owned.items)) }
    ensures reads { OnlyReads D.Disk disk.old disk.new }
    ensures faults { KeepsCount result (D.fault_count disk.old) (D.fault_count disk.new) }
{
    let mut block = Block::zeroed(alloc)?;
    let image = Recovered::open_checked(disk, &mut block)?;
    if number == 0 || number >= image.sup.ninodes {
        return Ok(None);
    }
    let inode = image.inode(disk, number, &mut block)?;
    if inode.kind == 0 {
        return Ok(None);
    }
    let mut owned = Vec::new(alloc);
    add_owned(disk, &image, &mut block, &mut owned, number, &inode)?;
    Ok(Some(owned))
}

// Prints these blocks of the file of a number, as an object of JSON or as lines, as the last text
// of a command.
fn print_blocks_in<O: Write>(
    out: &mut O,
    json: bool,
    number: u32,
    blocks: &[Owned],
) -> Result<(), Unwritten>
    ensures printed { OnOk result (Appends (O.contents out.old) (O.contents out.new)
        (blocks_in json number blocks.now)) }
{
    if json {
        print_file_object(out, number, blocks)
    } else {
        print_blocks(out, blocks)
    }
}

// Prints the lines of these blocks, as the last text of a command.
fn print_blocks<O: Write>(out: &mut O, blocks: &[Owned]) -> Result<(), Unwritten>
    ensures printed { OnOk result (Appends (O.contents out.old) (O.contents out.new)
        (blocks_text blocks.now)) }
{
    for block in blocks {
        print_block(out, block)?;
    }
    pass_on(out)
}

fn print_block<O: Write>(out: &mut O, block: &Owned) -> Result<(), Unwritten>
    ensures printed { OnOk result (Appends (O.contents out.old) (O.contents out.new)
        (block_line block.now)) }
{
    let mut buffer = Buffer::new();
    let number = buffer.format(block.block);
    if block.depth == 0 {
        print(out, format_args!("{number}\n"))
    } else {
        print(out, format_args!("{number} addresses\n"))
    }
}
