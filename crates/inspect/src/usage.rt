// How much of an image is used.
ghost use Rattle.std.specs.Prelude.{◌≡◌, IfErr, IfOk, None, OnOk, length};
ghost use Rattle.std.specs.Io.KnownBytes.{Appends};
ghost use Rattle.blocks.specs.Calls.{OnlyReads};
ghost use Rattle.model.specs.Log.{recovered};
ghost use Rattle.model.specs.Verdict.{verdict};
ghost use Rattle.inspect.specs.Causes.{IsUncounted};
ghost use Rattle.inspect.specs.Gathering.{KeepsCount};
ghost use Rattle.inspect.specs.Owned.{owned_by_all};
ghost use Rattle.inspect.specs.Usage.{line_text, usage_in, usage_lines, usage_text};

use crate::fault::GatherFault;
use crate::objects::print_usage_object;
use crate::owned::owned_by_all;
use crate::refused::DfRefusal;
use blocks::{Block, Disk};
use itoa::Buffer;
use messages::{Unwritten, pass_on, print};
use offline::{Recovered, check};
use std::alloc::Global;
use std::io::Write;

// How much of an image is used.
#[derive(Clone, Copy)]
pub struct Usage {
    // The blocks that files may own.
    pub blocks: usize,
    // Those that they own, blocks of addresses among them.
    pub used_blocks: usize,
    // The numbers that files may have.
    pub inodes: usize,
    // Those that they have.
    pub used_inodes: usize,
}

/// Checks the image of a disk, and prints how much of it is used once the log is copied home, by two
/// lines: `blocks N used U free F` tells of the blocks of 1024 bytes that files may own, those of
/// addresses among the used ones; `inodes N used U free F` tells of the numbers that files may have,
/// without the unused number 0. Or it prints one object of JSON with these numbers. It writes no
/// block.
///
/// # Errors
///
/// `Check` with a fault of the image or of its check, or with `Disk` where a read after the check
/// failed. `NoMemory` where memory after the check was refused. With these nothing was printed. Else
/// `Output`.
pub fn count_disk<D: Disk, O: Write>(
    alloc: Global,
    disk: &mut D,
    json: bool,
    out: &mut O,
) -> Result<(), DfRefusal>
    ensures sound { OnOk result (verdict (D.image disk.old) ≡ None) }
    ensures printed { OnOk result (Appends (O.contents out.old) (O.contents out.new)
        (usage_text json (D.image disk.old))) }
    ensures reads { OnlyReads D.Disk disk.old disk.new }
    ensures refused { IfErr result (IsUncounted D.Disk disk.old disk.new (out.new ≡ out.old)) }
{
    let report = check(alloc, disk).map_err(DfRefusal::Check)?;
    let owned = count_owned(alloc, disk)?;
    let sup = report.sup;
    let usage = Usage {
        blocks: sup.nblocks as usize,
        used_blocks: owned,
        inodes: sup.ninodes.saturating_sub(1) as usize,
        used_inodes: report.files as usize,
    };
    print_usage_in(out, json, usage).map_err(|_| DfRefusal::Output)
}

// How many blocks the files of a disk own that was checked.
fn count_owned<D: Disk>(alloc: Global, disk: &mut D) -> Result<usize, GatherFault>
    requires { verdict (D.image disk.old) ≡ None }
    ensures count { IfOk result (λ count. count
        ≡ length (owned_by_all (recovered (D.image disk.old)))) }
    ensures reads { OnlyReads D.Disk disk.old disk.new }
    ensures faults { KeepsCount result (D.fault_count disk.old) (D.fault_count disk.new) }
{
    let mut block = Block::zeroed(alloc)?;
    let image = Recovered::open_checked(disk, &mut block)?;
    let owned = owned_by_all(alloc, disk, &image)?;
    Ok(owned.len())
}

// Prints how much is used, as an object of JSON or as lines, as the last text of a command.
fn print_usage_in<O: Write>(out: &mut O, json: bool, usage: Usage) -> Result<(), Unwritten>
    ensures printed { OnOk result (Appends (O.contents out.old) (O.contents out.new)
        (usage_in json usage)) }
{
    if json {
        print_usage_object(out, usage)
    } else {
        print_usage(out, usage)
    }
}

// Prints both lines, as the last text of a command: how many blocks and inodes there are, and how
// many of them are used.
fn print_usage<O: Write>(out: &mut O, usage: Usage) -> Result<(), Unwritten>
    ensures printed { OnOk result (Appends (O.contents out.old) (O.contents out.new)
        (usage_lines usage)) }
{
    print_line(out, "blocks", usage.blocks, usage.used_blocks)?;
    print_line(out, "inodes", usage.inodes, usage.used_inodes)?;
    pass_on(out)
}

fn print_line<O: Write>(out: &mut O, what: &str, all: usize, used: usize) -> Result<(), Unwritten>
    ensures printed { OnOk result (Appends (O.contents out.old) (O.contents out.new)
        (line_text what.now all used)) }
{
    let mut buffers = (Buffer::new(), Buffer::new(), Buffer::new());
    let count = buffers.0.format(all);
    let taken = buffers.1.format(used);
    let free = buffers.2.format(all.saturating_sub(used));
    print(
        out,
        format_args!("{what} {count} used {taken} free {free}\n"),
    )
}
