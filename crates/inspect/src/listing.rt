// A list of the files of an image.
ghost use Rattle.std.specs.Prelude.{◌≡◌, ◌++◌, ◌<◌, ◌≤◌, IfErr, IfOk, None, OnOk, length};
ghost use Rattle.std.specs.Io.KnownBytes.{Appends};
ghost use Rattle.blocks.specs.Calls.{OnlyReads};
ghost use Rattle.model.specs.Log.{recovered};
ghost use Rattle.model.specs.Names.{names_of};
ghost use Rattle.model.specs.Places.{addresses_in, pointers_in};
ghost use Rattle.model.specs.Verdict.{verdict};
ghost use Rattle.inspect.specs.Causes.{IsUnlisted};
ghost use Rattle.offline.specs.Checked.{IsCheckedOf};
ghost use Rattle.inspect.specs.Gathering.{KeepsCount, LieBehindLog};
ghost use Rattle.inspect.specs.Listing.{listing_of, row_text, rows_at, rows_in, rows_of, rows_text};

use crate::fault::GatherFault;
use crate::objects::print_row_array;
use crate::owned::add_owned;
use crate::refused::LsRefusal;
use blocks::{Block, Disk};
use itoa::Buffer;
use layout::Dinode;
use messages::{Unwritten, pass_on, print};
use offline::{Recovered, check};
use std::alloc::Global;
use std::io::Write;

// A file of an image, as the list tells of it.
#[derive(Clone, Copy)]
pub struct Row {
    pub number: u32,
    pub kind: u16,
    // How many names lead to it.
    pub links: u16,
    // Its bytes.
    pub size: u32,
    // The blocks that it owns, blocks of addresses among them.
    pub blocks: usize,
}

/// Checks the image of a disk, and prints a line for each of its files once the log is copied home,
/// in the order of their numbers: `I type T size S blocks N`. The size is in bytes; the blocks are
/// those that the file owns, blocks of addresses among them. Or it prints an array of JSON with an
/// object for each, which has its links, too. It writes no block.
///
/// # Errors
///
/// `Check` with a fault of the image or of its check, or with `Disk` where a read after the check
/// failed. `NoMemory` where memory after the check was refused. With these nothing was printed. Else
/// `Output`.
pub fn list_disk<D: Disk, O: Write>(
    alloc: Global,
    disk: &mut D,
    json: bool,
    out: &mut O,
) -> Result<(), LsRefusal>
    ensures sound { OnOk result (verdict (D.image disk.old) ≡ None) }
    ensures printed { OnOk result (Appends (O.contents out.old) (O.contents out.new)
        (listing_of json (recovered (D.image disk.old)))) }
    ensures reads { OnlyReads D.Disk disk.old disk.new }
    ensures refused { IfErr result (IsUnlisted D.Disk disk.old disk.new (out.new ≡ out.old)) }
{
    check(alloc, disk).map_err(LsRefusal::Check)?;
    let rows = gather_rows(alloc, disk)?;
    print_rows_in(out, json, rows.as_slice()).map_err(|_| LsRefusal::Output)
}

// The rows of the files of a disk that was checked.
#[tactic(auto, using(blocks::specs::Lemmas::Reads::reads_none, blocks::specs::Lemmas::Reads::reads_then))]
fn gather_rows<D: Disk>(alloc: Global, disk: &mut D) -> Result<Vec<Row>, GatherFault>
    requires { verdict (D.image disk.old) ≡ None }
    ensures rows { IfOk result (λ rows. rows.items ≡ rows_of (recovered (D.image disk.old))) }
    ensures reads { OnlyReads D.Disk disk.old disk.new }
    ensures faults { KeepsCount result (D.fault_count disk.old) (D.fault_count disk.new) }
{
    let mut block = Block::zeroed(alloc)?;
    let mut entries = Block::zeroed(alloc)?;
    let image = Recovered::open_checked(disk, &mut block)?;
    let mut rows = Vec::new(alloc);
    for i in 1..image.sup.ninodes {
        add_row(alloc, disk, &image, &mut block, &mut entries, &mut rows, i)?;
    }
    Ok(rows)
}

// Adds the row of the file of a number, if there is one. The blocks are room for its inode, and for
// blocks of addresses.
#[tactic(auto, using(blocks::specs::Lemmas::Reads::reads_none, blocks::specs::Lemmas::Reads::reads_then))]
fn add_row<D: Disk>(
    alloc: Global,
    disk: &mut D,
    image: &Recovered,
    block: &mut Block,
    entries: &mut Block,
    rows: &mut Vec<Row>,
    i: u32,
) -> Result<(), GatherFault>
    requires checked { IsCheckedOf (D.image disk.old) image.now }
    requires some { 1 ≤ i }
    requires below { i < image.now.sup.ninodes }
    ensures added { OnOk result (rows.new.items ≡ rows.old.items
        ++ rows_at (recovered (D.image disk.old)) i) }
    ensures reads { OnlyReads D.Disk disk.old disk.new }
    ensures faults { KeepsCount result (D.fault_count disk.old) (D.fault_count disk.new) }
{
    let inode = image.inode(disk, i, block)?;
    if inode.kind == 0 {
        return Ok(());
    }
    let blocks = count_blocks(alloc, disk, image, entries, i, &inode)?;
    rows.push(Row {
        number: i,
        kind: inode.kind,
        links: inode.nlink,
        size: inode.size,
        blocks,
    })?;
    Ok(())
}

// How many blocks the inode of a number owns. `entries` is room for blocks of addresses.
fn count_blocks<D: Disk>(
    alloc: Global,
    disk: &mut D,
    image: &Recovered,
    entries: &mut Block,
    file: u32,
    inode: &Dinode,
) -> Result<usize, GatherFault>
    requires checked { IsCheckedOf (D.image disk.old) image.now }
    requires addresses { length inode.now.addrs ≡ 13 }
    requires behind { LieBehindLog (recovered (D.image disk.old))
        (names_of (recovered (D.image disk.old)) inode.now) }
    ensures count { IfOk result (λ count. count
        ≡ length (addresses_in (pointers_in (recovered (D.image disk.old)) inode.now))) }
    ensures reads { OnlyReads D.Disk disk.old disk.new }
    ensures faults { KeepsCount result (D.fault_count disk.old) (D.fault_count disk.new) }
{
    let mut owned = Vec::new(alloc);
    add_owned(disk, image, entries, &mut owned, file, inode)?;
    Ok(owned.len())
}

// Prints these rows, as an array of JSON or as lines, as the last text of a command.
fn print_rows_in<O: Write>(out: &mut O, json: bool, rows: &[Row]) -> Result<(), Unwritten>
    ensures printed { OnOk result (Appends (O.contents out.old) (O.contents out.new)
        (rows_in json rows.now)) }
{
    if json {
        print_row_array(out, rows)
    } else {
        print_rows(out, rows)
    }
}

// Prints the lines of these rows, as the last text of a command.
fn print_rows<O: Write>(out: &mut O, rows: &[Row]) -> Result<(), Unwritten>
    ensures printed { OnOk result (Appends (O.contents out.old) (O.contents out.new)
        (rows_text rows.now)) }
{
    for row in rows {
        print_row(out, row)?;
    }
    pass_on(out)
}

fn print_row<O: Write>(out: &mut O, row: &Row) -> Result<(), Unwritten>
    ensures printed { OnOk result (Appends (O.contents out.old) (O.contents out.new)
        (row_text row.now)) }
{
    let mut buffers = (Buffer::new(), Buffer::new(), Buffer::new(), Buffer::new());
    let number = buffers.0.format(row.number);
    let kind = buffers.1.format(row.kind);
    let size = buffers.2.format(row.size);
    let blocks = buffers.3.format(row.blocks);
    print(
        out,
        format_args!("{number} type {kind} size {size} blocks {blocks}\n"),
    )
}
