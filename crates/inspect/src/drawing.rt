// A drawing of the blocks of an image.
ghost use Rattle.std.specs.Prelude.{◌≡◌, ◌*◌, ◌+◌, IfErr, IfOk, None, OnOk};
ghost use Rattle.std.specs.Io.KnownBytes.{Appends};
ghost use Rattle.blocks.specs.Calls.{OnlyReads};
ghost use Rattle.model.specs.Verdict.{verdict};
ghost use Rattle.inspect.specs.Causes.{IsUndrawn};
ghost use Rattle.inspect.specs.Cells.{cells_of};
ghost use Rattle.inspect.specs.Drawing.{blocks_told, drawing_of, drawing_text, label_text, row_text, signs_in};

use crate::cells::gather_cells;
use crate::objects::print_signs_object;
use crate::refused::ShowRefusal;
use crate::signs::gather_signs;
use blocks::Disk;
use itoa::Buffer;
use messages::{Cell, Unwritten, print, print_last, write_bytes};
use offline::check;
use std::alloc::Global;
use std::io::Write;

// Blocks in a row.
const ROW: usize = 64;

/// Checks the image of a disk, and draws its blocks once the log is copied home: a row for 64
/// blocks, with the number of the first of them, right-aligned in four columns, and a sign for
/// each. Behind the rows the last line is the key. It writes no block.
///
/// The signs: `b` the boot block, `s` the superblock, `l` the log, `i` inodes, `m` the bitmap, `a` a
/// block of addresses, a digit for a data block, the last of its file's number, `.` a free block;
/// and `*` in the place of these for a block whose newer content still stands in the log.
///
/// Or it prints an object of JSON with all signs as one word.
///
/// # Errors
///
/// `Check` with a fault of the image or of its check, or with `Disk` where a read after the check
/// failed. `NoMemory` where memory after the check was refused. With these nothing was printed. Else
/// `Output`.
pub fn show_disk<D: Disk, O: Write>(
    alloc: Global,
    disk: &mut D,
    json: bool,
    out: &mut O,
) -> Result<(), ShowRefusal>
    ensures sound { OnOk result (verdict (D.image disk.old) ≡ None) }
    ensures printed { OnOk result (Appends (O.contents out.old) (O.contents out.new)
        (blocks_told json (D.image disk.old))) }
    ensures reads { OnlyReads D.Disk disk.old disk.new }
    ensures refused { IfErr result (IsUndrawn D.Disk disk.old disk.new (out.new ≡ out.old)) }
{
    check(alloc, disk).map_err(ShowRefusal::Check)?;
    let signs = gather_signs(alloc, disk)?;
    print_signs(out, json, signs.as_slice()).map_err(|_| ShowRefusal::Output)
}

/// Draws the blocks of an image as `show_disk`, and hands out what each of them is, and whose, for a
/// picture.
///
/// # Errors
///
/// As those of `show_disk`.
pub fn show_cells<D: Disk, O: Write>(
    alloc: Global,
    disk: &mut D,
    out: &mut O,
) -> Result<Vec<Cell>, ShowRefusal>
    ensures sound { OnOk result (verdict (D.image disk.old) ≡ None) }
    ensures printed { OnOk result (Appends (O.contents out.old) (O.contents out.new)
        (drawing_of (D.image disk.old))) }
    ensures cells { IfOk result (λ cells. cells.items ≡ cells_of (D.image disk.old)) }
    ensures reads { OnlyReads D.Disk disk.old disk.new }
    ensures refused { IfErr result (IsUndrawn D.Disk disk.old disk.new (out.new ≡ out.old)) }
{
    check(alloc, disk).map_err(ShowRefusal::Check)?;
    let signs = gather_signs(alloc, disk)?;
    let cells = gather_cells(alloc, disk, signs.as_slice())?;
    match draw(out, signs.as_slice()) {
        Ok(()) => Ok(cells),
        Err(_) => Err(ShowRefusal::Output),
    }
}

// Prints these signs, as an object of JSON or as rows, as the last text of a command.
fn print_signs<O: Write>(out: &mut O, json: bool, signs: &[u8]) -> Result<(), Unwritten>
    ensures printed { OnOk result (Appends (O.contents out.old) (O.contents out.new)
        (signs_in json signs.now)) }
{
    if json {
        print_signs_object(out, signs)
    } else {
        draw(out, signs)
    }
}

// Prints rows of these signs, and the key, as the last text of a command.
fn draw<O: Write>(out: &mut O, signs: &[u8]) -> Result<(), Unwritten>
    ensures printed { OnOk result (Appends (O.contents out.old) (O.contents out.new)
        (drawing_text signs.now)) }
{
    for row in 0..signs.len().div_ceil(ROW) {
        let from = row * ROW;
        let to = (from + ROW).min(signs.len());
        print_row(out, from, &signs[from..to])?;
    }
    print_last(
        out,
        "b boot s super l log i inodes m bitmap a addresses \
         0-9 data by the file's last digit . free * logged\n",
    )
}

// Prints a row of signs, which begins with that block.
fn print_row<O: Write>(out: &mut O, first: usize, signs: &[u8]) -> Result<(), Unwritten>
    ensures printed { OnOk result (Appends (O.contents out.old) (O.contents out.new)
        (row_text first signs.now)) }
{
    print_label(out, first)?;
    write_bytes(out, signs)?;
    write_bytes(out, b"\n")
}

// Prints a number right-aligned in four columns, and a space.
fn print_label<O: Write>(out: &mut O, number: usize) -> Result<(), Unwritten>
    ensures printed { OnOk result (Appends (O.contents out.old) (O.contents out.new)
        (label_text number)) }
{
    let mut buffer = Buffer::new();
    let digits = buffer.format(number);
    let columns = b"    ";
    write_bytes(out, &columns[digits.len().min(columns.len())..])?;
    print(out, format_args!("{digits} "))
}
