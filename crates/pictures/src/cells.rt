// The picture of an image's blocks: a square for each, 64 in a row.
ghost use Rattle.std.specs.Prelude.{◌≡◌, ◌∷◌, [], OnOk, length};
ghost use Rattle.std.specs.Io.KnownBytes.{Appends};
ghost use Rattle.std.specs.List.{flat_map};
ghost use Rattle.pictures.specs.Cells.{blocks_close, blocks_open, blocks_text, cell_class, cell_line, cell_text, cell_x, cell_y, owner_words, row_label, sign_words, square_text, told_cell};

use crate::markups::{Markup, print_attribute, print_markup};
use crate::page::open_page;
use crate::picture::Picture;
use crate::shapes::{Area, Spot, close_label, open_label, print_area, print_counted};
use itoa::Buffer;
use messages::{Cell, Owner, Unwritten, pass_on, print, write_bytes};
use std::io::Write;

/// The picture of an image's blocks, the first of them block 0.
#[derive(Clone, Copy, Debug)]
pub struct Cells<'a> {
    /// The blocks.
    pub cells: &'a [Cell],
}

impl<'a> Picture for Cells<'a> {
    ghost text = { λ c. blocks_text c.cells.now };

    fn print<O: Write>(&self, out: &mut O) -> Result<(), Unwritten> {
        print_blocks(out, self.cells)
    }
}

#[tactic(auto, unfolding(crate::specs::Cells::blocks_text))]
fn print_blocks<O: Write>(out: &mut O, cells: &[Cell]) -> Result<(), Unwritten>
    ensures ok { OnOk result (Appends (O.contents out.old) (O.contents out.new)
        (blocks_text cells.now)) }
{
    print_blocks_open(out, cells.len() as u64)?;
    print_cells(out, cells)?;
    print_markup(out, Markup::CellsTold)?;
    print_cell_lines(out, cells)?;
    print_blocks_close(out)
}

// Writes what stands before so many squares.
#[tactic(auto, unfolding(crate::specs::Cells::blocks_open))]
fn print_blocks_open<O: Write>(out: &mut O, count: u64) -> Result<(), Unwritten>
    ensures ok { OnOk result (Appends (O.contents out.old) (O.contents out.new)
        (blocks_open count)) }
{
    open_page(out, "xvfs show")?;
    print_markup(out, Markup::CellsIntro)?;
    print_attribute(out, Markup::CellsOpen, cell_y(count) + 21)?;
    print_markup(out, Markup::CellsLabel)
}

#[tactic(auto, unfolding(crate::specs::Cells::blocks_close))]
fn print_blocks_close<O: Write>(out: &mut O) -> Result<(), Unwritten>
    ensures ok { OnOk result (Appends (O.contents out.old) (O.contents out.new) blocks_close) }
{
    print_markup(out, Markup::PageEnd)?;
    pass_on(out)
}

fn print_cells<O: Write>(out: &mut O, cells: &[Cell]) -> Result<(), Unwritten>
    ensures ok { OnOk result (Appends (O.contents out.old) (O.contents out.new)
        (flat_map cell_text cells.now)) }
{
    for cell in cells {
        print_cell(out, cell)?;
    }
    Ok(())
}

fn print_cell_lines<O: Write>(out: &mut O, cells: &[Cell]) -> Result<(), Unwritten>
    ensures ok { OnOk result (Appends (O.contents out.old) (O.contents out.new)
        (flat_map cell_line cells.now)) }
{
    for cell in cells {
        print_cell_line(out, cell)?;
    }
    Ok(())
}

#[tactic(auto, unfolding(crate::specs::Cells::cell_line))]
fn print_cell_line<O: Write>(out: &mut O, cell: &Cell) -> Result<(), Unwritten>
    ensures ok { OnOk result (Appends (O.contents out.old) (O.contents out.new)
        (cell_line cell.now)) }
{
    print_told_cell(out, cell)?;
    print(out, "\n")
}

// Writes the square of a block, and its title.
#[tactic(auto, unfolding(crate::specs::Cells::cell_text))]
fn print_cell<O: Write>(out: &mut O, cell: &Cell) -> Result<(), Unwritten>
    ensures ok { OnOk result (Appends (O.contents out.old) (O.contents out.new)
        (cell_text cell.now)) }
{
    print_row_label(out, cell.block)?;
    print_markup(out, Markup::Field)?;
    print_told_cell(out, cell)?;
    print_markup(out, Markup::TitleEnd)?;
    print_square(out, cell)?;
    print_markup(out, Markup::FieldEnd)
}

// Writes the number of a row's first block before it.
#[tactic(auto, unfolding(crate::specs::Cells::row_label))]
fn print_row_label<O: Write>(out: &mut O, block: u64) -> Result<(), Unwritten>
    ensures ok { OnOk result (Appends (O.contents out.old) (O.contents out.new)
        (row_label block)) }
{
    if !block.is_multiple_of(64) {
        return Ok(());
    }
    let spot = Spot {
        x: 8,
        y: cell_y(block) + 13,
    };
    print_counted(out, "r", spot, "", block)
}

// Writes the square of a block, with its sign.
#[tactic(auto, unfolding(crate::specs::Cells::square_text))]
fn print_square<O: Write>(out: &mut O, cell: &Cell) -> Result<(), Unwritten>
    ensures ok { OnOk result (Appends (O.contents out.old) (O.contents out.new)
        (square_text cell.now)) }
{
    let x = cell_x(cell.block);
    let y = cell_y(cell.block);
    let area = Area {
        x,
        y,
        width: 16,
        height: 16,
    };
    print_area(out, class_of(cell.sign), area)?;
    open_label(
        out,
        "n",
        Spot {
            x: x + 8,
            y: y + 12,
        },
    )?;
    write_bytes(out, &[cell.sign])?;
    close_label(out)
}

// Writes what a block is, and whose.
#[tactic(auto, unfolding(crate::specs::Cells::told_cell))]
fn print_told_cell<O: Write>(out: &mut O, cell: &Cell) -> Result<(), Unwritten>
    ensures ok { OnOk result (Appends (O.contents out.old) (O.contents out.new)
        (told_cell cell.now)) }
{
    let mut buffer = Buffer::new();
    let number = buffer.format(cell.block);
    let words = words_of(cell.sign);
    print(out, format_args!("block {number}: {words}"))?;
    print_owner(out, cell.owner)
}

fn print_owner<O: Write>(out: &mut O, owner: Option<Owner>) -> Result<(), Unwritten>
    ensures ok { OnOk result (Appends (O.contents out.old) (O.contents out.new)
        (owner_words owner)) }
{
    let Some(owner) = owner else {
        return Ok(());
    };
    let mut buffer = Buffer::new();
    let file = buffer.format(owner.file);
    print(out, format_args!(" of file {file}"))
}

// The left edge of a block's square.
fn cell_x(block: u64) -> u64
    ensures { result ≡ cell_x block }
{
    56 + 17 * (block % 64)
}

// Its upper edge.
fn cell_y(block: u64) -> u64
    ensures { result ≡ cell_y block }
{
    4 + 17 * (block / 64)
}

// What a sign says of a block.
fn words_of(sign: u8) -> &'static str
    ensures { result.now ≡ sign_words sign }
{
    match sign {
        b'b' => "boot",
        b's' => "superblock",
        b'l' => "log",
        b'i' => "inodes",
        b'm' => "bitmap",
        b'a' => "addresses",
        b'.' => "free",
        b'*' => "logged block",
        _ => "data",
    }
}

// The class of its square.
fn class_of(sign: u8) -> &'static str
    ensures { result.now ≡ cell_class sign }
{
    match sign {
        b'b' | b's' => "e",
        b'l' => "w",
        b'i' => "b",
        b'm' => "a",
        b'a' => "g",
        b'.' => "k0",
        b'*' => "k5",
        b'0' | b'5' => "k1",
        b'1' | b'6' => "k2",
        b'2' | b'7' => "k3",
        b'3' | b'8' => "k4",
        _ => "k6",
    }
}
