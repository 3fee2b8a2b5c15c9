// What an image has, as JSON.
ghost use Rattle.std.specs.Prelude.{OnOk};
ghost use Rattle.std.specs.Io.KnownBytes.{Appends};
ghost use Rattle.json_lines.specs.Arrays.{array_text, element_behind, elements_behind};
ghost use Rattle.inspect.specs.Drawing.{signs_object};
ghost use Rattle.inspect.specs.Listing.{row_object};
ghost use Rattle.inspect.specs.Logging.{home_object, log_object};
ghost use Rattle.inspect.specs.Showing.{block_object, file_head, file_object};
ghost use Rattle.inspect.specs.Usage.{block_fields, inode_fields, usage_object};

use crate::listing::Row;
use crate::owned::Owned;
use crate::usage::Usage;
use json_lines::{print_comma, print_first_number, print_number, print_word};
use messages::{Unwritten, print, print_last, role_of, write_bytes};
use std::io::Write;

// Prints an array with an object for each of these rows, as the last text of a command.
pub fn print_row_array<O: Write>(out: &mut O, rows: &[Row]) -> Result<(), Unwritten>
    ensures printed { OnOk result (Appends (O.contents out.old) (O.contents out.new)
        (array_text row_object rows.now)) }
{
    print(out, "[")?;
    print_row_objects(out, rows)?;
    print_last(out, "]\n")
}

// Prints the objects of these rows, with a comma between two.
fn print_row_objects<O: Write>(out: &mut O, rows: &[Row]) -> Result<(), Unwritten>
    ensures printed { OnOk result (Appends (O.contents out.old) (O.contents out.new)
        (elements_behind row_object 0 rows.now)) }
{
    for (others, row) in rows.iter().enumerate() {
        print_element(out, others, row)?;
    }
    Ok(())
}

// Prints the object of a row that is behind so many others.
fn print_element<O: Write>(out: &mut O, others: usize, row: &Row) -> Result<(), Unwritten>
    ensures printed { OnOk result (Appends (O.contents out.old) (O.contents out.new)
        (element_behind row_object others row.now)) }
{
    print_comma(out, others as u64)?;
    print_row_object(out, row)
}

#[tactic(auto, unfolding(crate::specs::Listing::row_object))]
fn print_row_object<O: Write>(out: &mut O, row: &Row) -> Result<(), Unwritten>
    ensures printed { OnOk result (Appends (O.contents out.old) (O.contents out.new)
        (row_object row.now)) }
{
    print_first_number(out, "inode", row.number as u64)?;
    print_number(out, "type", row.kind as u64)?;
    print_number(out, "links", row.links as u64)?;
    print_number(out, "size", row.size as u64)?;
    print_number(out, "blocks", row.blocks as u64)?;
    print(out, "}")
}

// Prints an object of how much of an image is used, as the last text of a command.
#[tactic(auto, unfolding(crate::specs::Usage::usage_object))]
pub fn print_usage_object<O: Write>(out: &mut O, usage: Usage) -> Result<(), Unwritten>
    ensures printed { OnOk result (Appends (O.contents out.old) (O.contents out.new)
        (usage_object usage)) }
{
    print_block_fields(out, usage.blocks, usage.used_blocks)?;
    print_inode_fields(out, usage.inodes, usage.used_inodes)?;
    print_last(out, "}\n")
}

#[tactic(auto, unfolding(crate::specs::Usage::block_fields))]
fn print_block_fields<O: Write>(out: &mut O, blocks: usize, used: usize) -> Result<(), Unwritten>
    ensures printed { OnOk result (Appends (O.contents out.old) (O.contents out.new)
        (block_fields blocks used)) }
{
    print_first_number(out, "blocks", blocks as u64)?;
    print_number(out, "used_blocks", used as u64)?;
    print_number(out, "free_blocks", blocks.saturating_sub(used) as u64)
}

#[tactic(auto, unfolding(crate::specs::Usage::inode_fields))]
fn print_inode_fields<O: Write>(out: &mut O, inodes: usize, used: usize) -> Result<(), Unwritten>
    ensures printed { OnOk result (Appends (O.contents out.old) (O.contents out.new)
        (inode_fields inodes used)) }
{
    print_number(out, "inodes", inodes as u64)?;
    print_number(out, "used_inodes", used as u64)?;
    print_number(out, "free_inodes", inodes.saturating_sub(used) as u64)
}

// Prints an object of these signs, one for each block, as the last text of a command.
#[tactic(auto, unfolding(crate::specs::Drawing::signs_object))]
pub fn print_signs_object<O: Write>(out: &mut O, signs: &[u8]) -> Result<(), Unwritten>
    ensures printed { OnOk result (Appends (O.contents out.old) (O.contents out.new)
        (signs_object signs.now)) }
{
    print(out, "{\"signs\":\"")?;
    write_bytes(out, signs)?;
    print_last(out, "\"}\n")
}

// Prints an object of these blocks of the file of a number, as the last text of a command.
#[tactic(auto, unfolding(crate::specs::Showing::file_object))]
pub fn print_file_object<O: Write>(
    out: &mut O,
    number: u32,
    blocks: &[Owned],
) -> Result<(), Unwritten>
    ensures printed { OnOk result (Appends (O.contents out.old) (O.contents out.new)
        (file_object number blocks.now)) }
{
    print_file_head(out, number)?;
    print_block_objects(out, blocks)?;
    print_last(out, "]}\n")
}

// Prints the object up to its first block.
#[tactic(auto, unfolding(crate::specs::Showing::file_head))]
fn print_file_head<O: Write>(out: &mut O, number: u32) -> Result<(), Unwritten>
    ensures printed { OnOk result (Appends (O.contents out.old) (O.contents out.new)
        (file_head number)) }
{
    print_first_number(out, "inode", number as u64)?;
    print(out, ",\"blocks\":[")
}

// Prints the objects of these blocks, with a comma between two.
fn print_block_objects<O: Write>(out: &mut O, blocks: &[Owned]) -> Result<(), Unwritten>
    ensures printed { OnOk result (Appends (O.contents out.old) (O.contents out.new)
        (elements_behind block_object 0 blocks.now)) }
{
    for (others, block) in blocks.iter().enumerate() {
        print_block_element(out, others, block)?;
    }
    Ok(())
}

// Prints the object of a block that is behind so many others.
#[tactic(auto, unfolding(crate::specs::Showing::block_object))]
fn print_block_element<O: Write>(out: &mut O, others: usize, block: &Owned) -> Result<(), Unwritten>
    ensures printed { OnOk result (Appends (O.contents out.old) (O.contents out.new)
        (element_behind block_object others block.now)) }
{
    print_comma(out, others as u64)?;
    print_first_number(out, "block", block.block as u64)?;
    print_number(out, "depth", block.depth as u64)?;
    print(out, "}")
}

// Prints an object of these homes, in an image of so many inode numbers, as the last text of a
// command.
#[tactic(auto, unfolding(crate::specs::Logging::log_object))]
pub fn print_log_object<O: Write>(
    out: &mut O,
    inode_count: u32,
    homes: &[u32],
) -> Result<(), Unwritten>
    ensures printed { OnOk result (Appends (O.contents out.old) (O.contents out.new)
        (log_object inode_count homes.now)) }
{
    print(out, "{\"log\":[")?;
    print_home_objects(out, inode_count, homes)?;
    print_last(out, "]}\n")
}

// Prints the objects of these homes, with a comma between two.
fn print_home_objects<O: Write>(
    out: &mut O,
    inode_count: u32,
    homes: &[u32],
) -> Result<(), Unwritten>
    ensures printed { OnOk result (Appends (O.contents out.old) (O.contents out.new)
        (elements_behind (home_object inode_count) 0 homes.now)) }
{
    for (others, home) in homes.iter().enumerate() {
        print_home_element(out, inode_count, others, *home)?;
    }
    Ok(())
}

// Prints the object of a home that is behind so many others.
#[tactic(auto, unfolding(crate::specs::Logging::home_object))]
fn print_home_element<O: Write>(
    out: &mut O,
    inode_count: u32,
    others: usize,
    home: u32,
) -> Result<(), Unwritten>
    ensures printed { OnOk result (Appends (O.contents out.old) (O.contents out.new)
        (element_behind (home_object inode_count) others home)) }
{
    print_comma(out, others as u64)?;
    print_first_number(out, "home", home as u64)?;
    print_word(out, "area", role_of(inode_count, home))?;
    print(out, "}")
}
