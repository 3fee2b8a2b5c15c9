// The image that a run begins with.
ghost use Rattle.std.specs.Prelude.{◌≡◌, OnOk};
ghost use Rattle.std.specs.Io.KnownBytes.{Appends};
ghost use Rattle.explorer_page.specs.Page.{block_line, block_lines, block_object, image_line, image_text, is_zero};

use blocks::{Disk, MemDisk};
use json_lines::{print_block, print_first_number, print_number};
use messages::{Unwritten, print};
use std::io::Write;

// Writes the object of a disk's image, and that of each block that isn't all zeroes.
#[tactic(auto, unfolding(crate::specs::Page::image_text))]
pub fn print_image<O: Write>(
    out: &mut O,
    inode_count: u32,
    holds: bool,
    disk: &MemDisk,
) -> Result<(), Unwritten>
    ensures ok { OnOk result (Appends (O.contents out.old) (O.contents out.new)
        (image_text inode_count holds (⟦<MemDisk as Disk>⟧.image disk.now))) }
{
    print_image_line(out, disk.size(), inode_count, holds)?;
    print_blocks(out, disk)
}

#[tactic(auto, unfolding(crate::specs::Page::image_line))]
fn print_image_line<O: Write>(
    out: &mut O,
    size: u32,
    inode_count: u32,
    holds: bool,
) -> Result<(), Unwritten>
    ensures ok { OnOk result (Appends (O.contents out.old) (O.contents out.new)
        (image_line size inode_count holds)) }
{
    print_first_number(out, "image", size as u64)?;
    print_number(out, "inodes", inode_count as u64)?;
    print_number(out, "holds", if holds { 1 } else { 0 })?;
    print(out, "}\n")
}

fn print_blocks<O: Write>(out: &mut O, disk: &MemDisk) -> Result<(), Unwritten>
    ensures ok { OnOk result (Appends (O.contents out.old) (O.contents out.new)
        (block_lines (⟦<MemDisk as Disk>⟧.image disk.now))) }
{
    for b in 0..disk.size() {
        print_block_line(out, b, disk.block(b))?;
    }
    Ok(())
}

// Writes the object of a block, unless it has zeroes alone.
fn print_block_line<O: Write>(out: &mut O, number: u32, bytes: &[u8]) -> Result<(), Unwritten>
    ensures ok { OnOk result (Appends (O.contents out.old) (O.contents out.new)
        (block_line number bytes.now)) }
{
    if is_zero(bytes) {
        return Ok(());
    }
    print_block_object(out, number, bytes)
}

fn is_zero(bytes: &[u8]) -> bool
    ensures { result ≡ is_zero bytes.now }
{
    bytes.iter().all(|byte| *byte == 0)
}

#[tactic(auto, unfolding(crate::specs::Page::block_object))]
fn print_block_object<O: Write>(out: &mut O, number: u32, bytes: &[u8]) -> Result<(), Unwritten>
    ensures ok { OnOk result (Appends (O.contents out.old) (O.contents out.new)
        (block_object number bytes.now)) }
{
    print_first_number(out, "block", number as u64)?;
    print_block(out, bytes)?;
    print(out, "}\n")
}
