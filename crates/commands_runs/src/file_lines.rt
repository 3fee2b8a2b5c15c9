// The files of an image, as a picture tells them.
ghost use Rattle.std.specs.Prelude.{◌≡◌, ◌++◌, ◌<◌, IfOk, None, OnOk};
ghost use Rattle.blocks.specs.Calls.{OnlyReads};
ghost use Rattle.model.specs.Log.{recovered};
ghost use Rattle.model.specs.Verdict.{verdict};
ghost use Rattle.offline.specs.Recovered.{IsRecoveredOf};
ghost use Rattle.commands_runs.specs.FileLines.{lines_at, lines_of};

use blocks::{Block, Disk};
use layout::CheckFault;
use offline::{Recovered, check};
use pictures::FileLine;
use std::alloc::Global;

// A line for each file of a disk's image once its log is copied home, in the order of their numbers. It
// is refused with a fault of the image or of its check, with `Disk` or with `NoMemory`.
pub fn file_lines<D: Disk>(alloc: Global, disk: &mut D) -> Result<Vec<FileLine>, CheckFault>
    ensures { IfOk result (λ lines. lines.items ≡ lines_of (recovered (D.image disk.old))) }
{
    check(alloc, disk)?;
    gather_lines(alloc, disk)
}

// The same of a disk that was checked.
#[tactic(auto, using(blocks::specs::Lemmas::Reads::reads_none, blocks::specs::Lemmas::Reads::reads_then))]
fn gather_lines<D: Disk>(alloc: Global, disk: &mut D) -> Result<Vec<FileLine>, CheckFault>
    requires { verdict (D.image disk.old) ≡ None }
    ensures { IfOk result (λ lines. lines.items ≡ lines_of (recovered (D.image disk.old))) }
{
    let mut block = Block::zeroed(alloc)?;
    let image = Recovered::open_checked(disk, &mut block)?;
    let mut lines = Vec::new(alloc);
    for i in 1..image.sup.ninodes {
        add_line(disk, &image, &mut block, &mut lines, i)?;
    }
    Ok(lines)
}

// Adds the line of the file of a number, if there is one. The block is room for its inode.
fn add_line<D: Disk>(
    disk: &mut D,
    image: &Recovered,
    block: &mut Block,
    lines: &mut Vec<FileLine>,
    i: u32,
) -> Result<(), CheckFault>
    requires recovered { IsRecoveredOf (D.image disk.old) image.now }
    requires below { i < image.now.sup.ninodes }
    ensures added { OnOk result (lines.new.items ≡ lines.old.items
        ++ lines_at (recovered (D.image disk.old)) i) }
    ensures reads { OnlyReads D.Disk disk.old disk.new }
{
    let inode = image.inode(disk, i, block)?;
    if inode.kind == 0 {
        return Ok(());
    }
    let line = FileLine {
        number: i,
        kind: inode.kind,
        size: inode.size,
    };
    match lines.push(line) {
        Ok(()) => Ok(()),
        Err(_refused) => Err(CheckFault::NoMemory),
    }
}
