// The page of a run.
ghost use Rattle.std.specs.Prelude.{◌++◌, OnOk};
ghost use Rattle.std.specs.Io.KnownBytes.{Appends};
ghost use Rattle.explorer_page.specs.Page.{data_text, explorer_text};
ghost use Rattle.explorer_page.specs.Texts.{disk_text, ending_text, page_text};

use crate::disk::print_disk;
use crate::ending::print_ending;
use crate::image::print_image;
use crate::opening::print_opening;
use crate::operations::print_tasks;
use crate::page::print_page;
use crate::stops::print_stops;
use crate::tried::print_tried;
use blocks::{Disk, MemDisk};
use messages::{Unwritten, pass_on, write_bytes};
use pictures::{Column, FilesThen, Lost, Picture};
use scripts::Task;
use std::io::Write;

/// The page of a run, stop by stop.
#[derive(Clone, Copy, Drop)]
pub struct Explorer<'a> {
    /// The inode numbers of the image.
    pub inode_count: u32,
    /// Whether the disk holds writes back until a sync.
    pub holds: bool,
    /// The disk as it was opened.
    pub disk: &'a MemDisk,
    /// The operations.
    pub tasks: &'a [Task],
    /// The objects of the steps and of the turns.
    pub told: &'a [u8],
    /// The files that recovery gives where the run stops; of each such stop the column is how many
    /// writes were made.
    pub files: &'a [FilesThen],
    /// The stops that were tried, and passed: none where none was tried.
    pub columns: &'a [Column],
    /// The one behind them that didn't, if there is one.
    pub lost: Option<Lost<'a>>,
}

impl<'a> Picture for Explorer<'a> {
    ghost text = { λ e. explorer_text (data_text e.inode_count e.holds
        (⟦<MemDisk as Disk>⟧.image e.disk.now) e.tasks.now e.told.now e.files.now
        e.columns.now e.lost) };

    fn print<O: Write>(&self, out: &mut O) -> Result<(), Unwritten> {
        print_opening(out)?;
        print_data(out, self)?;
        print_behind(out)
    }
}

// Writes the lines of JSON.
#[tactic(auto, unfolding(crate::specs::Page::data_text))]
fn print_data<O: Write>(out: &mut O, run: &Explorer<'_>) -> Result<(), Unwritten>
    ensures ok { OnOk result (Appends (O.contents out.old) (O.contents out.new)
        (data_text run.now.inode_count run.now.holds
        (⟦<MemDisk as Disk>⟧.image run.now.disk.now) run.now.tasks.now run.now.told.now
        run.now.files.now run.now.columns.now run.now.lost)) }
{
    print_image(out, run.inode_count, run.holds, run.disk)?;
    print_tasks(out, run.tasks)?;
    write_bytes(out, run.told)?;
    print_stops(out, run.files)?;
    print_tried(out, run.columns, run.lost)
}

// Writes the page behind them, and passes on what the writer holds back.
fn print_behind<O: Write>(out: &mut O) -> Result<(), Unwritten>
    ensures ok { OnOk result (Appends (O.contents out.old) (O.contents out.new)
        (disk_text ++ page_text ++ ending_text)) }
{
    print_disk(out)?;
    print_page(out)?;
    print_ending(out)?;
    pass_on(out)
}
