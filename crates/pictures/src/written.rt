// The row of the writes: below a step that wrote a block the number of the write, as a stop counts it,
// the block, and what it is.
ghost use Rattle.std.specs.Prelude.{◌≡◌, OnOk};
ghost use Rattle.std.specs.Io.KnownBytes.{Appends};
ghost use Rattle.pictures.specs.Written.{block_of, block_text, role_rows, written_rows, written_text};

use crate::places::{column_x, row_y};
use crate::shapes::{Spot, print_counted, print_label};
use crate::types::{Frame, Moment};
use messages::{Unwritten, made_deed, role_of};
use std::io::Write;
use wal::CommitDeed;

// Writes what stands below a step: nothing where it wrote nothing.
#[tactic(auto, unfolding(crate::specs::Written::written_text))]
pub fn print_written<O: Write>(out: &mut O, frame: Frame, moment: &Moment) -> Result<(), Unwritten>
    ensures ok { OnOk result (Appends (O.contents out.old) (O.contents out.new)
        (written_text frame moment.now)) }
{
    match made_deed(moment.note.step, moment.note.deed) {
        Some(deed) => print_rows(out, frame, moment, deed),
        None => Ok(()),
    }
}

// Writes the number of a write, its block, and what it is; or the number of a sync.
#[tactic(auto, unfolding(crate::specs::Written::written_rows))]
fn print_rows<O: Write>(
    out: &mut O,
    frame: Frame,
    moment: &Moment,
    deed: CommitDeed,
) -> Result<(), Unwritten>
    ensures ok { OnOk result (Appends (O.contents out.old) (O.contents out.new)
        (written_rows frame moment.now deed)) }
{
    let x = column_x(moment.column) + 36;
    if let CommitDeed::Sync(_) = deed {
        let spot = Spot {
            x,
            y: row_y(frame, 22),
        };
        return print_counted(out, "s", spot, "sync ", moment.note.syncs);
    }
    print_block(out, frame, x, moment.note.writes, block_of(deed))?;
    print_role(out, frame, x, deed)
}

// Writes the number of a write, and its block.
#[tactic(auto, unfolding(crate::specs::Written::block_text))]
fn print_block<O: Write>(
    out: &mut O,
    frame: Frame,
    x: u64,
    number: u64,
    block: u64,
) -> Result<(), Unwritten>
    ensures ok { OnOk result (Appends (O.contents out.old) (O.contents out.new)
        (block_text frame x number block)) }
{
    let number_at = Spot {
        x,
        y: row_y(frame, 22),
    };
    print_counted(out, "m", number_at, "", number)?;
    let block_at = Spot {
        x,
        y: row_y(frame, 37),
    };
    print_counted(out, "d", block_at, "block ", block)
}

// The block that is written.
fn block_of(deed: CommitDeed) -> u64
    ensures { result ≡ block_of deed }
{
    match deed {
        CommitDeed::LogBlock { place, .. } => 3 + place as u64,
        CommitDeed::Header { .. } | CommitDeed::Clear | CommitDeed::Sync(_) => 2,
        CommitDeed::Home { block } => block as u64,
    }
}

// Writes what the block is.
#[tactic(auto, unfolding(crate::specs::Written::role_rows))]
fn print_role<O: Write>(
    out: &mut O,
    frame: Frame,
    x: u64,
    deed: CommitDeed,
) -> Result<(), Unwritten>
    ensures ok { OnOk result (Appends (O.contents out.old) (O.contents out.new)
        (role_rows frame x deed)) }
{
    let first = Spot {
        x,
        y: row_y(frame, 50),
    };
    let second = Spot {
        x,
        y: row_y(frame, 63),
    };
    match deed {
        CommitDeed::LogBlock { place, home } => {
            print_counted(out, "d", first, "log ", place as u64)?;
            print_counted(out, "d", second, "of ", home as u64)
        }
        CommitDeed::Header { count, .. } => {
            print_label(out, "d", first, "header")?;
            print_counted(out, "d", second, "n ", count as u64)
        }
        CommitDeed::Home { block } => {
            print_label(out, "d", first, "home")?;
            print_label(out, "d", second, role_of(frame.inode_count, block))
        }
        CommitDeed::Clear => print_label(out, "d", first, "clear"),
        CommitDeed::Sync(_) => Ok(()),
    }
}
