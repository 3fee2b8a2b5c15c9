// The row that tells what a stop keeps: a band up to each write, and up to each step with which a group
// is committed.
ghost use Rattle.std.specs.Prelude.{◌≡◌, ◌<◌, ◌^◌, OnOk};
ghost use Rattle.std.specs.Io.KnownBytes.{Appends};
ghost use Rattle.pictures.specs.Bands.{band_class, band_text, bands_text, ends_band, kept_after, kept_words, last_band, left_edge, made_by, most_after, piece_of, shown_band, stop_text, stop_words};

use crate::markups::{Markup, print_markup};
use crate::places::{column_x, row_y, sheet_width};
use crate::shapes::{Area, Spot, close_label, open_label, print_area};
use crate::types::{Frame, Moment};
use itoa::Buffer;
use messages::{Unwritten, made_deed, print};
use std::io::Write;
use wal::CommitDeed;

// What a stop keeps since the last write.
#[derive(Clone, Copy)]
pub struct Kept {
    // The place of the step that ended the band before.
    pub behind: Option<u32>,
    // The groups that are kept at least.
    pub sure: u64,
    // Those that may be.
    pub most: u64,
}

// Writes the bands of a run.
#[tactic(auto, unfolding(crate::specs::Bands::bands_text))]
pub fn print_bands<O: Write>(out: &mut O, frame: Frame, moments: &[Moment]) -> Result<(), Unwritten>
    ensures ok { OnOk result (Appends (O.contents out.old) (O.contents out.new)
        (bands_text frame moments.now)) }
{
    let mut kept = Kept {
        behind: None,
        sure: 0,
        most: 0,
    };
    for moment in moments {
        print_piece(out, frame, kept, moment)?;
        kept = kept_after(kept, moment);
    }
    print_last_band(out, frame, kept)
}

// Writes the band that ends with a step, if one does.
#[tactic(auto, unfolding(crate::specs::Bands::piece_of))]
fn print_piece<O: Write>(
    out: &mut O,
    frame: Frame,
    kept: Kept,
    moment: &Moment,
) -> Result<(), Unwritten>
    ensures ok { OnOk result (Appends (O.contents out.old) (O.contents out.new)
        (piece_of frame kept moment.now)) }
{
    if !ends_band(kept, moment) {
        return Ok(());
    }
    print_stop(out, moment)?;
    print_band(out, frame, kept, column_x(moment.column) + 72)
}

// Writes the band behind the last write.
#[tactic(auto, unfolding(crate::specs::Bands::last_band))]
fn print_last_band<O: Write>(out: &mut O, frame: Frame, kept: Kept) -> Result<(), Unwritten>
    ensures ok { OnOk result (Appends (O.contents out.old) (O.contents out.new)
        (last_band frame kept)) }
{
    print_markup(out, Markup::Field)?;
    print(out, "a stop at the end")?;
    print_band(out, frame, kept, sheet_width(frame))
}

// Whether a band ends with a step: it wrote or synced, or a group was committed with it.
#[tactic(auto, unfolding(crate::specs::Bands::ends_band))]
fn ends_band(kept: Kept, moment: &Moment) -> bool
    ensures { result ≡ ends_band kept moment.now }
{
    made_deed(moment.note.step, moment.note.deed).is_some() || moment.note.committed != kept.sure
}

// What a stop keeps behind a step: where it wrote the header, that of its group, too, maybe.
#[tactic(auto, unfolding(crate::specs::Bands::kept_after))]
fn kept_after(kept: Kept, moment: &Moment) -> Kept
    ensures { result ≡ kept_after kept moment.now }
{
    if !ends_band(kept, moment) {
        return kept;
    }
    Kept {
        behind: Some(moment.column),
        sure: moment.note.committed,
        most: most_after(kept, moment).max(moment.note.committed),
    }
}

#[tactic(auto, unfolding(crate::specs::Bands::most_after))]
fn most_after(kept: Kept, moment: &Moment) -> u64
    ensures { result ≡ most_after kept moment.now }
{
    match made_deed(moment.note.step, moment.note.deed) {
        Some(CommitDeed::Header { group, .. }) => group,
        _ => kept.most,
    }
}

// Writes the beginning of a band, which tells up to when one stops.
#[tactic(auto, unfolding(crate::specs::Bands::stop_text))]
fn print_stop<O: Write>(out: &mut O, moment: &Moment) -> Result<(), Unwritten>
    ensures ok { OnOk result (Appends (O.contents out.old) (O.contents out.new)
        (stop_text moment.now)) }
{
    print_markup(out, Markup::Field)?;
    print(out, "a stop before ")?;
    print_stop_words(out, moment)
}

fn print_stop_words<O: Write>(out: &mut O, moment: &Moment) -> Result<(), Unwritten>
    ensures ok { OnOk result (Appends (O.contents out.old) (O.contents out.new)
        (stop_words (made_by moment.now) moment.now)) }
{
    let mut buffer = Buffer::new();
    match made_deed(moment.note.step, moment.note.deed) {
        Some(CommitDeed::Sync(_)) => {
            let number = buffer.format(moment.note.syncs);
            print(out, format_args!("sync {number}"))
        }
        Some(_) => {
            let number = buffer.format(moment.note.writes);
            print(out, format_args!("write {number}"))
        }
        None => {
            let number = buffer.format(moment.column as u64 + 1);
            print(out, format_args!("step {number}"))
        }
    }
}

// Writes the rest of a band, up to its right edge.
#[tactic(auto, unfolding(crate::specs::Bands::band_text))]
fn print_band<O: Write>(out: &mut O, frame: Frame, kept: Kept, to: u64) -> Result<(), Unwritten>
    ensures ok { OnOk result (Appends (O.contents out.old) (O.contents out.new)
        (band_text frame kept to)) }
{
    print(out, " keeps ")?;
    print_kept(out, kept)?;
    print_markup(out, Markup::TitleEnd)?;
    print_shown(out, frame, kept, to)?;
    print_markup(out, Markup::FieldEnd)
}

#[tactic(auto, unfolding(crate::specs::Bands::shown_band))]
fn print_shown<O: Write>(out: &mut O, frame: Frame, kept: Kept, to: u64) -> Result<(), Unwritten>
    ensures ok { OnOk result (Appends (O.contents out.old) (O.contents out.new)
        (shown_band frame kept to)) }
{
    let x = left_edge(kept);
    let area = Area {
        x,
        y: row_y(frame, 72),
        width: to.saturating_sub(x),
        height: 26,
    };
    print_area(out, band_class(kept), area)?;
    let spot = Spot {
        x: x + 8,
        y: row_y(frame, 90),
    };
    open_label(out, "k", spot)?;
    print_kept(out, kept)?;
    close_label(out)
}

// The left edge of a band.
#[tactic(auto, unfolding(crate::specs::Bands::left_edge))]
fn left_edge(kept: Kept) -> u64
    ensures edge { result ≡ left_edge kept }
    ensures low { result < 2 ^ 40 }
{
    match kept.behind {
        None => 0,
        Some(column) => column_x(column) + 72,
    }
}

// Writes how many groups are kept.
#[tactic(auto, unfolding(crate::specs::Bands::kept_words))]
fn print_kept<O: Write>(out: &mut O, kept: Kept) -> Result<(), Unwritten>
    ensures ok { OnOk result (Appends (O.contents out.old) (O.contents out.new)
        (kept_words kept)) }
{
    let mut buffers = (Buffer::new(), Buffer::new());
    let sure = buffers.0.format(kept.sure);
    if kept.sure == kept.most {
        return print(out, sure);
    }
    let most = buffers.1.format(kept.most);
    print(out, format_args!("{sure} or {most}"))
}

// The class of a band, by how many groups are kept.
#[tactic(auto, unfolding(crate::specs::Bands::band_class))]
fn band_class(kept: Kept) -> &'static str
    ensures { result.now ≡ band_class kept }
{
    if kept.sure != kept.most {
        return "k5";
    }
    match kept.sure % 5 {
        0 => "k0",
        1 => "k1",
        2 => "k2",
        3 => "k3",
        _ => "k4",
    }
}
