// The page of a script's stops, in the file of a path.
ghost use Rattle.std.specs.Prelude.{◌≡◌, ◌<◌, ◌≤◌, All, IfErr, IsErrAnd, IsOk, IsTrue, None, OnOk, length};
ghost use Rattle.std.specs.List.{list_all};
ghost use Rattle.scripts.specs.Schedule.{is_word_of};
ghost use Rattle.stops.specs.Tried.{at_of};
ghost use Rattle.commands_stops.specs.StopsDrawn.{
  DrawsLost,
  DrawsPlain,
  DrawsRefused,
  DrawsStops,
  HasNoFile,
  HasNoPage,
  IsUndrawn,
  IsUnplain,
  undrawn_of,
  undrawn_telling,
};

use arrayvec::ArrayVec;
use commands::Holder;
use commands_drawing::{PictureFault, draw};
use commands_runs::{PicturedRefusal, explore_new};
use crash_check::{Mismatch, Stop, StopsFault, print_mismatch};
use messages::{MOST_COLUMNS, Printed, Reason, Told};
use pictures::{Column, Lost, Stops};
use player::Scenario;
use std::rt::Files;
use stops::at_of;

/// Why the stops that were tried have no page.
#[derive(Clone, Copy, Debug)]
pub enum Undrawn {
    /// So many passed, which is more than a plain page has; or the run has so many steps, which is more
    /// than another has.
    TooLong(u32),
    /// Memory to make the run once more, or for what is told of it, was refused.
    NoMemory,
    /// The page can't be written.
    Picture(PictureFault),
}

impl Reason for Undrawn {
    ghost telling = { undrawn_telling };

    fn told(&self) -> Told {
        match self {
            Undrawn::TooLong(count) => Told::naming("picture", 2, "TooLong", *count),
            Undrawn::NoMemory => Told::new("picture", 1, "NoMemory"),
            Undrawn::Picture(fault) => fault.told(),
        }
    }
}

/// Makes the page of the stops of a check each of which passed, in the file of a path, as `draw`: a plain
/// one, on which they are drawn, or one that walks through the whole run of the scenario.
///
/// # Errors
///
/// `TooLong` where it is plain and there are more than `MOST_COLUMNS`, or where it isn't and the run has more
/// than 10,000 steps; `NoMemory` where it isn't plain; `Picture` with a fault of `draw`. With all but this
/// the holder is as it was.
pub(crate) fn draw_passed<R: Files + AllocGlobal, H: Holder<R::File>>(
    rt: &R,
    path: &str,
    plain: bool,
    held: bool,
    scenario: &Scenario,
    columns: &[Column],
    holder: &mut H,
) -> Result<(), Undrawn>
    requires tasks { All (λ task. task.pid < scenario.now.processes) scenario.now.tasks.items }
    requires words { IsTrue
        (list_all (is_word_of scenario.now.processes) scenario.now.words.items) }
    ensures drawn { OnOk result (DrawsStops R.File.contents plain held scenario.now.tasks.items
        scenario.now.processes scenario.now.words.items columns.now None) }
    ensures undrawn { IfErr result (IsUndrawn plain held scenario.now.tasks.items
        scenario.now.processes scenario.now.words.items columns.now) }
    ensures unbegun { IfErr result (λ undrawn. HasNoFile undrawn → holder.new ≡ holder.old) }
{
    draw_stops(rt, path, plain, held, scenario, columns, None, holder)
}

/// Makes that of the stops that were tried where a check was refused: those that passed, and behind them the
/// one that didn't; all, where only the output can't be written; none with another refusal, and then the
/// holder is as it was.
///
/// # Errors
///
/// As those of `draw_passed`; `Picture`, too, where a mismatch has no short words.
pub(crate) fn draw_refused<R: Files + AllocGlobal, H: Holder<R::File>>(
    rt: &R,
    path: &str,
    plain: bool,
    held: bool,
    scenario: &Scenario,
    columns: &[Column],
    refusal: &Printed<StopsFault>,
    holder: &mut H,
) -> Result<(), Undrawn>
    requires tasks { All (λ task. task.pid < scenario.now.processes) scenario.now.tasks.items }
    requires words { IsTrue
        (list_all (is_word_of scenario.now.processes) scenario.now.words.items) }
    ensures drawn { OnOk result (DrawsRefused R.File.contents plain held scenario.now.tasks.items
        scenario.now.processes scenario.now.words.items columns.now refusal.now) }
    ensures undrawn { IfErr result (IsUndrawn plain held scenario.now.tasks.items
        scenario.now.processes scenario.now.words.items columns.now) }
    ensures none { HasNoPage refusal.now → IsOk result }
    ensures untouched { HasNoPage refusal.now → holder.new ≡ holder.old }
{
    match refusal {
        Printed::Fault(StopsFault::NoMemory) => Ok(()),
        Printed::Fault(StopsFault::Mismatch(mismatch)) => {
            draw_lost(rt, path, plain, held, scenario, columns, mismatch, holder)
        }
        Printed::Output => draw_passed(rt, path, plain, held, scenario, columns, holder),
    }
}

// That of the stops that passed, and behind them the one at which an image didn't.
fn draw_lost<R: Files + AllocGlobal, H: Holder<R::File>>(
    rt: &R,
    path: &str,
    plain: bool,
    held: bool,
    scenario: &Scenario,
    columns: &[Column],
    mismatch: &Mismatch,
    holder: &mut H,
) -> Result<(), Undrawn>
    requires tasks { All (λ task. task.pid < scenario.now.processes) scenario.now.tasks.items }
    requires words { IsTrue
        (list_all (is_word_of scenario.now.processes) scenario.now.words.items) }
    ensures drawn { OnOk result (DrawsLost R.File.contents plain held scenario.now.tasks.items
        scenario.now.processes scenario.now.words.items columns.now mismatch.now) }
    ensures undrawn { IfErr result (IsUndrawn plain held scenario.now.tasks.items
        scenario.now.processes scenario.now.words.items columns.now) }
{
    let mut words: ArrayVec<u8, 400> = ArrayVec::new();
    if print_mismatch(&mut words, mismatch).is_err() {
        return unworded(plain, held, scenario, columns);
    }
    let lost = lost_at(mismatch.stop, words.as_slice());
    match draw_stops(rt, path, plain, held, scenario, columns, Some(lost), holder) {
        Ok(()) => Ok(()),
        Err(undrawn) => Err(undrawn),
    }
}

// A stop at which an image didn't pass, with these words.
fn lost_at(stop: Stop, words: &[u8]) -> Lost<'_>
    ensures at { result.at ≡ at_of stop }
    ensures words { result.words.now ≡ words.now }
{
    let at = at_of(stop);
    Lost { at, words }
}

// There is no page, since the words of the last stop take too much room.
fn unworded(plain: bool, held: bool, scenario: &Scenario, columns: &[Column]) -> Result<(), Undrawn>
    ensures undrawn { IsErrAnd result (IsUndrawn plain held scenario.now.tasks.items
        scenario.now.processes scenario.now.words.items columns.now) }
{
    if plain {
        return match fits(columns) {
            Ok(()) => Err(Undrawn::Picture(PictureFault::Write)),
            Err(undrawn) => Err(undrawn),
        };
    }
    Err(Undrawn::Picture(PictureFault::Write))
}

// Whether so many stops fit into a plain page.
fn fits(columns: &[Column]) -> Result<(), Undrawn>
    ensures fits { OnOk result (length columns.now ≤ 2000) }
    ensures more { IfErr result (IsUnplain columns.now) }
    ensures long { IfErr result HasNoFile }
{
    if columns.len() > MOST_COLUMNS {
        return Err(Undrawn::TooLong(columns.len().min(4_294_967_295) as u32));
    }
    Ok(())
}

// Makes the page of the stops that passed, and of the one behind them that didn't, if there is one.
fn draw_stops<R: Files + AllocGlobal, H: Holder<R::File>>(
    rt: &R,
    path: &str,
    plain: bool,
    held: bool,
    scenario: &Scenario,
    columns: &[Column],
    lost: Option<Lost<'_>>,
    holder: &mut H,
) -> Result<(), Undrawn>
    requires tasks { All (λ task. task.pid < scenario.now.processes) scenario.now.tasks.items }
    requires words { IsTrue
        (list_all (is_word_of scenario.now.processes) scenario.now.words.items) }
    ensures drawn { OnOk result (DrawsStops R.File.contents plain held scenario.now.tasks.items
        scenario.now.processes scenario.now.words.items columns.now lost.entry) }
    ensures undrawn { IfErr result (IsUndrawn plain held scenario.now.tasks.items
        scenario.now.processes scenario.now.words.items columns.now) }
    ensures unbegun { IfErr result (λ undrawn. HasNoFile undrawn → holder.new ≡ holder.old) }
{
    if plain {
        return draw_plain(rt, path, columns, lost, holder);
    }
    match explore_new(rt, path, scenario, held, columns, lost, holder) {
        Ok(()) => Ok(()),
        Err(refusal) => Err(undrawn_of(refusal)),
    }
}

// Why there is no page that walks through a run.
fn undrawn_of(refusal: PicturedRefusal) -> Undrawn
    ensures { result ≡ undrawn_of refusal }
{
    match refusal {
        PicturedRefusal::TooLong(steps) => Undrawn::TooLong(steps),
        PicturedRefusal::Picture(fault) => Undrawn::Picture(fault),
        PicturedRefusal::NoMemory | PicturedRefusal::Unfiled | PicturedRefusal::Replay(_) => {
            Undrawn::NoMemory
        }
    }
}

// Draws them.
fn draw_plain<R: Files + AllocGlobal, H: Holder<R::File>>(
    rt: &R,
    path: &str,
    columns: &[Column],
    lost: Option<Lost<'_>>,
    holder: &mut H,
) -> Result<(), Undrawn>
    ensures drawn { OnOk result (DrawsPlain R.File.contents columns.now lost.entry) }
    ensures undrawn { IfErr result (IsUnplain columns.now) }
    ensures unbegun { IfErr result (λ undrawn. HasNoFile undrawn → holder.new ≡ holder.old) }
{
    if let Err(undrawn) = fits(columns) {
        return Err(undrawn);
    }
    match draw(rt, path, &Stops { columns, lost }, holder) {
        Ok(()) => Ok(()),
        Err(fault) => Err(Undrawn::Picture(fault)),
    }
}
