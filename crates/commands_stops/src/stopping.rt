// The command that checks a script at each of its stops, over the files that it names.
ghost use Rattle.std.specs.Prelude.{◌≡◌, ◌<◌, ◌≤◌, All, Err, IfErr, IfOk, IsOk, IsTrue, None, OnOk, Some};
ghost use Rattle.std.specs.Io.KnownBytes.{Appends};
ghost use Rattle.std.specs.List.{list_all};
ghost use Rattle.scripts.specs.Schedule.{is_word_of};
ghost use Rattle.stops.specs.Checks.{ChecksAll, IsUnchecked};
ghost use Rattle.commands_runs.specs.Runs.{IsScenario};
ghost use Rattle.commands_stops.specs.Scripts.{IsUnread, stops_files_telling};
ghost use Rattle.commands_stops.specs.StopsDrawn.{ChecksInto, IsUnbegun, IsUncheckedInto, drawn_stops_telling, unchecked_text};

use crate::stops_drawing::{Undrawn, draw_passed, draw_refused};
use commands::{Holder, schedule_from, script_from};
use crash_check::{StopsFault, print_mismatch};
use messages::{MOST_COLUMNS, Meter, Printed, Reason, Told, Unwritten, print_refusal};
use pictures::Column;
use player::Scenario;
use scripts::{ScheduleFault, ScriptFault, processes};
use std::alloc::Global;
use std::io::Write;
use std::rt::Files;
use stops::check_stops;

/// Why a script isn't checked at each of its stops.
#[derive(Clone, Copy, Debug)]
pub enum StopsRefusal {
    /// The script can't be had.
    Script(ScriptFault),
    /// The schedule can't be had.
    Schedule(ScheduleFault),
    /// The check was refused.
    Stops(Printed<StopsFault>),
}

impl Reason for StopsRefusal {
    ghost telling = { stops_files_telling };

    fn told(&self) -> Told {
        match self {
            StopsRefusal::Script(fault) => fault.told(),
            StopsRefusal::Schedule(fault) => fault.told(),
            StopsRefusal::Stops(refusal) => refusal.told(),
        }
    }
}

/// Why it isn't, or its stops aren't drawn.
#[derive(Clone, Copy, Debug)]
pub enum DrawnStopsRefusal {
    /// Memory for the stops was refused, and nothing was done.
    NoMemory,
    /// The check was refused; and whether what was tried then is drawn, where it was to be.
    Stops(StopsRefusal, Result<(), Undrawn>),
    /// The check was done and printed, and its stops aren't drawn.
    Picture(Undrawn),
}

impl Reason for DrawnStopsRefusal {
    ghost telling = { drawn_stops_telling };

    fn told(&self) -> Told {
        match self {
            DrawnStopsRefusal::NoMemory => Told::new("picture", 1, "NoMemory"),
            DrawnStopsRefusal::Stops(refusal, _) => refusal.told(),
            DrawnStopsRefusal::Picture(undrawn) => undrawn.told(),
        }
    }
}

/// Makes the operations of a script in the turns of a schedule over a new image in memory, up to each of
/// the run's writes, and checks the image that each of these stops leaves, as `check_stops`. Where a path
/// is given as `picture`, a page is then made in the file at it that walks through the whole run, and has
/// the stops; or, where it is to be plain, one on which these are drawn: also where an image didn't pass,
/// as the last of them, or where the output can't be written. The meter is told how many stops were
/// checked.
///
/// # Errors
///
/// `NoMemory`, and then nothing was done; `Stops` with a fault of the script, then of the schedule, then a
/// refusal of `check_stops`, and what kept those stops from a page that were tried by then, if anything
/// did; `Picture` where the check was done and printed, and there is no page: never of more than 10,000
/// steps, nor a plain one of more than 2000 stops.
pub fn stops_into<R: Files + AllocGlobal, P: Meter, H: Holder<R::File>, O: Write>(
    rt: &R,
    script: &str,
    schedule: &str,
    held: bool,
    json: bool,
    picture: Option<&str>,
    plain: bool,
    progress: &mut P,
    holder: &mut H,
    out: &mut O,
) -> Result<(), DrawnStopsRefusal>
    ensures checked { OnOk result (ChecksInto R.File.contents json held plain
        (O.contents out.old) (O.contents out.new) picture.entry) }
    ensures refused { IfErr result (IsUncheckedInto R.File.contents json held plain
        (O.contents out.old) (O.contents out.new) (out.new ≡ out.old) picture.entry) }
    ensures unbegun { IfErr result (λ refusal. IsUnbegun refusal → holder.new ≡ holder.old) }
{
    if let Some(path) = picture {
        return stops_pictured(
            rt, script, schedule, held, json, path, plain, progress, holder, out,
        );
    }
    let scenario = match read_scenario(rt, script, schedule) {
        Ok(scenario) => scenario,
        Err(refusal) => return Err(DrawnStopsRefusal::Stops(refusal, Ok(()))),
    };
    let mut tried = Vec::new(rt.alloc());
    match stops_of(rt.alloc(), &scenario, held, json, &mut tried, progress, out) {
        Ok(()) => Ok(()),
        Err(refusal) => Err(DrawnStopsRefusal::Stops(StopsRefusal::Stops(refusal), Ok(()))),
    }
}

// The same with a page at this path.
fn stops_pictured<R: Files + AllocGlobal, P: Meter, H: Holder<R::File>, O: Write>(
    rt: &R,
    script: &str,
    schedule: &str,
    held: bool,
    json: bool,
    path: &str,
    plain: bool,
    progress: &mut P,
    holder: &mut H,
    out: &mut O,
) -> Result<(), DrawnStopsRefusal>
    ensures checked { OnOk result (ChecksInto R.File.contents json held plain
        (O.contents out.old) (O.contents out.new) (Some path)) }
    ensures refused { IfErr result (IsUncheckedInto R.File.contents json held plain
        (O.contents out.old) (O.contents out.new) (out.new ≡ out.old) (Some path)) }
    ensures unbegun { IfErr result (λ refusal. IsUnbegun refusal → holder.new ≡ holder.old) }
{
    let mut tried = match Vec::with_capacity(rt.alloc(), MOST_COLUMNS) {
        Ok(tried) => tried,
        Err(_refused) => return Err(DrawnStopsRefusal::NoMemory),
    };
    let scenario = match read_scenario(rt, script, schedule) {
        Ok(scenario) => scenario,
        Err(refusal) => return Err(DrawnStopsRefusal::Stops(refusal, Ok(()))),
    };
    let checked = stops_of(rt.alloc(), &scenario, held, json, &mut tried, progress, out);
    match checked {
        Ok(()) => match draw_passed(rt, path, plain, held, &scenario, tried.as_slice(), holder) {
            Ok(()) => Ok(()),
            Err(undrawn) => Err(DrawnStopsRefusal::Picture(undrawn)),
        },
        Err(refusal) => {
            let columns = tried.as_slice();
            let drawn = draw_refused(rt, path, plain, held, &scenario, columns, &refusal, holder);
            Err(DrawnStopsRefusal::Stops(StopsRefusal::Stops(refusal), drawn))
        }
    }
}

// What a script and a schedule have to be made. It is refused with a fault of the script, then of the
// schedule.
fn read_scenario<R: Files + AllocGlobal>(
    rt: &R,
    script: &str,
    schedule: &str,
) -> Result<Scenario, StopsRefusal>
    ensures scenario { IfOk result (IsScenario None) }
    ensures refused { IfErr result IsUnread }
{
    let tasks = script_from(rt, script).map_err(StopsRefusal::Script)?;
    let processes = processes(tasks.as_slice());
    let words = schedule_from(rt, schedule, processes).map_err(StopsRefusal::Schedule)?;
    Ok(Scenario {
        tasks,
        processes,
        words,
        stop: None,
    })
}

// Checks a scenario at each of its stops, as `check_stops`, which puts those that passed into `tried`.
fn stops_of<P: Meter, O: Write>(
    alloc: Global,
    scenario: &Scenario,
    held: bool,
    json: bool,
    tried: &mut Vec<Column>,
    progress: &mut P,
    out: &mut O,
) -> Result<(), Printed<StopsFault>>
    requires tasks { All (λ task. task.pid < scenario.now.processes) scenario.now.tasks.items }
    requires words { IsTrue
        (list_all (is_word_of scenario.now.processes) scenario.now.words.items) }
    ensures checked { OnOk result (ChecksAll json held scenario.now.tasks.items
        scenario.now.processes scenario.now.words.items tried.new.items
        (O.contents out.old) (O.contents out.new)) }
    ensures refused { IfErr result (IsUnchecked held scenario.now.tasks.items
        scenario.now.processes scenario.now.words.items tried.new.items (out.new ≡ out.old)) }
{
    check_stops(
        alloc,
        scenario.tasks.as_slice(),
        scenario.processes,
        scenario.words.as_slice(),
        held,
        json,
        tried,
        progress,
        out,
    )
}

/// Ends the command: says to `err` why it was refused, if it was, by a line of the program of that
/// name, and behind that where a mismatch was met, as far as that can be written. The exit status: 0
/// where it was done, 1 where it was refused.
pub fn end_stops<E: Write>(program: &str, ended: Result<(), DrawnStopsRefusal>, err: &mut E) -> u8
    ensures status { result ≤ 1 }
    ensures done { result ≡ 0 → IsOk ended }
    ensures silent { result ≡ 0 → err.new ≡ err.old }
    ensures refused { result ≡ 1 → (r : DrawnStopsRefusal) × (ended ≡ Err r) }
{
    match ended {
        Ok(()) => 0,
        Err(refusal) => {
            let _unwritten = print_unchecked(program, &refusal, err);
            1
        }
    }
}

// Writes why a script isn't checked: its line, and behind it where a mismatch was met.
fn print_unchecked<E: Write>(
    program: &str,
    refusal: &DrawnStopsRefusal,
    err: &mut E,
) -> Result<(), Unwritten>
    ensures { OnOk result (Appends (E.contents err.old) (E.contents err.new)
        (unchecked_text program.now refusal.now)) }
{
    print_refusal(program, refusal, err)?;
    match refusal {
        DrawnStopsRefusal::Stops(
            StopsRefusal::Stops(Printed::Fault(StopsFault::Mismatch(mismatch))),
            _,
        ) => print_mismatch(err, mismatch),
        _ => Ok(()),
    }
}
