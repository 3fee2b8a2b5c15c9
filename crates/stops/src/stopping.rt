// A script at each of its stops, and what is printed of it.
ghost use Rattle.std.specs.Prelude.{◌≡◌, ◌<◌, ◌+◌, ◌^◌, [], All, IfOk, IfErr, IsTrue, OnOk};
ghost use Rattle.std.specs.List.{list_all};
ghost use Rattle.std.specs.Io.KnownBytes.{Appends};
ghost use Rattle.scripts.specs.Schedule.{is_word_of};
ghost use Rattle.crash_check.specs.Mismatches.{OnMismatch};
ghost use Rattle.crash_check.specs.declared.mismatch.Stop.TheVariants.{End};
ghost use Rattle.stops.specs.Checks.{ChecksAll, FailsSome, IsUnchecked, PassesAll, images_in};
ghost use Rattle.stops.specs.Trials.{AllPass, Fails, FailsBehind, IsTried, Passes, SomeFails};

use crate::holding::try_held_stops;
use crate::trial::try_run;
use crate::tried::add;
use crash_check::{Cause, Mismatch, Stop, StopsFault};
use json_lines::print_number_object;
use messages::{Meter, Printed, Unwritten, print_images};
use pictures::Column;
use scripts::{Task, Word};
use std::alloc::Global;
use std::io::Write;

/// Checks a script of so many processes, in the turns of a schedule, at each of its stops, and
/// prints how many images these left, as an object of JSON or as a line: one more than the writes
/// of the whole run. Where `held` is
/// said, it is made over a disk that holds writes back, and stopped before each sync, too; each stop
/// then leaves an image for each choice of the held writes that get through, or, where more than 6
/// are held, for each beginning of them. The stops that passed are put into `tried`, in this order: the
/// whole run, those before its writes, those at its syncs; nothing else is in it then.
///
/// # Errors
///
/// `Mismatch` where some image can't be recovered or has other files than those after
/// the committed groups (over a disk that holds writes back those after all groups that were opened,
/// where the image's own header logs something): it tells at which write or sync, which held writes
/// that image has, and the first file that differs. `NoMemory` where memory was refused, also that of
/// an operation. With both nothing was printed. Else `Output`. The run of a `Mismatch` is the first that
/// doesn't pass: the whole one, then those up to each write, then those up to each sync.
pub fn check_stops<P: Meter, O: Write>(
    alloc: Global,
    tasks: &[Task],
    processes: u32,
    words: &[Word],
    held: bool,
    json: bool,
    tried: &mut Vec<Column>,
    progress: &mut P,
    out: &mut O,
) -> Result<(), Printed<StopsFault>>
    requires tasks { All (λ task. task.pid < processes) tasks.now }
    requires words { IsTrue (list_all (is_word_of processes) words.now) }
    ensures checked { OnOk result (ChecksAll json held tasks.now processes words.now
        tried.new.items (O.contents out.old) (O.contents out.new)) }
    ensures refused { IfErr result (IsUnchecked held tasks.now processes words.now
        tried.new.items (out.new ≡ out.old)) }
{
    tried.clear();
    let all = try_all(alloc, tasks, processes, words, progress, held, tried);
    progress.ended();
    let images = all.map_err(Printed::Fault)?;
    print_images_in(out, json, images).map_err(|_| Printed::Output)
}

// Prints how many images there were, as an object or as a line, as the last text of a command.
fn print_images_in<O: Write>(out: &mut O, json: bool, images: u64) -> Result<(), Unwritten>
    ensures ok { OnOk result (Appends (O.contents out.old) (O.contents out.new)
        (images_in json images)) }
{
    if json {
        print_number_object(out, "images", images)
    } else {
        print_images(out, images)
    }
}

// Makes all runs over a disk of that kind. How many images there were.
fn try_all<P: Meter>(
    alloc: Global,
    tasks: &[Task],
    processes: u32,
    words: &[Word],
    progress: &mut P,
    held: bool,
    tried: &mut Vec<Column>,
) -> Result<u64, StopsFault>
    requires tasks { All (λ task. task.pid < processes) tasks.now }
    requires words { IsTrue (list_all (is_word_of processes) words.now) }
    requires none { tried.old.items ≡ [] }
    ensures all { IfOk result (λ images.
        PassesAll held tasks.now processes words.now images tried.new.items) }
    ensures some { IfErr result (λ f. OnMismatch f (λ m.
        FailsSome held tasks.now processes words.now m tried.new.items)) }
{
    if held {
        try_held_stops(alloc, tasks, processes, words, progress, tried)
    } else {
        try_stops(alloc, progress, tasks, processes, words, tried)
    }
}

// Makes the whole run, and then one up to each of its writes. How many images there were.
fn try_stops<P: Meter>(
    alloc: Global,
    progress: &mut P,
    tasks: &[Task],
    processes: u32,
    words: &[Word],
    tried: &mut Vec<Column>,
) -> Result<u64, StopsFault>
    requires tasks { All (λ task. task.pid < processes) tasks.now }
    requires words { IsTrue (list_all (is_word_of processes) words.now) }
    requires none { tried.old.items ≡ [] }
    ensures all { IfOk result (λ images.
        AllPass tasks.now processes words.now images tried.new.items) }
    ensures some { IfErr result (λ f. OnMismatch f (λ m.
        SomeFails tasks.now processes words.now m tried.new.items)) }
{
    let writes = try_whole(alloc, tasks, processes, words)?;
    add(tried, Stop::End, 1)?;
    for before in 0..writes {
        try_behind(alloc, tasks, processes, words, before)?;
        add(tried, Stop::Write(before + 1), 1)?;
        progress.reached(before + 1, writes, "stops");
    }
    Ok(writes.saturating_add(1))
}

// Makes the whole run. How many writes it made.
fn try_whole(
    alloc: Global,
    tasks: &[Task],
    processes: u32,
    words: &[Word],
) -> Result<u64, StopsFault>
    requires tasks { All (λ task. task.pid < processes) tasks.now }
    requires words { IsTrue (list_all (is_word_of processes) words.now) }
    ensures tried { IfOk result (IsTried tasks.now processes words.now 0) }
    ensures fails { IfErr result (λ f. OnMismatch f (λ m. (m.stop ≡ End)
        × Fails tasks.now processes words.now 0 m)) }
{
    match try_run(alloc, tasks, processes, words, 0) {
        Ok(writes) => Ok(writes),
        Err(fault) => Err(fault.at(Stop::End)),
    }
}

// Makes the run up to the write behind so many.
fn try_behind(
    alloc: Global,
    tasks: &[Task],
    processes: u32,
    words: &[Word],
    before: u64,
) -> Result<(), StopsFault>
    requires tasks { All (λ task. task.pid < processes) tasks.now }
    requires words { IsTrue (list_all (is_word_of processes) words.now) }
    requires some { before + 1 < 2 ^ 64 }
    ensures passes { OnOk result (Passes tasks.now processes words.now before) }
    ensures fails { IfErr result (λ f. OnMismatch f
        (FailsBehind tasks.now processes words.now before)) }
{
    let stop = Stop::Write(before + 1);
    match try_run(alloc, tasks, processes, words, before + 1) {
        Ok(writes) if writes == before => Ok(()),
        // It is not the run that was made before.
        Ok(_other) => Err(StopsFault::Mismatch(Mismatch::new(Cause::OtherRun)).at(stop)),
        Err(fault) => Err(fault.at(stop)),
    }
}
