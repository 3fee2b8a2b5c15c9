// A script over a disk that holds writes back, at each of its stops.
ghost use Rattle.std.specs.Prelude.{◌≡◌, ◌<◌, ◌≤◌, ◌+◌, ◌^◌, [], All, IfOk, IfErr, IsTrue};
ghost use Rattle.std.specs.List.{list_all};
ghost use Rattle.scripts.specs.Schedule.{is_word_of};
ghost use Rattle.crash_check.specs.Mismatches.{OnMismatch};
ghost use Rattle.crash_check.specs.declared.mismatch.Stop.TheVariants.{End};
ghost use Rattle.stops.specs.Holding.{
  AllHeldPass,
  FailsHeld,
  FailsHeldBehind,
  FirstFails,
  IsTriedHeld,
  PassEach,
  PassesHeld,
  SomeHeldFails,
  calls_of,
  sync_behind,
};
ghost use Rattle.stops.specs.Tried.{TriesMore};

use crate::held_trial::{Calls, HeldRun, try_held_run};
use crate::tried::add;
use crash_check::{Cause, Mismatch, Stop, StopsFault};
use messages::Meter;
use pictures::Column;
use scripts::{Task, Word};
use std::alloc::Global;

/// Makes the whole run, and then one up to each of its writes, and one up to each of its syncs. How
/// many images these may leave. The stops that passed are added to `tried`, which has none yet.
///
/// # Errors
///
/// `Mismatch` at the first image that can't be recovered, or has other files than it has to have: it
/// tells the write or the sync, which held writes that image has, and the first file that differs.
/// `NoMemory` where memory was refused, also that of an operation.
pub(crate) fn try_held_stops<P: Meter>(
    alloc: Global,
    tasks: &[Task],
    processes: u32,
    words: &[Word],
    progress: &mut P,
    tried: &mut Vec<Column>,
) -> Result<u64, StopsFault>
    requires tasks { All (λ task. task.pid < processes) tasks.now }
    requires words { IsTrue (list_all (is_word_of processes) words.now) }
    requires none { tried.old.items ≡ [] }
    ensures all { IfOk result (λ images.
        AllHeldPass tasks.now processes words.now images tried.new.items) }
    ensures some { IfErr result (λ f. OnMismatch f (λ m.
        SomeHeldFails tasks.now processes words.now m tried.new.items)) }
{
    let whole = try_whole(alloc, tasks, processes, words)?;
    add(tried, Stop::End, whole.images)?;
    let writes = Calls::Writes.made_by(whole);
    let at_writes = try_before(
        alloc,
        tasks,
        processes,
        words,
        Calls::Writes,
        writes,
        progress,
        tried,
    )?;
    let syncs = Calls::Syncs.made_by(whole);
    let at_syncs = try_before(
        alloc,
        tasks,
        processes,
        words,
        Calls::Syncs,
        syncs,
        progress,
        tried,
    )?;
    Ok(
        whole
            .images
            .saturating_add(at_writes)
            .saturating_add(at_syncs),
    )
}

// Makes the whole run. What it came to.
fn try_whole(
    alloc: Global,
    tasks: &[Task],
    processes: u32,
    words: &[Word],
) -> Result<HeldRun, StopsFault>
    requires tasks { All (λ task. task.pid < processes) tasks.now }
    requires words { IsTrue (list_all (is_word_of processes) words.now) }
    ensures tried { IfOk result (IsTriedHeld tasks.now processes words.now 0 0) }
    ensures fails { IfErr result (λ f. OnMismatch f (λ m. (m.stop ≡ End)
        × FailsHeld tasks.now processes words.now 0 0 m)) }
{
    match try_held_run(alloc, tasks, processes, words, 0, 0) {
        Ok(run) => Ok(run),
        Err(fault) => Err(fault.at(Stop::End)),
    }
}

// Makes the run up to each of so many calls. How many images these runs may leave.
fn try_before<P: Meter>(
    alloc: Global,
    tasks: &[Task],
    processes: u32,
    words: &[Word],
    calls: Calls,
    count: u64,
    progress: &mut P,
    tried: &mut Vec<Column>,
) -> Result<u64, StopsFault>
    requires tasks { All (λ task. task.pid < processes) tasks.now }
    requires words { IsTrue (list_all (is_word_of processes) words.now) }
    requires some { sync_behind calls count ≤ 2 ^ 64 }
    ensures all { IfOk result (λ images. TriesMore tried.old.items tried.new.items
        (PassEach tasks.now processes words.now calls count images)) }
    ensures some { IfErr result (λ f. OnMismatch f (λ m. TriesMore tried.old.items tried.new.items
        (FirstFails tasks.now processes words.now calls count m))) }
{
    let mut images = 0u64;
    for before in 0..count {
        let left = try_stop(alloc, tasks, processes, words, calls, before)?;
        add(tried, calls.stop_behind(before), left)?;
        images = images.saturating_add(left);
        progress.reached(before + 1, count, "stops");
    }
    Ok(images)
}

// Makes the run up to the call of a kind behind so many. How many images it may leave.
fn try_stop(
    alloc: Global,
    tasks: &[Task],
    processes: u32,
    words: &[Word],
    calls: Calls,
    before: u64,
) -> Result<u64, StopsFault>
    requires tasks { All (λ task. task.pid < processes) tasks.now }
    requires words { IsTrue (list_all (is_word_of processes) words.now) }
    requires some { before + 1 < 2 ^ 64 }
    requires next { sync_behind calls before < 2 ^ 64 }
    ensures passes { IfOk result (PassesHeld tasks.now processes words.now calls before) }
    ensures fails { IfErr result (λ f. OnMismatch f
        (FailsHeldBehind tasks.now processes words.now calls before)) }
{
    let write = calls.write_behind(before);
    let sync = calls.sync_behind(before);
    let stop = calls.stop_behind(before);
    match try_held_run(alloc, tasks, processes, words, write, sync) {
        Ok(run) if calls.made_by(run) == before => Ok(run.images),
        // It is not the run that was made before.
        Ok(_other) => Err(StopsFault::Mismatch(Mismatch::new(Cause::OtherRun)).at(stop)),
        Err(fault) => Err(fault.at(stop)),
    }
}
