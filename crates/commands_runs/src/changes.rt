// Where the files that recovery gives change in a run: at the opening, and behind each step with which
// a group was committed; or behind each write with which one was.
ghost use Rattle.std.specs.Prelude.{◌≡◌, ◌++◌, IfOk, OnOk};
ghost use Rattle.commands_runs.specs.Explored.{commits, stop_after, stops_among, stops_with};
ghost use Rattle.commands_runs.specs.Filed.{stop_behind, stops_at, stops_of};

use blocks::NoMemory;
use json_lines::Written;
use pictures::Moment;
use std::alloc::Global;

/// A stop of a run.
#[derive(Clone, Copy)]
pub struct Stop {
    /// The place of the first step behind it.
    pub column: u32,
    /// The number, from 1, of the write that isn't made.
    pub write: u64,
}

// The stops at which the files change along these steps.
pub fn stops_of(alloc: Global, moments: &[Moment]) -> Result<Vec<Stop>, NoMemory>
    ensures { IfOk result (λ stops. stops.items ≡ stops_of moments.now) }
{
    let mut stops = Vec::new(alloc);
    stops.push(Stop {
        column: 0,
        write: 1,
    })?;
    let mut committed = 0;
    for moment in moments {
        add_stop(&mut stops, committed, moment)?;
        committed = moment.note.committed;
    }
    Ok(stops)
}

// The stops at which the files change along these writes of a run.
pub fn stops_among(alloc: Global, written: &[Written]) -> Result<Vec<Stop>, NoMemory>
    ensures { IfOk result (λ stops. stops.items ≡ stops_among written.now) }
{
    let mut stops = Vec::new(alloc);
    stops.push(Stop {
        column: 0,
        write: 1,
    })?;
    let mut number = 0usize;
    for write in written {
        number += 1;
        add_stop_with(&mut stops, number as u64, write)?;
    }
    Ok(stops)
}

// Adds the stop behind the write of a number, where a group was committed with it.
fn add_stop_with(stops: &mut Vec<Stop>, number: u64, write: &Written) -> Result<(), NoMemory>
    ensures { OnOk result (stops.new.items ≡ stops.old.items ++ stops_with number write.now) }
{
    if !commits(write) {
        return Ok(());
    }
    stops.push(stop_after(number))?;
    Ok(())
}

// Whether a write is that of a header that names homes.
fn commits(write: &Written) -> bool
    ensures { result ≡ commits write.now }
{
    write.block == 2 && write.bytes[0] != 0
}

fn stop_after(writes: u64) -> Stop
    ensures { result ≡ stop_after writes }
{
    Stop {
        column: writes.min(4_294_967_295) as u32,
        write: writes.saturating_add(1),
    }
}

// Adds the stop behind a step, where a group was committed with it.
fn add_stop(stops: &mut Vec<Stop>, committed: u64, moment: &Moment) -> Result<(), NoMemory>
    ensures { OnOk result (stops.new.items ≡ stops.old.items ++ stops_at committed moment.now) }
{
    if moment.note.committed == committed {
        return Ok(());
    }
    stops.push(stop_behind(moment))?;
    Ok(())
}

fn stop_behind(moment: &Moment) -> Stop
    ensures { result ≡ stop_behind moment.now }
{
    Stop {
        column: moment.column.saturating_add(1),
        write: moment.note.writes.saturating_add(1),
    }
}
