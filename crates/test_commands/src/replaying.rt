// Replays and runs of scripts over a disk.
use crate::refusals::{Ran, Replayed};
use crate::wrong::Wrong;
use blocks::Disk;
use messages::{Detail, Silent};
use player::{Scenario, replay_disk};
use runner::run_disk;
use scripts::{processes, read_schedule, read_script};
use std::alloc::{AllocGlobal, Global};
use std::rt::Clock;
use std::sync::Wait;
use std::thread::Threads;

/// Replays a script in the turns of a schedule. How that ended, and the disk.
pub fn replayed<D: Disk + Drop>(
    alloc: Global,
    disk: D,
    script: &str,
    schedule: &str,
    out: &mut Vec<u8>,
) -> Result<(Replayed, D), Wrong> {
    match read_script(alloc, script.as_bytes()) {
        Ok(tasks) => {
            let processes = processes(tasks.as_slice());
            match read_schedule(alloc, schedule.as_bytes(), processes) {
                Ok(words) => Ok(replay_disk(
                    alloc,
                    disk,
                    Scenario {
                        tasks,
                        processes,
                        words,
                        stop: None,
                    },
                    Detail {
                        steps: false,
                        writes: false,
                    },
                    &mut Silent,
                    out,
                )),
                Err(fault) => Err(Wrong::Schedule(fault)),
            }
        }
        Err(fault) => Err(Wrong::Script(fault)),
    }
}

/// Runs a script by two workers. How that ended, and the disk.
pub fn ran<D: Disk + Drop + Send, R: Threads + Wait + Clock + AllocGlobal + Sync>(
    rt: &R,
    disk: D,
    script: &str,
    out: &mut Vec<u8>,
) -> Result<(Ran, D), Wrong> {
    match read_script(rt.alloc(), script.as_bytes()) {
        Ok(tasks) => {
            let processes = processes(tasks.as_slice());
            Ok(run_disk(rt, disk, tasks, processes, 2, None, out))
        }
        Err(fault) => Err(Wrong::Script(fault)),
    }
}

/// Prints bytes that are a text, in one line.
pub fn print_text(rt: &impl Print, what: &str, bytes: &[u8]) -> anyhow::Result<()> {
    let text = str::from_utf8(bytes)?;
    println!(rt; "{what}: {text:?}")?;
    Ok(())
}
