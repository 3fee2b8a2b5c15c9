// Calls of a kernel, which is opened over the disk.
use crate::bench::{Faulty, disk_of, done};
use crate::operations::{operation, told_answer};
use crate::pieces::{fill, gather};
use crate::rounds::make_rounds;
use crate::teller::Teller;
use blocks::Disk;
use kernel::{Kernel, OpenFault, Step, Turn, run};
use model::types::Op;
use ports::QueueIntake;
use std::alloc::Global;

// More steps than any operation makes.
const MOST_STEPS: u32 = 40_000;

// A question that a herald is never asked.
const NEVER: &str = "18446744073709551615";

/// A kernel over plain queues.
pub type Opened = Kernel<Faulty, QueueIntake, Teller>;

/// Does a call of this file, if the line is one for which all holds that it asks.
pub fn call(
    alloc: Global,
    disk: &mut Faulty,
    kernel: &mut Option<Opened>,
    words: &[&str],
) -> anyhow::Result<Option<String>> {
    match *words {
        ["kernel", processes] => open(alloc, disk, kernel, processes, NEVER),
        ["kernel", processes, question] => open(alloc, disk, kernel, processes, question),
        ["leave"] => done(alloc, take_back(disk, kernel)),
        _ => match kernel {
            Some(kernel) => call_open(alloc, kernel, words),
            None => Ok(None),
        },
    }
}

fn call_open(alloc: Global, kernel: &mut Opened, words: &[&str]) -> anyhow::Result<Option<String>> {
    if let Some((pid, op)) = operation(alloc, words)? {
        return submit(alloc, kernel, pid, op);
    }
    match *words {
        ["step", pid] => step(alloc, kernel, pid, "1"),
        ["step", pid, count] => step(alloc, kernel, pid, count),
        ["steps", pid] => steps(alloc, kernel, pid),
        ["eight", pid] => eight(alloc, kernel, pid),
        ["last", pid] => last(alloc, kernel, pid),
        ["pieces", pid, "fill", inode, from, to, digits] => {
            fill(alloc, kernel, [pid, inode, from, to], digits)
        }
        ["pieces", pid, "read", inode, from, to] => gather(alloc, kernel, [pid, inode, from, to]),
        ["rounds", most] => make_rounds(alloc, kernel, most),
        ["poll", pid] => poll(alloc, kernel, pid),
        ["flush"] => Ok(Some(format!(in alloc; "{:?}", kernel.flush())?)),
        ["shut"] => {
            kernel.shut();
            done(alloc, true)
        }
        ["reach"] => reach(alloc, kernel),
        _ => Ok(None),
    }
}

// Opens a kernel whose herald tells of a shutdown at this question. The disk comes back where it
// can't be opened.
fn open(
    alloc: Global,
    desk: &mut Faulty,
    kernel: &mut Option<Opened>,
    processes: &str,
    question: &str,
) -> anyhow::Result<Option<String>> {
    let processes: u32 = processes.parse()?;
    let question: u64 = question.parse()?;
    let processes = processes.min(64);
    let empty = disk_of(alloc, 0)?;
    let intake = QueueIntake::new(alloc, processes)?;
    let disk = std::mem::replace(desk, empty);
    let opened = Kernel::open(alloc, disk, intake, Teller::new(question), processes);
    told_opening(alloc, put(desk, kernel, opened))
}

// Puts the kernel in its place, or the disk, and answers why it was refused.
fn put(
    desk: &mut Faulty,
    kernel: &mut Option<Opened>,
    opened: Result<Opened, (OpenFault, Faulty)>,
) -> Option<OpenFault> {
    match opened {
        Ok(opened) => {
            *kernel = Some(opened);
            None
        }
        Err((fault, disk)) => {
            *desk = disk;
            Some(fault)
        }
    }
}

fn told_opening(alloc: Global, refused: Option<OpenFault>) -> anyhow::Result<Option<String>> {
    match refused {
        None => done(alloc, true),
        Some(fault) => Ok(Some(format!(in alloc; "{fault:?}")?)),
    }
}

// Takes the disk back from the kernel, if there is one.
fn take_back(disk: &mut Faulty, kernel: &mut Option<Opened>) -> bool {
    match kernel.take() {
        Some(kernel) => {
            *disk = kernel.into_disk();
            true
        }
        None => false,
    }
}

fn submit(alloc: Global, kernel: &mut Opened, pid: u32, op: Op) -> anyhow::Result<Option<String>> {
    if pid as usize >= kernel.processes() {
        return Ok(None);
    }
    match kernel.submit(pid, op) {
        Ok(number) => Ok(Some(format!(in alloc; "{number}")?)),
        Err(_) => Ok(Some(String::from_str(alloc, "no place")?)),
    }
}

// So many steps, and what the last of them answers.
fn step(
    alloc: Global,
    kernel: &mut Opened,
    pid: &str,
    count: &str,
) -> anyhow::Result<Option<String>> {
    let pid: u32 = pid.parse()?;
    let count: u32 = count.parse()?;
    let mut answer = None;
    for _ in 0..count.min(MOST_STEPS) {
        if pid as usize >= kernel.processes() {
            return Ok(None);
        }
        answer = Some(kernel.step(pid));
    }
    match answer {
        Some(answer) => Ok(Some(format!(in alloc; "{answer:?}")?)),
        None => Ok(None),
    }
}

// Steps until one doesn't answer Moved.
fn steps(alloc: Global, kernel: &mut Opened, pid: &str) -> anyhow::Result<Option<String>> {
    let pid: u32 = pid.parse()?;
    match go_on(kernel, pid) {
        Some((moved, answer)) => Ok(Some(format!(in alloc; "{moved} Moved, {answer:?}")?)),
        None => Ok(None),
    }
}

/// Makes steps of a process until one doesn't answer Moved. How many did, and what that one answers;
/// None where there is no such process.
pub fn go_on(kernel: &mut Opened, pid: u32) -> Option<(u32, Step)> {
    for moved in 0..MOST_STEPS {
        if pid as usize >= kernel.processes() {
            return None;
        }
        let answer = kernel.step(pid);
        if answer != Step::Moved {
            return Some((moved, answer));
        }
    }
    None
}

// A run of eight turns of a process.
fn eight(alloc: Global, kernel: &mut Opened, pid: &str) -> anyhow::Result<Option<String>> {
    let pid: u32 = pid.parse()?;
    if pid as usize >= kernel.processes() {
        return Ok(None);
    }
    let made = run(kernel, &[Turn::Proc(pid); 8]);
    Ok(Some(format!(in alloc; "{made} turns")?))
}

// A run of the shutdown and a turn.
fn last(alloc: Global, kernel: &mut Opened, pid: &str) -> anyhow::Result<Option<String>> {
    let pid: u32 = pid.parse()?;
    if pid as usize >= kernel.processes() {
        return Ok(None);
    }
    let made = run(kernel, &[Turn::Shut, Turn::Proc(pid)]);
    Ok(Some(format!(in alloc; "{made} turns")?))
}

fn poll(alloc: Global, kernel: &mut Opened, pid: &str) -> anyhow::Result<Option<String>> {
    let pid: u32 = pid.parse()?;
    if pid as usize >= kernel.processes() {
        return Ok(None);
    }
    Ok(Some(told_answer(alloc, kernel.poll(pid))?))
}

// How far the kernel is.
fn reach(alloc: Global, kernel: &Opened) -> anyhow::Result<Option<String>> {
    let (had, committed, opened) = (kernel.had(), kernel.committed(), kernel.opened());
    let (writes, fault) = (kernel.disk().writes(), kernel.fault());
    Ok(Some(format!(in alloc;
        "{had} had their turn, {committed} of {opened} committed, {writes} writes, fault {fault:?}"
    )?))
}
