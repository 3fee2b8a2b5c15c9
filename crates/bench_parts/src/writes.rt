// Writes to files of an image in memory.
ghost use Rattle.std.specs.Prelude.{◌≤◌};

use crate::failed::Failed;
use crate::images::new_image;
use blocks::MemDisk;
use kernel::{Kernel, Step};
use model::content::Content;
use model::types::Op;
use ports::{PlainHerald, QueueIntake};
use std::alloc::Global;

type InMemory = Kernel<MemDisk, QueueIntake, PlainHerald>;

const PROCESSES: u32 = 4;

// More steps than any operation makes.
const MOST_STEPS: u32 = 2000;

/// Makes so many writes, of 1024 bytes each, by four processes in turn. How many steps that took.
pub fn count_steps(alloc: Global, writes: u32) -> Result<u64, Failed> {
    match new_image(alloc) {
        Ok(disk) => match opened(alloc, disk, PROCESSES) {
            Ok(mut kernel) => write_all(alloc, &mut kernel, writes),
            Err(failed) => Err(failed),
        },
        Err(failed) => Err(failed),
    }
}

// A kernel of so many processes over an image.
fn opened(alloc: Global, disk: MemDisk, processes: u32) -> Result<InMemory, Failed>
    requires { processes ≤ 32 }
{
    let Ok(intake) = QueueIntake::new(alloc, processes) else {
        return Err(Failed::NoMemory);
    };
    match Kernel::open(alloc, disk, intake, PlainHerald::new(), processes) {
        Ok(kernel) => Ok(kernel),
        Err((fault, _disk)) => Err(Failed::Opening(fault)),
    }
}

fn write_all(alloc: Global, kernel: &mut InMemory, writes: u32) -> Result<u64, Failed> {
    create_all(kernel)?;
    let mut steps: u64 = 0;
    for k in 0..writes {
        let made = write(alloc, kernel, k)?;
        steps = steps.saturating_add(u64::from(made));
    }
    Ok(steps)
}

fn create_all(kernel: &mut InMemory) -> Result<(), Failed> {
    for pid in 0..PROCESSES {
        let _steps = perform(kernel, pid, Op::Create(2))?;
    }
    Ok(())
}

// Makes the kth write. How many steps that took.
fn write(alloc: Global, kernel: &mut InMemory, k: u32) -> Result<u32, Failed> {
    let pid = k % PROCESSES;
    // A file has ten blocks in the end.
    let offset = k / PROCESSES % 10 * 1024;
    let bytes = Content::copy_of(alloc, &[7; 1024])?;
    perform(kernel, pid, Op::Write(pid + 1, offset, bytes))
}

// Makes the steps of an operation. How many these were.
fn perform(kernel: &mut InMemory, pid: u32, op: Op) -> Result<u32, Failed> {
    if pid as usize >= kernel.processes() {
        return Err(Failed::NoProcess);
    }
    if kernel.submit(pid, op).is_err() {
        return Err(Failed::NoPlace);
    }
    for step in 0..MOST_STEPS {
        if is_answered(kernel, pid)? {
            return Ok(step + 1);
        }
    }
    Err(Failed::TooManySteps)
}

// Makes a step. Whether it answered, which is then polled.
fn is_answered(kernel: &mut InMemory, pid: u32) -> Result<bool, Failed> {
    if pid as usize >= kernel.processes() {
        return Err(Failed::NoProcess);
    }
    match kernel.step(pid) {
        Step::Moved => Ok(false),
        Step::Answered => {
            let _answer = kernel.poll(pid);
            Ok(true)
        }
        _ => Err(Failed::NoStep),
    }
}
