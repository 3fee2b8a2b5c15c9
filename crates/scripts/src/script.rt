// Scripts of operations.
ghost use Rattle.std.specs.Prelude.{◌≡◌, ◌≢◌, ◌+◌, ◌<◌, ◌≤◌, ◌⊎◌, [], All, Any, false, IfErr, IfOk, IsTrue, None, Some, ◌∷◌, ◌++◌, length};
ghost use Rattle.scripts.specs.Script.{fault_in_lines, fault_of, is_skipped, task_of, tasks_of};
ghost use Rattle.scripts.specs.Operation.{statement_of};

use crate::field::LineFault;
use crate::operation::statement;
use model::types::Op;
use std::alloc::{AllocFailed, Global};
use thiserror::Error;

/// The most bytes of a script.
pub const SCRIPT_LIMIT: usize = 4_194_304;

// The most operations of a script.
const TASK_LIMIT: usize = 10_000;

/// An operation of a script.
#[derive(Drop)]
pub struct Task {
    /// The number of its line, from 1.
    pub line: u32,
    /// The process, at most 31.
    pub pid: u32,
    pub op: Op,
}

/// Why a script can't be had.
#[derive(Clone, Copy, Debug, Error)]
pub enum ScriptFault {
    /// The first line, from 1, that is neither skipped nor in the table.
    #[error("line {0} is no operation")]
    BadLine(u32),
    /// It has more than 4,194,304 bytes, or more than 10,000 operations.
    #[error("the script is too large")]
    TooLarge,
    #[error("memory was refused")]
    NoMemory,
    /// Its file can't be read. This crate reads no file.
    #[error("the script can't be read")]
    File,
}

impl<T: Drop> From<AllocFailed<T>> for ScriptFault {
    ghost use Rattle.scripts.specs.declared.script.ScriptFault.TheVariants as fault;

    ghost from_gives = { λ _ e. e ≡ fault.NoMemory };

    fn from(_refused: AllocFailed<T>) -> ScriptFault {
        ScriptFault::NoMemory
    }
}

/// The operations of a script, in order.
///
/// # Errors
///
/// `TooLarge` where the text has more than 4,194,304 bytes, whatever they are; else `BadLine` at
/// the first line that is neither skipped nor in the table; else `TooLarge` where there are more
/// than 10,000 operations. `NoMemory` where the allocator refuses their bytes.
pub fn read_script(alloc: Global, text: &[u8]) -> Result<Vec<Task>, ScriptFault>
    ensures tasks { IfOk result (λ tasks. tasks.items ≡ tasks_of text.now) }
    ensures sound { IfOk result (λ tasks. fault_of text.now ≡ None) }
    ensures fault { IfErr result
        (λ fault. (fault ≡ ScriptFault.NoMemory) ⊎ (fault_of text.now ≡ Some fault)) }
    ensures processes { IfOk result (λ tasks. All (λ task. task.pid < 32) tasks.items) }
{
    if text.len() > SCRIPT_LIMIT {
        return Err(ScriptFault::TooLarge);
    }
    tasks_in(alloc, text)
}

// The operations of a text's lines, in order. Lines behind the operation past the last that there
// may be are read too, since a bad one is told first.
fn tasks_in(alloc: Global, text: &[u8]) -> Result<Vec<Task>, ScriptFault>
    requires { length text.now ≤ 4194304 }
    ensures tasks { IfOk result (λ tasks. tasks.items ≡ tasks_of text.now) }
    ensures sound { IfOk result (λ tasks. fault_in_lines text.now ≡ None) }
    ensures fault { IfErr result
        (λ fault. (fault ≡ ScriptFault.NoMemory) ⊎ (fault_in_lines text.now ≡ Some fault)) }
{
    let mut tasks = Vec::new(alloc);
    let mut surplus = false;
    let mut number = 0;
    for line in text.split(|byte| *byte == b'\n') {
        number += 1;
        if is_skipped(line) {
            continue;
        }
        let task = task_of_line(alloc, number, line)?;
        let added = add(&mut tasks, task)?;
        if !added {
            surplus = true;
        }
    }
    if surplus {
        return Err(ScriptFault::TooLarge);
    }
    Ok(tasks)
}

// Adds an operation, unless there are as many as there may be; whether it was added.
fn add(tasks: &mut Vec<Task>, task: Task) -> Result<bool, ScriptFault>
    requires { length tasks.old.items ≤ 10000 }
    ensures added { IfOk result
        (λ added. IsTrue added → tasks.new.items ≡ tasks.old.items ++ task ∷ []) }
    ensures room { IfOk result (λ added. IsTrue added → length tasks.old.items < 10000) }
    ensures full { IfOk result (λ added. added ≡ false → length tasks.old.items ≡ 10000) }
    ensures same { IfOk result (λ added. added ≡ false → tasks.new.items ≡ tasks.old.items) }
    ensures memory { IfErr result (λ fault. fault ≡ ScriptFault.NoMemory) }
{
    if tasks.len() < TASK_LIMIT {
        tasks.push(task)?;
        Ok(true)
    } else {
        Ok(false)
    }
}

// An empty line or a comment.
fn is_skipped(line: &[u8]) -> bool
    ensures { result ≡ is_skipped line.now }
{
    match line {
        [] => true,
        [first, ..] => *first == b'#',
    }
}

// The operation of the line of this number.
fn task_of_line(alloc: Global, number: u32, line: &[u8]) -> Result<Task, ScriptFault>
    ensures ok { IfOk result (λ task. task_of number line.now ≡ Some task) }
    ensures fault { IfErr result (λ fault. (fault ≡ ScriptFault.NoMemory)
        ⊎ ((fault ≡ ScriptFault.BadLine number) × (statement_of line.now ≡ None))) }
{
    match statement(alloc, line) {
        Ok((pid, op)) => Ok(Task {
            line: number,
            pid,
            op,
        }),
        Err(LineFault::Bad) => Err(ScriptFault::BadLine(number)),
        Err(LineFault::NoMemory) => Err(ScriptFault::NoMemory),
    }
}

/// The number of processes of a script: one more than the greatest, or 1 where there is no
/// operation.
pub fn processes(tasks: &[Task]) -> u32
    requires { All (λ task. task.pid < 32) tasks.now }
    ensures none { tasks.now ≡ [] → result ≡ 1 }
    ensures above { All (λ task. task.pid < result) tasks.now }
    ensures greatest { tasks.now ≢ [] → Any (λ task. task.pid + 1 ≡ result) tasks.now }
{
    tasks
        .iter()
        .map(|task| task.pid)
        .max()
        .map_or(1, |greatest| greatest + 1)
}
