// Scripts and schedules, from the readers that give them.
ghost use Rattle.std.specs.Prelude.{◌≡◌, ◌≢◌, ◌<◌, take, All, IfOk, IfErr, IfSome, IsTrue};
ghost use Rattle.std.specs.List.{list_all};
ghost use Rattle.std.specs.IoError.{error_kind};
ghost use Rattle.scripts.specs.Schedule.{is_word_of};
ghost use Rattle.scripts.specs.Readers.{GivesNoSchedule, GivesNoScript, GivesSchedule, GivesScript};

use crate::schedule::{SCHEDULE_LIMIT, ScheduleFault, Word, read_schedule};
use crate::script::{SCRIPT_LIMIT, ScriptFault, Task, read_script};
use std::alloc::Global;
use std::io;
use std::io::{ErrorKind, Read};

/// The operations of the script that a reader gives, in order.
///
/// # Errors
///
/// `File` where it can't be read; else a fault of `read_script`. `NoMemory` where memory is refused.
pub fn script_from<I: Read + Drop>(alloc: Global, input: I) -> Result<Vec<Task>, ScriptFault>
    ensures tasks { IfOk result (λ tasks. GivesScript (I.remaining input) tasks.items) }
    ensures fault { IfErr result (GivesNoScript (I.remaining input)) }
    ensures processes { IfOk result (λ tasks. All (λ task. task.pid < 32) tasks.items) }
{
    let text = first_bytes(alloc, input, SCRIPT_LIMIT as u64 + 1).map_err(script_unread)?;
    read_script(alloc, text.as_slice())
}

/// The words of the schedule that a reader gives, in order, for so many processes.
///
/// # Errors
///
/// `File` where it can't be read; else a fault of `read_schedule`. `NoMemory` where memory is
/// refused.
pub fn schedule_from<I: Read + Drop>(
    alloc: Global,
    input: I,
    processes: u32,
) -> Result<Vec<Word>, ScheduleFault>
    ensures words { IfOk result (λ words. GivesSchedule processes (I.remaining input) words.items) }
    ensures processes { IfOk result (λ words. IsTrue
        (list_all (is_word_of processes) words.items)) }
    ensures fault { IfErr result (GivesNoSchedule processes (I.remaining input)) }
{
    let text = first_bytes(alloc, input, SCHEDULE_LIMIT as u64 + 1).map_err(schedule_unread)?;
    read_schedule(alloc, text.as_slice(), processes)
}

// The first bytes of a reader, at most so many.
fn first_bytes<I: Read + Drop>(alloc: Global, input: I, most: u64) -> io::Result<Vec<u8>>
    ensures { IfOk result (λ bytes. IfSome (I.remaining input)
        (λ all. bytes.items ≡ take most all)) }
{
    let mut bytes = Vec::new(alloc);
    input.take(most).read_to_end(&mut bytes)?;
    Ok(bytes)
}

/// Why a script's file gave no bytes.
pub fn script_unread(error: io::Error) -> ScriptFault
    ensures memory { error_kind error ≡ ErrorKind.OutOfMemory → result ≡ ScriptFault.NoMemory }
    ensures other { error_kind error ≢ ErrorKind.OutOfMemory → result ≡ ScriptFault.File }
{
    match error.kind() {
        ErrorKind::OutOfMemory => ScriptFault::NoMemory,
        _ => ScriptFault::File,
    }
}

/// Why a schedule's file gave no bytes.
pub fn schedule_unread(error: io::Error) -> ScheduleFault
    ensures memory { error_kind error ≡ ErrorKind.OutOfMemory → result ≡ ScheduleFault.NoMemory }
    ensures other { error_kind error ≢ ErrorKind.OutOfMemory → result ≡ ScheduleFault.File }
{
    match error.kind() {
        ErrorKind::OutOfMemory => ScheduleFault::NoMemory,
        _ => ScheduleFault::File,
    }
}
