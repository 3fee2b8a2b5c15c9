// The script and the schedule of a replay, from their files.
ghost use Rattle.std.specs.Prelude.{◌≡◌, ◌⊎◌, ◌<◌, ℕ, List, All, IfOk, IfErr, IsTrue, Some};
ghost use Rattle.std.specs.List.{list_all};
ghost use Rattle.scripts.specs.Schedule.{fault_of, is_word_of};
ghost use Rattle.scripts.specs.Script.{fault_of as script_fault};
ghost use Rattle.scripts.specs.Readers.{IsScheduleOf, IsScriptOf, IsUnread, IsUnreadScript};

use scripts::{ScheduleFault, ScriptFault, Task, Word, schedule_unread, script_unread};
use std::fs::File;
use std::rt::Files;

/// The operations of the script in the file at this path, in order.
///
/// # Errors
///
/// `File` where the file can't be read; else a fault of `scripts::script_from`. No contract of std
/// says which bytes a path's file has.
pub fn script_from<R: Files + AllocGlobal>(rt: &R, path: &str) -> Result<Vec<Task>, ScriptFault>
    ensures tasks { IfOk result (λ tasks. (text : List ℕ) × IsScriptOf text tasks.items) }
    ensures fault { IfErr result
        (λ fault. IsUnreadScript fault ⊎ ((text : List ℕ) × (script_fault text ≡ Some fault))) }
    ensures processes { IfOk result (λ tasks. All (λ task. task.pid < 32) tasks.items) }
{
    let file = File::open(rt, path).map_err(|error| script_unread(error))?;
    scripts::script_from(rt.alloc(), file)
}

/// The words of the schedule in the file at this path, in order, for so many processes.
///
/// # Errors
///
/// `File` where the file can't be read; else a fault of `scripts::schedule_from`.
pub fn schedule_from<R: Files + AllocGlobal>(
    rt: &R,
    path: &str,
    processes: u32,
) -> Result<Vec<Word>, ScheduleFault>
    ensures words { IfOk result
        (λ words. (text : List ℕ) × IsScheduleOf processes text words.items) }
    ensures processes { IfOk result
        (λ words. IsTrue (list_all (is_word_of processes) words.items)) }
    ensures fault { IfErr result
        (λ fault. IsUnread fault ⊎ ((text : List ℕ) × (fault_of processes text ≡ Some fault))) }
{
    let file = File::open(rt, path).map_err(|error| schedule_unread(error))?;
    scripts::schedule_from(rt.alloc(), file, processes)
}
