// Schedules of turns.
ghost use Rattle.std.specs.Prelude.{◌≡◌, ◌≤◌, ◌⊎◌, length, IfErr, IfOk, IsTrue, None, Some};
ghost use Rattle.std.specs.List.{list_all};
ghost use Rattle.scripts.specs.Schedule.{fault_in_words, fault_of, is_word_of, process_of, schedule_of, word_of};

use crate::number::number;
use std::alloc::{AllocFailed, Global};
use thiserror::Error;

/// The most bytes of a schedule.
pub const SCHEDULE_LIMIT: usize = 1_048_576;

/// A word of a schedule.
#[derive(Clone, Copy, Debug)]
pub enum Word {
    /// One step of this process.
    Step(u32),
    /// Steps of this process until one doesn't move.
    Steps(u32),
    Shutdown,
}

/// Why a schedule can't be had.
#[derive(Clone, Copy, Debug, Error)]
pub enum ScheduleFault {
    /// The first word, from 1, that is no word of a schedule.
    #[error("word {0} is no turn")]
    BadWord(u32),
    /// It has more than 1,048,576 bytes.
    #[error("the schedule is too large")]
    TooLarge,
    #[error("memory was refused")]
    NoMemory,
    /// Its file can't be read. This crate reads no file.
    #[error("the schedule can't be read")]
    File,
}

impl<T: Drop> From<AllocFailed<T>> for ScheduleFault {
    ghost use Rattle.scripts.specs.declared.schedule.ScheduleFault.TheVariants as fault;

    ghost from_gives = { λ _ e. e ≡ fault.NoMemory };

    fn from(_refused: AllocFailed<T>) -> ScheduleFault {
        ScheduleFault::NoMemory
    }
}

/// The words of a schedule, in order, for a script of so many processes.
///
/// # Errors
///
/// `TooLarge` where the text has more than 1,048,576 bytes, whatever they are; else `BadWord` at
/// the first word that is neither `S` nor the number of a process below `processes`, with `!`
/// behind it or not. `NoMemory` where the allocator refuses their bytes.
pub fn read_schedule(alloc: Global, text: &[u8], processes: u32) -> Result<Vec<Word>, ScheduleFault>
    ensures words { IfOk result (λ words. words.items ≡ schedule_of processes text.now) }
    ensures sound { IfOk result (λ words. fault_of processes text.now ≡ None) }
    ensures processes { IfOk result
        (λ words. IsTrue (list_all (is_word_of processes) words.items)) }
    ensures fault { IfErr result
        (λ fault. (fault ≡ ScheduleFault.NoMemory) ⊎ (fault_of processes text.now ≡ Some fault)) }
{
    if text.len() > SCHEDULE_LIMIT {
        return Err(ScheduleFault::TooLarge);
    }
    words_in(alloc, text, processes)
}

// What a text's words say, in order.
fn words_in(alloc: Global, text: &[u8], processes: u32) -> Result<Vec<Word>, ScheduleFault>
    requires { length text.now ≤ 1048576 }
    ensures words { IfOk result (λ words. words.items ≡ schedule_of processes text.now) }
    ensures sound { IfOk result (λ words. fault_in_words processes text.now ≡ None) }
    ensures fault { IfErr result
        (λ fault. (fault ≡ ScheduleFault.NoMemory)
        ⊎ (fault_in_words processes text.now ≡ Some fault)) }
{
    let mut words = Vec::new(alloc);
    let mut number = 0;
    let parts = text.split(|byte| *byte == b' ' || *byte == b'\n');
    for word in parts.filter(|part| !part.is_empty()) {
        number += 1;
        match meaning(processes, word) {
            Some(word) => words.push(word)?,
            None => return Err(ScheduleFault::BadWord(number)),
        }
    }
    Ok(words)
}

// What a word says.
#[tactic(auto, unfolding(crate::specs::Schedule::word_of))]
fn meaning(processes: u32, text: &[u8]) -> Option<Word>
    ensures { result ≡ word_of processes text.now }
{
    if text == b"S".as_slice() {
        return Some(Word::Shutdown);
    }
    match text.split_last() {
        Some((b'!', text)) => Some(Word::Steps(process(processes, text)?)),
        _ => Some(Word::Step(process(processes, text)?)),
    }
}

// The process that a text names.
fn process(processes: u32, text: &[u8]) -> Option<u32>
    ensures { result ≡ process_of processes text.now }
{
    let pid = number(text)?;
    if pid < processes { Some(pid) } else { None }
}
