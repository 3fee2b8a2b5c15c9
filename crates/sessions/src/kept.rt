// The answers of processes that were looked at, and aren't taken yet.
ghost use Rattle.std.specs.Prelude.{◌≡◌, ◌<◌, IfOk, None, Some, length, is_some, replicate, slice_set};
ghost use Rattle.std.specs.Option.{option_map};
ghost use Rattle.sessions.specs.Kept.{byte_count, bytes_of, kept_answer};

use blocks::NoMemory;
use model::types::{Answer, Reply};
use std::alloc::Global;
use std::marker::Model;

/// One of each process at most. Contracts see their list.
#[derive(Drop)]
pub struct Kept {
    answers: Vec<Option<Answer>>,
}

impl Model for Kept {
    ghost use Rattle.std.specs.Prelude.{List, Option};
    ghost use Rattle.model.specs.declared.types.operations.Answer.{Answer};

    ghost Value = { List (Option Answer) };

    ghost view = { λ k. k.answers.items };
}

impl Kept {
    /// None of so many processes.
    ///
    /// # Errors
    ///
    /// `NoMemory` where the allocator refuses their places.
    pub fn new(alloc: Global, processes: u32) -> Result<Kept, NoMemory>
        ensures { IfOk result (λ kept. kept ≡ replicate processes None) }
    {
        let mut answers = Vec::new(alloc);
        for _process in 0..processes {
            answers.push(None)?;
        }
        Ok(Kept { answers })
    }

    /// Whether one is kept of a process.
    pub fn has(&self, pid: u32) -> bool
        requires { pid < length self.now }
        ensures { result ≡ is_some (kept_answer self.now pid) }
    {
        self.answers[pid as usize].is_some()
    }

    /// Keeps an answer of a process.
    pub fn keep(&mut self, pid: u32, answer: Answer)
        requires { pid < length self.old }
        ensures { self.new ≡ slice_set self.old pid (Some answer) }
    {
        self.answers[pid as usize] = Some(answer);
    }

    /// Takes the one that is kept of a process.
    pub fn take(&mut self, pid: u32) -> Option<Answer>
        requires { pid < length self.old }
        ensures value { result ≡ kept_answer self.old pid }
        ensures after { self.new ≡ slice_set self.old pid None }
    {
        self.answers[pid as usize].take()
    }

    /// How many bytes the one that is kept of a process carries.
    pub fn bytes(&self, pid: u32) -> Option<usize>
        requires { pid < length self.now }
        ensures { result ≡ option_map byte_count (kept_answer self.now pid) }
    {
        match &self.answers[pid as usize] {
            Some(answer) => Some(byte_count(&answer.reply)),
            None => None,
        }
    }
}

// How many bytes a reply carries.
fn byte_count(reply: &Reply) -> usize
    ensures { result ≡ length (bytes_of reply.now) }
{
    match reply {
        Reply::Bytes(content) => content.as_slice().len(),
        _ => 0,
    }
}
