// The lines of a run, each with its line feed.
ghost use Rattle.std.specs.Prelude.{Some};
ghost use Rattle.messages.specs.Answers.{account_line, answer_line, rest_line};

use crate::events::ReplyText;
use itoa::Buffer;
use model::types::Answer;
use std::fmt;

/// The line of an answer: the process, the operation's place among its process's, from 1, and the
/// reply.
#[derive(Drop)]
pub struct AnswerLine<'a> {
    /// The process.
    pub pid: u32,
    /// What it was answered.
    pub answer: &'a Answer,
}

impl fmt::Display for AnswerLine<'_> {
    ghost output = { λ line. Some (answer_line line.pid line.answer.now) };

    fn fmt<W: fmt::Write>(&self, f: &mut fmt::Formatter<W>) -> fmt::Result {
        let mut buffers = (Buffer::new(), Buffer::new());
        let pid = buffers.0.format(self.pid);
        let seq = buffers.1.format(self.answer.seq);
        let reply = ReplyText(&self.answer.reply);
        write!(f, "{pid} {seq} {reply}\n")
    }
}

/// The line of what became of a process's operations: how many were handed in, how many of these
/// the kernel took, how many it left, and how many changing ones are of committed groups.
#[derive(Drop)]
pub struct AccountLine {
    /// The process.
    pub pid: u32,
    /// The operations that were handed in.
    pub submitted: u64,
    /// Those that were taken.
    pub begun: u64,
    /// Those that were left.
    pub left: u64,
    /// The changing ones of committed groups.
    pub kept: u64,
}

impl fmt::Display for AccountLine {
    ghost output = { λ line.
        Some (account_line line.pid line.submitted line.begun line.left line.kept) };

    fn fmt<W: fmt::Write>(&self, f: &mut fmt::Formatter<W>) -> fmt::Result {
        let mut buffers = (Buffer::new(), Buffer::new(), Buffer::new());
        let pid = buffers.0.format(self.pid);
        let submitted = buffers.1.format(self.submitted);
        let begun = buffers.2.format(self.begun);
        let rest = RestLine {
            left: self.left,
            kept: self.kept,
        };
        write!(f, "{pid} submitted {submitted} begun {begun} {rest}")
    }
}

// The end of that line.
#[derive(Drop)]
struct RestLine {
    left: u64,
    kept: u64,
}

impl fmt::Display for RestLine {
    ghost output = { λ line. Some (rest_line line.left line.kept) };

    fn fmt<W: fmt::Write>(&self, f: &mut fmt::Formatter<W>) -> fmt::Result {
        let mut buffers = (Buffer::new(), Buffer::new());
        let left = buffers.0.format(self.left);
        let kept = buffers.1.format(self.kept);
        write!(f, "left {left} kept {kept}\n")
    }
}
