// What a turn of a schedule came to, and its line.
ghost use Rattle.std.specs.Prelude.{◌≡◌, ◌++◌, Some, codes};
ghost use Rattle.messages.specs.Events.{step_text, bytes_text, reply_text, answer_text, event_text, is_last};
ghost use Rattle.model.specs.declared.types.operations.Step.TheVariants.{Sleeping};

use crate::hex_digits::{PIECE, digits_as_text};
use itoa::Buffer;
use model::types::{Answer, Reply, Step, Why};
use std::fmt;

/// What a turn came to.
#[derive(Drop)]
pub enum Event {
    /// The last step of this process came to this.
    Stepped(u32, Step),
    /// An operation of this process was answered.
    Answered(u32, Answer),
    /// No operation begins from now on.
    Shut,
    /// The step would have made this write of the run, counted from 1.
    Stopped(u64),
}

impl Event {
    /// Whether the turn was the last of its run: the disk failed, or was made to.
    pub fn is_last(&self) -> bool
        ensures { result ≡ is_last self.now }
    {
        match self {
            Event::Stopped(_) => true,
            Event::Stepped(_, step) => matches!(step, Step::Halted),
            Event::Answered(..) | Event::Shut => false,
        }
    }
}

/// The line of a turn, without its line feed.
impl fmt::Display for Event {
    ghost output = { λ event. Some (event_text event) };

    fn fmt<W: fmt::Write>(&self, f: &mut fmt::Formatter<W>) -> fmt::Result {
        let mut digits = Buffer::new();
        match self {
            Event::Stepped(pid, step) => {
                f.write_str(digits.format(*pid))?;
                let end = end_of_line(*step);
                f.write_str(&end[..end.len() - 1])
            }
            Event::Answered(pid, answer) => {
                let pid = digits.format(*pid);
                let answer = AnswerText(answer);
                write!(f, "{pid} {answer}")
            }
            Event::Shut => write!(f, "shut"),
            Event::Stopped(write) => {
                let write = digits.format(*write);
                write!(f, "stopped before write {write}")
            }
        }
    }
}

// The end of a line after the process, with its line feed: what its step came to.
pub(crate) fn end_of_line(step: Step) -> &'static str
    ensures { result.now ≡ codes " " ++ step_text step ++ codes "\n" }
{
    match step {
        Step::Moved => " moved\n",
        Step::Answered => " answered\n",
        Step::Sleeping(why) => sleeping_end(why),
        Step::Idle => " idle\n",
        Step::NoMemory => " nomemory\n",
        Step::ShutDown => " shutdown\n",
        Step::Halted => " halted\n",
    }
}

// The same of a step that waits for this.
fn sleeping_end(why: Why) -> &'static str
    ensures { result.now ≡ codes " " ++ step_text (Sleeping why) ++ codes "\n" }
{
    match why {
        Why::Committing => " sleeping 1 Committing\n",
        Why::LogFull => " sleeping 2 LogFull\n",
        Why::InodeHeld => " sleeping 3 InodeHeld\n",
        Why::BufferHeld => " sleeping 4 BufferHeld\n",
        Why::NoBuffer => " sleeping 5 NoBuffer\n",
        Why::AnswersFull => " sleeping 6 AnswersFull\n",
    }
}

// An answer, as a line tells it.
#[derive(Drop)]
struct AnswerText<'a>(&'a Answer);

impl fmt::Display for AnswerText<'_> {
    ghost output = { λ answer. Some (answer_text answer.0.now) };

    fn fmt<W: fmt::Write>(&self, f: &mut fmt::Formatter<W>) -> fmt::Result {
        let mut buffers = (Buffer::new(), Buffer::new());
        let seq = buffers.0.format(self.0.seq);
        let group = buffers.1.format(self.0.group);
        let reply = ReplyText(&self.0.reply);
        write!(f, "answered {seq} {group} {reply}")
    }
}

// A reply, as a line tells it.
#[derive(Drop)]
pub(crate) struct ReplyText<'a>(pub(crate) &'a Reply);

impl fmt::Display for ReplyText<'_> {
    ghost output = { λ reply. Some (reply_text reply.0.now) };

    fn fmt<W: fmt::Write>(&self, f: &mut fmt::Formatter<W>) -> fmt::Result {
        let mut buffers = (Buffer::new(), Buffer::new());
        match self.0 {
            Reply::Made(inode) => {
                let inode = buffers.0.format(*inode);
                write!(f, "made {inode}")
            }
            Reply::NoInode => write!(f, "noinode"),
            Reply::Wrote(count) => {
                let count = buffers.0.format(*count);
                write!(f, "wrote {count}")
            }
            Reply::Bytes(bytes) => {
                let digits = HexText(bytes.as_slice());
                write!(f, "bytes {digits}")
            }
            Reply::Done => write!(f, "done"),
            Reply::StatOf(kind, _links, size) => {
                let kind = buffers.0.format(*kind);
                let size = buffers.1.format(*size);
                write!(f, "stat {kind} {size}")
            }
            Reply::NoFile => write!(f, "refused 1 NoFile"),
            Reply::BadOffset => write!(f, "refused 2 BadOffset"),
            Reply::TooBig => write!(f, "refused 3 TooBig"),
            Reply::TooLong => write!(f, "refused 4 TooLong"),
            Reply::BadType => write!(f, "refused 5 BadType"),
        }
    }
}

// Bytes as hexadecimal digits of lower case, two each, or `-` where there are none.
#[derive(Drop)]
struct HexText<'a>(&'a [u8]);

impl fmt::Display for HexText<'_> {
    ghost output = { λ bytes. Some (bytes_text bytes.0.now) };

    fn fmt<W: fmt::Write>(&self, f: &mut fmt::Formatter<W>) -> fmt::Result {
        if self.0.is_empty() {
            return write!(f, "-");
        }
        let mut place = [[0u8; 2]; PIECE];
        for piece in self.0.chunks(PIECE) {
            f.write_str(digits_as_text(piece, &mut place))?;
        }
        Ok(())
    }
}
