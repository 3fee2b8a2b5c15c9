// Bytes of a file that are written, or read, piece by piece.
use crate::kernels::{Opened, go_on};
use crate::operations::{filled, told_answer};
use kernel::Step;
use model::types::{Answer, Op, Reply, TRANSFER_LIMIT};
use std::alloc::Global;

// The bytes of a file from one place up to another, which a process goes through.
#[derive(Clone, Copy)]
struct Stretch {
    pid: u32,
    inode: u32,
    from: u32,
    to: u32,
}

impl Stretch {
    fn parse([pid, inode, from, to]: [&str; 4]) -> anyhow::Result<Stretch> {
        Ok(Stretch {
            pid: pid.parse()?,
            inode: inode.parse()?,
            from: from.parse()?,
            to: to.parse()?,
        })
    }

    // How many pieces there are, all but the last with as many bytes as a write or a read may have.
    fn count(&self) -> u32 {
        self.to.saturating_sub(self.from).div_ceil(TRANSFER_LIMIT)
    }

    // Where a piece begins, and how many bytes it has.
    fn piece(&self, number: u32) -> (u32, u32) {
        let at = self
            .from
            .saturating_add(number.saturating_mul(TRANSFER_LIMIT));
        (at, self.to.saturating_sub(at).min(TRANSFER_LIMIT))
    }

    // Makes the steps of an operation to its end. How many moved; None where it is not answered.
    fn perform(&self, kernel: &mut Opened, op: Op) -> Option<u32> {
        if self.pid as usize >= kernel.processes() || kernel.submit(self.pid, op).is_err() {
            return None;
        }
        match go_on(kernel, self.pid)? {
            (moved, Step::Answered) => Some(moved),
            _ => None,
        }
    }
}

/// Writes the bytes of a stretch, which the words are (a process, an inode, and two places). Each of
/// them has these two digits. How many pieces that were, how many of their steps moved, and the last
/// answer.
pub fn fill(
    alloc: Global,
    kernel: &mut Opened,
    words: [&str; 4],
    digits: &str,
) -> anyhow::Result<Option<String>> {
    let stretch = Stretch::parse(words)?;
    let mut last = None;
    match fill_all(alloc, kernel, stretch, digits, &mut last) {
        Ok(Done::All(steps)) => {
            let (pieces, last) = (stretch.count(), told_answer(alloc, last)?);
            Ok(Some(format!(in alloc; "{pieces} pieces, {steps} Moved, {last}")?))
        }
        Ok(Done::UpTo(number)) => told_end(alloc, number),
        Err(error) => Err(error),
    }
}

// How far a process came with a stretch: through all pieces, with so many steps that moved, or up to
// a piece that was not answered.
#[derive(Clone, Copy)]
enum Done {
    All(u32),
    UpTo(u32),
}

fn told_end(alloc: Global, number: u32) -> anyhow::Result<Option<String>> {
    Ok(Some(format!(in alloc; "no answer to piece {number}")?))
}

fn fill_all(
    alloc: Global,
    kernel: &mut Opened,
    stretch: Stretch,
    digits: &str,
    last: &mut Option<Answer>,
) -> anyhow::Result<Done> {
    let mut steps: u32 = 0;
    for number in 0..stretch.count() {
        let (at, count) = stretch.piece(number);
        let op = Op::Write(stretch.inode, at, filled(alloc, count, digits)?);
        let Some(moved) = stretch.perform(kernel, op) else {
            return Ok(Done::UpTo(number));
        };
        steps = steps.saturating_add(moved);
        *last = answer_of(kernel, stretch.pid);
    }
    Ok(Done::All(steps))
}

fn answer_of(kernel: &mut Opened, pid: u32) -> Option<Answer> {
    if (pid as usize) < kernel.processes() {
        kernel.poll(pid)
    } else {
        None
    }
}

/// Reads the bytes of a stretch, which the words are. How many pieces that were, how many of their
/// steps moved, and the bytes: how many have which digits.
pub fn gather(
    alloc: Global,
    kernel: &mut Opened,
    words: [&str; 4],
) -> anyhow::Result<Option<String>> {
    let stretch = Stretch::parse(words)?;
    let mut runs = Runs::new(alloc);
    match gather_all(alloc, kernel, stretch, &mut runs) {
        Ok(Done::All(steps)) => {
            let (pieces, text) = (stretch.count(), runs.text.as_str());
            Ok(Some(format!(in alloc; "{pieces} pieces, {steps} Moved{text}")?))
        }
        Ok(Done::UpTo(number)) => told_end(alloc, number),
        Err(error) => Err(error),
    }
}

fn gather_all(
    alloc: Global,
    kernel: &mut Opened,
    stretch: Stretch,
    runs: &mut Runs,
) -> anyhow::Result<Done> {
    let mut steps: u32 = 0;
    for number in 0..stretch.count() {
        let (at, count) = stretch.piece(number);
        let Some(moved) = stretch.perform(kernel, Op::Read(stretch.inode, at, count)) else {
            return Ok(Done::UpTo(number));
        };
        steps = steps.saturating_add(moved);
        runs.add_reply(alloc, answer_of(kernel, stretch.pid))?;
    }
    runs.tell(alloc)?;
    Ok(Done::All(steps))
}

// Bytes, by how often one stands behind itself.
#[derive(Drop)]
struct Runs {
    text: String,
    last: u8,
    count: u32,
}

impl Runs {
    fn new(alloc: Global) -> Runs {
        Runs {
            text: String::new(alloc),
            last: 0,
            count: 0,
        }
    }

    // Adds the bytes that a process was answered, if these are the answer.
    fn add_reply(&mut self, alloc: Global, answer: Option<Answer>) -> anyhow::Result<()> {
        match answer {
            Some(answer) => match answer.reply {
                Reply::Bytes(bytes) => self.add(alloc, bytes.as_slice()),
                _ => Ok(()),
            },
            None => Ok(()),
        }
    }

    fn add(&mut self, alloc: Global, bytes: &[u8]) -> anyhow::Result<()> {
        for byte in bytes {
            if *byte != self.last {
                self.tell(alloc)?;
                self.last = *byte;
            }
            self.count = self.count.saturating_add(1);
        }
        Ok(())
    }

    // Tells of the bytes that stood behind each other, if there were any.
    fn tell(&mut self, alloc: Global) -> anyhow::Result<()> {
        let (text, last, count) = (self.text.as_str(), self.last, self.count);
        if count > 0 {
            self.text = format!(in alloc; "{text}, {count} times {last:02x}")?;
            self.count = 0;
        }
        Ok(())
    }
}
