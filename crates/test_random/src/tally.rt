// What the runs came to, in numbers.
use crate::lengths::Lengths;
use crate::setting::Setting;
use kernel::Step;
use model::types::{Attribute, Entry, Op, Reply, Why};
use std::io;

/// What is counted: of whole runs the operations that had their turn, their answers, and the steps
/// in which a process had to wait; what failed, and what was lost; and what stops kept.
#[derive(Clone, Copy)]
pub enum Row {
    Scripts,
    Processes,
    Creations,
    Writes,
    Readings,
    Truncations,
    Removals,
    LinkCounts,
    Lengths,
    Questions,
    Made,
    NoInode,
    WroteAll,
    WroteFewer,
    WroteFar,
    WroteZeroes,
    Bytes,
    Done,
    StatOf,
    NoFile,
    BadOffset,
    TooBig,
    TooLong,
    BadType,
    Committing,
    LogFull,
    InodeHeld,
    BufferHeld,
    NoBuffer,
    AnswersFull,
    Steps,
    BlocksWritten,
    Groups,
    FullImages,
    Stops,
    OpeningReads,
    FailedReads,
    FailedOld,
    FailedNew,
    FailedSyncs,
    Through,
    Lost,
    GroupsKept,
    OperationsKept,
    GroupsMore,
    WroteFarther,
    WroteFarthest,
    FewerFar,
    Emptied,
}

// What a table says of each, in their order.
const TEXTS: [&str; 49] = [
    "scripts",
    "processes",
    "creations",
    "writes",
    "readings",
    "truncations",
    "removals",
    "counts of links",
    "lengths set",
    "questions",
    "answered made",
    "answered noinode",
    "answered wrote, all bytes",
    "answered wrote, fewer",
    "of these, behind 12 KiB",
    "answered wrote, zeroes",
    "answered bytes",
    "answered done",
    "answered stat",
    "refused NoFile",
    "refused BadOffset",
    "refused TooBig",
    "refused TooLong",
    "refused BadType",
    "slept Committing",
    "slept LogFull",
    "slept InodeHeld",
    "slept BufferHeld",
    "slept NoBuffer",
    "slept AnswersFull",
    "steps",
    "blocks written",
    "groups committed",
    "images that were full",
    "stops",
    "reads of an opening that failed",
    "reads that failed",
    "writes that failed, the block as before",
    "writes that failed, the block as handed in",
    "syncs that failed",
    "held writes that got through",
    "held writes that were lost",
    "groups kept",
    "operations kept",
    "one group more was kept",
    "wrote bytes behind 267 KiB",
    "of these, behind 523 KiB",
    "wrote fewer, to a file of 256 KiB or more",
    "emptied or removed a file of more than 267 KiB",
];

/// The parts of a table of scripts that were stopped, each by its first and its last row. The last
/// part is of images of the second form.
pub const STOPPED: [(Row, Row); 3] = [
    (Row::Scripts, Row::Stops),
    (Row::GroupsKept, Row::OperationsKept),
    (Row::WroteFarther, Row::Emptied),
];

/// Those of a table of scripts of which calls failed.
pub const FAILED: [(Row, Row); 3] = [
    (Row::Scripts, Row::Scripts),
    (Row::OpeningReads, Row::FailedNew),
    (Row::GroupsKept, Row::GroupsMore),
];

/// Those of a table of scripts of which held writes were lost.
pub const LOST: [(Row, Row); 3] = [
    (Row::Scripts, Row::Scripts),
    (Row::Stops, Row::Stops),
    (Row::FailedSyncs, Row::GroupsMore),
];

/// A count for each row.
#[derive(Drop)]
pub struct Tally {
    counts: [u64; 49],
}

impl Tally {
    /// Nothing was counted.
    pub fn new() -> Tally {
        Tally { counts: [0; 49] }
    }

    /// Counts so many more.
    pub fn add(&mut self, row: Row, more: u64) {
        if let Some(count) = self.counts.get_mut(row as usize) {
            *count = count.saturating_add(more);
        }
    }

    /// Counts the groups that a stop kept, and the operations that these keep.
    pub fn keep(&mut self, groups: u64, operations: u64) {
        self.add(Row::GroupsKept, groups);
        self.add(Row::OperationsKept, operations);
    }

    /// Counts a step.
    pub fn step(&mut self, step: Step) {
        match step {
            Step::Moved | Step::Answered => self.add(Row::Steps, 1),
            Step::Sleeping(why) => self.add(cause(why), 1),
            _ => {}
        }
    }

    /// Counts the operations of a whole run, and whether one of its writes found no block.
    pub fn journal(&mut self, setting: Setting, entries: &[Entry]) {
        let mut is_full = false;
        let mut lengths = Lengths::new(setting);
        for entry in entries {
            self.add(kind(&entry.op), 1);
            if let Some(reply) = &entry.reply {
                let row = answer(&entry.op, reply, &lengths);
                is_full = is_full || matches!(row, Row::WroteFewer);
                self.add(row, 1);
                self.add(Row::WroteFar, is_far(&entry.op, reply) as u64);
                self.large_file(&lengths, &entry.op, reply);
                lengths.note(&entry.op, reply);
            }
        }
        self.add(Row::FullImages, is_full as u64);
    }

    // Counts what was done to a large file, where the files have these lengths.
    fn large_file(&mut self, lengths: &Lengths, op: &Op, reply: &Reply) {
        match (op, reply) {
            (Op::Write(number, offset, bytes), Reply::Wrote(count)) => {
                let end = offset.saturating_add(*count);
                let is_short = (*count as usize) < bytes.len();
                self.add(Row::WroteFarther, (*count > 0 && end > 273_408) as u64);
                self.add(Row::WroteFarthest, (*count > 0 && end > 535_552) as u64);
                let is_large = lengths.of(*number) >= 262_144;
                self.add(Row::FewerFar, (is_short && is_large) as u64);
            }
            (Op::Trunc(number) | Op::Remove(number), Reply::Done) => {
                self.add(Row::Emptied, (lengths.of(*number) > 273_408) as u64);
            }
            _ => {}
        }
    }

    /// Prints the parts of a table.
    pub fn print(&self, rt: &impl Print, parts: &[(Row, Row)]) -> io::Result<()> {
        for (first, last) in parts {
            self.print_part(rt, *first as usize, *last as usize)?;
        }
        Ok(())
    }

    fn print_part(&self, rt: &impl Print, first: usize, last: usize) -> io::Result<()> {
        for row in first..last.saturating_add(1) {
            if let (Some(text), Some(count)) = (TEXTS.get(row), self.counts.get(row)) {
                println!(rt; "{text} {count}")?;
            }
        }
        Ok(())
    }
}

fn kind(op: &Op) -> Row {
    match op {
        Op::Create(_) => Row::Creations,
        Op::Write(..) => Row::Writes,
        Op::Read(..) => Row::Readings,
        Op::Trunc(_) => Row::Truncations,
        Op::Remove(_) => Row::Removals,
        Op::Stat(_) => Row::Questions,
        Op::SetAttribute(_, Attribute::Links(_)) => Row::LinkCounts,
        Op::SetAttribute(_, Attribute::Size(_)) => Row::Lengths,
    }
}

fn answer(op: &Op, reply: &Reply, lengths: &Lengths) -> Row {
    match reply {
        Reply::Made(_) => Row::Made,
        Reply::NoInode => Row::NoInode,
        Reply::Wrote(written) => wrote(op, *written, lengths),
        Reply::Bytes(_) => Row::Bytes,
        Reply::Done => Row::Done,
        Reply::StatOf(..) => Row::StatOf,
        Reply::NoFile => Row::NoFile,
        Reply::BadOffset => Row::BadOffset,
        Reply::TooBig => Row::TooBig,
        Reply::TooLong => Row::TooLong,
        Reply::BadType => Row::BadType,
    }
}

// What a write came to, or a length behind a file's end, where the files had these lengths.
fn wrote(op: &Op, written: u32, lengths: &Lengths) -> Row {
    match op {
        Op::Write(_, _, bytes) if bytes.len() == written as usize => Row::WroteAll,
        Op::SetAttribute(number, Attribute::Size(size))
            if size.saturating_sub(lengths.of(*number)) == written => { Row::WroteZeroes }
        _ => Row::WroteFewer,
    }
}

// Whether a write wrote bytes behind those of the blocks that an inode itself names.
fn is_far(op: &Op, reply: &Reply) -> bool {
    match (op, reply) {
        (Op::Write(_, offset, _), Reply::Wrote(count)) => {
            *count > 0 && offset.saturating_add(*count) > 12288
        }
        _ => false,
    }
}

fn cause(why: Why) -> Row {
    match why {
        Why::Committing => Row::Committing,
        Why::LogFull => Row::LogFull,
        Why::InodeHeld => Row::InodeHeld,
        Why::BufferHeld => Row::BufferHeld,
        Why::NoBuffer => Row::NoBuffer,
        Why::AnswersFull => Row::AnswersFull,
    }
}
