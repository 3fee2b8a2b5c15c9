// The entries of a journal, in memory, for who reads them.
ghost use Rattle.std.specs.Prelude.{◌≡◌, ◌<◌, ◌++◌, ◌∷◌, [], length, Some, None, IfOk, IfSome};
ghost use Rattle.std.specs.Option.{option_map};
ghost use Rattle.history.specs.Recording.{with_entry, with_reply};

use blocks::NoMemory;
use model::content::Content;
use model::types::{Entry, Op, Reply};
use std::alloc::Global;
use std::marker::Model;

/// A copy of each entry, the oldest first, while they are kept. Where memory is refused they are
/// not kept any more.
#[derive(Drop)]
pub struct Record {
    alloc: Global,
    entries: Option<Vec<Entry>>,
}

impl Model for Record {
    ghost use Rattle.std.specs.Prelude.{Option, List};
    ghost use Rattle.std.specs.Option.{option_map};
    ghost use Rattle.model.specs.declared.types.operations.Entry.{Entry};

    ghost Value = { Option (List Entry) };

    ghost view = { λ r. option_map (λ v. v.items) r.entries };
}

impl Record {
    /// Keeps none.
    pub fn new(alloc: Global) -> Record
        ensures { result ≡ None }
    {
        Record {
            alloc,
            entries: None,
        }
    }

    /// Keeps those that come from now on, alone.
    pub fn start(&mut self)
        ensures { self.new ≡ Some [] }
    {
        self.entries = Some(Vec::new(self.alloc));
    }

    /// Those that are kept.
    pub fn entries(&self) -> Option<&[Entry]>
        ensures { option_map (λ entries. entries.now) result ≡ self.now }
    {
        match &self.entries {
            Some(entries) => Some(entries),
            None => None,
        }
    }

    /// An entry came.
    pub fn add(&mut self, entry: &Entry)
        ensures { IfSome self.new (λ kept. Some kept ≡ with_entry self.old entry.now) }
    {
        let Some(mut entries) = self.entries.take() else {
            return;
        };
        let Ok(copy) = copy_of(self.alloc, entry) else {
            return;
        };
        if entries.push(copy).is_err() {
            return;
        }
        self.entries = Some(entries);
    }

    /// The reply of the entry at this index is decided.
    pub fn tell(&mut self, index: usize, reply: &Reply)
        requires { IfSome self.old (λ kept. index < length kept) }
        ensures { IfSome self.new (λ kept. Some kept ≡ with_reply self.old index reply.now) }
    {
        let Some(mut entries) = self.entries.take() else {
            return;
        };
        let Ok(copy) = copy_of_reply(self.alloc, reply) else {
            return;
        };
        entries[index].reply = Some(copy);
        self.entries = Some(entries);
    }
}

fn copy_of(alloc: Global, entry: &Entry) -> Result<Entry, NoMemory>
    ensures { IfOk result (λ copy. copy ≡ entry.now) }
{
    let op = copy_of_op(alloc, &entry.op)?;
    let reply = match &entry.reply {
        Some(reply) => Some(copy_of_reply(alloc, reply)?),
        None => None,
    };
    Ok(Entry {
        pid: entry.pid,
        seq: entry.seq,
        op,
        group: entry.group,
        reply,
    })
}

fn copy_of_op(alloc: Global, op: &Op) -> Result<Op, NoMemory>
    ensures { IfOk result (λ copy. copy ≡ op.now) }
{
    Ok(match op {
        Op::Create(kind) => Op::Create(*kind),
        Op::Write(i, off, bytes) => Op::Write(*i, *off, Content::copy_of(alloc, bytes.as_slice())?),
        Op::Read(i, off, count) => Op::Read(*i, *off, *count),
        Op::Trunc(i) => Op::Trunc(*i),
        Op::Remove(i) => Op::Remove(*i),
        Op::Stat(i) => Op::Stat(*i),
        Op::SetAttribute(i, attribute) => Op::SetAttribute(*i, *attribute),
    })
}

fn copy_of_reply(alloc: Global, reply: &Reply) -> Result<Reply, NoMemory>
    ensures { IfOk result (λ copy. copy ≡ reply.now) }
{
    Ok(match reply {
        Reply::Made(i) => Reply::Made(*i),
        Reply::NoInode => Reply::NoInode,
        Reply::Wrote(count) => Reply::Wrote(*count),
        Reply::Bytes(bytes) => Reply::Bytes(Content::copy_of(alloc, bytes.as_slice())?),
        Reply::Done => Reply::Done,
        Reply::StatOf(kind, links, size) => Reply::StatOf(*kind, *links, *size),
        Reply::NoFile => Reply::NoFile,
        Reply::BadOffset => Reply::BadOffset,
        Reply::TooBig => Reply::TooBig,
        Reply::TooLong => Reply::TooLong,
        Reply::BadType => Reply::BadType,
    })
}
