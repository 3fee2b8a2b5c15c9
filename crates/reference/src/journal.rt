// Runs of operations, and what of them is kept.
ghost use Rattle.std.specs.Prelude.{◌≡◌, ◌&&◌, nat_le, is_some, IfOk, OnErr, OnOk};
ghost use Rattle.std.specs.Bool.{OnFalse};
ghost use Rattle.model.specs.Operations.{where_true};
ghost use Rattle.model.specs.Journal.{after_answer, answered, is_number, is_changing, kept, replay};
ghost use Rattle.reference.specs.Replay.{IsOnTheWay, reached};

use crate::files::Files;
use crate::operations::{apply, is_kind};
use blocks::NoMemory;
use model::types::{Entry, Form, Op, TRANSFER_LIMIT};
use std::alloc::Global;

/// Whether operations may name inode `i`.
pub fn is_number(inode_count: u32, i: u32) -> bool
    ensures { result ≡ is_number inode_count i }
{
    0 < i && i < inode_count
}

/// Whether an operation may change a file, and is not answered at once.
pub fn is_changing(inode_count: u32, op: &Op) -> bool
    ensures { result ≡ is_changing inode_count op.now }
{
    match op {
        Op::Create(kind) => is_kind(*kind),
        Op::Write(i, _, bytes) => {
            bytes.len() <= TRANSFER_LIMIT as usize && is_number(inode_count, *i)
        }
        Op::Read(..) | Op::Stat(_) => false,
        Op::Trunc(i) | Op::Remove(i) | Op::SetAttribute(i, _) => is_number(inode_count, *i),
    }
}

/// Whether an entry has a reply.
pub fn is_answered(entry: &Entry) -> bool
    ensures { result ≡ is_some entry.now.reply }
{
    entry.reply.is_some()
}

/// Whether an entry is kept once the groups up to `c` are committed.
pub fn is_kept(inode_count: u32, entry: &Entry, c: u64) -> bool
    ensures { result ≡ (is_changing inode_count entry.now.op && nat_le entry.now.group c) }
{
    is_changing(inode_count, &entry.op) && entry.group <= c
}

/// Makes the files those after one entry; false where it has no reply or can't have this one.
fn replay_one(alloc: Global, form: Form, files: &mut Files, entry: &Entry) -> Result<bool, NoMemory>
    ensures after { IfOk result
        (λ yes. after_answer form files.old.items entry.now.op entry.now.reply
        ≡ where_true yes files.new.items) }
    ensures same { IfOk result (λ yes. OnFalse yes (files.new.items ≡ files.old.items)) }
    ensures err { OnErr result (files.new.items ≡ files.old.items) }
{
    match &entry.reply {
        Some(reply) => apply(alloc, form, files, &entry.op, reply),
        None => Ok(false),
    }
}

/// Makes the files those after the entries that have a reply, one after the other; false where one of
/// them can't have this one. The files are then those after the entries before it. Where memory is
/// refused, they are those after some first ones of the entries.
pub fn replay_answered(
    alloc: Global,
    form: Form,
    files: &mut Files,
    entries: &[Entry],
) -> Result<bool, NoMemory>
    ensures after { IfOk result (λ yes. replay form files.old.items (answered entries.now)
        ≡ where_true yes files.new.items) }
    ensures stop { OnOk result
        (files.new.items ≡ reached form files.old.items (answered entries.now)) }
    ensures err { OnErr result
        (IsOnTheWay form files.old.items (answered entries.now) files.new.items) }
{
    for entry in entries {
        if is_answered(entry) && !replay_one(alloc, form, files, entry)? {
            return Ok(false);
        }
    }
    Ok(true)
}

/// As `replay_answered`, of the entries that are kept once the groups up to `c` are committed.
pub fn replay_kept(
    alloc: Global,
    form: Form,
    files: &mut Files,
    inode_count: u32,
    entries: &[Entry],
    c: u64,
) -> Result<bool, NoMemory>
    ensures after { IfOk result (λ yes. replay form files.old.items (kept inode_count entries.now c)
        ≡ where_true yes files.new.items) }
    ensures stop { OnOk result
        (files.new.items ≡ reached form files.old.items (kept inode_count entries.now c)) }
    ensures err { OnErr result
        (IsOnTheWay form files.old.items (kept inode_count entries.now c) files.new.items) }
{
    for entry in entries {
        if is_kept(inode_count, entry, c) && !replay_one(alloc, form, files, entry)? {
            return Ok(false);
        }
    }
    Ok(true)
}
