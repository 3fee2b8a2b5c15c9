// What an operation that waits is to the kernel.
ghost use Rattle.std.specs.Prelude.{◌≡◌, ◌↔◌, ◌<◌, true, length, IsTrue, Some};
ghost use Rattle.model.specs.Journal.{is_number, is_at_once};
ghost use Rattle.model.specs.Operations.{transfer_limit};
ghost use Rattle.history.specs.AtOnce.{at_once_reply};
ghost use Rattle.history.specs.Journal.{plain_reply};
ghost use Rattle.kernel.specs.State.{class_of};

use model::types::{Op, Reply, TRANSFER_LIMIT};

// What waits for a process.
#[derive(Clone, Copy)]
pub enum OpClass {
    // What changes files, in a group of the log: a creation of a file of a type that there is, a
    // write, a new attribute, or an operation that frees a file's blocks.
    Change,
    // A read of so many bytes of a file, or a question for its type and length.
    Look(Option<u32>),
    // What is answered at once, by itself alone.
    Refused,
}

// What an operation is to the kernel, where there are so many inode numbers.
pub fn class_of(op: &Op, inode_count: u32) -> OpClass
    ensures waiting { result ≡ class_of inode_count op.now }
    ensures refused { (result ≡ OpClass.Refused) ↔ (is_at_once inode_count op.now ≡ true) }
{
    if is_at_once(op, inode_count) {
        return OpClass::Refused;
    }
    match op {
        Op::Create(_) | Op::Write(..) | Op::Trunc(_) | Op::Remove(_) | Op::SetAttribute(..) => {
            OpClass::Change
        }
        Op::Read(_, _, count) => OpClass::Look(Some(*count)),
        Op::Stat(_) => OpClass::Look(None),
    }
}

// The refusal of an operation that is answered at once.
pub fn at_once_reply(op: &Op) -> Reply
    ensures reply { result ≡ at_once_reply op.now }
    ensures plain { plain_reply (Some result) ≡ Some result }
{
    match op {
        Op::Create(_) => Reply::BadType,
        Op::Write(_, _, bytes) if bytes.len() > TRANSFER_LIMIT as usize => Reply::TooLong,
        Op::Read(_, _, count) if *count > TRANSFER_LIMIT => Reply::TooLong,
        Op::Write(..)
        | Op::Read(..)
        | Op::Trunc(_)
        | Op::Remove(_)
        | Op::Stat(_)
        | Op::SetAttribute(..) => Reply::NoFile,
    }
}

// Whether an operation is answered at once, whatever the files are.
fn is_at_once(op: &Op, inode_count: u32) -> bool
    ensures { result ≡ is_at_once inode_count op.now }
{
    match op {
        Op::Create(kind) => !(1..=3).contains(kind),
        Op::Write(i, _, bytes) => {
            bytes.len() > TRANSFER_LIMIT as usize || !is_number(*i, inode_count)
        }
        Op::Read(i, _, count) => *count > TRANSFER_LIMIT || !is_number(*i, inode_count),
        Op::Trunc(i) | Op::Remove(i) | Op::Stat(i) | Op::SetAttribute(i, _) => {
            !is_number(*i, inode_count)
        }
    }
}

// Whether operations may name this inode number.
fn is_number(i: u32, inode_count: u32) -> bool
    ensures { result ≡ is_number inode_count i }
{
    0 < i && i < inode_count
}
