// Operations on files, and what becomes of them.
use crate::content::Content;
use blocks::DiskFault;

/// The most bytes that one read or write moves.
pub const TRANSFER_LIMIT: u32 = 3072;

/// An operation on files, by inode number.
#[derive(Debug, Drop)]
pub enum Op {
    /// Makes a file of this type.
    Create(u16),
    /// Writes the bytes from an offset on.
    Write(u32, u32, Content),
    /// Reads at most that many bytes from an offset on.
    Read(u32, u32, u32),
    /// Gives up all bytes.
    Trunc(u32),
    /// Gives up the bytes and the number.
    Remove(u32),
    /// Asks for type, links and length.
    Stat(u32),
    /// Sets an attribute of the file.
    SetAttribute(u32, Attribute),
}

/// An attribute of a file, with its new value.
#[derive(Clone, Copy, Debug, PartialEq, Eq)]
pub enum Attribute {
    /// So many links. Its bytes stay.
    Links(u16),
    /// Its first so many bytes, or zeroes behind its end up to that length, at most
    /// `TRANSFER_LIMIT` of them. Blocks behind a shorter length stay its own until it is truncated
    /// or removed.
    Size(u32),
}

/// What an operation answers: a result, or one of the refusals behind `StatOf`.
#[derive(Debug, Drop)]
pub enum Reply {
    /// The new file's number.
    Made(u32),
    /// Each number was seen taken.
    NoInode,
    /// So many bytes were written, or added to a file that was to be longer; fewer than asked where
    /// no block was free.
    Wrote(u32),
    /// The bytes read, cut at the file's end.
    Bytes(Content),
    /// A truncation or a removal was done, or an attribute was set.
    Done,
    /// Type, how many links it has, and length in bytes.
    StatOf(u16, u16, u32),
    /// There is no file of that number.
    NoFile,
    /// The offset lies behind the file's end.
    BadOffset,
    /// The file would end behind the greatest size.
    TooBig,
    /// More bytes at once than `TRANSFER_LIMIT`.
    TooLong,
    /// No file has that type.
    BadType,
}

/// What the journal keeps of an operation that had its turn.
#[derive(Drop)]
pub struct Entry {
    pub pid: u32,
    /// The number of the operation among its process's, from 1.
    pub seq: u64,
    pub op: Op,
    /// The group that it belongs to, from 1; 0 for an operation that is not changing.
    pub group: u64,
    /// None until it is decided.
    pub reply: Option<Reply>,
}

/// What a process gets back.
#[derive(Drop)]
pub struct Answer {
    /// The number of the operation among its process's, from 1.
    pub seq: u64,
    pub reply: Reply,
    /// The group that has to be committed before the operation outlives a stop; 0 for none.
    pub group: u64,
}

/// What a step waits for.
#[derive(Clone, Copy, Debug, PartialEq, Eq)]
pub enum Why {
    /// A commit is under way.
    Committing,
    /// The log has no room for one more operation.
    LogFull,
    /// Another process holds the inode.
    InodeHeld,
    /// Another process holds the block's buffer.
    BufferHeld,
    /// All 40 buffers have references. (Bach, "The Design of the UNIX Operating System", chapter 3;
    /// xv6 panics there.)
    NoBuffer,
    /// Answers were not fetched, and there is no place for one more.
    AnswersFull,
}

/// What a step of a process's operation answers to whoever drives it.
#[derive(Drop)]
pub enum TaskProgress {
    /// The step was made, and the task goes on.
    Moved,
    /// The step was the operation's turn: where its reply is known, the files are from now on what
    /// they are after it.
    Turned(Option<Reply>),
    /// The reply of an operation that had its turn is known.
    Decided(Reply),
    /// The task is over.
    Over,
    /// Nothing was changed, and the process has to wait.
    Sleeping(Why),
    /// The disk failed.
    Fault(DiskFault),
}

/// What a step of a process answers.
#[derive(Clone, Copy, Debug, PartialEq, Eq)]
pub enum Step {
    /// The step was made, and the operation goes on.
    Moved,
    /// The step was made, and the operation was answered.
    Answered,
    /// Nothing was changed, and the process has to wait.
    Sleeping(Why),
    /// No operation waits.
    Idle,
    /// Memory for the operation was refused. It stays waiting.
    NoMemory,
    /// No operation begins any more.
    ShutDown,
    /// The disk failed, in this step or in one before it.
    Halted,
}
