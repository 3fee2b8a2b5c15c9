//! The kernel: processes whose operations go on step by step, over one volume (the xv6 book, the
//! chapter "File system").
//!
//! A step is what a process does in one piece: it begins the operation that waits for it, gets one
//! block or looks at it, ends its operation in the log, or makes one write of a commit, or one sync
//! of a disk that holds writes back. A step never blocks. Where a process would have to wait, the step is `Sleeping` with the cause and
//! changes nothing, and the same step is tried again when the process has its next turn.
//!
//! Who takes the next turn is not the kernel's choice: its user calls `step` with the number of a
//! process, in any order. A process has one operation under way at a time. Those of different
//! processes go on side by side, and keep apart by the locks of buffers and by the log's groups.
//!
//! An operation that is refused by itself alone begins and is answered in one step. A creation, a
//! write, a truncation and a removal belong to the log's group that is open at their beginning; a
//! question for type and length, and a read, belong to none. An operation's entry comes into the
//! journal with its turn, which is one step: the refusal, that in which a creation claims a number
//! or finds that none is free, or that in which any other takes its inode. So the journal has the
//! operations in the order in which they took effect. Next a creation ends in the log. It is
//! answered then, or, where it was the last of its group, after the commit, which its process makes.
//! The others go on behind their turn: a read gathers its bytes, which its entry is told last; a
//! truncation or a removal, whose entry has its reply, frees the blocks of its file one by one and
//! writes the inode back. A write's reply is decided when its inode is written back: its entry is
//! told it then, and it is given at the end of its operation. With its last step each gives its inode up. Then a look
//! is answered, and who changed files ends in the log as a creation does.
//!
//! Memory is taken at a read's beginning: room for its bytes, twice. That no later step takes any is
//! by test: no clause can say it. An entry has its bytes while its operation is under way. After its
//! answer the journal is a list that clauses see, and takes none, however long the kernel is open.
//! Who reads entries asks for a record of them (`Kernel::record`). Then steps take memory for it, and
//! the record ends where that is refused; the step does not.
//!
//! A stop keeps the groups that are committed, each whole, whichever writes a disk loses that holds
//! them back. It keeps one group more exactly where a header got through whose write failed or whose
//! sync is still to come. So an answer outlives a stop once the group that it names is committed,
//! which the herald hears.
//!
//! After a fault of the disk each step is `Halted`. After a shutdown no operation begins, and those
//! under way go on to their ends.
#![tactic(auto)]

mod beginning;
mod class;
mod counting;
mod deeds;
mod flushing;
pub mod laws;
mod opening;
mod queues;
mod runs;
mod stepping;
mod telling;
mod types;
mod visiting;

pub use model::types::Step;
pub use runs::run;
pub use stepping::Kernel;
pub use types::{OpenFault, Turn};
pub use visiting::{Consult, Visit, VisitWith};
