//! Transactions: several operations of a kernel, kept together or not at all.
//!
//! The kernel has two processes. Process 1 is the anchor: a transaction begins with a changing
//! operation of it that changes nothing, of which one step is made, so that the log's group is
//! open. The calls are process 0's, each made to its answer. None of their ends closes the group,
//! for the anchor's operation is open. The transaction ends with the anchor's steps up to its
//! answer: its end is the last, and it commits the group.

mod beginning;
mod calling;
mod changing;
mod committing;
mod fault;
mod making;
mod opening;
mod pairing;
mod resting;

pub use beginning::{Pair, begin};
pub use calling::call;
pub use changing::{append, create, empty, remove, resize, set_links};
pub use committing::commit;
pub use fault::TransactionFault;
pub use making::make_one;
pub use opening::open_pair;
pub use pairing::make_both;
pub use resting::{abandon, labelled, rested, still};
