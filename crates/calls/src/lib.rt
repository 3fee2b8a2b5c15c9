//! A kernel of one process, whose operations are calls: each is handed in, its steps are made to its
//! answer, commit included, and the answer is fetched.
//!
//! So a call is a whole operation: where it is answered, the files on the disk are those before it
//! after this operation, and the log is empty. A stop in the midst of one leaves, once it is
//! recovered, the files before it or those after it. The only process of a kernel waits for nobody
//! (`kernel::laws`), so a call ends with its answer, with a fault of the disk, or with `NoMemory`.
//!
//! Changes of files, each a call of a kernel of one process: what they make of the files on its
//! disk, said of lists of files alone. With a second process (`transactions`) several calls are kept
//! together or not at all.
#![tactic(auto)]

mod calling;
mod changes;
mod fault;
mod opening;
mod resting;
pub mod transactions;

pub use calling::{Sole, call};
pub use changes::{append, create, empty, remove, resize, set_links};
pub use fault::CallFault;
pub use opening::open_sole;
pub use resting::rested;
