//! What an image has, as a user sees it: a list of its files, a drawing of its blocks with a sign
//! for each, the blocks of one file, and how much is used. Each is that of the image which recovery would leave, read
//! without writing it, behind a check of the disk.
#![tactic(auto)]

mod cells;
mod drawing;
mod fault;
pub mod laws;
mod listing;
mod logging;
mod looks;
mod objects;
mod owned;
mod refused;
mod showing;
mod signs;
mod usage;

pub use drawing::{show_cells, show_disk};
pub use fault::GatherFault;
pub use listing::list_disk;
pub use logging::show_log;
pub use looks::{Df, Ls, Show, ShowLog};
pub use owned::{Owned, owned_by_all};
pub use refused::{DfRefusal, LsRefusal, ShowRefusal};
pub use showing::show_file;
pub use usage::count_disk;
