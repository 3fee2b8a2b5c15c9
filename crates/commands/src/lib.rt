//! What the commands over files share: who holds the files of images by their locks, how a new file takes
//! the place of an old one, what is read from a file, how a program starts, and how it does command lines.
//!
//! No function here reads the words of a command line; what is told where these make no command is here.
#![tactic(auto)]

mod batch;
mod beside;
mod copied;
mod explaining;
mod holding;
mod inputs;
mod keeper;
mod replacing;
mod settling;
mod starting;
mod whole;

pub use batch::{Program, do_lines};
pub use copied::Copied;
pub use explaining::explain;
pub use holding::Holder;
pub use inputs::{schedule_from, script_from};
pub use keeper::{Keeper, stays};
pub use replacing::{MakesThere, make_in_place, make_instead};
pub use settling::{remove_refused, sync_folder};
pub use starting::{Unbegun, end_unbegun, greet, take_number, words_and_output};
pub use whole::write_whole;
