//! Changes of the files of an image by their paths, each a call of a `names::Tree` or a few of them, over a
//! disk.
#![tactic(auto)]

mod changes;
mod copying;
mod faults;
mod filling;
pub mod laws;
mod making;
mod over_tree;
mod puts;
mod recounting;
mod removing;
mod room;

pub use changes::{Link, MakeDirectory, Remove, RemoveDirectory, Rename};
pub use copying::{CopyOver, CopyRefusal, copy_disk};
pub use faults::ChangeRefusal;
pub use filling::{Fill, Item, What};
pub use making::MakeDirectories;
pub use over_tree::{OverTree, TreeChange, change_disk};
pub use puts::{Put, append_all};
pub use recounting::Recount;
pub use removing::{Below, RemoveAll};
pub use room::judge_room;
