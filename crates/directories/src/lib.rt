//! Directories: names that stand in the bytes of one file, as in xv6 (the xv6 book, the chapter "File
//! system": "Directory layer" and "Path names"), as they are read and judged without a kernel.
//!
//! A directory is a list of entries of sixteen bytes: the number of a file, two bytes with the lowest
//! first, and its name, fourteen bytes with zeroes behind it. An entry with number 0 is free. A
//! change is the write of one entry.
//!
//! `is_tree` tells whether the files of an image are a tree, `first_miscounted` whether their counts of
//! links are right, `flaws_of` all that keeps them from both. `tree_laws` says what a tree is, and that changes leave one.
#![tactic(auto)]

mod checking;
mod directory;
mod entries;
pub mod files;
mod flaws;
mod judging;
pub mod laws;
mod name;
mod path;
mod refusal;
mod tallying;
pub mod tree_laws;

pub use checking::{add_children, is_directory_of};
pub use directory::{DIRECTORY_KIND, is_empty, leads_down};
pub use entries::{
    DIRECTORY, ENTRY_SIZE, EntryWrite, LinkFault, MOST_ENTRIES, entries_in, link, lookup,
    new_directory, number_in, repoint, unlink,
};
pub use flaws::{Flaw, climbs, first_down, flaws_of, home_in, homes_of, leads_down_to, names_to};
pub use judging::{JudgeFault, is_tree};
pub use name::{NAME_SIZE, Name, NameFault, text_in};
pub use path::{PathFault, names_of};
pub use refusal::Refusal;
pub use tallying::{first_miscounted, link_counts, name_counts};
