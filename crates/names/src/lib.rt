//! `Tree` are files in directories within directories, found by their paths, over a kernel of two
//! processes (the xv6 book, the chapter "File system": "Path names" and "System calls"). Each of its
//! calls is one transaction: a stop at any moment leaves the tree as it was or as the call makes it, in
//! which each file has a path, and each directory one. What the bytes of directories say stands in
//! `directories`.
#![tactic(auto)]

mod asking;
mod changing;
mod contents;
mod cutting;
mod directing;
pub mod kernel_laws;
mod linking;
mod looking;
mod making;
mod numbered;
mod numbered_changes;
mod opening;
mod planning;
mod putting;
mod recounting;
mod refusal;
mod removing;
mod renaming;
mod replacing;
mod rooting;
mod tree;
mod undirecting;
mod writing;

pub use asking::Found;
pub use opening::TreeOpenFault;
pub use recounting::{RecountFault, recount};
pub use refusal::TreeFault;
pub use tree::Tree;
pub use writing::Unwritten;
