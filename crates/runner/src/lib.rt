//! A script's operations over a disk, by threads: the calling thread hands each process's operations
//! in and polls its answers, without a lock, while workers on threads of their own make the kernel's
//! steps. By its code it asks for a shutdown by a board once all answers are in, the disk has failed,
//! or memory stays refused; then it prints what each process was answered and what became of its operations.
//!
//! No function here opens a file, and none reads the words of a command line.
#![tactic(auto)]

mod driving;
pub mod laws;
mod lull;
mod refusals;
mod reporting;
mod running;

pub use refusals::RunRefusal;
pub use running::run_disk;
