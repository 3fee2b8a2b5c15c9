//! Looks at the files of an image by their paths. For each the files are read without a kernel, as
//! recovery would leave them, and nothing is written to the disk.
#![tactic(auto)]

mod copying;
mod counts;
mod faults;
mod finding;
mod flaws;
mod gets;
mod loading;
mod looks;
mod objects;
mod over_files;
mod texts;

pub use copying::{CopyFault, CopyPlan, plan_copy};
pub use counts::Counts;
pub use faults::{GetRefusal, LookRefusal, path_told, refusal_told};
pub use gets::{Get, GetAll};
pub use looks::{Cat, Ls, Paths, Stat};
pub use over_files::{InTree, Look, OverFiles};
