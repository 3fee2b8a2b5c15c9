//! The commands that make an image or change its files, over the files that they name: `mkfs`, `put`,
//! `copy`, `convert` and `rescue`. Each opens these, hands the disk and what was read to `offline`, `conversion`
//! or `transfer`, and does nothing else.
//!
//! Who makes the files of images holds their locks. No function here reads the words of a command line.
#![tactic(auto)]

mod conversions;
mod copies;
mod making;
mod puts;
mod puts_anew;
mod refused;
mod rescues;
mod targets;

pub use conversions::Convert;
pub use copies::Copy;
pub use making::{Making, Mkfs, make_file};
pub use puts::{Put, bytes_from};
pub use puts_anew::{copied_from, write_new};
pub use refused::{CopyRefusal, PutFileRefusal, ReadFault};
pub use rescues::Rescue;
pub use targets::Target;
