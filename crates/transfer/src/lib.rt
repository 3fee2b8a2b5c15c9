//! A copy of the files of an image of the first form, as recovery would leave it, into a new image
//! of the second. The old image is read and never written. The new one is filled in memory, by
//! calls of a kernel of one process, and then written to its disk, the superblock last. A rescue copies
//! the files that are whole of an image that need not be sound, into a new one of its form and size.
//!
//! Bytes put into an image as those of a file: of a new one, or in the place of an old one's. What
//! can be told from the image is told before anything is written; then a kernel of one process makes
//! the calls.
#![tactic(auto)]

mod choosing;
mod copier;
mod copying;
mod ending;
mod fault;
mod filling;
mod fitting;
mod judging;
pub mod laws;
mod making;
mod needs;
mod picking;
mod putting;
mod refused;
mod rescuer;
mod source;
mod whole;
mod writing;
mod writing_out;

pub use choosing::put_disk;
pub use copier::copy;
pub use fault::CopyFault;
pub use judging::{free_blocks, judge_new};
pub use needs::needed_blocks;
pub use picking::Rescued;
pub use refused::PutRefusal;
pub use rescuer::rescue;
pub use writing_out::{WriteFault, write_image};
