//! What the program's commands do, as functions over any disk and any output: an image is made,
//! checked or recovered, and the bytes of one of its files are written. Each prints its answer, by the
//! texts of `messages`; a refusal names the layer, and that layer's fault.
//!
//! No function here opens a file, and none reads the words of a command line.
#![tactic(auto)]

mod checking;
mod fault_lines;
mod looks;
mod making;
mod recovering;
mod refusals;
mod showing;

pub use checking::{check_disk, check_disk_all, check_disk_array};
pub use looks::{Cat, CatReadOnly, Check, Recover};
pub use making::make_disk;
pub use recovering::recover_disk;
pub use refusals::CatRefusal;
pub use showing::{cat_disk, cat_read_only};
