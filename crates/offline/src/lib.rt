//! An image that no kernel is open over: made, checked, and read as recovery would leave it.
#![tactic(auto)]

mod all_faults;
mod checked;
mod checking;
mod claims;
mod hearing;
pub mod laws;
mod making;
mod new_image;
mod notes;
mod owners;
mod pointers;
mod recovered;
mod sorting;
mod table;
mod walking;

pub use all_faults::check_all;
pub use checking::{Report, check};
pub use hearing::HearsFaults;
pub use making::{mkfs, mkfs_as};
pub use recovered::Recovered;
pub use sorting::{Sorted, sort_numbers};
