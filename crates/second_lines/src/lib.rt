//! The second line of a refusal: what more there is to say of it, which is found by looking once more at
//! the files that the command was given.
#![tactic(auto)]

mod addresses;
mod explaining;
mod faulty;
mod fields;
mod given;
mod paths;
mod phrases;
mod quoting;
mod room;
mod standing;
mod telling;
mod texts;

pub use given::Given;
pub use telling::{Line, asks_more, tell, tell_fault};
