//! Colours on a terminal: of the signs of an image that is drawn, and of the head of a refusal's line.
//! What is written to a `Painted` that is plain is written as it is.
#![tactic(auto)]

mod painting;
mod wanted;

pub use painting::{Painted, Place, Style};
pub use wanted::wants_colours;
