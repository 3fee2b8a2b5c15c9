//! The picture in a file, as commands draw it.
#![tactic(auto)]

mod drawing;

pub use drawing::{PictureFault, draw};
