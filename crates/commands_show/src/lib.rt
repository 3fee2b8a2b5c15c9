//! The command that draws the blocks of an image into a file.
#![tactic(auto)]

mod showing;

pub use showing::{ShowPicture, ShowPictureRefusal};
