//! Pictures of what the program did, each one page of HTML with a drawing in it: readable in grey and
//! by keyboard, with no script, and with nothing that is loaded from elsewhere.
//!
//! Each text is a definition: the drawing is that of the steps, the blocks or the stops that were
//! given, and of nothing else. How they came to be isn't known here.
#![tactic(auto)]

mod bands;
mod boxes;
mod brackets;
mod cells;
mod files;
mod markups;
mod page;
mod picture;
mod places;
mod recorder;
mod replies;
mod shapes;
mod stops;
mod timeline;
mod titles;
mod types;
mod written;

pub use cells::Cells;
pub use picture::Picture;
pub use recorder::Recorder;
pub use replies::{Gist, gist_of};
pub use stops::{At, Column, Lost, Stops};
pub use timeline::Timeline;
pub use types::{FileLine, FilesThen, Frame, Moment};
