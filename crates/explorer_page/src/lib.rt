//! A run as a page that one walks through, stop by stop: a constant page, which has its style and its
//! script in it, and the run as lines of JSON. The page names nothing else.
//!
//! How a run came to be isn't known here.
#![tactic(auto)]

mod disk;
mod ending;
mod explorer;
mod image;
mod lines;
mod opening;
mod operations;
mod page;
mod stops;
mod tried;

pub use explorer::Explorer;
