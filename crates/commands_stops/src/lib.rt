//! The command that checks a script at each of its stops, over the files that it names, and may draw these.
//!
//! No function here reads the words of a command line.
#![tactic(auto)]

mod stopping;
mod stops_drawing;

pub use stopping::{DrawnStopsRefusal, StopsRefusal, end_stops, stops_into};
pub use stops_drawing::Undrawn;
