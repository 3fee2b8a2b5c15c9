//! A run as lines of JSON, one object each: the steps of a turn, what the turn came to, and the counts at
//! the end; and of what other values are made, the fields of objects and the elements of arrays.
//!
//! Each object is a definition. A string in it is a fixed word or hexadecimal digits, so none is escaped.
//! How a run came to be isn't known here.
#![tactic(auto)]

mod arrays;
mod content;
mod counts;
mod events;
mod faults;
mod fields;
mod steps;
mod written;

pub use arrays::print_comma;
pub use content::{print_block, print_bytes};
pub use counts::{print_counts_object, print_number_object, print_report_object};
pub use events::print_event_object;
pub use faults::print_fault_object;
pub use fields::{print_first_number, print_number, print_word};
pub use steps::print_step_objects;
pub use written::Written;
