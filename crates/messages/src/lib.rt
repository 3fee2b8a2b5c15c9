//! What the program prints: the lines of a replay's turns, those of a run's answers and accounts,
//! what a command found or did, and why it was refused: each reason names its layer and that
//! layer's fault.
//!
//! Nothing here knows how it came to be. What a kernel answers has small enums here, to which the
//! layer above maps its own.
#![tactic(auto)]

mod answers;
mod deeds;
mod drawing;
mod events;
mod faults;
mod hex_digits;
mod lines;
mod meter;
mod output;
mod printed;
mod told;

pub use deeds::{Detail, StepNote, made_deed, print_deed, print_made, print_notes, role_of};
pub use drawing::{Cell, MOST_COLUMNS, Owner};
pub use events::Event;
pub use lines::{AccountLine, AnswerLine};
pub use meter::{Meter, Silent};
pub use output::{
    pass_on, print, print_copied, print_counts, print_event, print_fault, print_fault_count,
    print_files, print_images, print_last, print_number, print_numbers, print_refusal,
    print_report, print_rescued, write_bytes,
};
pub use printed::Printed;
pub use told::{Reason, Told, Unwritten};
