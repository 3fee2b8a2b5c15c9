//! Reads what a replay is told: a script, whose lines are the operations of processes, and a
//! schedule, whose words are the turns that they take. Bytes in, or a reader that gives them; values
//! or a named fault out.
//!
//! # Scripts
//!
//! A script's lines end with a line feed, which the last may lack. An empty line and one that
//! begins with `#` are skipped; a comment may hold any byte but the line feed. In every other line
//! there is exactly one space between two fields, and each field stands in the table. Numbers are
//! decimal digits, with no sign and no zero in front, at most 4294967295; `P` is the process, at
//! most 31.
//!
//! | Line | Operation of process `P` |
//! |---|---|
//! | `P create T` | makes a file of type `T`, at most 65535 |
//! | `P write I OFF HEX` | writes to inode `I` from offset `OFF` on; `HEX` is 2 to 8192 hexadecimal digits of either case, two a byte, or `-` for no bytes |
//! | `P fill I OFF N XX` | writes `N` bytes, at most 4096, each of the value of the two hexadecimal digits `XX` |
//! | `P read I OFF N` | reads `N` bytes |
//! | `P trunc I`, `P remove I`, `P stat I` | the operation of that name |
//! | `P links I N` | gives inode `I` that many links, at most 65535 |
//! | `P resize I N` | cuts inode `I` to its first `N` bytes |
//!
//! # Schedules
//!
//! A schedule's words have spaces and line feeds between them, in any number. `P` is one step of
//! process `P`, `P!` is steps of `P` until one doesn't move, and `S` is the shutdown.
#![tactic(auto)]

mod field;
mod number;
mod operation;
mod readers;
mod schedule;
mod script;

pub use readers::{schedule_from, schedule_unread, script_from, script_unread};
pub use schedule::{SCHEDULE_LIMIT, ScheduleFault, Word, read_schedule};
pub use script::{SCRIPT_LIMIT, ScriptFault, Task, processes, read_script};
