//! Reads the words of a command line: which command they ask for, or what is told in its place.
//!
//! How words are read is clap's definition, at the command line of a program, which it tells by what its
//! words may ask for (`ByWords`): `xvfs_words` and `names_words` have those of the programs. What `parse`
//! answers has no type of clap's.
#![tactic(auto)]

pub mod arguments;
mod asking;
mod explanation;
mod program;
pub mod table;
mod texts;
mod tips;
mod topics;
mod wrapping;

pub use asking::{Asked, ByWords, parse};
pub use explanation::Explanation;
pub use topics::{TOPICS, Topic};
