//! What the words of a command line ask `xvnames` for, by `cli::parse`.
#![tactic(auto)]

mod table;
mod words;

pub use words::Request;
