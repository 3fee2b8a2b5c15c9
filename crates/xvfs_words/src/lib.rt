//! What the words of a command line ask `xvfs` for, by `cli::parse`.
#![tactic(auto)]

mod table;
mod words;

pub use words::Request;
