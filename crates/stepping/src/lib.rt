//! The steps of one process of a kernel, made one after the other.
#![tactic(auto)]

mod stepping;

pub use stepping::make_steps;
