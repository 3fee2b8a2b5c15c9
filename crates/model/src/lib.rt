//! What an image, its log and its files mean: the definitions that contracts cite, the plain types
//! in them, and laws over them. What operations do to files, and what a stop keeps, is defined here
//! too. Crate `reference` computes these definitions over a whole image.
#![tactic(auto)]

pub mod content;
pub mod gathered;
pub mod laws;
pub mod types;
