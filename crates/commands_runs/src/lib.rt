//! The commands that go by a kernel over the files that they name: `replay`, which may draw its steps, `run`
//! and `cat`. Each opens these, hands the disk and what was read to `player` or `runner`, and does nothing
//! else.
//!
//! No function here reads the words of a command line. None checks a script at its stops; one makes the
//! page of those that were tried.
#![tactic(auto)]

mod anew;
mod cats;
mod changes;
mod explorer_teller;
mod exploring;
mod exploring_new;
mod file_lines;
mod gathered;
mod heard;
mod mute;
mod objects;
mod origin;
mod picture_teller;
mod picturing;
mod remembering;
mod runs;
mod scene;
mod telling;
mod writes;

pub use cats::Cat;
pub use exploring_new::explore_new;
pub use picture_teller::PictureTeller;
pub use picturing::{PicturedRefusal, replay_into};
pub use runs::{Replay, ReplayFilesRefusal, RunFilesRefusal, replay_json, run_files};
