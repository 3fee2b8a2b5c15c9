//! A script's operations, made in the turns of a schedule over any disk, and told to any output: by the
//! lines of `messages`, or as objects of `json_lines`. A refusal names the layer, and that layer's fault.
//!
//! No function here opens a file, and none reads the words of a command line.
#![tactic(auto)]

mod copying;
mod json_teller;
mod noting;
mod player;
mod playing;
mod reconciling;
mod refusals;
mod replaying;
mod teller;
mod tellers;
mod telling;
mod turns;

pub use copying::copies_of;
pub use noting::Base;
pub use player::Player;
pub use playing::make_turns;
pub use refusals::ReplayRefusal;
pub use replaying::{Scenario, replay_disk, replay_objects, replay_with, take_board};
pub use teller::Teller;
pub use tellers::{LineTeller, StepTeller};
pub use turns::{Hands, Outcome, open_player};
