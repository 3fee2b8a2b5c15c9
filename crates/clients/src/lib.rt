//! The operations of a script, by process, and the callers that hand them in: a `Client` has one
//! process's ends of its rings, hands in what the ring takes, and keeps the answers that come.
//!
//! Whoever has the clients calls them in turn, until each has all its answers, and then takes them
//! apart. By its code no call but the making of them takes memory, and none waits.
#![tactic(auto)]

mod backlog;
mod calling;
mod client;
mod feeder;
mod making;

pub use backlog::{Backlog, backlogs_of};
pub use calling::call_all;
pub use client::Client;
pub use feeder::Feeder;
pub use making::{clients, feeders};
