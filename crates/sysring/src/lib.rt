//! A kernel that threads share: rings and a board between it and its callers, a lock round it, and
//! workers that make its steps.
//!
//! A caller's own calls (`Caller::submit`, `poll` and `finish`, `Board::durable` and `ask_shut`)
//! have neither the kernel nor its lock. Workers step the kernel under its lock; that they get it
//! anew for each step, or for each turn where groups are kept open, is so by their code. What
//! `Kernel::known` says of a kernel is true each time the lock is got, whoever had it before: above
//! all what a stop then leaves. An `Origin` is the kernel as it was when threads
//! began to share it: behind the lock it keeps its opening, its committed groups, its processes and
//! their rings.
#![tactic(auto)]

mod accounting;
mod comparing;
mod grouping;
mod pace;
mod serving;
mod session;
mod settling;
mod shared;
mod workers;

pub use accounting::{Reconciling, account};
pub use comparing::{Comparing, compare};
pub use grouping::Bound;
pub use pace::Serving;
pub use rings::{Board, BoardHerald, Caller, Finished, Keeper, RingIntake, Watch, rings};
pub use serving::{serve_beside, serve_while};
pub use session::{Origin, Session};
pub use settling::{Account, Settling, settle};
pub use shared::Shared;
pub use workers::{Gate, NoGate, serve, serve_grouped};
