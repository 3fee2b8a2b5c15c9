//! A kernel over a copy of an image, whose user is told each write and each sync, and carries them to a
//! disk of his own.
//!
//! Over a plain disk, between two calls the session's image is what that disk holds, if it held the
//! bytes that the session was opened over and no log block waited in them, and if each told write was
//! brought to it before the next step. So whatever a stop leaves of that disk is the session's image of
//! before or behind its last step, and of both the kernel's promise says what recovery makes of them.
//!
//! Over one that holds writes back, the user makes each told write, and brings all that were made to his
//! disk at each told sync. So whatever a stop leaves of it is the image of the last told sync with any of
//! the writes that were told since: a stop of the session's disk may leave it, too, and of each of these
//! the kernel's promise says the same.
#![tactic(auto)]

mod disk;
mod kept;
mod refusal;
mod session;
mod track;
mod turns;

pub use disk::HostDisk;
pub use refusal::OpenRefusal;
pub use session::{Session, Stepped, Told};
