// A time in which nothing moves for want of memory.
ghost use Rattle.std.specs.Prelude.{◌≡◌};

use std::rt::Clock;
use std::time::{Duration, Instant};
use sysring::Serving;

// So many seconds without a move are enough.
const LONGEST: u64 = 1;

// So are so many refused rounds in them: who was stopped as a whole counts its seconds, and makes
// none.
const ROUNDS: u64 = 16;

/// What is known of the workers since something moved last.
#[derive(Clone, Copy)]
pub struct Lull {
    // None where the clock can't be read.
    since: Option<Instant>,
    moves: u64,
    refusals: u64,
    is_long: bool,
}

impl Lull {
    /// One that begins now.
    pub fn new<R: Clock>(clock: &R, serving: &Serving) -> Lull {
        Lull {
            since: Instant::now(clock).ok(),
            moves: serving.moves(),
            refusals: serving.refusals(),
            is_long: false,
        }
    }

    /// Whether it lasted for a second when it was last looked at, with each worker at rest, in which
    /// rounds were refused memory and none moved anything.
    pub fn is_long(self) -> bool
        ensures { result ≡ self.is_long }
    {
        self.is_long
    }

    /// Looks at the workers: whether they have ended, or it is long. Where something moved it begins
    /// anew. By its code, and by no clause.
    pub fn has_ended<R: Clock>(&mut self, clock: &R, serving: &Serving) -> bool {
        let refused = serving.refusals().wrapping_sub(self.refusals);
        let is_resting = serving.is_resting();
        if serving.moves() != self.moves {
            *self = Lull::new(clock, serving);
        } else {
            self.is_long = is_resting && refused >= ROUNDS && self.has_lasted(clock);
        }
        self.is_long || serving.has_ended()
    }

    fn has_lasted<R: Clock>(self, clock: &R) -> bool {
        let Some(since) = self.since else {
            return false;
        };
        match since.elapsed(clock) {
            Ok(time) => time >= Duration::from_secs(LONGEST),
            Err(_unread) => false,
        }
    }
}
