// How the workers get on.
use std::sync::atomic::{AtomicU32, AtomicU64, Ordering};

/// How the workers get on, for who may not have the kernel. No clause says more of it than its code.
#[derive(Drop)]
pub struct Serving {
    // 1 once they have ended.
    ended: AtomicU64,
    // The workers that make a round of steps: bit w is worker w's.
    awake: AtomicU32,
    // 1 where groups are kept open.
    grouped: AtomicU64,
    // The rounds in which something moved, wrapping.
    moves: AtomicU64,
    // Those in which nothing moved and memory was refused, wrapping.
    refusals: AtomicU64,
}

impl Serving {
    pub(crate) fn new() -> Serving {
        Serving {
            ended: AtomicU64::new(0),
            awake: AtomicU32::new(0),
            grouped: AtomicU64::new(0),
            moves: AtomicU64::new(0),
            refusals: AtomicU64::new(0),
        }
    }

    /// Whether they have ended. That no process goes on then is by the code: no clause says it.
    pub fn has_ended(&self) -> bool {
        self.ended.load(Ordering::SeqCst) == 1
    }

    /// Whether none is in a round of steps: each rests after one in which nothing moved.
    pub fn is_resting(&self) -> bool {
        self.awake.load(Ordering::SeqCst) == 0
    }

    /// How many of their rounds moved something, wrapping.
    pub fn moves(&self) -> u64 {
        self.moves.load(Ordering::SeqCst)
    }

    /// In how many of their rounds nothing moved and memory was refused, wrapping.
    pub fn refusals(&self) -> u64 {
        self.refusals.load(Ordering::SeqCst)
    }

    // Whether they keep groups open.
    pub(crate) fn is_grouped(&self) -> bool {
        self.grouped.load(Ordering::SeqCst) == 1
    }

    pub(crate) fn group(&self, is_grouped: bool) {
        self.grouped.store(u64::from(is_grouped), Ordering::SeqCst);
    }

    pub(crate) fn end(&self) {
        self.ended.store(1, Ordering::SeqCst);
    }

    // These workers go on with their rounds.
    pub(crate) fn wake(&self, workers: u32) {
        self.awake.fetch_or(workers, Ordering::SeqCst);
    }

    // These workers make no round for a while, or none any more.
    pub(crate) fn rest(&self, workers: u32) {
        self.awake.fetch_and(!workers, Ordering::SeqCst);
    }

    pub(crate) fn count_move(&self) {
        self.moves.fetch_add(1, Ordering::SeqCst);
    }

    pub(crate) fn count_refusal(&self) {
        self.refusals.fetch_add(1, Ordering::SeqCst);
    }
}
