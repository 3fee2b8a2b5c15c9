// Where a run left something else than it has to, and what.
ghost use Rattle.std.specs.Prelude.{◌≡◌, ◌≤◌, length};
ghost use Rattle.crash_check.specs.Mismatches.{bits_value, mismatch_of};

/// Where a run was stopped. Writes and syncs are counted from 1, behind the opening.
#[derive(Clone, Copy, Debug)]
pub enum Stop {
    /// Nowhere: it is the whole run.
    End,
    /// Before this write.
    Write(u64),
    /// At this sync, which failed.
    Sync(u64),
}

/// Which of the held writes got through.
#[derive(Clone, Copy, Debug)]
pub struct Choice {
    /// How many were held, at most 64.
    pub held: usize,
    /// A bit for each, the lowest for the oldest: 1 where it got through.
    pub kept: u64,
}

/// Truth values as the bits of a number, the first as the lowest.
pub fn bits_of(keep: &[bool]) -> u64
    requires { length keep.now ≤ 64 }
    ensures { result ≡ bits_value keep.now }
{
    let mut bits = 0;
    for done in 0..keep.len() {
        let bit = u64::from(keep[keep.len() - 1 - done]);
        bits = bits * 2 + bit;
    }
    bits
}

/// What is not as it has to be.
#[derive(Clone, Copy, Debug)]
pub enum Cause {
    /// The file of this number is the first that differs from the one that is due.
    File(usize),
    /// The image can't be recovered.
    Unrecovered,
    /// No files are due: an operation can't have the reply that the journal has.
    Undue,
    /// No kernel opened the new image.
    Unopened,
    /// The run didn't make the writes or the syncs that the whole run made before its stop.
    OtherRun,
}

/// Where a run left something else than it has to, and what.
#[derive(Clone, Copy, Debug)]
pub struct Mismatch {
    /// Where the run was stopped.
    pub stop: Stop,
    /// Which held writes the image has, where it is one of a disk that holds writes back.
    pub choice: Option<Choice>,
    /// What is not as it has to be.
    pub cause: Cause,
}

impl Mismatch {
    /// One of the whole run, where no writes are held back.
    pub fn new(cause: Cause) -> Mismatch
        ensures { result ≡ mismatch_of cause }
    {
        Mismatch {
            stop: Stop::End,
            choice: None,
            cause,
        }
    }
}
