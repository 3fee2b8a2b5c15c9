// What a step comes to.
ghost use Rattle.std.specs.Prelude.{◌≡◌};
ghost use Rattle.model.specs.Progress.{ended};

use crate::types::Why;
use blocks::DiskFault;

/// What a step of a machine answers.
#[derive(Clone, Copy)]
pub enum Progress<T> {
    /// The step was made, and there are more.
    Moved,
    /// Nothing was changed, and the process has to wait.
    Sleeping(Why),
    /// The step was made, and was the last. This came of it.
    Over(T),
    /// The disk failed.
    Fault(DiskFault),
}

impl<T> Progress<T> {
    /// What came of a machine's last step. Any other step is one of the machine that made it, and
    /// comes to this.
    pub fn ended<U>(self) -> Result<T, Progress<U>>
        ensures { result ≡ ended self }
    {
        match self {
            Progress::Moved => Err(Progress::Moved),
            Progress::Sleeping(why) => Err(Progress::Sleeping(why)),
            Progress::Over(out) => Ok(out),
            Progress::Fault(fault) => Err(Progress::Fault(fault)),
        }
    }
}
