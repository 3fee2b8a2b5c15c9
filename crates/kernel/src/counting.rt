// How many operations of a process began, and how many are kept.
ghost use Rattle.std.specs.Prelude.{◌≡◌, ◌<◌, length};
ghost use Rattle.model.specs.Layout.{inode_count_of};
ghost use Rattle.history.specs.Processes.{process};
ghost use Rattle.kernel.specs.Counts.{kept_of};

use crate::stepping::Kernel;
use blocks::Disk;
use ports::{Herald, Intake};

impl<D: Disk, I: Intake, H: Herald> Kernel<D, I, H> {
    /// How many operations were taken for a process, and how many of its changing ones are of
    /// committed groups: those that a stop keeps.
    pub fn counts(&self, pid: u32) -> (u64, u64)
        requires { pid < length self.now.world.processes }
        ensures begun { result.0 ≡ (process self.now.world pid).begun }
        ensures kept { result.1
            ≡ length (kept_of (inode_count_of (D.image self.now.opening)) self.now pid) }
    {
        self.known();
        let kept = self.processes.kept(pid, self.committed());
        (self.begun(pid), kept)
    }
}
