// What the next step of a process does.
ghost use Rattle.std.specs.Prelude.{◌≡◌, ◌<◌, length};
ghost use Rattle.inodes.specs.Deeds.{wanted_holder};
ghost use Rattle.kernel.specs.Deeds.{next_deed};

use crate::stepping::Kernel;
use blocks::Disk;
use history::Phase;
use ports::{Herald, Intake};
use wal::Deed;

impl<D: Disk, I: Intake, H: Herald> Kernel<D, I, H> {
    /// What the next step of a process does, unless it has to wait; None after a fault of the disk.
    /// A commit's write, or sync, is told here before it is made (`laws::deeds_are_done`).
    pub fn deed(&self, pid: u32) -> Option<Deed>
        requires { pid < length self.now.world.processes }
        ensures { result ≡ next_deed self.now pid }
    {
        if self.store.volume().fault().is_some() {
            return None;
        }
        match self.processes.at(pid) {
            Phase::Idle => Some(Deed::Begin),
            Phase::BeforeTurn { .. } | Phase::AfterTurn { .. } => {
                let deed = self.store.deed(pid)?;
                Some(Deed::Task(deed))
            }
            Phase::Ending { .. } => Some(Deed::End),
            Phase::Committing { .. } => {
                let deed = self.store.volume().log().deed()?;
                Some(Deed::Commit(deed))
            }
        }
    }

    /// The image's inode numbers, the unused number 0 included.
    pub fn inode_count(&self) -> u32
        ensures { result ≡ self.now.store.table.inode_count }
    {
        self.store.inode_count()
    }

    /// Who holds what the next step of a process gets or takes: the buffer of a block, or an inode's
    /// lock; None where nobody does.
    pub fn holder(&self, pid: u32) -> Option<u32>
        requires { pid < length self.now.world.processes }
        ensures { result ≡ wanted_holder self.now.store pid }
    {
        self.store.holder(pid)
    }
}
