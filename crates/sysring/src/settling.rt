// The end of a process's rings.
ghost use Rattle.std.specs.Prelude.{◌≡◌, ℕ, ◌<◌, length, Some};
ghost use Rattle.model.specs.Layout.{inode_count_of};
ghost use Rattle.ports.specs.History.{History, SameNames};
ghost use Rattle.rings.specs.Callers.{finished_names, all_submitted, all_polled, intake_names, intake_count, IntakeFits, Settles};
ghost use Rattle.sysring.specs.Accounts.{Accounts};

use blocks::Disk;
use kernel::{Kernel, Visit};
use ports::Herald;
use rings::{Finished, RingIntake, Settled};

/// What became of the operations of a process.
#[derive(Clone, Copy)]
pub struct Account {
    /// Those that were handed in.
    pub submitted: u64,
    /// Of these, those that the kernel took.
    pub begun: u64,
    /// And those that it left.
    pub left: u64,
    /// The changing ones of committed groups.
    pub kept: u64,
}

/// Settles a process's rings at the intake of a kernel.
#[derive(Drop)]
pub struct Settling {
    pub pid: u32,
    pub finished: Finished,
}

impl Visit<RingIntake> for Settling {
    type Gift = Settled;

    ghost asks = { λ s i. (s.pid < intake_count i)
        × (intake_names i s.pid ≡ Some (finished_names s.finished)) };

    ghost tells = { λ s i _ r. (r.submitted ≡ length (all_submitted s.finished))
        × ((h : History) → IntakeFits i s.pid h
        → Settles (all_submitted s.finished) (all_polled s.finished) r.left h) };

    fn visit(self, intake: &mut RingIntake) -> Settled {
        let Settling { pid, finished } = self;
        intake.settle(pid, finished)
    }
}

/// Settles a process's rings, whose caller has finished: what it handed in is what the kernel took
/// and then what is left, in order, each once; what is kept of it is a beginning of the changing
/// ones; and the answers that it polled are the first that it was given. The caller's part is of
/// this process's rings.
pub fn settle<D: Disk, H: Herald>(
    kernel: &mut Kernel<D, RingIntake, H>,
    pid: u32,
    finished: Finished,
) -> Account
    requires pid { pid < length kernel.old.world.processes }
    requires rings { intake_names kernel.old.intake pid ≡ Some (finished_names finished) }
    ensures account { Accounts (inode_count_of (D.image kernel.old.opening)) kernel.old pid
        (all_submitted finished) (all_polled finished) result }
    ensures same { kernel.new ≡ record kernel.old { intake = kernel.new.intake } }
    ensures names { SameNames (intake_names kernel.old.intake) (intake_names kernel.new.intake) }
{
    kernel.known();
    let (begun, kept) = kernel.counts(pid);
    let Settled { submitted, left } = kernel.visit(Settling { pid, finished });
    Account {
        submitted,
        begun,
        left,
        kept,
    }
}
