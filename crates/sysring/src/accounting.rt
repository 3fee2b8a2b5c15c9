// What became of a process's operations, while its caller is at hand.
ghost use Rattle.std.specs.Prelude.{◌≡◌, ◌<◌, ◌++◌, length, Some};
ghost use Rattle.model.specs.Layout.{inode_count_of};
ghost use Rattle.ports.specs.History.{SameNames};
ghost use Rattle.rings.specs.Callers.{caller_names, submitted, polled, unpolled, intake_names, intake_count, Reconciles};
ghost use Rattle.sysring.specs.Accounts.{AccountsForAll};

use crate::settling::Account;
use blocks::Disk;
use kernel::{Kernel, Visit};
use ports::Herald;
use rings::{Caller, RingIntake};

/// Lets both ends of a process's rings see what the other did.
#[derive(Drop)]
pub struct Reconciling {
    pub pid: u32,
    pub caller: Caller,
}

impl Visit<RingIntake> for Reconciling {
    type Gift = Caller;

    ghost asks = { λ s i. (s.pid < intake_count i)
        × (intake_names i s.pid ≡ Some (caller_names s.caller)) };

    ghost tells = { λ s i j caller. Reconciles i s.pid s.caller j caller };

    fn visit(self, intake: &mut RingIntake) -> Caller {
        let Reconciling { pid, mut caller } = self;
        intake.reconcile(pid, &mut caller);
        caller
    }
}

/// What became of the operations of a process, whose caller is handed back and may go on: as of
/// `settle`. Behind it the caller knows each answer that it was given and has not polled. The
/// caller is of this process's rings.
pub fn account<D: Disk, H: Herald>(
    kernel: &mut Kernel<D, RingIntake, H>,
    pid: u32,
    caller: Caller,
) -> (Account, Caller)
    requires pid { pid < length kernel.old.world.processes }
    requires rings { intake_names kernel.old.intake pid ≡ Some (caller_names caller) }
    ensures account { AccountsForAll (inode_count_of (D.image kernel.old.opening)) kernel.old pid
        (submitted caller) (polled caller ++ unpolled result.1) result.0 }
    ensures lists { (submitted result.1 ≡ submitted caller) × (polled result.1 ≡ polled caller) }
    ensures rings { caller_names result.1 ≡ caller_names caller }
    ensures same { kernel.new ≡ record kernel.old { intake = kernel.new.intake } }
    ensures names { SameNames (intake_names kernel.old.intake) (intake_names kernel.new.intake) }
{
    kernel.known();
    let (begun, kept) = kernel.counts(pid);
    let caller = kernel.visit(Reconciling { pid, caller });
    let submitted = caller.submitted();
    let account = Account {
        submitted,
        begun,
        left: submitted - begun,
        kept,
    };
    (account, caller)
}
