// Both ends of a process's rings, in one thread.
ghost use Rattle.std.specs.Prelude.{◌≡◌, ◌<◌, Some};
ghost use Rattle.rings.specs.Callers.{Reconciles, caller_names, intake_count, intake_names};

use kernel::VisitWith;
use rings::{Caller, RingIntake};

/// Lets both ends of the rings of a process see what the other did.
#[derive(Drop)]
pub struct Reconciling {
    pub pid: u32,
}

impl VisitWith<RingIntake> for Reconciling {
    type Other = Caller;

    ghost asks = { λ s i c. (s.pid < intake_count i)
        × (intake_names i s.pid ≡ Some (caller_names c)) };

    ghost tells = { λ s i j c d. Reconciles i s.pid c j d };

    fn visit_with(self, intake: &mut RingIntake, caller: &mut Caller) {
        intake.reconcile(self.pid, caller);
    }
}
