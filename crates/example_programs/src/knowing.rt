// Clients of what is known of a kernel, whose contracts are all that they are for: the recovery
// theorem of a kernel of which no step was seen, the same of one that is opened over what it left, and
// a session in which an operation is handed in between two steps.
ghost use Rattle.std.specs.Prelude.{◌≡◌, ◌<◌, ℕ, length, [], ◌∷◌, IfOk};
ghost use Rattle.blocks.specs.Disk.{Image};
ghost use Rattle.model.specs.Log.{recovered};
ghost use Rattle.kernel.specs.declared.types.Turn.TheVariants.{Proc};
ghost use Rattle.kernel.specs.Runs.{Session};
ghost use Rattle.kernel.specs.Theorem.{IsRecoveredRun};
ghost use Rattle.ports.specs.History.{nothing_yet};

use blocks::Disk;
use kernel::{Kernel, OpenFault};
use model::types::Op;
use ports::{Herald, Intake, QueueIntake};
use std::alloc::Global;

/// Does nothing: it says of any kernel, also of one that was just got from a lock, what recovery
/// makes of whatever a stop left at any moment since it was opened.
pub fn whenever_stopped<D: Disk, I: Intake, H: Herald>(kernel: &Kernel<D, I, H>)
    ensures { (x : Image)
        → D.leaves kernel.now.store.volume.device (D.moment kernel.now.opening) x
        → IsRecoveredRun (D.image kernel.now.opening) 0 kernel.now (recovered x) }
{
    kernel.recovers();
}

/// Opens a kernel over an image that a stop of another may have left, on a disk of any type. It
/// begins with the other's files after its committed groups.
pub fn open_behind_a_stop<D: Disk, E: Disk, I: Intake, H: Herald>(
    alloc: Global,
    stopped: &Kernel<D, I, H>,
    disk: E,
    intake: I,
    herald: H,
) -> Result<Kernel<E, I, H>, (OpenFault, E)>
    requires left { D.leaves stopped.now.store.volume.device (D.moment stopped.now.opening)
        (E.image disk) }
    requires served { I.process_count intake ≡ 1 }
    requires told { H.count herald ≡ 0 }
    requires fits { (p : ℕ) → p < 1 → I.fits intake p nothing_yet }
    ensures { IfOk result (λ k.
        IsRecoveredRun (D.image stopped.now.opening) 0 stopped.now (E.image k.opening)) }
{
    stopped.recovers();
    Kernel::open(alloc, disk, intake, herald, 1)
}

/// Two steps of the first process, with an operation handed in between them, which is a session:
/// what the kernel's laws say of sessions holds of it. Whether the operation was taken in.
pub fn hand_in_between<D: Disk, H: Herald>(kernel: &mut Kernel<D, QueueIntake, H>, op: Op) -> bool
    requires { 0 < length kernel.old.world.processes }
    ensures { Session D.Disk ⟦<QueueIntake as Intake>⟧ H.Herald (Proc 0 ∷ Proc 0 ∷ [])
        kernel.old kernel.new }
{
    let _first = kernel.step(0);
    let is_taken = kernel.submit(0, op).is_ok();
    let _second = kernel.step(0);
    is_taken
}
