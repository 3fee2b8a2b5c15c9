// The recovery of what a stop of a kernel left.
ghost use Rattle.std.specs.Prelude.{IfErr, IfOk};
ghost use Rattle.blocks.specs.Disk.{Image, LeavesOnly};
ghost use Rattle.model.specs.Log.{recovered};
ghost use Rattle.wal.specs.Recovery.{IsCalm, RecoversAs};
ghost use Rattle.kernel.specs.Theorem.{IsRecoveredRun};
ghost use Rattle.opening.specs.Recoveries.{IsRecovered, IsUnrecovered};

use crate::recovering::{RecoverRefusal, recover_image};
use blocks::Disk;
use kernel::Kernel;
use messages::Meter;
use ports::{Herald, Intake};
use std::alloc::Global;

/// Recovers the image of a disk, of any type, that a stop of a kernel may have left at any moment
/// since it was opened, or that a stop of such a recovery left. How many blocks were copied. It is
/// `recover_image`; the kernel is only spoken of.
///
/// The image is then that of a recovered run: sound, with the files of the kernel's opening after a
/// beginning of its groups. What a stop of this recovery leaves, of a disk that held nothing at its
/// start, is an image that this call takes again, and recovery makes of it the same.
///
/// # Errors
///
/// Those of `recover_image`, by the same causes.
pub fn recover_behind_a_stop<D: Disk, E: Disk, I: Intake, H: Herald, P: Meter>(
    alloc: Global,
    stopped: &Kernel<D, I, H>,
    disk: &mut E,
    progress: &mut P,
) -> Result<u32, RecoverRefusal>
    ghost x: { Image }
    requires left { D.leaves stopped.now.store.volume.device (D.moment stopped.now.opening) x }
    requires alike { RecoversAs x (E.image disk.old) }
    ensures run { IfOk result (λ copied.
        IsRecoveredRun (D.image stopped.now.opening) 0 stopped.now (E.image disk.new)) }
    ensures ok { IfOk result (λ copied. IsRecovered E.Disk copied disk.old disk.new) }
    ensures refused { IfErr result (IsUnrecovered E.Disk disk.old disk.new) }
    ensures again { IsCalm E.Disk disk.old
        → LeavesOnly E.moment E.leaves disk.old disk.new (RecoversAs x) }
    ensures then { IsCalm E.Disk disk.old
        → LeavesOnly E.moment E.leaves disk.old disk.new
        (λ z. IsRecoveredRun (D.image stopped.now.opening) 0 stopped.now (recovered z)) }
{
    stopped.recovers();
    recover_image(alloc, disk, progress)
}
