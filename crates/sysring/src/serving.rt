// A kernel that is served while its callers go on.
ghost use Rattle.std.specs.Prelude.{◌≡◌, IfSome};
ghost use Rattle.kernel.specs.Known.{Known};
ghost use Rattle.rings.specs.declared.intake.RingIntake.{RingIntake};
ghost use Rattle.sysring.specs.Origins.{AreWorkers, HasOriginOf, IsOfOrigin};
ghost use Rattle.sysring.specs.Sessions.{HasTurnsOf, IsOfTurns, IsShared};

use crate::grouping::Bound;
use crate::pace::Serving;
use crate::session::Origin;
use crate::shared::Shared;
use crate::workers::{Gate, serve_as};
use blocks::Disk;
use kernel::Kernel;
use ports::{Herald, Intake};
use rings::RingIntake;
use std::marker::Brand;
use std::rt::Clock;
use std::sync::Wait;
use std::thread;
use std::thread::Threads;

/// Serves a kernel with so many workers, from 1 to 32, on threads of their own, while the calling
/// thread does what `callers` does: it hands operations in, polls answers, and at last asks for a
/// shutdown, without which the workers go on. It may ask how they get on: above all whether they
/// have ended, as they do after a fault of the disk, and whether they are refused memory. With a
/// bound the workers keep groups of the log open up to it, as `serve_grouped`, else as `serve` none.
/// Hands the kernel back when both have ended: turns made it of the one that was handed in, with
/// anything handed in and fetched between them; it has the same rings, and no group that was committed
/// then is lost, also by a stop at any moment since.
///
/// None where no thread can be started. That nothing was done then is by the code: the kernel is
/// behind its lock before, and of what is behind a lock only what always holds there is known.
pub fn serve_while<
    D: Disk + Send,
    H: Herald + Send,
    R: Threads + Wait + Clock + Sync,
    G: Gate + Sync,
    T,
    F: FnOnce(&Serving) -> T,
>(
    rt: &R,
    kernel: Kernel<D, RingIntake, H>,
    workers: u32,
    bound: Option<Bound>,
    gate: &G,
    callers: F,
) -> (Option<T>, Kernel<D, RingIntake, H>)
    requires workers { AreWorkers workers }
    requires callers { F.IsAlwaysCallable callers }
    ensures done { IfSome result.0 (λ gift. (at : _) × F.post callers at gift) }
    ensures known { Known D.Disk ⟦<RingIntake as Intake>⟧ H.Herald result.1 }
    ensures origin { HasOriginOf D.Disk H.Herald kernel result.1 }
    ensures turns { HasTurnsOf D.Disk H.Herald kernel result.1 }
{
    kernel.known();
    serve_under::<D, H, R, G, Brand, T, F>(kernel, callers, rt, workers, bound, gate)
}

// The same with an origin.
fn serve_under<
    D: Disk + Send,
    H: Herald + Send,
    R: Threads + Wait + Clock + Sync,
    G: Gate + Sync,
    K: Origin<D, H> + Send,
    T,
    F: FnOnce(&Serving) -> T,
>(
    kernel: Kernel<D, RingIntake, H>,
    callers: F,
    rt: &R,
    workers: u32,
    bound: Option<Bound>,
    gate: &G,
) -> (Option<T>, Kernel<D, RingIntake, H>)
    requires workers { AreWorkers workers }
    requires callers { F.IsAlwaysCallable callers }
    requires shared { IsShared D.Disk H.Herald K.outset kernel }
    ensures done { IfSome result.0 (λ gift. (at : _) × F.post callers at gift) }
    ensures known { Known D.Disk ⟦<RingIntake as Intake>⟧ H.Herald result.1 }
    ensures origin { IsOfOrigin D.Disk H.Herald K.outset result.1 }
    ensures turns { IsOfTurns D.Disk H.Herald K.outset result.1 }
{
    let shared = Shared::<D, H, K>::new(kernel);
    let done = serve_beside(rt, &shared, workers, bound, gate, callers);
    (done, shared.into_kernel())
}

/// Serves a kernel that threads share as `serve_while` does, while the calling thread does `callers`,
/// which may step it, too, or flush it. Ends when both have ended.
///
/// None where no thread can be started. That nothing was done then is by the code.
pub fn serve_beside<
    T,
    F: FnOnce(&Serving) -> T,
    D: Disk + Send,
    H: Herald + Send,
    K: Origin<D, H> + Send,
    R: Threads + Wait + Clock + Sync,
    G: Gate + Sync,
>(
    rt: &R,
    shared: &Shared<D, H, K>,
    workers: u32,
    bound: Option<Bound>,
    gate: &G,
    callers: F,
) -> Option<T>
    requires workers { AreWorkers workers }
    requires callers { F.IsAlwaysCallable callers }
    ensures done { IfSome result (λ gift. (at : _) × F.post callers at gift) }
{
    shared.group_by(rt, bound);
    thread::scope(
        thread::scope_env(),
        rt,
        |scope| -> Option<T>
            requires { AreWorkers workers × F.IsAlwaysCallable callers }
            ensures { IfSome result (λ gift. (at : _) × F.post callers at gift) }
        {
            let served = scope.spawn(
                move ||
                    requires { AreWorkers workers }
                {
                    serve_as(rt, shared, workers, gate);
                    shared.serving().end();
                },
            );
            if served.is_err() {
                return None;
            }
            Some(callers(shared.serving()))
        },
    )
}
