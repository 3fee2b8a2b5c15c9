// A kernel behind a lock.
ghost use Rattle.std.specs.Prelude.{◌<◌};
ghost use Rattle.std.specs.Sync.Mutex.{mutex_guard_value};
ghost use Rattle.blocks.specs.Disk.{Image};
ghost use Rattle.model.specs.Log.{recovered};
ghost use Rattle.wal.specs.Recovery.{RecoversAs};
ghost use Rattle.kernel.specs.Known.{Known};
ghost use Rattle.kernel.specs.Theorem.{IsExact, IsRecoveredRun};
ghost use Rattle.sysring.specs.Origins.{IsOfOrigin, processes_in};
ghost use Rattle.sysring.specs.Sessions.{FlushesShared, IsOfTurns, IsShared, StepsShared};

use crate::grouping::{Bound, Order};
use crate::pace::Serving;
use crate::session::{Origin, Session};
use blocks::Disk;
use kernel::{Kernel, Step};
use ports::{Herald, Intake};
use rings::RingIntake;
use std::sync::atomic::{AtomicU64, Ordering};
use std::sync::{Condvar, Mutex, MutexGuard, Wait};
use std::thread;
use wal::DeviceFault;

// How often others are let go on before who waits for them sleeps.
const LOOKS: u32 = 8;

/// A kernel that threads share.
#[derive(Drop)]
pub struct Shared<D: Disk, H: Herald, K: Origin<D, H>> {
    kernel: Mutex<Session<D, H, K>>,
    // The steps that changed something, wrapping. It is written under the lock.
    changes: AtomicU64,
    // Those who wait for a change. It is written under the lock.
    waiting: AtomicU64,
    changed: Condvar,
    order: Mutex<Order>,
    serving: Serving,
}

impl<D: Disk, H: Herald, K: Origin<D, H>> Shared<D, H, K> {
    /// Puts a lock round a kernel.
    pub fn new(kernel: Kernel<D, RingIntake, H>) -> Shared<D, H, K>
        requires { IsShared D.Disk H.Herald K.outset kernel }
    {
        Shared {
            kernel: Mutex::new(Session::new(kernel)),
            changes: AtomicU64::new(0),
            waiting: AtomicU64::new(0),
            changed: Condvar::new(),
            order: Mutex::new(Order::new(None)),
            serving: Serving::new(),
        }
    }

    /// Gets the lock. Whoever had the kernel before: what is known of any kernel is true of it,
    /// above all what a stop now leaves, and it goes on from the one that threads began to share.
    pub fn lock<R: Wait>(&self, rt: &R) -> MutexGuard<'_, Session<D, H, K>>
        ensures known { Known D.Disk ⟦<RingIntake as Intake>⟧ H.Herald (mutex_guard_value result) }
        ensures origin { IsOfOrigin D.Disk H.Herald K.outset (mutex_guard_value result) }
    {
        let kernel = self.acquire(rt);
        kernel.kernel().known();
        kernel
    }

    /// Gets the lock, and says THE RECOVERY THEOREM of the kernel behind it, whoever had it before:
    /// what recovery makes of each image that a stop may leave, at any moment since the opening, also
    /// where that recovery is stopped and made again, and now.
    pub fn recovers<R: Wait>(&self, rt: &R) -> MutexGuard<'_, Session<D, H, K>>
        ensures since { let k = mutex_guard_value result in (x : Image)
            → D.leaves k.store.volume.device (D.moment k.opening) x
            → IsRecoveredRun (D.image k.opening) 0 k (recovered x) }
        ensures stopped { let k = mutex_guard_value result in (x z : Image)
            → D.leaves k.store.volume.device (D.moment k.opening) x → RecoversAs x z
            → IsRecoveredRun (D.image k.opening) 0 k (recovered z) }
        ensures now { let k = mutex_guard_value result in (x : Image)
            → D.leaves k.store.volume.device (D.moment k.store.volume.device) x
            → IsExact (D.image k.opening) k x }
        ensures origin { IsOfOrigin D.Disk H.Herald K.outset (mutex_guard_value result) }
    {
        let kernel = self.lock(rt);
        kernel.kernel().recovers();
        kernel
    }

    // Gets the lock. It is sought for a while first, since who sleeps for it costs who has it a call
    // of the system.
    fn acquire<R: Wait>(&self, rt: &R) -> MutexGuard<'_, Session<D, H, K>> {
        for _look in 0..LOOKS {
            if let Some(kernel) = self.kernel.try_lock() {
                return kernel;
            }
            thread::yield_now();
        }
        self.kernel.lock(rt)
    }

    /// The kernel, once nobody shares it any more.
    pub fn into_kernel(self) -> Kernel<D, RingIntake, H>
        ensures known { Known D.Disk ⟦<RingIntake as Intake>⟧ H.Herald result }
        ensures origin { IsOfOrigin D.Disk H.Herald K.outset result }
        ensures turns { IsOfTurns D.Disk H.Herald K.outset result }
    {
        let Shared { kernel, .. } = self;
        let kernel = kernel.into_inner().into_kernel();
        kernel.known();
        kernel
    }

    /// Makes a step of a process under the lock, as `Kernel::step` makes it, of the kernel that is
    /// there then, and answers as it does. By its code it wakes all who wait where that changed
    /// something.
    pub fn step<R: Wait>(&self, rt: &R, pid: u32) -> Step
        requires { pid < processes_in K.outset }
        ensures { StepsShared D.Disk H.Herald K.outset pid result }
    {
        let mut kernel = self.lock(rt);
        let step = kernel.step(pid);
        self.tell(step);
        step
    }

    // Makes steps of a process under one lock, each as `Kernel::step` makes it, while they move it:
    // up to the end of its operation in the log. What they came to, and whether it stands there.
    pub(crate) fn advance<R: Wait>(&self, rt: &R, pid: u32) -> (Step, bool)
        requires { pid < processes_in K.outset }
    {
        let mut kernel = self.lock(rt);
        let step = kernel.advance(pid);
        self.tell(step);
        (step, kernel.is_before_end(pid))
    }

    // The same behind that end: it is answered, after the commit of its group where no other operation
    // is open. What they came to, and whether none is open.
    pub(crate) fn end<R: Wait>(&self, rt: &R, pid: u32) -> (Step, bool)
        requires { pid < processes_in K.outset }
    {
        let mut kernel = self.lock(rt);
        let step = kernel.end(pid);
        self.tell(step);
        (step, kernel.kernel().log().outstanding() == 0)
    }

    // Wakes all who wait where a step changed something.
    fn tell(&self, step: Step) {
        // A fault is a change, too: without a wake-up there who waits would wait for ever.
        if matches!(step, Step::Moved | Step::Answered | Step::Halted) {
            self.wake();
        }
    }

    // Counts a change, and wakes all who wait for one.
    fn wake(&self) {
        self.changes.fetch_add(1, Ordering::SeqCst);
        if self.waiting.load(Ordering::SeqCst) > 0 {
            self.changed.notify_all();
        }
    }

    // From now on groups are kept open, up to this bound, or aren't.
    pub(crate) fn group_by<R: Wait>(&self, rt: &R, bound: Option<Bound>) {
        let mut order = self.order.lock(rt);
        *order = Order::new(bound);
        self.serving.group(bound.is_some());
    }

    // Up to which bound groups are kept open, if they are.
    pub(crate) fn bound<R: Wait>(&self, rt: &R) -> Option<Bound> {
        self.order.lock(rt).bound
    }

    // The order of turns.
    pub(crate) fn order(&self) -> &Mutex<Order> {
        &self.order
    }

    /// Brings every answer that was given to the disk, with the lock held meanwhile: it ends each
    /// operation that is under way, as `Kernel::flush` does, and none begins before. By its code it
    /// wakes all who wait.
    ///
    /// # Errors
    ///
    /// The fault of the disk.
    pub fn flush<R: Wait>(&self, rt: &R) -> Result<(), DeviceFault>
        ensures { FlushesShared D.Disk H.Herald K.outset result }
    {
        let mut kernel = self.lock(rt);
        let flushed = kernel.flush();
        self.wake();
        flushed
    }

    // How its workers get on.
    pub(crate) fn serving(&self) -> &Serving {
        &self.serving
    }

    // How many steps changed something, wrapping.
    pub(crate) fn changes(&self) -> u64 {
        self.changes.load(Ordering::SeqCst)
    }

    // Waits until there were other than so many changes. At first it only lets others go on for a
    // while: where they change much, who sleeps would be woken at each change.
    pub(crate) fn wait_past<R: Wait>(&self, rt: &R, seen: u64) {
        for _look in 0..LOOKS {
            thread::yield_now();
        }
        if self.changes() != seen {
            return;
        }
        let changes = &self.changes;
        let kernel = self.acquire(rt);
        self.waiting.fetch_add(1, Ordering::SeqCst);
        let _kernel = self.changed.wait_while(rt, kernel, |_kernel| {
            changes.load(Ordering::SeqCst) == seen
        });
        self.waiting.fetch_sub(1, Ordering::SeqCst);
    }
}
