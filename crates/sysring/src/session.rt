// A kernel of which threads know from which one it goes on.
ghost use Rattle.std.specs.Prelude.{◌≡◌, ◌<◌, length};

use crate::workers::is_move;
use blocks::Disk;
use kernel::{Kernel, Step};
use ports::{Herald, Intake};
use rings::RingIntake;
use std::marker::{Brand, Model, PhantomData};
use wal::{Deed, DeviceFault};

/// The kernel that threads began to share, as it was then. A call that shares one picks it.
pub trait Origin<D, H> {
    ghost use Rattle.std.specs.Prelude.{Option};
    ghost use Rattle.kernel.specs.State.{State};
    ghost use Rattle.rings.specs.declared.intake.RingIntake.{RingIntake};

    ghost outset: { Option (State D RingIntake H) };
}

impl<D, H> Origin<D, H> for Brand {
    ghost use Rattle.std.specs.Prelude.{None};

    ghost outset = { None };
}

// More than any operation has, its commit included.
const MOST_STEPS: u32 = 65536;

/// A kernel of that origin.
#[derive(Drop)]
pub struct Session<D: Disk, H: Herald, K: Origin<D, H>> {
    kernel: Kernel<D, RingIntake, H>,
    of: PhantomData<K>,
}

impl<D: Disk, H: Herald, K: Origin<D, H>> Model for Session<D, H, K> {
    ghost use Rattle.kernel.specs.State.{State};
    ghost use Rattle.rings.specs.declared.intake.RingIntake.{RingIntake};
    ghost use Rattle.sysring.specs.Sessions.{IsShared};

    ghost Value = { State D RingIntake H };

    ghost view = { λ f. f.kernel };

    ghost invariant = { λ f. IsShared D.Disk H.Herald K.outset f.kernel };
}

impl<D: Disk, H: Herald, K: Origin<D, H>> Session<D, H, K> {
    ghost use Rattle.std.specs.Prelude.{IfErr, OnOk, Some, None};
    ghost use Rattle.kernel.specs.Awake.{AreIdle};
    ghost use Rattle.kernel.specs.Flush.{Flushes};
    ghost use Rattle.kernel.specs.Steps.{MakesStep};
    ghost use Rattle.rings.specs.declared.intake.RingIntake.{RingIntake};
    ghost use Rattle.sysring.specs.Origins.{IsOfOrigin, processes_in};
    ghost use Rattle.sysring.specs.Sessions.{IsOfTurns, IsShared};

    // Puts a kernel into a session.
    pub(crate) fn new(kernel: Kernel<D, RingIntake, H>) -> Session<D, H, K>
        requires { IsShared D.Disk H.Herald K.outset kernel }
        ensures { result ≡ kernel }
    {
        Session {
            kernel,
            of: PhantomData,
        }
    }

    /// The kernel, for who only asks.
    pub fn kernel(&self) -> &Kernel<D, RingIntake, H>
        ensures same { result.now ≡ self.now }
        ensures origin { IsOfOrigin D.Disk H.Herald K.outset self.now }
    {
        &self.kernel
    }

    // A step of a process, as `Kernel::step` makes it. It wakes nobody: `Shared::step` does.
    pub(crate) fn step(&mut self, pid: u32) -> Step
        requires { pid < processes_in K.outset }
        ensures makes { MakesStep D.Disk ⟦<RingIntake as Intake>⟧ H.Herald pid result
            self.old self.new }
        ensures shared { IsShared D.Disk H.Herald K.outset self.old }
    {
        self.kernel.step(pid)
    }

    // Ends every operation that is under way, as `Kernel::flush` does. It wakes nobody.
    pub(crate) fn flush(&mut self) -> Result<(), DeviceFault>
        ensures shared { IsShared D.Disk H.Herald K.outset self.old }
        ensures flushes { Flushes D.Disk ⟦<RingIntake as Intake>⟧ H.Herald self.old self.new }
        ensures idle { OnOk result (AreIdle self.new.world) }
        ensures works { OnOk result (self.new.store.volume.fault ≡ None) }
        ensures fault { IfErr result (λ fault. self.new.store.volume.fault ≡ Some fault) }
    {
        self.kernel.flush()
    }

    // Steps of a process while they move it, up to the end of its operation in the log. What they came
    // to: the last, or `Moved` where one before it did.
    pub(crate) fn advance(&mut self, pid: u32) -> Step
        requires { pid < processes_in K.outset }
    {
        let mut came = Step::Idle;
        for _step in 0..MOST_STEPS {
            if self.is_before_end(pid) {
                break;
            }
            let step = self.step(pid);
            came = joined(came, step);
            if !matches!(step, Step::Moved) {
                break;
            }
        }
        came
    }

    // The same behind that end.
    pub(crate) fn end(&mut self, pid: u32) -> Step
        requires { pid < processes_in K.outset }
    {
        let mut came = Step::Idle;
        for _step in 0..MOST_STEPS {
            let step = self.step(pid);
            came = joined(came, step);
            if !matches!(step, Step::Moved) {
                break;
            }
        }
        came
    }

    // Whether a process stands before the end of its operation in the log.
    pub(crate) fn is_before_end(&self, pid: u32) -> bool
        requires { pid < processes_in K.outset }
    {
        matches!(self.kernel.deed(pid), Some(Deed::End))
    }

    // The kernel, out of its session.
    pub(crate) fn into_kernel(self) -> Kernel<D, RingIntake, H>
        ensures same { result ≡ self }
        ensures origin { IsOfOrigin D.Disk H.Herald K.outset result }
        ensures turns { IsOfTurns D.Disk H.Herald K.outset result }
    {
        let Session { kernel, .. } = self;
        kernel
    }
}

// What steps came to, and then one more.
fn joined(came: Step, step: Step) -> Step {
    match step {
        Step::Answered | Step::Halted => step,
        _ if is_move(came) => came,
        _ => step,
    }
}
