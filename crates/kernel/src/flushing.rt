// Bringing each answer to the disk.
ghost use Rattle.std.specs.Prelude.{◌≡◌, ◌<◌, OnOk, IfErr, length, Some, None, true, false};
ghost use Rattle.history.specs.Bound.{is_busy_at};
ghost use Rattle.kernel.specs.Awake.{AreIdle};
ghost use Rattle.kernel.specs.Flush.{AreOver, EndsOnly, Flushes, GoesOn};
ghost use Rattle.kernel.specs.Heralds.{SameBoard};
ghost use Rattle.kernel.specs.Runs.{RunsOn};
ghost use Rattle.kernel.specs.State.{ats_of};

use crate::stepping::Kernel;
use crate::{Step, laws};
use blocks::Disk;
use history::Phase;
use ports::{Herald, Intake};
use wal::DeviceFault;

impl<D: Disk, I: Intake, H: Herald> Kernel<D, I, H> {
    /// Ends every operation that is under way, and lets none begin meanwhile: it makes steps of
    /// processes with an operation under way, and of no other. Then each group of the log is
    /// committed, so that every answer that was given outlives a stop, and the log keeps no operation
    /// out that is to begin next. Others may begin again behind it.
    ///
    /// It makes, for each pair of processes, at most as many steps as an operation has: 2,000, or 40,000
    /// in the second form.
    ///
    /// # Errors
    ///
    /// The fault of the disk, after which no step is made any more.
    pub fn flush(&mut self) -> Result<(), DeviceFault>
        ensures flushes { Flushes D.Disk I.Intake H.Herald self.old self.new }
        ensures keeps { RunsOn D.Disk self.old self.new }
        ensures board { SameBoard H.Herald self.old.herald self.new.herald }
        ensures idle { OnOk result (AreIdle self.new.world) }
        ensures works { OnOk result (self.new.store.volume.fault ≡ None) }
        ensures fault { IfErr result (λ fault. self.new.store.volume.fault ≡ Some fault) }
    {
        self.end_all();
        match self.fault() {
            Some(fault) => Err(fault),
            None => Ok(()),
        }
    }

    // Makes steps of processes that have an operation under way, until none has or the disk has a
    // fault.
    fn end_all(&mut self)
        ensures flushes { Flushes D.Disk I.Intake H.Herald self.old self.new }
        ensures keeps { RunsOn D.Disk self.old self.new }
        ensures board { SameBoard H.Herald self.old.herald self.new.herald }
        ensures over { AreOver self.new }
    {
        self.known();
        while self.go_on_somewhere() {}
    }

    // Makes steps of processes that have an operation under way, one of each, until one goes on.
    // Whether one does; else none is under way, or the disk has a fault.
    fn go_on_somewhere(&mut self) -> bool
        ensures ends { EndsOnly D.Disk I.Intake H.Herald (length self.old.world.processes)
            self.old self.new }
        ensures goes { GoesOn D.image result self.old self.new }
        ensures keeps { RunsOn D.Disk self.old self.new }
        ensures board { SameBoard H.Herald self.old.herald self.new.herald }
    {
        self.known();
        laws::sleeps_for_cause::<D, I, H>();
        for pid in 0..self.processes() as u32 {
            if !self.is_under_way(pid) {
                continue;
            }
            self.known();
            match self.step(pid) {
                Step::Sleeping(_) => {}
                Step::Halted => return false,
                Step::Moved | Step::Answered | Step::Idle | Step::NoMemory | Step::ShutDown => {
                    return true;
                }
            }
        }
        false
    }

    // Whether a process has an operation under way.
    fn is_under_way(&self, pid: u32) -> bool
        requires { pid < length self.now.world.processes }
        ensures { result ≡ is_busy_at (ats_of self.now.world pid) }
    {
        !matches!(self.processes.at(pid), Phase::Idle)
    }
}
