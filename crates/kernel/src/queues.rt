// What processes do to the queues of a kernel.
ghost use Rattle.std.specs.Prelude.{◌≡◌, ◌⊎◌, ◌<◌, ◌≤◌, ◌+◌, ◌^◌, length, ◌∷◌, ◌++◌, [], IfOk, IfErr, OnErr, option_to_list};
ghost use Rattle.ports.specs.History.{first_in};
ghost use Rattle.ports.specs.Lanes.{polled_after};
ghost use Rattle.ports.specs.Queues.{waiting, answers, polled, OthersWait};
ghost use Rattle.history.specs.Processes.{process};

use crate::stepping::Kernel;
use blocks::Disk;
use model::types::{Answer, Op};
use ports::{Herald, QueueIntake};

impl<D: Disk, H: Herald> Kernel<D, QueueIntake, H> {
    /// Hands an operation of a process in, as the intake's `submit`: behind those that wait, and
    /// answers how many the process handed in by now. Hands it back where 16 wait, or 2^64 - 1 were
    /// handed in.
    pub fn submit(&mut self, pid: u32, op: Op) -> Result<u64, Op>
        requires { pid < length self.old.world.processes }
        ensures ok { IfOk result (λ _. waiting self.new.intake pid
            ≡ waiting self.old.intake pid ++ op ∷ []) }
        ensures number { IfOk result (λ n. (length (waiting self.old.intake pid) < 16)
            × (n ≡ (process self.old.world pid).begun + length (waiting self.new.intake pid))) }
        ensures full { OnErr result ((16 ≤ length (waiting self.old.intake pid))
            ⊎ ((process self.old.world pid).begun + length (waiting self.old.intake pid) + 1
            ≡ 2 ^ 64)) }
        ensures back { IfErr result (λ other. (other ≡ op)
            × (waiting self.new.intake pid ≡ waiting self.old.intake pid)) }
        ensures answers { (answers self.new.intake pid ≡ answers self.old.intake pid)
            × (polled self.new.intake pid ≡ polled self.old.intake pid) }
        ensures others { OthersWait self.old.intake self.new.intake pid }
        ensures same { self.new ≡ record self.old { intake = self.new.intake } }
    {
        self.intake.submit(pid, op)
    }

    /// Takes the oldest answer of a process, as the intake's `poll`.
    pub fn poll(&mut self, pid: u32) -> Option<Answer>
        requires { pid < length self.old.world.processes }
        ensures oldest { result ≡ first_in (answers self.old.intake pid) }
        ensures answers { answers self.old.intake pid
            ≡ option_to_list result ++ answers self.new.intake pid }
        ensures polled { polled self.new.intake pid
            ≡ polled_after result (polled self.old.intake pid) }
        ensures waiting { waiting self.new.intake pid ≡ waiting self.old.intake pid }
        ensures others { OthersWait self.old.intake self.new.intake pid }
        ensures same { self.new ≡ record self.old { intake = self.new.intake } }
    {
        self.intake.poll(pid)
    }
}
