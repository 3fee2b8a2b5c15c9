// Plain queues in memory.
ghost use Rattle.std.specs.Prelude.{◌≡◌, ◌<◌, ◌≤◌, ◌+◌, ◌^◌, ◌⊎◌, ◌++◌, [], ℕ, length, IfOk, IfErr, OnErr, option_to_list};
ghost use Rattle.ports.specs.History.{History, nothing_yet, first_in};

use crate::intake::Intake;
use crate::lane::Lane;
use blocks::NoMemory;
use model::types::{Answer, Op};
use std::alloc::Global;

/// The places of each queue.
pub const PLACES: usize = 16;

/// Two queues of 16 places for each process, first in, first out: of operations that wait for the
/// kernel, and of answers that wait for the process.
#[derive(Drop)]
pub struct QueueIntake {
    lanes: Vec<Lane>,
}

impl QueueIntake {
    ghost use Rattle.ports.specs.Lanes.{polled_after};
    ghost use Rattle.ports.specs.Queues.{waiting, answers, polled, queue_count, QueueFits, IsHandedIn, LeavesRest};

    /// Empty queues for so many processes. That no later call takes memory is tested.
    ///
    /// # Errors
    ///
    /// `NoMemory` where the allocator refuses the places.
    pub fn new(alloc: Global, processes: u32) -> Result<QueueIntake, NoMemory>
        ensures processes { IfOk result (λ q. queue_count q ≡ processes) }
        ensures empty { IfOk result (λ q. (p : ℕ) → (waiting q p ≡ []) × (answers q p ≡ [])) }
        ensures fresh { IfOk result (λ q. (p : ℕ) → QueueFits q p nothing_yet) }
    {
        let mut lanes = Vec::new(alloc);
        for _process in 0..processes {
            lanes.push(Lane::new(alloc)?)?;
        }
        Ok(QueueIntake { lanes })
    }

    /// How many processes it serves.
    pub fn processes(&self) -> usize
        ensures { result ≡ queue_count self.now }
    {
        self.lanes.len()
    }

    /// Puts an operation behind those of its process that wait, and answers how many the process
    /// handed in by now. Hands it back where 16 of them wait, or 2^64 - 1 were handed in.
    pub fn submit(&mut self, pid: u32, op: Op) -> Result<u64, Op>
        requires { pid < queue_count self.old }
        ensures ok { IfOk result (λ n. IsHandedIn self.old self.new pid op n) }
        ensures back { IfErr result (λ other. other ≡ op) }
        ensures refused { OnErr result (waiting self.new pid ≡ waiting self.old pid) }
        ensures full { OnErr result ((16 ≤ length (waiting self.old pid))
            ⊎ ((h : History) → QueueFits self.old pid h
            → length h.taken + length (waiting self.old pid) + 1 ≡ 2 ^ 64)) }
        ensures answers { answers self.new pid ≡ answers self.old pid }
        ensures polled { polled self.new pid ≡ polled self.old pid }
        ensures rest { LeavesRest self.old self.new pid }
    {
        self.lanes[pid as usize].submit(op)
    }

    /// Takes the oldest answer of a process.
    pub fn poll(&mut self, pid: u32) -> Option<Answer>
        requires { pid < queue_count self.old }
        ensures oldest { result ≡ first_in (answers self.old pid) }
        ensures answers { answers self.old pid ≡ option_to_list result ++ answers self.new pid }
        ensures polled { polled self.new pid ≡ polled_after result (polled self.old pid) }
        ensures waiting { waiting self.new pid ≡ waiting self.old pid }
        ensures rest { LeavesRest self.old self.new pid }
    {
        self.lanes[pid as usize].poll()
    }
}

impl Intake for QueueIntake {
    ghost use Rattle.ports.specs.Queues.{queue_count, queue_name, queue_side, QueueFits};

    // How many operations a process has handed in, and how many answers it has polled: the kernel
    // hands in none, and polls none.
    type Name = (u64, u64);

    ghost name = { queue_name };

    ghost process_count = { queue_count };

    ghost side = { queue_side };

    ghost fits = { QueueFits };

    fn next(&mut self, pid: u32) -> Option<&Op> {
        self.lanes[pid as usize].front()
    }

    fn room(&mut self, pid: u32) -> bool {
        self.lanes[pid as usize].answers.len() < PLACES
    }

    fn take(&mut self, pid: u32) -> Option<Op> {
        self.lanes[pid as usize].waiting.pop_front()
    }

    fn answer(&mut self, pid: u32, answer: Answer) {
        self.lanes[pid as usize].answer(answer);
    }
}
