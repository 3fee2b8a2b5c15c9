// What waits for the kernel, and for one process.
ghost use Rattle.std.specs.Prelude.{◌≡◌, ◌≤◌};
ghost use Rattle.std.specs.VecDeque.{deque_capacity};

use crate::queues::PLACES;
use model::types::{Answer, Op};
use std::alloc::{AllocError, Global};
use std::collections::VecDeque;

// Two queues of 16 places, how many operations were ever put into the first, and how many answers
// were taken out of the second (counted up to the greatest number).
#[derive(Drop)]
pub struct Lane {
    pub(crate) waiting: VecDeque<Op>,
    pub(crate) answers: VecDeque<Answer>,
    pub(crate) submitted: u64,
    pub(crate) polled: u64,
    ghost waiting_room: { 16 ≤ deque_capacity waiting },
    ghost answer_room: { 16 ≤ deque_capacity answers },
}

impl Lane {
    ghost use Rattle.std.specs.Prelude.{◌≡◌, ◌<◌, ◌+◌, ◌⊎◌, ◌∷◌, [], ◌++◌, ◌^◌, length, IfOk, IfErr, OnErr, option_to_list};
    ghost use Rattle.std.specs.Option.{option_copied};
    ghost use Rattle.ports.specs.History.{first_in};
    ghost use Rattle.ports.specs.Lanes.{IsEmptyLane, SameAnswers, SameWaiting, polled_after};

    pub fn new(alloc: Global) -> Result<Lane, AllocError>
        ensures { IfOk result IsEmptyLane }
    {
        let waiting = VecDeque::with_capacity(alloc, PLACES)?;
        let answers = VecDeque::with_capacity(alloc, PLACES)?;
        Ok(Lane {
            waiting,
            answers,
            submitted: 0,
            polled: 0,
        })
    }

    // Puts an operation behind the others, and answers how many were put. Hands it back where 16
    // wait, or no number is left.
    pub fn submit(&mut self, op: Op) -> Result<u64, Op>
        ensures number { IfOk result (λ n. n ≡ self.old.submitted + 1) }
        ensures count { IfOk result (λ n. self.new.submitted ≡ n) }
        ensures waiting { IfOk result
            (λ _. self.new.waiting.items ≡ self.old.waiting.items ++ op ∷ []) }
        ensures places { IfOk result (λ _. length self.old.waiting.items < 16) }
        ensures back { IfErr result (λ other. other ≡ op) }
        ensures refused { OnErr result (SameWaiting self.old self.new) }
        ensures full { OnErr result ((16 ≤ length self.old.waiting.items)
            ⊎ (self.old.submitted + 1 ≡ 2 ^ 64)) }
        ensures answers { SameAnswers self.old self.new }
    {
        if self.waiting.len() >= PLACES || self.submitted == u64::MAX {
            return Err(op);
        }
        self.waiting.push_back_reserved(op);
        self.submitted += 1;
        Ok(self.submitted)
    }

    // Takes the oldest answer.
    pub fn poll(&mut self) -> Option<Answer>
        ensures oldest { result ≡ first_in self.old.answers.items }
        ensures answers { self.old.answers.items ≡ option_to_list result ++ self.new.answers.items }
        ensures polled { self.new.polled ≡ polled_after result self.old.polled }
        ensures waiting { SameWaiting self.old self.new }
    {
        let answer = self.answers.pop_front()?;
        self.polled = self.polled.saturating_add(1);
        Some(answer)
    }

    // Puts an answer behind the others.
    pub fn answer(&mut self, answer: Answer)
        requires { length self.old.answers.items < 16 }
        ensures answers { self.new.answers.items ≡ self.old.answers.items ++ answer ∷ [] }
        ensures polled { self.new.polled ≡ self.old.polled }
        ensures waiting { SameWaiting self.old self.new }
    {
        self.answers.push_back_reserved(answer);
    }

    // The operation that waits longest.
    pub fn front(&self) -> Option<&Op>
        ensures { option_copied result ≡ first_in self.now.waiting.items }
    {
        self.waiting.front()
    }
}
