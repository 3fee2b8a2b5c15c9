// A caller with the operations of a script.
ghost use Rattle.std.specs.Prelude.{◌≡◌, ◌≤◌, length};
ghost use Rattle.rings.specs.Callers.{polled, submitted};
ghost use Rattle.clients.specs.Backlogs.{backlog_of};
ghost use Rattle.clients.specs.Feeders.{feeder_ops};

use crate::feeder::Feeder;
use model::types::Answer;
use rings::Caller;
use std::alloc::{AllocError, Global};

/// A process's caller, the operations that it still has to hand in, and the answers that it got.
#[derive(Drop)]
pub struct Client {
    pub(crate) feeder: Feeder,
    answers: Vec<Answer>,
    // How many answers it waits for in all.
    wanted: usize,
    ghost got: { polled feeder.caller ≡ answers.items },
    ghost all: { wanted ≡ length (feeder_ops feeder) },
    ghost room: { wanted ≤ answers.cap },
}

impl Client {
    ghost use Rattle.std.specs.Prelude.{◌≡◌, [], ◌++◌, IfOk, List, length, nat_le};
    ghost use Rattle.model.specs.declared.types.operations.Op.{Op};
    ghost use Rattle.rings.specs.Callers.{caller_names};
    ghost use Rattle.clients.specs.Backlogs.{backlog_of};
    ghost use Rattle.clients.specs.Clients.{client_names, client_ops, HasPolled, IsCalled, IsSameClient};
    ghost use Rattle.clients.specs.Feeders.{HasHandedIn};

    // A feeder that has done nothing, with places for all its answers.
    pub(crate) fn new(alloc: Global, feeder: Feeder) -> Result<Client, AllocError>
        requires { (submitted feeder.caller ≡ []) × (polled feeder.caller ≡ []) }
        ensures { IfOk result (λ c. c.feeder ≡ feeder) }
    {
        let wanted = feeder.backlog.count();
        let answers = Vec::with_capacity(alloc, wanted)?;
        Ok(Client {
            feeder,
            answers,
            wanted,
        })
    }

    /// Hands in as many operations as the ring takes, and polls the answers that there are, up to
    /// one for each operation. By its code it answers whether there were any of either.
    pub fn call(&mut self) -> bool
        ensures same { IsSameClient self.old self.new }
        ensures called { IsCalled self.new }
    {
        let handed_in = self.feeder.hand_in();
        self.poll() || handed_in
    }

    // Polls the answers that there are. Whether there were any.
    fn poll(&mut self) -> bool
        ensures same { IsSameClient self.old self.new }
        ensures handed_in { HasHandedIn self.old.feeder → HasHandedIn self.new.feeder }
        ensures polled { HasPolled self.new }
    {
        let mut moved = false;
        for _answer in self.answers.len()..self.wanted {
            let Some(answer) = self.feeder.poll() else {
                break;
            };
            self.answers.push_reserved(answer);
            moved = true;
        }
        moved
    }

    /// How many operations it has in all.
    pub fn operations(&self) -> usize
        ensures { result ≡ length (client_ops self.now) }
    {
        self.wanted
    }

    /// Whether it has an answer to each operation.
    pub fn is_done(&self) -> bool
        ensures { result ≡ nat_le (length (client_ops self.now)) (length (polled self.now.feeder.caller)) }
    {
        self.answers.len() >= self.wanted
    }

    /// The caller, and the answers that it polled, in order.
    pub fn into_parts(self) -> (Caller, Vec<Answer>)
        ensures names { caller_names result.0 ≡ client_names self }
        ensures ops { (rest : List Op) × (client_ops self ≡ submitted result.0 ++ rest) }
        ensures answers { polled result.0 ≡ result.1.items }
    {
        let Client {
            feeder,
            answers,
            ..
        } = self;
        (feeder.caller, answers)
    }
}
