// A process's caller, with the operations that it hands in.
ghost use Rattle.std.specs.Prelude.{◌≡◌};

use crate::backlog::Backlog;
use model::types::Answer;
use rings::Caller;

/// A process's caller, and the operations that it still has to hand in.
#[derive(Drop)]
pub struct Feeder {
    pub caller: Caller,
    pub backlog: Backlog,
}

impl Feeder {
    ghost use Rattle.std.specs.Prelude.{◌≡◌, ◌∷◌, ◌++◌, [], IfSome, IfNone, IsSome, ◌<◌};
    ghost use mathlib.Core.List.{IsPrefix};
    ghost use Rattle.rings.specs.Callers.{answers_known, places, polled, submitted, unpolled};
    ghost use Rattle.clients.specs.Feeders.{HasHandedIn, IsSameFeeder};

    /// Hands in as many operations as the ring takes. By its code it answers whether it took any.
    pub fn hand_in(&mut self) -> bool
        ensures same { IsSameFeeder self.old self.new }
        ensures polled { polled self.new.caller ≡ polled self.old.caller }
        ensures all { HasHandedIn self.new }
    {
        if self.backlog.count() == 0 || !self.caller.has_room() {
            return false;
        }
        self.hand_in_first()
    }

    // The same where there are operations and a place for one.
    #[inline(never)]
    fn hand_in_first(&mut self) -> bool
        ensures same { IsSameFeeder self.old self.new }
        ensures polled { polled self.new.caller ≡ polled self.old.caller }
        ensures all { HasHandedIn self.new }
    {
        let mut moved = false;
        for _op in 0..self.backlog.count() {
            let Some(op) = self.backlog.next() else {
                break;
            };
            if let Err(op) = self.caller.submit(op) {
                self.backlog.put_back(op);
                break;
            }
            moved = true;
        }
        moved
    }

    /// Takes the oldest answer that was not polled, as `Caller::poll`.
    #[inline(never)]
    pub fn poll(&mut self) -> Option<Answer>
        ensures same { IsSameFeeder self.old self.new }
        ensures some { IfSome result (λ answer.
            polled self.new.caller ≡ polled self.old.caller ++ answer ∷ []) }
        ensures oldest { IfSome result (λ answer.
            IsPrefix (unpolled self.old.caller) (answer ∷ unpolled self.new.caller)) }
        ensures none { IfNone result (polled self.new.caller ≡ polled self.old.caller) }
        ensures known { IfNone result (answers_known self.new.caller ≡ 0) }
        ensures succeeds { 0 < answers_known self.old.caller → IsSome result }
        ensures untouched { (submitted self.new.caller ≡ submitted self.old.caller)
            × (self.new.backlog ≡ self.old.backlog)
            × (places self.new.caller ≡ places self.old.caller) }
    {
        self.caller.poll()
    }
}
