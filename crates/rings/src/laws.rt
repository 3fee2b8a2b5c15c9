// What the rule says of all seats.
ghost use Rattle.std.specs.Prelude.{◌≡◌, ℕ, true};
ghost use mathlib.Core.Option.{some};
ghost use lib.ListN.{get_elem?};
ghost use Rattle.rings.specs.Rules.{Table, IsKept, shut_of, SomeAsked, keeps};

/// Where SHUT is 0 no watch has asked.
pub fn none_asked()
    ensures { (s : Table) → IsKept s → shut_of s ≡ 0 → SomeAsked s.views → ⊥ }
{}

/// Where the keeper has heard, some watch has asked.
pub fn some_asked()
    ensures { (s : Table) → IsKept s → (seat count : ℕ) → get_elem? s.views seat ≡ some (keeps count true) → SomeAsked s.views }
{}
