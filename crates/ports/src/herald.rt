// Whom the kernel tells of its commits, and who tells it of a shutdown.
ghost use Rattle.std.specs.Prelude.{◌≡◌, ℕ, ◌+◌, Bool, true, false, None};

/// Hears how many groups are committed, and may tell of a shutdown.
pub trait Herald: Drop {
    ghost use Rattle.std.specs.Prelude.{ℕ, Bool, Option};
    ghost use Rattle.atomic_table.specs.Seated.{TableId};

    /// The table of the board at which it publishes them, if it has one. It stays the same.
    ghost board: { Self → Option TableId };

    /// How many groups it was told are committed.
    ghost count: { Self → ℕ };

    /// Whether it told of a shutdown.
    ghost told: { Self → Bool };

    /// It was asked for a shutdown once, and heard of no group.
    ghost asks: { Self → Self → Type 0 };

    /// It heard of one group, and was not asked.
    ghost hears: { Self → Self → Type 0 };

    /// Hears that the group of this number is committed: one more than it was told before.
    fn durable(&mut self, group: u64)
        requires { group ≡ count self.old + 1 }
        ensures board { board self.new ≡ board self.old }
        ensures count { count self.new ≡ group }
        ensures told { told self.new ≡ told self.old }
        ensures hears { hears self.old self.new };

    /// Whether a shutdown was asked for. Once true, it stays so.
    fn is_shut(&mut self) -> bool
        ensures board { board self.new ≡ board self.old }
        ensures count { count self.new ≡ count self.old }
        ensures told { told self.new ≡ result }
        ensures stays { told self.old ≡ true → result ≡ true }
        ensures asks { asks self.old self.new };
}

/// A plain count, which tells of no shutdown.
#[derive(Drop)]
pub struct PlainHerald {
    count: u64,
}

impl PlainHerald {
    ghost use Rattle.ports.specs.PlainHerald.{count_of};

    /// One that was told of no group.
    pub fn new() -> PlainHerald
        ensures { count_of result ≡ 0 }
    {
        PlainHerald { count: 0 }
    }

    /// How many groups it was told are committed.
    pub fn count(&self) -> u64
        ensures { result ≡ count_of self.now }
    {
        self.count
    }
}

impl Herald for PlainHerald {
    ghost use Rattle.ports.specs.PlainHerald.{count_of, IsSame, CountsOne};

    ghost board = { λ _. None };

    ghost count = { count_of };

    ghost told = { λ _. false };

    ghost asks = { IsSame };

    ghost hears = { CountsOne };

    fn durable(&mut self, group: u64) {
        *self = PlainHerald { count: group };
    }

    fn is_shut(&mut self) -> bool {
        false
    }
}
