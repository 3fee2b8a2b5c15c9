// A herald that tells of a shutdown.
ghost use Rattle.std.specs.Prelude.{◌≡◌, None};

use ports::Herald;

/// Counts, and tells of a shutdown at the nth question, and at each later one.
#[derive(Drop)]
pub struct Teller {
    count: u64,
    left: u64,
}

impl Teller {
    ghost use Rattle.test_rows.specs.Teller.{count_of};

    /// One that was told of no group.
    pub fn new(n: u64) -> Teller
        ensures { count_of result ≡ 0 }
    {
        Teller { count: 0, left: n }
    }
}

impl Herald for Teller {
    ghost use Rattle.test_rows.specs.Teller.{count_of, has_told, CountsQuestion, CountsOne};

    ghost board = { λ _. None };

    ghost count = { count_of };

    ghost told = { has_told };

    ghost asks = { CountsQuestion };

    ghost hears = { CountsOne };

    fn durable(&mut self, group: u64) {
        self.count = group;
    }

    fn is_shut(&mut self) -> bool {
        self.left = self.left.saturating_sub(1);
        self.left == 0
    }
}
