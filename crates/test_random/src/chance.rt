// Numbers that look like chance.
ghost use Rattle.std.specs.Prelude.{◌<◌};

/// A row of numbers that looks like chance, and is the same from the same seed (splitmix64).
#[derive(Clone, Copy)]
pub struct Chance {
    state: u64,
}

impl Chance {
    /// One of the rows of a seed.
    pub fn new(seed: u64, row: u64) -> Chance {
        let mut chance = Chance { state: seed };
        chance.state = chance.draw() ^ row;
        chance
    }

    /// A number below a bound.
    pub fn below(&mut self, bound: u32) -> u32
        requires { 0 < bound }
        ensures { result < bound }
    {
        (self.draw() % bound as u64) as u32
    }

    /// Yes, once in so many times.
    pub fn is_one_in(&mut self, times: u32) -> bool
        requires { 0 < times }
    {
        self.below(times) == 0
    }

    fn draw(&mut self) -> u64 {
        self.state = self.state.wrapping_add(0x9e37_79b9_7f4a_7c15);
        let once = (self.state ^ (self.state >> 30)).wrapping_mul(0xbf58_476d_1ce4_e5b9);
        let twice = (once ^ (once >> 27)).wrapping_mul(0x94d0_49bb_1331_11eb);
        twice ^ (twice >> 31)
    }
}
