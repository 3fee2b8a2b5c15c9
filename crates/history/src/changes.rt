// How many changing operations of a process had their turn, by groups.
ghost use Rattle.std.specs.Prelude.{◌≡◌, ◌<◌, ◌^◌, ◌+◌};
ghost use Rattle.history.specs.Changing.{with_change, kept_by, no_changes};

/// The newest group of these operations, how many are in it, and how many in those below.
#[derive(Clone, Copy)]
pub struct Changes {
    pub newest: u64,
    pub at: u64,
    pub below: u64,
}

impl Changes {
    /// None yet.
    pub fn new() -> Changes
        ensures { result ≡ no_changes }
    {
        Changes {
            newest: 0,
            at: 0,
            below: 0,
        }
    }

    /// An operation of this group has its turn; 0 is no group.
    pub fn add(&mut self, group: u64)
        requires { self.old.below + self.old.at + 1 < 2 ^ 64 }
        ensures { self.new ≡ with_change self.old group }
    {
        if group == 0 {
            return;
        }
        if self.newest < group {
            self.below += self.at;
            self.at = 1;
            self.newest = group;
        } else if group == self.newest {
            self.at += 1;
        } else {
            self.below += 1;
        }
    }

    /// How many are of the first so many groups, which leave out none of theirs but the newest.
    pub fn kept(&self, committed: u64) -> u64
        requires { self.now.below + self.now.at < 2 ^ 64 }
        ensures { result ≡ kept_by self.now committed }
    {
        if committed < self.newest {
            self.below
        } else {
            self.below + self.at
        }
    }
}
