// The recency order as links from slot to slot.
ghost use Rattle.std.specs.Prelude.{◌≡◌, ◌<◌, ◌≤◌, slice_index};
ghost use Rattle.bcache.specs.Order.{first_order, moved_to_front};
ghost use Rattle.bcache.specs.Links.{IsLinks, changed_entries, linked_in_front, links_of, order_of, unlinked};

// Stands for no slot.
const NONE: u8 = 40;

/// The recency order of the 40 slots, as the links of each slot to its neighbours. 40 stands for no
/// slot. In xv6 each buffer has a pointer to the one before it and to the one after it (the xv6
/// book, the chapter "File system": "Buffer cache layer").
#[derive(Clone, Copy)]
pub struct Links {
    /// For each slot the one before it, which is nearer to the slot released last; 40 for the first.
    pub before: [u8; 40],
    /// For each slot the one after it; 40 for the last.
    pub after: [u8; 40],
    /// The slot released last.
    pub first: u8,
    /// The slot at the end of the order, where the search for one without references begins.
    pub last: u8,
}

impl Links {
    // The links of the order at the start: 39, 38, .., 0.
    pub(crate) fn new() -> Links
        ensures { result ≡ links_of first_order }
    {
        let mut before = [NONE; 40];
        let mut after = [NONE; 40];
        for slot in 0..39 {
            before[slot] = slot as u8 + 1;
            after[slot + 1] = slot as u8;
        }
        Links {
            before,
            after,
            first: 39,
            last: 0,
        }
    }

    // Puts a slot at the front. The others stay in their order, and all but at most five entries as
    // they were.
    pub(crate) fn move_to_front(&mut self, slot: u8)
        requires slot { slot < 40 }
        requires linked { IsLinks self.old }
        ensures entries { changed_entries self.old self.new ≤ 5 }
        ensures front { order_of self.new ≡ moved_to_front (order_of self.old) slot }
        ensures linked { IsLinks self.new }
    {
        if self.first != slot {
            self.unlink(slot);
            self.link_in_front(slot);
        }
    }

    // Takes out a slot that is not the first one.
    fn unlink(&mut self, slot: u8)
        requires slot { slot < 40 }
        requires before { slice_index self.old.before slot < 40 }
        requires after { slice_index self.old.after slot ≤ 40 }
        ensures { self.new ≡ unlinked self.old slot }
    {
        let before = self.before[slot as usize];
        let after = self.after[slot as usize];
        self.after[before as usize] = after;
        if after == NONE {
            self.last = before;
        } else {
            self.before[after as usize] = before;
        }
    }

    // Puts a slot that was taken out before the first one.
    fn link_in_front(&mut self, slot: u8)
        requires slot { slot < 40 }
        requires first { self.old.first < 40 }
        ensures { self.new ≡ linked_in_front self.old slot }
    {
        self.before[slot as usize] = NONE;
        self.after[slot as usize] = self.first;
        self.before[self.first as usize] = slot;
        self.first = slot;
    }
}
