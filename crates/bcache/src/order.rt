// The order in which slots were released.
ghost use Rattle.std.specs.Prelude.{◌≡◌, ◌<◌, ◌≤◌, ◌==◌, length, map, slice_index, IfSome};
ghost use Rattle.bcache.specs.Current.{references_of};
ghost use Rattle.bcache.specs.Order.{IsOrder, first_order, moved_to_front, victim_in};
ghost use Rattle.bcache.specs.Links.{changed_entries, links_of};

use crate::Buffer;
use crate::links::Links;
use std::marker::Model;

/// The recency order of the 40 slots: contracts see the list of their numbers, the one released
/// last first. In xv6 it is the ring of buffers that `brelse` relinks (the xv6 book, "Buffer cache
/// layer").
#[derive(Drop)]
pub struct Order {
    links: Links,
}

impl Model for Order {
    ghost use Rattle.std.specs.Prelude.{List, ℕ};

    ghost Value = { List ℕ };

    ghost use Rattle.bcache.specs.Links.{IsLinks, order_of};

    ghost view = { λ o. order_of o.links };

    ghost invariant = { λ o. IsLinks o.links };
}

impl Order {
    /// The order at the start: 39, 38, .., 0.
    pub fn new() -> Order
        ensures { result ≡ first_order }
    {
        Order {
            links: Links::new(),
        }
    }

    /// The links that hold the order.
    pub fn links(&self) -> &Links
        ensures links { result.now ≡ links_of self.now }
        ensures order { IsOrder self.now }
    {
        &self.links
    }

    /// The slot at a place of the order, from 0 on: as many links behind the first one.
    pub fn at(&self, place: u32) -> u32
        requires { place < 40 }
        ensures slot { result ≡ slice_index self.now place }
        ensures within { result < 40 }
        ensures order { IsOrder self.now }
    {
        let mut slot = self.links.first;
        for passed in 0..place {
            slot = self.links.after[slot as usize];
        }
        slot as u32
    }

    /// Puts a slot at the front. The others stay in their order, and of the links at most five
    /// entries change.
    pub fn move_to_front(&mut self, slot: u32)
        requires { slot < 40 }
        ensures front { self.new ≡ moved_to_front self.old slot }
        ensures order { IsOrder self.new }
        ensures entries { changed_entries (links_of self.old) (links_of self.new) ≤ 5 }
    {
        self.links.move_to_front(slot as u8);
    }

    /// The last slot whose buffer has no references, if there is one. The buffers are those of the
    /// 40 slots.
    pub fn victim(&self, buffers: &[Buffer]) -> Option<u32>
        requires { length buffers.now ≡ 40 }
        ensures slot { result ≡ victim_in (map references_of buffers.now) self.now }
        ensures within { IfSome result (λ slot. slot < 40) }
    {
        let mut slot = self.links.last;
        for passed in 0..buffers.len() {
            if is_unused(&buffers[slot as usize]) {
                return Some(slot as u32);
            }
            slot = self.links.before[slot as usize];
        }
        None
    }
}

// Whether nobody refers to the buffer.
fn is_unused(buffer: &Buffer) -> bool
    ensures { result ≡ (references_of buffer.now == 0) }
{
    match buffer.holder {
        Some(_) => false,
        None => buffer.pins == 0,
    }
}
