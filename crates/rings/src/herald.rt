// The kernel's side of a board.
ghost use Rattle.std.specs.Prelude.{◌≡◌, ◌≤◌, ◌+◌, Some, [], true};
ghost use Rattle.rings.specs.Boards.{KeeperOf, HasHeeded, HasPublished, SameKeeper, SameWatch, kept_board, published, heard, seen, seen_board};
ghost use Rattle.rings.specs.Rules.{count_of, is_keeper, is_watch, seen_of};

use crate::board::{Board, DURABLE, Keeper, SHUT, Watch};
use crate::rule::{Compare, Divide, Heed, Publish, Ruled, Unite};
use crate::view::View;
use atomic_table::{Seat, Shared};
use ports::Herald;
use std::mem;

/// Publishes each commit at a board, and heeds a shutdown that was asked for there.
#[derive(Drop)]
pub struct BoardHerald<'a> {
    board: &'a Board,
    pub keeper: Keeper,
    ghost kept: { keeper.seat.table_id ≡ board.now.table.shared.table_id },
}

impl<'a> BoardHerald<'a> {
    /// The herald of a board. The keeper is of this board.
    pub fn new(board: &'a Board, keeper: Keeper) -> BoardHerald<'a>
        requires { KeeperOf board.now keeper }
        ensures { result.keeper ≡ keeper }
    {
        BoardHerald { board, keeper }
    }

    /// Compares a watch of this board with the keeper: it has seen no more groups than were
    /// published. Neither learns anything.
    pub fn compare(&mut self, watch: &mut Watch)
        requires { kept_board self.old.keeper ≡ Some (seen_board watch.old) }
        ensures seen { seen watch.old ≤ published self.old.keeper }
        ensures watch { SameWatch watch.old watch.new }
        ensures keeper { SameKeeper self.old.keeper self.new.keeper }
    {
        let keeper = &mut self.keeper;
        let fresh = self.board.admit(keeper);
        let Watch { seat } = mem::replace(watch, fresh);
        let seat = compare(&self.board.table.shared, &mut keeper.seat, seat);
        *watch = Watch { seat };
    }
}

// Brings a watch's seat to a keeper's, looks at both, and gives it back.
fn compare(
    table: &Shared<(), View, (), Ruled>,
    keeper: &mut Seat<(), View>,
    watch: Seat<(), View>,
) -> Seat<(), View>
    requires words { table.now.table_id.words ≡ 2 }
    requires keeper { (keeper.old.table_id ≡ table.now.table_id)
        × (is_keeper keeper.old.me.0 ≡ true) × (keeper.old.me.1 ≡ []) }
    requires watch { (watch.table_id ≡ table.now.table_id)
        × (is_watch watch.me.0 ≡ true) × (watch.me.1 ≡ []) }
    ensures seen { seen_of watch.me.0 ≤ count_of keeper.old.me.0 }
    ensures keeper { keeper.new ≡ keeper.old }
    ensures watch { (result.table_id ≡ watch.table_id) × (result.me ≡ watch.me) }
{
    table.join_seat::<Unite>(keeper, watch);
    table.load::<Compare>(keeper, DURABLE);
    table.split_seat::<Divide>(keeper)
}

impl<'a> Herald for BoardHerald<'a> {
    ghost board = { λ h. kept_board h.keeper };

    ghost count = { λ h. published h.keeper };

    ghost told = { λ h. heard h.keeper };

    ghost asks = { λ old new. HasHeeded old.keeper new.keeper };

    ghost hears = { λ old new. HasPublished old.keeper new.keeper };

    fn durable(&mut self, group: u64) {
        let keeper = &mut self.keeper;
        self.board
            .table
            .shared
            .fetch_add::<Publish>(&mut keeper.seat, DURABLE, 1);
    }

    fn is_shut(&mut self) -> bool {
        let keeper = &mut self.keeper;
        self.board.table.shared.load::<Heed>(&mut keeper.seat, SHUT) == 1
    }
}
