// The two words, and who may use them.
ghost use Rattle.std.specs.Prelude.{◌≡◌, [], true};
ghost use Rattle.rings.specs.Rules.{is_keeper, is_watch};

use crate::rule::{Admit, Ask, Look, Ruled};
use crate::view::View;
use atomic_table::{Seat, Table};
use blocks::NoMemory;
use std::alloc::Global;

// The word that counts the committed groups.
pub(crate) const DURABLE: usize = 0;

// The word that is 1 where a shutdown was asked for.
pub(crate) const SHUT: usize = 1;

/// How many groups are committed, and whether a shutdown was asked for.
#[derive(Drop)]
pub struct Board {
    pub(crate) table: Table<(), View, (), Ruled, Global>,
    ghost two: { table.shared.table_id.words ≡ 2 },
}

/// The right to publish and to heed, of which a board has one.
#[derive(Drop)]
pub struct Keeper {
    pub(crate) seat: Seat<(), View>,
    ghost keeper: { is_keeper seat.me.0 ≡ true },
    ghost bare: { seat.me.1 ≡ [] },
}

/// The right to look and to ask.
#[derive(Drop)]
pub struct Watch {
    pub(crate) seat: Seat<(), View>,
    ghost watch: { is_watch seat.me.0 ≡ true },
    ghost bare: { seat.me.1 ≡ [] },
}

impl Board {
    ghost use Rattle.std.specs.Prelude.{◌≡◌, ◌≤◌, ◌<◌, true, false, vec_len, IfOk, All};
    ghost use Rattle.rings.specs.Boards.{KeeperOf, WatchOf, SameBoard, published, heard, seen, asked, IsNewWatch};

    /// A board, its one keeper, and so many watches. That no later call takes memory is tested.
    ///
    /// # Errors
    ///
    /// `NoMemory` where the allocator refuses the words or the places of the watches.
    pub fn new(alloc: Global, watches: usize) -> Result<(Board, Keeper, Vec<Watch>), NoMemory>
        ensures keeper { IfOk result (λ r. KeeperOf r.0 r.1
            × (published r.1 ≡ 0) × (heard r.1 ≡ false)) }
        ensures watches { IfOk result (λ r. (vec_len r.2 ≡ watches)
            × All (λ w. IsNewWatch r.0 w) r.2.items) }
    {
        let mut all = Vec::with_capacity(alloc, watches)?;
        let (board, mut keeper) = Board::open(alloc)?;
        for _ in 0..watches {
            let watch = board.admit(&mut keeper);
            all.push(watch)?;
        }
        Ok((board, keeper, all))
    }

    // Without watches.
    fn open(alloc: Global) -> Result<(Board, Keeper), NoMemory>
        ensures { IfOk result (λ r. KeeperOf r.0 r.1 × (published r.1 ≡ 0) × (heard r.1 ≡ false)) }
    {
        let (table, seat) = Table::of_words(alloc, &[0, 0], &())?;
        Ok((Board { table }, Keeper { seat }))
    }

    // One more watch.
    pub(crate) fn admit(&self, keeper: &mut Keeper) -> Watch
        requires { KeeperOf self.now keeper.old }
        ensures keeper { KeeperOf self.now keeper.new × (published keeper.new ≡ published keeper.old)
            × (heard keeper.new ≡ heard keeper.old) }
        ensures watch { IsNewWatch self.now result }
    {
        let seat = self.table.shared.split_seat::<Admit>(&mut keeper.seat);
        Watch { seat }
    }

    /// How many groups were told to be committed when this watch looked: no fewer than it saw before.
    /// The watch is of this board.
    pub fn durable(&self, watch: &mut Watch) -> u64
        requires { WatchOf self.now watch.old }
        ensures board { SameBoard watch.old watch.new }
        ensures value { seen watch.new ≡ result }
        ensures rises { seen watch.old ≤ result }
        ensures asked { asked watch.new ≡ asked watch.old }
    {
        self.table.shared.load::<Look>(&mut watch.seat, DURABLE)
    }

    /// Asks for a shutdown. The watch is of this board.
    pub fn ask_shut(&self, watch: &mut Watch)
        requires { WatchOf self.now watch.old }
        ensures board { SameBoard watch.old watch.new }
        ensures asked { asked watch.new ≡ true }
        ensures seen { seen watch.new ≡ seen watch.old }
    {
        self.table.shared.fetch_or::<Ask>(&mut watch.seat, SHUT, 1);
    }
}
