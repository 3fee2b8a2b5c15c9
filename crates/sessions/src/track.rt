// The writes and syncs of a disk, as clauses see them. They take no bytes.
ghost use Rattle.std.specs.Prelude.{◌≡◌, ◌∷◌, []};

use blocks::MemDisk;
use std::marker::Model;
use std::mem;
use std::snapshot::Snapshot;

/// Contracts see the list of these calls, the newest first: the blocks before it, and whether it was
/// a sync.
#[cycle(track)]
#[derive(Drop)]
pub struct Track {
    last: Snapshot<Option<Mark>>,
}

#[cycle(track)]
#[derive(Drop)]
struct Mark {
    before: Track,
    disk: Snapshot<MemDisk>,
    is_sync: bool,
}

impl Model for Track {
    ghost use Rattle.std.specs.Prelude.{List, ℕ, Bool, length};

    ghost Value = { List (List (List ℕ) × Bool) };

    ghost use Rattle.sessions.specs.Track.{calls};

    ghost view = { λ t. calls t.last.value };

    ghost size = { length };

    ghost use Rattle.std.proofs.Common.{arith};

    ghost size_decreases = { λ t h. Prim.grind (arith) };
}

impl Track {
    pub fn new() -> Track
        ensures { result ≡ [] }
    {
        Track {
            last: Snapshot::of(&None),
        }
    }

    /// Adds a call of a disk that was like this before it.
    pub fn add(&mut self, disk: Snapshot<MemDisk>, is_sync: bool)
        ensures { self.new ≡ (disk.value.blocks.items, is_sync) ∷ self.old }
    {
        let before = mem::replace(self, Track::new());
        let mark = Some(Mark {
            before,
            disk,
            is_sync,
        });
        *self = Track {
            last: Snapshot::of(&mark),
        };
    }
}
