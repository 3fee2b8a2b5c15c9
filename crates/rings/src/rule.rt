// The rule, the kinds of step, how a watch is made, and how one is compared with the keeper.
ghost use Rattle.rings.specs.Rules.{IsKept, keeps, watches, united, keeper_part, watch_part, Publishes, Looks, Asks, Heeds, Compares};
ghost use Rattle.std.specs.Prelude.{false};

use crate::view::View;
use atomic_table::{Join, Play, Split, TableRule};

pub struct Ruled;

impl TableRule<(), View, ()> for Ruled {
    ghost holds = { λ _ s. IsKept s };

    ghost first = { λ _. keeps 0 false };
}

pub struct Publish;

impl Play<(), View> for Publish {
    ghost then = { Publishes };
}

pub struct Look;

impl Play<(), View> for Look {
    ghost then = { Looks };
}

pub struct Ask;

impl Play<(), View> for Ask {
    ghost then = { Asks };
}

pub struct Heed;

impl Play<(), View> for Heed {
    ghost then = { Heeds };
}

/// Cuts a watch from the keeper.
pub struct Admit;

impl Split<View> for Admit {
    ghost left = { λ v. v };

    ghost right = { λ _. watches 0 false };
}

/// Brings a watch to the keeper's seat.
pub struct Unite;

impl Join<View> for Unite {
    ghost both = { united };

    ghost spent = { watches 0 false };
}

pub struct Compare;

impl Play<(), View> for Compare {
    ghost then = { Compares };
}

/// Gives the watch back.
pub struct Divide;

impl Split<View> for Divide {
    ghost left = { keeper_part };

    ghost right = { watch_part };
}
