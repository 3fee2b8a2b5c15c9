// The table of the blocks takes the pointers of inodes: each is judged, and its block then stands at
// its place.
ghost use Rattle.offline.specs.Lemmas.Taking.{claims_more, claims_none, claims_refused};
ghost use Rattle.offline.specs.Taking.{Claims};

use crate::owners::Owners;
use crate::walking::TakesPointers;
use model::types::{CheckFault, Pointer};

impl TakesPointers for Owners {
    ghost takes = { Claims };

    fn take(&mut self, i: u32, pointer: Pointer) -> Result<(), CheckFault> {
        self.claim(i, pointer)
    }

    ghost takes_none = { claims_none };

    ghost takes_more = { claims_more };

    ghost refuses_early = { claims_refused };
}
