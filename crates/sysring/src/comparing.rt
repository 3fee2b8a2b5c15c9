// What a watch has seen, beside what the kernel committed.
ghost use Rattle.std.specs.Prelude.{◌≡◌, ◌≤◌, Some};
ghost use Rattle.rings.specs.Boards.{SameKeeper, SameWatch, kept_board, published, seen, seen_board};

use blocks::Disk;
use kernel::{Consult, Kernel};
use ports::Intake;
use rings::{BoardHerald, Watch};

/// Compares a watch with the board's keeper.
#[derive(Drop)]
pub struct Comparing;

impl<'a> Consult<BoardHerald<'a>> for Comparing {
    type Other = Watch;

    ghost asks = { λ _ h w. kept_board h.keeper ≡ Some (seen_board w) };

    ghost tells = { λ _ h w v. (seen w ≤ published h.keeper) × SameWatch w v };

    fn consult(self, herald: &mut BoardHerald<'a>, watch: &mut Watch) {
        herald.compare(watch);
    }
}

/// Compares a watch with the kernel of its board: it has seen no more groups than the kernel
/// committed. Neither changes. The kernel's herald is of the watch's board.
pub fn compare<'a, D: Disk, I: Intake>(
    kernel: &mut Kernel<D, I, BoardHerald<'a>>,
    watch: &mut Watch,
)
    requires board { kept_board kernel.old.herald.keeper ≡ Some (seen_board watch.old) }
    ensures seen { seen watch.old ≤ kernel.old.store.volume.log.committed }
    ensures watch { SameWatch watch.old watch.new }
    ensures keeper { SameKeeper kernel.old.herald.keeper kernel.new.herald.keeper }
    ensures same { kernel.new ≡ record kernel.old { herald = kernel.new.herald } }
{
    kernel.known();
    kernel.consult(Comparing, watch);
}
