// Steps of a process, one after the other.
ghost use Rattle.std.specs.Prelude.{◌≡◌, ◌<◌, length};
ghost use Rattle.kernel.specs.Moves.{MakesSteps};
ghost use Rattle.ports.specs.History.{SameNames};

use blocks::Disk;
use kernel::{Kernel, Step};
use ports::{Herald, Intake};

// More steps than any operation makes, whatever the image's form.
const MOST_STEPS: u32 = 40000;

/// Makes steps of a process, until one doesn't move. What the last of them answers.
#[tactic(auto, using(kernel::specs::Lemmas::Moves::none_moved, kernel::specs::Lemmas::Moves::one_moved))]
pub fn make_steps<D: Disk, I: Intake, H: Herald>(kernel: &mut Kernel<D, I, H>, pid: u32) -> Step
    requires { pid < length kernel.old.world.processes }
    ensures makes { MakesSteps D.Disk I.Intake H.Herald pid
        result kernel.old kernel.new }
    ensures processes { length kernel.new.world.processes ≡ length kernel.old.world.processes }
    ensures names { SameNames (I.name kernel.old.intake) (I.name kernel.new.intake) }
{
    for _step in 0..MOST_STEPS {
        let step = kernel.step(pid);
        if step != Step::Moved {
            return step;
        }
    }
    // No operation has so many steps.
    unreachable!()
}
