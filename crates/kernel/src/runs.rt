// Runs of turns.
ghost use Rattle.std.specs.Prelude.{◌≡◌, IsTrue, length, true};
ghost use Rattle.std.specs.List.{list_all};
ghost use Rattle.blocks.specs.Disk.{Image, LeavesOnly};
ghost use Rattle.model.specs.Layout.{inode_count_of};
ghost use Rattle.history.specs.Grows.{Grows};
ghost use Rattle.history.specs.Keeps.{KeepsNow, KeepsBetween};
ghost use Rattle.history.specs.Most.{most_of};
ghost use Rattle.kernel.specs.Heralds.{SameBoard};
ghost use Rattle.kernel.specs.Progress.{KeepsShutdown, StaysShut};
ghost use Rattle.kernel.specs.Runs.{is_turn_of, Makes, Runs, RunsOn};

use crate::Turn;
use crate::stepping::Kernel;
use blocks::Disk;
use ports::{Herald, Intake};

/// Makes these turns, one after the other, and answers how many it made: all of them. A turn of a
/// process whose step answers that it sleeps, idles or is halted counts, too. A kernel that is shut
/// stays so, and takes no operation.
///
/// A stop at any moment of the run leaves, once it is recovered, a sound image whose files are the
/// opening ones after the changing operations of the first of the groups, in the order of the
/// journal: of all that were committed when the run began, at least.
pub fn run<D: Disk, I: Intake, H: Herald>(kernel: &mut Kernel<D, I, H>, turns: &[Turn]) -> u64
    requires turns { IsTrue (list_all (is_turn_of (length kernel.old.world.processes)) turns.now) }
    ensures made { result ≡ length turns.now }
    ensures runs { Runs D.Disk I.Intake H.Herald turns.now kernel.old kernel.new }
    ensures keeps { RunsOn D.Disk kernel.old kernel.new }
    ensures board { SameBoard H.Herald kernel.old.herald kernel.new.herald }
{
    kernel.known();
    for turn in turns {
        kernel.make(*turn);
    }
    kernel.known();
    turns.len() as u64
}

impl<D: Disk, I: Intake, H: Herald> Kernel<D, I, H> {
    fn make(&mut self, turn: Turn)
        requires { IsTrue (is_turn_of (length self.old.world.processes) turn) }
        ensures turn { Makes D.Disk I.Intake H.Herald turn self.old self.new }
        ensures keeps { RunsOn D.Disk self.old self.new }
        ensures board { SameBoard H.Herald self.old.herald self.new.herald }
    {
        self.known();
        match turn {
            Turn::Proc(pid) => {
                let _answer = self.step(pid);
            }
            Turn::Shut => self.shut(),
        }
    }
}
