//! Laws of runs, the contract of a function that does nothing.
ghost use Rattle.runner.specs.Causes.{LowerWereTaken, NoInodeWasDue, ShortWasDue};

use blocks::Disk;
use sysring::{BoardHerald, RingIntake};

/// Why an answer of a run gives less than was asked for. Where a creation was answered with
/// `NoInode`, a turn of the run looked at each number that operations may name and found it taken;
/// where it made one, a turn found so each lower one. Where a write was answered with fewer bytes
/// than it was asked for, a turn looked at the bitmap's block while no block was left.
pub fn short_answers<'a, D: Disk>()
    ensures none { NoInodeWasDue D.Disk }
    ensures made { LowerWereTaken D.Disk }
    ensures short { ShortWasDue D.Disk }
{
    kernel::laws::short_answers::<D, RingIntake, BoardHerald<'a>>();
}
