//! When the answers of a kernel are durable: laws over what `Kernel::known` ensures.
//!
//! An answer names its operation's group, and outlives a stop once that group is committed. A group is
//! committed when no operation is open in it any more (the xv6 book, the chapter "File system", "Code:
//! logging"). So all answers are durable where no operation is under way, and rounds of all processes
//! bring that about, where none begins meanwhile. `Kernel::flush` does so whatever waits to begin.
//!
//! Others may keep an operation out of the log for ever: whoever begins before it takes the room that
//! it waits for. Behind a flush none is kept out. So a caller who now and then flushes, and then steps
//! the process that has waited longest, starves nobody.
#![tactic(auto)]

ghost use Rattle.durability.specs.Beginning.{NoneIsKeptOut};
ghost use Rattle.durability.specs.Durable.{IdleIsDurable, RoundsMakeDurable};

use blocks::Disk;
use ports::{Herald, Intake};

/// Where no operation of a kernel is under way and its disk works, as `Kernel::flush` leaves it,
/// recovery of whatever a stop leaves now gives the files after all operations of the journal.
pub fn idle_is_durable<D: Disk, I: Intake, H: Herald>()
    ensures { IdleIsDurable D.Disk I.Intake H.Herald }
{
    kernel::laws::recovery_theorem::<D, I, H>();
}

/// The same of a kernel behind turns that go round all processes, as many times as 2,000 for each
/// process, or 40,000 in the second form, where no operation begins meanwhile and the disk works.
pub fn rounds_make_durable<D: Disk, I: Intake, H: Herald>()
    ensures { RoundsMakeDurable D.Disk I.Intake H.Herald }
{
    idle_is_durable::<D, I, H>();
    kernel::laws::rounds_end_all::<D, I, H>();
}

/// Where no operation of a kernel is under way and its disk works, as `Kernel::flush` leaves it, the log
/// keeps none out: whichever process is stepped next begins the operation that waits for it, unless
/// its answer has no room, memory is refused or there is a shutdown.
pub fn none_is_kept_out<D: Disk, I: Intake, H: Herald>()
    ensures { NoneIsKeptOut D.Disk I.Intake H.Herald }
{}
