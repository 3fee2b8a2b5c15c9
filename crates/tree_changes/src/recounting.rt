// The command that puts counts of links right.
ghost use Rattle.std.specs.Prelude.{◌≡◌, IfErr, OnOk};
ghost use Rattle.names.specs.Recounting.{IsRecounted, StopsRecount};
ghost use Rattle.tree_changes.specs.Recounts.{HasNotRecounted, TellsRecount, refusal_of};

use crate::faults::ChangeRefusal;
use crate::over_tree::tell;
use blocks::Disk;
use cmd::DiskCommand;
use directories::Refusal;
use names::{RecountFault, TreeFault, recount};
use std::alloc::Global;
use std::io::Write;

/// Puts right the counts of links of a disk whose files are a tree, syncs the disk where that is asked
/// for and some were wrong, and prints how many were.
#[derive(Clone, Copy, Drop)]
pub struct Recount {
    /// Whether the disk is synced at the end.
    pub last: bool,
}

impl DiskCommand for Recount {
    type Refusal = ChangeRefusal;

    ghost done = { λ recount c old new. TellsRecount c.disk recount.last c.was c.now old new
        × StopsRecount c.disk c.was c.now };

    ghost refused = { λ recount c old new none r.
        HasNotRecounted c.disk recount.last c.was c.now none r × StopsRecount c.disk c.was c.now };

    fn run_on<D: Disk + Drop, O: Write>(
        self,
        alloc: Global,
        disk: D,
        out: &mut O,
    ) -> (Result<(), ChangeRefusal>, D) {
        let (recounted, mut disk) = recount(alloc, disk);
        match recounted {
            Ok(count) => {
                let told = tell_count(&mut disk, count, self.last, out);
                (told, disk)
            }
            Err(fault) => (Err(refusal_of(fault)), disk),
        }
    }
}

// Syncs a disk where that is asked for and some counts were wrong, and prints how many.
fn tell_count<D: Disk, O: Write>(
    disk: &mut D,
    count: u32,
    last: bool,
    out: &mut O,
) -> Result<(), ChangeRefusal>
    ensures told { (d : D) → IsRecounted D.Disk d disk.old count → OnOk result
        (TellsRecount D.Disk last d disk.new (O.contents out.old) (O.contents out.new)) }
    ensures refused { (d : D) → IsRecounted D.Disk d disk.old count → IfErr result
        (HasNotRecounted D.Disk last d disk.new (out.new ≡ out.old)) }
    ensures stops { (d : D) → IsRecounted D.Disk d disk.old count
        → StopsRecount D.Disk d disk.new }
{
    if count == 0 {
        return tell(disk, Some(count), false, out);
    }
    tell(disk, Some(count), last, out)
}

// How it is told why counts are not put right.
fn refusal_of(fault: RecountFault) -> ChangeRefusal
    ensures { result ≡ refusal_of fault }
{
    match fault {
        RecountFault::Unopened(fault) => ChangeRefusal::Unopened(fault),
        RecountFault::TooMany => ChangeRefusal::Tree(TreeFault::Refused(Refusal::TooManyLinks)),
        RecountFault::Call(fault) => ChangeRefusal::Tree(TreeFault::Call(fault)),
    }
}
