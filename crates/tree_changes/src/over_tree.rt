// A change of the files of a disk.
ghost use Rattle.std.specs.Prelude.{◌≡◌, ℕ, ◌<◌, Option, IfErr, IfOk, IsTrue, OnErr, OnOk};
ghost use Rattle.blocks.specs.Disk.{AddsNone, Rose};
ghost use Rattle.calls.specs.Calls.{image_on};
ghost use Rattle.calls.specs.Opening.{IsOpenedPair};
ghost use Rattle.calls.specs.Stopped.{StaysOver};
ghost use Rattle.model.specs.Files.{Files, files_of};
ghost use Rattle.model.specs.declared.types.image.Form.{Form};
ghost use Rattle.names.specs.Inside.{form_seen};
ghost use Rattle.names.specs.Ready.{IsReady, LeavesMidst};
ghost use Rattle.transfer.specs.Ending.{SyncsIf};
ghost use Rattle.tree_changes.specs.Changes.{HasChanged, HasNotChanged, IsOfTree, IsUnended, StopsChange, Tells, Turn, turn};
ghost use Rattle.tree_changes.specs.declared.faults.ChangeRefusal.{ChangeRefusal as SomeChangeRefusal};

use crate::faults::ChangeRefusal;
use blocks::{Disk, SyncFault};
use cmd::DiskCommand;
use messages::print_number;
use names::Tree;
use std::alloc::Global;
use std::io::Write;
use wal::DeviceFault;

/// A change of the files of a tree.
pub trait TreeChange {
    /// In a kernel of this form it makes this of the files, and answers this number.
    ghost makes: { Self → Form → Option ℕ → Files → Files → Type 0 };

    /// A stop in its midst may leave that of the files, besides them as they were.
    ghost midst: { Self → Form → Files → Files → Type 0 };

    /// Why it is not made, over a kernel that was one and is another.
    ghost undone: { Self → Turn → SomeChangeRefusal → Type 0 };

    /// Makes it. The number that it answers, if any.
    fn make<D: Disk>(&self, alloc: Global, tree: &mut Tree<D>) -> Result<Option<u32>, ChangeRefusal>
        requires ready { IsReady D.Disk tree.old.kernel tree.old.calls_left }
        requires some { 0 < tree.old.calls_left }
        ensures makes { IfOk result (λ number.
            makes self.now (form_seen D.image tree.old.kernel) number
            (files_of (image_on D.image tree.old.kernel))
            (files_of (image_on D.image tree.new.kernel))) }
        ensures undone { IfErr result
            (undone self.now (turn D.Disk tree.old.kernel tree.new.kernel)) }
        ensures cause { IfErr result IsOfTree }
        ensures leaves { LeavesMidst D.Disk (midst self.now (form_seen D.image tree.old.kernel))
            tree.old.kernel tree.new.kernel }
        ensures stays { StaysOver D.Disk tree.old.kernel tree.new.kernel };
}

/// Opens the tree on a disk, whose image is checked and recovered first, makes a change of its files,
/// syncs the disk where that is asked for, and prints what the change answers.
#[derive(Clone, Copy, Drop)]
pub struct OverTree<C> {
    /// The change.
    pub change: C,
    /// Whether the disk is synced at the end.
    pub last: bool,
}

impl<C: TreeChange + Drop> DiskCommand for OverTree<C> {
    type Refusal = ChangeRefusal;

    ghost done = { λ over c old new.
        HasChanged c.disk (C.makes over.change) over.last c.was c.now old new
        × StopsChange c.disk (C.midst over.change) c.was c.now };

    ghost refused = { λ over c old new none r.
        HasNotChanged c.disk (C.makes over.change) (C.undone over.change) over.last c.was c.now
        none r
        × StopsChange c.disk (C.midst over.change) c.was c.now };

    fn run_on<D: Disk + Drop, O: Write>(
        self,
        alloc: Global,
        disk: D,
        out: &mut O,
    ) -> (Result<(), ChangeRefusal>, D) {
        change_disk(alloc, disk, &self.change, self.last, out)
    }
}

/// Opens the tree on a disk and makes a change of its files, as `OverTree`, and hands the disk back.
pub fn change_disk<D: Disk + Drop, C: TreeChange, O: Write>(
    alloc: Global,
    disk: D,
    change: &C,
    last: bool,
    out: &mut O,
) -> (Result<(), ChangeRefusal>, D)
    ensures done { OnOk result.0 (HasChanged D.Disk (C.makes change.now) last disk result.1
        (O.contents out.old) (O.contents out.new)
        × StopsChange D.Disk (C.midst change.now) disk result.1) }
    ensures refused { IfErr result.0 (λ r. HasNotChanged D.Disk (C.makes change.now)
        (C.undone change.now) last disk result.1 (out.new ≡ out.old) r
        × StopsChange D.Disk (C.midst change.now) disk result.1) }
{
    match Tree::open(alloc, disk) {
        Ok(tree) => change_in(alloc, tree, change, last, out),
        Err((fault, disk)) => (Err(ChangeRefusal::Unopened(fault)), disk),
    }
}

// Makes a change in a tree that was opened over a disk, ends it, and hands the disk back.
fn change_in<D: Disk + Drop, C: TreeChange, O: Write>(
    alloc: Global,
    tree: Tree<D>,
    change: &C,
    last: bool,
    out: &mut O,
) -> (Result<(), ChangeRefusal>, D)
    requires ready { IsReady D.Disk tree.kernel tree.calls_left }
    requires some { 0 < tree.calls_left }
    ensures changed { (d : D) → IsOpenedPair D.Disk d tree.kernel → OnOk result.0
        (HasChanged D.Disk (C.makes change.now) last d result.1
        (O.contents out.old) (O.contents out.new)) }
    ensures refused { (d : D) → IsOpenedPair D.Disk d tree.kernel → IfErr result.0
        (HasNotChanged D.Disk (C.makes change.now) (C.undone change.now) last d result.1
        (out.new ≡ out.old)) }
    ensures stops { (d : D) → IsOpenedPair D.Disk d tree.kernel
        → StopsChange D.Disk (C.midst change.now) d result.1 }
{
    let mut tree = tree;
    match change.make(alloc, &mut tree) {
        Ok(number) => {
            let mut disk = tree.into_disk();
            let told = tell(&mut disk, number, last, out);
            (told, disk)
        }
        Err(refusal) => (Err(refusal), tree.into_disk()),
    }
}

// Syncs a disk where that is asked for, and prints a number, if there is one.
pub(crate) fn tell<D: Disk, O: Write>(
    disk: &mut D,
    number: Option<u32>,
    last: bool,
    out: &mut O,
) -> Result<(), ChangeRefusal>
    ensures syncs { OnOk result (SyncsIf last D.Disk disk.old disk.new) }
    ensures told { OnOk result (Tells number (O.contents out.old) (O.contents out.new)) }
    ensures refused { IfErr result (IsUnended D.Disk last disk.old disk.new (out.new ≡ out.old)) }
    ensures time { AddsNone (D.moment disk.old) (D.moment disk.new)
        (D.leaves disk.old) (D.leaves disk.new) }
{
    if let Err(fault) = sync_if(disk, last) {
        return Err(ChangeRefusal::Disk(DeviceFault::Sync(fault)));
    }
    match number {
        Some(number) => print_number(out, number).map_err(|_| ChangeRefusal::Output),
        None => Ok(()),
    }
}

// Syncs a disk where that is asked for, and else leaves it alone.
fn sync_if<D: Disk>(disk: &mut D, last: bool) -> Result<(), SyncFault>
    ensures syncs { OnOk result (SyncsIf last D.Disk disk.old disk.new) }
    ensures asked { OnErr result (IsTrue last) }
    ensures rose { OnErr result (Rose (D.fault_count disk.old) (D.fault_count disk.new)) }
    ensures time { AddsNone (D.moment disk.old) (D.moment disk.new)
        (D.leaves disk.old) (D.leaves disk.new) }
{
    if last {
        return disk.sync();
    }
    Ok(())
}
