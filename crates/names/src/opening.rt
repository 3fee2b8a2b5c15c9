// The opening of a tree.
ghost use Rattle.std.specs.Prelude.{◌≡◌, ◌<◌, None, IfErr, IfOk, OnOk};
ghost use Rattle.blocks.specs.Calls.{OnlyReads};
ghost use Rattle.calls.specs.Opening.{IsOpenedPair};
ghost use Rattle.model.specs.Files.{files_of};
ghost use Rattle.model.specs.Log.{recovered};
ghost use Rattle.model.specs.Verdict.{verdict};
ghost use Rattle.directories.specs.Counts.{AreCounted};
ghost use Rattle.names.specs.Opening.{unjudged, IsUnopened};
ghost use Rattle.names.specs.Ready.{IsReady};
ghost use Rattle.directories.specs.Trees.{IsTree};

use crate::tree::Tree;
use blocks::Disk;
use calls::transactions::open_pair;
use directories::{JudgeFault, first_miscounted, is_tree};
use kernel::OpenFault;
use model::types::CheckFault;
use offline::check;
use std::alloc::Global;
use thiserror::Error;

/// Why no tree is opened.
#[derive(Clone, Copy, Debug, Error)]
pub enum TreeOpenFault {
    /// No kernel is opened over the disk.
    #[error("{0}")]
    Kernel(OpenFault),
    /// The files of its image, which has no fault, are no tree of directories.
    #[error("the files are no tree of directories")]
    NoTree,
    /// They are a tree, and the count of links of the file of this number is not how many names lead to it.
    #[error("file {0} has another count of links than names")]
    Miscounted(u32),
}

impl<D: Disk + Drop> Tree<D> {
    /// Opens the tree on a disk, whose image is checked, seen to be a tree, and recovered first.
    ///
    /// # Errors
    ///
    /// Hands the disk back with the first of these:
    ///
    /// - `Kernel`: a fault of `Kernel::open`, with `Disk` and `NoMemory` also where a read failed or
    ///   memory was refused while the files were looked at.
    /// - `NoTree`: the image has no fault, and its files are no tree. Nothing was written.
    /// - `Miscounted`: they are a tree, and a file's count of links is wrong: the first in the order of
    ///   numbers, or one that more names lead to. Nothing was written.
    pub fn open(alloc: Global, disk: D) -> Result<Tree<D>, (TreeOpenFault, D)>
        ensures ready { IfOk result (λ tree. IsReady D.Disk tree.kernel tree.calls_left) }
        ensures some { IfOk result (λ tree. 0 < tree.calls_left) }
        ensures opened { IfOk result (λ tree. IsOpenedPair D.Disk disk tree.kernel) }
        ensures refused { IfErr result (λ e. IsUnopened D.Disk disk e.1 e.0) }
    {
        let mut disk = disk;
        match judge(alloc, &mut disk) {
            Ok(()) => open_judged(alloc, disk),
            Err(fault) => Err((fault, disk)),
        }
    }
}

// The tree on a disk whose files are one.
fn open_judged<D: Disk + Drop>(alloc: Global, disk: D) -> Result<Tree<D>, (TreeOpenFault, D)>
    requires sound { verdict (D.image disk) ≡ None }
    requires tree { IsTree (files_of (recovered (D.image disk))) }
    requires counted { AreCounted (files_of (recovered (D.image disk))) }
    ensures ready { IfOk result (λ tree. IsReady D.Disk tree.kernel tree.calls_left) }
    ensures some { IfOk result (λ tree. 0 < tree.calls_left) }
    ensures opened { IfOk result (λ tree. IsOpenedPair D.Disk disk tree.kernel) }
    ensures refused { IfErr result (λ e. IsUnopened D.Disk disk e.1 e.0) }
{
    match open_pair(alloc, disk) {
        Ok(kernel) => Ok(Tree::over(alloc, kernel)),
        Err((fault, disk)) => Err((TreeOpenFault::Kernel(fault), disk)),
    }
}

// Checks the image of a disk, and whether its files are a tree.
fn judge<D: Disk>(alloc: Global, disk: &mut D) -> Result<(), TreeOpenFault>
    ensures sound { OnOk result (verdict (D.image disk.old) ≡ None) }
    ensures tree { OnOk result (IsTree (files_of (recovered (D.image disk.old)))) }
    ensures counted { OnOk result (AreCounted (files_of (recovered (D.image disk.old)))) }
    ensures reads { OnlyReads D.Disk disk.old disk.new }
    ensures faults { OnOk result (D.fault_count disk.new ≡ D.fault_count disk.old) }
    ensures refused { IfErr result (IsUnopened D.Disk disk.old disk.new) }
{
    match check(alloc, disk) {
        Ok(_report) => judge_files(alloc, disk),
        Err(fault) => Err(TreeOpenFault::Kernel(OpenFault::Check(fault))),
    }
}

// Whether the files of a disk whose image has no fault are a tree.
fn judge_files<D: Disk>(alloc: Global, disk: &mut D) -> Result<(), TreeOpenFault>
    requires { verdict (D.image disk.old) ≡ None }
    ensures tree { OnOk result (IsTree (files_of (recovered (D.image disk.old)))) }
    ensures counted { OnOk result (AreCounted (files_of (recovered (D.image disk.old)))) }
    ensures reads { OnlyReads D.Disk disk.old disk.new }
    ensures faults { OnOk result (D.fault_count disk.new ≡ D.fault_count disk.old) }
    ensures refused { IfErr result (IsUnopened D.Disk disk.old disk.new) }
{
    match is_tree(alloc, disk) {
        Ok(true) => judge_counts(alloc, disk),
        Ok(false) => Err(TreeOpenFault::NoTree),
        Err(fault) => Err(unjudged(fault)),
    }
}

// Whether the counts of the files of a disk, which are a tree, are right.
fn judge_counts<D: Disk>(alloc: Global, disk: &mut D) -> Result<(), TreeOpenFault>
    requires sound { verdict (D.image disk.old) ≡ None }
    requires tree { IsTree (files_of (recovered (D.image disk.old))) }
    ensures counted { OnOk result (AreCounted (files_of (recovered (D.image disk.old)))) }
    ensures reads { OnlyReads D.Disk disk.old disk.new }
    ensures faults { OnOk result (D.fault_count disk.new ≡ D.fault_count disk.old) }
    ensures refused { IfErr result (IsUnopened D.Disk disk.old disk.new) }
{
    match first_miscounted(alloc, disk) {
        Ok(None) => Ok(()),
        Ok(Some(number)) => Err(TreeOpenFault::Miscounted(number)),
        Err(fault) => Err(unjudged(fault)),
    }
}

// What hindered that files are judged, as a fault of an opening.
pub(crate) fn unjudged(fault: JudgeFault) -> TreeOpenFault
    ensures { result ≡ unjudged fault }
{
    match fault {
        JudgeFault::Disk => TreeOpenFault::Kernel(OpenFault::Check(CheckFault::Disk)),
        JudgeFault::NoMemory => TreeOpenFault::Kernel(OpenFault::NoMemory),
    }
}
