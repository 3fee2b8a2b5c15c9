// Counts of links that are put right.
ghost use Rattle.std.specs.Prelude.{◌≡◌, ◌≢◌, ◌+◌, ◌*◌, ◌<◌, ◌^◌, length, None, IfErr, IfOk, MatchOption, OnOk};
ghost use Rattle.blocks.specs.Calls.{OnlyReads};
ghost use Rattle.blocks.specs.Disk.{LeavesOnly};
ghost use Rattle.calls.specs.Calls.{call_count, image_on};
ghost use Rattle.calls.specs.Files.{files_on};
ghost use Rattle.calls.specs.Opening.{IsOpenedPair};
ghost use Rattle.calls.specs.Transactions.{Rests};
ghost use Rattle.model.specs.Files.{files_of};
ghost use Rattle.model.specs.Log.{recovered};
ghost use Rattle.model.specs.Soundness.{IsSound};
ghost use Rattle.model.specs.Verdict.{verdict};
ghost use Rattle.directories.specs.Judging.{KeepsCount};
ghost use Rattle.names.specs.Recounting.{AddsIf, AreDiffering, AreSet, AreWrong, FailsToSet, IsRecounted, IsUnrecounted, KeepsButCounts, StopsRecount};
ghost use Rattle.directories.specs.Tallying.{HasTooMany};
ghost use Rattle.directories.specs.Trees.{IsTree};

use crate::opening::{TreeOpenFault, unjudged};
use blocks::{Block, Disk, NoMemory};
use calls::transactions::{Pair, TransactionFault, abandon, open_pair, rested, set_links};
use directories::{JudgeFault, is_tree, link_counts, name_counts};
use kernel::OpenFault;
use offline::{Recovered, check};
use std::alloc::Global;
use thiserror::Error;

/// Why counts aren't put right.
#[derive(Clone, Copy, Debug, Error)]
pub enum RecountFault {
    /// No kernel is opened over the disk, or its files are no tree.
    #[error("{0}")]
    Unopened(TreeOpenFault),
    /// More names lead to a file than a count may say: over 32,767. Nothing was written.
    #[error("too many names lead to a file")]
    TooMany,
    /// A call of the kernel failed. Some counts may be right.
    #[error("{0}")]
    Call(TransactionFault),
}

// A file's number, and how many names lead to it.
#[derive(Clone, Copy, Drop)]
pub(crate) struct Counted {
    number: u32,
    count: u16,
}

/// Puts right the counts of links of a disk whose files are a tree: each that is not how many names lead
/// to its file. Its image is checked first, and recovered. How many were wrong, and the disk. Where none
/// was it writes no block. Names and bytes stay, whenever a stop comes: it leaves some of the counts
/// right, and the others as they were.
///
/// # Errors
///
/// - `Unopened`: a fault of `Kernel::open`, with `Disk` and `NoMemory` also where a read failed or
///   memory was refused while the files were looked at; `NoTree` where they are no tree.
/// - `TooMany`: over 32,767 names lead to a file; nothing was written.
/// - `Call`: a call of the kernel failed; some counts may be right.
pub fn recount<D: Disk + Drop>(alloc: Global, disk: D) -> (Result<u32, RecountFault>, D)
    ensures done { IfOk result.0 (IsRecounted D.Disk disk result.1) }
    ensures refused { IfErr result.0 (IsUnrecounted D.Disk disk result.1) }
    ensures stops { StopsRecount D.Disk disk result.1 }
{
    let mut disk = disk;
    match judge(alloc, &mut disk) {
        Ok(wrong) => {
            if wrong.is_empty() {
                return (Ok(0), disk);
            }
            match open_pair(alloc, disk) {
                Ok(kernel) => put_right(alloc, kernel, wrong.as_slice()),
                Err((fault, disk)) => (
                    Err(RecountFault::Unopened(TreeOpenFault::Kernel(fault))),
                    disk,
                ),
            }
        }
        Err(fault) => (Err(fault), disk),
    }
}

// Checks the image of a disk. Its files whose counts are wrong.
fn judge<D: Disk>(alloc: Global, disk: &mut D) -> Result<Vec<Counted>, RecountFault>
    ensures sound { OnOk result (verdict (D.image disk.old) ≡ None) }
    ensures tree { OnOk result (IsTree (files_of (recovered (D.image disk.old)))) }
    ensures wrong { IfOk result (λ wrong.
        AreWrong (files_of (recovered (D.image disk.old))) wrong.items) }
    ensures reads { OnlyReads D.Disk disk.old disk.new }
    ensures faults { OnOk result (D.fault_count disk.new ≡ D.fault_count disk.old) }
    ensures refused { IfErr result (IsUnrecounted D.Disk disk.old disk.new) }
{
    match check(alloc, disk) {
        Ok(_report) => judge_files(alloc, disk),
        Err(fault) => Err(RecountFault::Unopened(TreeOpenFault::Kernel(OpenFault::Check(fault)))),
    }
}

// The files of a disk whose image has no fault, and whose files are a tree, whose counts are wrong.
fn judge_files<D: Disk>(alloc: Global, disk: &mut D) -> Result<Vec<Counted>, RecountFault>
    requires { verdict (D.image disk.old) ≡ None }
    ensures tree { OnOk result (IsTree (files_of (recovered (D.image disk.old)))) }
    ensures wrong { IfOk result (λ wrong.
        AreWrong (files_of (recovered (D.image disk.old))) wrong.items) }
    ensures reads { OnlyReads D.Disk disk.old disk.new }
    ensures faults { OnOk result (D.fault_count disk.new ≡ D.fault_count disk.old) }
    ensures refused { IfErr result (IsUnrecounted D.Disk disk.old disk.new) }
{
    match is_tree(alloc, disk) {
        Ok(true) => judge_counts(alloc, disk),
        Ok(false) => Err(RecountFault::Unopened(TreeOpenFault::NoTree)),
        Err(fault) => Err(RecountFault::Unopened(unjudged(fault))),
    }
}

// The files of a disk whose files are a tree, whose counts are wrong.
fn judge_counts<D: Disk>(alloc: Global, disk: &mut D) -> Result<Vec<Counted>, RecountFault>
    requires sound { verdict (D.image disk.old) ≡ None }
    requires tree { IsTree (files_of (recovered (D.image disk.old))) }
    ensures wrong { IfOk result (λ wrong.
        AreWrong (files_of (recovered (D.image disk.old))) wrong.items) }
    ensures reads { OnlyReads D.Disk disk.old disk.new }
    ensures faults { OnOk result (D.fault_count disk.new ≡ D.fault_count disk.old) }
    ensures refused { IfErr result (IsUnrecounted D.Disk disk.old disk.new) }
{
    match wrong_counts(alloc, disk) {
        Ok(Some(wrong)) => Ok(wrong),
        Ok(None) => Err(RecountFault::TooMany),
        Err(fault) => Err(RecountFault::Unopened(unjudged(fault))),
    }
}

// The same; none where a count can't say how many names lead to a file.
fn wrong_counts<D: Disk>(alloc: Global, disk: &mut D) -> Result<Option<Vec<Counted>>, JudgeFault>
    requires sound { verdict (D.image disk.old) ≡ None }
    requires tree { IsTree (files_of (recovered (D.image disk.old))) }
    ensures wrong { IfOk result (λ found. MatchOption found
        (HasTooMany (files_of (recovered (D.image disk.old))))
        (λ wrong. AreWrong (files_of (recovered (D.image disk.old))) wrong.items)) }
    ensures reads { OnlyReads D.Disk disk.old disk.new }
    ensures faults { KeepsCount result (D.fault_count disk.old) (D.fault_count disk.new) }
{
    let Some(counts) = name_counts(alloc, disk)? else {
        return Ok(None);
    };
    let mut block = Block::zeroed(alloc)?;
    let image = Recovered::open_checked(disk, &mut block)?;
    let links = link_counts(alloc, disk, &image, &mut block)?;
    let wrong = differing(
        alloc,
        image.sup.ninodes,
        counts.as_slice(),
        links.as_slice(),
    )?;
    Ok(Some(wrong))
}

// The numbers at which one list has another count than the other, with the first one's.
fn differing(
    alloc: Global,
    end: u32,
    counts: &[u16],
    links: &[u16],
) -> Result<Vec<Counted>, NoMemory>
    requires counts { length counts.now ≡ end }
    requires links { length links.now ≡ end }
    ensures { IfOk result (λ wrong. AreDiffering counts.now links.now wrong.items) }
{
    let mut wrong = Vec::new(alloc);
    for number in 0..end {
        let count = counts[number as usize];
        let other = links[number as usize];
        add_if(number, count, other, &mut wrong)?;
    }
    Ok(wrong)
}

// Adds a number with a count, where that is not the other one.
fn add_if(number: u32, count: u16, links: u16, wrong: &mut Vec<Counted>) -> Result<(), NoMemory>
    ensures { OnOk result (AddsIf number count links wrong.old.items wrong.new.items) }
{
    if count == links {
        return Ok(());
    }
    wrong.push(Counted { number, count })?;
    Ok(())
}

// Gives these files of a disk, over which a kernel was opened, those counts. How many there are, and the
// disk.
fn put_right<D: Disk + Drop>(
    alloc: Global,
    kernel: Pair<D>,
    wrong: &[Counted],
) -> (Result<u32, RecountFault>, D)
    requires rests { Rests D.fault_count kernel }
    requires none { call_count kernel ≡ 0 }
    requires sound { IsSound (image_on D.image kernel) }
    requires wrong { AreWrong (files_on D.image kernel) wrong.now }
    requires some { length wrong.now ≢ 0 }
    ensures done { (d : D) → IsOpenedPair D.Disk d kernel → IsTree (files_on D.image kernel)
        → IfOk result.0 (IsRecounted D.Disk d result.1) }
    ensures refused { (d : D) → IsOpenedPair D.Disk d kernel
        → IfErr result.0 (IsUnrecounted D.Disk d result.1) }
    ensures stops { (d : D) → IsOpenedPair D.Disk d kernel → StopsRecount D.Disk d result.1 }
{
    let mut kernel = kernel;
    let set = set_all(alloc, &mut kernel, wrong);
    let disk = abandon(kernel);
    match set {
        Ok(count) => (Ok(count), disk),
        Err(fault) => (Err(RecountFault::Call(fault)), disk),
    }
}

// Gives these files those counts, each in a transaction of its own. How many there are.
fn set_all<D: Disk>(
    alloc: Global,
    kernel: &mut Pair<D>,
    wrong: &[Counted],
) -> Result<u32, TransactionFault>
    requires rests { Rests D.fault_count kernel.old }
    requires few { call_count kernel.old + 2 * length wrong.now < 2 ^ 62 }
    requires sound { IsSound (image_on D.image kernel.old) }
    requires wrong { AreWrong (files_on D.image kernel.old) wrong.now }
    ensures set { OnOk result (AreSet D.image kernel.old kernel.new) }
    ensures many { IfOk result (λ count. count ≡ length wrong.now) }
    ensures failed { IfErr result (FailsToSet D.Disk kernel.old kernel.new) }
    ensures leaves { LeavesOnly D.moment D.leaves
        kernel.old.store.volume.device kernel.new.store.volume.device
        (KeepsButCounts (image_on D.image kernel.old)) }
{
    rested(kernel);
    let mut count = 0;
    for counted in wrong {
        set_links(alloc, kernel, counted.number, counted.count)?;
        count += 1;
    }
    Ok(count)
}
