// What a copy has to know of the old image.
ghost use Rattle.std.specs.Prelude.{◌≡◌, ◌≤◌, ◌<◌, ◌+◌, ◌-◌, ℕ, length, slice_index, IfOk, IfErr, OnOk};
ghost use Rattle.blocks.specs.Calls.{OnlyReads};
ghost use Rattle.model.specs.Files.{file_count, files_of};
ghost use Rattle.model.specs.Layout.{inode_count_of};
ghost use Rattle.model.specs.Log.{recovered};
ghost use Rattle.offline.specs.Recovered.{IsRecoveredOf};
ghost use Rattle.transfer.specs.Copies.{IsUnread};
ghost use Rattle.transfer.specs.Source.{AreFirstKinds, CopiesAll, IsSourceOf};

use crate::fault::CopyFault;
use blocks::{Block, Disk};
use layout::Form;
use offline::laws::checked_files_may_be_read;
use offline::{Recovered, check};
use std::alloc::Global;

/// An image as recovery would leave it, of which files are copied.
#[derive(Drop)]
pub(crate) struct Source {
    pub(crate) image: Recovered,
    /// The form of the new image.
    pub(crate) form: Form,
    /// The types of the numbers from 1 to the last one that is copied, 0 for one that isn't.
    pub(crate) kinds: Vec<u16>,
    /// How many files are copied, for whoever is told how far that is.
    pub(crate) files: u64,
}

/// Checks an image of the first form, and reads the types of its numbers. Answers how many files it
/// has, too.
pub(crate) fn read_source<D: Disk>(alloc: Global, old: &mut D) -> Result<(Source, u32), CopyFault>
    ensures source { IfOk result (λ read. IsSourceOf (D.image old.old) read.0) }
    ensures all { IfOk result (λ read. CopiesAll (D.image old.old) read.0) }
    ensures files { IfOk result (λ read.
        read.1 ≡ file_count (files_of (recovered (D.image old.old)))) }
    ensures refused { IfErr result (IsUnread D.Disk old.old old.new) }
    ensures reads { OnlyReads D.Disk old.old old.new }
    ensures faults { OnOk result (D.fault_count old.new ≡ D.fault_count old.old) }
{
    let report = match check(alloc, old) {
        Ok(report) => report,
        Err(fault) => return Err(CopyFault::Old(fault)),
    };
    if let Form::Two = report.form {
        return Err(CopyFault::NotFirst);
    }
    let mut block = Block::zeroed(alloc)?;
    let image = match Recovered::open(old, &mut block) {
        Ok(image) => image,
        // The check found no fault, so a read failed.
        Err(_fault) => return Err(CopyFault::Disk),
    };
    checked_files_may_be_read();
    let mut kinds = read_kinds(alloc, old, &image, &mut block)?;
    cut_kinds(&mut kinds);
    let source = Source {
        image,
        form: Form::Two,
        kinds,
        files: u64::from(report.files),
    };
    Ok((source, report.files))
}

// The types of all numbers from 1 on, 0 for a free one.
fn read_kinds<D: Disk>(
    alloc: Global,
    old: &mut D,
    image: &Recovered,
    block: &mut Block,
) -> Result<Vec<u16>, CopyFault>
    requires recovered { IsRecoveredOf (D.image old.old) image.now }
    ensures kinds { IfOk result (λ kinds. AreFirstKinds (recovered (D.image old.old)) kinds.items
        (inode_count_of (D.image old.old) - 1)) }
    ensures refused { IfErr result (IsUnread D.Disk old.old old.new) }
    ensures reads { OnlyReads D.Disk old.old old.new }
    ensures faults { OnOk result (D.fault_count old.new ≡ D.fault_count old.old) }
{
    let mut kinds = Vec::new(alloc);
    for i in 1..image.sup.ninodes {
        let inode = image.inode(old, i, block)?;
        kinds.push(inode.kind)?;
    }
    Ok(kinds)
}

// Leaves out the numbers behind the last that has a type.
pub(crate) fn cut_kinds(kinds: &mut Vec<u16>)
    ensures few { length kinds.new.items ≤ length kinds.old.items }
    ensures same { (k : ℕ) → slice_index kinds.new.items k ≡ slice_index kinds.old.items k }
{
    let used = used_count(kinds.as_slice());
    kinds.truncate(used);
}

// How many numbers there are up to the last that is used.
fn used_count(kinds: &[u16]) -> usize
    ensures few { result ≤ length kinds.now }
    ensures rest { (k : ℕ) → result ≤ k → k < length kinds.now → slice_index kinds.now k ≡ 0 }
{
    let mut used = 0;
    for (k, kind) in kinds.iter().enumerate() {
        if *kind != 0 {
            used = k + 1;
        }
    }
    used
}
