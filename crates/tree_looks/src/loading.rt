// The files of an image, read without a kernel.
ghost use Rattle.std.specs.Prelude.{◌≡◌, ◌<◌, IfErr, IfOk, None, OnOk};
ghost use Rattle.blocks.specs.Calls.{OnlyReads};
ghost use Rattle.model.specs.Files.{file_at, files_of};
ghost use Rattle.model.specs.Log.{recovered};
ghost use Rattle.model.specs.Verdict.{verdict};
ghost use Rattle.directories.specs.Judging.{KeepsCount};
ghost use Rattle.directories.specs.Trees.{IsTree};
ghost use Rattle.offline.specs.Checked.{IsCheckedOf};
ghost use Rattle.tree_looks.specs.Looks.{refusal_of, IsNoTree, IsUnloaded, IsUnseen};

use crate::faults::LookRefusal;
use blocks::{Block, Disk};
use directories::{JudgeFault, is_tree};
use layout::CheckFault;
use model::content::Content;
use model::types::File;
use offline::{Recovered, check};
use std::alloc::Global;

/// Checks the image of a disk, and reads its files, as recovery would leave them: a place for each
/// number, number 0 included. It writes no block.
///
/// # Errors
///
/// `Check` with a fault of the image or of its check, or with `Disk` where a read behind the check
/// failed; `NoMemory` where memory behind the check was refused.
pub fn load<D: Disk>(alloc: Global, disk: &mut D) -> Result<Vec<Option<File>>, LookRefusal>
    ensures sound { OnOk result (verdict (D.image disk.old) ≡ None) }
    ensures files { IfOk result
        (λ files. files.items ≡ files_of (recovered (D.image disk.old))) }
    ensures reads { OnlyReads D.Disk disk.old disk.new }
    ensures faults { OnOk result (D.fault_count disk.new ≡ D.fault_count disk.old) }
    ensures refused { IfErr result (IsUnloaded D.Disk disk.old disk.new) }
{
    if let Err(fault) = check(alloc, disk) {
        return Err(LookRefusal::Check(fault));
    }
    load_checked(alloc, disk)
}

/// Loads the files of a disk as `load`, where they are a tree.
///
/// # Errors
///
/// Those of `load`; `NoTree` where the files of an image without a fault are no tree.
pub fn load_tree<D: Disk>(alloc: Global, disk: &mut D) -> Result<Vec<Option<File>>, LookRefusal>
    ensures sound { OnOk result (verdict (D.image disk.old) ≡ None) }
    ensures tree { OnOk result (IsTree (files_of (recovered (D.image disk.old)))) }
    ensures files { IfOk result
        (λ files. files.items ≡ files_of (recovered (D.image disk.old))) }
    ensures reads { OnlyReads D.Disk disk.old disk.new }
    ensures faults { OnOk result (D.fault_count disk.new ≡ D.fault_count disk.old) }
    ensures refused { IfErr result (IsUnseen D.Disk IsNoTree disk.old disk.new) }
{
    if let Err(fault) = check(alloc, disk) {
        return Err(LookRefusal::Check(fault));
    }
    match is_tree(alloc, disk) {
        Ok(true) => load_checked(alloc, disk),
        Ok(false) => Err(LookRefusal::NoTree),
        Err(fault) => Err(refusal_of(fault)),
    }
}

// The files of a disk whose image was checked.
fn load_checked<D: Disk>(alloc: Global, disk: &mut D) -> Result<Vec<Option<File>>, LookRefusal>
    requires { verdict (D.image disk.old) ≡ None }
    ensures files { IfOk result
        (λ files. files.items ≡ files_of (recovered (D.image disk.old))) }
    ensures reads { OnlyReads D.Disk disk.old disk.new }
    ensures faults { OnOk result (D.fault_count disk.new ≡ D.fault_count disk.old) }
    ensures refused { IfErr result (IsUnloaded D.Disk disk.old disk.new) }
{
    match read_files(alloc, disk) {
        Ok(files) => Ok(files),
        Err(fault) => Err(refusal_of(fault)),
    }
}

// How a fault behind the check is told.
pub fn refusal_of(fault: JudgeFault) -> LookRefusal
    ensures { result ≡ refusal_of fault }
{
    match fault {
        JudgeFault::Disk => LookRefusal::Check(CheckFault::Disk),
        JudgeFault::NoMemory => LookRefusal::NoMemory,
    }
}

// Reads the file of each number.
#[tactic(auto, using(blocks::specs::Lemmas::Reads::reads_none, blocks::specs::Lemmas::Reads::reads_then))]
fn read_files<D: Disk>(alloc: Global, disk: &mut D) -> Result<Vec<Option<File>>, JudgeFault>
    requires { verdict (D.image disk.old) ≡ None }
    ensures files { IfOk result
        (λ files. files.items ≡ files_of (recovered (D.image disk.old))) }
    ensures reads { OnlyReads D.Disk disk.old disk.new }
    ensures faults { KeepsCount result (D.fault_count disk.old) (D.fault_count disk.new) }
{
    let mut block = Block::zeroed(alloc)?;
    let image = Recovered::open_checked(disk, &mut block)?;
    let mut files = Vec::new(alloc);
    for number in 0..image.sup.ninodes {
        let file = file_of(alloc, disk, &image, number, &mut block)?;
        files.push(file)?;
    }
    Ok(files)
}

// The file of a number. The block is room for what is read.
fn file_of<D: Disk>(
    alloc: Global,
    disk: &mut D,
    image: &Recovered,
    number: u32,
    block: &mut Block,
) -> Result<Option<File>, JudgeFault>
    requires checked { IsCheckedOf (D.image disk.old) image.now }
    requires inside { number < image.now.sup.ninodes }
    ensures file { IfOk result
        (λ file. file ≡ file_at (recovered (D.image disk.old)) number) }
    ensures reads { OnlyReads D.Disk disk.old disk.new }
    ensures faults { KeepsCount result (D.fault_count disk.old) (D.fault_count disk.new) }
{
    let Some(inode) = image.inode_at(disk, number, block)? else {
        return Ok(None);
    };
    let bytes = image.all_bytes(alloc, disk, &inode, block)?;
    Ok(Some(File {
        kind: inode.kind,
        links: inode.nlink,
        bytes: Content::new(bytes),
    }))
}
