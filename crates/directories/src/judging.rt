// Whether the files of an image are a tree, as they are seen without a kernel.
ghost use Rattle.std.specs.Prelude.{◌≡◌, ◌↔◌, ◌≤◌, ◌<◌, IfOk, IsTrue, None, OnOk, length};
ghost use Rattle.blocks.specs.Calls.{OnlyReads};
ghost use Rattle.model.specs.Files.{file_in, files_of};
ghost use Rattle.model.specs.Log.{recovered};
ghost use Rattle.model.specs.Verdict.{verdict};
ghost use Rattle.offline.specs.Checked.{IsCheckedOf};
ghost use Rattle.directories.specs.Checks.{AreApart, IsAmong};
ghost use Rattle.directories.specs.Judging.{AreAmong, ArePlain, HasLookedThrough, IsSeen, KeepsCount, TakesIn};
ghost use Rattle.directories.specs.Trees.{IsTree, kind_of};

use crate::checking::{add_children, is_among, is_directory_of};
use crate::directory::DIRECTORY_KIND;
use crate::entries::entries_in;
use blocks::{Block, Disk, DiskFault, NoMemory};
use layout::CheckFault;
use offline::Recovered;
use std::alloc::{AllocError, AllocFailed, Global};
use thiserror::Error;

/// Why it isn't told whether files are a tree.
#[derive(Clone, Copy, Debug, PartialEq, Eq, Error)]
pub enum JudgeFault {
    #[error("a read failed")]
    Disk,
    #[error("memory was refused")]
    NoMemory,
}

// What there is at a number.
#[derive(Drop)]
pub(crate) enum Seen {
    // No file.
    Nothing,
    // A file that is no directory.
    Plain,
    // A directory of these bytes.
    Directory(Vec<u8>),
}

/// Whether the files of a disk whose image was checked, as recovery would leave them, are a tree:
/// directories within directories from file 1 on, as xv6 lays them out (the xv6 book, the chapter "File
/// system": "Directory layer"). A file that is no directory may have several names. It writes no block.
///
/// # Errors
///
/// - `Disk`: a read failed.
/// - `NoMemory`: memory was refused, which is needed for a block, a directory, two numbers for each
///   file, and one for each further name of a file.
pub fn is_tree<D: Disk>(alloc: Global, disk: &mut D) -> Result<bool, JudgeFault>
    requires { verdict (D.image disk.old) ≡ None }
    ensures told { IfOk result (λ is. IsTrue is
        ↔ IsTree (files_of (recovered (D.image disk.old)))) }
    ensures reads { OnlyReads D.Disk disk.old disk.new }
    ensures faults { KeepsCount result (D.fault_count disk.old) (D.fault_count disk.new) }
{
    let mut block = Block::zeroed(alloc)?;
    let image = Recovered::open_checked(disk, &mut block)?;
    is_tree_of(alloc, disk, &image, &mut block)
}

// Whether the files are a tree: the root is a directory, all that is found from it on is as in a tree,
// no directory is found again, and there is no other file.
fn is_tree_of<D: Disk>(
    alloc: Global,
    disk: &mut D,
    image: &Recovered,
    block: &mut Block,
) -> Result<bool, JudgeFault>
    requires { IsCheckedOf (D.image disk.old) image.now }
    ensures told { IfOk result (λ is. IsTrue is
        ↔ IsTree (files_of (recovered (D.image disk.old)))) }
    ensures reads { OnlyReads D.Disk disk.old disk.new }
    ensures faults { KeepsCount result (D.fault_count disk.old) (D.fault_count disk.new) }
{
    if kind_at(disk, image, 1, block)? != DIRECTORY_KIND {
        return Ok(false);
    }
    let mut numbers = Vec::new(alloc);
    let mut again = Vec::new(alloc);
    if !look_through(alloc, disk, image, block, &mut numbers, &mut again)? {
        return Ok(false);
    }
    if !are_plain(disk, image, block, again.as_slice())? {
        return Ok(false);
    }
    are_among(disk, image, block, numbers.as_slice())
}

// The type of a number's file, and 0 where there is none.
fn kind_at<D: Disk>(
    disk: &mut D,
    image: &Recovered,
    number: u32,
    block: &mut Block,
) -> Result<u16, JudgeFault>
    requires { IsCheckedOf (D.image disk.old) image.now }
    ensures kind { IfOk result (λ kind. kind
        ≡ kind_of (file_in (files_of (recovered (D.image disk.old))) number)) }
    ensures reads { OnlyReads D.Disk disk.old disk.new }
    ensures faults { KeepsCount result (D.fault_count disk.old) (D.fault_count disk.new) }
{
    match image.inode_at(disk, number, block)? {
        Some(inode) => Ok(inode.kind),
        None => Ok(0),
    }
}

// Finds files from the root on, and looks into each of them. Whether all are as in a tree.
fn look_through<D: Disk>(
    alloc: Global,
    disk: &mut D,
    image: &Recovered,
    block: &mut Block,
    numbers: &mut Vec<u16>,
    again: &mut Vec<u16>,
) -> Result<bool, JudgeFault>
    requires reader { IsCheckedOf (D.image disk.old) image.now }
    requires none { length numbers.old.items ≡ 0 }
    requires none_again { length again.old.items ≡ 0 }
    ensures looked { IfOk result (HasLookedThrough (files_of (recovered (D.image disk.old)))
        numbers.new.items again.new.items) }
    ensures reads { OnlyReads D.Disk disk.old disk.new }
    ensures faults { KeepsCount result (D.fault_count disk.old) (D.fault_count disk.new) }
{
    numbers.push(1)?;
    let mut parents = Vec::new(alloc);
    parents.push(1)?;
    let mut looked = 0;
    while looked < numbers.len() {
        let number = numbers[looked];
        let parent = parents[looked];
        let seen = look(alloc, disk, image, block, u32::from(number))?;
        if !take_in(seen, number, parent, numbers, &mut parents, again)? {
            return Ok(false);
        }
        looked += 1;
    }
    Ok(true)
}

// Whether what is seen at a number may be so in a tree, where a directory with that parent leads down
// to it. What it leads down to is found then.
fn take_in(
    seen: Seen,
    number: u16,
    parent: u16,
    numbers: &mut Vec<u16>,
    parents: &mut Vec<u16>,
    again: &mut Vec<u16>,
) -> Result<bool, NoMemory>
    requires { AreApart numbers.old.items }
    ensures { IfOk result (TakesIn seen number parent
        numbers.old.items parents.old.items again.old.items
        numbers.new.items parents.new.items again.new.items) }
{
    match seen {
        Seen::Nothing => Ok(false),
        Seen::Plain => Ok(true),
        Seen::Directory(bytes) => {
            if !is_directory_of(bytes.as_slice(), number, parent) {
                return Ok(false);
            }
            add_children(
                entries_in(bytes.as_slice()),
                number,
                numbers,
                parents,
                again,
            )?;
            Ok(true)
        }
    }
}

// What there is at a number.
pub(crate) fn look<D: Disk>(
    alloc: Global,
    disk: &mut D,
    image: &Recovered,
    block: &mut Block,
    number: u32,
) -> Result<Seen, JudgeFault>
    requires { IsCheckedOf (D.image disk.old) image.now }
    ensures seen { IfOk result (IsSeen (files_of (recovered (D.image disk.old))) number) }
    ensures reads { OnlyReads D.Disk disk.old disk.new }
    ensures faults { KeepsCount result (D.fault_count disk.old) (D.fault_count disk.new) }
{
    let Some(inode) = image.inode_at(disk, number, block)? else {
        return Ok(Seen::Nothing);
    };
    if inode.kind != DIRECTORY_KIND {
        return Ok(Seen::Plain);
    }
    let bytes = image.all_bytes(alloc, disk, &inode, block)?;
    Ok(Seen::Directory(bytes))
}

// Whether none of these numbers is that of a directory.
fn are_plain<D: Disk>(
    disk: &mut D,
    image: &Recovered,
    block: &mut Block,
    numbers: &[u16],
) -> Result<bool, JudgeFault>
    requires { IsCheckedOf (D.image disk.old) image.now }
    ensures plain { IfOk result (λ are. IsTrue are
        ↔ ArePlain (files_of (recovered (D.image disk.old))) numbers.now) }
    ensures reads { OnlyReads D.Disk disk.old disk.new }
    ensures faults { KeepsCount result (D.fault_count disk.old) (D.fault_count disk.new) }
{
    for number in numbers {
        if kind_at(disk, image, u32::from(*number), block)? == DIRECTORY_KIND {
            return Ok(false);
        }
    }
    Ok(true)
}

// Whether each file is among those of these numbers.
fn are_among<D: Disk>(
    disk: &mut D,
    image: &Recovered,
    block: &mut Block,
    numbers: &[u16],
) -> Result<bool, JudgeFault>
    requires { IsCheckedOf (D.image disk.old) image.now }
    ensures among { IfOk result (λ are. IsTrue are
        ↔ AreAmong (files_of (recovered (D.image disk.old))) numbers.now) }
    ensures reads { OnlyReads D.Disk disk.old disk.new }
    ensures faults { KeepsCount result (D.fault_count disk.old) (D.fault_count disk.new) }
{
    for i in 1..image.sup.ninodes {
        let kind = kind_at(disk, image, i, block)?;
        if kind != 0 && !is_number_among(numbers, i) {
            return Ok(false);
        }
    }
    Ok(true)
}

// Whether a number is one of these.
fn is_number_among(numbers: &[u16], number: u32) -> bool
    ensures { IsTrue result ↔ IsAmong numbers.now number }
{
    match u16::try_from(number) {
        Ok(number) => is_among(numbers, number),
        Err(_large) => false,
    }
}

impl From<DiskFault> for JudgeFault {
    ghost use Rattle.directories.specs.declared.judging.JudgeFault.TheVariants as fault;

    ghost from_gives = { λ _ e. e ≡ fault.Disk };

    fn from(_failed: DiskFault) -> JudgeFault {
        JudgeFault::Disk
    }
}

impl From<CheckFault> for JudgeFault {
    ghost use Rattle.directories.specs.Judging.{judge_fault_of};

    ghost from_gives = { λ fault e. e ≡ judge_fault_of fault };

    // Of the faults of a walk over a checked image: there are no others than these two.
    fn from(fault: CheckFault) -> JudgeFault {
        match fault {
            CheckFault::NoMemory => JudgeFault::NoMemory,
            _ => JudgeFault::Disk,
        }
    }
}

impl From<NoMemory> for JudgeFault {
    ghost use Rattle.directories.specs.declared.judging.JudgeFault.TheVariants as fault;

    ghost from_gives = { λ _ e. e ≡ fault.NoMemory };

    fn from(_refused: NoMemory) -> JudgeFault {
        JudgeFault::NoMemory
    }
}

impl From<AllocError> for JudgeFault {
    ghost use Rattle.directories.specs.declared.judging.JudgeFault.TheVariants as fault;

    ghost from_gives = { λ _ e. e ≡ fault.NoMemory };

    fn from(_refused: AllocError) -> JudgeFault {
        JudgeFault::NoMemory
    }
}

impl<T: Drop> From<AllocFailed<T>> for JudgeFault {
    ghost use Rattle.directories.specs.declared.judging.JudgeFault.TheVariants as fault;

    ghost from_gives = { λ _ e. e ≡ fault.NoMemory };

    fn from(_refused: AllocFailed<T>) -> JudgeFault {
        JudgeFault::NoMemory
    }
}
