// How many names lead to each file of an image, and whether the counts of links say so, as they are
// seen without a kernel.
ghost use Rattle.std.specs.Prelude.{◌≡◌, ◌≢◌, ◌≤◌, ◌<◌, ◌-◌, ℕ, None, length, map, slice_index, EachIndex, IfNone, IfOk, IfSome, MatchOption, OnOk, not};
ghost use Rattle.blocks.specs.Calls.{OnlyReads};
ghost use Rattle.model.specs.Files.{file_in, files_of};
ghost use Rattle.model.specs.Log.{recovered};
ghost use Rattle.model.specs.Verdict.{verdict};
ghost use Rattle.offline.specs.Checked.{IsCheckedOf};
ghost use Rattle.directories.specs.Counts.{most_links};
ghost use Rattle.directories.specs.Judging.{KeepsCount};
ghost use Rattle.directories.specs.Tallying.{is_counted, names_among, names_at, names_to, AreLinks, AreNameCounts, HasTooMany, IsMiscounted, Takes, TakesOne};
ghost use Rattle.directories.specs.Trees.{links_of, IsTree};

use crate::entries::{ENTRY_SIZE, entries_in, has_name, is_free, number_in};
use crate::judging::{JudgeFault, Seen, look};
use crate::name::Name;
use blocks::{Block, Disk, NoMemory};
use offline::Recovered;
use std::alloc::Global;

// The greatest count of links: xv6's own is a signed number of 16 bits.
const MOST_LINKS: u16 = 32767;

/// How many names lead to each number of a disk whose image was checked and whose files are a tree, as
/// recovery would leave them: at index `i` the names of file `i`, as its count of links should be. A
/// directory's name `.` for itself is not counted, as in xv6. `None` where more than 32,767 names lead
/// to a file, which no count may say. Each directory is read once, and no block is written.
///
/// # Errors
///
/// - `Disk`: a read failed.
/// - `NoMemory`: memory was refused, which is needed for a block, a directory, and one number of 16
///   bits for each file.
pub fn name_counts<D: Disk>(alloc: Global, disk: &mut D) -> Result<Option<Vec<u16>>, JudgeFault>
    requires sound { verdict (D.image disk.old) ≡ None }
    requires tree { IsTree (files_of (recovered (D.image disk.old))) }
    ensures told { IfOk result (λ told. MatchOption told
        (HasTooMany (files_of (recovered (D.image disk.old))))
        (λ counts. AreNameCounts (files_of (recovered (D.image disk.old))) counts.items)) }
    ensures reads { OnlyReads D.Disk disk.old disk.new }
    ensures faults { KeepsCount result (D.fault_count disk.old) (D.fault_count disk.new) }
{
    let mut block = Block::zeroed(alloc)?;
    let image = Recovered::open_checked(disk, &mut block)?;
    let mut left = all_left(alloc, image.sup.ninodes)?;
    let short = take_all(alloc, disk, &image, &mut block, &mut left)?;
    if short.is_some() {
        return Ok(None);
    }
    turn_over(&mut left[..]);
    Ok(Some(left))
}

/// The first number that is found whose count of links is not how many names lead to it, of a disk
/// whose image was checked and whose files are a tree, as recovery would leave them: one that more
/// names lead to, else the lowest that fewer lead to. `None` where each count is right. A directory's
/// name `.` for itself is not counted, as in xv6. Each directory is read once, and no block is written.
///
/// # Errors
///
/// - `Disk`: a read failed.
/// - `NoMemory`: memory was refused, which is needed for a block, a directory, and one number of 16
///   bits for each file.
pub fn first_miscounted<D: Disk>(alloc: Global, disk: &mut D) -> Result<Option<u32>, JudgeFault>
    requires sound { verdict (D.image disk.old) ≡ None }
    requires tree { IsTree (files_of (recovered (D.image disk.old))) }
    ensures told { IfOk result (IsMiscounted (files_of (recovered (D.image disk.old)))) }
    ensures reads { OnlyReads D.Disk disk.old disk.new }
    ensures faults { KeepsCount result (D.fault_count disk.old) (D.fault_count disk.new) }
{
    let mut block = Block::zeroed(alloc)?;
    let image = Recovered::open_checked(disk, &mut block)?;
    let mut left = link_counts(alloc, disk, &image, &mut block)?;
    let short = take_all(alloc, disk, &image, &mut block, &mut left)?;
    match short {
        Some(number) => Ok(Some(u32::from(number))),
        None => Ok(first_left(left.as_slice(), image.sup.ninodes)),
    }
}

// As many as a count may say, for each of so many numbers.
fn all_left(alloc: Global, count: u32) -> Result<Vec<u16>, NoMemory>
    ensures long { IfOk result (λ left. length left.items ≡ count) }
    ensures most { IfOk result (λ left. EachIndex left.items
        (λ i. slice_index left.items i ≡ most_links)) }
{
    let mut left = Vec::new(alloc);
    left.resize(count as usize, MOST_LINKS)?;
    Ok(left)
}

// How many were taken off, of as many as a count may say.
fn turn_over(left: &mut [u16])
    requires { EachIndex left.old (λ i. slice_index left.old i ≤ most_links) }
    ensures { left.new ≡ map (λ n. most_links - n) left.old }
{
    for n in left.iter_mut() {
        *n = MOST_LINKS - *n;
    }
}

/// The count of links that each number's inode has, and 0 where there is no file, as recovery would
/// leave them: at index `i` that of number `i`. No block is written.
///
/// # Errors
///
/// - `Disk`: a read failed.
/// - `NoMemory`: memory was refused, which is needed for one number of 16 bits for each inode.
pub fn link_counts<D: Disk>(
    alloc: Global,
    disk: &mut D,
    image: &Recovered,
    block: &mut Block,
) -> Result<Vec<u16>, JudgeFault>
    requires { IsCheckedOf (D.image disk.old) image.now }
    ensures links { IfOk result (λ counts. AreLinks
        (files_of (recovered (D.image disk.old))) counts.items) }
    ensures long { IfOk result (λ counts. length counts.items ≡ image.now.sup.ninodes) }
    ensures reads { OnlyReads D.Disk disk.old disk.new }
    ensures faults { KeepsCount result (D.fault_count disk.old) (D.fault_count disk.new) }
{
    let mut counts = Vec::new(alloc);
    for i in 0..image.sup.ninodes {
        let links = links_at(disk, image, i, block)?;
        counts.push(links)?;
    }
    Ok(counts)
}

// The count of links of a number's file, and 0 where there is none.
fn links_at<D: Disk>(
    disk: &mut D,
    image: &Recovered,
    number: u32,
    block: &mut Block,
) -> Result<u16, JudgeFault>
    requires { IsCheckedOf (D.image disk.old) image.now }
    ensures links { IfOk result (λ links. links
        ≡ links_of (file_in (files_of (recovered (D.image disk.old))) number)) }
    ensures reads { OnlyReads D.Disk disk.old disk.new }
    ensures faults { KeepsCount result (D.fault_count disk.old) (D.fault_count disk.new) }
{
    match image.inode_at(disk, number, block)? {
        Some(inode) => Ok(inode.nlink),
        None => Ok(0),
    }
}

// Takes one off what is left of a number for each name of all directories that leads to it. The first
// that nothing is left of, where there is one.
fn take_names<D: Disk>(
    alloc: Global,
    disk: &mut D,
    image: &Recovered,
    block: &mut Block,
    left: &mut [u16],
) -> Result<Option<u16>, JudgeFault>
    requires { IsCheckedOf (D.image disk.old) image.now }
    ensures takes { IfOk result (Takes
        (names_to (files_of (recovered (D.image disk.old)))) left.old left.new) }
    ensures reads { OnlyReads D.Disk disk.old disk.new }
    ensures faults { KeepsCount result (D.fault_count disk.old) (D.fault_count disk.new) }
{
    for from in 0..image.sup.ninodes {
        if let Some(number) = take_at(alloc, disk, image, block, from, left)? {
            return Ok(Some(number));
        }
    }
    Ok(None)
}

// The same of what is left in a vector.
fn take_all<D: Disk>(
    alloc: Global,
    disk: &mut D,
    image: &Recovered,
    block: &mut Block,
    left: &mut Vec<u16>,
) -> Result<Option<u16>, JudgeFault>
    requires { IsCheckedOf (D.image disk.old) image.now }
    ensures takes { IfOk result (Takes
        (names_to (files_of (recovered (D.image disk.old)))) left.old.items left.new.items) }
    ensures long { OnOk result (length left.new.items ≡ length left.old.items) }
    ensures reads { OnlyReads D.Disk disk.old disk.new }
    ensures faults { KeepsCount result (D.fault_count disk.old) (D.fault_count disk.new) }
{
    let short = take_names(alloc, disk, image, block, &mut left[..])?;
    Ok(short)
}

// The same of the names of one number's file alone, which has none where it is no directory.
fn take_at<D: Disk>(
    alloc: Global,
    disk: &mut D,
    image: &Recovered,
    block: &mut Block,
    from: u32,
    left: &mut [u16],
) -> Result<Option<u16>, JudgeFault>
    requires { IsCheckedOf (D.image disk.old) image.now }
    ensures takes { IfOk result (Takes
        (names_at (files_of (recovered (D.image disk.old))) from) left.old left.new) }
    ensures reads { OnlyReads D.Disk disk.old disk.new }
    ensures faults { KeepsCount result (D.fault_count disk.old) (D.fault_count disk.new) }
{
    match look(alloc, disk, image, block, from)? {
        Seen::Nothing => Ok(None),
        Seen::Plain => Ok(None),
        Seen::Directory(bytes) => Ok(take_entries(entries_in(bytes.as_slice()), left)),
    }
}

// The same of the names of some entries.
fn take_entries(entries: &[[u8; ENTRY_SIZE]], left: &mut [u16]) -> Option<u16>
    ensures { Takes (names_among entries.now) left.old left.new result }
{
    for entry in entries {
        if is_counted(entry) {
            let number = number_in(entry);
            if !take_one(left, number) {
                return Some(number);
            }
        }
    }
    None
}

// Takes one off what is left of a number. Whether there was one.
fn take_one(left: &mut [u16], number: u16) -> bool
    ensures { TakesOne left.old left.new number result }
{
    let place = usize::from(number);
    if place >= left.len() || left[place] == 0 {
        return false;
    }
    left[place] -= 1;
    true
}

// Whether an entry is used, and its name is not a directory's for itself.
pub(crate) fn is_counted(entry: &[u8; ENTRY_SIZE]) -> bool
    ensures { result ≡ is_counted entry.now }
{
    !is_none_counted(entry)
}

// Whether an entry is free, or has a directory's name for itself.
fn is_none_counted(entry: &[u8; ENTRY_SIZE]) -> bool
    ensures { not result ≡ is_counted entry.now }
{
    is_free(entry) || has_name(entry, &Name::own())
}

// The lowest of so many numbers that something is left of.
fn first_left(left: &[u16], count: u32) -> Option<u32>
    requires { length left.now ≡ count }
    ensures none { IfNone result ((i : ℕ) → slice_index left.now i ≡ 0) }
    ensures some { IfSome result (λ i. slice_index left.now i ≢ 0) }
{
    for i in 0..count {
        if left[i as usize] != 0 {
            return Some(i);
        }
    }
    None
}
