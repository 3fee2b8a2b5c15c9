// A directory, removed with all that is below it.
ghost use Rattle.std.specs.Prelude.{false, ◌≡◌, ◌<◌, ◌++◌, IfErr, IfOk, OnOk};
ghost use Rattle.std.specs.List.{flat_map};
ghost use Rattle.calls.specs.Calls.{image_on};
ghost use Rattle.calls.specs.Stopped.{StaysOver};
ghost use Rattle.directories.specs.Entries.{entries_of, is_free, name_in, AreNamed, IsProper};
ghost use Rattle.directories.specs.Paths.{names_of};
ghost use Rattle.model.specs.Files.{files_of};
ghost use Rattle.names.specs.Ready.{IsReady, LeavesIfDone, LeavesMidst, MayGoOn};
ghost use Rattle.names.specs.Removing.{RemovesAt};
ghost use Rattle.names.specs.Undirecting.{RemovesDirectoryAt, RemovesDirectoryIn};
ghost use Rattle.tree_changes.specs.Changes.{IsOfTree};
ghost use Rattle.tree_changes.specs.Removing.{
  is_a_directory,
  is_refused,
  name_of_entry,
  names_in,
  no_memory,
  AreNamesBelow,
  IsBadLast,
  IsBadLastOf,
  IsLastDown,
  IsNotEmptied,
  IsNotEmptiedAt,
  IsNotRemovedAt,
  IsUnlisted,
  IsUnlistedBelow,
  IsUnremovedAll,
  IsUnremovedBelow,
  IsUnremovedListed,
  IsUnremovedOne,
  IsUnremovedTree,
  RemovesAll,
  RemovesBelow,
  RemovesEach,
  RemovesListed,
  RemovesOne,
  RemovesPart,
  RemovesPartBelow,
  RemovesPartListed,
  RemovesSome,
  RemovesWhole,
  Stays,
  StaysSame,
  StopsRemoving,
};

use crate::faults::ChangeRefusal;
use crate::over_tree::TreeChange;
use blocks::Disk;
use calls::transactions::TransactionFault;
use directories::{
    DIRECTORY_KIND, ENTRY_SIZE, Name, Refusal, entries_in, leads_down, names_of, number_in, text_in,
};
use names::{Tree, TreeFault};
use std::alloc::Global;

/// Removes the name at a path as `Remove`, or a directory with all that is below it, each name in one
/// transaction, those below first.
#[derive(Clone, Copy, Drop)]
pub struct RemoveAll<'a> {
    /// The path, from the root.
    pub path: &'a str,
}

/// A name of a directory that leads down, and where.
#[derive(Drop)]
pub struct Below {
    /// The directory's number.
    pub from: u32,
    /// The name.
    pub name: Name,
    /// The number of the file that it leads to.
    pub number: u32,
}

impl<'a> TreeChange for RemoveAll<'a> {
    ghost makes = { λ change form. RemovesWhole change.path.now };

    ghost midst = { λ change form. RemovesPart (names_of change.path.now) };

    ghost undone = { λ change t. IsUnremovedAll t.disk change.path.now t.was t.now };

    fn make<D: Disk>(
        &self,
        alloc: Global,
        tree: &mut Tree<D>,
    ) -> Result<Option<u32>, ChangeRefusal> {
        match remove_all(alloc, tree, self.path.as_bytes()) {
            Ok(()) => Ok(None),
            Err(refusal) => Err(refusal),
        }
    }
}

// Removes what is at a path.
fn remove_all<D: Disk>(alloc: Global, tree: &mut Tree<D>, path: &[u8]) -> Result<(), ChangeRefusal>
    requires ready { IsReady D.Disk tree.old.kernel tree.old.calls_left }
    requires some { 0 < tree.old.calls_left }
    ensures removes { OnOk result (RemovesAll (names_of path.now)
        (files_of (image_on D.image tree.old.kernel))
        (files_of (image_on D.image tree.new.kernel))) }
    ensures undone { IfErr result
        (IsUnremovedAll D.Disk path.now tree.old.kernel tree.new.kernel) }
    ensures cause { IfErr result IsOfTree }
    ensures leaves { LeavesMidst D.Disk (RemovesPart (names_of path.now))
        tree.old.kernel tree.new.kernel }
    ensures stays { StaysOver D.Disk tree.old.kernel tree.new.kernel }
{
    match tree.look(alloc, path) {
        Ok(found) => {
            if found.kind == DIRECTORY_KIND {
                return remove_tree(alloc, tree, path, found.number);
            }
            remove_name(alloc, tree, path)
        }
        Err(fault) => Err(ChangeRefusal::Tree(fault)),
    }
}

// Removes a name at a path, where another call may be made.
fn remove_name<D: Disk>(alloc: Global, tree: &mut Tree<D>, path: &[u8]) -> Result<(), ChangeRefusal>
    requires ready { MayGoOn D.Disk tree.old.kernel tree.old.calls_left }
    ensures removes { OnOk result (RemovesAt (names_of path.now) tt
        (files_of (image_on D.image tree.old.kernel))
        (files_of (image_on D.image tree.new.kernel))) }
    ensures undone { IsReady D.Disk tree.old.kernel tree.old.calls_left → IfErr result
        (IsNotRemovedAt D.Disk path.now tree.old.kernel tree.new.kernel) }
    ensures cause { IfErr result IsOfTree }
    ensures leaves { LeavesIfDone D.Disk (RemovesAt (names_of path.now) tt)
        tree.old.kernel tree.new.kernel }
    ensures stays { StaysOver D.Disk tree.old.kernel tree.new.kernel }
{
    if !tree.may_call() {
        return Err(ChangeRefusal::Tree(TreeFault::NoCall));
    }
    match tree.remove(alloc, path) {
        Ok(()) => Ok(()),
        Err(fault) => Err(ChangeRefusal::Tree(fault)),
    }
}

// Removes the empty directory at a path, where another call may be made.
fn remove_emptied<D: Disk>(
    alloc: Global,
    tree: &mut Tree<D>,
    path: &[u8],
) -> Result<(), ChangeRefusal>
    requires ready { MayGoOn D.Disk tree.old.kernel tree.old.calls_left }
    ensures removes { OnOk result (RemovesDirectoryAt (names_of path.now) tt
        (files_of (image_on D.image tree.old.kernel))
        (files_of (image_on D.image tree.new.kernel))) }
    ensures undone { IsReady D.Disk tree.old.kernel tree.old.calls_left → IfErr result
        (IsNotEmptiedAt D.Disk path.now tree.old.kernel tree.new.kernel) }
    ensures cause { IfErr result IsOfTree }
    ensures leaves { LeavesIfDone D.Disk (RemovesDirectoryAt (names_of path.now) tt)
        tree.old.kernel tree.new.kernel }
    ensures stays { StaysOver D.Disk tree.old.kernel tree.new.kernel }
{
    if !tree.may_call() {
        return Err(ChangeRefusal::Tree(TreeFault::NoCall));
    }
    match tree.remove_directory(alloc, path) {
        Ok(()) => Ok(()),
        Err(fault) => Err(ChangeRefusal::Tree(fault)),
    }
}

// Removes the directory of that number at a path, with all that is below it, where its last name leads
// down.
fn remove_tree<D: Disk>(
    alloc: Global,
    tree: &mut Tree<D>,
    path: &[u8],
    number: u32,
) -> Result<(), ChangeRefusal>
    requires ready { MayGoOn D.Disk tree.old.kernel tree.old.calls_left }
    ensures removes { OnOk result (RemovesBelow (names_of path.now) number
        (files_of (image_on D.image tree.old.kernel))
        (files_of (image_on D.image tree.new.kernel))) }
    ensures undone { IsReady D.Disk tree.old.kernel tree.old.calls_left → IfErr result
        (IsUnremovedTree D.Disk path.now number tree.old.kernel tree.new.kernel) }
    ensures cause { IfErr result IsOfTree }
    ensures leaves { LeavesIfDone D.Disk (RemovesPartBelow (names_of path.now) number)
        tree.old.kernel tree.new.kernel }
    ensures stays { StaysOver D.Disk tree.old.kernel tree.new.kernel }
{
    match judge_last(alloc, path) {
        Ok(()) => remove_below(alloc, tree, path, number),
        Err(fault) => Err(ChangeRefusal::Tree(fault)),
    }
}

// Whether a path's last name leads down, which is asked before anything is removed.
fn judge_last(alloc: Global, path: &[u8]) -> Result<(), TreeFault>
    ensures down { OnOk result (IsLastDown (names_of path.now)) }
    ensures bad { IfErr result (IsBadLast path.now) }
{
    match names_of(alloc, path) {
        Ok(names) => last_down(names.as_slice()),
        Err(fault) => Err(TreeFault::Path(fault)),
    }
}

// Whether the last of these names leads down.
fn last_down(names: &[Name]) -> Result<(), TreeFault>
    ensures down { OnOk result (IsLastDown names.now) }
    ensures bad { IfErr result (IsBadLastOf names.now) }
{
    if names.is_empty() {
        return Err(TreeFault::Refused(Refusal::IsRoot));
    }
    if names[names.len() - 1].is_down() {
        return Ok(());
    }
    Err(TreeFault::Refused(Refusal::NotDown))
}

// Removes all names below a directory, and then itself.
fn remove_below<D: Disk>(
    alloc: Global,
    tree: &mut Tree<D>,
    path: &[u8],
    number: u32,
) -> Result<(), ChangeRefusal>
    requires ready { MayGoOn D.Disk tree.old.kernel tree.old.calls_left }
    ensures removes { OnOk result (RemovesBelow (names_of path.now) number
        (files_of (image_on D.image tree.old.kernel))
        (files_of (image_on D.image tree.new.kernel))) }
    ensures undone { IsReady D.Disk tree.old.kernel tree.old.calls_left → IfErr result
        (IsUnremovedBelow D.Disk path.now number tree.old.kernel tree.new.kernel) }
    ensures cause { IfErr result IsOfTree }
    ensures leaves { LeavesIfDone D.Disk (RemovesPartBelow (names_of path.now) number)
        tree.old.kernel tree.new.kernel }
    ensures stays { StaysOver D.Disk tree.old.kernel tree.new.kernel }
{
    match names_below(alloc, tree, number) {
        Ok(below) => remove_listed(alloc, tree, path, below.as_slice()),
        Err(refusal) => Err(refusal),
    }
}

// Removes these names, and then the directory at a path.
fn remove_listed<D: Disk>(
    alloc: Global,
    tree: &mut Tree<D>,
    path: &[u8],
    below: &[Below],
) -> Result<(), ChangeRefusal>
    requires ready { MayGoOn D.Disk tree.old.kernel tree.old.calls_left }
    ensures removes { OnOk result (RemovesListed (names_of path.now) below.now
        (files_of (image_on D.image tree.old.kernel))
        (files_of (image_on D.image tree.new.kernel))) }
    ensures undone { IsReady D.Disk tree.old.kernel tree.old.calls_left → IfErr result
        (IsUnremovedListed D.Disk path.now below.now tree.old.kernel tree.new.kernel) }
    ensures cause { IfErr result IsOfTree }
    ensures leaves { LeavesIfDone D.Disk (RemovesPartListed (names_of path.now) below.now)
        tree.old.kernel tree.new.kernel }
    ensures stays { StaysOver D.Disk tree.old.kernel tree.new.kernel }
{
    match remove_each(alloc, tree, below) {
        Ok(()) => remove_emptied(alloc, tree, path),
        Err(refusal) => Err(refusal),
    }
}

// The names below a directory: its own, and behind them those of each file that one of them leads to.
#[tactic(auto, using(crate::proofs::Listed::begun_names))]
fn names_below<D: Disk>(
    alloc: Global,
    tree: &mut Tree<D>,
    number: u32,
) -> Result<Vec<Below>, ChangeRefusal>
    requires ready { MayGoOn D.Disk tree.old.kernel tree.old.calls_left }
    ensures ready { MayGoOn D.Disk tree.new.kernel tree.new.calls_left }
    ensures kept { IsReady D.Disk tree.old.kernel tree.old.calls_left
        → OnOk result (IsReady D.Disk tree.new.kernel tree.new.calls_left) }
    ensures below { IfOk result (λ below. AreNamesBelow
        (files_of (image_on D.image tree.old.kernel)) number below.items) }
    ensures same { OnOk result (StaysSame D.Disk tree.old.kernel tree.new.kernel) }
    ensures undone { IsReady D.Disk tree.old.kernel tree.old.calls_left → IfErr result
        (IsUnlistedBelow D.Disk tree.old.kernel tree.new.kernel) }
    ensures cause { IfErr result IsOfTree }
    ensures leaves { LeavesIfDone D.Disk Stays tree.old.kernel tree.new.kernel }
    ensures stays { StaysOver D.Disk tree.old.kernel tree.new.kernel }
{
    let mut below = Vec::new(alloc);
    add_names(alloc, tree, number, &mut below)?;
    for place in 0..usize::MAX {
        if place >= below.len() {
            break;
        }
        let next = below[place].number;
        add_names(alloc, tree, next, &mut below)?;
    }
    Ok(below)
}

// Adds the names of a directory; a file that is none has none.
fn add_names<D: Disk>(
    alloc: Global,
    tree: &mut Tree<D>,
    number: u32,
    below: &mut Vec<Below>,
) -> Result<(), ChangeRefusal>
    requires ready { MayGoOn D.Disk tree.old.kernel tree.old.calls_left }
    ensures ready { MayGoOn D.Disk tree.new.kernel tree.new.calls_left }
    ensures done { OnOk result (IsReady D.Disk tree.new.kernel tree.new.calls_left) }
    ensures adds { OnOk result (below.new.items ≡ below.old.items
        ++ names_in (files_of (image_on D.image tree.old.kernel)) number) }
    ensures same { OnOk result (StaysSame D.Disk tree.old.kernel tree.new.kernel) }
    ensures undone { IsReady D.Disk tree.old.kernel tree.old.calls_left → IfErr result
        (IsUnlisted D.Disk tree.old.kernel tree.new.kernel) }
    ensures cause { IfErr result IsOfTree }
    ensures leaves { LeavesIfDone D.Disk Stays tree.old.kernel tree.new.kernel }
    ensures stays { StaysOver D.Disk tree.old.kernel tree.new.kernel }
{
    if !tree.may_call() {
        return Err(ChangeRefusal::Tree(TreeFault::NoCall));
    }
    match tree.list_at(alloc, number) {
        Ok(bytes) => add_entries(number, bytes.as_slice(), below),
        Err(fault) => {
            if is_refused(&fault) {
                return Ok(());
            }
            Err(ChangeRefusal::Tree(fault))
        }
    }
}

// Whether the files refused a call.
fn is_refused(fault: &TreeFault) -> bool
    ensures { result ≡ is_refused fault.now }
{
    matches!(fault, TreeFault::Refused(_))
}

// Adds the names of a directory of these bytes that lead down.
fn add_entries(from: u32, bytes: &[u8], below: &mut Vec<Below>) -> Result<(), ChangeRefusal>
    requires { AreNamed (entries_of bytes.now) }
    ensures adds { OnOk result (below.new.items ≡ below.old.items
        ++ flat_map (name_of_entry from) (entries_of bytes.now)) }
    ensures refused { IfErr result (λ r. r ≡ no_memory) }
{
    for entry in entries_in(bytes) {
        add_entry(from, entry, below)?;
    }
    Ok(())
}

// Adds the name of an entry, if that leads down.
fn add_entry(
    from: u32,
    entry: &[u8; ENTRY_SIZE],
    below: &mut Vec<Below>,
) -> Result<(), ChangeRefusal>
    requires { is_free entry.now ≡ false → IsProper (name_in entry.now) }
    ensures adds { OnOk result (below.new.items ≡ below.old.items
        ++ name_of_entry from entry.now) }
    ensures refused { IfErr result (λ r. r ≡ no_memory) }
{
    if !leads_down(entry) {
        return Ok(());
    }
    let Ok(name) = Name::new(text_in(entry)) else {
        // What leads down has a name.
        unreachable!()
    };
    let number = u32::from(number_in(entry));
    match below.push(Below { from, name, number }) {
        Ok(()) => Ok(()),
        Err(_) => Err(ChangeRefusal::Tree(TreeFault::Call(TransactionFault::NoMemory))),
    }
}

// Removes these names, the last first.
fn remove_each<D: Disk>(
    alloc: Global,
    tree: &mut Tree<D>,
    below: &[Below],
) -> Result<(), ChangeRefusal>
    requires ready { MayGoOn D.Disk tree.old.kernel tree.old.calls_left }
    ensures ready { MayGoOn D.Disk tree.new.kernel tree.new.calls_left }
    ensures kept { IsReady D.Disk tree.old.kernel tree.old.calls_left
        → OnOk result (IsReady D.Disk tree.new.kernel tree.new.calls_left) }
    ensures removes { OnOk result (RemovesEach below.now
        (files_of (image_on D.image tree.old.kernel))
        (files_of (image_on D.image tree.new.kernel))) }
    ensures undone { IsReady D.Disk tree.old.kernel tree.old.calls_left → IfErr result
        (StopsRemoving D.Disk below.now tree.old.kernel tree.new.kernel) }
    ensures cause { IfErr result IsOfTree }
    ensures leaves { LeavesIfDone D.Disk (RemovesSome below.now)
        tree.old.kernel tree.new.kernel }
    ensures stays { StaysOver D.Disk tree.old.kernel tree.new.kernel }
{
    for place in (0..below.len()).rev() {
        remove_one(alloc, tree, &below[place])?;
    }
    Ok(())
}

// Removes a name: a file's, or that of an empty directory.
fn remove_one<D: Disk>(alloc: Global, tree: &mut Tree<D>, one: &Below) -> Result<(), ChangeRefusal>
    requires ready { MayGoOn D.Disk tree.old.kernel tree.old.calls_left }
    ensures ready { MayGoOn D.Disk tree.new.kernel tree.new.calls_left }
    ensures done { OnOk result (IsReady D.Disk tree.new.kernel tree.new.calls_left) }
    ensures removes { OnOk result (RemovesOne one.now
        (files_of (image_on D.image tree.old.kernel))
        (files_of (image_on D.image tree.new.kernel))) }
    ensures undone { IsReady D.Disk tree.old.kernel tree.old.calls_left → IfErr result
        (IsUnremovedOne D.Disk one.now tree.old.kernel tree.new.kernel) }
    ensures cause { IfErr result IsOfTree }
    ensures leaves { LeavesIfDone D.Disk (RemovesOne one.now)
        tree.old.kernel tree.new.kernel }
    ensures stays { StaysOver D.Disk tree.old.kernel tree.new.kernel }
{
    if !tree.may_call() {
        return Err(ChangeRefusal::Tree(TreeFault::NoCall));
    }
    match tree.remove_in(alloc, one.from, &one.name) {
        Ok(()) => Ok(()),
        Err(fault) => {
            if is_a_directory(&fault) {
                return remove_empty(alloc, tree, one);
            }
            Err(ChangeRefusal::Tree(fault))
        }
    }
}

// Whether a call was refused since the file is a directory.
fn is_a_directory(fault: &TreeFault) -> bool
    ensures { result ≡ is_a_directory fault.now }
{
    matches!(fault, TreeFault::Refused(Refusal::IsADirectory))
}

// Removes the name of an empty directory, where another call may be made.
fn remove_empty<D: Disk>(
    alloc: Global,
    tree: &mut Tree<D>,
    one: &Below,
) -> Result<(), ChangeRefusal>
    requires ready { MayGoOn D.Disk tree.old.kernel tree.old.calls_left }
    ensures ready { MayGoOn D.Disk tree.new.kernel tree.new.calls_left }
    ensures done { OnOk result (IsReady D.Disk tree.new.kernel tree.new.calls_left) }
    ensures removes { OnOk result (RemovesDirectoryIn one.now.from one.now.name tt
        (files_of (image_on D.image tree.old.kernel))
        (files_of (image_on D.image tree.new.kernel))) }
    ensures undone { IsReady D.Disk tree.old.kernel tree.old.calls_left → IfErr result
        (IsNotEmptied D.Disk one.now tree.old.kernel tree.new.kernel) }
    ensures cause { IfErr result IsOfTree }
    ensures leaves { LeavesIfDone D.Disk (RemovesDirectoryIn one.now.from one.now.name tt)
        tree.old.kernel tree.new.kernel }
    ensures stays { StaysOver D.Disk tree.old.kernel tree.new.kernel }
{
    if !tree.may_call() {
        return Err(ChangeRefusal::Tree(TreeFault::NoCall));
    }
    match tree.remove_directory_in(alloc, one.from, &one.name) {
        Ok(()) => Ok(()),
        Err(fault) => Err(ChangeRefusal::Tree(fault)),
    }
}
