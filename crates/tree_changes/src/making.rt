// Each directory of a path, made where it isn't there.
ghost use Rattle.std.specs.Prelude.{◌≡◌, ◌<◌, IfErr, IfOk, OnOk};
ghost use Rattle.calls.specs.Calls.{image_on};
ghost use Rattle.calls.specs.Stopped.{StaysOver};
ghost use Rattle.directories.specs.Paths.{names_of};
ghost use Rattle.model.specs.Files.{files_of};
ghost use Rattle.names.specs.Inside.{form_seen};
ghost use Rattle.names.specs.Making.{MakesDirectoryIn};
ghost use Rattle.names.specs.Ready.{AnyOf, IsReady, LeavesIfDone, LeavesMidst, MayGoOn};
ghost use Rattle.tree_changes.specs.Changes.{IsOfTree};
ghost use Rattle.tree_changes.specs.Making.{
  is_absent,
  Enters,
  EntersAll,
  EntersAny,
  EntersSome,
  IsDirectoryFound,
  IsNoDirectoryFound,
  IsNotEntered,
  IsUnmadeAll,
  IsUnmadeBelow,
  IsUnnewed,
  MakesAll,
  MakesDirectories,
  StopsEntering,
};

use crate::faults::ChangeRefusal;
use crate::over_tree::TreeChange;
use blocks::Disk;
use directories::{DIRECTORY, DIRECTORY_KIND, Name, Refusal, names_of};
use names::{Found, Tree, TreeFault};
use std::alloc::Global;

/// Makes each directory of a path that isn't there, from the first on, each in one transaction.
#[derive(Clone, Copy, Drop)]
pub struct MakeDirectories<'a> {
    /// The path, from the root.
    pub path: &'a str,
}

impl<'a> TreeChange for MakeDirectories<'a> {
    ghost makes = { λ change form. MakesDirectories change.path.now };

    ghost midst = { λ change form. EntersSome (names_of change.path.now) };

    ghost undone = { λ change t. IsUnmadeAll t.disk change.path.now t.was t.now };

    fn make<D: Disk>(
        &self,
        alloc: Global,
        tree: &mut Tree<D>,
    ) -> Result<Option<u32>, ChangeRefusal> {
        match make_all(alloc, tree, self.path.as_bytes()) {
            Ok(()) => Ok(None),
            Err(refusal) => Err(refusal),
        }
    }
}

// Makes each directory of a path, unless it leads to one.
fn make_all<D: Disk>(alloc: Global, tree: &mut Tree<D>, path: &[u8]) -> Result<(), ChangeRefusal>
    requires ready { IsReady D.Disk tree.old.kernel tree.old.calls_left }
    requires some { 0 < tree.old.calls_left }
    ensures makes { OnOk result (MakesAll (names_of path.now)
        (files_of (image_on D.image tree.old.kernel))
        (files_of (image_on D.image tree.new.kernel))) }
    ensures undone { IfErr result
        (IsUnmadeAll D.Disk path.now tree.old.kernel tree.new.kernel) }
    ensures cause { IfErr result IsOfTree }
    ensures leaves { LeavesMidst D.Disk (EntersSome (names_of path.now))
        tree.old.kernel tree.new.kernel }
    ensures stays { StaysOver D.Disk tree.old.kernel tree.new.kernel }
{
    match tree.look(alloc, path) {
        Ok(found) => match directory_found(&found) {
            Ok(_number) => Ok(()),
            Err(refusal) => Err(refusal),
        },
        Err(fault) => {
            if is_absent(&fault) {
                return make_below(alloc, tree, path);
            }
            Err(ChangeRefusal::Tree(fault))
        }
    }
}

// The number of a file that was found, where it is a directory.
pub(crate) fn directory_found(found: &Found) -> Result<u32, ChangeRefusal>
    ensures is { IfOk result (IsDirectoryFound found.now) }
    ensures none { IfErr result (IsNoDirectoryFound found.now) }
{
    if found.kind == DIRECTORY_KIND {
        return Ok(found.number);
    }
    Err(ChangeRefusal::Tree(TreeFault::Refused(Refusal::Exists)))
}

// Whether a call was refused since a name isn't there.
pub(crate) fn is_absent(fault: &TreeFault) -> bool
    ensures { result ≡ is_absent fault.now }
{
    matches!(fault, TreeFault::Refused(Refusal::NotFound))
}

// Makes each directory of a path.
fn make_below<D: Disk>(alloc: Global, tree: &mut Tree<D>, path: &[u8]) -> Result<(), ChangeRefusal>
    requires ready { MayGoOn D.Disk tree.old.kernel tree.old.calls_left }
    ensures makes { OnOk result (EntersAll (names_of path.now)
        (files_of (image_on D.image tree.old.kernel))
        (files_of (image_on D.image tree.new.kernel))) }
    ensures undone { IsReady D.Disk tree.old.kernel tree.old.calls_left → IfErr result
        (IsUnmadeBelow D.Disk path.now tree.old.kernel tree.new.kernel) }
    ensures cause { IfErr result IsOfTree }
    ensures leaves { LeavesIfDone D.Disk (EntersSome (names_of path.now))
        tree.old.kernel tree.new.kernel }
    ensures stays { StaysOver D.Disk tree.old.kernel tree.new.kernel }
{
    match names_of(alloc, path) {
        Ok(names) => enter_each(alloc, tree, names.as_slice()),
        Err(fault) => Err(ChangeRefusal::Tree(TreeFault::Path(fault))),
    }
}

// Goes from the root where names lead, one after the other; each directory is made that isn't there.
fn enter_each<D: Disk>(
    alloc: Global,
    tree: &mut Tree<D>,
    names: &[Name],
) -> Result<(), ChangeRefusal>
    requires ready { MayGoOn D.Disk tree.old.kernel tree.old.calls_left }
    ensures makes { OnOk result (EntersAll names.now
        (files_of (image_on D.image tree.old.kernel))
        (files_of (image_on D.image tree.new.kernel))) }
    ensures undone { IsReady D.Disk tree.old.kernel tree.old.calls_left → IfErr result
        (StopsEntering D.Disk names.now tree.old.kernel tree.new.kernel) }
    ensures cause { IfErr result IsOfTree }
    ensures leaves { LeavesIfDone D.Disk (EntersSome names.now)
        tree.old.kernel tree.new.kernel }
    ensures stays { StaysOver D.Disk tree.old.kernel tree.new.kernel }
{
    let mut number = DIRECTORY;
    for name in names {
        number = enter(alloc, tree, number, name)?;
    }
    Ok(())
}

// Where a name leads from a directory, if it is another one; that is made where the name isn't there.
fn enter<D: Disk>(
    alloc: Global,
    tree: &mut Tree<D>,
    from: u32,
    name: &Name,
) -> Result<u32, ChangeRefusal>
    requires ready { MayGoOn D.Disk tree.old.kernel tree.old.calls_left }
    ensures ready { MayGoOn D.Disk tree.new.kernel tree.new.calls_left }
    ensures done { OnOk result (IsReady D.Disk tree.new.kernel tree.new.calls_left) }
    ensures enters { IfOk result (λ number. Enters from name.now number
        (files_of (image_on D.image tree.old.kernel))
        (files_of (image_on D.image tree.new.kernel))) }
    ensures undone { IsReady D.Disk tree.old.kernel tree.old.calls_left → IfErr result
        (IsNotEntered D.Disk from name.now tree.old.kernel tree.new.kernel) }
    ensures cause { IfErr result IsOfTree }
    ensures leaves { LeavesIfDone D.Disk (EntersAny from name.now)
        tree.old.kernel tree.new.kernel }
    ensures stays { StaysOver D.Disk tree.old.kernel tree.new.kernel }
{
    if !tree.may_call() {
        return Err(ChangeRefusal::Tree(TreeFault::NoCall));
    }
    match tree.look_in(alloc, from, name) {
        Ok(found) => directory_found(&found),
        Err(fault) => {
            if is_absent(&fault) {
                return make_new(alloc, tree, from, name);
            }
            Err(ChangeRefusal::Tree(fault))
        }
    }
}

// Makes a directory under a name of a directory, where another call may be made. Its number.
fn make_new<D: Disk>(
    alloc: Global,
    tree: &mut Tree<D>,
    from: u32,
    name: &Name,
) -> Result<u32, ChangeRefusal>
    requires ready { MayGoOn D.Disk tree.old.kernel tree.old.calls_left }
    ensures ready { MayGoOn D.Disk tree.new.kernel tree.new.calls_left }
    ensures done { OnOk result (IsReady D.Disk tree.new.kernel tree.new.calls_left) }
    ensures makes { IfOk result (λ number. MakesDirectoryIn from name.now number
        (files_of (image_on D.image tree.old.kernel))
        (files_of (image_on D.image tree.new.kernel))) }
    ensures undone { IsReady D.Disk tree.old.kernel tree.old.calls_left → IfErr result
        (IsUnnewed D.Disk from name.now tree.old.kernel tree.new.kernel) }
    ensures cause { IfErr result IsOfTree }
    ensures leaves { LeavesIfDone D.Disk (AnyOf (MakesDirectoryIn from name.now))
        tree.old.kernel tree.new.kernel }
    ensures stays { StaysOver D.Disk tree.old.kernel tree.new.kernel }
{
    if !tree.may_call() {
        return Err(ChangeRefusal::Tree(TreeFault::NoCall));
    }
    match tree.make_directory_in(alloc, from, name) {
        Ok(number) => Ok(u32::from(number)),
        Err(fault) => Err(ChangeRefusal::Tree(fault)),
    }
}
