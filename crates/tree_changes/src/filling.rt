// Directories and files, put below a directory one after the other.
ghost use Rattle.std.specs.Prelude.{◌<◌, IfErr, OnOk};
ghost use Rattle.calls.specs.Calls.{image_on};
ghost use Rattle.calls.specs.Stopped.{StaysOver};
ghost use Rattle.directories.specs.Paths.{names_of};
ghost use Rattle.directories.specs.Walks.{IsUndoneIn};
ghost use Rattle.model.specs.Files.{files_of};
ghost use Rattle.names.specs.Inside.{form_seen};
ghost use Rattle.names.specs.Making.{IsUnmadeDirectoryIn, MakesDirectoryAt};
ghost use Rattle.names.specs.Ready.{AnyOf, IsReady, IsUndone, LeavesIfDone, LeavesMidst, MayGoOn};
ghost use Rattle.tree_changes.specs.Changes.{IsOfTree, OnTree};
ghost use Rattle.tree_changes.specs.Filling.{
  EntersAt,
  Fills,
  FillsAt,
  FillsSome,
  IsNotEnteredAt,
  IsUnfilledAt,
  IsUnputItem,
  PutsEach,
  PutsItem,
  PutsItemSome,
  PutsUpTo,
  StopsPutting,
};

use crate::faults::ChangeRefusal;
use crate::making::{directory_found, is_absent};
use crate::over_tree::TreeChange;
use crate::puts::put_whole;
use blocks::Disk;
use names::{Tree, TreeFault};
use std::alloc::Global;

/// What is put under a path.
#[derive(Drop)]
pub enum What {
    /// A directory, which is made where nothing is there.
    Directory,
    /// A file of these bytes, as by `Put`.
    Bytes(Vec<u8>),
}

/// What is put, and where.
#[derive(Drop)]
pub struct Item {
    /// The path, from the root.
    pub path: Vec<u8>,
    /// What is put there.
    pub what: What,
}

/// Puts items one after the other, once a directory is at a path, below which they are to be: it is made
/// where nothing is there. Each directory is made in one transaction, and each file's bytes are put as by
/// `Put`, so that a stop leaves a beginning of them.
#[derive(Clone, Copy, Drop)]
pub struct Fill<'a> {
    /// The directory's path, from the root.
    pub path: &'a [u8],
    /// The items, each behind the directory that it is in.
    pub items: &'a [Item],
}

impl<'a> TreeChange for Fill<'a> {
    ghost makes = { λ change. Fills change.path.now change.items.now };

    ghost midst = { λ change form. FillsSome form (names_of change.path.now) change.items.now };

    ghost undone = { λ change t.
        IsUnfilledAt t.disk change.path.now change.items.now t.was t.now };

    fn make<D: Disk>(
        &self,
        alloc: Global,
        tree: &mut Tree<D>,
    ) -> Result<Option<u32>, ChangeRefusal> {
        match fill_at(alloc, tree, self.path, self.items) {
            Ok(()) => Ok(None),
            Err(refusal) => Err(refusal),
        }
    }
}

// Puts items, once a directory is at a path.
fn fill_at<D: Disk>(
    alloc: Global,
    tree: &mut Tree<D>,
    path: &[u8],
    items: &[Item],
) -> Result<(), ChangeRefusal>
    requires ready { IsReady D.Disk tree.old.kernel tree.old.calls_left }
    requires some { 0 < tree.old.calls_left }
    ensures fills { OnOk result (FillsAt (form_seen D.image tree.old.kernel)
        (names_of path.now) items.now
        (files_of (image_on D.image tree.old.kernel))
        (files_of (image_on D.image tree.new.kernel))) }
    ensures undone { IfErr result
        (IsUnfilledAt D.Disk path.now items.now tree.old.kernel tree.new.kernel) }
    ensures cause { IfErr result IsOfTree }
    ensures leaves { LeavesMidst D.Disk (FillsSome (form_seen D.image tree.old.kernel)
        (names_of path.now) items.now) tree.old.kernel tree.new.kernel }
    ensures stays { StaysOver D.Disk tree.old.kernel tree.new.kernel }
{
    match enter_at(alloc, tree, path) {
        Ok(()) => put_each(alloc, tree, items),
        Err(refusal) => Err(refusal),
    }
}

// Puts items, one after the other.
fn put_each<D: Disk>(alloc: Global, tree: &mut Tree<D>, items: &[Item]) -> Result<(), ChangeRefusal>
    requires ready { MayGoOn D.Disk tree.old.kernel tree.old.calls_left }
    ensures puts { OnOk result (PutsEach (form_seen D.image tree.old.kernel) items.now
        (files_of (image_on D.image tree.old.kernel))
        (files_of (image_on D.image tree.new.kernel))) }
    ensures undone { IsReady D.Disk tree.old.kernel tree.old.calls_left → IfErr result
        (StopsPutting D.Disk items.now tree.old.kernel tree.new.kernel) }
    ensures cause { IfErr result IsOfTree }
    ensures leaves { LeavesIfDone D.Disk (PutsUpTo (form_seen D.image tree.old.kernel) items.now)
        tree.old.kernel tree.new.kernel }
    ensures stays { StaysOver D.Disk tree.old.kernel tree.new.kernel }
{
    for item in items {
        put_item(alloc, tree, item)?;
    }
    Ok(())
}

// Puts an item, where another call may be made.
fn put_item<D: Disk>(alloc: Global, tree: &mut Tree<D>, item: &Item) -> Result<(), ChangeRefusal>
    requires ready { MayGoOn D.Disk tree.old.kernel tree.old.calls_left }
    ensures ready { MayGoOn D.Disk tree.new.kernel tree.new.calls_left }
    ensures done { OnOk result (IsReady D.Disk tree.new.kernel tree.new.calls_left) }
    ensures puts { OnOk result (PutsItem (form_seen D.image tree.old.kernel) item.now
        (files_of (image_on D.image tree.old.kernel))
        (files_of (image_on D.image tree.new.kernel))) }
    ensures undone { IsReady D.Disk tree.old.kernel tree.old.calls_left → IfErr result
        (IsUnputItem D.Disk item.now tree.old.kernel tree.new.kernel) }
    ensures cause { IfErr result IsOfTree }
    ensures leaves { LeavesIfDone D.Disk (PutsItemSome (form_seen D.image tree.old.kernel) item.now)
        tree.old.kernel tree.new.kernel }
    ensures stays { StaysOver D.Disk tree.old.kernel tree.new.kernel }
{
    if !tree.may_call() {
        return Err(ChangeRefusal::Tree(TreeFault::NoCall));
    }
    let path = item.path.as_slice();
    match &item.what {
        What::Directory => enter_at(alloc, tree, path),
        What::Bytes(bytes) => match put_whole(alloc, tree, path, bytes.as_slice()) {
            Ok(_number) => Ok(()),
            Err(refusal) => Err(refusal),
        },
    }
}

// Sees to it that a directory is at a path: it is made where nothing is there.
fn enter_at<D: Disk>(alloc: Global, tree: &mut Tree<D>, path: &[u8]) -> Result<(), ChangeRefusal>
    requires ready { IsReady D.Disk tree.old.kernel tree.old.calls_left }
    requires some { 0 < tree.old.calls_left }
    ensures ready { MayGoOn D.Disk tree.new.kernel tree.new.calls_left }
    ensures done { OnOk result (IsReady D.Disk tree.new.kernel tree.new.calls_left) }
    ensures enters { OnOk result (EntersAt (names_of path.now)
        (files_of (image_on D.image tree.old.kernel))
        (files_of (image_on D.image tree.new.kernel))) }
    ensures undone { IfErr result
        (IsNotEnteredAt D.Disk path.now tree.old.kernel tree.new.kernel) }
    ensures cause { IfErr result IsOfTree }
    ensures leaves { LeavesMidst D.Disk (EntersAt (names_of path.now))
        tree.old.kernel tree.new.kernel }
    ensures stays { StaysOver D.Disk tree.old.kernel tree.new.kernel }
{
    match tree.look(alloc, path) {
        Ok(found) => match directory_found(&found) {
            Ok(_number) => Ok(()),
            Err(refusal) => Err(refusal),
        },
        Err(fault) => {
            if is_absent(&fault) {
                return make_at(alloc, tree, path);
            }
            Err(ChangeRefusal::Tree(fault))
        }
    }
}

// Makes a directory at a path, where another call may be made.
fn make_at<D: Disk>(alloc: Global, tree: &mut Tree<D>, path: &[u8]) -> Result<(), ChangeRefusal>
    requires ready { MayGoOn D.Disk tree.old.kernel tree.old.calls_left }
    ensures ready { MayGoOn D.Disk tree.new.kernel tree.new.calls_left }
    ensures done { OnOk result (IsReady D.Disk tree.new.kernel tree.new.calls_left) }
    ensures makes { OnOk result (AnyOf (MakesDirectoryAt (names_of path.now))
        (files_of (image_on D.image tree.old.kernel))
        (files_of (image_on D.image tree.new.kernel))) }
    ensures undone { IsReady D.Disk tree.old.kernel tree.old.calls_left → IfErr result
        (OnTree (IsUndone D.Disk path.now
        (IsUndoneIn IsUnmadeDirectoryIn (names_of path.now)) tree.old.kernel tree.new.kernel)) }
    ensures cause { IfErr result IsOfTree }
    ensures leaves { LeavesIfDone D.Disk (AnyOf (MakesDirectoryAt (names_of path.now)))
        tree.old.kernel tree.new.kernel }
    ensures stays { StaysOver D.Disk tree.old.kernel tree.new.kernel }
{
    if !tree.may_call() {
        return Err(ChangeRefusal::Tree(TreeFault::NoCall));
    }
    match tree.make_directory(alloc, path) {
        Ok(_number) => Ok(()),
        Err(fault) => Err(ChangeRefusal::Tree(fault)),
    }
}
