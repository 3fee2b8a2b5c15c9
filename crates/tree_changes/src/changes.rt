// The changes of files by their paths that are one call of a tree.
ghost use Rattle.names.specs.Linking.{IsNotLinkedAt, LinksAt};
ghost use Rattle.names.specs.Making.{IsUnmadeDirectoryIn, MakesDirectoryAt};
ghost use Rattle.directories.specs.Paths.{names_of};
ghost use Rattle.names.specs.Ready.{IsUndone, AnyOf};
ghost use Rattle.names.specs.Removing.{IsUnremovedIn, RemovesAt};
ghost use Rattle.names.specs.Renaming.{IsUndoneAt, IsUndoneAtBoth, RenamesAt};
ghost use Rattle.names.specs.Undirecting.{IsUnemptiedIn, RemovesDirectoryAt};
ghost use Rattle.directories.specs.Walks.{IsUndoneIn};
ghost use Rattle.tree_changes.specs.Changes.{MakesDirectory, OnTree, Plainly};

use crate::faults::ChangeRefusal;
use crate::over_tree::TreeChange;
use blocks::Disk;
use names::Tree;
use std::alloc::Global;

/// Removes the name at a path, which is no directory's, and the file with its last one.
#[derive(Clone, Copy, Drop)]
pub struct Remove<'a> {
    /// The path, from the root.
    pub path: &'a str,
}

/// Removes the empty directory at a path.
#[derive(Clone, Copy, Drop)]
pub struct RemoveDirectory<'a> {
    /// The path, from the root.
    pub path: &'a str,
}

/// Makes a directory at a path.
#[derive(Clone, Copy, Drop)]
pub struct MakeDirectory<'a> {
    /// The path, from the root.
    pub path: &'a str,
}

/// Gives the file at a path another path, where nothing is.
#[derive(Clone, Copy, Drop)]
pub struct Rename<'a> {
    /// The path that it has.
    pub from: &'a str,
    /// The path that it gets.
    pub to: &'a str,
}

/// Gives the file at a path, which is no directory, a second name: another path, where nothing is.
#[derive(Clone, Copy, Drop)]
pub struct Link<'a> {
    /// The path that it has.
    pub path: &'a str,
    /// The path that it gets besides.
    pub into: &'a str,
}

impl<'a> TreeChange for Remove<'a> {
    ghost makes = { λ change form. Plainly (RemovesAt (names_of change.path.now)) };

    ghost midst = { λ change form. AnyOf (RemovesAt (names_of change.path.now)) };

    ghost undone = { λ change t. OnTree (IsUndone t.disk change.path.now
        (IsUndoneIn IsUnremovedIn (names_of change.path.now)) t.was t.now) };

    fn make<D: Disk>(
        &self,
        alloc: Global,
        tree: &mut Tree<D>,
    ) -> Result<Option<u32>, ChangeRefusal> {
        match tree.remove(alloc, self.path.as_bytes()) {
            Ok(()) => Ok(None),
            Err(fault) => Err(ChangeRefusal::Tree(fault)),
        }
    }
}

impl<'a> TreeChange for RemoveDirectory<'a> {
    ghost makes = { λ change form. Plainly (RemovesDirectoryAt (names_of change.path.now)) };

    ghost midst = { λ change form. AnyOf (RemovesDirectoryAt (names_of change.path.now)) };

    ghost undone = { λ change t. OnTree (IsUndone t.disk change.path.now
        (IsUndoneIn IsUnemptiedIn (names_of change.path.now)) t.was t.now) };

    fn make<D: Disk>(
        &self,
        alloc: Global,
        tree: &mut Tree<D>,
    ) -> Result<Option<u32>, ChangeRefusal> {
        match tree.remove_directory(alloc, self.path.as_bytes()) {
            Ok(()) => Ok(None),
            Err(fault) => Err(ChangeRefusal::Tree(fault)),
        }
    }
}

impl<'a> TreeChange for MakeDirectory<'a> {
    ghost makes = { λ change form. MakesDirectory change.path.now };

    ghost midst = { λ change form. AnyOf (MakesDirectoryAt (names_of change.path.now)) };

    ghost undone = { λ change t. OnTree (IsUndone t.disk change.path.now
        (IsUndoneIn IsUnmadeDirectoryIn (names_of change.path.now)) t.was t.now) };

    fn make<D: Disk>(
        &self,
        alloc: Global,
        tree: &mut Tree<D>,
    ) -> Result<Option<u32>, ChangeRefusal> {
        match tree.make_directory(alloc, self.path.as_bytes()) {
            Ok(_number) => Ok(None),
            Err(fault) => Err(ChangeRefusal::Tree(fault)),
        }
    }
}

impl<'a> TreeChange for Rename<'a> {
    ghost makes = { λ change form. Plainly (RenamesAt (names_of change.from.now) (names_of change.to.now)) };

    ghost midst = { λ change form.
        AnyOf (RenamesAt (names_of change.from.now) (names_of change.to.now)) };

    ghost undone = { λ change t. OnTree (IsUndoneAtBoth t.disk change.from.now
        change.to.now (IsUndoneAt (names_of change.from.now) (names_of change.to.now)) t.was t.now) };

    fn make<D: Disk>(
        &self,
        alloc: Global,
        tree: &mut Tree<D>,
    ) -> Result<Option<u32>, ChangeRefusal> {
        match tree.rename(alloc, self.from.as_bytes(), self.to.as_bytes()) {
            Ok(()) => Ok(None),
            Err(fault) => Err(ChangeRefusal::Tree(fault)),
        }
    }
}

impl<'a> TreeChange for Link<'a> {
    ghost makes = { λ change form.
        Plainly (LinksAt (names_of change.path.now) (names_of change.into.now)) };

    ghost midst = { λ change form.
        AnyOf (LinksAt (names_of change.path.now) (names_of change.into.now)) };

    ghost undone = { λ change t. OnTree (IsUndoneAtBoth t.disk change.path.now change.into.now
        (IsNotLinkedAt (names_of change.path.now) (names_of change.into.now)) t.was t.now) };

    fn make<D: Disk>(
        &self,
        alloc: Global,
        tree: &mut Tree<D>,
    ) -> Result<Option<u32>, ChangeRefusal> {
        match tree.link(alloc, self.path.as_bytes(), self.into.as_bytes()) {
            Ok(()) => Ok(None),
            Err(fault) => Err(ChangeRefusal::Tree(fault)),
        }
    }
}
