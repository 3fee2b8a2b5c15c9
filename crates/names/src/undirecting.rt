// Empty directories removed from a tree.
ghost use Rattle.std.specs.Prelude.{◌≡◌, ◌<◌, IfErr, IfOk, OnOk};
ghost use Rattle.calls.specs.Calls.{image_on};
ghost use Rattle.calls.specs.Stopped.{StaysOver};
ghost use Rattle.model.specs.Files.{files_of};
ghost use Rattle.names.specs.Inside.{files_seen, IsUnderWay, Proceeds, SeesSame, Never};
ghost use Rattle.directories.specs.Paths.{names_of};
ghost use Rattle.names.specs.Ready.{HasNoCallAt, IsReady, IsReadyBehind, IsUndone, LeavesTree, MayGoOn};
ghost use Rattle.names.specs.Undirecting.{IsEmptinessOf, IsUnemptiedIn, RemovesDirectoryAt, RemovesDirectoryIn};
ghost use Rattle.directories.specs.Trees.{IsTree};
ghost use Rattle.directories.specs.Walks.{IsUndoneIn};

use crate::changing::{ChangeIn, Last};
use crate::refusal::{Asked, TreeFault};
use crate::tree::Tree;
use blocks::Disk;
use directories::{Name, Refusal, is_empty, lookup};
use std::alloc::Global;

// Removes an empty directory from a directory.
#[derive(Drop)]
pub(crate) struct RemoveDirectory;

impl ChangeIn for RemoveDirectory {
    type Made = ();

    ghost makes = { λ remove. RemovesDirectoryIn };

    ghost refuses = { λ remove. IsUnemptiedIn };

    ghost hinders = { λ remove. Never };

    ghost tells_full = { λ remove. ⊥ };

    fn apply_in<D: Disk>(
        &self,
        tree: &mut Tree<D>,
        alloc: Global,
        from: u32,
        name: &Name,
    ) -> Asked<()> {
        let Some(bytes) = tree.directory(from)? else {
            return Ok(Err(Refusal::NotADirectory));
        };
        if !name.is_down() {
            return Ok(Err(Refusal::NotDown));
        }
        let Some(number) = lookup(bytes.as_slice(), name) else {
            return Ok(Err(Refusal::NotFound));
        };
        let number = u32::from(number);
        let Some(empty) = tree.emptiness(number)? else {
            return Ok(Err(Refusal::NotADirectory));
        };
        if !empty {
            return Ok(Err(Refusal::NotEmpty));
        }
        let links = tree.links_of(from)?;
        tree.dropped(alloc, from, bytes.as_slice(), name, number)?;
        // Its name for its parent is gone.
        tree.relinked(from, links - 1)?;
        Ok(Ok(()))
    }
}

impl<D: Disk> Tree<D> {
    /// Removes the directory at a path with its name, where nothing is in it but its own two entries.
    ///
    /// # Errors
    ///
    /// - `Path`: the bytes are no path; nothing was done.
    /// - `Refused`, with the files as they were: `NotFound`, `NotADirectory` and `IsRoot` for the path;
    ///   `NotADirectory` where the name leads to none, `NotEmpty` where something is in it; `NotDown`
    ///   where the last name is a directory's for itself or for its parent.
    /// - `Call`, `NoCall`: as every call of a tree.
    pub fn remove_directory(&mut self, alloc: Global, path: &[u8]) -> Result<(), TreeFault>
        requires ready { MayGoOn D.Disk self.old.kernel self.old.calls_left }
        ensures ready { MayGoOn D.Disk self.new.kernel self.new.calls_left }
        ensures done { IsReadyBehind D.Disk self.new.kernel self.new.calls_left result }
        ensures removes { IfOk result (λ done. RemovesDirectoryAt (names_of path.now) done
            (files_of (image_on D.image self.old.kernel))
            (files_of (image_on D.image self.new.kernel))) }
        ensures refused { IsReady D.Disk self.old.kernel self.old.calls_left → IfErr result
            (IsUndone D.Disk path.now
            (IsUndoneIn IsUnemptiedIn (names_of path.now)) self.old.kernel self.new.kernel) }
        ensures none { self.old.calls_left ≡ 0 → HasNoCallAt path.now self.old self.new result }
        ensures leaves { 0 < self.old.calls_left → LeavesTree D.Disk
            (RemovesDirectoryAt (names_of path.now)) self.old.kernel self.new.kernel }
        ensures stays { StaysOver D.Disk self.old.kernel self.new.kernel }
    {
        self.changed(
            alloc,
            path,
            &Last {
                change: RemoveDirectory,
            },
        )
    }

    // Whether nothing is in a directory, or none where the file is no directory.
    fn emptiness(&mut self, number: u32) -> Result<Option<bool>, TreeFault>
        requires way { IsUnderWay D.Disk self.old.kernel self.old.calls_left }
        requires tree { IsTree (files_seen D.image self.old.kernel) }
        ensures goes { Proceeds D.Disk result self.old.kernel self.new.kernel self.new.calls_left }
        ensures same { OnOk result (SeesSame D.image self.old.kernel self.new.kernel) }
        ensures found { IfOk result (IsEmptinessOf
            (files_seen D.image self.old.kernel) number) }
    {
        match self.directory(number)? {
            Some(bytes) => Ok(Some(is_empty(bytes.as_slice()))),
            None => Ok(None),
        }
    }
}
