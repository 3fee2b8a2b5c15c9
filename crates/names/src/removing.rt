// Files removed from a tree.
ghost use Rattle.std.specs.Prelude.{◌≡◌, ◌<◌, IfErr, IfOk, OnOk};
ghost use Rattle.calls.specs.Calls.{image_on};
ghost use Rattle.calls.specs.Stopped.{StaysOver};
ghost use Rattle.model.specs.Files.{files_of};
ghost use Rattle.names.specs.Inside.{files_seen, IsUnderWay, Proceeds, Never};
ghost use Rattle.directories.specs.Paths.{names_of};
ghost use Rattle.names.specs.Ready.{HasNoCallAt, IsReady, IsReadyBehind, IsUndone, LeavesTree, MayGoOn, TreeStays};
ghost use Rattle.names.specs.Removing.{IsUnremovedIn, KeepsLinks, MayDrop, MayLose, RemovesAt, RemovesIn};
ghost use Rattle.directories.specs.TreeChanges.{DropsName, UnlinksName};
ghost use Rattle.directories.specs.Trees.{IsTree};
ghost use Rattle.directories.specs.Walks.{IsUndoneIn};

use crate::changing::{ChangeIn, Last};
use crate::refusal::{Asked, TreeFault};
use crate::tree::Tree;
use blocks::Disk;
use directories::{Name, Refusal, lookup, unlink};
use model::types::Op;
use std::alloc::Global;

// Removes a file from a directory.
#[derive(Drop)]
pub(crate) struct RemoveFile;

impl ChangeIn for RemoveFile {
    type Made = ();

    ghost makes = { λ remove. RemovesIn };

    ghost refuses = { λ remove. IsUnremovedIn };

    ghost hinders = { λ remove. Never };

    ghost tells_full = { λ remove. ⊥ };

    fn apply_in<D: Disk>(
        &self,
        tree: &mut Tree<D>,
        alloc: Global,
        from: u32,
        name: &Name,
    ) -> Asked<()> {
        let Some(bytes) = tree.directory(from)? else {
            return Ok(Err(Refusal::NotADirectory));
        };
        let Some(number) = lookup(bytes.as_slice(), name) else {
            return Ok(Err(Refusal::NotFound));
        };
        let number = u32::from(number);
        if let Some(_other) = tree.directory(number)? {
            return Ok(Err(Refusal::IsADirectory));
        }
        let links = tree.links_of(number)?;
        if links > 1 {
            tree.unnamed(alloc, from, bytes.as_slice(), name, number, links - 1)?;
            return Ok(Ok(()));
        }
        tree.dropped(alloc, from, bytes.as_slice(), name, number)?;
        Ok(Ok(()))
    }
}

impl<D: Disk> Tree<D> {
    /// Removes the name at a path, and the file that it leads to where it is the last one that does. A
    /// directory is not removed so.
    ///
    /// # Errors
    ///
    /// - `Path`: the bytes are no path; nothing was done.
    /// - `Refused`, with the files as they were: `NotFound`, `NotADirectory` and `IsRoot` for the path;
    ///   `IsADirectory` where the name leads to one.
    /// - `Call`, `NoCall`: as every call of a tree.
    pub fn remove(&mut self, alloc: Global, path: &[u8]) -> Result<(), TreeFault>
        requires ready { MayGoOn D.Disk self.old.kernel self.old.calls_left }
        ensures ready { MayGoOn D.Disk self.new.kernel self.new.calls_left }
        ensures done { IsReadyBehind D.Disk self.new.kernel self.new.calls_left result }
        ensures removes { IfOk result (λ done. RemovesAt (names_of path.now) done
            (files_of (image_on D.image self.old.kernel))
            (files_of (image_on D.image self.new.kernel))) }
        ensures refused { IsReady D.Disk self.old.kernel self.old.calls_left → IfErr result
            (IsUndone D.Disk path.now
            (IsUndoneIn IsUnremovedIn (names_of path.now)) self.old.kernel self.new.kernel) }
        ensures none { self.old.calls_left ≡ 0 → HasNoCallAt path.now self.old self.new result }
        ensures leaves { 0 < self.old.calls_left → LeavesTree D.Disk (RemovesAt (names_of path.now))
            self.old.kernel self.new.kernel }
        ensures stays { StaysOver D.Disk self.old.kernel self.new.kernel }
    {
        self.changed(alloc, path, &Last { change: RemoveFile })
    }

    // Frees the entry of a name in a directory of those bytes, whose file has others and that count
    // then.
    fn unnamed(
        &mut self,
        alloc: Global,
        from: u32,
        bytes: &[u8],
        name: &Name,
        number: u32,
        left: u16,
    ) -> Result<(), TreeFault>
        requires way { IsUnderWay D.Disk self.old.kernel self.old.calls_left }
        requires tree { IsTree (files_seen D.image self.old.kernel) }
        requires loses { MayLose (files_seen D.image self.old.kernel)
            from bytes.now name.now number left }
        ensures goes { Proceeds D.Disk result self.old.kernel self.new.kernel self.new.calls_left }
        ensures tree { OnOk result (TreeStays D.image self.old.kernel self.new.kernel) }
        ensures loses { OnOk result (UnlinksName (files_seen D.image self.old.kernel)
            (files_seen D.image self.new.kernel) from name.now number) }
    {
        let Some(write) = unlink(bytes, name) else {
            // It leads to a number.
            unreachable!()
        };
        let _whole = self.entered(alloc, from, write)?;
        self.relinked(number, left)?;
        Ok(())
    }

    // Frees the entry of a file's only name in a directory of those bytes, and removes the file. The
    // directory's count stays, though one that is removed counted in it.
    pub(crate) fn dropped(
        &mut self,
        alloc: Global,
        from: u32,
        bytes: &[u8],
        name: &Name,
        number: u32,
    ) -> Result<(), TreeFault>
        requires way { IsUnderWay D.Disk self.old.kernel self.old.calls_left }
        requires tree { IsTree (files_seen D.image self.old.kernel) }
        requires drops { MayDrop (files_seen D.image self.old.kernel)
            from bytes.now name.now number }
        ensures goes { Proceeds D.Disk result self.old.kernel self.new.kernel self.new.calls_left }
        ensures drops { OnOk result (DropsName (files_seen D.image self.old.kernel)
            (files_seen D.image self.new.kernel) from name.now number) }
        ensures links { OnOk result (KeepsLinks from (files_seen D.image self.old.kernel)
            (files_seen D.image self.new.kernel)) }
    {
        let Some(write) = unlink(bytes, name) else {
            // It leads to a number.
            unreachable!()
        };
        let _whole = self.entered(alloc, from, write)?;
        let _done = self.called(Op::Remove(number))?;
        Ok(())
    }
}
