// Files of a tree that get other names.
ghost use Rattle.std.specs.Prelude.{⊤, ◌≡◌, ◌≢◌, ◌<◌, IfErr, IfOk, OnOk};
ghost use Rattle.calls.specs.Calls.{image_on};
ghost use Rattle.calls.specs.Stopped.{StaysOver};
ghost use Rattle.model.specs.Files.{files_of};
ghost use Rattle.directories.specs.Counts.{AreCounted};
ghost use Rattle.names.specs.Inside.{files_seen, IsUnderWay, Proceeds, Never, TellsFull};
ghost use Rattle.directories.specs.Paths.{names_of};
ghost use Rattle.names.specs.Ready.{Happens, IsReady, IsReadyBehind, LeavesTree, MayGoOn, TreeStays};
ghost use Rattle.names.specs.Renaming.{HasNoCallAtBoth, IsUndoneAt, IsUndoneAtBoth, IsUnrenamed, Renames, RenamesAt};
ghost use Rattle.directories.specs.Trees.{IsTree};

use crate::changing::Change;
use crate::refusal::{Asked, TreeFault};
use crate::tree::Tree;
use blocks::Disk;
use directories::{Name, Refusal, link, lookup, names_of, unlink};
use std::alloc::Global;

// Gives the file at a path another name, the last of these, in the directory that the others lead to.
#[derive(Drop)]
struct RenameFile<'a> {
    into: &'a [Name],
}

impl<'a> Change for RenameFile<'a> {
    type Made = ();

    ghost makes = { λ rename form names. RenamesAt names rename.into.now };

    ghost refuses = { λ rename names. IsUndoneAt names rename.into.now };

    ghost hinders = { λ rename files. Never };

    ghost fills = { λ rename made. ⊥ };

    ghost tells_full = { λ rename. ⊤ };

    fn apply<D: Disk>(&self, tree: &mut Tree<D>, alloc: Global, names: &[Name]) -> Asked<()> {
        if names.is_empty() {
            return Ok(Err(Refusal::IsRoot));
        }
        if self.into.is_empty() {
            return Ok(Err(Refusal::IsRoot));
        }
        let last = names.len() - 1;
        let end = self.into.len() - 1;
        let from = match tree.walk(&names[..last])? {
            Ok(from) => from,
            Err(refusal) => return Ok(Err(refusal)),
        };
        let to = match tree.walk(&self.into[..end])? {
            Ok(to) => to,
            Err(refusal) => return Ok(Err(refusal)),
        };
        if from == to {
            tree.renamed(alloc, from, &names[last], &self.into[end])
        } else {
            tree.moved(alloc, from, &names[last], to, &self.into[end])
        }
    }
}

impl<D: Disk> Tree<D> {
    /// Gives the file at a path the name at another path, which is new in the directory that the names
    /// before it lead to. A directory goes with all that is in it.
    ///
    /// # Errors
    ///
    /// - `Path`: the bytes of one of the paths are none; nothing was done.
    /// - `Refused`, with the files as they were: `NotFound`, `NotADirectory` and `IsRoot` for the paths;
    ///   `NotDown` where the first one's last name is a directory's for itself or for its parent;
    ///   `Exists` where the second one's last name is there. In another directory also `IsInside`
    ///   where a directory would be in itself; `Full` where that one has no room for one more, and
    ///   `NoBlock` where the disk has none.
    /// - `Call`, `NoCall`: as every call of a tree.
    pub fn rename(&mut self, alloc: Global, path: &[u8], into: &[u8]) -> Result<(), TreeFault>
        requires ready { MayGoOn D.Disk self.old.kernel self.old.calls_left }
        ensures ready { MayGoOn D.Disk self.new.kernel self.new.calls_left }
        ensures done { IsReadyBehind D.Disk self.new.kernel self.new.calls_left result }
        ensures renames { IfOk result (λ done. RenamesAt (names_of path.now) (names_of into.now) done
            (files_of (image_on D.image self.old.kernel))
            (files_of (image_on D.image self.new.kernel))) }
        ensures refused { IsReady D.Disk self.old.kernel self.old.calls_left → IfErr result
            (IsUndoneAtBoth D.Disk path.now into.now
            (IsUndoneAt (names_of path.now) (names_of into.now)) self.old.kernel self.new.kernel) }
        ensures none { self.old.calls_left ≡ 0 → HasNoCallAtBoth path.now into.now self.old self.new result }
        ensures leaves { 0 < self.old.calls_left → LeavesTree D.Disk
            (RenamesAt (names_of path.now) (names_of into.now)) self.old.kernel self.new.kernel }
        ensures stays { StaysOver D.Disk self.old.kernel self.new.kernel }
        ensures no_block { IfErr result (TellsFull D.Disk self.old.kernel self.new.kernel) }
    {
        match names_of(alloc, into) {
            Ok(names) => {
                let rename = RenameFile {
                    into: names.as_slice(),
                };
                self.changed(alloc, path, &rename)
            }
            Err(fault) => {
                self.stands();
                Err(TreeFault::Path(fault))
            }
        }
    }

    // Gives a file another name in its directory. The old one is freed first, so there is room.
    pub(crate) fn renamed(&mut self, alloc: Global, from: u32, old: &Name, name: &Name) -> Asked<()>
        requires way { IsUnderWay D.Disk self.old.kernel self.old.calls_left }
        requires tree { IsTree (files_seen D.image self.old.kernel) }
        requires counted { AreCounted (files_seen D.image self.old.kernel) }
        ensures goes { Proceeds D.Disk result self.old.kernel self.new.kernel self.new.calls_left }
        ensures tree { OnOk result (TreeStays D.image self.old.kernel self.new.kernel) }
        ensures renamed { IfOk result (Happens (Renames from old.now from name.now)
            (λ files. IsUnrenamed files from old.now from name.now)
            (files_seen D.image self.old.kernel) (files_seen D.image self.new.kernel)) }
    {
        let Some(bytes) = self.directory(from)? else {
            return Ok(Err(Refusal::NotADirectory));
        };
        if !old.is_down() {
            return Ok(Err(Refusal::NotDown));
        }
        let Some(number) = lookup(bytes.as_slice(), old) else {
            return Ok(Err(Refusal::NotFound));
        };
        if let Some(_other) = lookup(bytes.as_slice(), name) {
            return Ok(Err(Refusal::Exists));
        }
        let Some(free) = unlink(bytes.as_slice(), old) else {
            // It leads to a number.
            unreachable!()
        };
        let _whole = self.entered(alloc, from, free)?;
        let bytes = self.tidy_directory(from)?;
        let Ok(write) = link(bytes.as_slice(), name, number) else {
            // An entry is free, and the name is new.
            unreachable!()
        };
        let _whole = self.entered(alloc, from, write)?;
        Ok(Ok(()))
    }
}
