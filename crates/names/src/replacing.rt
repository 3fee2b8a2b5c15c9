// Files of a tree that get other names in directories of given numbers, also such as another file has.
ghost use Rattle.std.specs.Prelude.{⊤, ◌≡◌, ◌<◌, IfErr, IfOk, OnOk};
ghost use Rattle.calls.specs.Calls.{image_on};
ghost use Rattle.calls.specs.Stopped.{StaysOver};
ghost use Rattle.model.specs.Files.{files_of};
ghost use Rattle.directories.specs.Counts.{AreCounted};
ghost use Rattle.names.specs.Inside.{files_seen, AnswersFull, IsUnderWay, Proceeds, SeesSame, Never, TellsFull};
ghost use Rattle.names.specs.Replacing.{Clears, HindersHalf, IsReplaceable, IsUncleared, IsUnreplaced, Replaces};
ghost use Rattle.names.specs.Ready.{Happens, HasNoCall, IsReady, IsReadyBehind, IsUnanswered, IsUnansweredOr, LeavesTree, MayGoOn, TreeStays};
ghost use Rattle.names.specs.Renaming.{IsUnrenamed, Renames};
ghost use Rattle.directories.specs.Trees.{IsTree};

use crate::changing::{Change, ChangeIn};
use crate::refusal::{Asked, TreeFault};
use crate::removing::RemoveFile;
use crate::tree::Tree;
use blocks::Disk;
use directories::{DIRECTORY, Name, Refusal};
use std::alloc::Global;

// Gives a file of a directory a name in another one, which is new there.
#[derive(Drop)]
struct RenameIn<'a> {
    from: u32,
    old: &'a Name,
    to: u32,
    name: &'a Name,
}

impl<'a> Change for RenameIn<'a> {
    type Made = ();

    ghost makes = { λ rename form names. Renames rename.from rename.old.now rename.to rename.name.now };

    ghost refuses = { λ rename names files.
        IsUnrenamed files rename.from rename.old.now rename.to rename.name.now };

    ghost hinders = { λ rename files. Never };

    ghost fills = { λ rename made. ⊥ };

    ghost tells_full = { λ rename. ⊤ };

    fn apply<D: Disk>(&self, tree: &mut Tree<D>, alloc: Global, _names: &[Name]) -> Asked<()> {
        tree.renamed_in(alloc, self.from, self.old, self.to, self.name)
    }
}

// Gives a file the name that another one has. That one is removed or, where it keeps a name, gets the
// one aside in the root.
#[derive(Drop)]
struct Replace<'a> {
    from: u32,
    old: &'a Name,
    to: u32,
    name: &'a Name,
    aside: &'a Name,
    keeps: bool,
}

impl<'a> Change for Replace<'a> {
    type Made = ();

    ghost makes = { λ r form names. Replaces r.from r.old.now r.to r.name.now r.aside.now r.keeps };

    ghost refuses = { λ r names. IsUnreplaced r.from r.old.now r.to r.name.now r.aside.now r.keeps };

    ghost hinders = { λ r. HindersHalf r.from r.old.now r.to r.name.now r.aside.now r.keeps };

    ghost fills = { λ r made. ⊥ };

    ghost tells_full = { λ r. ⊤ };

    fn apply<D: Disk>(&self, tree: &mut Tree<D>, alloc: Global, _names: &[Name]) -> Asked<()> {
        match tree.replaceable(self.from, self.old, self.to, self.name)? {
            Err(refusal) => Ok(Err(refusal)),
            Ok(true) => Ok(Ok(())),
            Ok(false) => {
                if let Err(refusal) = tree.cleared(
                    alloc, self.to, self.name, self.aside, self.keeps,
                )? {
                    return Ok(Err(refusal));
                }
                let Ok(()) = tree.renamed_in(alloc, self.from, self.old, self.to, self.name)? else {
                    // What was done is never committed.
                    tree.calls_left = 0;
                    return Err(TreeFault::NoCall);
                };
                Ok(Ok(()))
            }
        }
    }
}

impl<D: Disk> Tree<D> {
    // Gives a file of a directory a name in the same or in another one.
    fn renamed_in(
        &mut self,
        alloc: Global,
        from: u32,
        old: &Name,
        to: u32,
        name: &Name,
    ) -> Asked<()>
        requires way { IsUnderWay D.Disk self.old.kernel self.old.calls_left }
        requires tree { IsTree (files_seen D.image self.old.kernel) }
        requires counted { AreCounted (files_seen D.image self.old.kernel) }
        ensures goes { Proceeds D.Disk result self.old.kernel self.new.kernel self.new.calls_left }
        ensures tree { OnOk result (TreeStays D.image self.old.kernel self.new.kernel) }
        ensures renamed { IfOk result (Happens (Renames from old.now to name.now)
            (λ files. IsUnrenamed files from old.now to name.now)
            (files_seen D.image self.old.kernel) (files_seen D.image self.new.kernel)) }
        ensures no_block { IfOk result (AnswersFull D.Disk self.old.kernel self.new.kernel) }
    {
        if from == to {
            self.renamed(alloc, from, old, name)
        } else {
            self.moved(alloc, from, old, to, name)
        }
    }

    // Whether two names lead to one file. They lead down, and neither of two files is a directory.
    fn replaceable(&mut self, from: u32, old: &Name, to: u32, name: &Name) -> Asked<bool>
        requires way { IsUnderWay D.Disk self.old.kernel self.old.calls_left }
        requires tree { IsTree (files_seen D.image self.old.kernel) }
        ensures goes { Proceeds D.Disk result self.old.kernel self.new.kernel self.new.calls_left }
        ensures same { OnOk result (SeesSame D.image self.old.kernel self.new.kernel) }
        ensures told { IfOk result (IsReplaceable from old.now to name.now
            (files_seen D.image self.old.kernel)) }
    {
        if !old.is_down() {
            return Ok(Err(Refusal::NotDown));
        }
        if !name.is_down() {
            return Ok(Err(Refusal::NotDown));
        }
        let number = match self.step(from, old)? {
            Ok(number) => number,
            Err(refusal) => return Ok(Err(refusal)),
        };
        let other = match self.step(to, name)? {
            Ok(number) => number,
            Err(refusal) => return Ok(Err(refusal)),
        };
        if number == other {
            return Ok(Ok(true));
        }
        if self.is_directory(number)? {
            return Ok(Err(Refusal::IsADirectory));
        }
        if self.is_directory(other)? {
            return Ok(Err(Refusal::IsADirectory));
        }
        Ok(Ok(false))
    }

    // Takes a name from the file that has it, which is removed, or gets a name aside in the root.
    fn cleared(
        &mut self,
        alloc: Global,
        to: u32,
        name: &Name,
        aside: &Name,
        keeps: bool,
    ) -> Asked<()>
        requires way { IsUnderWay D.Disk self.old.kernel self.old.calls_left }
        requires tree { IsTree (files_seen D.image self.old.kernel) }
        requires counted { AreCounted (files_seen D.image self.old.kernel) }
        ensures goes { Proceeds D.Disk result self.old.kernel self.new.kernel self.new.calls_left }
        ensures tree { OnOk result (TreeStays D.image self.old.kernel self.new.kernel) }
        ensures cleared { IfOk result (Happens (Clears to name.now aside.now keeps)
            (IsUncleared to name.now aside.now keeps)
            (files_seen D.image self.old.kernel) (files_seen D.image self.new.kernel)) }
        ensures no_block { IfOk result (AnswersFull D.Disk self.old.kernel self.new.kernel) }
    {
        if keeps {
            self.renamed_in(alloc, to, name, DIRECTORY, aside)
        } else {
            RemoveFile.apply_in(self, alloc, to, name)
        }
    }

    /// Gives a file of a directory a name in the same or in another one, which is new there. A directory
    /// goes with all that is in it.
    ///
    /// # Errors
    ///
    /// - `Refused`, with the files as they were: `NotADirectory` where one of the numbers is that of none;
    ///   `NotFound` where the old name is not there, `NotDown` where it is a directory's for itself or for
    ///   its parent; `Exists` where the new one is there. In another directory also `IsInside` where a
    ///   directory would be in itself, `Full` where it has no room, `NoBlock` where the disk has none.
    /// - `Call`, `NoCall`: as every call of a tree.
    pub fn rename_in(
        &mut self,
        alloc: Global,
        from: u32,
        old: &Name,
        to: u32,
        name: &Name,
    ) -> Result<(), TreeFault>
        requires ready { MayGoOn D.Disk self.old.kernel self.old.calls_left }
        ensures ready { MayGoOn D.Disk self.new.kernel self.new.calls_left }
        ensures done { IsReadyBehind D.Disk self.new.kernel self.new.calls_left result }
        ensures renames { IfOk result (λ done. Renames from old.now to name.now done
            (files_of (image_on D.image self.old.kernel))
            (files_of (image_on D.image self.new.kernel))) }
        ensures refused { IsReady D.Disk self.old.kernel self.old.calls_left → IfErr result
            (IsUnanswered D.Disk
            (λ files. IsUnrenamed files from old.now to name.now) self.old.kernel self.new.kernel) }
        ensures none { self.old.calls_left ≡ 0 → HasNoCall self.old self.new result }
        ensures leaves { 0 < self.old.calls_left → LeavesTree D.Disk
            (Renames from old.now to name.now) self.old.kernel self.new.kernel }
        ensures stays { StaysOver D.Disk self.old.kernel self.new.kernel }
        ensures no_block { IfErr result (TellsFull D.Disk self.old.kernel self.new.kernel) }
    {
        let rename = RenameIn {
            from,
            old,
            to,
            name,
        };
        self.changed_at(alloc, &[], &rename)
    }

    /// Gives a file of a directory the name that another one has in the same or another directory. That
    /// one is removed or, where it `keeps` a name, gets the one aside in the root. A stop keeps all of it
    /// or nothing. Where both names lead to one file, nothing is done.
    ///
    /// # Errors
    ///
    /// - `Refused`, with the files as they were: `NotDown` where a name is a directory's for itself or for
    ///   its parent, `NotADirectory` and `NotFound` where one leads nowhere, `IsADirectory` where one of
    ///   the files is one; and what hinders that the other file is removed or renamed.
    /// - `Call`, `NoCall`: as every call of a tree. `NoCall` also where the other file lost its name and
    ///   this one may not get it: nothing of that is kept.
    pub fn replace_in(
        &mut self,
        alloc: Global,
        from: u32,
        old: &Name,
        to: u32,
        name: &Name,
        aside: &Name,
        keeps: bool,
    ) -> Result<(), TreeFault>
        requires ready { MayGoOn D.Disk self.old.kernel self.old.calls_left }
        ensures ready { MayGoOn D.Disk self.new.kernel self.new.calls_left }
        ensures done { IsReadyBehind D.Disk self.new.kernel self.new.calls_left result }
        ensures replaces { IfOk result (λ done.
            Replaces from old.now to name.now aside.now keeps done
            (files_of (image_on D.image self.old.kernel))
            (files_of (image_on D.image self.new.kernel))) }
        ensures refused { IsReady D.Disk self.old.kernel self.old.calls_left → IfErr result
            (IsUnansweredOr (HindersHalf from old.now to name.now aside.now keeps
            (files_of (image_on D.image self.old.kernel))) D.Disk
            (IsUnreplaced from old.now to name.now aside.now keeps)
            self.old.kernel self.new.kernel) }
        ensures none { self.old.calls_left ≡ 0 → HasNoCall self.old self.new result }
        ensures leaves { 0 < self.old.calls_left → LeavesTree D.Disk
            (Replaces from old.now to name.now aside.now keeps) self.old.kernel self.new.kernel }
        ensures stays { StaysOver D.Disk self.old.kernel self.new.kernel }
        ensures no_block { IfErr result (TellsFull D.Disk self.old.kernel self.new.kernel) }
    {
        let replace = Replace {
            from,
            old,
            to,
            name,
            aside,
            keeps,
        };
        self.changed_at(alloc, &[], &replace)
    }
}
