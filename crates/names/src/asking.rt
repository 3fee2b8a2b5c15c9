// Questions to a tree, each in a transaction of its own that changes nothing.
ghost use Rattle.std.specs.Prelude.{◌≡◌, ◌<◌, IfErr, IfOk, OnOk};
ghost use Rattle.calls.specs.Calls.{image_on};
ghost use Rattle.calls.specs.Stopped.{StaysOver};
ghost use Rattle.model.specs.Files.{files_of};
ghost use Rattle.names.specs.Inside.{files_seen, IsUnderWay, Proceeds, SeesSame, Never};
ghost use Rattle.names.specs.Looks.{IsFound, Looks};
ghost use Rattle.directories.specs.Paths.{names_of};
ghost use Rattle.names.specs.Ready.{HasNoCallAt, IsReady, IsReadyBehind, IsUndone, LeavesTree, MayGoOn};
ghost use Rattle.directories.specs.Trees.{IsFile};
ghost use Rattle.directories.specs.Walks.{Finds, IsUnfound, IsUnlisted, Lists};

use crate::changing::Change;
use crate::refusal::{Asked, TreeFault};
use crate::tree::Tree;
use blocks::Disk;
use directories::{Name, Refusal};
use model::content::Content;
use model::types::{Op, Reply};
use std::alloc::Global;

/// What a file is.
#[derive(Clone, Copy, Debug, PartialEq, Eq)]
pub struct Found {
    /// Its inode's number.
    pub number: u32,
    /// Its type: 1 for a directory, 2 for a file of bytes, 3 for a device.
    pub kind: u16,
    /// How many names lead to it, as its count of links says: of a directory its own name, or the root's
    /// for its parent, and one for each directory in it.
    pub links: u16,
    /// How many bytes it has.
    pub size: u32,
}

// Finds the file at a path.
#[derive(Drop)]
struct FindFile;

impl Change for FindFile {
    type Made = u32;

    ghost makes = { λ find form. Finds };

    ghost refuses = { λ find. IsUnfound };

    ghost hinders = { λ find files. Never };

    ghost fills = { λ find made. ⊥ };

    ghost tells_full = { λ find. ⊥ };

    fn apply<D: Disk>(&self, tree: &mut Tree<D>, _alloc: Global, names: &[Name]) -> Asked<u32> {
        tree.walk(names)
    }
}

// Looks at the file at a path.
#[derive(Drop)]
struct LookAtFile;

impl Change for LookAtFile {
    type Made = Found;

    ghost makes = { λ look form. Looks };

    ghost refuses = { λ look. IsUnfound };

    ghost hinders = { λ look files. Never };

    ghost fills = { λ look made. ⊥ };

    ghost tells_full = { λ look. ⊥ };

    fn apply<D: Disk>(&self, tree: &mut Tree<D>, _alloc: Global, names: &[Name]) -> Asked<Found> {
        match tree.walk(names)? {
            Ok(number) => {
                let found = tree.found(number)?;
                Ok(Ok(found))
            }
            Err(refusal) => Ok(Err(refusal)),
        }
    }
}

// Reads the directory at a path.
#[derive(Drop)]
struct ListDirectory;

impl Change for ListDirectory {
    type Made = Content;

    ghost makes = { λ list form. Lists };

    ghost refuses = { λ list. IsUnlisted };

    ghost hinders = { λ list files. Never };

    ghost fills = { λ list made. ⊥ };

    ghost tells_full = { λ list. ⊥ };

    fn apply<D: Disk>(&self, tree: &mut Tree<D>, _alloc: Global, names: &[Name]) -> Asked<Content> {
        match tree.walk(names)? {
            Ok(number) => match tree.directory(number)? {
                Some(bytes) => Ok(Ok(bytes)),
                None => Ok(Err(Refusal::NotADirectory)),
            },
            Err(refusal) => Ok(Err(refusal)),
        }
    }
}

impl<D: Disk> Tree<D> {
    /// The number of the file at a path.
    ///
    /// # Errors
    ///
    /// - `Path`: the bytes are no path; nothing was done.
    /// - `Refused`: `NotFound` where a name of the path is not there, `NotADirectory` where a file on
    ///   it is none.
    /// - `Call`, `NoCall`: as every call of a tree.
    pub fn lookup(&mut self, alloc: Global, path: &[u8]) -> Result<u32, TreeFault>
        requires ready { MayGoOn D.Disk self.old.kernel self.old.calls_left }
        ensures ready { MayGoOn D.Disk self.new.kernel self.new.calls_left }
        ensures done { IsReadyBehind D.Disk self.new.kernel self.new.calls_left result }
        ensures finds { IfOk result (λ number. Finds (names_of path.now) number
            (files_of (image_on D.image self.old.kernel))
            (files_of (image_on D.image self.new.kernel))) }
        ensures refused { IsReady D.Disk self.old.kernel self.old.calls_left → IfErr result
            (IsUndone D.Disk path.now (IsUnfound (names_of path.now))
            self.old.kernel self.new.kernel) }
        ensures none { self.old.calls_left ≡ 0 → HasNoCallAt path.now self.old self.new result }
        ensures leaves { 0 < self.old.calls_left → LeavesTree D.Disk (Finds (names_of path.now))
            self.old.kernel self.new.kernel }
        ensures stays { StaysOver D.Disk self.old.kernel self.new.kernel }
    {
        self.changed(alloc, path, &FindFile)
    }

    /// What the file at a path is: its number, its type, its links and its length.
    ///
    /// # Errors
    ///
    /// - `Path`: the bytes are no path; nothing was done.
    /// - `Refused`: `NotFound` where a name of the path is not there, `NotADirectory` where a file on
    ///   it is none.
    /// - `Call`, `NoCall`: as every call of a tree.
    pub fn look(&mut self, alloc: Global, path: &[u8]) -> Result<Found, TreeFault>
        requires ready { MayGoOn D.Disk self.old.kernel self.old.calls_left }
        ensures ready { MayGoOn D.Disk self.new.kernel self.new.calls_left }
        ensures done { IsReadyBehind D.Disk self.new.kernel self.new.calls_left result }
        ensures looks { IfOk result (λ found. Looks (names_of path.now) found
            (files_of (image_on D.image self.old.kernel))
            (files_of (image_on D.image self.new.kernel))) }
        ensures refused { IsReady D.Disk self.old.kernel self.old.calls_left → IfErr result
            (IsUndone D.Disk path.now (IsUnfound (names_of path.now))
            self.old.kernel self.new.kernel) }
        ensures none { self.old.calls_left ≡ 0 → HasNoCallAt path.now self.old self.new result }
        ensures leaves { 0 < self.old.calls_left → LeavesTree D.Disk (Looks (names_of path.now))
            self.old.kernel self.new.kernel }
        ensures stays { StaysOver D.Disk self.old.kernel self.new.kernel }
    {
        self.changed(alloc, path, &LookAtFile)
    }

    // What the file of a number is.
    pub(crate) fn found(&mut self, number: u32) -> Result<Found, TreeFault>
        requires way { IsUnderWay D.Disk self.old.kernel self.old.calls_left }
        requires there { IsFile (files_seen D.image self.old.kernel) number }
        ensures goes { Proceeds D.Disk result self.old.kernel self.new.kernel self.new.calls_left }
        ensures same { OnOk result (SeesSame D.image self.old.kernel self.new.kernel) }
        ensures found { IfOk result (IsFound (files_seen D.image self.old.kernel) number) }
    {
        let Reply::StatOf(kind, links, size) = self.called(Op::Stat(number))? else {
            // A file that is there can be looked at.
            unreachable!()
        };
        Ok(Found {
            number,
            kind,
            links,
            size,
        })
    }

    /// The bytes of the directory at a path: entries of sixteen bytes, the number of a file with the
    /// lowest byte first and its name with zeroes behind it; a number 0 means that the entry is free.
    ///
    /// # Errors
    ///
    /// - `Path`: the bytes are no path; nothing was done.
    /// - `Refused`: `NotFound` where a name of the path is not there, `NotADirectory` where a file on
    ///   it, or the one that it leads to, is none.
    /// - `Call`, `NoCall`: as every call of a tree.
    pub fn list(&mut self, alloc: Global, path: &[u8]) -> Result<Content, TreeFault>
        requires ready { MayGoOn D.Disk self.old.kernel self.old.calls_left }
        ensures ready { MayGoOn D.Disk self.new.kernel self.new.calls_left }
        ensures done { IsReadyBehind D.Disk self.new.kernel self.new.calls_left result }
        ensures lists { IfOk result (λ bytes. Lists (names_of path.now) bytes
            (files_of (image_on D.image self.old.kernel))
            (files_of (image_on D.image self.new.kernel))) }
        ensures refused { IsReady D.Disk self.old.kernel self.old.calls_left → IfErr result
            (IsUndone D.Disk path.now (IsUnlisted (names_of path.now))
            self.old.kernel self.new.kernel) }
        ensures none { self.old.calls_left ≡ 0 → HasNoCallAt path.now self.old self.new result }
        ensures leaves { 0 < self.old.calls_left → LeavesTree D.Disk (Lists (names_of path.now))
            self.old.kernel self.new.kernel }
        ensures stays { StaysOver D.Disk self.old.kernel self.new.kernel }
    {
        self.changed(alloc, path, &ListDirectory)
    }
}
