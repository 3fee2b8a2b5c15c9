// The bytes of the files of a tree that are no directories.
ghost use Rattle.std.specs.Prelude.{[], ◌≡◌, ◌↔◌, ◌<◌, IfErr, IfOk, IsTrue, OnOk};
ghost use Rattle.calls.specs.Calls.{image_on};
ghost use Rattle.calls.specs.Stopped.{StaysOver};
ghost use Rattle.model.specs.Files.{files_of};
ghost use Rattle.names.specs.Contents.{Empties, HasOnly, IsNoPlain, LeadsToNoPlain, Reads, ReadsOf};
ghost use Rattle.names.specs.Inside.{files_seen, IsUnderWay, Proceeds, SeesSame, Never};
ghost use Rattle.directories.specs.Paths.{names_of};
ghost use Rattle.names.specs.Ready.{Happens, HasNoCallAt, IsReady, IsReadyBehind, IsUndone, LeavesTree, MayGoOn, TreeStays};
ghost use Rattle.directories.specs.Trees.{IsDirectory, IsFile, IsTree};

use crate::changing::Change;
use crate::refusal::{Asked, TreeFault};
use crate::tree::Tree;
use blocks::Disk;
use directories::{DIRECTORY_KIND, Name, Refusal};
use model::content::Content;
use model::types::{Op, Reply, TRANSFER_LIMIT};
use std::alloc::Global;

// Reads the file at a path.
#[derive(Drop)]
struct ReadFile {
    offset: u32,
    count: u32,
}

impl Change for ReadFile {
    type Made = Content;

    ghost makes = { λ read form names. Reads names read.offset read.count };

    ghost refuses = { λ read. LeadsToNoPlain };

    ghost hinders = { λ read files. Never };

    ghost fills = { λ read made. ⊥ };

    ghost tells_full = { λ read. ⊥ };

    fn apply<D: Disk>(&self, tree: &mut Tree<D>, _alloc: Global, names: &[Name]) -> Asked<Content> {
        match tree.walk(names)? {
            Ok(number) => tree.read_of(number, self.offset, self.count),
            Err(refusal) => Ok(Err(refusal)),
        }
    }
}

// Takes the bytes of the file at a path from it.
#[derive(Drop)]
struct EmptyFile;

impl Change for EmptyFile {
    type Made = ();

    ghost makes = { λ empty form. Empties };

    ghost refuses = { λ empty. LeadsToNoPlain };

    ghost hinders = { λ empty files. Never };

    ghost fills = { λ empty made. ⊥ };

    ghost tells_full = { λ empty. ⊥ };

    fn apply<D: Disk>(&self, tree: &mut Tree<D>, _alloc: Global, names: &[Name]) -> Asked<()> {
        match tree.walk(names)? {
            Ok(number) => tree.emptied(number),
            Err(refusal) => Ok(Err(refusal)),
        }
    }
}

impl<D: Disk> Tree<D> {
    /// Takes the bytes of the file at a path from it: it has none then.
    ///
    /// # Errors
    ///
    /// - `Path`: the bytes are no path; nothing was done.
    /// - `Refused`: `NotFound` where a name of the path is not there, `NotADirectory` where a file on
    ///   it is none, `IsADirectory` where the path leads to one.
    /// - `Call`, `NoCall`: as every call of a tree.
    pub fn empty(&mut self, alloc: Global, path: &[u8]) -> Result<(), TreeFault>
        requires ready { MayGoOn D.Disk self.old.kernel self.old.calls_left }
        ensures ready { MayGoOn D.Disk self.new.kernel self.new.calls_left }
        ensures done { IsReadyBehind D.Disk self.new.kernel self.new.calls_left result }
        ensures empties { IfOk result (λ done. Empties (names_of path.now) done
            (files_of (image_on D.image self.old.kernel))
            (files_of (image_on D.image self.new.kernel))) }
        ensures refused { IsReady D.Disk self.old.kernel self.old.calls_left → IfErr result
            (IsUndone D.Disk path.now
            (LeadsToNoPlain (names_of path.now)) self.old.kernel self.new.kernel) }
        ensures none { self.old.calls_left ≡ 0 → HasNoCallAt path.now self.old self.new result }
        ensures leaves { 0 < self.old.calls_left → LeavesTree D.Disk (Empties (names_of path.now))
            self.old.kernel self.new.kernel }
        ensures stays { StaysOver D.Disk self.old.kernel self.new.kernel }
    {
        self.changed(alloc, path, &EmptyFile)
    }

    // Takes the bytes of the file of a number from it.
    pub(crate) fn emptied(&mut self, number: u32) -> Asked<()>
        requires way { IsUnderWay D.Disk self.old.kernel self.old.calls_left }
        requires tree { IsTree (files_seen D.image self.old.kernel) }
        requires there { IsFile (files_seen D.image self.old.kernel) number }
        ensures goes { Proceeds D.Disk result self.old.kernel self.new.kernel self.new.calls_left }
        ensures tree { OnOk result (TreeStays D.image self.old.kernel self.new.kernel) }
        ensures emptied { IfOk result (Happens (λ done. HasOnly number []) (IsNoPlain number)
            (files_seen D.image self.old.kernel) (files_seen D.image self.new.kernel)) }
    {
        if self.is_directory(number)? {
            return Ok(Err(Refusal::IsADirectory));
        }
        let _done = self.called(Op::Trunc(number))?;
        Ok(Ok(()))
    }

    /// The bytes of the file at a path from an offset on, up to its end, and no more than `count` or
    /// 3072. Behind the end there are none.
    ///
    /// # Errors
    ///
    /// - `Path`: the bytes are no path; nothing was done.
    /// - `Refused`: `NotFound` where a name of the path is not there, `NotADirectory` where a file on
    ///   it is none, `IsADirectory` where the path leads to one.
    /// - `Call`, `NoCall`: as every call of a tree.
    pub fn read(
        &mut self,
        alloc: Global,
        path: &[u8],
        offset: u32,
        count: u32,
    ) -> Result<Content, TreeFault>
        requires ready { MayGoOn D.Disk self.old.kernel self.old.calls_left }
        ensures ready { MayGoOn D.Disk self.new.kernel self.new.calls_left }
        ensures done { IsReadyBehind D.Disk self.new.kernel self.new.calls_left result }
        ensures reads { IfOk result (λ bytes. Reads (names_of path.now) offset count bytes
            (files_of (image_on D.image self.old.kernel))
            (files_of (image_on D.image self.new.kernel))) }
        ensures refused { IsReady D.Disk self.old.kernel self.old.calls_left → IfErr result
            (IsUndone D.Disk path.now
            (LeadsToNoPlain (names_of path.now)) self.old.kernel self.new.kernel) }
        ensures none { self.old.calls_left ≡ 0 → HasNoCallAt path.now self.old self.new result }
        ensures leaves { 0 < self.old.calls_left → LeavesTree D.Disk
            (Reads (names_of path.now) offset count) self.old.kernel self.new.kernel }
        ensures stays { StaysOver D.Disk self.old.kernel self.new.kernel }
    {
        self.changed(alloc, path, &ReadFile { offset, count })
    }

    // The bytes of the file of a number.
    pub(crate) fn read_of(&mut self, number: u32, offset: u32, count: u32) -> Asked<Content>
        requires way { IsUnderWay D.Disk self.old.kernel self.old.calls_left }
        requires there { IsFile (files_seen D.image self.old.kernel) number }
        ensures goes { Proceeds D.Disk result self.old.kernel self.new.kernel self.new.calls_left }
        ensures same { OnOk result (SeesSame D.image self.old.kernel self.new.kernel) }
        ensures read { IfOk result (Happens (ReadsOf number offset count) (IsNoPlain number)
            (files_seen D.image self.old.kernel) (files_seen D.image self.new.kernel)) }
    {
        if self.is_directory(number)? {
            return Ok(Err(Refusal::IsADirectory));
        }
        let most = count.min(TRANSFER_LIMIT);
        let Reply::Bytes(bytes) = self.called(Op::Read(number, offset, most))? else {
            // A file that is there can be read.
            unreachable!()
        };
        Ok(Ok(bytes))
    }

    // Whether the file of a number is a directory.
    pub(crate) fn is_directory(&mut self, number: u32) -> Result<bool, TreeFault>
        requires { IsUnderWay D.Disk self.old.kernel self.old.calls_left }
        ensures goes { Proceeds D.Disk result self.old.kernel self.new.kernel self.new.calls_left }
        ensures same { OnOk result (SeesSame D.image self.old.kernel self.new.kernel) }
        ensures told { IfOk result (λ is.
            IsTrue is ↔ IsDirectory (files_seen D.image self.old.kernel) number) }
    {
        let Reply::StatOf(kind, _links, _size) = self.called(Op::Stat(number))? else {
            return Ok(false);
        };
        Ok(kind == DIRECTORY_KIND)
    }
}
