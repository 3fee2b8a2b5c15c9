// Changes of a tree by the number of a file, or at a name in the directory of a number.
ghost use Rattle.std.specs.Prelude.{◌≡◌, ◌<◌, IfErr, IfOk, OnOk};
ghost use Rattle.calls.specs.Calls.{image_on};
ghost use Rattle.calls.specs.Stopped.{StaysOver};
ghost use Rattle.model.specs.Files.{files_of};
ghost use Rattle.names.specs.Contents.{IsNoPlain};
ghost use Rattle.names.specs.Inside.{files_seen, form_seen, FillsUp, IsUnderWay, Proceeds, Never, TellsFull};
ghost use Rattle.names.specs.Making.{IsUnmadeDirectoryIn, IsUnmadeIn, MakesDirectoryIn, MakesIn};
ghost use Rattle.names.specs.Numbered.{EmptiesAt, IsNoFileOrDirectory, IsPart, WritesSome, WritesSomeOf, some_told};
ghost use Rattle.names.specs.Ready.{Happens, HasNoCall, IsReady, IsReadyBehind, IsUnanswered, LeavesTree, MayGoOn, TreeStays};
ghost use Rattle.names.specs.Removing.{IsUnremovedIn, RemovesIn};
ghost use Rattle.directories.specs.Trees.{IsFile, IsTree};
ghost use Rattle.names.specs.Undirecting.{IsUnemptiedIn, RemovesDirectoryIn};

use crate::changing::{Change, ChangeIn};
use crate::directing::NewDirectory;
use crate::making::{Make, NewFile};
use crate::refusal::{Asked, TreeFault};
use crate::removing::RemoveFile;
use crate::tree::Tree;
use crate::undirecting::RemoveDirectory;
use crate::writing::Unwritten;
use blocks::Disk;
use calls::transactions::TransactionFault;
use directories::{Name, Refusal};
use model::content::Content;
use model::types::{Op, Reply};
use std::alloc::Global;

// A change at a name in the directory of a number.
#[derive(Drop)]
struct At<'a, C> {
    from: u32,
    name: &'a Name,
    change: C,
}

impl<'a, C: ChangeIn> Change for At<'a, C> {
    type Made = C::Made;

    ghost makes = { λ at form names. C.makes at.change at.from at.name.now };

    ghost refuses = { λ at names files. C.refuses at.change files at.from at.name.now };

    ghost hinders = { λ at files. C.hinders at.change };

    ghost fills = { λ at made. ⊥ };

    ghost tells_full = { λ at. C.tells_full at.change };

    fn apply<D: Disk>(&self, tree: &mut Tree<D>, alloc: Global, _names: &[Name]) -> Asked<C::Made> {
        self.change.apply_in(tree, alloc, self.from, self.name)
    }
}

// Takes the bytes of the file of a number from it.
#[derive(Drop)]
struct EmptyAt {
    number: u32,
}

impl Change for EmptyAt {
    type Made = ();

    ghost makes = { λ empty form names. EmptiesAt empty.number };

    ghost refuses = { λ empty names. IsNoFileOrDirectory empty.number };

    ghost hinders = { λ empty files. Never };

    ghost fills = { λ empty made. ⊥ };

    ghost tells_full = { λ empty. ⊥ };

    fn apply<D: Disk>(&self, tree: &mut Tree<D>, _alloc: Global, _names: &[Name]) -> Asked<()> {
        match tree.seen(self.number)? {
            Ok(_found) => tree.emptied(self.number),
            Err(refusal) => Ok(Err(refusal)),
        }
    }
}

// Writes bytes into the file of a number: as many as there is room for.
#[derive(Drop)]
struct WriteAt<'a> {
    number: u32,
    offset: u32,
    bytes: &'a [u8],
}

impl<'a> Change for WriteAt<'a> {
    type Made = Result<u32, Unwritten>;

    ghost makes = { λ write form names. WritesSomeOf form write.number write.offset write.bytes.now };

    ghost refuses = { λ write names. IsNoFileOrDirectory write.number };

    ghost hinders = { λ write files. Never };

    ghost fills = { λ write. IsPart write.bytes.now };

    ghost tells_full = { λ write. ⊥ };

    fn apply<D: Disk>(
        &self,
        tree: &mut Tree<D>,
        alloc: Global,
        _names: &[Name],
    ) -> Asked<Result<u32, Unwritten>> {
        match tree.seen(self.number)? {
            Ok(_found) => tree.wrote_of(alloc, self.number, self.offset, self.bytes),
            Err(refusal) => Ok(Err(refusal)),
        }
    }
}

impl<D: Disk> Tree<D> {
    /// Takes the bytes of the file of a number from it: it has none then.
    ///
    /// # Errors
    ///
    /// - `Refused`: `NotFound` where there is no such file, `IsADirectory` where it is one.
    /// - `Call`, `NoCall`: as every call of a tree.
    pub fn empty_at(&mut self, alloc: Global, number: u32) -> Result<(), TreeFault>
        requires ready { MayGoOn D.Disk self.old.kernel self.old.calls_left }
        ensures ready { MayGoOn D.Disk self.new.kernel self.new.calls_left }
        ensures done { IsReadyBehind D.Disk self.new.kernel self.new.calls_left result }
        ensures empties { IfOk result (λ done. EmptiesAt number done
            (files_of (image_on D.image self.old.kernel))
            (files_of (image_on D.image self.new.kernel))) }
        ensures refused { IsReady D.Disk self.old.kernel self.old.calls_left → IfErr result
            (IsUnanswered D.Disk (IsNoFileOrDirectory number)
            self.old.kernel self.new.kernel) }
        ensures none { self.old.calls_left ≡ 0 → HasNoCall self.old self.new result }
        ensures leaves { 0 < self.old.calls_left → LeavesTree D.Disk (EmptiesAt number)
            self.old.kernel self.new.kernel }
        ensures stays { StaysOver D.Disk self.old.kernel self.new.kernel }
    {
        self.changed_at(alloc, &[], &EmptyAt { number })
    }

    /// Writes bytes into the file of a number from an offset on, 3072 at most. How many were written:
    /// fewer where no block is free for more. Or why a kernel refuses it.
    ///
    /// # Errors
    ///
    /// - `Refused`: `NotFound` where there is no such file, `IsADirectory` where it is one.
    /// - `Call`, `NoCall`: as every call of a tree.
    pub fn write_at(
        &mut self,
        alloc: Global,
        number: u32,
        offset: u32,
        bytes: &[u8],
    ) -> Result<Result<u32, Unwritten>, TreeFault>
        requires ready { MayGoOn D.Disk self.old.kernel self.old.calls_left }
        ensures ready { MayGoOn D.Disk self.new.kernel self.new.calls_left }
        ensures done { IsReadyBehind D.Disk self.new.kernel self.new.calls_left result }
        ensures writes { IfOk result (WritesSome D.Disk number offset bytes.now
            self.old.kernel self.new.kernel) }
        ensures refused { IsReady D.Disk self.old.kernel self.old.calls_left → IfErr result
            (IsUnanswered D.Disk (IsNoFileOrDirectory number)
            self.old.kernel self.new.kernel) }
        ensures none { self.old.calls_left ≡ 0 → HasNoCall self.old self.new result }
        ensures leaves { 0 < self.old.calls_left → LeavesTree D.Disk
            (WritesSomeOf (form_seen D.image self.old.kernel) number offset bytes.now)
            self.old.kernel self.new.kernel }
        ensures stays { StaysOver D.Disk self.old.kernel self.new.kernel }
    {
        self.changed_at(
            alloc,
            &[],
            &WriteAt {
                number,
                offset,
                bytes,
            },
        )
    }

    /// Makes an empty file under a new name in the directory of a number. Its number.
    ///
    /// # Errors
    ///
    /// - `Refused`, with the files as they were: `NotADirectory` where the number is that of none,
    ///   `Exists` where the name is there, `Full`, `NoNumber` and `NoBlock` where there is no room.
    /// - `Call`, `NoCall`: as every call of a tree.
    pub fn make_in(&mut self, alloc: Global, from: u32, name: &Name) -> Result<u16, TreeFault>
        requires ready { MayGoOn D.Disk self.old.kernel self.old.calls_left }
        ensures ready { MayGoOn D.Disk self.new.kernel self.new.calls_left }
        ensures done { IsReadyBehind D.Disk self.new.kernel self.new.calls_left result }
        ensures makes { IfOk result (λ number. MakesIn from name.now number
            (files_of (image_on D.image self.old.kernel))
            (files_of (image_on D.image self.new.kernel))) }
        ensures refused { IsReady D.Disk self.old.kernel self.old.calls_left → IfErr result
            (IsUnanswered D.Disk
            (λ files. IsUnmadeIn files from name.now) self.old.kernel self.new.kernel) }
        ensures none { self.old.calls_left ≡ 0 → HasNoCall self.old self.new result }
        ensures leaves { 0 < self.old.calls_left → LeavesTree D.Disk (MakesIn from name.now)
            self.old.kernel self.new.kernel }
        ensures stays { StaysOver D.Disk self.old.kernel self.new.kernel }
        ensures no_block { IfErr result (TellsFull D.Disk self.old.kernel self.new.kernel) }
    {
        let change = Make { kind: NewFile };
        self.changed_at(alloc, &[], &At { from, name, change })
    }

    /// Makes a directory under a new name in the directory of a number. Its number.
    ///
    /// # Errors
    ///
    /// As those of `make_in`, and `TooManyLinks` where the count of the other directory is the greatest.
    pub fn make_directory_in(
        &mut self,
        alloc: Global,
        from: u32,
        name: &Name,
    ) -> Result<u16, TreeFault>
        requires ready { MayGoOn D.Disk self.old.kernel self.old.calls_left }
        ensures ready { MayGoOn D.Disk self.new.kernel self.new.calls_left }
        ensures done { IsReadyBehind D.Disk self.new.kernel self.new.calls_left result }
        ensures makes { IfOk result (λ number. MakesDirectoryIn from name.now number
            (files_of (image_on D.image self.old.kernel))
            (files_of (image_on D.image self.new.kernel))) }
        ensures refused { IsReady D.Disk self.old.kernel self.old.calls_left → IfErr result
            (IsUnanswered D.Disk
            (λ files. IsUnmadeDirectoryIn files from name.now) self.old.kernel self.new.kernel) }
        ensures none { self.old.calls_left ≡ 0 → HasNoCall self.old self.new result }
        ensures leaves { 0 < self.old.calls_left → LeavesTree D.Disk
            (MakesDirectoryIn from name.now) self.old.kernel self.new.kernel }
        ensures stays { StaysOver D.Disk self.old.kernel self.new.kernel }
        ensures no_block { IfErr result (TellsFull D.Disk self.old.kernel self.new.kernel) }
    {
        let change = Make { kind: NewDirectory };
        self.changed_at(alloc, &[], &At { from, name, change })
    }

    /// Removes a name in the directory of a number, and the file that it leads to where it is the last
    /// one that does. A directory is not removed so.
    ///
    /// # Errors
    ///
    /// - `Refused`, with the files as they were: `NotADirectory` where the number is that of none,
    ///   `NotFound` where the name is not there, `IsADirectory` where it leads to one.
    /// - `Call`, `NoCall`: as every call of a tree.
    pub fn remove_in(&mut self, alloc: Global, from: u32, name: &Name) -> Result<(), TreeFault>
        requires ready { MayGoOn D.Disk self.old.kernel self.old.calls_left }
        ensures ready { MayGoOn D.Disk self.new.kernel self.new.calls_left }
        ensures done { IsReadyBehind D.Disk self.new.kernel self.new.calls_left result }
        ensures removes { IfOk result (λ done. RemovesIn from name.now done
            (files_of (image_on D.image self.old.kernel))
            (files_of (image_on D.image self.new.kernel))) }
        ensures refused { IsReady D.Disk self.old.kernel self.old.calls_left → IfErr result
            (IsUnanswered D.Disk
            (λ files. IsUnremovedIn files from name.now) self.old.kernel self.new.kernel) }
        ensures none { self.old.calls_left ≡ 0 → HasNoCall self.old self.new result }
        ensures leaves { 0 < self.old.calls_left → LeavesTree D.Disk (RemovesIn from name.now)
            self.old.kernel self.new.kernel }
        ensures stays { StaysOver D.Disk self.old.kernel self.new.kernel }
    {
        let change = RemoveFile;
        self.changed_at(alloc, &[], &At { from, name, change })
    }

    /// Removes an empty directory with its name in the directory of a number.
    ///
    /// # Errors
    ///
    /// - `Refused`, with the files as they were: `NotADirectory` where the number, or the name, leads to
    ///   none, `NotFound` where the name is not there, `NotEmpty` where something is in it, `NotDown`
    ///   where the name is a directory's for itself or for its parent.
    /// - `Call`, `NoCall`: as every call of a tree.
    pub fn remove_directory_in(
        &mut self,
        alloc: Global,
        from: u32,
        name: &Name,
    ) -> Result<(), TreeFault>
        requires ready { MayGoOn D.Disk self.old.kernel self.old.calls_left }
        ensures ready { MayGoOn D.Disk self.new.kernel self.new.calls_left }
        ensures done { IsReadyBehind D.Disk self.new.kernel self.new.calls_left result }
        ensures removes { IfOk result (λ done. RemovesDirectoryIn from name.now done
            (files_of (image_on D.image self.old.kernel))
            (files_of (image_on D.image self.new.kernel))) }
        ensures refused { IsReady D.Disk self.old.kernel self.old.calls_left → IfErr result
            (IsUnanswered D.Disk
            (λ files. IsUnemptiedIn files from name.now) self.old.kernel self.new.kernel) }
        ensures none { self.old.calls_left ≡ 0 → HasNoCall self.old self.new result }
        ensures leaves { 0 < self.old.calls_left → LeavesTree D.Disk
            (RemovesDirectoryIn from name.now) self.old.kernel self.new.kernel }
        ensures stays { StaysOver D.Disk self.old.kernel self.new.kernel }
    {
        let change = RemoveDirectory;
        self.changed_at(alloc, &[], &At { from, name, change })
    }

    // Writes bytes into the file of a number, as many as there is room for.
    pub(crate) fn wrote_of(
        &mut self,
        alloc: Global,
        number: u32,
        offset: u32,
        bytes: &[u8],
    ) -> Asked<Result<u32, Unwritten>>
        requires way { IsUnderWay D.Disk self.old.kernel self.old.calls_left }
        requires tree { IsTree (files_seen D.image self.old.kernel) }
        requires there { IsFile (files_seen D.image self.old.kernel) number }
        ensures goes { Proceeds D.Disk result self.old.kernel self.new.kernel self.new.calls_left }
        ensures tree { OnOk result (TreeStays D.image self.old.kernel self.new.kernel) }
        ensures wrote { IfOk result (Happens
            (WritesSomeOf (form_seen D.image self.old.kernel) number offset bytes.now)
            (IsNoPlain number)
            (files_seen D.image self.old.kernel) (files_seen D.image self.new.kernel)) }
        ensures full { IfOk result (FillsUp D.image (IsPart bytes.now) self.new.kernel) }
    {
        if self.is_directory(number)? {
            return Ok(Err(Refusal::IsADirectory));
        }
        let Ok(content) = Content::copy_of(alloc, bytes) else {
            self.calls_left = 0;
            return Err(TreeFault::Call(TransactionFault::NoMemory));
        };
        let reply = self.called(Op::Write(number, offset, content))?;
        let Some(done) = some_told(&reply) else {
            // A file that is there is written into, or the reply says why not.
            unreachable!()
        };
        Ok(Ok(done))
    }
}

// What a reply tells of a write: how many bytes were written, or why none.
fn some_told(reply: &Reply) -> Option<Result<u32, Unwritten>>
    ensures { result ≡ some_told reply.now }
{
    match reply {
        Reply::Wrote(count) => Some(Ok(*count)),
        Reply::TooLong => Some(Err(Unwritten::TooLong)),
        Reply::BadOffset => Some(Err(Unwritten::BadOffset)),
        Reply::TooBig => Some(Err(Unwritten::TooBig)),
        _ => None,
    }
}
