// Files made in a tree.
ghost use Rattle.std.specs.Prelude.{⊤, true, ◌≡◌, ℕ, ◌*◌, ◌^◌, ◌<◌, IfErr, IfOk, IsTrue, OnOk};
ghost use Rattle.calls.specs.Calls.{image_on};
ghost use Rattle.calls.specs.Stopped.{StaysOver};
ghost use Rattle.model.specs.Files.{files_of};
ghost use Rattle.model.specs.Operations.{is_kind};
ghost use Rattle.directories.specs.Entries.{entry_size};
ghost use Rattle.model.specs.declared.types.image.File.{File};
ghost use Rattle.names.specs.Inside.{files_seen, AnswersFull, IsUnderWay, Proceeds, SeesSame, Never, TellsFull};
ghost use Rattle.directories.specs.Trees.{IsFile};
ghost use Rattle.names.specs.Making.{file_kind, HasCreated, HasCreatedNew, HasEntered, HasParentCount, IsNewFile, IsUnmadeIn, IsUnmadeOr, MakesAt, Settles, Uncreates, is_entered, unlinked};
ghost use Rattle.directories.specs.Paths.{names_of};
ghost use Rattle.names.specs.Ready.{HasNoCallAt, IsReady, IsReadyBehind, IsUndone, LeavesTree, MayGoOn};
ghost use Rattle.directories.specs.TreeChanges.{empty_file, AddsName};
ghost use Rattle.directories.specs.Walks.{IsUndoneIn};

use crate::changing::{ChangeIn, Last};
use crate::refusal::{Asked, TreeFault};
use crate::tree::Tree;
use blocks::Disk;
use calls::transactions::TransactionFault;
use directories::{ENTRY_SIZE, EntryWrite, LinkFault, Name, Refusal, link, lookup};
use model::types::{Op, Reply};
use std::alloc::Global;

// The type of a file that is no directory.
pub(crate) const FILE_KIND: u16 = 2;

// A kind of file that can be made under a name.
pub(crate) trait New {
    // The new file of a number, in the directory of another number.
    ghost file: { Self → ℕ → ℕ → File };

    // That its name for its parent counts among that one's links.
    ghost counts: { Self → Type 0 };

    // That it needs blocks of its own.
    ghost blocks: { Self → Type 0 };

    // Where this is so, it tells NoBlock only for want of a block.
    ghost tells_full: { Self → Type 0 };

    // Whether it is a directory, whose name for its parent counts there.
    fn is_directory(&self) -> bool
        ensures new { (number parent : ℕ)
            → IsNewFile result (file self.now number parent) number parent }
        ensures counts { IsTrue result → counts self.now };

    // Makes one in a directory, which has no name yet.
    fn create<D: Disk>(&self, tree: &mut Tree<D>, alloc: Global, parent: u16) -> Asked<u16>
        requires way { IsUnderWay D.Disk tree.old.kernel tree.old.calls_left }
        requires used { 0 < parent }
        ensures goes { Proceeds D.Disk result tree.old.kernel tree.new.kernel tree.new.calls_left }
        ensures made { IfOk result (HasCreatedNew (blocks self.now) (file self.now) parent
            (files_seen D.image tree.old.kernel) (files_seen D.image tree.new.kernel)) }
        ensures no_block { tells_full self.now → IfOk result (AnswersFull D.Disk
            tree.old.kernel tree.new.kernel) };
}

// An empty file that is no directory.
#[derive(Drop)]
pub(crate) struct NewFile;

impl New for NewFile {
    ghost file = { λ new number parent. empty_file file_kind };

    ghost counts = { λ new. ⊥ };

    ghost blocks = { λ new. ⊥ };

    ghost tells_full = { λ new. ⊤ };

    fn is_directory(&self) -> bool {
        false
    }

    fn create<D: Disk>(&self, tree: &mut Tree<D>, _alloc: Global, _parent: u16) -> Asked<u16> {
        match tree.created(FILE_KIND)? {
            Some(number) => Ok(Ok(number)),
            None => Ok(Err(Refusal::NoNumber)),
        }
    }
}

// Makes a new file in a directory.
#[derive(Drop)]
pub(crate) struct Make<N> {
    pub(crate) kind: N,
}

impl<N: New> ChangeIn for Make<N> {
    type Made = u16;

    ghost makes = { λ make from name number files new.
        AddsName files new from name number (N.file make.kind number from) };

    ghost refuses = { λ make. IsUnmadeOr (N.counts make.kind) (N.blocks make.kind) };

    ghost hinders = { λ make. Never };

    ghost tells_full = { λ make. N.tells_full make.kind };

    fn apply_in<D: Disk>(
        &self,
        tree: &mut Tree<D>,
        alloc: Global,
        from: u32,
        name: &Name,
    ) -> Asked<u16> {
        let Some(bytes) = tree.directory(from)? else {
            return Ok(Err(Refusal::NotADirectory));
        };
        // What is refused for its name makes no file.
        if let Err(fault) = link(bytes.as_slice(), name, 1) {
            return Ok(Err(unlinked(fault)));
        }
        let count = match tree.parent_count(from, self.kind.is_directory())? {
            Ok(count) => count,
            Err(refusal) => return Ok(Err(refusal)),
        };
        let Some(own) = lookup(bytes.as_slice(), &Name::own()) else {
            // A directory has itself.
            unreachable!()
        };
        let number = match self.kind.create(tree, alloc, own)? {
            Ok(number) => number,
            Err(refusal) => return Ok(Err(refusal)),
        };
        let Ok(write) = link(bytes.as_slice(), name, number) else {
            // It may be linked to any number.
            unreachable!()
        };
        if tree.entered(alloc, from, write)? {
            tree.settled(from, count)?;
            return Ok(Ok(number));
        }
        tree.uncreated(u32::from(number))?;
        Ok(Err(Refusal::NoBlock))
    }
}

impl<D: Disk> Tree<D> {
    /// Makes an empty file at a path, whose last name is new in the directory that the others lead to.
    /// Its number.
    ///
    /// # Errors
    ///
    /// - `Path`: the bytes are no path; nothing was done.
    /// - `Refused`, with the files as they were: `NotFound`, `NotADirectory` and `IsRoot` for the path;
    ///   `Exists` where the name is there, `Full` where the directory has no room for one more;
    ///   `NoNumber` where each number is a file's, `NoBlock` where the entry begins another block of the
    ///   directory and none is free.
    /// - `Call`, `NoCall`: as every call of a tree.
    pub fn make(&mut self, alloc: Global, path: &[u8]) -> Result<u16, TreeFault>
        requires ready { MayGoOn D.Disk self.old.kernel self.old.calls_left }
        ensures ready { MayGoOn D.Disk self.new.kernel self.new.calls_left }
        ensures done { IsReadyBehind D.Disk self.new.kernel self.new.calls_left result }
        ensures makes { IfOk result (λ number. MakesAt (names_of path.now) number
            (files_of (image_on D.image self.old.kernel))
            (files_of (image_on D.image self.new.kernel))) }
        ensures refused { IsReady D.Disk self.old.kernel self.old.calls_left → IfErr result
            (IsUndone D.Disk path.now
            (IsUndoneIn IsUnmadeIn (names_of path.now)) self.old.kernel self.new.kernel) }
        ensures none { self.old.calls_left ≡ 0 → HasNoCallAt path.now self.old self.new result }
        ensures leaves { 0 < self.old.calls_left → LeavesTree D.Disk (MakesAt (names_of path.now))
            self.old.kernel self.new.kernel }
        ensures stays { StaysOver D.Disk self.old.kernel self.new.kernel }
        ensures no_block { IfErr result (TellsFull D.Disk self.old.kernel self.new.kernel) }
    {
        self.changed(
            alloc,
            path,
            &Last {
                change: Make { kind: NewFile },
            },
        )
    }

    // The count that a directory has with another one in it, where that is one.
    fn parent_count(&mut self, number: u32, is_directory: bool) -> Asked<Option<u16>>
        requires way { IsUnderWay D.Disk self.old.kernel self.old.calls_left }
        requires there { IsFile (files_seen D.image self.old.kernel) number }
        ensures goes { Proceeds D.Disk result self.old.kernel self.new.kernel self.new.calls_left }
        ensures same { OnOk result (SeesSame D.image self.old.kernel self.new.kernel) }
        ensures told { IfOk result (HasParentCount is_directory
            (files_seen D.image self.old.kernel) number) }
    {
        if !is_directory {
            return Ok(Ok(None));
        }
        match self.one_more(number)? {
            Ok(count) => Ok(Ok(Some(count))),
            Err(refusal) => Ok(Err(refusal)),
        }
    }

    // Gives a directory that count, where it has another.
    fn settled(&mut self, number: u32, count: Option<u16>) -> Result<(), TreeFault>
        requires way { IsUnderWay D.Disk self.old.kernel self.old.calls_left }
        requires there { IsFile (files_seen D.image self.old.kernel) number }
        ensures goes { Proceeds D.Disk result self.old.kernel self.new.kernel self.new.calls_left }
        ensures settles { OnOk result (Settles (files_seen D.image self.old.kernel)
            (files_seen D.image self.new.kernel) number count) }
    {
        match count {
            Some(count) => self.relinked(number, count),
            None => Ok(()),
        }
    }

    // Makes an empty file of a type, which has no name yet. None where no number is free that an entry
    // can hold.
    pub(crate) fn created(&mut self, kind: u16) -> Result<Option<u16>, TreeFault>
        requires way { IsUnderWay D.Disk self.old.kernel self.old.calls_left }
        requires kind { is_kind kind ≡ true }
        ensures goes { Proceeds D.Disk result self.old.kernel self.new.kernel self.new.calls_left }
        ensures made { IfOk result (HasCreated kind
            (files_seen D.image self.old.kernel) (files_seen D.image self.new.kernel)) }
    {
        let Reply::Made(number) = self.called(Op::Create(kind))? else {
            return Ok(None);
        };
        match u16::try_from(number) {
            Ok(number) => Ok(Some(number)),
            Err(_large) => {
                self.uncreated(number)?;
                Ok(None)
            }
        }
    }

    // Removes a file that was made and has no name.
    pub(crate) fn uncreated(&mut self, number: u32) -> Result<(), TreeFault>
        requires { IsUnderWay D.Disk self.old.kernel self.old.calls_left }
        ensures goes { Proceeds D.Disk result self.old.kernel self.new.kernel self.new.calls_left }
        ensures undoes { OnOk result (Uncreates number
            (files_seen D.image self.old.kernel) (files_seen D.image self.new.kernel)) }
    {
        let _done = self.called(Op::Remove(number))?;
        Ok(())
    }

    // Writes an entry of a directory. Whether it was written: all of it is, or nothing.
    pub(crate) fn entered(
        &mut self,
        alloc: Global,
        from: u32,
        write: EntryWrite,
    ) -> Result<bool, TreeFault>
        requires way { IsUnderWay D.Disk self.old.kernel self.old.calls_left }
        requires within { entry_size * write.place < 2 ^ 32 }
        ensures goes { Proceeds D.Disk result self.old.kernel self.new.kernel self.new.calls_left }
        ensures entered { IfOk result (HasEntered D.image from write
            self.old.kernel self.new.kernel) }
    {
        let Ok(op) = write.operation(alloc, from) else {
            self.calls_left = 0;
            return Err(TreeFault::Call(TransactionFault::NoMemory));
        };
        let reply = self.called(op)?;
        Ok(is_entered(&reply))
    }
}

// Whether an entry was written.
fn is_entered(reply: &Reply) -> bool
    ensures { result ≡ is_entered reply.now }
{
    matches!(reply, Reply::Wrote(count) if *count as usize == ENTRY_SIZE)
}

// The refusal of a link.
pub(crate) fn unlinked(fault: LinkFault) -> Refusal
    ensures { result ≡ unlinked fault }
{
    match fault {
        LinkFault::Exists => Refusal::Exists,
        LinkFault::Full => Refusal::Full,
    }
}
