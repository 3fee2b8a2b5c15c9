// How many names lead to a file, as its count of links says, and another name for a file.
ghost use Rattle.std.specs.Prelude.{⊤, ◌≡◌, ◌+◌, ◌<◌, ◌≤◌, ◌^◌, IfErr, IfOk, OnOk};
ghost use Rattle.calls.specs.Calls.{image_on};
ghost use Rattle.calls.specs.Stopped.{StaysOver};
ghost use Rattle.model.specs.Files.{file_in, files_of};
ghost use Rattle.directories.specs.Counts.{AreCounted};
ghost use Rattle.names.specs.Inside.{files_seen, AnswersFull, IsUnderWay, Proceeds, SeesSame, Never, TellsFull};
ghost use Rattle.names.specs.Linking.{HasMore, IsNotLinkedAs, IsNotLinkedAt, IsNotLinkedIn, LinksAt, LinksIn};
ghost use Rattle.directories.specs.Paths.{names_of};
ghost use Rattle.names.specs.Ready.{Happens, HasNoCall, IsReady, IsReadyBehind, IsUnanswered, LeavesTree, MayGoOn, TreeStays};
ghost use Rattle.names.specs.Renaming.{HasNoCallAtBoth, IsUndoneAtBoth};
ghost use Rattle.directories.specs.TreeChanges.{Relinks};
ghost use Rattle.directories.specs.Trees.{links_of, IsFile, IsTree};

use crate::changing::Change;
use crate::making::unlinked;
use crate::refusal::{Asked, TreeFault};
use crate::tree::Tree;
use blocks::Disk;
use directories::{Name, Refusal, link, names_of};
use model::types::{Attribute, Op, Reply};
use std::alloc::Global;

// The greatest count of links: xv6's own is a signed number of 16 bits.
pub(crate) const MOST_LINKS: u16 = 32767;

// Gives the file at a path another name, the last of these, in the directory that the others lead to.
#[derive(Drop)]
struct LinkFile<'a> {
    into: &'a [Name],
}

impl<'a> Change for LinkFile<'a> {
    type Made = ();

    ghost makes = { λ link form names. LinksAt names link.into.now };

    ghost refuses = { λ link names. IsNotLinkedAt names link.into.now };

    ghost hinders = { λ link files. Never };

    ghost fills = { λ link made. ⊥ };

    ghost tells_full = { λ link. ⊤ };

    fn apply<D: Disk>(&self, tree: &mut Tree<D>, alloc: Global, names: &[Name]) -> Asked<()> {
        if self.into.is_empty() {
            return Ok(Err(Refusal::IsRoot));
        }
        let end = self.into.len() - 1;
        let number = match tree.walk(names)? {
            Ok(number) => number,
            Err(refusal) => return Ok(Err(refusal)),
        };
        let to = match tree.walk(&self.into[..end])? {
            Ok(to) => to,
            Err(refusal) => return Ok(Err(refusal)),
        };
        tree.linked(alloc, number, to, &self.into[end])
    }
}

// Gives the file of a number another name in a directory.
#[derive(Drop)]
struct LinkIn<'a> {
    number: u32,
    to: u32,
    name: &'a Name,
}

impl<'a> Change for LinkIn<'a> {
    type Made = ();

    ghost makes = { λ link form names. LinksIn link.number link.to link.name.now };

    ghost refuses = { λ link names. IsNotLinkedAs link.number link.to link.name.now };

    ghost hinders = { λ link files. Never };

    ghost fills = { λ link made. ⊥ };

    ghost tells_full = { λ link. ⊤ };

    fn apply<D: Disk>(&self, tree: &mut Tree<D>, alloc: Global, _names: &[Name]) -> Asked<()> {
        match tree.seen(self.number)? {
            Ok(_found) => tree.linked(alloc, self.number, self.to, self.name),
            Err(refusal) => Ok(Err(refusal)),
        }
    }
}

impl<D: Disk> Tree<D> {
    /// Gives the file at a path another name, that at another path, which is new in the directory that
    /// the names before it lead to. A directory has one name alone.
    ///
    /// # Errors
    ///
    /// - `Path`: the bytes of one of the paths are none; nothing was done.
    /// - `Refused`, with the files as they were: `NotFound`, `NotADirectory` and `IsRoot` for the paths;
    ///   `IsADirectory` where the first one leads to one; `Exists` where the second one's last name is
    ///   there, `Full` where its directory has no room for one more, `TooManyLinks` where 32,767 names
    ///   lead to the file, and `NoBlock` where the disk has none.
    /// - `Call`, `NoCall`: as every call of a tree.
    pub fn link(&mut self, alloc: Global, path: &[u8], into: &[u8]) -> Result<(), TreeFault>
        requires ready { MayGoOn D.Disk self.old.kernel self.old.calls_left }
        ensures ready { MayGoOn D.Disk self.new.kernel self.new.calls_left }
        ensures done { IsReadyBehind D.Disk self.new.kernel self.new.calls_left result }
        ensures links { IfOk result (λ done. LinksAt (names_of path.now) (names_of into.now) done
            (files_of (image_on D.image self.old.kernel))
            (files_of (image_on D.image self.new.kernel))) }
        ensures refused { IsReady D.Disk self.old.kernel self.old.calls_left → IfErr result
            (IsUndoneAtBoth D.Disk path.now into.now
            (IsNotLinkedAt (names_of path.now) (names_of into.now)) self.old.kernel self.new.kernel) }
        ensures none { self.old.calls_left ≡ 0 → HasNoCallAtBoth path.now into.now self.old self.new result }
        ensures leaves { 0 < self.old.calls_left → LeavesTree D.Disk
            (LinksAt (names_of path.now) (names_of into.now)) self.old.kernel self.new.kernel }
        ensures stays { StaysOver D.Disk self.old.kernel self.new.kernel }
        ensures no_block { IfErr result (TellsFull D.Disk self.old.kernel self.new.kernel) }
    {
        match names_of(alloc, into) {
            Ok(names) => {
                let link = LinkFile {
                    into: names.as_slice(),
                };
                self.changed(alloc, path, &link)
            }
            Err(fault) => {
                self.stands();
                Err(TreeFault::Path(fault))
            }
        }
    }

    /// Gives the file of a number another name, which is new in the directory of another number.
    ///
    /// # Errors
    ///
    /// - `Refused`, with the files as they were: `NotFound` where there is no such file, `IsADirectory`
    ///   where it is one, `NotADirectory` where the other number is that of none; `Exists`, `Full`,
    ///   `TooManyLinks` and `NoBlock` as `link` has them.
    /// - `Call`, `NoCall`: as every call of a tree.
    pub fn link_in(
        &mut self,
        alloc: Global,
        number: u32,
        to: u32,
        name: &Name,
    ) -> Result<(), TreeFault>
        requires ready { MayGoOn D.Disk self.old.kernel self.old.calls_left }
        ensures ready { MayGoOn D.Disk self.new.kernel self.new.calls_left }
        ensures done { IsReadyBehind D.Disk self.new.kernel self.new.calls_left result }
        ensures links { IfOk result (λ done. LinksIn number to name.now done
            (files_of (image_on D.image self.old.kernel))
            (files_of (image_on D.image self.new.kernel))) }
        ensures refused { IsReady D.Disk self.old.kernel self.old.calls_left → IfErr result
            (IsUnanswered D.Disk (IsNotLinkedAs number to name.now)
            self.old.kernel self.new.kernel) }
        ensures none { self.old.calls_left ≡ 0 → HasNoCall self.old self.new result }
        ensures leaves { 0 < self.old.calls_left → LeavesTree D.Disk (LinksIn number to name.now)
            self.old.kernel self.new.kernel }
        ensures stays { StaysOver D.Disk self.old.kernel self.new.kernel }
        ensures no_block { IfErr result (TellsFull D.Disk self.old.kernel self.new.kernel) }
    {
        self.changed_at(alloc, &[], &LinkIn { number, to, name })
    }

    // How many names lead to a file, as its count says.
    pub(crate) fn links_of(&mut self, number: u32) -> Result<u16, TreeFault>
        requires way { IsUnderWay D.Disk self.old.kernel self.old.calls_left }
        requires there { IsFile (files_seen D.image self.old.kernel) number }
        ensures goes { Proceeds D.Disk result self.old.kernel self.new.kernel self.new.calls_left }
        ensures same { OnOk result (SeesSame D.image self.old.kernel self.new.kernel) }
        ensures links { IfOk result (λ links.
            links ≡ links_of (file_in (files_seen D.image self.old.kernel) number)) }
    {
        let Reply::StatOf(_kind, links, _size) = self.called(Op::Stat(number))? else {
            // A file that is there can be looked at.
            unreachable!()
        };
        Ok(links)
    }

    // The count of a file with one name more, where there is one.
    pub(crate) fn one_more(&mut self, number: u32) -> Asked<u16>
        requires way { IsUnderWay D.Disk self.old.kernel self.old.calls_left }
        requires there { IsFile (files_seen D.image self.old.kernel) number }
        ensures goes { Proceeds D.Disk result self.old.kernel self.new.kernel self.new.calls_left }
        ensures same { OnOk result (SeesSame D.image self.old.kernel self.new.kernel) }
        ensures more { IfOk result (HasMore (files_seen D.image self.old.kernel) number) }
    {
        let links = self.links_of(number)?;
        if links < MOST_LINKS {
            Ok(Ok(links + 1))
        } else {
            Ok(Err(Refusal::TooManyLinks))
        }
    }

    // Gives a file that count.
    pub(crate) fn relinked(&mut self, number: u32, count: u16) -> Result<(), TreeFault>
        requires way { IsUnderWay D.Disk self.old.kernel self.old.calls_left }
        requires there { IsFile (files_seen D.image self.old.kernel) number }
        ensures goes { Proceeds D.Disk result self.old.kernel self.new.kernel self.new.calls_left }
        ensures relinks { OnOk result (Relinks (files_seen D.image self.old.kernel)
            (files_seen D.image self.new.kernel) number count) }
    {
        let _done = self.called(Op::SetAttribute(number, Attribute::Links(count)))?;
        Ok(())
    }

    // Gives a file that is no directory another name, which is new in a directory.
    pub(crate) fn linked(&mut self, alloc: Global, number: u32, to: u32, name: &Name) -> Asked<()>
        requires way { IsUnderWay D.Disk self.old.kernel self.old.calls_left }
        requires tree { IsTree (files_seen D.image self.old.kernel) }
        requires there { IsFile (files_seen D.image self.old.kernel) number }
        ensures goes { Proceeds D.Disk result self.old.kernel self.new.kernel self.new.calls_left }
        ensures tree { OnOk result (TreeStays D.image self.old.kernel self.new.kernel) }
        ensures linked { IfOk result (Happens (LinksIn number to name.now)
            (λ files. IsNotLinkedIn files number to name.now)
            (files_seen D.image self.old.kernel) (files_seen D.image self.new.kernel)) }
        ensures no_block { IfOk result (AnswersFull D.Disk self.old.kernel self.new.kernel) }
    {
        if self.is_directory(number)? {
            return Ok(Err(Refusal::IsADirectory));
        }
        let Some(bytes) = self.directory(to)? else {
            return Ok(Err(Refusal::NotADirectory));
        };
        let Ok(short) = u16::try_from(number) else {
            return Ok(Err(Refusal::NoNumber));
        };
        let write = match link(bytes.as_slice(), name, short) {
            Ok(write) => write,
            Err(fault) => return Ok(Err(unlinked(fault))),
        };
        let count = match self.one_more(number)? {
            Ok(count) => count,
            Err(refusal) => return Ok(Err(refusal)),
        };
        if !self.entered(alloc, to, write)? {
            return Ok(Err(Refusal::NoBlock));
        }
        self.relinked(number, count)?;
        Ok(Ok(()))
    }
}
