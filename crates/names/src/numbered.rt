// Questions to a tree by the number of a file, or by a name in the directory of a number. A system asks
// so that keeps numbers of files, and no paths.
ghost use Rattle.std.specs.Prelude.{◌≡◌, ◌<◌, IfErr, IfOk, OnOk};
ghost use Rattle.calls.specs.Calls.{image_on};
ghost use Rattle.calls.specs.Stopped.{StaysOver};
ghost use Rattle.model.specs.Files.{files_of};
ghost use Rattle.names.specs.Contents.{ReadsOf};
ghost use Rattle.names.specs.Inside.{files_seen, IsUnderWay, Proceeds, SeesSame, Never};
ghost use Rattle.names.specs.Numbered.{IsNoDirectory, IsNoFile, IsNoFileOrDirectory, IsUnseenIn, ListsAt, LooksAt, LooksIn};
ghost use Rattle.names.specs.Ready.{Happens, HasNoCall, IsReady, IsReadyBehind, IsUnanswered, LeavesTree, MayGoOn, TreeStays};
ghost use Rattle.directories.specs.Trees.{IsTree};

use crate::asking::Found;
use crate::changing::Change;
use crate::refusal::{Asked, TreeFault};
use crate::tree::Tree;
use blocks::Disk;
use directories::{Name, Refusal};
use model::content::Content;
use model::types::{Op, Reply};
use std::alloc::Global;

// Looks at the file of a number.
#[derive(Drop)]
struct LookAt {
    number: u32,
}

impl Change for LookAt {
    type Made = Found;

    ghost makes = { λ look form names. LooksAt look.number };

    ghost refuses = { λ look names. IsNoFile look.number };

    ghost hinders = { λ look files. Never };

    ghost fills = { λ look made. ⊥ };

    ghost tells_full = { λ look. ⊥ };

    fn apply<D: Disk>(&self, tree: &mut Tree<D>, _alloc: Global, _names: &[Name]) -> Asked<Found> {
        tree.seen(self.number)
    }
}

// Looks at the file of a name in the directory of a number.
#[derive(Drop)]
struct LookIn<'a> {
    from: u32,
    name: &'a Name,
}

impl<'a> Change for LookIn<'a> {
    type Made = Found;

    ghost makes = { λ look form names. LooksIn look.from look.name.now };

    ghost refuses = { λ look names. IsUnseenIn look.from look.name.now };

    ghost hinders = { λ look files. Never };

    ghost fills = { λ look made. ⊥ };

    ghost tells_full = { λ look. ⊥ };

    fn apply<D: Disk>(&self, tree: &mut Tree<D>, _alloc: Global, _names: &[Name]) -> Asked<Found> {
        match tree.step(self.from, self.name)? {
            Ok(number) => tree.seen(number),
            Err(refusal) => Ok(Err(refusal)),
        }
    }
}

// Reads the directory of a number.
#[derive(Drop)]
struct ListAt {
    number: u32,
}

impl Change for ListAt {
    type Made = Content;

    ghost makes = { λ list form names. ListsAt list.number };

    ghost refuses = { λ list names. IsNoDirectory list.number };

    ghost hinders = { λ list files. Never };

    ghost fills = { λ list made. ⊥ };

    ghost tells_full = { λ list. ⊥ };

    fn apply<D: Disk>(
        &self,
        tree: &mut Tree<D>,
        _alloc: Global,
        _names: &[Name],
    ) -> Asked<Content> {
        match tree.directory(self.number)? {
            Some(bytes) => Ok(Ok(bytes)),
            None => Ok(Err(Refusal::NotADirectory)),
        }
    }
}

// Reads the file of a number.
#[derive(Drop)]
struct ReadAt {
    number: u32,
    offset: u32,
    count: u32,
}

impl Change for ReadAt {
    type Made = Content;

    ghost makes = { λ read form names. ReadsOf read.number read.offset read.count };

    ghost refuses = { λ read names. IsNoFileOrDirectory read.number };

    ghost hinders = { λ read files. Never };

    ghost fills = { λ read made. ⊥ };

    ghost tells_full = { λ read. ⊥ };

    fn apply<D: Disk>(
        &self,
        tree: &mut Tree<D>,
        _alloc: Global,
        _names: &[Name],
    ) -> Asked<Content> {
        match tree.seen(self.number)? {
            Ok(_found) => tree.read_of(self.number, self.offset, self.count),
            Err(refusal) => Ok(Err(refusal)),
        }
    }
}

impl<D: Disk> Tree<D> {
    /// How many numbers there are for files, with 0, which no file has.
    pub fn number_count(&self) -> u32
        ensures { result ≡ self.now.kernel.store.table.inode_count }
    {
        self.kernel.inode_count()
    }

    /// What the file of a number is.
    ///
    /// # Errors
    ///
    /// - `Refused`: `NotFound` where there is none.
    /// - `Call`, `NoCall`: as every call of a tree.
    pub fn look_at(&mut self, alloc: Global, number: u32) -> Result<Found, TreeFault>
        requires ready { MayGoOn D.Disk self.old.kernel self.old.calls_left }
        ensures ready { MayGoOn D.Disk self.new.kernel self.new.calls_left }
        ensures done { IsReadyBehind D.Disk self.new.kernel self.new.calls_left result }
        ensures looks { IfOk result (λ found. LooksAt number found
            (files_of (image_on D.image self.old.kernel))
            (files_of (image_on D.image self.new.kernel))) }
        ensures refused { IsReady D.Disk self.old.kernel self.old.calls_left → IfErr result
            (IsUnanswered D.Disk (IsNoFile number)
            self.old.kernel self.new.kernel) }
        ensures none { self.old.calls_left ≡ 0 → HasNoCall self.old self.new result }
        ensures leaves { 0 < self.old.calls_left → LeavesTree D.Disk (LooksAt number)
            self.old.kernel self.new.kernel }
        ensures stays { StaysOver D.Disk self.old.kernel self.new.kernel }
    {
        self.changed_at(alloc, &[], &LookAt { number })
    }

    /// What the file is to which a name leads in the directory of a number.
    ///
    /// # Errors
    ///
    /// - `Refused`: `NotFound` where the name is not there, `NotADirectory` where the number is that of
    ///   none.
    /// - `Call`, `NoCall`: as every call of a tree.
    pub fn look_in(&mut self, alloc: Global, from: u32, name: &Name) -> Result<Found, TreeFault>
        requires ready { MayGoOn D.Disk self.old.kernel self.old.calls_left }
        ensures ready { MayGoOn D.Disk self.new.kernel self.new.calls_left }
        ensures done { IsReadyBehind D.Disk self.new.kernel self.new.calls_left result }
        ensures looks { IfOk result (λ found. LooksIn from name.now found
            (files_of (image_on D.image self.old.kernel))
            (files_of (image_on D.image self.new.kernel))) }
        ensures refused { IsReady D.Disk self.old.kernel self.old.calls_left → IfErr result
            (IsUnanswered D.Disk (IsUnseenIn from name.now)
            self.old.kernel self.new.kernel) }
        ensures none { self.old.calls_left ≡ 0 → HasNoCall self.old self.new result }
        ensures leaves { 0 < self.old.calls_left → LeavesTree D.Disk (LooksIn from name.now)
            self.old.kernel self.new.kernel }
        ensures stays { StaysOver D.Disk self.old.kernel self.new.kernel }
    {
        self.changed_at(alloc, &[], &LookIn { from, name })
    }

    /// The bytes of the directory of a number, as `list` has them.
    ///
    /// # Errors
    ///
    /// - `Refused`: `NotADirectory` where the number is that of none.
    /// - `Call`, `NoCall`: as every call of a tree.
    pub fn list_at(&mut self, alloc: Global, number: u32) -> Result<Content, TreeFault>
        requires ready { MayGoOn D.Disk self.old.kernel self.old.calls_left }
        ensures ready { MayGoOn D.Disk self.new.kernel self.new.calls_left }
        ensures done { IsReadyBehind D.Disk self.new.kernel self.new.calls_left result }
        ensures lists { IfOk result (λ bytes. ListsAt number bytes
            (files_of (image_on D.image self.old.kernel))
            (files_of (image_on D.image self.new.kernel))) }
        ensures refused { IsReady D.Disk self.old.kernel self.old.calls_left → IfErr result
            (IsUnanswered D.Disk (IsNoDirectory number)
            self.old.kernel self.new.kernel) }
        ensures none { self.old.calls_left ≡ 0 → HasNoCall self.old self.new result }
        ensures leaves { 0 < self.old.calls_left → LeavesTree D.Disk (ListsAt number)
            self.old.kernel self.new.kernel }
        ensures stays { StaysOver D.Disk self.old.kernel self.new.kernel }
    {
        self.changed_at(alloc, &[], &ListAt { number })
    }

    /// The bytes of the file of a number from an offset on, up to its end, and no more than `count` or
    /// 3072. Behind the end there are none.
    ///
    /// # Errors
    ///
    /// - `Refused`: `NotFound` where there is no such file, `IsADirectory` where it is one.
    /// - `Call`, `NoCall`: as every call of a tree.
    pub fn read_at(
        &mut self,
        alloc: Global,
        number: u32,
        offset: u32,
        count: u32,
    ) -> Result<Content, TreeFault>
        requires ready { MayGoOn D.Disk self.old.kernel self.old.calls_left }
        ensures ready { MayGoOn D.Disk self.new.kernel self.new.calls_left }
        ensures done { IsReadyBehind D.Disk self.new.kernel self.new.calls_left result }
        ensures reads { IfOk result (λ bytes. ReadsOf number offset count bytes
            (files_of (image_on D.image self.old.kernel))
            (files_of (image_on D.image self.new.kernel))) }
        ensures refused { IsReady D.Disk self.old.kernel self.old.calls_left → IfErr result
            (IsUnanswered D.Disk (IsNoFileOrDirectory number)
            self.old.kernel self.new.kernel) }
        ensures none { self.old.calls_left ≡ 0 → HasNoCall self.old self.new result }
        ensures leaves { 0 < self.old.calls_left → LeavesTree D.Disk (ReadsOf number offset count)
            self.old.kernel self.new.kernel }
        ensures stays { StaysOver D.Disk self.old.kernel self.new.kernel }
    {
        self.changed_at(
            alloc,
            &[],
            &ReadAt {
                number,
                offset,
                count,
            },
        )
    }

    // What the file of a number is, or that there is none.
    pub(crate) fn seen(&mut self, number: u32) -> Asked<Found>
        requires way { IsUnderWay D.Disk self.old.kernel self.old.calls_left }
        requires tree { IsTree (files_seen D.image self.old.kernel) }
        ensures goes { Proceeds D.Disk result self.old.kernel self.new.kernel self.new.calls_left }
        ensures same { OnOk result (SeesSame D.image self.old.kernel self.new.kernel) }
        ensures tree { OnOk result (TreeStays D.image self.old.kernel self.new.kernel) }
        ensures made { IfOk result (Happens (LooksAt number) (IsNoFile number)
            (files_seen D.image self.old.kernel) (files_seen D.image self.new.kernel)) }
    {
        let Reply::StatOf(kind, links, size) = self.called(Op::Stat(number))? else {
            return Ok(Err(Refusal::NotFound));
        };
        Ok(Ok(Found {
            number,
            kind,
            links,
            size,
        }))
    }
}
