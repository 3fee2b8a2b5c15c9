// Bytes put into files of a tree, in place of those that are there.
ghost use Rattle.std.specs.Prelude.{⊤, ◌≡◌, ◌<◌, ◌≤◌, length, IfErr, IfOk, OnOk};
ghost use Rattle.calls.specs.Calls.{image_on};
ghost use Rattle.calls.specs.Stopped.{StaysOver};
ghost use Rattle.model.specs.Files.{files_of};
ghost use Rattle.model.specs.Operations.{transfer_limit};
ghost use Rattle.names.specs.Contents.{IsNoPlain};
ghost use Rattle.names.specs.Inside.{files_seen, IsUnderWay, ProceedsOr, Fills, TellsFull};
ghost use Rattle.directories.specs.Paths.{names_of};
ghost use Rattle.names.specs.Putting.{file_of, told, IsUnputIn, PutsAt, PutsIn, Refills};
ghost use Rattle.names.specs.Ready.{Happens, HasNoCallAt, IsReady, IsReadyBehind, IsUnwritten, LeavesTree, MayGoOn, TreeStays};
ghost use Rattle.directories.specs.Trees.{IsFile, IsTree};
ghost use Rattle.directories.specs.Walks.{IsUndoneIn};
ghost use Rattle.names.specs.Writing.{is_whole};

use crate::changing::{ChangeIn, Last};
use crate::making::{FILE_KIND, Make, New};
use crate::refusal::{Asked, TreeFault};
use crate::tree::Tree;
use crate::writing::Unwritten;
use blocks::Disk;
use directories::{Name, Refusal, lookup};
use model::types::TRANSFER_LIMIT;
use std::alloc::Global;

// A file of bytes that is no directory.
#[derive(Drop)]
struct NewBytes<'a> {
    bytes: &'a [u8],
}

impl<'a> New for NewBytes<'a> {
    ghost file = { λ new number parent. file_of new.bytes.now };

    ghost counts = { λ new. ⊥ };

    ghost blocks = { λ new. ⊤ };

    ghost tells_full = { λ new. length new.bytes.now ≤ transfer_limit };

    fn is_directory(&self) -> bool {
        false
    }

    fn create<D: Disk>(&self, tree: &mut Tree<D>, alloc: Global, _parent: u16) -> Asked<u16> {
        let Some(number) = tree.created(FILE_KIND)? else {
            return Ok(Err(Refusal::NoNumber));
        };
        let written = tree.write_called(alloc, u32::from(number), 0, self.bytes)?;
        if is_whole(&written) {
            return Ok(Ok(number));
        }
        tree.uncreated(u32::from(number))?;
        Ok(Err(Refusal::NoBlock))
    }
}

// Whether all bytes of a write were written.
fn is_whole(written: &Option<Result<(), Unwritten>>) -> bool
    ensures { result ≡ is_whole written.now }
{
    matches!(written, Some(Ok(())))
}

// Puts bytes into a file of a directory, which is made where its name is new.
#[derive(Drop)]
struct PutFile<'a> {
    bytes: &'a [u8],
}

impl<'a> ChangeIn for PutFile<'a> {
    type Made = Result<u16, Unwritten>;

    ghost makes = { λ put. PutsIn put.bytes.now };

    ghost refuses = { λ put. IsUnputIn };

    ghost hinders = { λ put. Fills };

    ghost tells_full = { λ put. ⊤ };

    fn apply_in<D: Disk>(
        &self,
        tree: &mut Tree<D>,
        alloc: Global,
        from: u32,
        name: &Name,
    ) -> Asked<Result<u16, Unwritten>> {
        if self.bytes.len() > TRANSFER_LIMIT as usize {
            return Ok(Ok(Err(Unwritten::TooLong)));
        }
        let Some(bytes) = tree.directory(from)? else {
            return Ok(Err(Refusal::NotADirectory));
        };
        let Some(number) = lookup(bytes.as_slice(), name) else {
            let new = Make {
                kind: NewBytes { bytes: self.bytes },
            };
            let made = new.apply_in(tree, alloc, from, name)?;
            return Ok(told(made));
        };
        let put = tree.refilled(alloc, number, self.bytes)?;
        Ok(told(put))
    }
}

impl<D: Disk> Tree<D> {
    /// Puts bytes into the file at a path, 3072 at most: it has these then and no others. It is made
    /// where its last name is new in the directory that the others lead to. Its number, or that they
    /// are more.
    ///
    /// # Errors
    ///
    /// - `Path`: the bytes of the path are none; nothing was done.
    /// - `Refused`, with the files as they were: `NotFound`, `NotADirectory` and `IsRoot` for the path;
    ///   `IsADirectory` where it leads to one; where the name is new `Full` if the directory has no
    ///   room for one more, and `NoNumber` or `NoBlock` if the disk has none.
    /// - `NoSpace`: the file is there, and no block is free for all of the bytes. The files are as they
    ///   were, and behind it no other call is made.
    /// - `Call`, `NoCall`: as every call of a tree.
    pub fn put(
        &mut self,
        alloc: Global,
        path: &[u8],
        bytes: &[u8],
    ) -> Result<Result<u16, Unwritten>, TreeFault>
        requires ready { MayGoOn D.Disk self.old.kernel self.old.calls_left }
        ensures ready { MayGoOn D.Disk self.new.kernel self.new.calls_left }
        ensures done { IsReadyBehind D.Disk self.new.kernel self.new.calls_left result }
        ensures puts { IfOk result (λ done. PutsAt bytes.now (names_of path.now) done
            (files_of (image_on D.image self.old.kernel))
            (files_of (image_on D.image self.new.kernel))) }
        ensures refused { IsReady D.Disk self.old.kernel self.old.calls_left → IfErr result
            (IsUnwritten D.Disk path.now
            (IsUndoneIn IsUnputIn (names_of path.now)) self.old.kernel self.new.kernel) }
        ensures none { self.old.calls_left ≡ 0 → HasNoCallAt path.now self.old self.new result }
        ensures leaves { 0 < self.old.calls_left → LeavesTree D.Disk
            (PutsAt bytes.now (names_of path.now)) self.old.kernel self.new.kernel }
        ensures stays { StaysOver D.Disk self.old.kernel self.new.kernel }
        ensures no_block { IfErr result (TellsFull D.Disk self.old.kernel self.new.kernel) }
    {
        let put = Last {
            change: PutFile { bytes },
        };
        self.changed(alloc, path, &put)
    }

    // Gives a file of bytes others in place of its own. Its number again.
    fn refilled(&mut self, alloc: Global, number: u16, bytes: &[u8]) -> Asked<u16>
        requires way { IsUnderWay D.Disk self.old.kernel self.old.calls_left }
        requires tree { IsTree (files_seen D.image self.old.kernel) }
        requires there { IsFile (files_seen D.image self.old.kernel) number }
        requires few { length bytes.now ≤ transfer_limit }
        ensures goes { ProceedsOr Fills D.Disk result
            self.old.kernel self.new.kernel self.new.calls_left }
        ensures tree { OnOk result (TreeStays D.image self.old.kernel self.new.kernel) }
        ensures filled { IfOk result (Happens (Refills number bytes.now) (IsNoPlain number)
            (files_seen D.image self.old.kernel) (files_seen D.image self.new.kernel)) }
    {
        if let Err(refusal) = self.emptied(u32::from(number))? {
            return Ok(Err(refusal));
        }
        let Some(_all) = self.write_called(alloc, u32::from(number), 0, bytes)? else {
            // What was written of them is never committed.
            self.calls_left = 0;
            return Err(TreeFault::NoSpace);
        };
        Ok(Ok(number))
    }
}

// The number of a file that the bytes were put into.
fn told(put: Result<u16, Refusal>) -> Result<Result<u16, Unwritten>, Refusal>
    ensures { result ≡ told put }
{
    match put {
        Ok(number) => Ok(Ok(number)),
        Err(refusal) => Err(refusal),
    }
}
