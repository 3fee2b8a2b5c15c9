// Directories made in a tree.
ghost use Rattle.std.specs.Prelude.{◌≡◌, ⊤, ◌<◌, IfErr, IfOk};
ghost use Rattle.calls.specs.Calls.{image_on};
ghost use Rattle.calls.specs.Stopped.{StaysOver};
ghost use Rattle.model.specs.Files.{files_of};
ghost use Rattle.names.specs.Inside.{IsUnderWay, Proceeds, TellsFull};
ghost use Rattle.names.specs.Making.{HasFilledFor, IsUnmadeDirectoryIn, MakesDirectoryAt};
ghost use Rattle.directories.specs.Paths.{names_of};
ghost use Rattle.names.specs.Ready.{HasNoCallAt, IsReady, IsReadyBehind, IsUndone, LeavesTree, MayGoOn};
ghost use Rattle.directories.specs.TreeChanges.{directory_file};
ghost use Rattle.directories.specs.Walks.{IsUndoneIn};

use crate::changing::Last;
use crate::making::{Make, New};
use crate::refusal::{Asked, TreeFault};
use crate::rooting::is_filled;
use crate::tree::Tree;
use blocks::Disk;
use calls::transactions::TransactionFault;
use directories::{Refusal, new_directory};
use model::types::Op;
use std::alloc::Global;

// The type of a directory.
const DIRECTORY_KIND: u16 = 1;

// A directory of its two entries alone.
#[derive(Drop)]
pub(crate) struct NewDirectory;

impl New for NewDirectory {
    ghost file = { λ new number parent. directory_file number parent };

    ghost counts = { λ new. ⊤ };

    ghost blocks = { λ new. ⊤ };

    ghost tells_full = { λ new. ⊤ };

    fn is_directory(&self) -> bool {
        true
    }

    fn create<D: Disk>(&self, tree: &mut Tree<D>, alloc: Global, parent: u16) -> Asked<u16> {
        let Some(number) = tree.created(DIRECTORY_KIND)? else {
            return Ok(Err(Refusal::NoNumber));
        };
        if tree.filled_for(alloc, number, parent)? {
            return Ok(Ok(number));
        }
        tree.uncreated(u32::from(number))?;
        Ok(Err(Refusal::NoBlock))
    }
}

impl<D: Disk> Tree<D> {
    /// Makes a directory at a path, with its own two entries alone. The path's last name is new in the
    /// directory that the others lead to. Its number.
    ///
    /// # Errors
    ///
    /// - `Path`: the bytes are no path; nothing was done.
    /// - `Refused`, with the files as they were: `NotFound`, `NotADirectory` and `IsRoot` for the path;
    ///   `Exists` where the name is there, `Full` where the directory has no room for one more, and
    ///   `TooManyLinks` where its count is the greatest; `NoNumber` where each number is a file's, and
    ///   `NoBlock` where no block is free.
    /// - `Call`, `NoCall`: as every call of a tree.
    pub fn make_directory(&mut self, alloc: Global, path: &[u8]) -> Result<u16, TreeFault>
        requires ready { MayGoOn D.Disk self.old.kernel self.old.calls_left }
        ensures ready { MayGoOn D.Disk self.new.kernel self.new.calls_left }
        ensures done { IsReadyBehind D.Disk self.new.kernel self.new.calls_left result }
        ensures makes { IfOk result (λ number. MakesDirectoryAt (names_of path.now) number
            (files_of (image_on D.image self.old.kernel))
            (files_of (image_on D.image self.new.kernel))) }
        ensures refused { IsReady D.Disk self.old.kernel self.old.calls_left → IfErr result
            (IsUndone D.Disk path.now
            (IsUndoneIn IsUnmadeDirectoryIn (names_of path.now)) self.old.kernel self.new.kernel) }
        ensures none { self.old.calls_left ≡ 0 → HasNoCallAt path.now self.old self.new result }
        ensures leaves { 0 < self.old.calls_left → LeavesTree D.Disk
            (MakesDirectoryAt (names_of path.now)) self.old.kernel self.new.kernel }
        ensures stays { StaysOver D.Disk self.old.kernel self.new.kernel }
        ensures no_block { IfErr result (TellsFull D.Disk self.old.kernel self.new.kernel) }
    {
        self.changed(
            alloc,
            path,
            &Last {
                change: Make { kind: NewDirectory },
            },
        )
    }

    // Writes the two entries of a new directory. Whether they were written: both are, or none.
    fn filled_for(&mut self, alloc: Global, number: u16, parent: u16) -> Result<bool, TreeFault>
        requires { IsUnderWay D.Disk self.old.kernel self.old.calls_left }
        ensures goes { Proceeds D.Disk result self.old.kernel self.new.kernel self.new.calls_left }
        ensures filled { IfOk result (HasFilledFor D.image number parent
            self.old.kernel self.new.kernel) }
    {
        let Ok(bytes) = new_directory(alloc, number, parent) else {
            self.calls_left = 0;
            return Err(TreeFault::Call(TransactionFault::NoMemory));
        };
        let reply = self.called(Op::Write(u32::from(number), 0, bytes))?;
        Ok(is_filled(&reply))
    }
}
