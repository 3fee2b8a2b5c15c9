// The file of a number is cut to a length.
ghost use Rattle.std.specs.Prelude.{◌≡◌, ◌<◌, IfErr, IfOk, OnOk};
ghost use Rattle.calls.specs.Calls.{image_on};
ghost use Rattle.calls.specs.Stopped.{StaysOver};
ghost use Rattle.model.specs.Files.{files_of};
ghost use Rattle.names.specs.Contents.{IsNoPlain};
ghost use Rattle.names.specs.Inside.{files_seen, IsUnderWay, Proceeds, Never};
ghost use Rattle.names.specs.Numbered.{CutsAt, IsNoFileOrDirectory};
ghost use Rattle.names.specs.Ready.{Happens, HasNoCall, IsReady, IsReadyBehind, IsUnanswered, LeavesTree, MayGoOn, TreeStays};
ghost use Rattle.directories.specs.Trees.{IsFile, IsTree};

use crate::changing::Change;
use crate::refusal::{Asked, TreeFault};
use crate::tree::Tree;
use blocks::Disk;
use directories::{DIRECTORY_KIND, Name, Refusal};
use model::types::{Attribute, Op};
use std::alloc::Global;

// Cuts the file of a number to a length.
#[derive(Drop)]
struct CutAt {
    number: u32,
    size: u32,
}

impl Change for CutAt {
    type Made = bool;

    ghost makes = { λ cut form names. CutsAt cut.number cut.size };

    ghost refuses = { λ cut names. IsNoFileOrDirectory cut.number };

    ghost hinders = { λ cut files. Never };

    ghost fills = { λ cut made. ⊥ };

    ghost tells_full = { λ cut. ⊥ };

    fn apply<D: Disk>(&self, tree: &mut Tree<D>, _alloc: Global, _names: &[Name]) -> Asked<bool> {
        match tree.seen(self.number)? {
            Ok(_found) => tree.cut(self.number, self.size),
            Err(refusal) => Ok(Err(refusal)),
        }
    }
}

impl<D: Disk> Tree<D> {
    /// Cuts the file of a number to its first `size` bytes, whole over a stop. False where it has
    /// fewer, and it stays as it is. The blocks behind its end stay its own until it is emptied or
    /// removed.
    ///
    /// # Errors
    ///
    /// - `Refused`: `NotFound` where there is no such file, `IsADirectory` where it is one.
    /// - `Call`, `NoCall`: as every call of a tree.
    pub fn cut_at(&mut self, alloc: Global, number: u32, size: u32) -> Result<bool, TreeFault>
        requires ready { MayGoOn D.Disk self.old.kernel self.old.calls_left }
        ensures ready { MayGoOn D.Disk self.new.kernel self.new.calls_left }
        ensures done { IsReadyBehind D.Disk self.new.kernel self.new.calls_left result }
        ensures cuts { IfOk result (λ done. CutsAt number size done
            (files_of (image_on D.image self.old.kernel))
            (files_of (image_on D.image self.new.kernel))) }
        ensures refused { IsReady D.Disk self.old.kernel self.old.calls_left → IfErr result
            (IsUnanswered D.Disk (IsNoFileOrDirectory number)
            self.old.kernel self.new.kernel) }
        ensures none { self.old.calls_left ≡ 0 → HasNoCall self.old self.new result }
        ensures leaves { 0 < self.old.calls_left → LeavesTree D.Disk (CutsAt number size)
            self.old.kernel self.new.kernel }
        ensures stays { StaysOver D.Disk self.old.kernel self.new.kernel }
    {
        self.changed_at(alloc, &[], &CutAt { number, size })
    }

    // Cuts the file of a number, where it has so many bytes.
    pub(crate) fn cut(&mut self, number: u32, size: u32) -> Asked<bool>
        requires way { IsUnderWay D.Disk self.old.kernel self.old.calls_left }
        requires tree { IsTree (files_seen D.image self.old.kernel) }
        requires there { IsFile (files_seen D.image self.old.kernel) number }
        ensures goes { Proceeds D.Disk result self.old.kernel self.new.kernel self.new.calls_left }
        ensures tree { OnOk result (TreeStays D.image self.old.kernel self.new.kernel) }
        ensures cut { IfOk result (Happens (CutsAt number size) (IsNoPlain number)
            (files_seen D.image self.old.kernel) (files_seen D.image self.new.kernel)) }
    {
        let found = self.found(number)?;
        if found.kind == DIRECTORY_KIND {
            return Ok(Err(Refusal::IsADirectory));
        }
        if size > found.size {
            return Ok(Ok(false));
        }
        self.called(Op::SetAttribute(number, Attribute::Size(size)))?;
        Ok(Ok(true))
    }
}
