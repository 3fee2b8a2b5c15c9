// A kernel whose files are a tree of directories, and the calls of its transactions.
ghost use Rattle.std.specs.Prelude.{◌≡◌, ◌↔◌, ◌<◌, IfErr, IfOk, IsTrue, OnOk};
ghost use Rattle.directories.specs.Counts.{AreCounted};
ghost use Rattle.names.specs.Inside.{files_seen, Answers, Ends, HasCause, IsUnderWay, LeavesFiles, Proceeds};
ghost use Rattle.names.specs.Ready.{EndsOn, HasBegun, HasCommitted, IsIdle, MayGoOn};
ghost use Rattle.directories.specs.Trees.{IsTree};

use crate::refusal::TreeFault;
use blocks::Disk;
use calls::transactions::{Pair, begin, call, commit, rested};
use model::types::{Op, Reply};
use std::alloc::Global;

/// Files with names in directories within directories, over a kernel of two processes. Behind a call
/// that failed there is no other.
#[derive(Drop)]
pub struct Tree<D: Disk> {
    pub(crate) kernel: Pair<D>,
    // How many calls may be made yet; none behind one that failed.
    pub(crate) calls_left: u64,
    // For the bytes of directories, which are read in pieces.
    pub(crate) alloc: Global,
}

impl<D: Disk> Tree<D> {
    /// Whether another call may be made.
    pub fn may_call(&self) -> bool
        ensures { IsTrue result ↔ 0 < self.now.calls_left }
    {
        self.calls_left > 0
    }

    // Does nothing: it says what a stop leaves between transactions.
    pub(crate) fn stands(&self)
        requires { MayGoOn D.Disk self.now.kernel self.now.calls_left }
        ensures { 0 < self.now.calls_left → LeavesFiles D.Disk self.now.kernel self.now.kernel }
    {
        if self.calls_left > 0 {
            rested(&self.kernel);
        }
    }

    // Begins a transaction.
    pub(crate) fn begun(&mut self, alloc: Global) -> Result<(), TreeFault>
        requires idle { IsIdle D.Disk self.old.kernel self.old.calls_left }
        requires some { 0 < self.old.calls_left }
        ensures begins { OnOk result (HasBegun D.Disk
            self.old.kernel self.new.kernel self.new.calls_left) }
        ensures leaves { LeavesFiles D.Disk self.old.kernel self.new.kernel }
        ensures ends { IfErr result (Ends D.Disk
            self.old.kernel self.new.kernel self.new.calls_left) }
    {
        match begin(alloc, &mut self.kernel) {
            Ok(()) => Ok(()),
            Err(fault) => {
                self.calls_left = 0;
                Err(TreeFault::Call(fault))
            }
        }
    }

    // Ends the transaction under way: the files that it sees are on the disk then.
    pub(crate) fn committed(&mut self) -> Result<(), TreeFault>
        requires way { IsUnderWay D.Disk self.old.kernel self.old.calls_left }
        requires tree { IsTree (files_seen D.image self.old.kernel) }
        requires counted { AreCounted (files_seen D.image self.old.kernel) }
        ensures commits { OnOk result (HasCommitted D.Disk
            self.old.kernel self.new.kernel self.new.calls_left) }
        ensures leaves { EndsOn D.Disk self.old.kernel self.new.kernel }
        ensures ends { IfErr result (Ends D.Disk
            self.old.kernel self.new.kernel self.new.calls_left) }
    {
        if self.calls_left == 0 {
            return Err(TreeFault::NoCall);
        }
        match commit(&mut self.kernel) {
            Ok(()) => {
                self.calls_left -= 1;
                Ok(())
            }
            Err(fault) => {
                self.calls_left = 0;
                Err(TreeFault::Call(fault))
            }
        }
    }

    // Makes an operation in the transaction under way. Its reply.
    pub(crate) fn called(&mut self, op: Op) -> Result<Reply, TreeFault>
        requires { IsUnderWay D.Disk self.old.kernel self.old.calls_left }
        ensures goes { Proceeds D.Disk result self.old.kernel self.new.kernel self.new.calls_left }
        ensures answers { IfOk result (Answers D.image op self.old.kernel self.new.kernel) }
        ensures cause { IfOk result (HasCause D.image op self.old.kernel self.new.kernel) }
    {
        if self.calls_left == 0 {
            return Err(TreeFault::NoCall);
        }
        match call(&mut self.kernel, op) {
            Err(fault) => {
                self.calls_left = 0;
                Err(TreeFault::Call(fault))
            }
            Ok(reply) => {
                self.calls_left -= 1;
                Ok(reply)
            }
        }
    }
}
