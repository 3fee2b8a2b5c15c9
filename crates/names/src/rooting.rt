// The beginning and the end of a tree.
ghost use Rattle.std.specs.Prelude.{◌≡◌, ◌<◌, ◌^◌, IfErr, IfOk, OnOk};
ghost use Rattle.blocks.specs.Disk.{LeavesOnly};
ghost use Rattle.calls.specs.Calls.{call_count, image_on};
ghost use Rattle.calls.specs.Stopped.{StaysOver};
ghost use Rattle.model.specs.Files.{files_of};
ghost use Rattle.model.specs.Log.{recovered};
ghost use Rattle.names.specs.Inside.{files_seen, IsUnderWay, Proceeds};
ghost use Rattle.names.specs.Ready.{HasFilled, HasNoFile, IsIdle, IsReady, IsRootAlone, IsRootless, KeepsRoot, MakesRoot, is_filled};
ghost use Rattle.directories.specs.Trees.{IsTree};
ghost use Rattle.calls.specs.Transactions.{IsLabelled, Rests};

use crate::refusal::TreeFault;
use crate::tree::Tree;
use blocks::Disk;
use calls::transactions::{Pair, TransactionFault, labelled};
use directories::{DIRECTORY, Refusal, new_directory};
use model::types::{Op, Reply};
use std::alloc::Global;

// The calls that a tree may make.
const MOST_CALLS: u64 = 1 << 62;

impl<D: Disk> Tree<D> {
    /// A tree over a kernel between two transactions. That the files on its disk are a tree, or that
    /// `make_root` is to make them one, the caller knows.
    pub fn over(alloc: Global, kernel: Pair<D>) -> Tree<D>
        requires rests { Rests D.fault_count kernel }
        requires few { call_count kernel < 2 ^ 62 }
        ensures kernel { result.kernel ≡ kernel }
        ensures idle { IsIdle D.Disk result.kernel result.calls_left }
        ensures some { 0 < result.calls_left }
    {
        Tree {
            kernel,
            calls_left: MOST_CALLS,
            alloc,
        }
    }

    /// The disk as it is. Where other calls might be made, it can be opened again.
    pub fn into_disk(self) -> D
        ensures disk { result ≡ self.kernel.store.volume.device }
        ensures tree { IsReady D.Disk self.kernel self.calls_left
            → IsTree (files_of (recovered (D.image result))) }
        ensures labels { IsReady D.Disk self.kernel self.calls_left
            → IsLabelled D.image self.kernel (D.image result) }
    {
        let Tree { kernel, .. } = self;
        labelled(&kernel);
        kernel.into_disk()
    }

    // The root's two entries are written into it. Whether they were: all of them are, or none.
    fn filled(&mut self, alloc: Global) -> Result<bool, TreeFault>
        requires { IsUnderWay D.Disk self.old.kernel self.old.calls_left }
        ensures goes { Proceeds D.Disk result self.old.kernel self.new.kernel self.new.calls_left }
        ensures filled { IfOk result (HasFilled D.image self.old.kernel self.new.kernel) }
    {
        let Ok(bytes) = new_directory(alloc, 1, 1) else {
            self.calls_left = 0;
            return Err(TreeFault::Call(TransactionFault::NoMemory));
        };
        let reply = self.called(Op::Write(DIRECTORY, 0, bytes))?;
        Ok(is_filled(&reply))
    }

    // Makes the root in the transaction under way. Why not, where it is not made.
    fn root_made(&mut self, alloc: Global) -> Result<Option<Refusal>, TreeFault>
        requires { IsUnderWay D.Disk self.old.kernel self.old.calls_left }
        ensures goes { Proceeds D.Disk result self.old.kernel self.new.kernel self.new.calls_left }
        ensures made { IfOk result (MakesRoot D.image self.old.kernel self.new.kernel) }
    {
        let Reply::Made(number) = self.called(Op::Create(1))? else {
            return Ok(Some(Refusal::NoNumber));
        };
        if number != DIRECTORY {
            return Ok(Some(Refusal::NoNumber));
        }
        if self.filled(alloc)? {
            Ok(None)
        } else {
            Ok(Some(Refusal::NoBlock))
        }
    }

    /// Makes the root directory on a disk that has no file. Behind a refusal nothing of it is kept, and
    /// no other call is made.
    ///
    /// # Errors
    ///
    /// - `Refused`: `NoNumber` where number 1 is a file's or the image has no such number, `NoBlock`
    ///   where no block is free for its two entries.
    /// - `Call`, `NoCall`: as every call of a tree.
    pub fn make_root(&mut self, alloc: Global) -> Result<(), TreeFault>
        requires idle { IsIdle D.Disk self.old.kernel self.old.calls_left }
        requires none { HasNoFile (files_of (image_on D.image self.old.kernel)) }
        ensures ready { OnOk result (IsReady D.Disk self.new.kernel self.new.calls_left) }
        ensures root { OnOk result (IsRootAlone (files_of (image_on D.image self.new.kernel))) }
        ensures refused { IfErr result (IsRootless D.Disk self.old.kernel self.new.kernel) }
        ensures leaves { 0 < self.old.calls_left → LeavesOnly D.moment D.leaves
            self.old.kernel.store.volume.device self.new.kernel.store.volume.device
            (KeepsRoot (image_on D.image self.old.kernel)) }
        ensures stays { StaysOver D.Disk self.old.kernel self.new.kernel }
    {
        if self.calls_left == 0 {
            return Err(TreeFault::NoCall);
        }
        self.begun(alloc)?;
        if let Some(refusal) = self.root_made(alloc)? {
            self.calls_left = 0;
            return Err(TreeFault::Refused(refusal));
        }
        self.committed()
    }
}

// Whether the two entries of a new directory were written.
pub(crate) fn is_filled(reply: &Reply) -> bool
    ensures { result ≡ is_filled reply.now }
{
    match reply {
        Reply::Wrote(count) => *count == 32,
        _ => false,
    }
}
