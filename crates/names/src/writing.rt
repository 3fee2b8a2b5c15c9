// Bytes written into the files of a tree that are no directories.
ghost use Rattle.std.specs.Prelude.{⊤, ◌≡◌, ◌==◌, ◌<◌, IfErr, IfOk, OnOk, Ok};
ghost use Rattle.calls.specs.Calls.{image_on};
ghost use Rattle.calls.specs.Stopped.{StaysOver};
ghost use Rattle.model.specs.Files.{files_of};
ghost use Rattle.model.specs.Operations.{where_true};
ghost use Rattle.names.specs.Contents.{IsNoPlain, LeadsToNoPlain};
ghost use Rattle.names.specs.Inside.{files_seen, form_seen, IsUnderWay, Proceeds, ProceedsOr, Fills};
ghost use Rattle.directories.specs.Paths.{names_of};
ghost use Rattle.names.specs.Ready.{Happens, HasNoCallAt, IsReady, IsReadyBehind, IsUnwritten, LeavesTree, MayGoOn, TreeStays};
ghost use Rattle.directories.specs.Trees.{IsFile, IsTree};
ghost use Rattle.names.specs.Writing.{written, HasWritten, Writes, WritesOf};

use crate::changing::Change;
use crate::refusal::{Asked, TreeFault};
use crate::tree::Tree;
use blocks::Disk;
use calls::transactions::TransactionFault;
use directories::{Name, Refusal};
use model::content::Content;
use model::types::{Op, Reply};
use std::alloc::Global;
use thiserror::Error;

/// Why a kernel refuses a write into a file. The files are as before, and other calls may be made.
#[derive(Clone, Copy, Debug, PartialEq, Eq, Error)]
pub enum Unwritten {
    /// They are more than 3072 bytes.
    #[error("too many bytes for one write")]
    TooLong,
    /// The offset lies behind the file's end.
    #[error("the offset lies behind the file's end")]
    BadOffset,
    /// The write would end behind the greatest size of a file.
    #[error("the file would be too large")]
    TooBig,
}

// Writes bytes into the file at a path.
#[derive(Drop)]
struct WriteFile<'a> {
    offset: u32,
    bytes: &'a [u8],
}

impl<'a> Change for WriteFile<'a> {
    type Made = Result<(), Unwritten>;

    ghost makes = { λ write form names. Writes form names write.offset write.bytes.now };

    ghost refuses = { λ write. LeadsToNoPlain };

    ghost hinders = { λ write files. Fills };

    ghost fills = { λ write made. ⊥ };

    ghost tells_full = { λ write. ⊥ };

    fn apply<D: Disk>(
        &self,
        tree: &mut Tree<D>,
        alloc: Global,
        names: &[Name],
    ) -> Asked<Result<(), Unwritten>> {
        match tree.walk(names)? {
            Ok(number) => tree.write_of(alloc, number, self.offset, self.bytes),
            Err(refusal) => Ok(Err(refusal)),
        }
    }
}

impl<D: Disk> Tree<D> {
    /// Writes bytes into the file at a path from an offset on, 3072 at most: all of them, or none for
    /// the cause that is returned.
    ///
    /// # Errors
    ///
    /// - `Path`: the bytes of the path are none; nothing was done.
    /// - `Refused`: `NotFound` where a name of the path is not there, `NotADirectory` where a file on
    ///   it is none, `IsADirectory` where the path leads to one.
    /// - `NoSpace`: no block is free for all of the bytes, and none of them is kept. Behind it no other
    ///   call is made.
    /// - `Call`, `NoCall`: as every call of a tree.
    pub fn write(
        &mut self,
        alloc: Global,
        path: &[u8],
        offset: u32,
        bytes: &[u8],
    ) -> Result<Result<(), Unwritten>, TreeFault>
        requires ready { MayGoOn D.Disk self.old.kernel self.old.calls_left }
        ensures ready { MayGoOn D.Disk self.new.kernel self.new.calls_left }
        ensures done { IsReadyBehind D.Disk self.new.kernel self.new.calls_left result }
        ensures writes { IfOk result (λ done. Writes (form_seen D.image self.old.kernel)
            (names_of path.now) offset bytes.now done
            (files_of (image_on D.image self.old.kernel))
            (files_of (image_on D.image self.new.kernel))) }
        ensures refused { IsReady D.Disk self.old.kernel self.old.calls_left → IfErr result
            (IsUnwritten D.Disk path.now
            (LeadsToNoPlain (names_of path.now)) self.old.kernel self.new.kernel) }
        ensures none { self.old.calls_left ≡ 0 → HasNoCallAt path.now self.old self.new result }
        ensures leaves { 0 < self.old.calls_left → LeavesTree D.Disk
            (Writes (form_seen D.image self.old.kernel) (names_of path.now) offset bytes.now)
            self.old.kernel self.new.kernel }
        ensures stays { StaysOver D.Disk self.old.kernel self.new.kernel }
    {
        self.changed(alloc, path, &WriteFile { offset, bytes })
    }

    // Writes bytes into the file of a number.
    fn write_of(
        &mut self,
        alloc: Global,
        number: u32,
        offset: u32,
        bytes: &[u8],
    ) -> Asked<Result<(), Unwritten>>
        requires way { IsUnderWay D.Disk self.old.kernel self.old.calls_left }
        requires tree { IsTree (files_seen D.image self.old.kernel) }
        requires there { IsFile (files_seen D.image self.old.kernel) number }
        ensures goes { ProceedsOr Fills D.Disk result
            self.old.kernel self.new.kernel self.new.calls_left }
        ensures tree { OnOk result (TreeStays D.image self.old.kernel self.new.kernel) }
        ensures wrote { IfOk result (Happens
            (WritesOf (form_seen D.image self.old.kernel) number offset bytes.now)
            (IsNoPlain number)
            (files_seen D.image self.old.kernel) (files_seen D.image self.new.kernel)) }
    {
        if self.is_directory(number)? {
            return Ok(Err(Refusal::IsADirectory));
        }
        let Some(done) = self.write_called(alloc, number, offset, bytes)? else {
            // What was written of them is never committed.
            self.calls_left = 0;
            return Err(TreeFault::NoSpace);
        };
        Ok(Ok(done))
    }

    // Makes one write. What its reply tells.
    pub(crate) fn write_called(
        &mut self,
        alloc: Global,
        number: u32,
        offset: u32,
        bytes: &[u8],
    ) -> Result<Option<Result<(), Unwritten>>, TreeFault>
        requires { IsUnderWay D.Disk self.old.kernel self.old.calls_left }
        ensures goes { Proceeds D.Disk result self.old.kernel self.new.kernel self.new.calls_left }
        ensures written { IfOk result (HasWritten D.image number offset bytes.now
            self.old.kernel self.new.kernel) }
    {
        let Ok(content) = Content::copy_of(alloc, bytes) else {
            self.calls_left = 0;
            return Err(TreeFault::Call(TransactionFault::NoMemory));
        };
        let reply = self.called(Op::Write(number, offset, content))?;
        Ok(written(&reply, bytes.len()))
    }
}

// What a reply tells of a write of so many bytes; none where only some were written.
fn written(reply: &Reply, size: usize) -> Option<Result<(), Unwritten>>
    ensures { result ≡ written reply.now size }
{
    match reply {
        Reply::Wrote(count) => all_of(*count as usize, size),
        Reply::TooLong => Some(Err(Unwritten::TooLong)),
        Reply::BadOffset => Some(Err(Unwritten::BadOffset)),
        Reply::TooBig => Some(Err(Unwritten::TooBig)),
        _ => None,
    }
}

// Whether so many bytes are all of them.
fn all_of(count: usize, size: usize) -> Option<Result<(), Unwritten>>
    ensures { result ≡ where_true (count == size) (Ok tt) }
{
    if count == size { Some(Ok(())) } else { None }
}
