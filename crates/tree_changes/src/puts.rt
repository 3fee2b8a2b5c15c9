// Bytes put under a path.
ghost use Rattle.std.specs.Prelude.{◌≡◌, ◌<◌, ◌≤◌, length, IfErr, IfOk, Ok, OnOk};
ghost use Rattle.calls.specs.Calls.{image_on};
ghost use Rattle.calls.specs.Stopped.{StaysOver};
ghost use Rattle.model.specs.Files.{files_of};
ghost use Rattle.model.specs.Operations.{transfer_limit};
ghost use Rattle.names.specs.Inside.{form_seen};
ghost use Rattle.directories.specs.Paths.{names_of};
ghost use Rattle.names.specs.Ready.{IsReady, MayGoOn, AnyOf, LeavesMidst, LeavesIfDone};
ghost use Rattle.names.specs.Writing.{Writes};
ghost use Rattle.tree_changes.specs.Changes.{IsOfTree};
ghost use Rattle.tree_changes.specs.Puts.{
  piece_count,
  HasAppendedNone,
  HasNotAppended,
  IsUnappended,
  IsUnputAt,
  IsUnputFew,
  Puts,
  PutsAny,
  PutsFew,
  PutsSome,
  StopsWriting,
  WritesPieces,
  WritesSome,
};

use crate::faults::ChangeRefusal;
use crate::over_tree::TreeChange;
use blocks::Disk;
use model::types::TRANSFER_LIMIT;
use names::{Tree, TreeFault, Unwritten};
use std::alloc::Global;

// So many bytes are written by one call.
const PIECE: usize = TRANSFER_LIMIT as usize;

/// Puts bytes into the file at a path, in place of its own, which is made where nothing is there.
/// Answers its number. No more than 3072 are put by one transaction; of more the file loses its own
/// first, and then gets pieces of 3072, so that a stop leaves a beginning of them.
#[derive(Drop)]
pub struct Put<'a> {
    /// The path, from the root.
    pub path: &'a [u8],
    /// The bytes.
    pub bytes: Vec<u8>,
}

impl<'a> TreeChange for Put<'a> {
    ghost makes = { λ put. Puts put.path.now put.bytes.items };

    ghost midst = { λ put. PutsSome put.path.now put.bytes.items };

    ghost undone = { λ put t. IsUnputAt t.disk put.path.now put.bytes.items t.was t.now };

    fn make<D: Disk>(
        &self,
        alloc: Global,
        tree: &mut Tree<D>,
    ) -> Result<Option<u32>, ChangeRefusal> {
        put_whole(alloc, tree, self.path, self.bytes.as_slice())
    }
}

// Puts bytes, few in one transaction, more piece by piece.
pub(crate) fn put_whole<D: Disk>(
    alloc: Global,
    tree: &mut Tree<D>,
    path: &[u8],
    bytes: &[u8],
) -> Result<Option<u32>, ChangeRefusal>
    requires ready { IsReady D.Disk tree.old.kernel tree.old.calls_left }
    requires some { 0 < tree.old.calls_left }
    ensures ready { MayGoOn D.Disk tree.new.kernel tree.new.calls_left }
    ensures done { OnOk result (IsReady D.Disk tree.new.kernel tree.new.calls_left) }
    ensures puts { IfOk result (λ told. Puts path.now bytes.now
        (form_seen D.image tree.old.kernel) told
        (files_of (image_on D.image tree.old.kernel))
        (files_of (image_on D.image tree.new.kernel))) }
    ensures undone { IfErr result
        (IsUnputAt D.Disk path.now bytes.now tree.old.kernel tree.new.kernel) }
    ensures cause { IfErr result IsOfTree }
    ensures leaves { LeavesMidst D.Disk
        (PutsSome path.now bytes.now (form_seen D.image tree.old.kernel))
        tree.old.kernel tree.new.kernel }
    ensures stays { StaysOver D.Disk tree.old.kernel tree.new.kernel }
{
    if bytes.len() <= PIECE {
        return put_few(alloc, tree, path, bytes);
    }
    let number = put_few(alloc, tree, path, &[])?;
    match append_all(alloc, tree, path, bytes) {
        Ok(()) => Ok(number),
        Err(refusal) => Err(refusal),
    }
}

// Puts no more bytes than one call writes, in one transaction.
fn put_few<D: Disk>(
    alloc: Global,
    tree: &mut Tree<D>,
    path: &[u8],
    bytes: &[u8],
) -> Result<Option<u32>, ChangeRefusal>
    requires ready { MayGoOn D.Disk tree.old.kernel tree.old.calls_left }
    ensures ready { MayGoOn D.Disk tree.new.kernel tree.new.calls_left }
    ensures done { OnOk result (IsReady D.Disk tree.new.kernel tree.new.calls_left) }
    ensures puts { IfOk result (λ told. PutsFew path.now bytes.now told
        (files_of (image_on D.image tree.old.kernel))
        (files_of (image_on D.image tree.new.kernel))) }
    ensures undone { IsReady D.Disk tree.old.kernel tree.old.calls_left → IfErr result
        (IsUnputFew D.Disk path.now bytes.now tree.old.kernel tree.new.kernel) }
    ensures cause { IfErr result IsOfTree }
    ensures leaves { 0 < tree.old.calls_left → LeavesMidst D.Disk (PutsAny path.now bytes.now)
        tree.old.kernel tree.new.kernel }
    ensures stays { StaysOver D.Disk tree.old.kernel tree.new.kernel }
{
    match tree.put(alloc, path, bytes) {
        Ok(Ok(number)) => Ok(Some(u32::from(number))),
        Ok(Err(fault)) => Err(ChangeRefusal::Unwritten(fault)),
        Err(fault) => Err(ChangeRefusal::Tree(fault)),
    }
}

/// Writes bytes into an empty file, piece by piece.
///
/// # Errors
///
/// `Unwritten` where the kernel refuses a piece, `Tree` where the tree doesn't answer. Then the pieces
/// before it were written. Whatever a stop leaves has a beginning of the pieces.
pub fn append_all<D: Disk>(
    alloc: Global,
    tree: &mut Tree<D>,
    path: &[u8],
    bytes: &[u8],
) -> Result<(), ChangeRefusal>
    requires ready { MayGoOn D.Disk tree.old.kernel tree.old.calls_left }
    ensures ready { MayGoOn D.Disk tree.new.kernel tree.new.calls_left }
    ensures done { IsReady D.Disk tree.old.kernel tree.old.calls_left
        → OnOk result (IsReady D.Disk tree.new.kernel tree.new.calls_left) }
    ensures writes { OnOk result (WritesPieces (form_seen D.image tree.old.kernel)
        path.now bytes.now (piece_count bytes.now)
        (files_of (image_on D.image tree.old.kernel))
        (files_of (image_on D.image tree.new.kernel))) }
    ensures undone { IsReady D.Disk tree.old.kernel tree.old.calls_left → IfErr result
        (StopsWriting D.Disk path.now bytes.now tree.old.kernel tree.new.kernel) }
    ensures none { tree.old.calls_left ≡ 0 → HasAppendedNone bytes.now tree.old tree.new result }
    ensures cause { IfErr result IsOfTree }
    ensures leaves { LeavesIfDone D.Disk (WritesSome (form_seen D.image tree.old.kernel)
        path.now bytes.now (piece_count bytes.now)) tree.old.kernel tree.new.kernel }
    ensures stays { StaysOver D.Disk tree.old.kernel tree.new.kernel }
{
    for piece in 0..bytes.len().div_ceil(PIECE) {
        let from = piece * PIECE;
        let to = (from + PIECE).min(bytes.len());
        append(alloc, tree, path, from, &bytes[from..to])?;
    }
    Ok(())
}

// Writes a piece behind the bytes that a file has, where another call may be made.
fn append<D: Disk>(
    alloc: Global,
    tree: &mut Tree<D>,
    path: &[u8],
    from: usize,
    bytes: &[u8],
) -> Result<(), ChangeRefusal>
    requires ready { MayGoOn D.Disk tree.old.kernel tree.old.calls_left }
    ensures ready { MayGoOn D.Disk tree.new.kernel tree.new.calls_left }
    ensures done { OnOk result (IsReady D.Disk tree.new.kernel tree.new.calls_left) }
    ensures writes { OnOk result (Writes (form_seen D.image tree.old.kernel)
        (names_of path.now) from bytes.now (Ok tt)
        (files_of (image_on D.image tree.old.kernel))
        (files_of (image_on D.image tree.new.kernel))) }
    ensures undone { IsReady D.Disk tree.old.kernel tree.old.calls_left → IfErr result
        (IsUnappended D.Disk path.now from bytes.now tree.old.kernel tree.new.kernel) }
    ensures none { tree.old.calls_left ≡ 0 → HasNotAppended from tree.old tree.new result }
    ensures cause { IfErr result IsOfTree }
    ensures leaves { LeavesIfDone D.Disk (AnyOf (Writes (form_seen D.image tree.old.kernel)
        (names_of path.now) from bytes.now)) tree.old.kernel tree.new.kernel }
    ensures stays { StaysOver D.Disk tree.old.kernel tree.new.kernel }
{
    let Ok(from) = u32::try_from(from) else {
        return Err(ChangeRefusal::Unwritten(Unwritten::TooBig));
    };
    if !tree.may_call() {
        return Err(ChangeRefusal::Tree(TreeFault::NoCall));
    }
    match tree.write(alloc, path, from, bytes) {
        Ok(Ok(())) => Ok(()),
        Ok(Err(fault)) => Err(ChangeRefusal::Unwritten(fault)),
        Err(fault) => Err(ChangeRefusal::Tree(fault)),
    }
}
