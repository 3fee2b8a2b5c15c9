// A command over the disk in a file.
ghost use Rattle.std.specs.Prelude.{◌≡◌, ℕ, List, Option, OnOk, IfErr};
ghost use Rattle.cmd.specs.Opened.{OpensDisk};
ghost use Rattle.cmd.specs.Lemmas.Disks.{file_disk};
ghost use Rattle.cmd.specs.Changes.{Change, change};
ghost use Rattle.cmd.specs.Over.{IsRefusedOn, holds_back, of, on_file_telling};

use crate::command::Command;
use crate::locks::Locks;
use crate::opened::{Access, disk_over, open_for};
use blocks::{Disk, FileFault};
use messages::{Reason, Told};
use std::alloc::Global;
use std::fs::OpenFile;
use std::io::{Read, Seek, Write};

/// A command over any disk.
pub trait DiskCommand {
    /// Why it isn't done.
    type Refusal: Reason + Drop;

    /// It was done over a disk, which changed so, and its answer printed, from the first of these
    /// bytes to the second.
    ghost done: { Self → Change → Option (List ℕ) → Option (List ℕ) → Type 0 };

    /// It was refused, for this reason, and what was printed; the fact says that nothing was.
    ghost refused: { Self → Change → Option (List ℕ) → Option (List ℕ) → Type 0 → Self.Refusal
        → Type 0 };

    /// Does it over a disk, prints its answer, and hands the disk back.
    fn run_on<D: Disk + Drop, O: Write>(
        self,
        alloc: Global,
        disk: D,
        out: &mut O,
    ) -> (Result<(), Self::Refusal>, D)
        ensures done { OnOk result.0
            (done self (change D.Disk disk result.1) (O.contents out.old) (O.contents out.new)) }
        ensures refused { IfErr result.0 (refused self (change D.Disk disk result.1)
            (O.contents out.old) (O.contents out.new) (out.new ≡ out.old)) };
}

/// Why a command over the disk in a file wasn't done.
#[derive(Clone, Copy, Debug, Drop)]
pub enum OnFile<R> {
    /// The file can't be used as a disk.
    File(FileFault),
    /// The command over its disk was refused.
    Of(R),
}

impl<R: Reason> Reason for OnFile<R> {
    ghost telling = { on_file_telling R.telling };

    fn told(&self) -> Told {
        match self {
            OnFile::File(fault) => fault.told(),
            OnFile::Of(refusal) => refusal.told(),
        }
    }
}

/// A command over the disk in the file at this path, which is opened for that.
#[derive(Drop)]
pub struct OverFile<'a, C>(pub &'a str, pub Access, pub C);

impl<'a, R: Locks + AllocGlobal, C: DiskCommand + Drop> Command<R> for OverFile<'a, C> {
    type Refusal = OnFile<C::Refusal>;

    ghost done = { λ over old new. OpensDisk R.File.remaining file_disk (holds_back over.1)
        (λ d e. C.done over.2 (change file_disk d e) old new) };

    ghost refused = { λ over old new none. IsRefusedOn R.File.remaining (holds_back over.1) none
        (λ d e. C.refused over.2 (change file_disk d e) old new none) };

    fn run<O: Write>(self, rt: &R, out: &mut O) -> Result<(), OnFile<C::Refusal>> {
        let disk = match open_for(rt, self.0, self.1) {
            Ok(disk) => disk,
            Err(fault) => return Err(OnFile::File(fault)),
        };
        let (ended, _disk) = self.2.run_on(rt.alloc(), disk, out);
        of(ended)
    }
}

/// Does a command over the disk in an opened file, over another handle of it, as `OverFile` does; with
/// `sync` that disk holds writes back.
///
/// # Errors
///
/// `File` with a fault of `disk_over`, or `Of` with the command's.
pub fn run_over<F: Read + Write + Seek + OpenFile + Drop, C: DiskCommand + Drop, O: Write>(
    alloc: Global,
    file: &F,
    sync: bool,
    command: C,
    out: &mut O,
) -> Result<(), OnFile<C::Refusal>>
    ensures done { OnOk result (OpensDisk F.remaining file_disk sync (λ d e.
        C.done command (change file_disk d e) (O.contents out.old) (O.contents out.new))) }
    ensures refused { IfErr result (IsRefusedOn F.remaining sync (out.new ≡ out.old) (λ d e.
        C.refused command (change file_disk d e) (O.contents out.old) (O.contents out.new)
        (out.new ≡ out.old))) }
{
    let disk = match disk_over(alloc, file, sync) {
        Ok(disk) => disk,
        Err(fault) => return Err(OnFile::File(fault)),
    };
    let (ended, _disk) = command.run_on(alloc, disk, out);
    of(ended)
}

// The refusal of a command over a file, of one over its disk.
fn of<R>(ended: Result<(), R>) -> Result<(), OnFile<R>>
    ensures { result ≡ of ended }
{
    match ended {
        Ok(()) => Ok(()),
        Err(refusal) => Err(OnFile::Of(refusal)),
    }
}
