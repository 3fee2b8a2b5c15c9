// A look at the files of a disk.
ghost use Rattle.std.specs.Prelude.{◌≡◌, ℕ, List, IfErr, IfOk, OnOk};
ghost use Rattle.std.specs.Io.KnownBytes.{Appends};
ghost use Rattle.model.specs.Files.{Files};
ghost use Rattle.tree_looks.specs.Looks.{HasLooked, HasNotLooked, NotOfTree, OfTree};
ghost use Rattle.tree_looks.specs.declared.faults.LookRefusal.{LookRefusal as SomeLookRefusal};

use crate::faults::LookRefusal;
use crate::loading::{load, load_tree};
use blocks::Disk;
use cmd::DiskCommand;
use messages::{pass_on, write_bytes};
use model::types::File;
use std::alloc::Global;
use std::io::Write;

/// What is told of files.
pub trait Look {
    /// That text tells it of files.
    ghost tells: { Self → Files → List ℕ → Type 0 };

    /// Files refuse it, for this reason.
    ghost refuses: { Self → Files → SomeLookRefusal → Type 0 };

    /// The text that tells it.
    fn text(&self, alloc: Global, files: &[Option<File>]) -> Result<Vec<u8>, LookRefusal>
        ensures tells { IfOk result (λ text. tells self.now files.now text.items) }
        ensures refused { IfErr result (refuses self.now files.now) };
}

/// Prints what a look tells of the files of a disk, as recovery would leave them. They need be no tree.
/// It writes no block.
#[derive(Clone, Copy, Drop)]
pub struct OverFiles<L>(pub L);

impl<L: Look + Drop> DiskCommand for OverFiles<L> {
    type Refusal = LookRefusal;

    ghost done = { λ over c. HasLooked c.disk (L.tells over.0) c.was c.now };

    ghost refused = { λ over c old new. HasNotLooked c.disk (L.refuses over.0) c.was c.now };

    fn run_on<D: Disk + Drop, O: Write>(
        self,
        alloc: Global,
        disk: D,
        out: &mut O,
    ) -> (Result<(), LookRefusal>, D) {
        let mut disk = disk;
        let ended = look_at(alloc, &mut disk, &self.0, out);
        (ended, disk)
    }
}

// Prints what a look tells of the files of a disk.
fn look_at<D: Disk, L: Look, O: Write>(
    alloc: Global,
    disk: &mut D,
    look: &L,
    out: &mut O,
) -> Result<(), LookRefusal>
    ensures looked { OnOk result (HasLooked D.Disk (L.tells look.now) disk.old disk.new
        (O.contents out.old) (O.contents out.new)) }
    ensures refused { IfErr result (HasNotLooked D.Disk (L.refuses look.now) disk.old disk.new
        (out.new ≡ out.old)) }
{
    match load(alloc, disk) {
        Ok(files) => match look.text(alloc, files.as_slice()) {
            Ok(text) => print_text(out, text.as_slice()),
            Err(refusal) => Err(refusal),
        },
        Err(refusal) => Err(refusal),
    }
}

/// Prints what a look tells of the files of a disk, as recovery would leave them, where they are a
/// tree. It writes no block.
#[derive(Clone, Copy, Drop)]
pub struct InTree<L>(pub L);

impl<L: Look + Drop> DiskCommand for InTree<L> {
    type Refusal = LookRefusal;

    ghost done = { λ tree c. HasLooked c.disk (OfTree (L.tells tree.0)) c.was c.now };

    ghost refused = { λ tree c old new. HasNotLooked c.disk (NotOfTree (L.refuses tree.0)) c.was c.now };

    fn run_on<D: Disk + Drop, O: Write>(
        self,
        alloc: Global,
        disk: D,
        out: &mut O,
    ) -> (Result<(), LookRefusal>, D) {
        let mut disk = disk;
        let ended = look_in_tree(alloc, &mut disk, &self.0, out);
        (ended, disk)
    }
}

// Prints what a look tells of the files of a disk, which are a tree.
fn look_in_tree<D: Disk, L: Look, O: Write>(
    alloc: Global,
    disk: &mut D,
    look: &L,
    out: &mut O,
) -> Result<(), LookRefusal>
    ensures looked { OnOk result (HasLooked D.Disk (OfTree (L.tells look.now)) disk.old disk.new
        (O.contents out.old) (O.contents out.new)) }
    ensures refused { IfErr result (HasNotLooked D.Disk (NotOfTree (L.refuses look.now))
        disk.old disk.new (out.new ≡ out.old)) }
{
    match load_tree(alloc, disk) {
        Ok(files) => match look.text(alloc, files.as_slice()) {
            Ok(text) => print_text(out, text.as_slice()),
            Err(refusal) => Err(refusal),
        },
        Err(refusal) => Err(refusal),
    }
}

// Writes a text, and passes it on.
pub fn print_text<O: Write>(out: &mut O, text: &[u8]) -> Result<(), LookRefusal>
    ensures printed { OnOk result
        (Appends (O.contents out.old) (O.contents out.new) text.now) }
    ensures refused { IfErr result (λ r. r ≡ LookRefusal.Output) }
{
    if write_bytes(out, text).is_err() {
        return Err(LookRefusal::Output);
    }
    match pass_on(out) {
        Ok(()) => Ok(()),
        Err(_) => Err(LookRefusal::Output),
    }
}
