// A change of an image that is made anew.
ghost use Rattle.std.specs.Prelude.{◌≡◌, ◌≤◌, ⊤, ℕ, List, length, IfErr, IfOk};
ghost use Rattle.std.proofs.Common.{inl};
ghost use Rattle.blocks.specs.declared.memory.MemDisk.{MemDisk as SomeMemDisk};
ghost use Rattle.commands.specs.Copied.{memory};
ghost use Rattle.tree_changes.specs.Puts.{Puts};
ghost use Rattle.tree_changes.specs.declared.faults.ChangeRefusal.{ChangeRefusal as SomeChangeRefusal};
ghost use Rattle.tree_puts.specs.Anew.{
  no_memory,
  told_anew,
  unwritten_as,
  ChangesIn,
  ChangesOpened,
  HasChangedAnew,
  HasChangedIfSo,
  IsNotChangedAnew,
  IsUnchangedAnew,
  IsUnchangedOpened,
};
ghost use Rattle.tree_puts.specs.Refusals.{IsUnputIn};

use blocks::MemDisk;
use cmd::{Access, Locking, Locks, OnFile, open_for};
use commands::{Holder, MakesThere, make_instead, write_whole};
use commands_changes::{copied_from, write_new};
use kernel::OpenFault;
use names::TreeOpenFault;
use std::alloc::Global;
use std::io::Write;
use transfer::PutRefusal;
use tree_changes::{ChangeRefusal, Put, change_disk};

// A change of an image in memory.
pub trait InMemory {
    // Why it isn't made.
    type Refusal: Drop;

    // It makes the second image of the first, and answers this text.
    ghost makes: { Self → SomeMemDisk → SomeMemDisk → List ℕ → Type 0 };

    // Why it is not made of an image.
    ghost undone: { Self → SomeMemDisk → Self.Refusal → Type 0 };

    // How it tells a refusal of files.
    ghost told: { SomeChangeRefusal → Self.Refusal };

    // Makes it. What it answers, and the image.
    fn make_in(&self, alloc: Global, image: MemDisk) -> Result<(Vec<u8>, MemDisk), Self::Refusal>
        ensures made { IfOk result (λ made. makes self.now image made.1 made.0.items) }
        ensures long { IfOk result (λ made. 2 ≤ length (memory.image made.1)) }
        ensures undone { IfErr result (undone self.now image) };

    // A refusal of files, as it tells it.
    fn tell(refusal: ChangeRefusal) -> Self::Refusal
        ensures { result ≡ told refusal };
}

impl<'a> InMemory for Put<'a> {
    type Refusal = ChangeRefusal;

    ghost makes = { λ put. ChangesIn (Puts put.path.now put.bytes.items) };

    ghost undone = { λ put. IsUnputIn put.path.now put.bytes.items };

    ghost told = { λ refusal. refusal };

    fn make_in(&self, alloc: Global, image: MemDisk) -> Result<(Vec<u8>, MemDisk), ChangeRefusal> {
        let mut text = Vec::new(alloc);
        match change_disk(alloc, image, self, false, &mut text) {
            (Ok(()), image) => Ok((text, image)),
            (Err(refusal), _image) => Err(refusal),
        }
    }

    fn tell(refusal: ChangeRefusal) -> ChangeRefusal
        ensures { result ≡ refusal }
    {
        refusal
    }
}

// A change of the image in a file by way of a new file that takes its place: a stop of the system leaves
// the old image or the new one.
#[derive(Drop)]
pub struct ChangeAnew<'a, C> {
    // The path of the image's file.
    pub image: &'a str,
    // The change.
    pub change: &'a C,
}

// Makes it so, and prints what it answers. False where the image is in no plain file with one name, or
// there is no place for another beside it: then nothing was done.
pub fn change_anew<'a, R: Locks + AllocGlobal, C: InMemory, H: Holder<R::File>, O: Write>(
    rt: &R,
    anew: &ChangeAnew<'a, C>,
    holder: &mut H,
    out: &mut O,
) -> Result<bool, OnFile<C::Refusal>>
    ensures changed { IfOk result (HasChangedIfSo R.File.remaining (C.makes anew.now.change.now)
        (O.contents out.old) (O.contents out.new) (out.new ≡ out.old)) }
    ensures refused { IfErr result (IsUnchangedAnew R.File.remaining (C.makes anew.now.change.now)
        (C.undone anew.now.change.now) C.told (out.new ≡ out.old)) }
{
    match make_instead(rt, anew.image, anew, holder) {
        Ok(None) => Ok(false),
        Ok(Some(text)) => match write_whole(out, text.as_slice()) {
            Ok(()) => Ok(true),
            Err(_) => Err(OnFile::Of(C::tell(ChangeRefusal::Output))),
        },
        Err(refused) => Err(refused),
    }
}

impl<'a, R: Locks + AllocGlobal, C: InMemory> MakesThere<R> for ChangeAnew<'a, C> {
    // What the change answers.
    type Made = Vec<u8>;

    type Fault = C::Refusal;

    ghost can = { λ anew. ⊤ };

    ghost made = { λ anew text.
        HasChangedAnew R.File.remaining (C.makes anew.change.now) text.items };

    ghost unmade = { λ anew.
        IsNotChangedAnew R.File.remaining (C.undone anew.change.now) C.told };

    ghost files = { λ anew fault. inl tt };

    fn make_there(&self, rt: &R, file: R::File) -> Result<Vec<u8>, OnFile<C::Refusal>> {
        match change_opened(rt, self) {
            Ok((text, mut image)) => match write_new(rt.alloc(), &mut image, file) {
                Ok(()) => Ok(text),
                Err(refused) => Err(told_anew::<C>(refused)),
            },
            Err(refused) => Err(refused),
        }
    }
}

// Makes a change of a copy in memory of an image whose file is held. What it answers, and the image.
fn change_opened<'a, R: Locks + AllocGlobal, C: InMemory>(
    rt: &R,
    anew: &ChangeAnew<'a, C>,
) -> Result<(Vec<u8>, MemDisk), OnFile<C::Refusal>>
    ensures changed { IfOk result (λ made. ChangesOpened R.File.remaining
        (C.makes anew.now.change.now) made.0.items made.1) }
    ensures long { IfOk result (λ made. 2 ≤ length (memory.image made.1)) }
    ensures refused { IfErr result (IsUnchangedOpened R.File.remaining
        (C.undone anew.now.change.now) C.told) }
{
    match open_for(rt, anew.image, Access::Look(Locking::Never)) {
        Ok(mut disk) => match copied_from(rt.alloc(), &mut disk) {
            Ok(copy) => match anew.change.make_in(rt.alloc(), copy) {
                Ok(made) => Ok(made),
                Err(refusal) => Err(OnFile::Of(refusal)),
            },
            Err(_) => Err(OnFile::Of(C::tell(no_memory()))),
        },
        Err(fault) => Err(OnFile::File(fault)),
    }
}

// How it is told that an image was not written to a new file.
fn told_anew<C: InMemory>(refused: OnFile<PutRefusal>) -> OnFile<C::Refusal>
    ensures { result ≡ told_anew C.told refused }
{
    match refused {
        OnFile::File(fault) => OnFile::File(fault),
        OnFile::Of(refusal) => OnFile::Of(C::tell(unwritten_as(refusal))),
    }
}

// How it is told that an image was not written.
fn unwritten_as(refusal: PutRefusal) -> ChangeRefusal
    ensures { result ≡ unwritten_as refusal }
{
    match refusal {
        PutRefusal::Disk(fault) => ChangeRefusal::Disk(fault),
        PutRefusal::NoMemory => no_memory(),
        // Nothing else is told of it.
        _ => ChangeRefusal::Output,
    }
}

// Memory for a copy of an image was refused.
fn no_memory() -> ChangeRefusal
    ensures { result ≡ no_memory }
{
    ChangeRefusal::Unopened(TreeOpenFault::Kernel(OpenFault::NoMemory))
}
