// The command that makes an image with a root directory and files.
ghost use Rattle.std.specs.Prelude.{◌≡◌, ◌<◌, length, map, IfErr, IfOk, OnOk};
ghost use Rattle.blocks.specs.Disk.{AddsNone};
ghost use Rattle.calls.specs.Calls.{image_on};
ghost use Rattle.calls.specs.Stopped.{StaysOver};
ghost use Rattle.calls.specs.Transactions.{HasLabels};
ghost use Rattle.commands_changes.specs.Making.{IsPlan};
ghost use Rattle.model.specs.Files.{files_of};
ghost use Rattle.model.specs.Layout.{form_of, planned_super};
ghost use Rattle.model.specs.Log.{recovered};
ghost use Rattle.names.specs.Inside.{form_seen};
ghost use Rattle.names.specs.Ready.{HasNoFile, IsIdle, IsReady, LeavesIfDone, MayGoOn};
ghost use Rattle.offline.specs.Making.{MakesAs, MakesInOrder};
ghost use Rattle.transfer.specs.Ending.{SyncsIf};
ghost use Rattle.tree_changes.specs.Changes.{IsOfTree};
ghost use Rattle.xvnames.specs.Making.{
  AddsAll,
  AddsFile,
  AddsPart,
  AddsSome,
  AreNamed,
  HasAddedTo,
  HasGrown,
  HasMadeWith,
  IsFilledWith,
  IsLastOf,
  IsMadeWith,
  IsNameOf,
  IsUnlabelled,
  LeavesGrowing,
  StopsGrowing,
  bare,
  files_named,
  new_labels,
};
ghost use Rattle.xvnames.specs.Unmade.{
  IsNotMadeIn,
  IsNotMadeWith,
  IsUnadded,
  IsUnfilled,
  IsUnfilledBy,
  IsUngrown,
  IsUnmadeOn,
  IsUnsynced,
  StopsAdding,
};

use crate::refused::{FillFault, MkfsRefusal};
use blocks::{Disk, FileDisk};
use calls::transactions::open_pair;
use cmd::{Command, OnFile};
use commands::{Holder, MakesThere, make_in_place};
use commands_changes::{Making, ReadFault, bytes_from};
use layout::{Super, plan};
use messages::print_numbers;
use names::{Tree, TreeOpenFault};
use offline::mkfs_as;
use std::alloc::Global;
use std::io::Write;
use std::rt::Files;
use tree_changes::{ChangeRefusal, append_all};
use wal::DeviceFault;

/// Makes an image in a file at the path `image`, with a root directory and the files at these paths,
/// each named by the last part of its path, without a `_` that this begins with, as xv6's mkfs names
/// them; and prints its numbers.
#[derive(Drop)]
pub struct Mkfs<'a, H> {
    /// The path of the image's file.
    pub image: &'a str,
    /// The image.
    pub making: Making,
    /// The paths of the files.
    pub files: &'a [&'a str],
    /// Who holds the files that are made.
    pub holder: H,
}

impl<'a, R: Files + AllocGlobal, H: Holder<R::File> + Drop> Command<R> for Mkfs<'a, H> {
    type Refusal = MkfsRefusal;

    ghost done = { λ mkfs. IsMadeWith ⟦<FileDisk<R::File> as Disk>⟧ mkfs.making
        (map (λ file. file.now) mkfs.files.now) };

    ghost refused = { λ mkfs old new. IsNotMadeWith ⟦<FileDisk<R::File> as Disk>⟧ mkfs.making
        (map (λ file. file.now) mkfs.files.now) };

    fn run<O: Write>(self, rt: &R, out: &mut O) -> Result<(), MkfsRefusal> {
        let Mkfs {
            image,
            making,
            files,
            mut holder,
        } = self;
        if let Err(fault) = plan(making.size, making.ninodes) {
            return Err(MkfsRefusal::Unplanned(fault));
        }
        let files = match read_all(rt, files) {
            Ok(files) => files,
            Err(fault) => return Err(MkfsRefusal::Unread(fault)),
        };
        let filled = Filled {
            making,
            files: files.as_slice(),
        };
        match make_in_place(rt, image, &filled, making.sync, &mut holder) {
            Ok(fields) => match print_numbers(out, &fields) {
                Ok(()) => Ok(()),
                Err(_unwritten) => Err(MkfsRefusal::Output),
            },
            Err(refusal) => Err(MkfsRefusal::Of(refusal)),
        }
    }
}

// A file of the system, by the name that it gets, and its bytes.
#[derive(Drop)]
struct Named<'a> {
    name: &'a [u8],
    bytes: Vec<u8>,
}

// An image with files.
#[derive(Drop)]
struct Filled<'a> {
    making: Making,
    files: &'a [Named<'a>],
}

// The files at these paths.
fn read_all<'a, R: Files + AllocGlobal>(
    rt: &R,
    paths: &[&'a str],
) -> Result<Vec<Named<'a>>, ReadFault>
    ensures { IfOk result (λ files. AreNamed (map (λ path. path.now) paths.now)
        (files_named files.items)) }
{
    let mut files = Vec::new(rt.alloc());
    for path in paths {
        let bytes = bytes_from(rt, path)?;
        let named = Named {
            name: name_of(path.as_bytes()),
            bytes,
        };
        if let Err(_full) = files.push(named) {
            return Err(ReadFault::NoMemory);
        }
    }
    Ok(files)
}

// The last part of a path, without a `_` that it begins with.
fn name_of(path: &[u8]) -> &[u8]
    ensures { IsNameOf path.now result.now }
{
    bare(last_part(path))
}

// What is behind the last slash of a path.
fn last_part(path: &[u8]) -> &[u8]
    ensures { IsLastOf path.now result.now }
{
    let mut from = 0;
    for (i, byte) in path.iter().enumerate() {
        if *byte == b'/' {
            from = i + 1;
        }
    }
    &path[from..]
}

// A name without a `_` that it begins with.
fn bare(name: &[u8]) -> &[u8]
    ensures { result.now ≡ bare name.now }
{
    match name {
        [b'_', rest @ ..] => rest,
        _ => name,
    }
}

impl<'a, R: Files + AllocGlobal> MakesThere<R> for Filled<'a> {
    type Made = Super;

    type Fault = FillFault;

    ghost can = { λ filled. IsPlan filled.making.size filled.making.ninodes };

    ghost made = { λ filled.
        HasMadeWith ⟦<FileDisk<R::File> as Disk>⟧ filled.making (files_named filled.files.now) };

    ghost unmade = { λ filled.
        IsNotMadeIn ⟦<FileDisk<R::File> as Disk>⟧ filled.making (files_named filled.files.now) };

    ghost files = { λ filled fault. tt };

    fn make_there(&self, rt: &R, file: R::File) -> Result<Super, OnFile<FillFault>> {
        match FileDisk::zeroed(rt.alloc(), file, self.making.size) {
            Ok(created) => match fill(rt.alloc(), created, self) {
                Ok(fields) => Ok(fields),
                Err(fault) => Err(OnFile::Of(fault)),
            },
            Err(fault) => Err(OnFile::File(fault)),
        }
    }
}

// Makes the image on a disk, with its root and its files. The fields of its superblock.
fn fill<D: Disk + Drop>(alloc: Global, disk: D, filled: &Filled<'_>) -> Result<Super, FillFault>
    requires plan { IsPlan filled.now.making.size filled.now.making.ninodes }
    requires long { length (D.image disk) ≡ filled.now.making.size }
    ensures filled { IfOk result (IsFilledWith D.Disk filled.now.making
        (files_named filled.now.files.now) disk) }
    ensures refused { IfErr result (IsUnfilled D.Disk filled.now.making
        (files_named filled.now.files.now) disk) }
{
    let mut disk = disk;
    let fields = make_empty(alloc, &mut disk, filled.making)?;
    match fill_tree(alloc, disk, filled.files, filled.making.sync) {
        (Ok(()), _disk) => Ok(fields),
        (Err(refusal), _disk) => Err(FillFault::Change(refusal)),
    }
}

// Makes an image without files on a disk. The fields of its superblock.
fn make_empty<D: Disk>(alloc: Global, disk: &mut D, making: Making) -> Result<Super, FillFault>
    requires plan { IsPlan making.size making.ninodes }
    requires long { length (D.image disk.old) ≡ making.size }
    ensures made { OnOk result
        (MakesAs D.Disk making.form making.size making.ninodes disk.old disk.new) }
    ensures none { OnOk result (HasNoFile (files_of (recovered (D.image disk.new)))) }
    ensures labels { OnOk result (IsUnlabelled (recovered (D.image disk.new))) }
    ensures fields { IfOk result (λ fields. fields ≡ planned_super making.size making.ninodes) }
    ensures order { MakesInOrder D.Disk making.form making.size making.ninodes disk.old disk.new }
    ensures refused { IfErr result (IsUnmadeOn D.Disk disk.old disk.new) }
{
    match plan(making.size, making.ninodes) {
        Ok(fields) => match mkfs_as(alloc, disk, making.size, making.ninodes, making.form) {
            Ok(()) => Ok(fields),
            Err(fault) => Err(FillFault::Mkfs(fault)),
        },
        Err(fault) => Err(FillFault::Mkfs(fault)),
    }
}

// Makes a root directory on a disk without files, and these files in it, and syncs the disk where that
// is asked for. The disk is handed back.
fn fill_tree<D: Disk + Drop>(
    alloc: Global,
    disk: D,
    files: &[Named<'_>],
    sync: bool,
) -> (Result<(), ChangeRefusal>, D)
    requires { HasNoFile (files_of (recovered (D.image disk))) }
    ensures filled { OnOk result.0 (HasAddedTo D.Disk sync
        (form_of (recovered (D.image disk))) (files_named files.now) result.1) }
    ensures labels { OnOk result.0 (IsUnlabelled (recovered (D.image disk))
        → HasLabels new_labels (D.image result.1)) }
    ensures refused { IfErr result.0 (IsUnfilledBy D.Disk sync
        (form_of (recovered (D.image disk))) (files_named files.now) disk result.1) }
    ensures stops { StopsGrowing D.Disk (files_named files.now) disk result.1 }
{
    let kernel = match open_pair(alloc, disk) {
        Ok(kernel) => kernel,
        Err((fault, disk)) => {
            let refusal = ChangeRefusal::Unopened(TreeOpenFault::Kernel(fault));
            return (Err(refusal), disk);
        }
    };
    let mut tree = Tree::over(alloc, kernel);
    match grow(alloc, &mut tree, files) {
        Ok(()) => {
            let mut disk = tree.into_disk();
            let synced = sync_if(&mut disk, sync);
            (synced, disk)
        }
        Err(refusal) => (Err(refusal), tree.into_disk()),
    }
}

// Syncs a disk where that is asked for, and else leaves it alone.
fn sync_if<D: Disk>(disk: &mut D, sync: bool) -> Result<(), ChangeRefusal>
    ensures syncs { OnOk result (SyncsIf sync D.Disk disk.old disk.new) }
    ensures refused { IfErr result (IsUnsynced D.Disk sync disk.old disk.new) }
    ensures time { AddsNone (D.moment disk.old) (D.moment disk.new)
        (D.leaves disk.old) (D.leaves disk.new) }
{
    if sync {
        if let Err(fault) = disk.sync() {
            return Err(ChangeRefusal::Disk(DeviceFault::Sync(fault)));
        }
    }
    Ok(())
}

// Makes the root directory of a tree that has no file, and these files in it.
fn grow<D: Disk>(
    alloc: Global,
    tree: &mut Tree<D>,
    files: &[Named<'_>],
) -> Result<(), ChangeRefusal>
    requires idle { IsIdle D.Disk tree.old.kernel tree.old.calls_left }
    requires none { HasNoFile (files_of (image_on D.image tree.old.kernel)) }
    ensures done { OnOk result (IsReady D.Disk tree.new.kernel tree.new.calls_left) }
    ensures grown { OnOk result (HasGrown (form_seen D.image tree.old.kernel)
        (files_named files.now) (files_of (image_on D.image tree.new.kernel))) }
    ensures refused { IfErr result
        (IsUngrown D.Disk (files_named files.now) tree.old.kernel tree.new.kernel) }
    ensures cause { IfErr result IsOfTree }
    ensures leaves { 0 < tree.old.calls_left
        → LeavesGrowing D.Disk (files_named files.now) tree.old.kernel tree.new.kernel }
    ensures stays { StaysOver D.Disk tree.old.kernel tree.new.kernel }
{
    match tree.make_root(alloc) {
        Ok(()) => add_all(alloc, tree, files),
        Err(fault) => Err(ChangeRefusal::Tree(fault)),
    }
}

// Makes files in the root directory.
fn add_all<D: Disk>(
    alloc: Global,
    tree: &mut Tree<D>,
    files: &[Named<'_>],
) -> Result<(), ChangeRefusal>
    requires { MayGoOn D.Disk tree.old.kernel tree.old.calls_left }
    ensures ready { MayGoOn D.Disk tree.new.kernel tree.new.calls_left }
    ensures done { IsReady D.Disk tree.old.kernel tree.old.calls_left
        → OnOk result (IsReady D.Disk tree.new.kernel tree.new.calls_left) }
    ensures added { OnOk result (AddsAll (form_seen D.image tree.old.kernel)
        (files_named files.now) (files_of (image_on D.image tree.old.kernel))
        (files_of (image_on D.image tree.new.kernel))) }
    ensures refused { IsReady D.Disk tree.old.kernel tree.old.calls_left → IfErr result
        (StopsAdding D.Disk (files_named files.now) tree.old.kernel tree.new.kernel) }
    ensures cause { IfErr result IsOfTree }
    ensures leaves { LeavesIfDone D.Disk (AddsSome (form_seen D.image tree.old.kernel)
        (files_named files.now)) tree.old.kernel tree.new.kernel }
    ensures stays { StaysOver D.Disk tree.old.kernel tree.new.kernel }
{
    for file in files {
        add(alloc, tree, file)?;
    }
    Ok(())
}

// Makes a file in the root directory.
fn add<D: Disk>(alloc: Global, tree: &mut Tree<D>, file: &Named<'_>) -> Result<(), ChangeRefusal>
    requires { MayGoOn D.Disk tree.old.kernel tree.old.calls_left }
    ensures ready { MayGoOn D.Disk tree.new.kernel tree.new.calls_left }
    ensures done { OnOk result (IsReady D.Disk tree.new.kernel tree.new.calls_left) }
    ensures added { OnOk result (AddsFile (form_seen D.image tree.old.kernel)
        file.now.name.now file.now.bytes.items
        (files_of (image_on D.image tree.old.kernel))
        (files_of (image_on D.image tree.new.kernel))) }
    ensures refused { IsReady D.Disk tree.old.kernel tree.old.calls_left → IfErr result
        (IsUnadded D.Disk file.now.name.now file.now.bytes.items tree.old.kernel tree.new.kernel) }
    ensures cause { IfErr result IsOfTree }
    ensures leaves { LeavesIfDone D.Disk (AddsPart (form_seen D.image tree.old.kernel)
        file.now.name.now file.now.bytes.items) tree.old.kernel tree.new.kernel }
    ensures stays { StaysOver D.Disk tree.old.kernel tree.new.kernel }
{
    let path = file.name;
    if let Err(fault) = tree.make(alloc, path) {
        return Err(ChangeRefusal::Tree(fault));
    }
    append_all(alloc, tree, path, file.bytes.as_slice())
}
