// Calls of a tree, by what they do to files.
ghost use Rattle.std.specs.Prelude.{IfErr, IfOk, OnErr};
ghost use Rattle.calls.specs.Calls.{image_on};
ghost use Rattle.model.specs.Files.{files_of};
ghost use Rattle.mounting.specs.Causes.{IsNotDone, WrotePart};
ghost use Rattle.mounting.specs.Changes.{
  Links,
  Makes,
  MakesDirectory,
  MakesFile,
  OnlyLooks,
  RemovesEmpty,
  RemovesName,
  StaysIfRefused,
  StaysOn,
  WritesHere,
};
ghost use Rattle.names.specs.Contents.{ReadsOf};
ghost use Rattle.names.specs.Inside.{form_seen};
ghost use Rattle.names.specs.Linking.{IsNotLinkedAs, LinksIn};
ghost use Rattle.names.specs.Making.{IsUnmadeDirectoryIn, IsUnmadeIn, MakesDirectoryIn, MakesIn};
ghost use Rattle.names.specs.Numbered.{
  CutsAt,
  IsNoDirectory,
  IsNoFile,
  IsNoFileOrDirectory,
  IsUnseenIn,
  ListsAt,
  LooksAt,
  LooksIn,
  WritesSomeOf,
};
ghost use Rattle.names.specs.Ready.{AnyOf, MayGoOn};
ghost use Rattle.names.specs.Removing.{IsUnremovedIn, RemovesIn};
ghost use Rattle.names.specs.Renaming.{IsUnrenamed, Renames};
ghost use Rattle.names.specs.Replacing.{IsUnreplaced, Replaces};
ghost use Rattle.names.specs.Undirecting.{IsUnemptiedIn, RemovesDirectoryIn};

use blocks::Disk;
use directories::Name;
use model::content::Content;
use names::{Found, Tree, TreeFault, Unwritten};
use std::alloc::Global;

/// What the file of a number is.
pub(crate) fn look_at<D: Disk>(
    alloc: Global,
    tree: &mut Tree<D>,
    number: u32,
) -> Result<Found, TreeFault>
    requires ready { MayGoOn D.Disk tree.old.kernel tree.old.calls_left }
    ensures ready { MayGoOn D.Disk tree.new.kernel tree.new.calls_left }
    ensures looks { OnlyLooks D.Disk tree.old.kernel tree.new.kernel
        tree.old.calls_left tree.new.calls_left }
    ensures same { StaysIfRefused D.Disk tree.old.kernel tree.new.kernel result }
    ensures does { IfOk result (λ found. LooksAt number found
        (files_of (image_on D.image tree.old.kernel))
        (files_of (image_on D.image tree.new.kernel))) }
    ensures hindered { IfErr result (IsNotDone D.Disk
        (IsNoFile number)
        tree.new.kernel tree.new.calls_left) }
    ensures kept { OnErr result (StaysOn D.Disk tree.old.kernel tree.new.kernel
        tree.new.calls_left) }
{
    tree.look_at(alloc, number)
}

/// What the file is to which a name leads.
pub(crate) fn look_in<D: Disk>(
    alloc: Global,
    tree: &mut Tree<D>,
    from: u32,
    name: &Name,
) -> Result<Found, TreeFault>
    requires ready { MayGoOn D.Disk tree.old.kernel tree.old.calls_left }
    ensures ready { MayGoOn D.Disk tree.new.kernel tree.new.calls_left }
    ensures looks { OnlyLooks D.Disk tree.old.kernel tree.new.kernel
        tree.old.calls_left tree.new.calls_left }
    ensures same { StaysIfRefused D.Disk tree.old.kernel tree.new.kernel result }
    ensures does { IfOk result (λ found. LooksIn from name.now found
        (files_of (image_on D.image tree.old.kernel))
        (files_of (image_on D.image tree.new.kernel))) }
    ensures hindered { IfErr result (IsNotDone D.Disk
        (IsUnseenIn from name.now)
        tree.new.kernel tree.new.calls_left) }
    ensures kept { OnErr result (StaysOn D.Disk tree.old.kernel tree.new.kernel
        tree.new.calls_left) }
{
    tree.look_in(alloc, from, name)
}

/// The bytes of the directory of a number.
pub(crate) fn list_at<D: Disk>(
    alloc: Global,
    tree: &mut Tree<D>,
    number: u32,
) -> Result<Content, TreeFault>
    requires ready { MayGoOn D.Disk tree.old.kernel tree.old.calls_left }
    ensures ready { MayGoOn D.Disk tree.new.kernel tree.new.calls_left }
    ensures looks { OnlyLooks D.Disk tree.old.kernel tree.new.kernel
        tree.old.calls_left tree.new.calls_left }
    ensures does { IfOk result (λ bytes. ListsAt number bytes
        (files_of (image_on D.image tree.old.kernel))
        (files_of (image_on D.image tree.new.kernel))) }
    ensures hindered { IfErr result (IsNotDone D.Disk
        (IsNoDirectory number)
        tree.new.kernel tree.new.calls_left) }
{
    tree.list_at(alloc, number)
}

/// The bytes of the file of a number from an offset on.
pub(crate) fn read_at<D: Disk>(
    alloc: Global,
    tree: &mut Tree<D>,
    number: u32,
    offset: u32,
    count: u32,
) -> Result<Content, TreeFault>
    requires ready { MayGoOn D.Disk tree.old.kernel tree.old.calls_left }
    ensures ready { MayGoOn D.Disk tree.new.kernel tree.new.calls_left }
    ensures looks { OnlyLooks D.Disk tree.old.kernel tree.new.kernel
        tree.old.calls_left tree.new.calls_left }
    ensures does { IfOk result (λ bytes. ReadsOf number offset count bytes
        (files_of (image_on D.image tree.old.kernel))
        (files_of (image_on D.image tree.new.kernel))) }
    ensures hindered { IfErr result (IsNotDone D.Disk
        (IsNoFileOrDirectory number)
        tree.new.kernel tree.new.calls_left) }
{
    tree.read_at(alloc, number, offset, count)
}

/// Writes bytes into the file of a number. How many were written.
pub(crate) fn write_at<D: Disk>(
    alloc: Global,
    tree: &mut Tree<D>,
    number: u32,
    offset: u32,
    bytes: &[u8],
) -> Result<Result<u32, Unwritten>, TreeFault>
    requires ready { MayGoOn D.Disk tree.old.kernel tree.old.calls_left }
    ensures ready { MayGoOn D.Disk tree.new.kernel tree.new.calls_left }
    ensures makes { Makes D.Disk (WritesHere (files_of (image_on D.image tree.old.kernel))
        number offset bytes.now) tree.old.kernel tree.new.kernel
        tree.old.calls_left tree.new.calls_left }
    ensures does { IfOk result (λ done. WritesSomeOf (form_seen D.image
        tree.old.kernel) number offset bytes.now done (files_of (image_on D.image tree.old.kernel))
        (files_of (image_on D.image tree.new.kernel))) }
    ensures hindered { IfErr result (IsNotDone D.Disk
        (IsNoFileOrDirectory number)
        tree.new.kernel tree.new.calls_left) }
    ensures part { IfOk result (WrotePart D.Disk number offset bytes.now tree.new.kernel) }
{
    tree.write_at(alloc, number, offset, bytes)
}

/// Cuts the file of a number to that length.
pub(crate) fn cut_at<D: Disk>(
    alloc: Global,
    tree: &mut Tree<D>,
    number: u32,
    size: u32,
) -> Result<bool, TreeFault>
    requires ready { MayGoOn D.Disk tree.old.kernel tree.old.calls_left }
    ensures ready { MayGoOn D.Disk tree.new.kernel tree.new.calls_left }
    ensures makes { Makes D.Disk (λ form. AnyOf (CutsAt number size))
        tree.old.kernel tree.new.kernel
        tree.old.calls_left tree.new.calls_left }
    ensures does { IfOk result (λ done. CutsAt number size done
        (files_of (image_on D.image tree.old.kernel))
        (files_of (image_on D.image tree.new.kernel))) }
    ensures hindered { IfErr result (IsNotDone D.Disk
        (IsNoFileOrDirectory number)
        tree.new.kernel tree.new.calls_left) }
{
    tree.cut_at(alloc, number, size)
}

/// Makes a file. Its number.
pub(crate) fn make_in<D: Disk>(
    alloc: Global,
    tree: &mut Tree<D>,
    from: u32,
    name: &Name,
) -> Result<u16, TreeFault>
    requires ready { MayGoOn D.Disk tree.old.kernel tree.old.calls_left }
    ensures ready { MayGoOn D.Disk tree.new.kernel tree.new.calls_left }
    ensures makes { Makes D.Disk (MakesFile from name.now)
        tree.old.kernel tree.new.kernel
        tree.old.calls_left tree.new.calls_left }
    ensures does { IfOk result (λ number. MakesIn from name.now number
        (files_of (image_on D.image tree.old.kernel))
        (files_of (image_on D.image tree.new.kernel))) }
    ensures hindered { IfErr result (IsNotDone D.Disk
        (λ files. IsUnmadeIn files from name.now)
        tree.new.kernel tree.new.calls_left) }
    ensures kept { OnErr result (StaysOn D.Disk tree.old.kernel tree.new.kernel
        tree.new.calls_left) }
{
    tree.make_in(alloc, from, name)
}

/// Makes a directory. Its number.
pub(crate) fn make_directory_in<D: Disk>(
    alloc: Global,
    tree: &mut Tree<D>,
    from: u32,
    name: &Name,
) -> Result<u16, TreeFault>
    requires ready { MayGoOn D.Disk tree.old.kernel tree.old.calls_left }
    ensures ready { MayGoOn D.Disk tree.new.kernel tree.new.calls_left }
    ensures makes { Makes D.Disk (MakesDirectory from name.now)
        tree.old.kernel tree.new.kernel
        tree.old.calls_left tree.new.calls_left }
    ensures does { IfOk result (λ number. MakesDirectoryIn from name.now number
        (files_of (image_on D.image tree.old.kernel))
        (files_of (image_on D.image tree.new.kernel))) }
    ensures hindered { IfErr result (IsNotDone D.Disk
        (λ files. IsUnmadeDirectoryIn files from name.now)
        tree.new.kernel tree.new.calls_left) }
    ensures kept { OnErr result (StaysOn D.Disk tree.old.kernel tree.new.kernel
        tree.new.calls_left) }
{
    tree.make_directory_in(alloc, from, name)
}

/// Gives the file of a number another name.
pub(crate) fn link_in<D: Disk>(
    alloc: Global,
    tree: &mut Tree<D>,
    number: u32,
    to: u32,
    name: &Name,
) -> Result<(), TreeFault>
    requires ready { MayGoOn D.Disk tree.old.kernel tree.old.calls_left }
    ensures ready { MayGoOn D.Disk tree.new.kernel tree.new.calls_left }
    ensures makes { Makes D.Disk (Links number to name.now)
        tree.old.kernel tree.new.kernel
        tree.old.calls_left tree.new.calls_left }
    ensures does { IfOk result (λ done. LinksIn number to name.now done
        (files_of (image_on D.image tree.old.kernel))
        (files_of (image_on D.image tree.new.kernel))) }
    ensures hindered { IfErr result (IsNotDone D.Disk
        (IsNotLinkedAs number to name.now)
        tree.new.kernel tree.new.calls_left) }
    ensures kept { OnErr result (StaysOn D.Disk tree.old.kernel tree.new.kernel
        tree.new.calls_left) }
{
    tree.link_in(alloc, number, to, name)
}

/// Removes a name, with its file where that has no other one.
pub(crate) fn remove_in<D: Disk>(
    alloc: Global,
    tree: &mut Tree<D>,
    from: u32,
    name: &Name,
) -> Result<(), TreeFault>
    requires ready { MayGoOn D.Disk tree.old.kernel tree.old.calls_left }
    ensures ready { MayGoOn D.Disk tree.new.kernel tree.new.calls_left }
    ensures makes { Makes D.Disk (RemovesName from name.now)
        tree.old.kernel tree.new.kernel
        tree.old.calls_left tree.new.calls_left }
    ensures does { IfOk result (λ done. RemovesIn from name.now done
        (files_of (image_on D.image tree.old.kernel))
        (files_of (image_on D.image tree.new.kernel))) }
    ensures hindered { IfErr result (IsNotDone D.Disk
        (λ files. IsUnremovedIn files from name.now)
        tree.new.kernel tree.new.calls_left) }
    ensures kept { OnErr result (StaysOn D.Disk tree.old.kernel tree.new.kernel
        tree.new.calls_left) }
{
    tree.remove_in(alloc, from, name)
}

/// Removes an empty directory with its name.
pub(crate) fn remove_directory_in<D: Disk>(
    alloc: Global,
    tree: &mut Tree<D>,
    from: u32,
    name: &Name,
) -> Result<(), TreeFault>
    requires ready { MayGoOn D.Disk tree.old.kernel tree.old.calls_left }
    ensures ready { MayGoOn D.Disk tree.new.kernel tree.new.calls_left }
    ensures makes { Makes D.Disk (RemovesEmpty from name.now)
        tree.old.kernel tree.new.kernel
        tree.old.calls_left tree.new.calls_left }
    ensures does { IfOk result (λ done. RemovesDirectoryIn from name.now done
        (files_of (image_on D.image tree.old.kernel))
        (files_of (image_on D.image tree.new.kernel))) }
    ensures hindered { IfErr result (IsNotDone D.Disk
        (λ files. IsUnemptiedIn files from name.now)
        tree.new.kernel tree.new.calls_left) }
    ensures kept { OnErr result (StaysOn D.Disk tree.old.kernel tree.new.kernel
        tree.new.calls_left) }
{
    tree.remove_directory_in(alloc, from, name)
}

/// Gives a file another name.
pub(crate) fn rename_in<D: Disk>(
    alloc: Global,
    tree: &mut Tree<D>,
    from: u32,
    old: &Name,
    to: u32,
    name: &Name,
) -> Result<(), TreeFault>
    requires ready { MayGoOn D.Disk tree.old.kernel tree.old.calls_left }
    ensures ready { MayGoOn D.Disk tree.new.kernel tree.new.calls_left }
    ensures makes { Makes D.Disk (λ form. AnyOf (Renames from old.now to name.now))
        tree.old.kernel tree.new.kernel
        tree.old.calls_left tree.new.calls_left }
    ensures does { IfOk result (λ done. Renames from old.now to name.now done
        (files_of (image_on D.image tree.old.kernel))
        (files_of (image_on D.image tree.new.kernel))) }
    ensures same { StaysIfRefused D.Disk tree.old.kernel tree.new.kernel result }
    ensures hindered { IfErr result (IsNotDone D.Disk
        (λ files. IsUnrenamed files from old.now to name.now)
        tree.new.kernel tree.new.calls_left) }
    ensures kept { OnErr result (StaysOn D.Disk tree.old.kernel tree.new.kernel
        tree.new.calls_left) }
{
    tree.rename_in(alloc, from, old, to, name)
}

/// Gives a file the name of another one, which goes, or keeps a name aside.
pub(crate) fn replace_in<D: Disk>(
    alloc: Global,
    tree: &mut Tree<D>,
    from: u32,
    old: &Name,
    to: u32,
    name: &Name,
    aside: &Name,
    keeps: bool,
) -> Result<(), TreeFault>
    requires ready { MayGoOn D.Disk tree.old.kernel tree.old.calls_left }
    ensures ready { MayGoOn D.Disk tree.new.kernel tree.new.calls_left }
    ensures makes { Makes D.Disk (λ form.
        AnyOf (Replaces from old.now to name.now aside.now keeps))
        tree.old.kernel tree.new.kernel
        tree.old.calls_left tree.new.calls_left }
    ensures does { IfOk result (λ done. Replaces from old.now to name.now aside.now keeps done
        (files_of (image_on D.image tree.old.kernel))
        (files_of (image_on D.image tree.new.kernel))) }
    ensures same { StaysIfRefused D.Disk tree.old.kernel tree.new.kernel result }
    ensures hindered { IfErr result (IsNotDone D.Disk
        (IsUnreplaced from old.now to name.now aside.now keeps)
        tree.new.kernel tree.new.calls_left) }
    ensures kept { OnErr result (StaysOn D.Disk tree.old.kernel tree.new.kernel
        tree.new.calls_left) }
{
    tree.replace_in(alloc, from, old, to, name, aside, keeps)
}
