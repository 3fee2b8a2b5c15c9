// Requests that change files.
ghost use Rattle.std.specs.Prelude.{◌≡◌, ◌⊎◌, ◌≤◌, [], IfErr, IfOk, OnOk};
ghost use Rattle.calls.specs.Calls.{image_on};
ghost use Rattle.mounting.specs.Tells.{TellsEntry};
ghost use Rattle.model.specs.Files.{files_of};
ghost use Rattle.names.specs.Making.{MakesDirectoryIn, MakesIn};
ghost use Rattle.names.specs.Numbered.{LooksIn};
ghost use Rattle.mounting.specs.Causes.{
  AddsFile,
  ChangesFile,
  Hinders,
  IsDirectoryKept,
  IsHindered,
  IsNameKept,
  IsNotLinked,
  IsNotOver,
  IsNotRenamed,
  IsNotUnlinked,
  IsUnmade,
  IsUnmadeDirectory,
  IsUnresized,
  IsUnwritten,
  Keeps,
  LeadsTo,
  Leaves,
  TakesName,
};
ghost use Rattle.mounting.specs.Asides.{aside_of, IsHidden};
ghost use Rattle.mounting.specs.Changes.{
  AreSeen,
  Begins,
  Did,
  DidAsked,
  DropsName,
  EndsAt,
  Links,
  Makes,
  MakesDirectory,
  MakesFile,
  MayMake,
  RemovesEmpty,
  RemovesName,
  RenamedAs,
  RenamedFile,
  RenamesAs,
  RenamesFile,
  ResizesAs,
  SetsSize,
  StaySame,
  TellsMade,
  Unlinked,
  Unlinks,
  WritesIn,
};
ghost use Rattle.directories.specs.Entries.{padded};
ghost use Rattle.fuse.specs.Requests.{asked, Release, Write};
ghost use Rattle.directories.specs.Trees.{root};
ghost use Rattle.names.specs.Ready.{AnyOf, MayGoOn};
ghost use Rattle.names.specs.Undirecting.{RemovesDirectoryIn};

use crate::calling::{
    link_in, look_at, look_in, make_directory_in, make_in, remove_directory_in, remove_in,
    rename_in, replace_in,
};
use crate::errno::{Errno, link_errno};
use crate::files::{resize, write};
use crate::listings::{ROOT, aside, has_aside, new_name, old_name};
use crate::looks::tell_opened;
use crate::serving::Server;
use crate::terms::Moment;
use blocks::Disk;
use directories::Name;
use fuse::{Request, wrote_answer};
use names::{Found, Tree, TreeFault};
use std::alloc::Global;

// The type of a file in a mode, and that of a file of bytes.
const TYPE: u32 = 0o170_000;

const FILE: u32 = 0o100_000;

// What of a file is set.
const SETS_SIZE: u32 = 8;

// That no file may have the new name yet.
const NEW_ALONE: u32 = 1;

// A directory's type in an image.
const DIRECTORY: u16 = 1;

impl Server {
    // Changes the file of a number, and adds what is told.
    pub(crate) fn change_file<D: Disk>(
        &mut self,
        alloc: Global,
        tree: &mut Tree<D>,
        node: u32,
        request: &Request<'_>,
        now: Moment,
        out: &mut Vec<u8>,
    ) -> Result<(), Errno>
        requires ready { MayGoOn D.Disk tree.old.kernel tree.old.calls_left }
        requires change { ChangesFile (asked request.now) }
        ensures ready { MayGoOn D.Disk tree.new.kernel tree.new.calls_left }
        ensures makes { Makes D.Disk (λ form. MayMake form node (asked request.now))
            tree.old.kernel tree.new.kernel tree.old.calls_left tree.new.calls_left }
        ensures does { OnOk result (out.old.items ≡ [] → DidAsked D.Disk node
            (asked request.now) out.new.items tree.old.kernel tree.new.kernel) }
        ensures hindered { IfErr result (IsHindered D.Disk (Hinders node (asked request.now))
            tree.new.kernel tree.new.calls_left) }
    {
        match request {
            Request::SetAttributes {
                valid,
                size,
                changed,
                changed_nanoseconds,
                mode,
            } => {
                let time = Moment {
                    seconds: *changed,
                    nanoseconds: *changed_nanoseconds,
                };
                self.set_size(alloc, tree, node, *valid, *size, now)?;
                self.nodes.set(node, *valid, *mode, time, now);
                self.tell(alloc, tree, node, out)
            }
            Request::Write { offset, bytes } => {
                self.write(alloc, tree, node, *offset, bytes, now, out)
            }
            _ => Err(Errno::NotSupported),
        }
    }

    // Gives a file another length, where that is asked for.
    fn set_size<D: Disk>(
        &mut self,
        alloc: Global,
        tree: &mut Tree<D>,
        node: u32,
        valid: u32,
        size: u64,
        now: Moment,
    ) -> Result<(), Errno>
        requires ready { MayGoOn D.Disk tree.old.kernel tree.old.calls_left }
        ensures ready { MayGoOn D.Disk tree.new.kernel tree.new.calls_left }
        ensures makes { Makes D.Disk (ResizesAs valid node size) tree.old.kernel tree.new.kernel
            tree.old.calls_left tree.new.calls_left }
        ensures same { OnOk result ((SetsSize valid → ⊥) → StaySame D.Disk tree.old.kernel
            tree.new.kernel) }
        ensures end { OnOk result (SetsSize valid → EndsAt D.Disk node tree.new.kernel size) }
        ensures hindered { IfErr result (IsHindered D.Disk
            (λ form x e. SetsSize valid × IsUnresized node size form x e)
            tree.new.kernel tree.new.calls_left) }
    {
        if valid & SETS_SIZE == 0 {
            return Ok(());
        }
        resize(alloc, tree, node, size)?;
        self.nodes.touched(node, now);
        Ok(())
    }

    // Writes bytes into the file of a number. How many were written is told.
    fn write<D: Disk>(
        &mut self,
        alloc: Global,
        tree: &mut Tree<D>,
        node: u32,
        offset: u64,
        bytes: &[u8],
        now: Moment,
        out: &mut Vec<u8>,
    ) -> Result<(), Errno>
        requires ready { MayGoOn D.Disk tree.old.kernel tree.old.calls_left }
        ensures ready { MayGoOn D.Disk tree.new.kernel tree.new.calls_left }
        ensures makes { Makes D.Disk (WritesIn node offset bytes.now)
            tree.old.kernel tree.new.kernel tree.old.calls_left tree.new.calls_left }
        ensures does { OnOk result (out.old.items ≡ [] → DidAsked D.Disk node
            (Write offset bytes.now) out.new.items tree.old.kernel tree.new.kernel) }
        ensures hindered { IfErr result (IsHindered D.Disk (IsUnwritten node offset bytes.now)
            tree.new.kernel tree.new.calls_left) }
    {
        self.moved = self.moved.saturating_add(bytes.len() as u64);
        let count = write(alloc, tree, node, offset, bytes)?;
        self.nodes.touched(node, now);
        out.extend_from_slice(&wrote_answer(count))?;
        Ok(())
    }

    // Makes a file in the directory of a number, and adds what is told.
    pub(crate) fn add_file<D: Disk>(
        &mut self,
        alloc: Global,
        tree: &mut Tree<D>,
        node: u32,
        request: &Request<'_>,
        now: Moment,
        out: &mut Vec<u8>,
    ) -> Result<(), Errno>
        requires ready { MayGoOn D.Disk tree.old.kernel tree.old.calls_left }
        requires adds { AddsFile (asked request.now) }
        ensures ready { MayGoOn D.Disk tree.new.kernel tree.new.calls_left }
        ensures makes { Makes D.Disk (λ form. MayMake form node (asked request.now))
            tree.old.kernel tree.new.kernel tree.old.calls_left tree.new.calls_left }
        ensures does { OnOk result (out.old.items ≡ [] → DidAsked D.Disk node
            (asked request.now) out.new.items tree.old.kernel tree.new.kernel) }
        ensures hindered { IfErr result (IsHindered D.Disk (Hinders node (asked request.now))
            tree.new.kernel tree.new.calls_left) }
        ensures kept { IfErr result (Leaves D.Disk (Begins node (asked request.now))
            tree.old.kernel tree.new.kernel tree.new.calls_left) }
    {
        match request {
            Request::MakeNode { mode, name } => {
                // A file of bytes, and no other type.
                if *mode & TYPE != FILE && *mode & TYPE != 0 {
                    return Err(Errno::NotPermitted);
                }
                let _number = self.make(alloc, tree, node, name, *mode, now, out)?;
                Ok(())
            }
            Request::Create { mode, name, .. } => {
                let number = self.make(alloc, tree, node, name, *mode, now, out)?;
                self.nodes.opened(number);
                tell_opened(2, out)
            }
            Request::MakeDirectory { mode, name } => {
                self.make_directory(alloc, tree, node, name, *mode, now, out)
            }
            Request::Link { node: file, name } => {
                let Ok(file) = u32::try_from(*file) else {
                    return Err(Errno::NoEntry);
                };
                self.link(alloc, tree, file, node, name, now, out)
            }
            _ => Err(Errno::NotSupported),
        }
    }

    // Gives the file of a number another name in a directory. One that has only a name aside gets
    // none: no program sees that it is there.
    fn link<D: Disk>(
        &mut self,
        alloc: Global,
        tree: &mut Tree<D>,
        file: u32,
        to: u32,
        name: &[u8],
        now: Moment,
        out: &mut Vec<u8>,
    ) -> Result<(), Errno>
        requires ready { MayGoOn D.Disk tree.old.kernel tree.old.calls_left }
        ensures ready { MayGoOn D.Disk tree.new.kernel tree.new.calls_left }
        ensures makes { Makes D.Disk (Links file to (padded name.now))
            tree.old.kernel tree.new.kernel tree.old.calls_left tree.new.calls_left }
        ensures does { OnOk result (Did D.Disk (Links file to (padded name.now)) tree.old.kernel
            tree.new.kernel) }
        ensures tells { OnOk result (TellsEntry (files_of (image_on D.image tree.new.kernel))
            file out.old.items out.new.items) }
        ensures hindered { IfErr result (IsHindered D.Disk (IsNotLinked file to name.now)
            tree.new.kernel tree.new.calls_left) }
        ensures kept { IfErr result (Keeps D.Disk tree.old.kernel
            tree.new.kernel tree.new.calls_left) }
        ensures seen { OnOk result (IsHidden to name.now → ⊥) }
    {
        let name = new_name(to, name)?;
        if has_aside(alloc, tree, file)? {
            return Err(Errno::NoEntry);
        }
        match link_in(alloc, tree, file, to, &name) {
            Ok(()) => {}
            Err(fault) => return Err(link_errno(fault)),
        }
        self.nodes.touched(to, now);
        let found = look_at(alloc, tree, file)?;
        self.tell_entry(&found, out)
    }

    // Makes a file of bytes. Its number.
    fn make<D: Disk>(
        &mut self,
        alloc: Global,
        tree: &mut Tree<D>,
        node: u32,
        name: &[u8],
        mode: u32,
        now: Moment,
        out: &mut Vec<u8>,
    ) -> Result<u32, Errno>
        requires ready { MayGoOn D.Disk tree.old.kernel tree.old.calls_left }
        ensures ready { MayGoOn D.Disk tree.new.kernel tree.new.calls_left }
        ensures makes { Makes D.Disk (MakesFile node (padded name.now))
            tree.old.kernel tree.new.kernel tree.old.calls_left tree.new.calls_left }
        ensures makes_it { IfOk result (λ number. MakesIn node (padded name.now) number
            (files_of (image_on D.image tree.old.kernel))
            (files_of (image_on D.image tree.new.kernel))) }
        ensures tells { IfOk result (λ number. TellsEntry
            (files_of (image_on D.image tree.new.kernel)) number out.old.items out.new.items) }
        ensures hindered { IfErr result (IsHindered D.Disk (IsUnmade node name.now)
            tree.new.kernel tree.new.calls_left) }
        ensures kept { IfErr result (Keeps D.Disk tree.old.kernel
            tree.new.kernel tree.new.calls_left) }
        ensures seen { OnOk result (IsHidden node name.now → ⊥) }
    {
        let name = new_name(node, name)?;
        let made = make_in(alloc, tree, node, &name)?;
        self.nodes.made(u32::from(made), mode, now);
        self.nodes.touched(node, now);
        let found = Found {
            number: u32::from(made),
            kind: 2,
            links: 1,
            size: 0,
        };
        self.tell_entry(&found, out)?;
        Ok(found.number)
    }

    // Makes a directory.
    fn make_directory<D: Disk>(
        &mut self,
        alloc: Global,
        tree: &mut Tree<D>,
        node: u32,
        name: &[u8],
        mode: u32,
        now: Moment,
        out: &mut Vec<u8>,
    ) -> Result<(), Errno>
        requires ready { MayGoOn D.Disk tree.old.kernel tree.old.calls_left }
        ensures ready { MayGoOn D.Disk tree.new.kernel tree.new.calls_left }
        ensures makes { Makes D.Disk (MakesDirectory node (padded name.now))
            tree.old.kernel tree.new.kernel tree.old.calls_left tree.new.calls_left }
        ensures does { OnOk result (out.old.items ≡ [] → Did D.Disk (λ form.
            TellsMade (MakesDirectoryIn node (padded name.now)) out.new.items)
            tree.old.kernel tree.new.kernel) }
        ensures hindered { IfErr result (IsHindered D.Disk (IsUnmadeDirectory node name.now)
            tree.new.kernel tree.new.calls_left) }
        ensures kept { IfErr result (Keeps D.Disk tree.old.kernel
            tree.new.kernel tree.new.calls_left) }
        ensures seen { OnOk result (IsHidden node name.now → ⊥) }
    {
        let name = new_name(node, name)?;
        let made = make_directory_in(alloc, tree, node, &name)?;
        self.nodes.made(u32::from(made), mode, now);
        self.nodes.touched(node, now);
        let found = Found {
            number: u32::from(made),
            kind: DIRECTORY,
            links: 1,
            size: 32,
        };
        self.tell_entry(&found, out)
    }

    // Takes a name from a file, or one that has the file open.
    pub(crate) fn take_name<D: Disk>(
        &mut self,
        alloc: Global,
        tree: &mut Tree<D>,
        node: u32,
        request: &Request<'_>,
        now: Moment,
    ) -> Result<(), Errno>
        requires ready { MayGoOn D.Disk tree.old.kernel tree.old.calls_left }
        requires takes { TakesName (asked request.now) }
        ensures ready { MayGoOn D.Disk tree.new.kernel tree.new.calls_left }
        ensures makes { Makes D.Disk (λ form. MayMake form node (asked request.now))
            tree.old.kernel tree.new.kernel tree.old.calls_left tree.new.calls_left }
        ensures does { OnOk result (DidAsked D.Disk node (asked request.now) []
            tree.old.kernel tree.new.kernel) }
        ensures hindered { IfErr result (IsHindered D.Disk (Hinders node (asked request.now))
            tree.new.kernel tree.new.calls_left) }
        ensures kept { IfErr result (Leaves D.Disk (Begins node (asked request.now))
            tree.old.kernel tree.new.kernel tree.new.calls_left) }
    {
        match request {
            Request::Unlink { name } => self.unlink(alloc, tree, node, name, now),
            Request::RemoveDirectory { name } => {
                self.remove_directory(alloc, tree, node, name, now)
            }
            Request::Rename {
                to,
                flags,
                old,
                name,
            } => {
                let Ok(to) = u32::try_from(*to) else {
                    return Err(Errno::NoEntry);
                };
                self.rename(alloc, tree, node, old, to, name, *flags)?;
                self.nodes.touched(node, now);
                self.nodes.touched(to, now);
                Ok(())
            }
            Request::Release => self.release(alloc, tree, node),
            _ => Err(Errno::NotSupported),
        }
    }

    // Removes a name. With its last one a file goes too, or gets a name aside while it is open.
    fn unlink<D: Disk>(
        &mut self,
        alloc: Global,
        tree: &mut Tree<D>,
        from: u32,
        name: &[u8],
        now: Moment,
    ) -> Result<(), Errno>
        requires ready { MayGoOn D.Disk tree.old.kernel tree.old.calls_left }
        ensures ready { MayGoOn D.Disk tree.new.kernel tree.new.calls_left }
        ensures makes { Makes D.Disk (Unlinks from (padded name.now))
            tree.old.kernel tree.new.kernel tree.old.calls_left tree.new.calls_left }
        ensures does { OnOk result (Did D.Disk (λ form. Unlinked from (padded name.now))
            tree.old.kernel tree.new.kernel) }
        ensures hindered { IfErr result (IsHindered D.Disk (IsNotUnlinked from name.now)
            tree.new.kernel tree.new.calls_left) }
        ensures kept { IfErr result (Keeps D.Disk tree.old.kernel
            tree.new.kernel tree.new.calls_left) }
        ensures seen { OnOk result (IsHidden from name.now → ⊥) }
    {
        let name = old_name(from, name)?;
        let found = look_in(alloc, tree, from, &name)?;
        if found.kind == DIRECTORY {
            return Err(Errno::IsADirectory);
        }
        self.nodes.touched(from, now);
        self.drop_name(alloc, tree, from, &name, &found)
    }

    // The same of a name of that file.
    fn drop_name<D: Disk>(
        &mut self,
        alloc: Global,
        tree: &mut Tree<D>,
        from: u32,
        name: &Name,
        found: &Found,
    ) -> Result<(), Errno>
        requires ready { MayGoOn D.Disk tree.old.kernel tree.old.calls_left }
        requires leads { LeadsTo (files_of (image_on D.image tree.old.kernel)) from name.now
            found.now.number }
        ensures ready { MayGoOn D.Disk tree.new.kernel tree.new.calls_left }
        ensures makes { Makes D.Disk (Unlinks from name.now) tree.old.kernel tree.new.kernel
            tree.old.calls_left tree.new.calls_left }
        ensures does { OnOk result (Did D.Disk (λ form. DropsName from name.now found.now.number)
            tree.old.kernel tree.new.kernel) }
        ensures hindered { IfErr result (IsHindered D.Disk (IsNameKept from name.now)
            tree.new.kernel tree.new.calls_left) }
        ensures kept { IfErr result (Keeps D.Disk tree.old.kernel
            tree.new.kernel tree.new.calls_left) }
    {
        if self.needs_aside(found) {
            let aside = aside(found.number);
            rename_in(alloc, tree, from, name, ROOT, &aside)?;
            self.nodes.unlinked(found.number);
            return Ok(());
        }
        remove_in(alloc, tree, from, name)?;
        self.nodes.left(found);
        Ok(())
    }

    // Whether a file is open, and a name of it that goes is its last.
    fn needs_aside(&self, found: &Found) -> bool {
        found.links <= 1 && self.nodes.is_open(found.number)
    }

    // Removes an empty directory.
    fn remove_directory<D: Disk>(
        &mut self,
        alloc: Global,
        tree: &mut Tree<D>,
        from: u32,
        name: &[u8],
        now: Moment,
    ) -> Result<(), Errno>
        requires ready { MayGoOn D.Disk tree.old.kernel tree.old.calls_left }
        ensures ready { MayGoOn D.Disk tree.new.kernel tree.new.calls_left }
        ensures makes { Makes D.Disk (RemovesEmpty from (padded name.now))
            tree.old.kernel tree.new.kernel tree.old.calls_left tree.new.calls_left }
        ensures does { OnOk result (Did D.Disk (RemovesEmpty from (padded name.now)) tree.old.kernel
            tree.new.kernel) }
        ensures hindered { IfErr result (IsHindered D.Disk (IsDirectoryKept from name.now)
            tree.new.kernel tree.new.calls_left) }
        ensures kept { IfErr result (Keeps D.Disk tree.old.kernel
            tree.new.kernel tree.new.calls_left) }
        ensures seen { OnOk result (IsHidden from name.now → ⊥) }
    {
        let name = old_name(from, name)?;
        let found = look_in(alloc, tree, from, &name)?;
        remove_directory_in(alloc, tree, from, &name)?;
        self.nodes.gone(found.number);
        self.nodes.touched(from, now);
        Ok(())
    }

    // Gives a file another name, which another file may have.
    fn rename<D: Disk>(
        &mut self,
        alloc: Global,
        tree: &mut Tree<D>,
        from: u32,
        old: &[u8],
        to: u32,
        name: &[u8],
        flags: u32,
    ) -> Result<(), Errno>
        requires ready { MayGoOn D.Disk tree.old.kernel tree.old.calls_left }
        ensures ready { MayGoOn D.Disk tree.new.kernel tree.new.calls_left }
        ensures makes { Makes D.Disk (RenamesAs flags from (padded old.now) to (padded name.now))
            tree.old.kernel tree.new.kernel tree.old.calls_left tree.new.calls_left }
        ensures does { OnOk result (Did D.Disk
            (RenamedAs flags from (padded old.now) to (padded name.now))
            tree.old.kernel tree.new.kernel) }
        ensures hindered { IfErr result (IsHindered D.Disk
            (IsNotRenamed flags from old.now to name.now)
            tree.new.kernel tree.new.calls_left) }
        ensures kept { IfErr result (Leaves D.Disk (λ files new. (new ≡ files)
            ⊎ AnyOf (RemovesDirectoryIn to (padded name.now)) files new)
            tree.old.kernel tree.new.kernel tree.new.calls_left) }
        ensures seen { OnOk result (AreSeen from old.now to name.now) }
        ensures flags { OnOk result (flags ≤ 1) }
    {
        if flags > NEW_ALONE {
            return Err(Errno::Invalid);
        }
        let old = old_name(from, old)?;
        let name = new_name(to, name)?;
        let source = look_in(alloc, tree, from, &old)?;
        match look_in(alloc, tree, to, &name) {
            Err(TreeFault::Refused(_)) => {
                rename_in(alloc, tree, from, &old, to, &name)?;
                Ok(())
            }
            Err(fault) => Err(fault.into()),
            Ok(found) => {
                if flags == NEW_ALONE {
                    return Err(Errno::Exists);
                }
                if source.number == found.number {
                    return Ok(());
                }
                self.rename_over(alloc, tree, from, &old, source, to, &name, found)
            }
        }
    }

    // The same over another file, or over an empty directory, which is removed first.
    fn rename_over<D: Disk>(
        &mut self,
        alloc: Global,
        tree: &mut Tree<D>,
        from: u32,
        old: &Name,
        source: Found,
        to: u32,
        name: &Name,
        found: Found,
    ) -> Result<(), Errno>
        requires ready { MayGoOn D.Disk tree.old.kernel tree.old.calls_left }
        requires looks { LooksIn from old.now source (files_of (image_on D.image tree.old.kernel))
            (files_of (image_on D.image tree.old.kernel)) }
        requires there { LooksIn to name.now found (files_of (image_on D.image tree.old.kernel))
            (files_of (image_on D.image tree.old.kernel)) }
        ensures ready { MayGoOn D.Disk tree.new.kernel tree.new.calls_left }
        ensures makes { Makes D.Disk (RenamesFile from old.now to name.now)
            tree.old.kernel tree.new.kernel tree.old.calls_left tree.new.calls_left }
        ensures does { OnOk result (Did D.Disk (RenamedFile from old.now to name.now)
            tree.old.kernel tree.new.kernel) }
        ensures hindered { IfErr result (IsHindered D.Disk (IsNotOver from old.now to name.now)
            tree.new.kernel tree.new.calls_left) }
        ensures kept { IfErr result (Leaves D.Disk (λ files new. (new ≡ files)
            ⊎ AnyOf (RemovesDirectoryIn to name.now) files new)
            tree.old.kernel tree.new.kernel tree.new.calls_left) }
    {
        if found.kind == DIRECTORY {
            if source.kind != DIRECTORY {
                return Err(Errno::IsADirectory);
            }
            // Two transactions.
            remove_directory_in(alloc, tree, to, name)?;
            self.nodes.gone(found.number);
            rename_in(alloc, tree, from, old, to, name)?;
            return Ok(());
        }
        if source.kind == DIRECTORY {
            return Err(Errno::NotADirectory);
        }
        let keeps = self.needs_aside(&found);
        let aside = aside(found.number);
        replace_in(alloc, tree, from, old, to, name, &aside, keeps)?;
        if keeps {
            self.nodes.unlinked(found.number);
        } else {
            self.nodes.left(&found);
        }
        Ok(())
    }

    // A file is open once less; one without a name of its own goes then.
    fn release<D: Disk>(
        &mut self,
        alloc: Global,
        tree: &mut Tree<D>,
        node: u32,
    ) -> Result<(), Errno>
        requires ready { MayGoOn D.Disk tree.old.kernel tree.old.calls_left }
        ensures ready { MayGoOn D.Disk tree.new.kernel tree.new.calls_left }
        ensures makes { Makes D.Disk (RemovesName root (aside_of node))
            tree.old.kernel tree.new.kernel tree.old.calls_left tree.new.calls_left }
        ensures does { OnOk result (DidAsked D.Disk node Release []
            tree.old.kernel tree.new.kernel) }
        ensures hindered { IfErr result (IsHindered D.Disk (Hinders node Release)
            tree.new.kernel tree.new.calls_left) }
        ensures kept { IfErr result (Keeps D.Disk tree.old.kernel
            tree.new.kernel tree.new.calls_left) }
    {
        if self.nodes.closed(node) {
            let aside = aside(node);
            remove_in(alloc, tree, ROOT, &aside)?;
            self.nodes.gone(node);
        }
        Ok(())
    }
}
