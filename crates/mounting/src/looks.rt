// Requests that change no file.
ghost use Rattle.std.specs.Prelude.{◌≡◌, [], IfErr, OnOk};
ghost use Rattle.calls.specs.Calls.{image_on};
ghost use Rattle.fuse.specs.Requests.{asked, Lookup};
ghost use Rattle.mounting.specs.Causes.{Hinders, IsHindered, IsNoMemory, IsRefused, Looks, NoCause};
ghost use Rattle.mounting.specs.Asides.{IsHidden};
ghost use Rattle.mounting.specs.Changes.{DidAsked, IsThere, OnlyLooks, StaySame};
ghost use Rattle.mounting.specs.Tells.{AddsEntry, TellsAttributes, TellsNamed, TellsOpened};
ghost use Rattle.directories.specs.Entries.{padded};
ghost use Rattle.model.specs.Files.{files_of};
ghost use Rattle.names.specs.Numbered.{IsNoFile};
ghost use Rattle.names.specs.Ready.{MayGoOn};

use crate::calling::{look_at, look_in};
use crate::errno::Errno;
use crate::files::read;
use crate::listings::{Part, list, old_name};
use crate::serving::{MOST, Server};
use blocks::Disk;
use fuse::{
    FileSystem, Opened, Request, add_attributes, add_entry, init_answer, opened_answer,
    statfs_answer,
};
use names::{Found, Tree, TreeFault};
use std::alloc::Global;

// What we want of the system, as far as it can do it: reads side by side, writes of many pages, and
// entries with what is told of their files where that helps.
const WANTED: u32 = 0x44_6021;

// The pages of memory of the most bytes of a request.
const PAGES: u16 = 256;

// What the system holds of a file's bytes, or of a directory's entries, is right: nobody else
// writes.
const KEEPS_BYTES: u32 = 2;

const KEEPS_ENTRIES: u32 = 10;

impl Server {
    // Looks, and adds what is told.
    pub(crate) fn look<D: Disk>(
        &mut self,
        alloc: Global,
        tree: &mut Tree<D>,
        node: u32,
        request: &Request<'_>,
        out: &mut Vec<u8>,
    ) -> Result<(), Errno>
        requires ready { MayGoOn D.Disk tree.old.kernel tree.old.calls_left }
        requires looks { Looks (asked request.now) }
        ensures ready { MayGoOn D.Disk tree.new.kernel tree.new.calls_left }
        ensures looks { OnlyLooks D.Disk tree.old.kernel tree.new.kernel
            tree.old.calls_left tree.new.calls_left }
        ensures does { OnOk result (out.old.items ≡ [] → DidAsked D.Disk node
            (asked request.now) out.new.items tree.old.kernel tree.new.kernel) }
        ensures hindered { IfErr result (IsHindered D.Disk (Hinders node (asked request.now))
            tree.new.kernel tree.new.calls_left) }
    {
        match request {
            Request::Init {
                readahead,
                flags,
                ..
            } => begin(*readahead, *flags, out),
            Request::Lookup { name } => self.look_up(alloc, tree, node, name, out),
            Request::GetAttributes => self.tell(alloc, tree, node, out),
            Request::Open { .. } => self.open(alloc, tree, node, out),
            Request::OpenDirectory => tell_opened(KEEPS_ENTRIES, out),
            Request::Read { offset, size } => {
                self.moved = self.moved.saturating_add(u64::from(*size));
                read(alloc, tree, node, *offset, *size, out)
            }
            Request::ReadDirectory { offset, size, plus } => {
                let part = Part {
                    offset: *offset,
                    size: *size as usize,
                    plus: *plus,
                    valid: self.valid,
                };
                list(alloc, tree, &self.nodes, node, part, out)
            }
            Request::StatFs => self.tell_room(alloc, tree, out),
            Request::ReleaseDirectory | Request::Flush | Request::Sync | Request::Destroy => Ok(()),
            _ => Err(Errno::NotSupported),
        }
    }

    // Opens the file of a number.
    fn open<D: Disk>(
        &mut self,
        alloc: Global,
        tree: &mut Tree<D>,
        node: u32,
        out: &mut Vec<u8>,
    ) -> Result<(), Errno>
        requires ready { MayGoOn D.Disk tree.old.kernel tree.old.calls_left }
        ensures ready { MayGoOn D.Disk tree.new.kernel tree.new.calls_left }
        ensures looks { OnlyLooks D.Disk tree.old.kernel tree.new.kernel
            tree.old.calls_left tree.new.calls_left }
        ensures same { OnOk result (StaySame D.Disk tree.old.kernel tree.new.kernel) }
        ensures there { OnOk result (IsThere (files_of (image_on D.image tree.new.kernel)) node) }
        ensures tells { OnOk result (TellsOpened 2 out.old.items out.new.items) }
        ensures hindered { IfErr result (IsHindered D.Disk (IsRefused (IsNoFile node))
            tree.new.kernel tree.new.calls_left) }
    {
        let _found = look_at(alloc, tree, node)?;
        self.nodes.opened(node);
        tell_opened(KEEPS_BYTES, out)
    }

    // What is told of the file of a number.
    pub(crate) fn tell<D: Disk>(
        &self,
        alloc: Global,
        tree: &mut Tree<D>,
        node: u32,
        out: &mut Vec<u8>,
    ) -> Result<(), Errno>
        requires ready { MayGoOn D.Disk tree.old.kernel tree.old.calls_left }
        ensures ready { MayGoOn D.Disk tree.new.kernel tree.new.calls_left }
        ensures looks { OnlyLooks D.Disk tree.old.kernel tree.new.kernel
            tree.old.calls_left tree.new.calls_left }
        ensures same { OnOk result (StaySame D.Disk tree.old.kernel tree.new.kernel) }
        ensures tells { OnOk result (TellsAttributes
            (files_of (image_on D.image tree.new.kernel)) node out.old.items out.new.items) }
        ensures hindered { IfErr result (IsHindered D.Disk (IsRefused (IsNoFile node))
            tree.new.kernel tree.new.calls_left) }
    {
        let found = look_at(alloc, tree, node)?;
        add_attributes(out, &self.nodes.attributes(&found), self.valid)?;
        Ok(())
    }

    // What is told of a file of a name.
    pub(crate) fn tell_entry(&self, found: &Found, out: &mut Vec<u8>) -> Result<(), Errno>
        ensures tells { OnOk result (AddsEntry found.now out.old.items out.new.items) }
        ensures hindered { IfErr result (IsNoMemory) }
    {
        add_entry(
            out,
            &self.nodes.attributes(found),
            self.nodes.generation(found.number),
            self.valid,
        )?;
        Ok(())
    }

    // What is told of the file of a name in the directory of a number.
    fn look_up<D: Disk>(
        &self,
        alloc: Global,
        tree: &mut Tree<D>,
        node: u32,
        name: &[u8],
        out: &mut Vec<u8>,
    ) -> Result<(), Errno>
        requires ready { MayGoOn D.Disk tree.old.kernel tree.old.calls_left }
        ensures ready { MayGoOn D.Disk tree.new.kernel tree.new.calls_left }
        ensures looks { OnlyLooks D.Disk tree.old.kernel tree.new.kernel
            tree.old.calls_left tree.new.calls_left }
        ensures same { OnOk result (StaySame D.Disk tree.old.kernel tree.new.kernel) }
        ensures tells { OnOk result (TellsNamed (files_of (image_on D.image tree.new.kernel))
            node (padded name.now) out.old.items out.new.items) }
        ensures seen { OnOk result (IsHidden node name.now → ⊥) }
        ensures hindered { IfErr result (IsHindered D.Disk (Hinders node (Lookup name.now))
            tree.new.kernel tree.new.calls_left) }
    {
        let name = old_name(node, name)?;
        let found = look_in(alloc, tree, node, &name)?;
        self.tell_entry(&found, out)
    }

    // How much room there is.
    fn tell_room<D: Disk>(
        &self,
        alloc: Global,
        tree: &mut Tree<D>,
        out: &mut Vec<u8>,
    ) -> Result<(), Errno>
        requires ready { MayGoOn D.Disk tree.old.kernel tree.old.calls_left }
        ensures ready { MayGoOn D.Disk tree.new.kernel tree.new.calls_left }
        ensures looks { OnlyLooks D.Disk tree.old.kernel tree.new.kernel
            tree.old.calls_left tree.new.calls_left }
        ensures same { OnOk result (StaySame D.Disk tree.old.kernel tree.new.kernel) }
        ensures hindered { IfErr result (IsHindered D.Disk NoCause
            tree.new.kernel tree.new.calls_left) }
    {
        let mut files = 0u32;
        let mut blocks = 0u32;
        for number in 1..self.nodes.count() {
            if let Some(count) = blocks_at(alloc, tree, number)? {
                files = files.saturating_add(1);
                blocks = blocks.saturating_add(count);
            }
        }
        let numbers = self.nodes.count().saturating_sub(1);
        out.extend_from_slice(&statfs_answer(&FileSystem {
            blocks: u64::from(self.terms.blocks),
            free: u64::from(self.terms.blocks.saturating_sub(blocks)),
            files: u64::from(numbers),
            free_files: u64::from(numbers.saturating_sub(files)),
            block_size: 1024,
            name_size: 14,
        }))?;
        Ok(())
    }
}

// How many blocks the file of a number takes, where there is one.
fn blocks_at<D: Disk>(alloc: Global, tree: &mut Tree<D>, number: u32) -> Result<Option<u32>, Errno>
    requires ready { MayGoOn D.Disk tree.old.kernel tree.old.calls_left }
    ensures ready { MayGoOn D.Disk tree.new.kernel tree.new.calls_left }
    ensures looks { OnlyLooks D.Disk tree.old.kernel tree.new.kernel
        tree.old.calls_left tree.new.calls_left }
    ensures same { OnOk result (StaySame D.Disk tree.old.kernel tree.new.kernel) }
    ensures hindered { IfErr result (IsHindered D.Disk NoCause
        tree.new.kernel tree.new.calls_left) }
{
    match look_at(alloc, tree, number) {
        Ok(found) => Ok(Some(blocks_of(found.size))),
        Err(TreeFault::Refused(_)) => Ok(None),
        Err(fault) => Err(fault.into()),
    }
}

// Tells the version that we speak, and what we want of the system.
fn begin(readahead: u32, flags: u32, out: &mut Vec<u8>) -> Result<(), Errno>
    ensures { IfErr result (IsNoMemory) }
{
    out.extend_from_slice(&init_answer(readahead, flags & WANTED, MOST, PAGES))?;
    Ok(())
}

/// Tells how a file was opened.
pub(crate) fn tell_opened(flags: u32, out: &mut Vec<u8>) -> Result<(), Errno>
    ensures tells { OnOk result (TellsOpened flags out.old.items out.new.items) }
    ensures hindered { IfErr result (IsNoMemory) }
{
    out.extend_from_slice(&opened_answer(&Opened { handle: 0, flags }))?;
    Ok(())
}

// How many blocks a file of so many bytes takes, those of addresses among them.
fn blocks_of(size: u32) -> u32 {
    let count = size.div_ceil(1024);
    if count <= 12 {
        return count;
    }
    count.saturating_add(1).saturating_add((count - 12) / 256)
}
