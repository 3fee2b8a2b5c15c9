// The entries of directories.
ghost use Rattle.std.specs.Prelude.{OnOk, ◌≡◌, ◌+◌, ◌^◌, ◌<◌, ◌++◌, replicate, IfErr, IfOk, IsTrue};
ghost use Rattle.std.specs.List.{list_all};
ghost use Rattle.calls.specs.Calls.{image_on};
ghost use Rattle.directories.specs.Entries.{entries_of, padded};
ghost use Rattle.directories.specs.Trees.{directory_in, root, IsDirectory};
ghost use Rattle.model.specs.Files.{files_of};
ghost use Rattle.mounting.specs.Causes.{
  IsHindered,
  IsNoMemory,
  IsNoNewName,
  IsNoOldName,
  IsRefused,
  LeadsTo,
  NoCause,
};
ghost use Rattle.mounting.specs.Asides.{aside_of, digit, is_aside, is_digit, IsHidden};
ghost use Rattle.mounting.specs.Changes.{Makes, OnlyLooks, RemovesAside, StaySame};
ghost use Rattle.mounting.specs.Listings.{
  is_hidden,
  told_size,
  Lists,
  ListsOn,
  TellsFile,
  TellsFound,
  TellsName,
  TellsOf,
};
ghost use Rattle.names.specs.Numbered.{IsNoDirectory};
ghost use Rattle.names.specs.Ready.{MayGoOn};

use crate::calling::{list_at, look_at, look_in, remove_in};
use crate::errno::Errno;
use crate::nodes::Nodes;
use blocks::Disk;
use directories::{ENTRY_SIZE, NAME_SIZE, Name, entries_in, leads_down, number_in, text_in};
use fuse::{add_entry, directory_entry, padding_of};
use names::{Found, Tree, TreeFault};
use std::alloc::Global;

/// The number of the root.
pub(crate) const ROOT: u32 = 1;

// The beginning of a name that a file has aside: `.xvgone`.
const ASIDE: &[u8] = b".xvgone";

// How many bytes it has; so many digits stand behind it that a name is full.
const ASIDE_SIZE: usize = 7;

// One of the digits of a number.
fn digit(number: u32) -> u8
    ensures { result ≡ digit number }
{
    48 + (number % 10) as u8
}

/// The name that the file of a number has aside in the root, when its last one was removed while it
/// was open.
pub(crate) fn aside(number: u32) -> Name
    ensures { result ≡ aside_of number }
{
    let bytes = [
        46,
        120,
        118,
        103,
        111,
        110,
        101,
        digit(number / 1_000_000),
        digit(number / 100_000),
        digit(number / 10_000),
        digit(number / 1_000),
        digit(number / 100),
        digit(number / 10),
        digit(number),
    ];
    match Name::new(&bytes) {
        Ok(name) => name,
        // It has 14 bytes, none of which is a zero or a slash.
        Err(_) => unreachable!(),
    }
}

/// Whether the file of a number has its name aside.
pub(crate) fn has_aside<D: Disk>(
    alloc: Global,
    tree: &mut Tree<D>,
    file: u32,
) -> Result<bool, Errno>
    requires ready { MayGoOn D.Disk tree.old.kernel tree.old.calls_left }
    ensures ready { MayGoOn D.Disk tree.new.kernel tree.new.calls_left }
    ensures looks { OnlyLooks D.Disk tree.old.kernel tree.new.kernel
        tree.old.calls_left tree.new.calls_left }
    ensures same { OnOk result (StaySame D.Disk tree.old.kernel tree.new.kernel) }
    ensures told { IfOk result (λ told. IsTrue told →
        LeadsTo (files_of (image_on D.image tree.new.kernel)) root (aside_of file) file) }
    ensures hindered { IfErr result (IsHindered D.Disk NoCause
        tree.new.kernel tree.new.calls_left) }
{
    match look_in(alloc, tree, ROOT, &aside(file)) {
        Ok(found) => Ok(found.number == file),
        Err(TreeFault::Refused(_)) => Ok(false),
        Err(fault) => Err(fault.into()),
    }
}

/// Whether that name is one aside.
pub(crate) fn is_aside(name: &[u8]) -> bool
    ensures { result ≡ is_aside name.now }
{
    name.len() == NAME_SIZE && name.starts_with(ASIDE) && are_digits(&name[ASIDE_SIZE..])
}

// Whether each of these bytes is a digit.
fn are_digits(bytes: &[u8]) -> bool
    ensures { result ≡ list_all is_digit bytes.now }
{
    bytes.iter().all(|byte| *byte >= 48 && *byte <= 57)
}

/// The name of these bytes, for a file that gets it in the directory of a number.
///
/// # Errors
///
/// `NotPermitted` for a name aside in the root, and those of a name.
pub(crate) fn new_name(node: u32, name: &[u8]) -> Result<Name, Errno>
    ensures is { IfOk result (λ made. made ≡ padded name.now) }
    ensures seen { OnOk result (IsHidden node name.now → ⊥) }
    ensures hindered { IfErr result (IsNoNewName node name.now) }
{
    if node == ROOT && is_aside(name) {
        return Err(Errno::NotPermitted);
    }
    Ok(Name::new(name)?)
}

/// The name of these bytes, of a file in the directory of a number.
///
/// # Errors
///
/// `NoEntry` for a name aside in the root, and those of a name.
pub(crate) fn old_name(node: u32, name: &[u8]) -> Result<Name, Errno>
    ensures is { IfOk result (λ is. is ≡ padded name.now) }
    ensures seen { OnOk result (IsHidden node name.now → ⊥) }
    ensures hindered { IfErr result (IsNoOldName node name.now) }
{
    if node == ROOT && is_aside(name) {
        return Err(Errno::NoEntry);
    }
    Ok(Name::new(name)?)
}

/// What is listed of a directory.
#[derive(Clone, Copy)]
pub(crate) struct Part {
    /// From this place on.
    pub offset: u64,
    /// No more than so many bytes.
    pub size: usize,
    /// With what is told of each file.
    pub plus: bool,
    /// For so many seconds the system may rely on that.
    pub valid: u64,
}

/// A part of the entries of the directory of a number, added to these bytes, of which there are
/// none yet.
pub(crate) fn list<D: Disk>(
    alloc: Global,
    tree: &mut Tree<D>,
    nodes: &Nodes,
    number: u32,
    part: Part,
    out: &mut Vec<u8>,
) -> Result<(), Errno>
    requires ready { MayGoOn D.Disk tree.old.kernel tree.old.calls_left }
    ensures ready { MayGoOn D.Disk tree.new.kernel tree.new.calls_left }
    ensures looks { OnlyLooks D.Disk tree.old.kernel tree.new.kernel
        tree.old.calls_left tree.new.calls_left }
    ensures same { OnOk result (StaySame D.Disk tree.old.kernel tree.new.kernel) }
    ensures directory { OnOk result (IsDirectory
        (files_of (image_on D.image tree.old.kernel)) number) }
    ensures lists { OnOk result (Lists (files_of (image_on D.image tree.old.kernel)) number
        part.offset part.size part.plus 0
        (entries_of (directory_in (files_of (image_on D.image tree.old.kernel)) number))
        out.old.items out.new.items) }
    ensures hindered { IfErr result (IsHindered D.Disk (IsRefused (IsNoDirectory number))
        tree.new.kernel tree.new.calls_left) }
{
    let bytes = list_at(alloc, tree, number)?;
    let mut place = 0u64;
    for entry in entries_in(bytes.as_slice()) {
        if !list_entry(alloc, tree, nodes, number, entry, place, part, out)? {
            return Ok(());
        }
        place += 1;
    }
    Ok(())
}

// Adds what is told of an entry at a place, unless it is hidden or stands before the part that is
// asked for. Whether there was room.
fn list_entry<D: Disk>(
    alloc: Global,
    tree: &mut Tree<D>,
    nodes: &Nodes,
    number: u32,
    entry: &[u8; ENTRY_SIZE],
    place: u64,
    part: Part,
    out: &mut Vec<u8>,
) -> Result<bool, Errno>
    requires ready { MayGoOn D.Disk tree.old.kernel tree.old.calls_left }
    requires low { place + 1 < 2 ^ 64 }
    ensures ready { MayGoOn D.Disk tree.new.kernel tree.new.calls_left }
    ensures looks { OnlyLooks D.Disk tree.old.kernel tree.new.kernel
        tree.old.calls_left tree.new.calls_left }
    ensures same { OnOk result (StaySame D.Disk tree.old.kernel tree.new.kernel) }
    ensures lists { IfOk result (ListsOn (files_of (image_on D.image tree.new.kernel)) number
        part.offset part.size part.plus place entry.now out.old.items out.new.items) }
    ensures hindered { IfErr result (IsHindered D.Disk NoCause
        tree.new.kernel tree.new.calls_left) }
{
    if place < part.offset {
        return Ok(true);
    }
    if is_hidden(number, entry) {
        return Ok(true);
    }
    if out.len().saturating_add(whole_size(entry, part.plus)) > part.size {
        return Ok(false);
    }
    add(alloc, tree, nodes, entry, place + 1, part, out)?;
    Ok(true)
}

// Whether an entry is free, or one of the names aside, which are in the root.
fn is_hidden(number: u32, entry: &[u8; ENTRY_SIZE]) -> bool
    ensures { result ≡ is_hidden number entry.now }
{
    number_in(entry) == 0 || (number == ROOT && is_aside(text_in(entry)))
}

// How many bytes an entry takes.
fn whole_size(entry: &[u8; ENTRY_SIZE], plus: bool) -> usize
    ensures { result ≡ told_size plus entry.now }
{
    let size = text_in(entry).len();
    let more = if plus { 152 } else { 24 };
    size.saturating_add(padding_of(size)).saturating_add(more)
}

// Adds what is told of the file of an entry, where that is asked for. Its type, as entries tell it.
fn add_told<D: Disk>(
    alloc: Global,
    tree: &mut Tree<D>,
    nodes: &Nodes,
    entry: &[u8; ENTRY_SIZE],
    part: Part,
    out: &mut Vec<u8>,
) -> Result<u32, Errno>
    requires ready { MayGoOn D.Disk tree.old.kernel tree.old.calls_left }
    ensures ready { MayGoOn D.Disk tree.new.kernel tree.new.calls_left }
    ensures looks { OnlyLooks D.Disk tree.old.kernel tree.new.kernel
        tree.old.calls_left tree.new.calls_left }
    ensures same { OnOk result (StaySame D.Disk tree.old.kernel tree.new.kernel) }
    ensures tells { IfOk result (λ kind. TellsFile (files_of (image_on D.image tree.new.kernel))
        entry.now part.plus kind out.old.items out.new.items) }
    ensures hindered { IfErr result (IsHindered D.Disk NoCause
        tree.new.kernel tree.new.calls_left) }
{
    if !part.plus {
        return Ok(0);
    }
    if !leads_down(entry) {
        return add_nothing(out);
    }
    let file = u32::from(number_in(entry));
    match look_at(alloc, tree, file) {
        Ok(found) => add_found(nodes, &found, part, out),
        Err(TreeFault::Refused(_)) => add_nothing(out),
        Err(fault) => Err(fault.into()),
    }
}

// Adds what is told of a file that was found. Its type.
fn add_found(nodes: &Nodes, found: &Found, part: Part, out: &mut Vec<u8>) -> Result<u32, Errno>
    ensures tells { IfOk result (TellsFound found.now out.old.items out.new.items) }
    ensures hindered { IfErr result (IsNoMemory) }
{
    let attributes = nodes.attributes(found);
    add_entry(out, &attributes, nodes.generation(found.number), part.valid)?;
    Ok(attributes.mode / 4096)
}

// Adds zeroes, by which nothing is told of a file.
fn add_nothing(out: &mut Vec<u8>) -> Result<u32, Errno>
    ensures tells { IfOk result (λ kind. (kind ≡ 4)
        × (out.new.items ≡ out.old.items ++ replicate 128 0)) }
    ensures hindered { IfErr result (IsNoMemory) }
{
    out.extend_from_slice(&[0u8; 128])?;
    Ok(4)
}

// Adds the name of an entry, and what stands before it.
fn add_name(entry: &[u8; ENTRY_SIZE], next: u64, kind: u32, out: &mut Vec<u8>) -> Result<(), Errno>
    ensures tells { OnOk result (TellsName entry.now next kind out.old.items out.new.items) }
    ensures hindered { IfErr result (IsNoMemory) }
{
    let name = text_in(entry);
    let file = u64::from(number_in(entry));
    out.extend_from_slice(&directory_entry(file, next, name.len() as u32, kind))?;
    out.extend_from_slice(name)?;
    let zeroes = [0u8; 8];
    out.extend_from_slice(&zeroes[..padding_of(name.len())])?;
    Ok(())
}

// Adds an entry.
fn add<D: Disk>(
    alloc: Global,
    tree: &mut Tree<D>,
    nodes: &Nodes,
    entry: &[u8; ENTRY_SIZE],
    next: u64,
    part: Part,
    out: &mut Vec<u8>,
) -> Result<(), Errno>
    requires ready { MayGoOn D.Disk tree.old.kernel tree.old.calls_left }
    ensures ready { MayGoOn D.Disk tree.new.kernel tree.new.calls_left }
    ensures looks { OnlyLooks D.Disk tree.old.kernel tree.new.kernel
        tree.old.calls_left tree.new.calls_left }
    ensures same { OnOk result (StaySame D.Disk tree.old.kernel tree.new.kernel) }
    ensures tells { OnOk result (TellsOf (files_of (image_on D.image tree.new.kernel)) part.plus
        next entry.now out.old.items out.new.items) }
    ensures hindered { IfErr result (IsHindered D.Disk NoCause
        tree.new.kernel tree.new.calls_left) }
{
    match add_told(alloc, tree, nodes, entry, part, out) {
        Ok(kind) => add_name(entry, next, kind, out),
        Err(errno) => Err(errno),
    }
}

// Removes a name aside, with its file.
fn sweep_entry<D: Disk>(
    alloc: Global,
    tree: &mut Tree<D>,
    entry: &[u8; ENTRY_SIZE],
) -> Result<(), Errno>
    requires ready { MayGoOn D.Disk tree.old.kernel tree.old.calls_left }
    ensures ready { MayGoOn D.Disk tree.new.kernel tree.new.calls_left }
    ensures makes { Makes D.Disk (RemovesAside) tree.old.kernel tree.new.kernel
        tree.old.calls_left tree.new.calls_left }
{
    if number_in(entry) == 0 || !is_aside(text_in(entry)) {
        return Ok(());
    }
    let name = Name::new(text_in(entry))?;
    match remove_in(alloc, tree, ROOT, &name) {
        // A directory is none that we put aside.
        Ok(()) | Err(TreeFault::Refused(_)) => Ok(()),
        Err(fault) => Err(fault.into()),
    }
}

/// Removes the files that have names aside: a stop left them.
pub(crate) fn sweep<D: Disk>(alloc: Global, tree: &mut Tree<D>) -> Result<(), Errno>
    requires ready { MayGoOn D.Disk tree.old.kernel tree.old.calls_left }
    ensures ready { MayGoOn D.Disk tree.new.kernel tree.new.calls_left }
    ensures makes { Makes D.Disk (RemovesAside) tree.old.kernel tree.new.kernel
        tree.old.calls_left tree.new.calls_left }
{
    let bytes = list_at(alloc, tree, ROOT)?;
    for entry in entries_in(bytes.as_slice()) {
        sweep_entry(alloc, tree, entry)?;
    }
    Ok(())
}
