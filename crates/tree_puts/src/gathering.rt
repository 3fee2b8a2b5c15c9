// What is below a folder of the system.
ghost use Rattle.std.specs.Prelude.{◌≡◌, ◌<◌, ◌++◌, [], ◌∷◌, length, IfOk, IfSome, OnOk};
ghost use Rattle.directories.specs.Entries.{slash};
ghost use Rattle.tree_puts.specs.Gathering.{gathering_telling, AddsBelow, AreBelow};

use commands_changes::{ReadFault, bytes_from};
use directories::NAME_SIZE;
use layout::{MOST_BLOCKS, MOST_INODES};
use messages::{Reason, Told};
use std::alloc::{AllocError, Global};
use std::fs::symlink_metadata;
use std::io;
use std::io::{ErrorKind, Read};
use std::rt::Files;
use tree_changes::{Item, What};

// No image has so many files, nor more bytes in them.
const MOST_ITEMS: usize = MOST_INODES as usize;

const MOST_BYTES: usize = MOST_BLOCKS as usize * 1024;

// The names of one folder are read in so many pieces at most.
const MOST_READS: u32 = 1000;

/// Why what is below a folder of the system can't be put into an image.
#[derive(Clone, Copy, Debug)]
pub enum FolderFault {
    /// Memory was refused.
    NoMemory,
    /// A folder or a file can't be read.
    File,
    /// Something is neither a file nor a folder, as a link.
    Special,
    /// A name has more than 14 bytes.
    NameTooLong,
    /// A name isn't UTF-8.
    BadName,
    /// There is more than any image has inodes.
    TooMany,
    /// The files have more bytes than any image.
    TooLarge,
}

impl Reason for FolderFault {
    ghost telling = { gathering_telling };

    fn told(&self) -> Told {
        match self {
            FolderFault::NoMemory => ReadFault::NoMemory.told(),
            FolderFault::File => ReadFault::File.told(),
            FolderFault::Special => Told::new("put", 8, "Special"),
            FolderFault::NameTooLong => Told::new("names", 8, "NameTooLong"),
            FolderFault::BadName => Told::new("names", 19, "BadName"),
            FolderFault::TooMany => Told::new("names", 10, "NoNumber"),
            FolderFault::TooLarge => Told::new("names", 11, "NoBlock"),
        }
    }
}

// What was found so far, and how many bytes are in its files.
#[derive(Drop)]
struct Found {
    items: Vec<Item>,
    bytes: usize,
}

/// All that is below a folder of the system, as what is put below a path: the folders as directories and
/// the files with their bytes, each behind the folder that it is in, those of one folder by their names.
/// A link is not followed, but where the folder's own path leads through one.
///
/// # Errors
///
/// The first of a `FolderFault`.
pub fn gather<R: Files + AllocGlobal>(
    rt: &R,
    folder: &str,
    path: &[u8],
) -> Result<Vec<Item>, FolderFault>
    ensures below { IfOk result (λ items. AreBelow path.now items.items) }
{
    if folder.is_empty() {
        return Err(FolderFault::File);
    }
    let items = Vec::new(rt.alloc());
    let mut found = Found { items, bytes: 0 };
    add_below(rt, folder, path, &mut found)?;
    for place in 0..usize::MAX {
        if place >= found.items.len() {
            break;
        }
        add_next(rt, folder, path, place, &mut found)?;
    }
    let Found { items, bytes: _ } = found;
    Ok(items)
}

// Adds what is in the folder of an item, if it is one.
fn add_next<R: Files + AllocGlobal>(
    rt: &R,
    folder: &str,
    path: &[u8],
    place: usize,
    found: &mut Found,
) -> Result<(), FolderFault>
    requires place { place < length found.old.items.items }
    requires below { AreBelow path.now found.old.items.items }
    ensures adds { OnOk result
        (AddsBelow path.now found.old.items.items found.new.items.items) }
{
    match folder_of(rt.alloc(), folder, path.len(), &found.items[place]) {
        Ok(Some((host, own))) => add_below(rt, host.as_str(), own.as_slice(), found),
        Ok(None) => Ok(()),
        Err(fault) => Err(fault),
    }
}

// The folder of an item and the item's path, of which so many bytes are no part of the folder's; none
// where it is no directory.
fn folder_of(
    alloc: Global,
    folder: &str,
    from: usize,
    item: &Item,
) -> Result<Option<(String, Vec<u8>)>, FolderFault>
    ensures path { IfOk result (λ found. IfSome found
        (λ pair. pair.1.items ≡ item.now.path.items)) }
{
    if let What::Bytes(_bytes) = &item.what {
        return Ok(None);
    }
    match host_of(alloc, folder, from, item.path.as_slice()) {
        Ok(host) => match Vec::from_slice(alloc, item.path.as_slice()) {
            Ok(own) => Ok(Some((host, own))),
            Err(_refused) => Err(FolderFault::NoMemory),
        },
        Err(fault) => Err(fault),
    }
}

// A folder's path, and behind it that of an item without its first bytes.
fn host_of(alloc: Global, folder: &str, from: usize, path: &[u8]) -> Result<String, FolderFault> {
    let Some(rest) = path.get(from..) else {
        return Err(FolderFault::BadName);
    };
    let Ok(rest) = str::from_utf8(rest) else {
        return Err(FolderFault::BadName);
    };
    match format!(in alloc; "{folder}{rest}") {
        Ok(host) => Ok(host),
        Err(_refused) => Err(FolderFault::NoMemory),
    }
}

// Adds what is in a folder, below a path.
fn add_below<R: Files + AllocGlobal>(
    rt: &R,
    host: &str,
    path: &[u8],
    found: &mut Found,
) -> Result<(), FolderFault>
    ensures adds { OnOk result
        (AddsBelow path.now found.old.items.items found.new.items.items) }
{
    let names = names_in(rt, host)?;
    for name in names.as_slice() {
        add_one(rt, host, path, name.as_str(), found)?;
    }
    Ok(())
}

// Adds what has a name in a folder.
fn add_one<R: Files + AllocGlobal>(
    rt: &R,
    host: &str,
    path: &[u8],
    name: &str,
    found: &mut Found,
) -> Result<(), FolderFault>
    ensures adds { OnOk result
        (AddsBelow path.now found.old.items.items found.new.items.items) }
{
    if name.len() > NAME_SIZE {
        return Err(FolderFault::NameTooLong);
    }
    match joined(rt.alloc(), path, name.as_bytes()) {
        Ok(path) => match what_in(rt, host, name) {
            Ok(what) => add_item(found, Item { path, what }),
            Err(fault) => Err(fault),
        },
        Err(_refused) => Err(FolderFault::NoMemory),
    }
}

// A path, and a name behind it.
fn joined(alloc: Global, path: &[u8], name: &[u8]) -> Result<Vec<u8>, AllocError>
    ensures { IfOk result (λ joined. joined.items ≡ path.now ++ slash ∷ name.now) }
{
    let mut joined = Vec::from_slice(alloc, path)?;
    joined.push(b'/')?;
    joined.extend_from_slice(name)?;
    Ok(joined)
}

// Adds an item, if an image may have one more, and so many bytes.
fn add_item(found: &mut Found, item: Item) -> Result<(), FolderFault>
    ensures adds { OnOk result (found.new.items.items ≡ found.old.items.items ++ item ∷ []) }
{
    if found.items.len() >= MOST_ITEMS {
        return Err(FolderFault::TooMany);
    }
    if let What::Bytes(bytes) = &item.what {
        found.bytes = found.bytes.saturating_add(bytes.len());
    }
    if found.bytes > MOST_BYTES {
        return Err(FolderFault::TooLarge);
    }
    match found.items.push(item) {
        Ok(()) => Ok(()),
        Err(_refused) => Err(FolderFault::NoMemory),
    }
}

// What has a name in a folder.
fn what_in<R: Files + AllocGlobal>(rt: &R, host: &str, name: &str) -> Result<What, FolderFault> {
    let Ok(own) = format!(in rt.alloc(); "{host}/{name}") else {
        return Err(FolderFault::NoMemory);
    };
    let found = symlink_metadata(rt, own.as_str()).map_err(|error| unread(error))?;
    if found.is_dir() {
        return Ok(What::Directory);
    }
    if !found.is_file() {
        return Err(FolderFault::Special);
    }
    match bytes_from(rt, own.as_str()) {
        Ok(bytes) => Ok(What::Bytes(bytes)),
        Err(ReadFault::NoMemory) => Err(FolderFault::NoMemory),
        Err(ReadFault::File) => Err(FolderFault::File),
    }
}

// The names in a folder, in order.
fn names_in<R: Files + AllocGlobal>(rt: &R, host: &str) -> Result<Vec<String>, FolderFault> {
    let listing = listing_of(rt, host)?;
    let mut names = Vec::new(rt.alloc());
    for name in listing.as_slice().split(|byte| *byte == 0) {
        add_name(rt.alloc(), &mut names, name)?;
    }
    names.sort_unstable();
    Ok(names)
}

// Adds a name, unless it is that of the folder itself or of its parent, or none.
fn add_name(alloc: Global, names: &mut Vec<String>, name: &[u8]) -> Result<(), FolderFault> {
    let Ok(name) = str::from_utf8(name) else {
        return Err(FolderFault::BadName);
    };
    if name.is_empty() || name == "." || name == ".." {
        return Ok(());
    }
    let Ok(own) = String::from_str(alloc, name) else {
        return Err(FolderFault::NoMemory);
    };
    match names.push(own) {
        Ok(()) => Ok(()),
        Err(_refused) => Err(FolderFault::NoMemory),
    }
}

// The names in a folder as the system lists them, each ended by a zero byte.
fn listing_of<R: Files + AllocGlobal>(rt: &R, host: &str) -> Result<Vec<u8>, FolderFault> {
    let Ok(path) = format!(in rt.alloc(); "{host}/") else {
        return Err(FolderFault::NoMemory);
    };
    let mut folder = rt.open_dir(path.as_str()).map_err(|error| unread(error))?;
    let mut listing = Vec::new(rt.alloc());
    for _ in 0..MOST_READS {
        if !read_more(&mut folder, &mut listing)? {
            return Ok(listing);
        }
    }
    Err(FolderFault::TooMany)
}

// Reads some names more. Whether there were any.
fn read_more<I: Read>(folder: &mut I, listing: &mut Vec<u8>) -> Result<bool, FolderFault> {
    // The longest name has room in it.
    let mut window = [0u8; 4096];
    let count = folder.read(&mut window).map_err(|error| unread(error))?;
    match listing.extend_from_slice(&window[..count]) {
        Ok(()) => Ok(count > 0),
        Err(_refused) => Err(FolderFault::NoMemory),
    }
}

// Why a folder or a file can't be read.
fn unread(error: io::Error) -> FolderFault {
    match error.kind() {
        ErrorKind::OutOfMemory => FolderFault::NoMemory,
        _ => FolderFault::File,
    }
}
