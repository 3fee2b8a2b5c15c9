// Which files of an image have the bytes of a file of the system, or a beginning of them.
ghost use Rattle.std.specs.Prelude.{◌≡◌, ◌≤◌, ◌<◌, ◌++◌, IfOk, IfSome, IsTrue, None, OnOk, length};
ghost use Rattle.std.specs.Str.{bytes_eq};
ghost use Rattle.blocks.specs.Calls.{OnlyReads};
ghost use Rattle.model.specs.Files.{bytes_in};
ghost use Rattle.model.specs.Layout.{inode_of};
ghost use Rattle.model.specs.Log.{recovered};
ghost use Rattle.model.specs.Verdict.{verdict};
ghost use Rattle.offline.specs.Recovered.{IsRecoveredOf, MayReadFile};
ghost use Rattle.second_lines.specs.Beginnings.{beginning_at, beginning_of, beginnings_of, may_begin};
ghost use Rattle.offline.specs.Checked.{IsCheckedOf};

use crate::given::Given;
use crate::paths::bytes_of;
use crate::quoting::quoted;
use blocks::{BLOCK_SIZE, Block, Disk, DiskFault};
use cmd::open_to_look;
use inspect::GatherFault;
use layout::{Dinode, Form, greatest_size};
use offline::laws::checked_files_may_be_read;
use offline::{Recovered, check};
use std::alloc::Global;
use std::rt::Files;

// The type of a plain file.
const PLAIN: u16 = 2;

// A file of an image that has the first of the bytes, and no other.
#[derive(Clone, Copy)]
pub struct Beginning {
    pub number: u32,
    // How many of the bytes it has.
    pub size: u32,
}

// Which plain files of the image, as recovery would leave it, have the bytes that were to be put, or a
// beginning of them.
pub fn standing<R: Files + AllocGlobal>(rt: &R, given: &Given<'_>) -> Option<String> {
    let path = given.image?;
    let file = given.file?;
    let bytes = bytes_of(rt, file, greatest_size(Form::Two) as u64)?;
    let found = beginnings_in(rt, path, bytes.as_slice())?;
    let path = quoted(rt.alloc(), path)?;
    let file = quoted(rt.alloc(), file)?;
    told(
        rt.alloc(),
        path.as_str(),
        file.as_str(),
        bytes.len(),
        found.as_slice(),
    )
}

// The paths are in quotes.
fn told(
    alloc: Global,
    path: &str,
    file: &str,
    count: usize,
    found: &[Beginning],
) -> Option<String> {
    if found.is_empty() {
        return format!(in alloc; "{path}: no file has a beginning of {file}").ok();
    }
    let mut text = format!(in alloc; "{path}:").ok()?;
    for (k, beginning) in found.iter().enumerate() {
        let sign = if k == 0 { "" } else { "," };
        let part = told_of(alloc, file, count, *beginning)?;
        text.push_str(sign).ok()?;
        text.push_str(part.as_str()).ok()?;
    }
    Some(text)
}

fn told_of(alloc: Global, file: &str, count: usize, beginning: Beginning) -> Option<String> {
    let Beginning { number, size } = beginning;
    if size as usize == count {
        format!(in alloc; " file {number} has all of {file}").ok()
    } else {
        format!(in alloc; " file {number} has the first {size} bytes of {file}").ok()
    }
}

// Those of the image in the file at a path.
fn beginnings_in<R: Files + AllocGlobal>(
    rt: &R,
    path: &str,
    bytes: &[u8],
) -> Option<Vec<Beginning>> {
    match open_to_look(rt, path) {
        Ok(disk) => beginnings_on(rt.alloc(), disk, bytes),
        Err(_) => None,
    }
}

// Those of the image of a disk that nobody keeps.
fn beginnings_on<D: Disk + Drop>(
    alloc: Global,
    mut disk: D,
    bytes: &[u8],
) -> Option<Vec<Beginning>> {
    beginnings(alloc, &mut disk, bytes)
}

fn beginnings<D: Disk>(alloc: Global, disk: &mut D, bytes: &[u8]) -> Option<Vec<Beginning>>
    ensures { IfSome result (λ found. found.items
        ≡ beginnings_of (recovered (D.image disk.old)) bytes.now) }
{
    match check(alloc, disk) {
        Ok(_report) => gather_beginnings(alloc, disk, bytes).ok(),
        Err(_) => None,
    }
}

// Those of a disk that was checked.
#[tactic(auto, using(blocks::specs::Lemmas::Reads::reads_none, blocks::specs::Lemmas::Reads::reads_then))]
fn gather_beginnings<D: Disk>(
    alloc: Global,
    disk: &mut D,
    bytes: &[u8],
) -> Result<Vec<Beginning>, GatherFault>
    requires { verdict (D.image disk.old) ≡ None }
    ensures { IfOk result (λ found. found.items
        ≡ beginnings_of (recovered (D.image disk.old)) bytes.now) }
{
    let mut block = Block::zeroed(alloc)?;
    let image = Recovered::open_checked(disk, &mut block)?;
    let mut found = Vec::new(alloc);
    for i in 1..image.sup.ninodes {
        add_beginning(disk, &image, i, bytes, &mut block, &mut found)?;
    }
    Ok(found)
}

// Adds the file of a number, if it has a beginning of the bytes. The block is room for what is read,
// here and below.
fn add_beginning<D: Disk>(
    disk: &mut D,
    image: &Recovered,
    i: u32,
    bytes: &[u8],
    block: &mut Block,
    found: &mut Vec<Beginning>,
) -> Result<(), GatherFault>
    requires checked { IsCheckedOf (D.image disk.old) image.now }
    requires some { 1 ≤ i }
    requires below { i < image.now.sup.ninodes }
    ensures added { OnOk result (found.new.items ≡ found.old.items
        ++ beginning_at (recovered (D.image disk.old)) bytes.now i) }
    ensures reads { OnlyReads D.Disk disk.old disk.new }
{
    let size = beginning_of(disk, image, i, bytes, block)?;
    if size == 0 {
        return Ok(());
    }
    found.push(Beginning { number: i, size })?;
    Ok(())
}

// How many of these bytes the plain file of a number has, the first ones, and no other; 0 where there
// is no such file.
fn beginning_of<D: Disk>(
    disk: &mut D,
    image: &Recovered,
    i: u32,
    bytes: &[u8],
    block: &mut Block,
) -> Result<u32, DiskFault>
    requires checked { IsCheckedOf (D.image disk.old) image.now }
    requires some { 1 ≤ i }
    requires below { i < image.now.sup.ninodes }
    ensures count { IfOk result (λ count. count ≡ beginning_of (recovered (D.image disk.old))
        bytes.now (inode_of (recovered (D.image disk.old)) i)) }
    ensures reads { OnlyReads D.Disk disk.old disk.new }
{
    checked_files_may_be_read();
    let inode = image.inode(disk, i, block)?;
    if !may_begin(&inode, bytes.len()) {
        return Ok(0);
    }
    let size = inode.size;
    let begins = has_bytes(disk, image, &inode, &bytes[..size as usize], block)?;
    if !begins {
        return Ok(0);
    }
    Ok(size)
}

// Whether it is the inode of a plain file of at most so many bytes.
#[tactic(auto, unfolding(crate::specs::Beginnings::may_begin))]
fn may_begin(inode: &Dinode, count: usize) -> bool
    ensures same { result ≡ may_begin inode.now count }
    ensures fits { IsTrue result → inode.now.size ≤ count }
{
    inode.kind == PLAIN && inode.size as usize <= count
}

// Whether these bytes are those of an inode's file, which has as many.
fn has_bytes<D: Disk>(
    disk: &mut D,
    image: &Recovered,
    inode: &Dinode,
    bytes: &[u8],
    block: &mut Block,
) -> Result<bool, DiskFault>
    requires recovered { IsRecoveredOf (D.image disk.old) image.now }
    requires file { MayReadFile (recovered (D.image disk.old)) inode.now }
    requires size { length bytes.now ≡ inode.now.size }
    ensures same { IfOk result (λ same. same
        ≡ bytes_eq (bytes_in (recovered (D.image disk.old)) inode.now) bytes.now) }
    ensures reads { OnlyReads D.Disk disk.old disk.new }
{
    let mut piece = [0; BLOCK_SIZE];
    let mut at = 0;
    while at < inode.size {
        let count = (inode.size - at).min(BLOCK_SIZE as u32);
        let here = &mut piece[..count as usize];
        image.read(disk, inode, at, here, block)?;
        let same = are_same(here, &bytes[at as usize..(at + count) as usize]);
        if !same {
            return Ok(false);
        }
        at += count;
    }
    Ok(true)
}

fn are_same(a: &[u8], b: &[u8]) -> bool
    ensures { result ≡ bytes_eq a.now b.now }
{
    a == b
}
