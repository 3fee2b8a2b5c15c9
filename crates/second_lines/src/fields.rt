// The number of a superblock that a refusal objects to.
ghost use Rattle.std.specs.Prelude.{◌≡◌, ◌≤◌, find, not};
ghost use Rattle.model.specs.Format.{log_blocks};
ghost use Rattle.second_lines.specs.Fields.{exactly, fields_of, from_to, is_lawful};

use crate::paths::{bytes_of, length_of, with_phrase};
use crate::quoting::quoted;
use blocks::BLOCK_SIZE;
use layout::{
    Form, INODE_START, LOG_BLOCKS, LOG_START, MOST_BLOCKS, MOST_INODES, Super, bitmap_block,
    meta_count, superblock,
};
use std::rt::Files;

// The shortest log of an image that is converted, in blocks: its header, and those of one operation.
const SHORTEST_LOG: u32 = 11;

// Which field of a superblock it is.
#[derive(Clone, Copy)]
pub enum Name {
    Size,
    Ninodes,
    Nblocks,
    Nlog,
    Logstart,
    Inodestart,
    Bmapstart,
}

// A field, and which values are lawful.
#[derive(Clone, Copy)]
pub struct Field {
    pub name: Name,
    pub found: u32,
    pub least: u32,
    pub most: u32,
}

// The magic number of the image at a path, and what it has to be: where the image is converted, that of
// the first form.
pub fn wrong_magic<R: Files + AllocGlobal>(rt: &R, path: &str, converts: bool) -> Option<String> {
    let bytes = bytes_of(rt, path, 2 * BLOCK_SIZE as u64)?;
    if bytes.len() < 2 * BLOCK_SIZE {
        return None;
    }
    let found = superblock::magic(&bytes[BLOCK_SIZE..]);
    let first = superblock::magic_of(Form::One);
    let second = superblock::magic_of(Form::Two);
    let path = quoted(rt.alloc(), path)?;
    if converts {
        return format!(in rt.alloc(); "{path}: magic 0x{found:08x}, expected 0x{first:08x}").ok();
    }
    format!(in rt.alloc();
        "{path}: magic 0x{found:08x}, expected 0x{first:08x} or 0x{second:08x}"
    ).ok()
}

// The field of the superblock of the image at a path that isn't lawful, and what it has to be; where the
// image is converted, its log may have another length.
pub fn wrong_geometry<R: Files + AllocGlobal>(
    rt: &R,
    path: &str,
    converts: bool,
) -> Option<String> {
    let alloc = rt.alloc();
    let bytes = bytes_of(rt, path, 2 * BLOCK_SIZE as u64)?;
    if bytes.len() < 2 * BLOCK_SIZE {
        return with_phrase(alloc, path, "1 block, expected 2 at least");
    }
    let block_count = u32::try_from(length_of(rt, path)? / BLOCK_SIZE as u64).ok()?;
    let fields = superblock::read(&bytes[BLOCK_SIZE..]);
    let log = if converts && SHORTEST_LOG <= fields.nlog && fields.nlog < LOG_BLOCKS {
        fields.nlog
    } else {
        LOG_BLOCKS
    };
    let field = wrong_field(&fields, block_count, log)?;
    let name = text_of(field.name);
    let found = field.found;
    let least = field.least;
    let most = field.most;
    let path = quoted(alloc, path)?;
    if is_other_log(&field) && !converts {
        format!(in alloc; "{path}: {name} {found}, expected {least}: xvfs convert makes it so").ok()
    } else if least == most {
        format!(in alloc; "{path}: {name} {found}, expected {least}").ok()
    } else {
        format!(in alloc; "{path}: {name} {found}, expected {least} to {most}").ok()
    }
}

// Whether it is a log's length that `convert` takes.
fn is_other_log(field: &Field) -> bool {
    matches!(field.name, Name::Nlog) && SHORTEST_LOG <= field.found && field.found < LOG_BLOCKS
}

// The first field that isn't lawful in an image of that many blocks, whose log has so many.
fn wrong_field(sup: &Super, block_count: u32, log: u32) -> Option<Field>
    requires { log ≤ log_blocks }
    ensures { result ≡ find (λ field. not (is_lawful field)) (fields_of sup.now block_count log) }
{
    let fields = fields_of(sup, block_count, log);
    fields.iter().copied().find(|field| !is_lawful(field))
}

// The fields of a superblock in an image of that many blocks, whose log has so many. The log's size and
// the numbers of inodes are judged before what follows from them.
fn fields_of(sup: &Super, block_count: u32, log: u32) -> [Field; 8]
    requires { log ≤ log_blocks }
    ensures { result ≡ fields_of sup.now block_count log }
{
    let size = sup.size;
    let ninodes = sup.ninodes;
    let fewer = LOG_BLOCKS - log;
    let meta = meta_count(size, ninodes) - fewer;
    [
        exactly(Name::Nlog, sup.nlog, log),
        exactly(Name::Size, size, block_count),
        from_to(Name::Ninodes, ninodes, 2, MOST_INODES),
        from_to(Name::Size, size, meta + 1, MOST_BLOCKS),
        exactly(Name::Nblocks, sup.nblocks, size.saturating_sub(meta)),
        exactly(Name::Logstart, sup.logstart, LOG_START),
        exactly(Name::Inodestart, sup.inodestart, INODE_START - fewer),
        exactly(
            Name::Bmapstart,
            sup.bmapstart,
            bitmap_block(ninodes) - fewer,
        ),
    ]
}

// A field that has to be a number.
fn exactly(name: Name, found: u32, wanted: u32) -> Field
    ensures { result ≡ exactly name found wanted }
{
    from_to(name, found, wanted, wanted)
}

// A field that has to be from one number to another.
fn from_to(name: Name, found: u32, least: u32, most: u32) -> Field
    ensures { result ≡ from_to name found least most }
{
    Field {
        name,
        found,
        least,
        most,
    }
}

fn is_lawful(field: &Field) -> bool
    ensures { result ≡ is_lawful field.now }
{
    field.least <= field.found && field.found <= field.most
}

fn text_of(name: Name) -> &'static str {
    match name {
        Name::Size => "size",
        Name::Ninodes => "ninodes",
        Name::Nblocks => "nblocks",
        Name::Nlog => "nlog",
        Name::Logstart => "logstart",
        Name::Inodestart => "inodestart",
        Name::Bmapstart => "bmapstart",
    }
}
