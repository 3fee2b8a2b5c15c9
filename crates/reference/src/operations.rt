// What an operation with its reply does to the files.
ghost use Rattle.std.specs.Prelude.{◌≡◌, ◌≤◌, ◌<◌, ◌&&◌, nat_lt, is_none, IsSome, length, take, drop, replicate, ◌++◌, IfOk, OnErr};
ghost use Rattle.std.specs.Bool.{OnFalse};
ghost use Rattle.std.specs.Option.{option_copied};
ghost use Rattle.blocks.specs.Block.{overwritten};
ghost use Rattle.model.specs.Files.{file_in};
ghost use Rattle.model.specs.Operations.{transfer_limit, is_kind, write_refusal, attribute_refusal, extension_refusal, no_file_refusal, refusal_of, where_true, part_of, may_have_written, after_create, after_at, after_done, is_refusal, after};

use crate::files::Files;
use blocks::{BLOCK_SIZE, NoMemory};
use layout::greatest_size;
use model::content::Content;
use model::types::{Attribute, File, Form, Op, Reply, TRANSFER_LIMIT};
use std::alloc::Global;

/// Whether a file can have this type.
pub fn is_kind(kind: u16) -> bool
    ensures { result ≡ is_kind kind }
{
    (1..=3).contains(&kind)
}

/// The file of a number, if there is one.
pub fn file_in(files: &[Option<File>], i: u32) -> Option<&File>
    ensures value { option_copied result ≡ file_in files.now i }
    ensures inside { IsSome result → i < length files.now }
{
    match files.get(i as usize) {
        Some(Some(file)) => Some(file),
        _ => None,
    }
}

/// Why a write of `n` bytes from offset `off` on is refused.
fn write_refusal(form: Form, file: Option<&File>, off: u32, n: usize) -> Option<Reply>
    requires { n ≤ transfer_limit }
    ensures { result ≡ write_refusal form (option_copied file.entry) off n }
{
    let Some(file) = file else {
        return Some(Reply::NoFile);
    };
    let off = off as usize;
    if off > file.bytes.len() {
        return Some(Reply::BadOffset);
    }
    if off + n > greatest_size(form) as usize {
        return Some(Reply::TooBig);
    }
    None
}

/// The refusal where there is no file.
fn no_file_refusal(file: Option<&File>) -> Option<Reply>
    ensures { result ≡ no_file_refusal (option_copied file.entry) }
{
    match file {
        None => Some(Reply::NoFile),
        Some(_) => None,
    }
}

/// Why a file of `old` bytes doesn't get longer: more would be added than one operation moves, or no
/// file of that form has room for them.
fn extension_refusal(form: Form, old: usize, size: u32) -> Option<Reply>
    requires { old < size }
    ensures { result ≡ extension_refusal form old size }
{
    if size as usize - old > TRANSFER_LIMIT as usize {
        return Some(Reply::TooLong);
    }
    if size > greatest_size(form) {
        return Some(Reply::TooBig);
    }
    None
}

/// Why a file doesn't get an attribute: there is none, or it can't get that much longer.
fn attribute_refusal(form: Form, file: Option<&File>, attribute: Attribute) -> Option<Reply>
    ensures { result ≡ attribute_refusal form (option_copied file.entry) attribute }
{
    let Some(file) = file else {
        return Some(Reply::NoFile);
    };
    match attribute {
        Attribute::Size(size) if size as usize > file.bytes.len() => {
            extension_refusal(form, file.bytes.len(), size)
        }
        Attribute::Size(_) | Attribute::Links(_) => None,
    }
}

/// The first refusal that an operation on these files has; none where it is carried out.
pub fn refusal_of(form: Form, files: &[Option<File>], op: &Op) -> Option<Reply>
    ensures { result ≡ refusal_of form files.now op.now }
{
    match op {
        Op::Create(kind) if is_kind(*kind) => None,
        Op::Create(_) => Some(Reply::BadType),
        Op::Write(_, _, bytes) if bytes.len() > TRANSFER_LIMIT as usize => Some(Reply::TooLong),
        Op::Write(i, off, bytes) => write_refusal(form, file_in(files, *i), *off, bytes.len()),
        Op::Read(_, _, n) if *n > TRANSFER_LIMIT => Some(Reply::TooLong),
        Op::Read(i, _, _) | Op::Trunc(i) | Op::Remove(i) | Op::Stat(i) => {
            no_file_refusal(file_in(files, *i))
        }
        Op::SetAttribute(i, attribute) => attribute_refusal(form, file_in(files, *i), *attribute),
    }
}

/// Whether two replies are the same refusal.
pub fn is_refusal(refusal: &Reply, reply: &Reply) -> bool
    ensures { result ≡ is_refusal refusal.now reply.now }
{
    matches!(
        (refusal, reply),
        (Reply::NoFile, Reply::NoFile)
            | (Reply::BadOffset, Reply::BadOffset)
            | (Reply::TooBig, Reply::TooBig)
            | (Reply::TooLong, Reply::TooLong)
            | (Reply::BadType, Reply::BadType)
    )
}

/// The first `n` bytes, or as many as there are.
fn first_part(bytes: &[u8], n: usize) -> &[u8]
    ensures { result.now ≡ take n bytes.now }
{
    if n < bytes.len() { &bytes[..n] } else { bytes }
}

/// The bytes from a place on; none past the end.
fn rest_from(bytes: &[u8], at: usize) -> &[u8]
    ensures { result.now ≡ drop at bytes.now }
{
    if at < bytes.len() { &bytes[at..] } else { &[] }
}

/// The `n` bytes from a place on, or as many as there are.
pub fn part_of(bytes: &[u8], at: u32, n: u32) -> &[u8]
    ensures { result.now ≡ part_of bytes.now at n }
{
    first_part(rest_from(bytes, at as usize), n as usize)
}

/// The bytes once others are written over them from a place on.
pub fn overwritten(alloc: Global, old: &[u8], at: u32, bytes: &[u8]) -> Result<Content, NoMemory>
    ensures { IfOk result (λ new. new ≡ overwritten old.now at bytes.now) }
{
    let at = at as usize;
    let mut new = Vec::from_slice(alloc, first_part(old, at))?;
    new.extend_from_slice(bytes)?;
    new.extend_from_slice(rest_from(old, at + bytes.len()))?;
    Ok(Content::new(new))
}

/// Whether a write of `n` bytes from offset `off` on, to a file of `old` bytes, may have written
/// `k` of them: a short one ends at a whole block, at the file's end or behind it.
pub fn may_have_written(old: usize, off: u32, n: usize, k: u32) -> bool
    ensures { result ≡ may_have_written old off n k }
{
    let end = off as usize + k as usize;
    let is_at_block = end % BLOCK_SIZE == 0 && old <= end;
    k as usize <= n && (k as usize == n || is_at_block)
}

/// Whether number `i` is in the table and free.
fn is_free(files: &[Option<File>], i: u32) -> bool
    ensures { result ≡ (nat_lt i (length files.now) && is_none (file_in files.now i)) }
{
    (i as usize) < files.len() && files[i as usize].is_none()
}

/// Makes a file with one link, where the creation can answer so. The files stay where it can't.
fn apply_create(alloc: Global, files: &mut Files, kind: u16, reply: &Reply) -> bool
    ensures after { after_create files.old.items kind reply.now
        ≡ where_true result files.new.items }
    ensures same { OnFalse result (files.new.items ≡ files.old.items) }
{
    match reply {
        Reply::NoInode => true,
        Reply::Made(i) => {
            if *i == 0 || !is_free(files.as_slice(), *i) {
                return false;
            }
            let bytes = Content::new(Vec::new(alloc));
            files[*i as usize] = Some(File {
                kind,
                links: 1,
                bytes,
            });
            true
        }
        _ => false,
    }
}

/// Writes to a file, where the write can answer so. The files stay where it can't, and where
/// memory is refused.
fn apply_write(
    alloc: Global,
    files: &mut Files,
    i: u32,
    off: u32,
    bytes: &[u8],
    reply: &Reply,
) -> Result<bool, NoMemory>
    ensures after { IfOk result (λ yes.
        after_at files.old.items i (file_in files.old.items i) (Op.Write i off bytes.now) reply.now
        ≡ where_true yes files.new.items) }
    ensures same { IfOk result (λ yes. OnFalse yes (files.new.items ≡ files.old.items)) }
    ensures err { OnErr result (files.new.items ≡ files.old.items) }
{
    let Some(file) = file_in(files.as_slice(), i) else {
        return Ok(false);
    };
    let Reply::Wrote(k) = reply else {
        return Ok(false);
    };
    if !may_have_written(file.bytes.len(), off, bytes.len(), *k) {
        return Ok(false);
    }
    let (kind, links) = (file.kind, file.links);
    let bytes = overwritten(alloc, file.bytes.as_slice(), off, &bytes[..*k as usize])?;
    files[i as usize] = Some(File { kind, links, bytes });
    Ok(true)
}

/// Whether a read can be answered so.
fn allows_read(files: &[Option<File>], i: u32, off: u32, n: u32, reply: &Reply) -> bool
    ensures { after_at files.now i (file_in files.now i) (Op.Read i off n) reply.now
        ≡ where_true result files.now }
{
    let Some(file) = file_in(files, i) else {
        return false;
    };
    match reply {
        Reply::Bytes(bytes) => bytes.as_slice() == part_of(file.bytes.as_slice(), off, n),
        _ => false,
    }
}

/// Empties a file, where the truncation can answer so. The files stay where it can't.
fn apply_trunc(alloc: Global, files: &mut Files, i: u32, reply: &Reply) -> bool
    ensures after { after_at files.old.items i (file_in files.old.items i) (Op.Trunc i) reply.now
        ≡ where_true result files.new.items }
    ensures same { OnFalse result (files.new.items ≡ files.old.items) }
{
    let Some(file) = file_in(files.as_slice(), i) else {
        return false;
    };
    if !matches!(reply, Reply::Done) {
        return false;
    }
    let (kind, links) = (file.kind, file.links);
    let bytes = Content::new(Vec::new(alloc));
    files[i as usize] = Some(File { kind, links, bytes });
    true
}

/// Removes a file, where the removal can answer so. The files stay where it can't.
fn apply_remove(files: &mut Files, i: u32, reply: &Reply) -> bool
    ensures after { after_at files.old.items i (file_in files.old.items i) (Op.Remove i) reply.now
        ≡ where_true result files.new.items }
    ensures same { OnFalse result (files.new.items ≡ files.old.items) }
{
    if file_in(files.as_slice(), i).is_none() || !matches!(reply, Reply::Done) {
        return false;
    }
    files[i as usize] = None;
    true
}

/// Whether a file's type, links and length can be answered so.
fn allows_stat(files: &[Option<File>], i: u32, reply: &Reply) -> bool
    ensures { after_at files.now i (file_in files.now i) (Op.Stat i) reply.now
        ≡ where_true result files.now }
{
    let Some(file) = file_in(files, i) else {
        return false;
    };
    match reply {
        Reply::StatOf(kind, links, size) => {
            *kind == file.kind && *links == file.links && *size as usize == file.bytes.len()
        }
        _ => false,
    }
}

/// Gives a file that many links, where the operation can answer so. The files stay where it can't.
fn apply_links(files: &mut Files, i: u32, links: u16, reply: &Reply) -> bool
    ensures after { after_at files.old.items i (file_in files.old.items i) (Op.SetAttribute i
        (Attribute.Links links)) reply.now ≡ where_true result files.new.items }
    ensures same { OnFalse result (files.new.items ≡ files.old.items) }
{
    if file_in(files.as_slice(), i).is_none() || !matches!(reply, Reply::Done) {
        return false;
    }
    if let Some(file) = &mut files[i as usize] {
        file.links = links;
    }
    true
}

/// The bytes of a file that is cut to the first `size` of them, which are no more than it has.
fn cut_to(alloc: Global, old: &Content, size: u32) -> Result<Content, NoMemory>
    ensures { IfOk result (λ bytes. bytes ≡ take size old.now) }
{
    Content::copy_of(alloc, part_of(old.as_slice(), 0, size))
}

/// The bytes of a file with that many zeroes behind them.
fn extended_by(alloc: Global, old: &Content, count: u32) -> Result<Content, NoMemory>
    ensures { IfOk result (λ bytes. bytes ≡ old.now ++ replicate count 0) }
{
    let mut bytes = Vec::from_slice(alloc, old.as_slice())?;
    bytes.resize(old.len() + count as usize, 0)?;
    Ok(Content::new(bytes))
}

/// Sets a file's length, where the operation can answer so. The files stay where it can't, and where
/// memory is refused.
fn apply_size(
    alloc: Global,
    files: &mut Files,
    i: u32,
    size: u32,
    reply: &Reply,
) -> Result<bool, NoMemory>
    ensures after { IfOk result (λ yes. after_at files.old.items i (file_in files.old.items i)
        (Op.SetAttribute i (Attribute.Size size)) reply.now ≡ where_true yes files.new.items) }
    ensures same { IfOk result (λ yes. OnFalse yes (files.new.items ≡ files.old.items)) }
    ensures err { OnErr result (files.new.items ≡ files.old.items) }
{
    let Some(file) = file_in(files.as_slice(), i) else {
        return Ok(false);
    };
    let old = file.bytes.len();
    let is_longer = size as usize > old;
    let (kind, links) = (file.kind, file.links);
    let bytes = match reply {
        Reply::Done if !is_longer => cut_to(alloc, &file.bytes, size)?,
        Reply::Wrote(k)
            if is_longer && may_have_written(old, old as u32, size as usize - old, *k) => {
            extended_by(alloc, &file.bytes, *k)?
        }
        _ => return Ok(false),
    };
    files[i as usize] = Some(File { kind, links, bytes });
    Ok(true)
}

/// Does an operation that is not refused, where it can answer so. The files stay where it can't,
/// and where memory is refused.
fn apply_done(alloc: Global, files: &mut Files, op: &Op, reply: &Reply) -> Result<bool, NoMemory>
    ensures after { IfOk result (λ yes. after_done files.old.items op.now reply.now
        ≡ where_true yes files.new.items) }
    ensures same { IfOk result (λ yes. OnFalse yes (files.new.items ≡ files.old.items)) }
    ensures err { OnErr result (files.new.items ≡ files.old.items) }
{
    match op {
        Op::Create(kind) => Ok(apply_create(alloc, files, *kind, reply)),
        Op::Write(i, off, bytes) => apply_write(alloc, files, *i, *off, bytes.as_slice(), reply),
        Op::Read(i, off, n) => Ok(allows_read(files.as_slice(), *i, *off, *n, reply)),
        Op::Trunc(i) => Ok(apply_trunc(alloc, files, *i, reply)),
        Op::Remove(i) => Ok(apply_remove(files, *i, reply)),
        Op::Stat(i) => Ok(allows_stat(files.as_slice(), *i, reply)),
        Op::SetAttribute(i, Attribute::Links(links)) => Ok(apply_links(files, *i, *links, reply)),
        Op::SetAttribute(i, Attribute::Size(size)) => apply_size(alloc, files, *i, *size, reply),
    }
}

/// Makes the files those after an operation that was answered so; false where it can't be answered
/// so. The files stay where it can't, and where memory is refused.
#[tactic(auto, unfolding(model::specs::Operations::after))]
pub fn apply(
    alloc: Global,
    form: Form,
    files: &mut Files,
    op: &Op,
    reply: &Reply,
) -> Result<bool, NoMemory>
    ensures after { IfOk result (λ yes. after form files.old.items op.now reply.now
        ≡ where_true yes files.new.items) }
    ensures same { IfOk result (λ yes. OnFalse yes (files.new.items ≡ files.old.items)) }
    ensures err { OnErr result (files.new.items ≡ files.old.items) }
{
    match refusal_of(form, files.as_slice(), op) {
        Some(refusal) => Ok(is_refusal(&refusal, reply)),
        None => apply_done(alloc, files, op, reply),
    }
}
