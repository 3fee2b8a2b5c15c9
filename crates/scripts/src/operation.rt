// The operation that a line's fields write.
ghost use Rattle.std.specs.Prelude.{◌≡◌, ◌<◌, ◌==◌, count_by, map};
ghost use Rattle.scripts.specs.Field.{Tells};
ghost use Rattle.scripts.specs.Operation.{attribute_of, fill_of, links_of, operation_of, process_and_operation, read_of, resize_of, short_of, statement_of, write_of, write_or_read_of};
ghost use Rattle.std.specs.List.{slice_split};

use crate::field::{LineFault, byte, content};
use crate::number::{number, number_up_to};
use arrayvec::ArrayVec;
use model::content::Content;
use model::types::{Attribute, Op};
use std::alloc::Global;

// The most fields of a row of the table.
const MOST_FIELDS: usize = 6;

// The process of a line, and its operation. A line of more fields than any row has isn't divided.
pub(crate) fn statement(alloc: Global, line: &[u8]) -> Result<(u32, Op), LineFault>
    ensures { Tells result (statement_of line.now) }
{
    if spaces(line) >= MOST_FIELDS {
        return Err(LineFault::Bad);
    }
    let fields = fields_of(line);
    process_and_operation(alloc, fields.as_slice())
}

// The number of spaces of a line, one less than its fields.
fn spaces(line: &[u8]) -> usize
    ensures { result ≡ count_by (λ byte. byte == 32) line.now }
{
    line.iter().filter(|byte| **byte == b' ').count()
}

// The fields of a line, which has one space between two of them.
fn fields_of(line: &[u8]) -> ArrayVec<&[u8], MOST_FIELDS>
    requires { count_by (λ byte. byte == 32) line.now < 6 }
    ensures { map (λ field. field.now) result.items ≡ slice_split (λ byte. byte == 32) line.now }
{
    let mut fields = ArrayVec::new();
    for field in line.split(|byte| *byte == b' ') {
        fields.push(field);
    }
    fields
}

// The process in front of an operation, and the operation.
#[tactic(auto, unfolding(crate::specs::Operation::process_and_operation))]
fn process_and_operation(alloc: Global, fields: &[&[u8]]) -> Result<(u32, Op), LineFault>
    ensures { Tells result (process_and_operation (map (λ field. field.now) fields.now)) }
{
    match fields.split_first() {
        Some((process, fields)) => {
            let pid = number_up_to(31, process).ok_or(LineFault::Bad)?;
            let op = operation(alloc, fields)?;
            Ok((pid, op))
        }
        None => Err(LineFault::Bad),
    }
}

// The operation of a verb and its arguments.
#[tactic(auto, unfolding(crate::specs::Operation::operation_of))]
fn operation(alloc: Global, fields: &[&[u8]]) -> Result<Op, LineFault>
    ensures { Tells result (operation_of (map (λ field. field.now) fields.now)) }
{
    match fields {
        [verb, argument] => short(verb, argument).ok_or(LineFault::Bad),
        [verb, inode, value] => attribute(verb, inode, value).ok_or(LineFault::Bad),
        [verb, inode, offset, last] => write_or_read(alloc, verb, inode, offset, last),
        [verb, inode, offset, count, digits] => {
            if *verb == b"fill".as_slice() {
                fill(alloc, inode, offset, count, digits)
            } else {
                Err(LineFault::Bad)
            }
        }
        _ => Err(LineFault::Bad),
    }
}

// The operation of a verb with one argument.
#[tactic(auto, unfolding(crate::specs::Operation::short_of))]
fn short(verb: &[u8], argument: &[u8]) -> Option<Op>
    ensures { result ≡ short_of verb.now argument.now }
{
    if verb == b"create".as_slice() {
        Some(Op::Create(number_up_to(65_535, argument)? as u16))
    } else if verb == b"trunc".as_slice() {
        Some(Op::Trunc(number(argument)?))
    } else if verb == b"remove".as_slice() {
        Some(Op::Remove(number(argument)?))
    } else if verb == b"stat".as_slice() {
        Some(Op::Stat(number(argument)?))
    } else {
        None
    }
}

// The operation of a verb with two arguments, which sets an attribute of a file.
#[tactic(auto, unfolding(crate::specs::Operation::attribute_of))]
fn attribute(verb: &[u8], inode: &[u8], value: &[u8]) -> Option<Op>
    ensures { result ≡ attribute_of verb.now inode.now value.now }
{
    if verb == b"links".as_slice() {
        links(inode, value)
    } else if verb == b"resize".as_slice() {
        resize(inode, value)
    } else {
        None
    }
}

// A new length of a file.
#[tactic(auto, unfolding(crate::specs::Operation::resize_of))]
fn resize(inode: &[u8], size: &[u8]) -> Option<Op>
    ensures { result ≡ resize_of inode.now size.now }
{
    let inode = number(inode)?;
    Some(Op::SetAttribute(inode, Attribute::Size(number(size)?)))
}

// A new count of links of a file.
#[tactic(auto, unfolding(crate::specs::Operation::links_of))]
fn links(inode: &[u8], count: &[u8]) -> Option<Op>
    ensures { result ≡ links_of inode.now count.now }
{
    let inode = number(inode)?;
    let count = number_up_to(65_535, count)?;
    Some(Op::SetAttribute(inode, Attribute::Links(count as u16)))
}

// The operation of a verb with three arguments.
#[tactic(auto, unfolding(crate::specs::Operation::write_or_read_of))]
fn write_or_read(
    alloc: Global,
    verb: &[u8],
    inode: &[u8],
    offset: &[u8],
    last: &[u8],
) -> Result<Op, LineFault>
    ensures { Tells result (write_or_read_of verb.now inode.now offset.now last.now) }
{
    if verb == b"write".as_slice() {
        write(alloc, inode, offset, last)
    } else if verb == b"read".as_slice() {
        read(inode, offset, last).ok_or(LineFault::Bad)
    } else {
        Err(LineFault::Bad)
    }
}

// A write of the bytes that are told in hexadecimal digits.
#[tactic(auto, unfolding(crate::specs::Operation::write_of))]
fn write(alloc: Global, inode: &[u8], offset: &[u8], digits: &[u8]) -> Result<Op, LineFault>
    ensures { Tells result (write_of inode.now offset.now digits.now) }
{
    let inode = number(inode).ok_or(LineFault::Bad)?;
    let offset = number(offset).ok_or(LineFault::Bad)?;
    let bytes = content(alloc, digits)?;
    Ok(Op::Write(inode, offset, bytes))
}

// A read of at most a number of bytes.
#[tactic(auto, unfolding(crate::specs::Operation::read_of))]
fn read(inode: &[u8], offset: &[u8], count: &[u8]) -> Option<Op>
    ensures { result ≡ read_of inode.now offset.now count.now }
{
    Some(Op::Read(number(inode)?, number(offset)?, number(count)?))
}

// A write of a number of bytes of one value.
#[tactic(auto, unfolding(crate::specs::Operation::fill_of))]
fn fill(
    alloc: Global,
    inode: &[u8],
    offset: &[u8],
    count: &[u8],
    digits: &[u8],
) -> Result<Op, LineFault>
    ensures { Tells result (fill_of inode.now offset.now count.now digits.now) }
{
    let inode = number(inode).ok_or(LineFault::Bad)?;
    let offset = number(offset).ok_or(LineFault::Bad)?;
    let count = number_up_to(4096, count).ok_or(LineFault::Bad)?;
    let value = byte(digits).ok_or(LineFault::Bad)?;
    let bytes = vec![in alloc; value; count as usize]?;
    Ok(Op::Write(inode, offset, Content::new(bytes)))
}
