// The operations that lines hand in, and the answers that they get.
use crate::fault::LineFault;
use model::content::Content;
use model::types::{Answer, Attribute, Op, Reply};
use std::alloc::{AllocError, Global};

/// What a line hands in, and for which process.
pub fn operation(alloc: Global, words: &[&str]) -> Result<Option<(u32, Op)>, LineFault> {
    match *words {
        ["submit", pid, what, number] => handed(pid, of_file(what, number)),
        ["submit", pid, "write", inode, offset, count] => {
            handed(pid, written(alloc, [inode, offset, count], "00"))
        }
        ["submit", pid, "fill", inode, offset, count, digits] => {
            handed(pid, written(alloc, [inode, offset, count], digits))
        }
        ["submit", pid, "links", inode, count] => handed(pid, links([inode, count])),
        ["submit", pid, "resize", inode, size] => handed(pid, resize([inode, size])),
        ["submit", pid, "read", inode, offset, count] => handed(pid, read([inode, offset, count])),
        _ => Ok(None),
    }
}

// For which process an operation is handed in.
fn handed(pid: &str, op: Result<Option<Op>, LineFault>) -> Result<Option<(u32, Op)>, LineFault> {
    match (pid.parse(), op) {
        (Ok(pid), Ok(Some(op))) => Ok(Some((pid, op))),
        (_, Ok(None)) => Ok(None),
        (Err(_), _) => Err(LineFault::Number),
        (_, Err(fault)) => Err(fault),
    }
}

// An operation with one number.
fn of_file(what: &str, number: &str) -> Result<Option<Op>, LineFault> {
    match what {
        "create" => Ok(Some(Op::Create(number.parse()?))),
        "trunc" => Ok(Some(Op::Trunc(number.parse()?))),
        "remove" => Ok(Some(Op::Remove(number.parse()?))),
        "stat" => Ok(Some(Op::Stat(number.parse()?))),
        _ => Ok(None),
    }
}

fn read(words: [&str; 3]) -> Result<Option<Op>, LineFault> {
    let (inode, offset, count) = numbers(words)?;
    Ok(Some(Op::Read(inode, offset, count)))
}

fn links([inode, count]: [&str; 2]) -> Result<Option<Op>, LineFault> {
    let links = Attribute::Links(count.parse()?);
    Ok(Some(Op::SetAttribute(inode.parse()?, links)))
}

fn resize([inode, size]: [&str; 2]) -> Result<Option<Op>, LineFault> {
    let size = Attribute::Size(size.parse()?);
    Ok(Some(Op::SetAttribute(inode.parse()?, size)))
}

// A write of so many bytes, each of which has these two digits.
fn written(alloc: Global, words: [&str; 3], digits: &str) -> Result<Option<Op>, LineFault> {
    let (inode, offset, count) = numbers(words)?;
    let bytes = filled(alloc, count, digits)?;
    Ok(Some(Op::Write(inode, offset, bytes)))
}

fn numbers([inode, offset, count]: [&str; 3]) -> Result<(u32, u32, u32), LineFault> {
    Ok((inode.parse()?, offset.parse()?, count.parse()?))
}

/// So many bytes, each of which has these two digits.
pub fn filled(alloc: Global, count: u32, digits: &str) -> Result<Content, LineFault> {
    let byte = byte_of(alloc, digits)?;
    let bytes = vec![in alloc; byte; count as usize]?;
    Ok(Content::new(bytes))
}

// The first of the bytes that have these digits, or 0.
fn byte_of(alloc: Global, digits: &str) -> Result<u8, LineFault> {
    let bytes = hex::decode(alloc, digits)?;
    Ok(bytes.first().copied().unwrap_or(0))
}

/// An answer as a text: its number, its reply and its group; or that there is none.
pub fn told_answer(alloc: Global, answer: Option<Answer>) -> Result<String, AllocError> {
    match answer {
        Some(answer) => told(alloc, &answer),
        None => String::from_str(alloc, "none"),
    }
}

fn told(alloc: Global, answer: &Answer) -> Result<String, AllocError> {
    let reply = told_reply(alloc, &answer.reply)?;
    format!(in alloc; "{} {reply}, group {}", answer.seq, answer.group)
}

// A reply, with the digits of the bytes that it has.
fn told_reply(alloc: Global, reply: &Reply) -> Result<String, AllocError> {
    match reply {
        Reply::Bytes(bytes) => told_bytes(alloc, bytes.as_slice()),
        reply => format!(in alloc; "{reply:?}"),
    }
}

// Bytes by their digits, or by those of the first and the last of many.
fn told_bytes(alloc: Global, bytes: &[u8]) -> Result<String, AllocError> {
    let count = bytes.len();
    if count <= 16 {
        let digits = hex::encode(alloc, bytes)?;
        return format!(in alloc; "Bytes {digits}");
    }
    let first = hex::encode(alloc, &bytes[..4])?;
    let last = hex::encode(alloc, &bytes[count - 4..])?;
    format!(in alloc; "{count} Bytes {first}..{last}")
}
