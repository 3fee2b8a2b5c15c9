// What the plain program says of replies, and of journals.
use blocks::NoMemory;
use model::content::Content;
use model::types::{Attribute, Entry, File, Form, Op, Reply};
use reference::files::Files;
use reference::journal::{replay_answered, replay_kept};
use reference::operations::apply;
use std::alloc::Global;

// A table of 32 places, all empty.
fn no_files(alloc: Global) -> Result<Files, NoMemory> {
    let mut files = Vec::new(alloc);
    for _ in 0..32 {
        files.push(None)?;
    }
    Ok(files)
}

// The type of file 1, and its length.
fn first_file(files: &[Option<File>]) -> Option<(u16, usize)> {
    match files.get(1) {
        Some(Some(file)) => Some((file.kind, file.bytes.len())),
        _ => None,
    }
}

// How many links file 1 has.
fn first_links(files: &[Option<File>]) -> Option<u16> {
    match files.get(1) {
        Some(Some(file)) => Some(file.links),
        _ => None,
    }
}

/// Replies are judged. The number 1 is taken from the second row on, and free again after the removal.
pub fn print_replies(rt: &impl Print, alloc: Global) -> anyhow::Result<()> {
    println!(rt; "\nreplies are judged")?;
    let mut files = no_files(alloc)?;
    print_creations(rt, alloc, &mut files)?;
    print_others(rt, alloc, &mut files)
}

fn print_creations(rt: &impl Print, alloc: Global, files: &mut Files) -> anyhow::Result<()> {
    print_reply(rt, alloc, files, Op::Create(2), Reply::Made(1))?;
    print_reply(rt, alloc, files, Op::Create(2), Reply::Made(1))?;
    print_reply(rt, alloc, files, Op::Create(4), Reply::Made(2))?;
    print_reply(rt, alloc, files, Op::Create(2), Reply::Made(32))?;
    print_reply(rt, alloc, files, Op::Create(2), Reply::Made(0))?;
    print_reply(rt, alloc, files, Op::Create(2), Reply::Done)?;
    print_reply(rt, alloc, files, Op::Create(4), Reply::BadType)?;
    print_reply(rt, alloc, files, Op::Create(3), Reply::NoInode)
}

fn print_others(rt: &impl Print, alloc: Global, files: &mut Files) -> anyhow::Result<()> {
    print_reply(rt, alloc, files, Op::Stat(1), Reply::NoFile)?;
    print_reply(rt, alloc, files, Op::Stat(1), Reply::StatOf(2, 1, 0))?;
    print_reply(rt, alloc, files, Op::Stat(32), Reply::NoFile)?;
    print_reply(rt, alloc, files, Op::Read(1, 0, 3073), Reply::TooLong)?;
    print_reply(rt, alloc, files, Op::Trunc(2), Reply::Done)?;
    print_reply(rt, alloc, files, Op::Trunc(1), Reply::Done)?;
    let most = Attribute::Links(65_535);
    print_reply(rt, alloc, files, Op::SetAttribute(1, most), Reply::NoFile)?;
    print_reply(rt, alloc, files, Op::SetAttribute(1, most), Reply::Done)?;
    println!(rt; "{:?} links", first_links(files.as_slice()))?;
    let one = Attribute::Links(1);
    print_reply(rt, alloc, files, Op::SetAttribute(32, one), Reply::NoFile)?;
    print_reply(rt, alloc, files, Op::Remove(1), Reply::Done)?;
    print_reply(rt, alloc, files, Op::Remove(1), Reply::NoFile)
}

fn print_reply(
    rt: &impl Print,
    alloc: Global,
    files: &mut Files,
    op: Op,
    reply: Reply,
) -> anyhow::Result<()> {
    let answer = apply(alloc, Form::One, files, &op, &reply);
    println!(rt; "{op:?} {reply:?}: {answer:?}")?;
    Ok(())
}

/// Short writes end at a block. Below the file's end no block is missing.
pub fn print_short_writes(rt: &impl Print, alloc: Global) -> anyhow::Result<()> {
    println!(rt; "\nshort writes end at a block")?;
    let mut files = no_files(alloc)?;
    print_reply(rt, alloc, &mut files, Op::Create(2), Reply::Made(1))?;
    let bytes = Content::copy_of(alloc, &[0x78; 2048])?;
    print_writes(rt, alloc, &mut files, &Op::Write(1, 0, bytes))
}

fn print_writes(
    rt: &impl Print,
    alloc: Global,
    files: &mut Files,
    write: &Op,
) -> anyhow::Result<()> {
    for count in [1000, 1024, 0, 1024, 2048, 2049] {
        let answer = apply(alloc, Form::One, files, write, &Reply::Wrote(count));
        let file = first_file(files);
        println!(rt; "{count} of 2048 bytes: {answer:?}, and the file is {file:?}")?;
    }
    Ok(())
}

// The entry of an operation of process 0, in a group of its own.
fn entry(seq: u64, op: Op, reply: Option<Reply>) -> Entry {
    Entry {
        pid: 0,
        seq,
        op,
        group: seq,
        reply,
    }
}

/// Journals are replayed.
pub fn print_journals(rt: &impl Print, alloc: Global) -> anyhow::Result<()> {
    println!(rt; "\njournals are replayed")?;
    let bytes = Content::copy_of(alloc, b"a")?;
    let entries = [
        entry(1, Op::Create(2), Some(Reply::Made(1))),
        entry(2, Op::Write(1, 0, bytes), Some(Reply::Wrote(1))),
        entry(3, Op::Stat(1), Some(Reply::StatOf(2, 1, 1))),
        entry(4, Op::Trunc(1), None),
    ];
    print_replays(rt, alloc, &entries)
}

fn print_replays(rt: &impl Print, alloc: Global, entries: &[Entry]) -> anyhow::Result<()> {
    let mut files = no_files(alloc)?;
    let answer = replay_answered(alloc, Form::One, &mut files, entries);
    let file = first_file(&files);
    println!(rt; "answered: {answer:?}, and the file is {file:?}")?;
    // The groups up to this number are kept: the last has no reply.
    for group in [1, 3, 4] {
        print_kept(rt, alloc, entries, group)?;
    }
    Ok(())
}

fn print_kept(rt: &impl Print, alloc: Global, entries: &[Entry], group: u64) -> anyhow::Result<()> {
    let mut files = no_files(alloc)?;
    let answer = replay_kept(alloc, Form::One, &mut files, 32, entries, group);
    let file = first_file(&files);
    println!(rt; "kept up to group {group}: {answer:?}, and the file is {file:?}")?;
    Ok(())
}
