// The lines of a turn's steps, and of what they wrote.
ghost use Rattle.std.specs.Prelude.{◌≡◌, ◌++◌, OnOk, Some, [], if◌then◌else◌};
ghost use Rattle.std.specs.List.{flat_map};
ghost use Rattle.std.specs.Io.KnownBytes.{Appends};
ghost use Rattle.messages.specs.Deeds.{came_text, commit_word, deed_text, header_text, home_text, is_plain, log_text, made_deed, note_text, place_text, role_text, step_line, task_word, write_line, written_text};

use crate::events::end_of_line;
use crate::output::print;
use crate::told::Unwritten;
use itoa::Buffer;
use layout::bitmap_block;
use model::types::Step;
use std::fmt;
use std::io::Write;
use wal::{CommitDeed, Deed, TaskDeed};

/// A step of a process, as it is told.
#[derive(Clone, Copy, Debug)]
pub struct StepNote {
    /// The process that made it.
    pub process: u32,
    /// What it was to do; None where it was to do nothing, after a fault of the disk.
    pub deed: Option<Deed>,
    /// Who held what it was to get or to take.
    pub holder: Option<u32>,
    /// What it came to.
    pub step: Step,
    /// The writes since the image was recovered, that of this step included.
    pub writes: u64,
    /// The same of syncs.
    pub syncs: u64,
    /// The groups that were opened, with this step.
    pub opened: u64,
    /// Those that are committed.
    pub committed: u64,
}

/// What is told of steps.
#[derive(Clone, Copy, Debug)]
pub struct Detail {
    /// A line for each.
    pub steps: bool,
    /// A line for each that wrote a block, or synced.
    pub writes: bool,
}

/// Writes what is told of steps, over an image of so many inode numbers. The writer may hold it
/// back.
pub fn print_notes<O: Write>(
    out: &mut O,
    detail: Detail,
    inode_count: u32,
    notes: &[StepNote],
) -> Result<(), Unwritten>
    ensures ok { OnOk result (Appends (O.contents out.old) (O.contents out.new)
        (flat_map (note_text detail inode_count) notes.now)) }
{
    for note in notes {
        print_note(out, detail, inode_count, note)?;
    }
    Ok(())
}

// Writes what is told of a step.
fn print_note<O: Write>(
    out: &mut O,
    detail: Detail,
    inode_count: u32,
    note: &StepNote,
) -> Result<(), Unwritten>
    ensures ok { OnOk result (Appends (O.contents out.old) (O.contents out.new)
        (note_text detail inode_count note.now)) }
{
    print_step(out, detail.steps, note)?;
    print_made(out, detail.writes, inode_count, note)
}

/// Writes what a step was to do, and what it came to where it didn't move and wasn't answered, with no
/// line feed. The writer may hold it back.
pub fn print_deed<O: Write>(out: &mut O, note: &StepNote) -> Result<(), Unwritten>
    ensures ok { OnOk result (Appends (O.contents out.old) (O.contents out.new)
        (deed_text note.now.deed ++ came_text note.now.step note.now.holder)) }
{
    let deed = DeedText(note.deed);
    let came = CameText {
        step: note.step,
        holder: note.holder,
    };
    print(out, format_args!("{deed}{came}"))
}

// Writes the line of a step, where one is asked for.
fn print_step<O: Write>(out: &mut O, asked: bool, note: &StepNote) -> Result<(), Unwritten>
    ensures ok { OnOk result (Appends (O.contents out.old) (O.contents out.new)
        (if asked then step_line note.now else [])) }
{
    if !asked {
        return Ok(());
    }
    let deed = DeedText(note.deed);
    let came = CameText {
        step: note.step,
        holder: note.holder,
    };
    print(out, format_args!("step {deed}{came}\n"))
}

/// Writes the line of what a step wrote, where it wrote and one is asked for. The writer may hold it
/// back.
pub fn print_made<O: Write>(
    out: &mut O,
    asked: bool,
    inode_count: u32,
    note: &StepNote,
) -> Result<(), Unwritten>
    ensures ok { OnOk result (Appends (O.contents out.old) (O.contents out.new)
        (if asked then write_line inode_count note.now else [])) }
{
    if !asked {
        return Ok(());
    }
    match made_deed(note.step, note.deed) {
        Some(deed) => print_written(out, deed, inode_count, note.writes, note.syncs),
        None => Ok(()),
    }
}

/// What a step of a commit did, unless it halted.
pub fn made_deed(step: Step, deed: Option<Deed>) -> Option<CommitDeed>
    ensures { result ≡ made_deed step deed }
{
    match (step, deed) {
        (Step::Halted, _) => None,
        (_, Some(Deed::Commit(deed))) => Some(deed),
        _ => None,
    }
}

// Writes the line of a write, or of a sync.
fn print_written<O: Write>(
    out: &mut O,
    deed: CommitDeed,
    inode_count: u32,
    writes: u64,
    syncs: u64,
) -> Result<(), Unwritten>
    ensures ok { OnOk result (Appends (O.contents out.old) (O.contents out.new)
        (written_text deed inode_count writes syncs)) }
{
    match deed {
        CommitDeed::LogBlock { place, home } => {
            print_place(out, writes, 3 + place as u64)?;
            print_log_block(out, place, home)
        }
        CommitDeed::Header { count, group } => {
            print_place(out, writes, 2)?;
            print_header(out, count, group)
        }
        CommitDeed::Home { block } => {
            print_place(out, writes, block as u64)?;
            print_home(out, inode_count, block)
        }
        CommitDeed::Clear => {
            print_place(out, writes, 2)?;
            print(out, format_args!("clear\n"))
        }
        CommitDeed::Sync(_) => {
            let mut buffer = Buffer::new();
            let syncs = buffer.format(syncs);
            print(out, format_args!("sync {syncs}\n"))
        }
    }
}

// Writes the beginning of the line of a write: its number and its block.
fn print_place<O: Write>(out: &mut O, number: u64, block: u64) -> Result<(), Unwritten>
    ensures ok { OnOk result (Appends (O.contents out.old) (O.contents out.new)
        (place_text number block)) }
{
    let mut buffers = (Buffer::new(), Buffer::new());
    let number = buffers.0.format(number);
    let block = buffers.1.format(block);
    print(out, format_args!("write {number} block {block} "))
}

// Writes the end of that of a log block: its place and its home.
fn print_log_block<O: Write>(out: &mut O, place: u32, home: u32) -> Result<(), Unwritten>
    ensures ok { OnOk result (Appends (O.contents out.old) (O.contents out.new)
        (log_text place home)) }
{
    let mut buffers = (Buffer::new(), Buffer::new());
    let place = buffers.0.format(place);
    let home = buffers.1.format(home);
    print(out, format_args!("log {place} of {home}\n"))
}

// Writes the end of that of the header: how many homes it names, and of which group.
fn print_header<O: Write>(out: &mut O, count: u32, group: u64) -> Result<(), Unwritten>
    ensures ok { OnOk result (Appends (O.contents out.old) (O.contents out.new)
        (header_text count group)) }
{
    let mut buffers = (Buffer::new(), Buffer::new());
    let count = buffers.0.format(count);
    let group = buffers.1.format(group);
    print(out, format_args!("header n {count} group {group}\n"))
}

// Writes the end of that of a home: its block and what it is.
fn print_home<O: Write>(out: &mut O, inode_count: u32, block: u32) -> Result<(), Unwritten>
    ensures ok { OnOk result (Appends (O.contents out.old) (O.contents out.new)
        (home_text inode_count block)) }
{
    let mut buffer = Buffer::new();
    let role = role_of(inode_count, block);
    let block = buffer.format(block);
    print(out, format_args!("home {block} {role}\n"))
}

/// What a block behind the log is, in an image of so many inode numbers: `inodes`, `bitmap` or
/// `data`.
pub fn role_of(inode_count: u32, block: u32) -> &'static str
    ensures { result.now ≡ role_text inode_count block }
{
    let bitmap = bitmap_block(inode_count);
    if block < bitmap {
        "inodes"
    } else if block == bitmap {
        "bitmap"
    } else {
        "data"
    }
}

// What a step was to do, as its line tells it.
#[derive(Drop)]
struct DeedText(Option<Deed>);

impl fmt::Display for DeedText {
    ghost output = { λ text. Some (deed_text text.0) };

    fn fmt<W: fmt::Write>(&self, f: &mut fmt::Formatter<W>) -> fmt::Result {
        let mut buffer = Buffer::new();
        match self.0 {
            None => f.write_str("none"),
            Some(Deed::Begin) => f.write_str("begin"),
            Some(Deed::End) => f.write_str("end"),
            Some(Deed::Task(TaskDeed::Get(block))) => {
                let block = buffer.format(block);
                write!(f, "get {block}")
            }
            Some(Deed::Task(TaskDeed::Use(block))) => {
                let block = buffer.format(block);
                write!(f, "use {block}")
            }
            Some(Deed::Task(deed)) => f.write_str(task_word(deed)),
            Some(Deed::Commit(deed)) => f.write_str(commit_word(deed)),
        }
    }
}

// The word of a step of a task.
fn task_word(deed: TaskDeed) -> &'static str
    ensures { result.now ≡ task_word deed }
{
    match deed {
        TaskDeed::Reference(_) => "ref",
        TaskDeed::Lock { .. } => "lock",
        TaskDeed::Get(_) => "get",
        TaskDeed::Use(_) => "use",
        TaskDeed::Look(_) => "look",
        TaskDeed::Finish => "finish",
        TaskDeed::Put => "put",
    }
}

// The word of a step of a commit.
fn commit_word(deed: CommitDeed) -> &'static str
    ensures { result.now ≡ commit_word deed }
{
    match deed {
        CommitDeed::LogBlock { .. } => "log",
        CommitDeed::Header { .. } => "header",
        CommitDeed::Home { .. } => "home",
        CommitDeed::Clear => "clear",
        CommitDeed::Sync(_) => "sync",
    }
}

// What a step came to that didn't move and wasn't answered, as its line tells it.
#[derive(Drop)]
struct CameText {
    step: Step,
    holder: Option<u32>,
}

impl fmt::Display for CameText {
    ghost output = { λ text. Some (came_text text.step text.holder) };

    fn fmt<W: fmt::Write>(&self, f: &mut fmt::Formatter<W>) -> fmt::Result {
        let mut buffer = Buffer::new();
        if is_plain(self.step) {
            return Ok(());
        }
        let end = end_of_line(self.step);
        f.write_str(&end[..end.len() - 1])?;
        match self.holder {
            None => Ok(()),
            Some(holder) => {
                let holder = buffer.format(holder);
                write!(f, " by {holder}")
            }
        }
    }
}

// Whether of a step its deed alone is told.
fn is_plain(step: Step) -> bool
    ensures { result ≡ is_plain step }
{
    matches!(step, Step::Moved | Step::Answered)
}
