// The objects of a turn's steps.
ghost use Rattle.std.specs.Prelude.{◌≡◌, OnOk};
ghost use Rattle.std.specs.Io.KnownBytes.{Appends};
ghost use Rattle.messages.specs.Deeds.{commit_word, is_plain, made_deed, task_word};
ghost use Rattle.messages.specs.Events.{name_of};
ghost use Rattle.json_lines.specs.Blocks.{write_field};
ghost use Rattle.json_lines.specs.Steps.{about_field, by_field, came_fields, came_word, content_fields, deed_field, deed_fields, group_fields, head_text, holder_field, made_fields, part_word, place_fields, step_object, step_objects, told_fields, why_field, written_fields};

use crate::content::print_block;
use crate::fields::{print_number, print_word};
use crate::written::Written;
use itoa::Buffer;
use messages::{StepNote, Unwritten, made_deed, print, role_of};
use model::types::{Step, Why};
use std::io::Write;
use wal::{CommitDeed, Deed, Part, TaskDeed};

/// Writes the objects of a turn's steps, over an image of so many inode numbers, a line each: they are
/// numbered from 1. Each that wrote has the bytes of its write among those of the run's, in their
/// order. The writer may hold them back.
pub fn print_step_objects<O: Write>(
    out: &mut O,
    inode_count: u32,
    written: &[Written],
    notes: &[StepNote],
) -> Result<(), Unwritten>
    ensures ok { OnOk result (Appends (O.contents out.old) (O.contents out.new)
        (step_objects inode_count written.now notes.now)) }
{
    let mut number = 0;
    for note in notes {
        number += 1;
        print_step_object(out, inode_count, written, number, note)?;
    }
    Ok(())
}

// Writes the object of the step of that number in its turn.
#[tactic(auto, unfolding(crate::specs::Steps::step_object))]
fn print_step_object<O: Write>(
    out: &mut O,
    inode_count: u32,
    written: &[Written],
    number: usize,
    note: &StepNote,
) -> Result<(), Unwritten>
    ensures ok { OnOk result (Appends (O.contents out.old) (O.contents out.new)
        (step_object inode_count written.now number note.now)) }
{
    print_head(out, number, note.process)?;
    print_told(out, note)?;
    print_made(out, inode_count, note)?;
    print_groups(out, note.opened, note.committed)?;
    print_content(out, written, note)?;
    print(out, "}\n")
}

#[tactic(auto, unfolding(crate::specs::Steps::head_text))]
fn print_head<O: Write>(out: &mut O, number: usize, process: u32) -> Result<(), Unwritten>
    ensures ok { OnOk result (Appends (O.contents out.old) (O.contents out.new)
        (head_text number process)) }
{
    let mut buffer = Buffer::new();
    print(out, "{\"step\":")?;
    print(out, buffer.format(number))?;
    print_number(out, "process", process as u64)
}

// Writes what a step was to do, what it came to, and who held what it waits for.
#[tactic(auto, unfolding(crate::specs::Steps::told_fields))]
fn print_told<O: Write>(out: &mut O, note: &StepNote) -> Result<(), Unwritten>
    ensures ok { OnOk result (Appends (O.contents out.old) (O.contents out.new)
        (told_fields note.now)) }
{
    print_deed(out, note.deed)?;
    print_came(out, note.step)?;
    print_by(out, note.step, note.holder)
}

fn print_deed<O: Write>(out: &mut O, deed: Option<Deed>) -> Result<(), Unwritten>
    ensures ok { OnOk result (Appends (O.contents out.old) (O.contents out.new)
        (deed_fields deed)) }
{
    match deed {
        None => print_deed_word(out, "none"),
        Some(Deed::Begin) => print_deed_word(out, "begin"),
        Some(Deed::Task(deed)) => {
            print_deed_word(out, task_word(deed))?;
            print_about(out, deed)
        }
        Some(Deed::End) => print_deed_word(out, "end"),
        Some(Deed::Commit(deed)) => print_deed_word(out, commit_word(deed)),
    }
}

fn print_deed_word<O: Write>(out: &mut O, word: &str) -> Result<(), Unwritten>
    ensures ok { OnOk result (Appends (O.contents out.old) (O.contents out.new)
        (deed_field word.now)) }
{
    print_word(out, "deed", word)
}

// The word of a step of a task.
fn task_word(deed: TaskDeed) -> &'static str
    ensures { result.now ≡ task_word deed }
{
    match deed {
        TaskDeed::Reference(_) => "ref",
        TaskDeed::Lock { .. } => "lock",
        TaskDeed::Get(_) => "get",
        TaskDeed::Use(_) => "use",
        TaskDeed::Look(_) => "look",
        TaskDeed::Finish => "finish",
        TaskDeed::Put => "put",
    }
}

// The word of a step of a commit.
fn commit_word(deed: CommitDeed) -> &'static str
    ensures { result.now ≡ commit_word deed }
{
    match deed {
        CommitDeed::LogBlock { .. } => "log",
        CommitDeed::Header { .. } => "header",
        CommitDeed::Home { .. } => "home",
        CommitDeed::Clear => "clear",
        CommitDeed::Sync(_) => "sync",
    }
}

// Writes the inode or the block that a step of a task is about.
#[tactic(auto, unfolding(crate::specs::Steps::about_field))]
fn print_about<O: Write>(out: &mut O, deed: TaskDeed) -> Result<(), Unwritten>
    ensures ok { OnOk result (Appends (O.contents out.old) (O.contents out.new)
        (about_field deed)) }
{
    match deed {
        TaskDeed::Reference(number) => print_number(out, "inode", number as u64),
        TaskDeed::Lock { number, .. } => print_number(out, "inode", number as u64),
        TaskDeed::Get(block) => print_number(out, "block", block as u64),
        TaskDeed::Use(block) => print_number(out, "block", block as u64),
        TaskDeed::Look(block) => print_number(out, "block", block as u64),
        TaskDeed::Finish | TaskDeed::Put => Ok(()),
    }
}

// Writes what a step came to.
#[tactic(auto, unfolding(crate::specs::Steps::came_fields))]
pub fn print_came<O: Write>(out: &mut O, step: Step) -> Result<(), Unwritten>
    ensures ok { OnOk result (Appends (O.contents out.old) (O.contents out.new)
        (came_fields step)) }
{
    print_word(out, "came", came_word(step))?;
    print_why(out, step)
}

fn came_word(step: Step) -> &'static str
    ensures { result.now ≡ came_word step }
{
    match step {
        Step::Moved => "moved",
        Step::Answered => "answered",
        Step::Sleeping(_) => "sleeping",
        Step::Idle => "idle",
        Step::NoMemory => "nomemory",
        Step::ShutDown => "shutdown",
        Step::Halted => "halted",
    }
}

fn print_why<O: Write>(out: &mut O, step: Step) -> Result<(), Unwritten>
    ensures ok { OnOk result (Appends (O.contents out.old) (O.contents out.new)
        (why_field step)) }
{
    match step {
        Step::Sleeping(why) => print_word(out, "why", name_of(why)),
        _ => Ok(()),
    }
}

fn name_of(why: Why) -> &'static str
    ensures { result.now ≡ name_of why }
{
    match why {
        Why::Committing => "Committing",
        Why::LogFull => "LogFull",
        Why::InodeHeld => "InodeHeld",
        Why::BufferHeld => "BufferHeld",
        Why::NoBuffer => "NoBuffer",
        Why::AnswersFull => "AnswersFull",
    }
}

// Writes who held what a step was to get or to take, where it neither moved nor was answered.
#[tactic(auto, unfolding(crate::specs::Steps::by_field))]
fn print_by<O: Write>(out: &mut O, step: Step, holder: Option<u32>) -> Result<(), Unwritten>
    ensures ok { OnOk result (Appends (O.contents out.old) (O.contents out.new)
        (by_field step holder)) }
{
    if is_plain(step) {
        return Ok(());
    }
    print_holder(out, holder)
}

fn is_plain(step: Step) -> bool
    ensures { result ≡ is_plain step }
{
    matches!(step, Step::Moved | Step::Answered)
}

fn print_holder<O: Write>(out: &mut O, holder: Option<u32>) -> Result<(), Unwritten>
    ensures ok { OnOk result (Appends (O.contents out.old) (O.contents out.new)
        (holder_field holder)) }
{
    match holder {
        None => Ok(()),
        Some(holder) => print_number(out, "by", holder as u64),
    }
}

// Writes what a step wrote, if anything.
fn print_made<O: Write>(out: &mut O, inode_count: u32, note: &StepNote) -> Result<(), Unwritten>
    ensures ok { OnOk result (Appends (O.contents out.old) (O.contents out.new)
        (made_fields (made_deed note.now.step note.now.deed)
        inode_count note.now.writes note.now.syncs)) }
{
    match made_deed(note.step, note.deed) {
        None => Ok(()),
        Some(deed) => print_written(out, inode_count, deed, note.writes, note.syncs),
    }
}

#[tactic(auto, unfolding(crate::specs::Steps::written_fields))]
fn print_written<O: Write>(
    out: &mut O,
    inode_count: u32,
    deed: CommitDeed,
    writes: u64,
    syncs: u64,
) -> Result<(), Unwritten>
    ensures ok { OnOk result (Appends (O.contents out.old) (O.contents out.new)
        (written_fields inode_count deed writes syncs)) }
{
    match deed {
        CommitDeed::LogBlock { place, home } => {
            print_place(out, writes, 3 + place as u64, deed)?;
            print_number(out, "place", place as u64)?;
            print_number(out, "home", home as u64)
        }
        CommitDeed::Header { count, group } => {
            print_place(out, writes, 2, deed)?;
            print_number(out, "count", count as u64)?;
            print_number(out, "group", group)
        }
        CommitDeed::Home { block } => {
            print_place(out, writes, block as u64, deed)?;
            print_word(out, "area", role_of(inode_count, block))
        }
        CommitDeed::Clear => print_place(out, writes, 2, deed),
        CommitDeed::Sync(part) => {
            print_number(out, "sync", syncs)?;
            print_word(out, "part", part_word(part))
        }
    }
}

// Writes the number of a write, its block, and of which part of the commit it is.
#[tactic(auto, unfolding(crate::specs::Steps::place_fields))]
fn print_place<O: Write>(
    out: &mut O,
    number: u64,
    block: u64,
    deed: CommitDeed,
) -> Result<(), Unwritten>
    ensures ok { OnOk result (Appends (O.contents out.old) (O.contents out.new)
        (place_fields number block deed)) }
{
    print_number(out, "write", number)?;
    print_number(out, "block", block)?;
    print_word(out, "part", commit_word(deed))
}

fn part_word(part: Part) -> &'static str
    ensures { result.now ≡ part_word part }
{
    match part {
        Part::Log => "log",
        Part::Header => "header",
        Part::Homes => "home",
        Part::Clear => "clear",
    }
}

#[tactic(auto, unfolding(crate::specs::Steps::group_fields))]
fn print_groups<O: Write>(out: &mut O, opened: u64, committed: u64) -> Result<(), Unwritten>
    ensures ok { OnOk result (Appends (O.contents out.old) (O.contents out.new)
        (group_fields opened committed)) }
{
    print_number(out, "opened", opened)?;
    print_number(out, "committed", committed)
}

// Writes the bytes of a step's write, if it made one.
fn print_content<O: Write>(
    out: &mut O,
    written: &[Written],
    note: &StepNote,
) -> Result<(), Unwritten>
    ensures ok { OnOk result (Appends (O.contents out.old) (O.contents out.new)
        (content_fields written.now (made_deed note.now.step note.now.deed) note.now.writes)) }
{
    match made_deed(note.step, note.deed) {
        None | Some(CommitDeed::Sync(_)) => Ok(()),
        Some(_) => print_write(out, written, note.writes),
    }
}

// Writes the bytes of the write of that number, from 1, if they are there.
fn print_write<O: Write>(out: &mut O, written: &[Written], number: u64) -> Result<(), Unwritten>
    ensures ok { OnOk result (Appends (O.contents out.old) (O.contents out.new)
        (write_field written.now number)) }
{
    match written.get(number.saturating_sub(1) as usize) {
        None => Ok(()),
        Some(write) => print_block(out, &write.bytes),
    }
}
