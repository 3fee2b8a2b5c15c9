// The box of a step in its process's lane: what it did, and below it why it waits, or what its process
// was answered.
ghost use Rattle.std.specs.Prelude.{◌≡◌, OnOk};
ghost use Rattle.std.specs.Io.KnownBytes.{Appends};
ghost use Rattle.pictures.specs.Boxes.{answer_text, below_text, box_class, box_number, box_text, box_word, cause_text, cause_word, commit_words, deed_class, deed_number, deed_word, first_text, head_text, task_words, waiting_text, word_text};

use crate::places::{column_x, lane_y};
use crate::replies::{Gist, print_reply};
use crate::shapes::{Area, Spot, close_label, open_label, print_area, print_counted, print_label};
use crate::types::Moment;
use itoa::Buffer;
use messages::{StepNote, Unwritten, print};
use model::types::{Step, Why};
use std::io::Write;
use wal::{CommitDeed, Deed, TaskDeed};

// Writes the number of a step above its column, and its box.
#[tactic(auto, unfolding(crate::specs::Boxes::box_text))]
pub fn print_box<O: Write>(out: &mut O, moment: &Moment) -> Result<(), Unwritten>
    ensures ok { OnOk result (Appends (O.contents out.old) (O.contents out.new)
        (box_text moment.now)) }
{
    print_head(out, moment.column)?;
    print_first(out, moment)?;
    print_below(out, moment)?;
    print(out, "\n")
}

// Writes the number of a column, from 1.
#[tactic(auto, unfolding(crate::specs::Boxes::head_text))]
fn print_head<O: Write>(out: &mut O, column: u32) -> Result<(), Unwritten>
    ensures ok { OnOk result (Appends (O.contents out.old) (O.contents out.new)
        (head_text column)) }
{
    let spot = Spot {
        x: column_x(column) + 36,
        y: 14,
    };
    print_counted(out, "n", spot, "", column as u64 + 1)
}

// Writes the box, and what the step did.
#[tactic(auto, unfolding(crate::specs::Boxes::first_text))]
fn print_first<O: Write>(out: &mut O, moment: &Moment) -> Result<(), Unwritten>
    ensures ok { OnOk result (Appends (O.contents out.old) (O.contents out.new)
        (first_text moment.now)) }
{
    let x = column_x(moment.column);
    let y = lane_y(moment.note.process);
    let class = class_of(&moment.note);
    let area = Area {
        x: x + 2,
        y: y + 3,
        width: 68,
        height: 34,
    };
    print_area(out, class, area)?;
    let spot = Spot {
        x: x + 36,
        y: y + 17,
    };
    print_word(out, class, spot, &moment.note)
}

// Writes what a step did, as a text of a class.
#[tactic(auto, unfolding(crate::specs::Boxes::word_text))]
fn print_word<O: Write>(
    out: &mut O,
    class: &str,
    spot: Spot,
    note: &StepNote,
) -> Result<(), Unwritten>
    ensures ok { OnOk result (Appends (O.contents out.old) (O.contents out.new)
        (word_text class.now spot note.now)) }
{
    let words = word_of(note);
    match number_of(note) {
        None => print_label(out, class, spot, words),
        Some(block) => print_counted(out, class, spot, words, block as u64),
    }
}

// Writes what stands below that: an answer, or why the step waits.
#[tactic(auto, unfolding(crate::specs::Boxes::below_text))]
fn print_below<O: Write>(out: &mut O, moment: &Moment) -> Result<(), Unwritten>
    ensures ok { OnOk result (Appends (O.contents out.old) (O.contents out.new)
        (below_text moment.now)) }
{
    match moment.answer {
        Some(answer) => print_answer(out, moment, answer),
        None => print_waiting(out, moment),
    }
}

// Writes what a process was answered, over the box's lower half.
#[tactic(auto, unfolding(crate::specs::Boxes::answer_text))]
fn print_answer<O: Write>(out: &mut O, moment: &Moment, answer: Gist) -> Result<(), Unwritten>
    ensures ok { OnOk result (Appends (O.contents out.old) (O.contents out.new)
        (answer_text moment.now answer)) }
{
    let x = column_x(moment.column);
    let y = lane_y(moment.note.process);
    let area = Area {
        x: x + 2,
        y: y + 21,
        width: 68,
        height: 16,
    };
    print_area(out, "a", area)?;
    let spot = Spot {
        x: x + 36,
        y: y + 33,
    };
    open_label(out, "a", spot)?;
    print_reply(out, answer)?;
    close_label(out)
}

// Writes why a step waits, if it does, and who holds that.
#[tactic(auto, unfolding(crate::specs::Boxes::waiting_text))]
fn print_waiting<O: Write>(out: &mut O, moment: &Moment) -> Result<(), Unwritten>
    ensures ok { OnOk result (Appends (O.contents out.old) (O.contents out.new)
        (waiting_text moment.now)) }
{
    let Step::Sleeping(why) = moment.note.step else {
        return Ok(());
    };
    let spot = Spot {
        x: column_x(moment.column) + 36,
        y: lane_y(moment.note.process) + 31,
    };
    print_cause(out, spot, why, moment.note.holder)
}

#[tactic(auto, unfolding(crate::specs::Boxes::cause_text, crate::specs::Shapes::label_text))]
fn print_cause<O: Write>(
    out: &mut O,
    spot: Spot,
    why: Why,
    holder: Option<u32>,
) -> Result<(), Unwritten>
    ensures ok { OnOk result (Appends (O.contents out.old) (O.contents out.new)
        (cause_text spot why holder)) }
{
    let cause = cause_word(why);
    match holder {
        None => print_label(out, "y", spot, cause),
        Some(holder) => {
            let mut buffer = Buffer::new();
            let holder = buffer.format(holder);
            open_label(out, "y", spot)?;
            print(out, format_args!("{cause} by {holder}"))?;
            close_label(out)
        }
    }
}

fn cause_word(why: Why) -> &'static str
    ensures { result.now ≡ cause_word why }
{
    match why {
        Why::Committing => "committing",
        Why::LogFull => "log full",
        Why::InodeHeld => "inode",
        Why::BufferHeld => "block",
        Why::NoBuffer => "no buffer",
        Why::AnswersFull => "answers full",
    }
}

// The class of a step's box, by what it did.
#[tactic(auto, unfolding(crate::specs::Boxes::box_class))]
fn class_of(note: &StepNote) -> &'static str
    ensures { result.now ≡ box_class note.now }
{
    match note.step {
        Step::Moved | Step::Answered => class_of_deed(note.deed),
        Step::Sleeping(_) => "z",
        Step::Idle | Step::ShutDown => "i",
        Step::NoMemory | Step::Halted => "x",
    }
}

fn class_of_deed(deed: Option<Deed>) -> &'static str
    ensures { result.now ≡ deed_class deed }
{
    match deed {
        None => "i",
        Some(Deed::Begin) | Some(Deed::End) => "b",
        Some(Deed::Task(_)) => "t",
        Some(Deed::Commit(CommitDeed::LogBlock { .. })) => "w",
        Some(Deed::Commit(CommitDeed::Header { .. })) => "c",
        Some(Deed::Commit(CommitDeed::Home { .. })) => "h",
        Some(Deed::Commit(CommitDeed::Clear)) => "e",
        Some(Deed::Commit(CommitDeed::Sync(_))) => "s",
    }
}

// What a step did, in one word.
#[tactic(auto, unfolding(crate::specs::Boxes::box_word))]
fn word_of(note: &StepNote) -> &'static str
    ensures { result.now ≡ box_word note.now }
{
    match note.step {
        Step::Moved | Step::Answered => word_of_deed(note.deed),
        Step::Sleeping(_) => "zzz",
        Step::Idle => "idle",
        Step::ShutDown => "shut down",
        Step::NoMemory => "no memory",
        Step::Halted => "HALTED",
    }
}

fn word_of_deed(deed: Option<Deed>) -> &'static str
    ensures { result.now ≡ deed_word deed }
{
    match deed {
        None => "none",
        Some(Deed::Begin) => "begin",
        Some(Deed::End) => "end",
        Some(Deed::Task(deed)) => word_of_task(deed),
        Some(Deed::Commit(deed)) => word_of_commit(deed),
    }
}

fn word_of_task(deed: TaskDeed) -> &'static str
    ensures { result.now ≡ task_words deed }
{
    match deed {
        TaskDeed::Reference(_) => "ref ",
        TaskDeed::Lock { .. } => "lock ",
        TaskDeed::Get(_) => "get ",
        TaskDeed::Use(_) => "use ",
        TaskDeed::Look(_) => "look ",
        TaskDeed::Finish => "finish",
        TaskDeed::Put => "put",
    }
}

fn word_of_commit(deed: CommitDeed) -> &'static str
    ensures { result.now ≡ commit_words deed }
{
    match deed {
        CommitDeed::LogBlock { .. } => "log",
        CommitDeed::Header { .. } => "COMMIT",
        CommitDeed::Home { .. } => "home",
        CommitDeed::Clear => "clear",
        CommitDeed::Sync(_) => "sync",
    }
}

// The block or the inode that a step was about, where it moved.
#[tactic(auto, unfolding(crate::specs::Boxes::box_number))]
fn number_of(note: &StepNote) -> Option<u32>
    ensures { result ≡ box_number note.now }
{
    match note.step {
        Step::Moved | Step::Answered => number_of_deed(note.deed),
        _ => None,
    }
}

fn number_of_deed(deed: Option<Deed>) -> Option<u32>
    ensures { result ≡ deed_number deed }
{
    let Some(Deed::Task(deed)) = deed else {
        return None;
    };
    match deed {
        TaskDeed::Reference(number) => Some(number),
        TaskDeed::Lock { number, .. } => Some(number),
        TaskDeed::Get(block) => Some(block),
        TaskDeed::Use(block) => Some(block),
        TaskDeed::Look(block) => Some(block),
        TaskDeed::Finish | TaskDeed::Put => None,
    }
}
