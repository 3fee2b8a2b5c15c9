// The object of what a turn came to.
ghost use Rattle.std.specs.Prelude.{OnOk};
ghost use Rattle.std.specs.Io.KnownBytes.{Appends};
ghost use Rattle.json_lines.specs.Events.{answered_text, event_object, event_text, opening_text, refused_fields, reply_field, reply_fields, stat_fields, stepped_text, stopped_text};

use crate::content::print_bytes;
use crate::fields::{print_number, print_word};
use crate::steps::print_came;
use messages::{Event, Unwritten, print};
use model::types::{Answer, Reply, Step};
use std::io::Write;

/// Writes the object of a turn, with its line feed. The writer may hold it back.
#[tactic(auto, unfolding(crate::specs::Events::event_object))]
pub fn print_event_object<O: Write>(out: &mut O, event: &Event) -> Result<(), Unwritten>
    ensures ok { OnOk result (Appends (O.contents out.old) (O.contents out.new)
        (event_object event.now)) }
{
    print_event(out, event)?;
    print(out, "}\n")
}

// Writes the object up to its end.
fn print_event<O: Write>(out: &mut O, event: &Event) -> Result<(), Unwritten>
    ensures ok { OnOk result (Appends (O.contents out.old) (O.contents out.new)
        (event_text event.now)) }
{
    match event {
        Event::Stepped(process, step) => print_stepped(out, *process, *step),
        Event::Answered(process, answer) => print_answered(out, *process, answer),
        Event::Shut => print_opening(out, "shut"),
        Event::Stopped(write) => print_stopped(out, *write),
    }
}

// Writes the beginning of the object, with the kind of event.
#[tactic(auto, unfolding(crate::specs::Events::opening_text))]
fn print_opening<O: Write>(out: &mut O, kind: &str) -> Result<(), Unwritten>
    ensures ok { OnOk result (Appends (O.contents out.old) (O.contents out.new)
        (opening_text kind.now)) }
{
    print(out, format_args!("{{\"event\":\"{kind}\""))
}

#[tactic(auto, unfolding(crate::specs::Events::stepped_text))]
fn print_stepped<O: Write>(out: &mut O, process: u32, step: Step) -> Result<(), Unwritten>
    ensures ok { OnOk result (Appends (O.contents out.old) (O.contents out.new)
        (stepped_text process step)) }
{
    print_opening(out, "stepped")?;
    print_number(out, "process", process as u64)?;
    print_came(out, step)
}

#[tactic(auto, unfolding(crate::specs::Events::answered_text))]
fn print_answered<O: Write>(out: &mut O, process: u32, answer: &Answer) -> Result<(), Unwritten>
    ensures ok { OnOk result (Appends (O.contents out.old) (O.contents out.new)
        (answered_text process answer.now)) }
{
    print_opening(out, "answered")?;
    print_number(out, "process", process as u64)?;
    print_number(out, "operation", answer.seq)?;
    print_number(out, "group", answer.group)?;
    print_reply(out, &answer.reply)
}

#[tactic(auto, unfolding(crate::specs::Events::stopped_text))]
fn print_stopped<O: Write>(out: &mut O, write: u64) -> Result<(), Unwritten>
    ensures ok { OnOk result (Appends (O.contents out.old) (O.contents out.new)
        (stopped_text write)) }
{
    print_opening(out, "stopped")?;
    print_number(out, "write", write)
}

// Writes a reply's kind and its values.
fn print_reply<O: Write>(out: &mut O, reply: &Reply) -> Result<(), Unwritten>
    ensures ok { OnOk result (Appends (O.contents out.old) (O.contents out.new)
        (reply_fields reply.now)) }
{
    match reply {
        Reply::Made(inode) => {
            print_kind(out, "made")?;
            print_number(out, "inode", *inode as u64)
        }
        Reply::NoInode => print_kind(out, "noinode"),
        Reply::Wrote(count) => {
            print_kind(out, "wrote")?;
            print_number(out, "count", *count as u64)
        }
        Reply::Bytes(bytes) => {
            print_kind(out, "bytes")?;
            print_bytes(out, bytes.as_slice())
        }
        Reply::Done => print_kind(out, "done"),
        Reply::StatOf(kind, links, size) => print_stat(out, *kind, *links, *size),
        Reply::NoFile => print_refused(out, "NoFile"),
        Reply::BadOffset => print_refused(out, "BadOffset"),
        Reply::TooBig => print_refused(out, "TooBig"),
        Reply::TooLong => print_refused(out, "TooLong"),
        Reply::BadType => print_refused(out, "BadType"),
    }
}

fn print_kind<O: Write>(out: &mut O, kind: &str) -> Result<(), Unwritten>
    ensures ok { OnOk result (Appends (O.contents out.old) (O.contents out.new)
        (reply_field kind.now)) }
{
    print_word(out, "reply", kind)
}

fn print_refused<O: Write>(out: &mut O, why: &str) -> Result<(), Unwritten>
    ensures ok { OnOk result (Appends (O.contents out.old) (O.contents out.new)
        (refused_fields why.now)) }
{
    print_kind(out, "refused")?;
    print_word(out, "why", why)
}

#[tactic(auto, unfolding(crate::specs::Events::stat_fields))]
fn print_stat<O: Write>(out: &mut O, kind: u16, links: u16, size: u32) -> Result<(), Unwritten>
    ensures ok { OnOk result (Appends (O.contents out.old) (O.contents out.new)
        (stat_fields kind links size)) }
{
    print_kind(out, "stat")?;
    print_number(out, "type", kind as u64)?;
    print_number(out, "links", links as u64)?;
    print_number(out, "size", size as u64)
}
