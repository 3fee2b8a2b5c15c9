// What a command prints.
ghost use Rattle.std.specs.Prelude.{IfSome, OnOk, decimal};
ghost use Rattle.std.specs.List.{flat_map};
ghost use Rattle.std.specs.Io.KnownBytes.{Appends, Keeps};
ghost use Rattle.messages.specs.Events.{event_line};
ghost use Rattle.messages.specs.declared.events.Event.TheVariants.{Stepped};
ghost use Rattle.messages.specs.Refusing.{refusal_line};
ghost use Rattle.messages.specs.Output.{copied_text, counts_text, fault_count_text, fault_line, files_text, images_text, left_line, number_text, numbers_text, report_text, rescued_line, rescued_text};

use crate::answers::print_answer;
use crate::events::{Event, end_of_line};
use crate::told::{Reason, Unwritten};
use itoa::Buffer;
use layout::{CheckFault, Super};
use model::types::Step;
use std::fmt::Display;
use std::io::Write;

/// Writes a text. The writer may hold it back: `print_last` passes it on.
pub fn print<O: Write, D: Display + Drop>(out: &mut O, text: D) -> Result<(), Unwritten>
    ensures ok { OnOk result (IfSome (D.output text)
        (Appends (O.contents out.old) (O.contents out.new))) }
{
    write!(out, "{text}").map_err(|_| Unwritten)
}

/// Writes the last text of a command, and passes on what the writer holds back.
pub fn print_last<O: Write, D: Display + Drop>(out: &mut O, text: D) -> Result<(), Unwritten>
    ensures ok { OnOk result (IfSome (D.output text)
        (Appends (O.contents out.old) (O.contents out.new))) }
{
    print(out, text)?;
    pass_on(out)
}

/// Writes bytes as they are. The writer may hold them back: `pass_on` passes them on.
pub fn write_bytes<O: Write>(out: &mut O, bytes: &[u8]) -> Result<(), Unwritten>
    ensures ok { OnOk result (Appends (O.contents out.old) (O.contents out.new) bytes.now) }
{
    match out.write_all(bytes) {
        Ok(()) => Ok(()),
        Err(_) => Err(Unwritten),
    }
}

/// Writes the line of a turn. The writer may hold it back.
pub fn print_event<O: Write>(out: &mut O, event: &Event) -> Result<(), Unwritten>
    ensures ok { OnOk result (Appends (O.contents out.old) (O.contents out.new)
        (event_line event.now)) }
{
    match event {
        Event::Stepped(pid, step) => print_step(out, *pid, *step),
        Event::Answered(pid, answer) => print_answer(out, *pid, answer),
        _ => print(out, format_args!("{event}\n")),
    }
}

// Writes the line of a turn without an answer. Most are, so it goes by no `Formatter`.
fn print_step<O: Write>(out: &mut O, pid: u32, step: Step) -> Result<(), Unwritten>
    ensures ok { OnOk result (Appends (O.contents out.old) (O.contents out.new)
        (event_line (Stepped pid step))) }
{
    print_process(out, pid)?;
    write_bytes(out, end_of_line(step).as_bytes())
}

// Writes the number of a process. Most have one digit.
#[inline(always)]
pub(crate) fn print_process<O: Write>(out: &mut O, pid: u32) -> Result<(), Unwritten>
    ensures ok { OnOk result (Appends (O.contents out.old) (O.contents out.new) (decimal pid)) }
{
    if pid < 10 {
        return write_bytes(out, &[b'0' + pid as u8]);
    }
    print_decimal(out, pid)
}

// Writes a number.
#[inline(never)]
fn print_decimal<O: Write>(out: &mut O, number: u32) -> Result<(), Unwritten>
    ensures ok { OnOk result (Appends (O.contents out.old) (O.contents out.new) (decimal number)) }
{
    let mut digits = Buffer::new();
    write_bytes(out, digits.format(number).as_bytes())
}

/// Passes on what the writer holds back.
pub fn pass_on<O: Write>(out: &mut O) -> Result<(), Unwritten>
    ensures ok { OnOk result (Keeps (O.contents out.old) (O.contents out.new)) }
{
    out.flush().map_err(|_| Unwritten)
}

/// Prints the numbers of a new image, as the last text of a command.
pub fn print_numbers<O: Write>(out: &mut O, fields: &Super) -> Result<(), Unwritten>
    ensures ok { OnOk result (Appends (O.contents out.old) (O.contents out.new)
        (numbers_text fields.now)) }
{
    let mut buffers = (Buffer::new(), Buffer::new(), Buffer::new());
    let size = buffers.0.format(fields.size);
    let ninodes = buffers.1.format(fields.ninodes);
    let nblocks = buffers.2.format(fields.nblocks);
    print_last(
        out,
        format_args!("size {size} ninodes {ninodes} nblocks {nblocks}\n"),
    )
}

/// Prints what a check found, as the last text of a command: so many logged blocks, and files.
pub fn print_report<O: Write>(out: &mut O, logged: u32, files: u32) -> Result<(), Unwritten>
    ensures ok { OnOk result (Appends (O.contents out.old) (O.contents out.new)
        (report_text logged files)) }
{
    let mut buffers = (Buffer::new(), Buffer::new());
    let logged = buffers.0.format(logged);
    let files = buffers.1.format(files);
    print_last(out, format_args!("sound log {logged} files {files}\n"))
}

/// Prints the line of a fault of an image. The writer may hold it back.
pub fn print_fault<O: Write>(out: &mut O, fault: &CheckFault) -> Result<(), Unwritten>
    ensures ok { OnOk result (Appends (O.contents out.old) (O.contents out.new)
        (fault_line fault.now)) }
{
    let told = fault.told();
    print(out, format_args!("{told}\n"))
}

/// Prints how many faults an image has, as the last text of a command.
pub fn print_fault_count<O: Write>(out: &mut O, count: u64) -> Result<(), Unwritten>
    ensures ok { OnOk result (Appends (O.contents out.old) (O.contents out.new)
        (fault_count_text count)) }
{
    let mut buffer = Buffer::new();
    let count = buffer.format(count);
    print_last(out, format_args!("faults {count}\n"))
}

/// Prints how many blocks were copied home, as the last text of a command.
pub fn print_copied<O: Write>(out: &mut O, copied: u32) -> Result<(), Unwritten>
    ensures ok { OnOk result (Appends (O.contents out.old) (O.contents out.new)
        (copied_text copied)) }
{
    let mut buffer = Buffer::new();
    let copied = buffer.format(copied);
    print_last(out, format_args!("recovered {copied}\n"))
}

/// Prints how many files were copied, as the last text of a command.
pub fn print_files<O: Write>(out: &mut O, files: u32) -> Result<(), Unwritten>
    ensures ok { OnOk result (Appends (O.contents out.old) (O.contents out.new)
        (files_text files)) }
{
    let mut buffer = Buffer::new();
    let files = buffer.format(files);
    print_last(out, format_args!("copied {files}\n"))
}

/// Prints which files of an image were rescued and which were left out, a line each, and how many of
/// each there are, as the last text of a command.
pub fn print_rescued<O: Write>(out: &mut O, clean: &[u32], left: &[u32]) -> Result<(), Unwritten>
    ensures ok { OnOk result (Appends (O.contents out.old) (O.contents out.new)
        (rescued_text clean.now left.now)) }
{
    print_clean(out, clean)?;
    print_left(out, left)?;
    let mut buffers = (Buffer::new(), Buffer::new());
    let rescued = buffers.0.format(clean.len());
    let others = buffers.1.format(left.len());
    print_last(out, format_args!("rescued {rescued} left {others}\n"))
}

// Prints numbers whose files were rescued.
fn print_clean<O: Write>(out: &mut O, clean: &[u32]) -> Result<(), Unwritten>
    ensures ok { OnOk result (Appends (O.contents out.old) (O.contents out.new)
        (flat_map rescued_line clean.now)) }
{
    for number in clean {
        print_rescued_line(out, *number)?;
    }
    Ok(())
}

fn print_rescued_line<O: Write>(out: &mut O, number: u32) -> Result<(), Unwritten>
    ensures ok { OnOk result (Appends (O.contents out.old) (O.contents out.new)
        (rescued_line number)) }
{
    let mut buffer = Buffer::new();
    let number = buffer.format(number);
    print(out, format_args!("{number} copied\n"))
}

// Prints numbers whose files were left out.
fn print_left<O: Write>(out: &mut O, left: &[u32]) -> Result<(), Unwritten>
    ensures ok { OnOk result (Appends (O.contents out.old) (O.contents out.new)
        (flat_map left_line left.now)) }
{
    for number in left {
        print_left_line(out, *number)?;
    }
    Ok(())
}

fn print_left_line<O: Write>(out: &mut O, number: u32) -> Result<(), Unwritten>
    ensures ok { OnOk result (Appends (O.contents out.old) (O.contents out.new)
        (left_line number)) }
{
    let mut buffer = Buffer::new();
    let number = buffer.format(number);
    print(out, format_args!("{number} left\n"))
}

/// Prints the number of a file, as the last text of a command.
pub fn print_number<O: Write>(out: &mut O, number: u32) -> Result<(), Unwritten>
    ensures ok { OnOk result (Appends (O.contents out.old) (O.contents out.new)
        (number_text number)) }
{
    let mut buffer = Buffer::new();
    let number = buffer.format(number);
    print_last(out, format_args!("{number}\n"))
}

/// Prints how many blocks a run wrote, and how many groups are committed, as the last text of a
/// command.
pub fn print_counts<O: Write>(out: &mut O, writes: u64, committed: u64) -> Result<(), Unwritten>
    ensures ok { OnOk result
        (Appends (O.contents out.old) (O.contents out.new) (counts_text writes committed)) }
{
    let mut buffers = (Buffer::new(), Buffer::new());
    let writes = buffers.0.format(writes);
    let committed = buffers.1.format(committed);
    print_last(
        out,
        format_args!("writes {writes}\ncommitted {committed}\n"),
    )
}

/// Prints how many images the stops of a script left, as the last text of a command.
pub fn print_images<O: Write>(out: &mut O, images: u64) -> Result<(), Unwritten>
    ensures ok { OnOk result
        (Appends (O.contents out.old) (O.contents out.new) (images_text images)) }
{
    let mut buffer = Buffer::new();
    let images = buffer.format(images);
    print_last(out, format_args!("images {images}\n"))
}

/// Prints the line of a program of that name for a refusal, as the last text of a command.
pub fn print_refusal<E: Write, R: Reason>(
    program: &str,
    refusal: &R,
    err: &mut E,
) -> Result<(), Unwritten>
    ensures { OnOk result (Appends (E.contents err.old) (E.contents err.new)
        (refusal_line program.now (R.telling refusal.now))) }
{
    let told = refusal.told();
    print_last(err, format_args!("{program}: {told}\n"))
}
