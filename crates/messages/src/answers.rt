// The line of a turn with an answer, written piece by piece with no `Formatter`.
ghost use Rattle.std.specs.Prelude.{◌++◌, OnOk, codes, decimal};
ghost use Rattle.std.specs.Io.KnownBytes.{Appends};
ghost use Rattle.messages.specs.Events.{bytes_text, event_line, reply_text};
ghost use Rattle.messages.specs.declared.events.Event.TheVariants.{Answered};
ghost use Rattle.hex.specs.Hex.{encode_lower};

use crate::events::ReplyText;
use crate::hex_digits::{PIECE, digits_of};
use crate::output::{print, print_process, write_bytes};
use crate::told::Unwritten;
use itoa::Buffer;
use model::types::{Answer, Reply};
use std::io::Write;

// Writes the line of a turn with an answer.
pub(crate) fn print_answer<O: Write>(
    out: &mut O,
    pid: u32,
    answer: &Answer,
) -> Result<(), Unwritten>
    ensures ok { OnOk result (Appends (O.contents out.old) (O.contents out.new)
        (event_line (Answered pid answer.now))) }
{
    print_process(out, pid)?;
    print_places(out, answer.seq, answer.group)?;
    print_reply(out, &answer.reply)?;
    write_bytes(out, b"\n")
}

// Writes an answer's place among its process's, and its group.
fn print_places<O: Write>(out: &mut O, seq: u64, group: u64) -> Result<(), Unwritten>
    ensures ok { OnOk result (Appends (O.contents out.old) (O.contents out.new)
        (codes " answered " ++ decimal seq ++ codes " " ++ decimal group ++ codes " ")) }
{
    let mut digits = Buffer::new();
    write_bytes(out, b" answered ")?;
    write_bytes(out, digits.format(seq).as_bytes())?;
    write_bytes(out, b" ")?;
    write_bytes(out, digits.format(group).as_bytes())?;
    write_bytes(out, b" ")
}

// Writes a reply. Those of a write and a read are most.
fn print_reply<O: Write>(out: &mut O, reply: &Reply) -> Result<(), Unwritten>
    ensures ok { OnOk result (Appends (O.contents out.old) (O.contents out.new)
        (reply_text reply.now)) }
{
    match reply {
        Reply::Made(inode) => print_counted(out, b"made ", *inode),
        Reply::Wrote(count) => print_counted(out, b"wrote ", *count),
        Reply::Bytes(bytes) => print_content(out, bytes.as_slice()),
        Reply::Done => write_bytes(out, b"done"),
        _ => print(out, ReplyText(reply)),
    }
}

// Writes a word and a number.
fn print_counted<O: Write>(out: &mut O, word: &[u8], count: u32) -> Result<(), Unwritten>
    ensures ok { OnOk result (Appends (O.contents out.old) (O.contents out.new)
        (word.now ++ decimal count)) }
{
    let mut digits = Buffer::new();
    write_bytes(out, word)?;
    write_bytes(out, digits.format(count).as_bytes())
}

// Writes the bytes that were read.
fn print_content<O: Write>(out: &mut O, bytes: &[u8]) -> Result<(), Unwritten>
    ensures ok { OnOk result (Appends (O.contents out.old) (O.contents out.new)
        (codes "bytes " ++ bytes_text bytes.now)) }
{
    write_bytes(out, b"bytes ")?;
    if bytes.is_empty() {
        return write_bytes(out, b"-");
    }
    print_digits(out, bytes)
}

// Writes the hexadecimal digits of bytes.
fn print_digits<O: Write>(out: &mut O, bytes: &[u8]) -> Result<(), Unwritten>
    ensures ok { OnOk result (Appends (O.contents out.old) (O.contents out.new)
        (encode_lower bytes.now)) }
{
    let mut place = [[0u8; 2]; PIECE];
    for piece in bytes.chunks(PIECE) {
        write_bytes(out, digits_of(piece, &mut place))?;
    }
    Ok(())
}
