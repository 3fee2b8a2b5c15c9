// What a process was answered, in a few words.
ghost use Rattle.std.specs.Prelude.{◌≡◌, OnOk};
ghost use Rattle.std.specs.Io.KnownBytes.{Appends};
ghost use Rattle.pictures.specs.Replies.{gist_of, reply_words};

use itoa::Buffer;
use messages::{Unwritten, print};
use model::types::Reply;
use std::io::Write;

/// A reply without its bytes.
#[derive(Clone, Copy, Debug)]
pub enum Gist {
    /// A file of this number was made.
    Made(u32),
    /// Each number was taken.
    NoInode,
    /// So many bytes were written.
    Wrote(u32),
    /// So many bytes were read.
    Read(usize),
    /// A truncation or a removal was done.
    Done,
    /// The type and the length were told.
    Told,
    /// It was refused.
    Refused,
}

/// A reply without its bytes.
pub fn gist_of(reply: &Reply) -> Gist
    ensures { result ≡ gist_of reply.now }
{
    match reply {
        Reply::Made(number) => Gist::Made(*number),
        Reply::NoInode => Gist::NoInode,
        Reply::Wrote(count) => Gist::Wrote(*count),
        Reply::Bytes(bytes) => Gist::Read(bytes.as_slice().len()),
        Reply::Done => Gist::Done,
        Reply::StatOf(_, _, _) => Gist::Told,
        _ => Gist::Refused,
    }
}

// Writes a reply in a few words.
pub fn print_reply<O: Write>(out: &mut O, reply: Gist) -> Result<(), Unwritten>
    ensures ok { OnOk result (Appends (O.contents out.old) (O.contents out.new)
        (reply_words reply)) }
{
    let mut buffer = Buffer::new();
    match reply {
        Gist::Made(number) => {
            let number = buffer.format(number);
            print(out, format_args!("made {number}"))
        }
        Gist::NoInode => print(out, "no inode"),
        Gist::Wrote(count) => {
            let count = buffer.format(count);
            print(out, format_args!("wrote {count}"))
        }
        Gist::Read(count) => {
            let count = buffer.format(count);
            print(out, format_args!("read {count}"))
        }
        Gist::Done => print(out, "done"),
        Gist::Told => print(out, "told"),
        Gist::Refused => print(out, "refused"),
    }
}
