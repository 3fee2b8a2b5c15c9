// How a program starts.
ghost use Rattle.std.specs.Prelude.{◌≤◌};

use cli::arguments;
use cli::arguments::WordsFault;
use cmd::{InputFault, end, input_unread};
use messages::print_last;
use std::fs::File;
use std::io::{BufWriter, IsTerminal, Stdout, Write};

// How many bytes of the output are held back where that is no terminal: ten times the digits of the
// longest Read.
const HELD_BACK: usize = 65_536;

/// Why nothing can be begun.
#[derive(Clone, Copy, Debug)]
pub enum Unbegun {
    /// A word isn't UTF-8.
    NotUtf8,
    /// Memory was refused.
    Input(InputFault),
}

/// A file of nothing, opened to be read, which takes the least number that is free, until it goes.
pub fn take_number(rt: &HostRuntime) -> Option<File> {
    match File::open(rt, "/dev/null") {
        Ok(file) => Some(file),
        // A system without devices has a root folder.
        Err(_) => File::open(rt, "/").ok(),
    }
}

/// The words that the program was started with, and its output, which is held back up to the end of
/// each command; a terminal gets all at once.
///
/// # Errors
///
/// `NotUtf8` where a word isn't UTF-8; `Input` where memory is refused.
pub fn words_and_output(rt: &HostRuntime) -> Result<(Vec<String>, BufWriter<Stdout>), Unbegun> {
    let words = match arguments::given(rt) {
        Ok(words) => words,
        Err(WordsFault::NotUtf8) => return Err(Unbegun::NotUtf8),
        Err(WordsFault::NoMemory) => return Err(Unbegun::Input(InputFault::NoMemory)),
    };
    let out = rt.stdout();
    let held_back = if out.is_terminal() { 0 } else { HELD_BACK };
    match BufWriter::with_capacity(rt.alloc(), held_back, out) {
        Ok(out) => Ok((words, out)),
        Err(error) => Err(Unbegun::Input(input_unread(error))),
    }
}

/// Tells why nothing can be begun, as far as that can be written, by a line of the program of that
/// name. The exit status.
pub fn end_unbegun<E: Write>(program: &str, unbegun: Unbegun, err: &mut E) -> u8
    ensures { result ≤ 2 }
{
    match unbegun {
        Unbegun::Input(fault) => end(program, Err(fault), err),
        Unbegun::NotUtf8 => {
            let _unwritten = err.write_all(b"error: an argument isn't UTF-8\n");
            2
        }
    }
}

/// Says on a terminal that its lines are taken as those of commands of the program of that name, and how
/// they end, as far as that can be written. Elsewhere it says nothing.
pub fn greet<I: IsTerminal, E: Write>(program: &str, input: &I, err: &mut E) {
    if input.is_terminal() {
        let _unwritten = print_last(
            err,
            format_args!("{program}: a command a line, up to Ctrl-D; {program} help tells them\n"),
        );
    }
}
