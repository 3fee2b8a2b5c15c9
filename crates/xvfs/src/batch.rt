// Command lines from a reader.
ghost use Rattle.std.specs.Prelude.{◌≡◌, ◌≢◌, ◌⊎◌, ◌≤◌, ◌<◌, [], length, map, IfSome};
ghost use Rattle.cmd.specs.Lines.{lines_in, script_in};
ghost use Rattle.cmd.specs.declared.batch.TheConstants.{LIMIT};
ghost use Rattle.xvfs.specs.Files.{ghosts_of};
ghost use Rattle.xvfs.specs.Requests.{DoesAll, StopsAt};

use crate::command::{NAME, command};
use crate::progress::Screen;
use crate::telling::says_more;
use blocks::{Disk, FaultyDisk, FileDisk};
use cmd::{InputFault, Locks, read_text, script_of};
use second_lines::{Given, tell_fault};
use std::io::{Read, Write};
use std::rt::Clock;
use std::sync::Wait;
use std::thread::Threads;

/// Does the commands of a text: each line is one, its words have one space between them, and empty
/// lines are none. Ends at the first whose exit status isn't 0, and answers that, else 0. Prints as
/// `command` does, and so nothing to `err` where the status is 0; then each line's command was
/// done. Status 1, and no command is done, where the text can't be had.
pub(crate) fn commands<
    R: Locks + AllocGlobal + Threads + Wait + Clock + Screen + Sync,
    I: Read + Drop,
    O: Write,
    E: Write,
>(rt: &R, input: I, out: &mut O, err: &mut E) -> u8
where
    R::File: Send,
    ensures status { result ≤ 2 }
    ensures large { IfSome (I.remaining input)
        (λ bytes. LIMIT < length bytes → (result ≡ 1) × (out.new ≡ out.old)) }
    ensures done { IfSome (I.remaining input) (λ bytes. result ≡ 0 → DoesAll (ghosts_of
        R.File.remaining R.File.contents
        ⟦<FileDisk<R::File> as Disk>⟧ ⟦<FaultyDisk<FileDisk<R::File>> as Disk>⟧)
        (script_in (lines_in bytes)) (O.contents out.old) (O.contents out.new)) }
    ensures stopped { IfSome (I.remaining input) (λ bytes. result ≢ 0 → StopsAt (ghosts_of
        R.File.remaining R.File.contents
        ⟦<FileDisk<R::File> as Disk>⟧ ⟦<FaultyDisk<FileDisk<R::File>> as Disk>⟧)
        O.contents (script_in (lines_in bytes)) out.old out.new ⊎ (out.new ≡ out.old)) }
    ensures silent { result ≡ 0 → err.new ≡ err.old }
{
    match read_text(rt.alloc(), input) {
        Ok(text) => perform_text(rt, text.as_str(), out, err),
        Err(fault) => tell_unread(rt, fault, err),
    }
}

// Tells why there are no command lines. The exit status.
fn tell_unread<R: Locks + AllocGlobal + Screen, E: Write>(
    rt: &R,
    fault: InputFault,
    err: &mut E,
) -> u8
    ensures { result ≡ 1 }
{
    let more = says_more(rt, false);
    tell_fault(NAME, rt, more, &Given::nothing(), fault, err)
}

fn perform_text<
    R: Locks + AllocGlobal + Threads + Wait + Clock + Screen + Sync,
    O: Write,
    E: Write,
>(rt: &R, text: &str, out: &mut O, err: &mut E) -> u8
where
    R::File: Send,
    ensures status { result ≤ 2 }
    ensures done { result ≡ 0 → DoesAll (ghosts_of R.File.remaining R.File.contents
        ⟦<FileDisk<R::File> as Disk>⟧ ⟦<FaultyDisk<FileDisk<R::File>> as Disk>⟧)
        (script_in (lines_in text.now)) (O.contents out.old) (O.contents out.new) }
    ensures stopped { result ≢ 0 → StopsAt (ghosts_of R.File.remaining R.File.contents
        ⟦<FileDisk<R::File> as Disk>⟧ ⟦<FaultyDisk<FileDisk<R::File>> as Disk>⟧)
        O.contents (script_in (lines_in text.now)) out.old out.new ⊎ (out.new ≡ out.old) }
    ensures silent { result ≡ 0 → err.new ≡ err.old }
{
    match script_of(rt.alloc(), text) {
        Ok(lines) => perform_lines(rt, lines.as_slice(), out, err),
        Err(_) => tell_unread(rt, InputFault::NoMemory, err),
    }
}

fn perform_lines<
    R: Locks + AllocGlobal + Threads + Wait + Clock + Screen + Sync,
    O: Write,
    E: Write,
>(rt: &R, lines: &[Vec<&str>], out: &mut O, err: &mut E) -> u8
where
    R::File: Send,
    ensures status { result ≤ 2 }
    ensures none { lines.now ≡ [] → (result ≡ 0) × (out.new ≡ out.old) }
    ensures done { result ≡ 0 → DoesAll (ghosts_of R.File.remaining R.File.contents
        ⟦<FileDisk<R::File> as Disk>⟧ ⟦<FaultyDisk<FileDisk<R::File>> as Disk>⟧)
        (map (λ words. map (λ word. word.now) words.items) lines.now)
        (O.contents out.old) (O.contents out.new) }
    ensures stopped { result ≢ 0 → StopsAt (ghosts_of R.File.remaining R.File.contents
        ⟦<FileDisk<R::File> as Disk>⟧ ⟦<FaultyDisk<FileDisk<R::File>> as Disk>⟧)
        O.contents (map (λ words. map (λ word. word.now) words.items) lines.now)
        out.old out.new }
    ensures silent { result ≡ 0 → err.new ≡ err.old }
{
    for words in lines {
        let status = command(rt, words.as_slice(), out, err);
        if status != 0 {
            return status;
        }
    }
    0
}
