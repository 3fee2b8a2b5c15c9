// How a refusal is told.
ghost use Rattle.std.specs.Prelude.{◌≡◌, drop, take};
ghost use Rattle.second_lines.specs.Lines.{line_length};

use crate::explaining::explain;
use crate::given::Given;
use arrayvec::ArrayVec;
use messages::{Reason, print_refusal, write_bytes};
use std::env::{VarError, var};
use std::io::Write;
use std::rt::{Env, Files};

/// Room for the line of a refusal, and where a mismatch was met, neither of which has as many bytes.
pub type Line = ArrayVec<u8, 400>;

/// Tells a refusal, as far as that can be written: by its line, and where more is to be said by a
/// second one, as `explain`. Behind the line may stand where a mismatch was met.
pub fn tell<R: Files + AllocGlobal, E: Write>(
    rt: &R,
    more: bool,
    given: &Given<'_>,
    text: &[u8],
    err: &mut E,
) {
    let (line, mismatch) = first_line(text);
    let _unwritten = write_bytes(err, line);
    if more {
        let given = Given {
            mismatch: str::from_utf8(mismatch).ok(),
            ..*given
        };
        explain(rt, &given, line, err);
    }
}

// The first line of a text, with its line feed, and what stands behind it.
fn first_line(text: &[u8]) -> (&[u8], &[u8])
    ensures line { result.0.now ≡ take (line_length text.now) text.now }
    ensures rest { result.1.now ≡ drop (line_length text.now) text.now }
{
    for end in 0..text.len() {
        if text[end] == b'\n' {
            return text.split_at(end + 1);
        }
    }
    (text, &[])
}

/// Tells why nothing was done, by a line of the program of that name. The exit status.
pub fn tell_fault<R: Files + AllocGlobal, F: Reason + Drop, E: Write>(
    program: &str,
    rt: &R,
    more: bool,
    given: &Given<'_>,
    fault: F,
    err: &mut E,
) -> u8
    ensures { result ≡ 1 }
{
    let mut line: Line = ArrayVec::new();
    let _unwritten = print_refusal(program, &fault, &mut line);
    tell(rt, more, given, line.as_slice(), err);
    1
}

/// Whether the environment asks for more of each refusal: `XVFS_EXPLAIN` isn't empty there.
pub fn asks_more<R: Env + AllocGlobal>(rt: &R) -> bool {
    match var(rt, "XVFS_EXPLAIN") {
        Ok(word) => !word.as_str().is_empty(),
        Err(VarError::NotUnicode) => true,
        Err(_) => false,
    }
}
