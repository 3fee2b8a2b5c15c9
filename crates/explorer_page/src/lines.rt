// Lines of text.
ghost use Rattle.std.specs.Prelude.{OnOk, map};
ghost use Rattle.std.specs.Io.KnownBytes.{Appends};
ghost use Rattle.explorer_page.specs.Lines.{lines_text};

use messages::{Unwritten, print};
use std::io::Write;

// Writes lines, each with its line feed.
pub fn print_lines<O: Write>(out: &mut O, lines: &[&str]) -> Result<(), Unwritten>
    ensures ok { OnOk result (Appends (O.contents out.old) (O.contents out.new)
        (lines_text (map (λ line. line.now) lines.now))) }
{
    for line in lines {
        print(out, format_args!("{line}\n"))?;
    }
    Ok(())
}
