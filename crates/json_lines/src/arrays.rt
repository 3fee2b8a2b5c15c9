// The elements of an array.
ghost use Rattle.std.specs.Prelude.{OnOk};
ghost use Rattle.std.specs.Io.KnownBytes.{Appends};
ghost use Rattle.json_lines.specs.Arrays.{comma_behind};

use messages::{Unwritten, print};
use std::io::Write;

/// Writes what stands before an element that is behind so many others of its array: a comma, but
/// before the first nothing.
pub fn print_comma<O: Write>(out: &mut O, others: u64) -> Result<(), Unwritten>
    ensures ok { OnOk result (Appends (O.contents out.old) (O.contents out.new)
        (comma_behind others)) }
{
    print(out, if others == 0 { "" } else { "," })
}
