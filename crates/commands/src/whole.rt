// Bytes that are all that a command prints.
ghost use Rattle.std.specs.Prelude.{OnOk};
ghost use Rattle.std.specs.Io.KnownBytes.{Appends};

use messages::{Unwritten, pass_on, write_bytes};
use std::io::Write;

/// Writes bytes, as the last text of a command.
///
/// # Errors
///
/// `Unwritten` where the output refuses them.
pub fn write_whole<O: Write>(out: &mut O, bytes: &[u8]) -> Result<(), Unwritten>
    ensures { OnOk result (Appends (O.contents out.old) (O.contents out.new) bytes.now) }
{
    write_bytes(out, bytes)?;
    pass_on(out)
}
