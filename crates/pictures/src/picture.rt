// What a picture is.
ghost use Rattle.std.specs.Prelude.{OnOk};
ghost use Rattle.std.specs.Io.KnownBytes.{Appends};

use messages::Unwritten;
use std::io::Write;

/// A picture, which is a page of HTML.
pub trait Picture {
    ghost use Rattle.std.specs.Prelude.{ℕ, List};

    /// Its text.
    ghost text: { Self → List ℕ };

    /// Writes it, and passes on what the writer holds back.
    ///
    /// # Errors
    ///
    /// `Unwritten` where the output can't be written.
    fn print<O: Write>(&self, out: &mut O) -> Result<(), Unwritten>
        ensures { OnOk result (Appends (O.contents out.old) (O.contents out.new) (text self.now)) };
}
