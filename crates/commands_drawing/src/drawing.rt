// A picture in the file of a path.
ghost use Rattle.std.specs.Prelude.{IfOk, OnOk};
ghost use Rattle.std.specs.Io.KnownBytes.{Appends};
ghost use Rattle.commands_drawing.specs.Drawn.{IsDrawn, picture_telling};

use blocks::FileFault;
use cmd::OnFile;
use commands::{Holder, MakesThere, make_in_place};
use messages::{Reason, Told};
use pictures::Picture;
use std::alloc::Global;
use std::io::{BufWriter, Write};
use std::rt::Files;

// How many bytes of a picture are held back.
const HELD_BACK: usize = 65_536;

/// Why a picture isn't drawn.
#[derive(Clone, Copy, Debug)]
pub enum PictureFault {
    /// The file of the picture can't be made or replaced.
    File(FileFault),
    /// The picture can't be written into it.
    Write,
}

impl Reason for PictureFault {
    ghost telling = { picture_telling };

    fn told(&self) -> Told {
        match self {
            PictureFault::File(fault) => fault.told(),
            PictureFault::Write => Told::new("picture", 3, "Write"),
        }
    }
}

/// Draws a picture into the file at this path. By its code a file that stands there is kept until the
/// picture is whole, as `make_in_place` says.
///
/// # Errors
///
/// `File` with a fault of `make_in_place`; `Write` where the picture can't be written.
pub fn draw<R: Files + AllocGlobal, P: Picture, H: Holder<R::File>>(
    rt: &R,
    path: &str,
    picture: &P,
    holder: &mut H,
) -> Result<(), PictureFault>
    ensures { OnOk result (IsDrawn R.File.contents (P.text picture.now)) }
{
    match make_in_place(rt, path, &Drawing(picture), false, holder) {
        Ok(()) => Ok(()),
        Err(OnFile::File(fault)) => Err(PictureFault::File(fault)),
        Err(OnFile::Of(_)) => Err(PictureFault::Write),
    }
}

// A picture, which a new file gets.
#[derive(Drop)]
struct Drawing<'a, P>(&'a P);

// The picture, or the last of it, can't be written.
#[derive(Clone, Copy, Drop)]
struct Unflushed;

// Each picture can be drawn, and of one that wasn't nothing is known.
impl<'a, R: Files + AllocGlobal, P: Picture> MakesThere<R> for Drawing<'a, P> {
    type Made = ();

    type Fault = Unflushed;

    ghost use Rattle.std.specs.Prelude.{⊤};

    ghost can = { λ drawing. ⊤ };

    ghost made = { λ drawing made. IsDrawn R.File.contents (P.text drawing.0.now) };

    ghost unmade = { λ drawing fault. ⊤ };

    ghost files = { λ drawing fault. tt };

    fn make_there(&self, rt: &R, file: R::File) -> Result<(), OnFile<Unflushed>> {
        match write_into(rt.alloc(), file, self.0) {
            Ok(_written) => Ok(()),
            Err(fault) => Err(fault),
        }
    }
}

// Writes a picture into a file, through a buffer. The file then.
fn write_into<F: Write + Drop, P: Picture>(
    alloc: Global,
    file: F,
    picture: &P,
) -> Result<F, OnFile<Unflushed>>
    ensures { IfOk result
        (λ written. Appends (F.contents file) (F.contents written) (P.text picture.now)) }
{
    let mut out = match BufWriter::with_capacity(alloc, HELD_BACK, file) {
        Ok(out) => out,
        Err(_refused) => return Err(OnFile::File(FileFault::NoMemory)),
    };
    match picture.print(&mut out) {
        Ok(()) => match out.into_inner() {
            Ok(written) => Ok(written),
            Err(_unflushed) => Err(OnFile::Of(Unflushed)),
        },
        Err(_unwritten) => Err(OnFile::Of(Unflushed)),
    }
}
