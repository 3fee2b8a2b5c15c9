// The command that draws the blocks of an image into a file.
ghost use Rattle.std.specs.Prelude.{◌≡◌, IfErr, OnOk, false};
ghost use Rattle.cmd.specs.Lemmas.Disks.{file_disk};
ghost use Rattle.cmd.specs.Opened.{IsOpened};
ghost use Rattle.pictures.specs.Cells.{blocks_text};
ghost use Rattle.commands_drawing.specs.Drawn.{IsDrawn};
ghost use Rattle.commands_show.specs.Shown.{IsShownInto, IsUnshown, shown_telling};

use blocks::FileDisk;
use cmd::{Access, Command, Locking, Locks, OnFile, open_for};
use commands::Holder;
use commands_drawing::{PictureFault, draw};
use inspect::{ShowRefusal, show_cells};
use messages::{Cell, Reason, Told};
use pictures::Cells;
use std::io::Write;
use std::rt::Files;

/// Why the blocks of an image aren't drawn into a file.
#[derive(Clone, Copy, Debug)]
pub enum ShowPictureRefusal {
    /// They weren't printed.
    Show(OnFile<ShowRefusal>),
    /// They were printed, and not drawn.
    Picture(PictureFault),
}

impl Reason for ShowPictureRefusal {
    ghost telling = { shown_telling };

    fn told(&self) -> Told {
        match self {
            ShowPictureRefusal::Show(refusal) => refusal.told(),
            ShowPictureRefusal::Picture(fault) => fault.told(),
        }
    }
}

/// Prints the blocks of the image in the file at the path `image`, as `show_disk`, and draws them into
/// the file at the path `picture`, as `draw`.
///
/// It is refused as `show_disk` is, and then nothing is drawn; else with `Picture` and a fault of `draw`.
#[derive(Drop)]
pub struct ShowPicture<'a, H> {
    /// The path of the image's file.
    pub image: &'a str,
    /// How its lock is taken.
    pub locking: Locking,
    /// That of the picture's.
    pub picture: &'a str,
    /// Who holds the files that are made.
    pub holder: H,
}

impl<'a, R: Locks + AllocGlobal, H: Holder<R::File> + Drop> Command<R> for ShowPicture<'a, H> {
    type Refusal = ShowPictureRefusal;

    ghost done = { λ show. IsShownInto R.File.remaining R.File.contents };

    ghost refused = { λ show. IsUnshown R.File.remaining };

    fn run<O: Write>(self, rt: &R, out: &mut O) -> Result<(), ShowPictureRefusal> {
        let mut holder = self.holder;
        match open_for(rt, self.image, Access::Look(self.locking)) {
            Ok(mut disk) => show_from(rt, &mut disk, self.picture, &mut holder, out),
            Err(fault) => Err(ShowPictureRefusal::Show(OnFile::File(fault))),
        }
    }
}

// Prints the blocks of the image on a disk that was opened, and draws them.
fn show_from<R: Files + AllocGlobal, H: Holder<R::File>, O: Write>(
    rt: &R,
    disk: &mut FileDisk<R::File>,
    picture: &str,
    holder: &mut H,
    out: &mut O,
) -> Result<(), ShowPictureRefusal>
    requires { IsOpened R.File.remaining file_disk false disk.old }
    ensures shown { OnOk result (IsShownInto R.File.remaining R.File.contents
        (O.contents out.old) (O.contents out.new)) }
    ensures refused { IfErr result (IsUnshown R.File.remaining
        (O.contents out.old) (O.contents out.new) (out.new ≡ out.old)) }
{
    match show_cells(rt.alloc(), disk, out) {
        Ok(cells) => match draw_cells(rt, picture, cells.as_slice(), holder) {
            Ok(()) => Ok(()),
            Err(fault) => Err(ShowPictureRefusal::Picture(fault)),
        },
        Err(refusal) => Err(ShowPictureRefusal::Show(OnFile::Of(refusal))),
    }
}

// Draws these blocks.
fn draw_cells<R: Files + AllocGlobal, H: Holder<R::File>>(
    rt: &R,
    path: &str,
    cells: &[Cell],
    holder: &mut H,
) -> Result<(), PictureFault>
    ensures { OnOk result (IsDrawn R.File.contents (blocks_text cells.now)) }
{
    draw(rt, path, &Cells { cells }, holder)
}
