// The command that makes an image in a file.
ghost use Rattle.std.specs.Prelude.{◌≡◌, ◌↔◌, false, true, IsTrue, IfErr, IfOk, OnOk};
ghost use Rattle.std.specs.Result.{IsErrOf};
ghost use Rattle.cmd.specs.declared.files.OnFile.TheVariants as on;
ghost use Rattle.layout.specs.declared.geometry.MkfsFault.TheVariants as fault;
ghost use Rattle.messages.specs.declared.printed.Printed.TheVariants as printed;
ghost use Rattle.model.specs.Layout.{is_inode_count, is_size, planned_super};
ghost use Rattle.offline.specs.Making.{MakesAs};
ghost use Rattle.disk_commands.specs.Causes.{IsUnmade};
ghost use Rattle.disk_commands.specs.Looks.{EndsSynced};
ghost use Rattle.commands_changes.specs.Making.{
  HasMadeAs,
  IsFilledWith,
  IsMade,
  IsNotFilledWith,
  IsNotMade,
  IsNotMadeIn,
  IsPlan,
};

use blocks::{Disk, FileDisk};
use cmd::{Command, OnFile};
use commands::{Holder, MakesThere, make_in_place};
use disk_commands::make_disk;
use layout::{MkfsFault, Super, plan};
use messages::{Printed, print_numbers};
use model::types::Form;
use offline::mkfs_as;
use std::alloc::Global;
use std::io::Write;
use std::rt::Files;

/// An image that is to be made.
#[derive(Clone, Copy, Drop)]
pub struct Making {
    /// Its form.
    pub form: Form,
    /// How many blocks of 1024 bytes it has.
    pub size: u32,
    /// How many inode numbers it has, the unused number 0 among them.
    pub ninodes: u32,
    /// Whether it is synced at the end.
    pub sync: bool,
}

/// Makes an image in a file at the path `image`, and prints its numbers, as `make_file`.
#[derive(Drop)]
pub struct Mkfs<'a, H> {
    /// The path of the image's file.
    pub image: &'a str,
    /// The image.
    pub making: Making,
    /// Who holds the files that are made.
    pub holder: H,
}

impl<'a, R: Files + AllocGlobal, H: Holder<R::File> + Drop> Command<R> for Mkfs<'a, H> {
    type Refusal = OnFile<Printed<MkfsFault>>;

    ghost done = { λ mkfs. IsMade ⟦<FileDisk<R::File> as Disk>⟧ mkfs.making.form
        mkfs.making.size mkfs.making.ninodes mkfs.making.sync };

    ghost refused = { λ mkfs old new. IsNotMade mkfs.making.size mkfs.making.ninodes };

    fn run<O: Write>(self, rt: &R, out: &mut O) -> Result<(), OnFile<Printed<MkfsFault>>> {
        let mut holder = self.holder;
        make_file(rt, self.image, self.making, &mut holder, out)
    }
}

/// Makes an image in a file at this path, syncs it where that is asked for, and prints its numbers.
///
/// By its code a file that stands at the path is kept until the new image is whole, as `make_in_place`
/// says.
///
/// # Errors
///
/// A fault of `plan`, and then the file at the path is as it was; else one of `make_in_place`,
/// `FileDisk::zeroed` or `make_disk`.
pub fn make_file<R: Files + AllocGlobal, H: Holder<R::File>, O: Write>(
    rt: &R,
    image: &str,
    making: Making,
    holder: &mut H,
    out: &mut O,
) -> Result<(), OnFile<Printed<MkfsFault>>>
    ensures made { OnOk result (IsMade ⟦<FileDisk<R::File> as Disk>⟧ making.form making.size
        making.ninodes making.sync (O.contents out.old) (O.contents out.new)) }
    ensures refused { IfErr result
        (IsNotMade making.size making.ninodes (out.new ≡ out.old)) }
    ensures inodes { IsErrOf result (on.Of (printed.Fault fault.InodeRange))
        ↔ (is_inode_count making.ninodes ≡ false) }
    ensures size { IsErrOf result (on.Of (printed.Fault fault.SizeRange))
        ↔ (IsTrue (is_inode_count making.ninodes)
        × (is_size making.size making.ninodes ≡ false)) }
{
    if let Err(fault) = plan(making.size, making.ninodes) {
        return Err(OnFile::Of(Printed::Fault(fault)));
    }
    match make_in_place(rt, image, &making, making.sync, holder) {
        Ok(fields) => match print_numbers(out, &fields) {
            Ok(()) => Ok(()),
            Err(_) => Err(OnFile::Of(Printed::Output)),
        },
        Err(OnFile::File(fault)) => Err(OnFile::File(fault)),
        Err(OnFile::Of(fault)) => Err(OnFile::Of(Printed::Fault(fault))),
    }
}

// An image of its own in the file.
impl<R: Files + AllocGlobal> MakesThere<R> for Making {
    type Made = Super;

    type Fault = MkfsFault;

    ghost can = { λ making. IsPlan making.size making.ninodes };

    ghost made = { HasMadeAs ⟦<FileDisk<R::File> as Disk>⟧ };

    ghost unmade = { λ making. IsNotMadeIn };

    ghost files = { λ making fault. tt };

    fn make_there(&self, rt: &R, file: R::File) -> Result<Super, OnFile<MkfsFault>> {
        match FileDisk::zeroed(rt.alloc(), file, self.size) {
            Ok(created) => match fill(rt.alloc(), created, *self) {
                Ok(fields) => Ok(fields),
                Err(fault) => Err(OnFile::Of(fault)),
            },
            Err(fault) => Err(OnFile::File(fault)),
        }
    }
}

// Makes an image on a disk, which nobody keeps. The fields of its superblock.
fn fill<D: Disk + Drop>(alloc: Global, mut disk: D, making: Making) -> Result<Super, MkfsFault>
    ensures made { IfOk result (IsFilledWith D.Disk making.form making.size making.ninodes
        making.sync disk) }
    ensures refused { IfErr result
        (IsNotFilledWith D.Disk making.form making.size making.ninodes disk) }
{
    make_on(alloc, &mut disk, making)
}

// Makes an image on a disk, and syncs that where it is asked for. The fields of its superblock.
fn make_on<D: Disk>(alloc: Global, disk: &mut D, making: Making) -> Result<Super, MkfsFault>
    ensures made { OnOk result (MakesAs D.Disk making.form making.size making.ninodes
        disk.old disk.new) }
    ensures synced { OnOk result (making.sync ≡ true → EndsSynced D.Disk disk.new) }
    ensures fields { IfOk result
        (λ fields. fields ≡ planned_super making.size making.ninodes) }
    ensures refused { IfErr result (IsUnmade D.image D.fault_count making.form making.size
        making.ninodes disk.old disk.new) }
{
    let Making {
        form,
        size,
        ninodes,
        sync,
    } = making;
    if sync {
        return make_disk(alloc, disk, form, size, ninodes);
    }
    let fields = plan(size, ninodes)?;
    mkfs_as(alloc, disk, size, ninodes, form)?;
    Ok(fields)
}
