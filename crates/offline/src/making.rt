// A new image on a disk.
ghost use Rattle.std.specs.Prelude.{◌≡◌, ◌≤◌, ◌<◌, length, OnOk, OnErr, IfErr};
ghost use Rattle.blocks.specs.Calls.{WritesOne};
ghost use Rattle.blocks.specs.Disk.{Rose};
ghost use Rattle.model.specs.Codec.{made_block};
ghost use Rattle.offline.specs.Making.{Makes, MakesAs, MakesBehind, MakesInOrder, RefusesToMake};

use crate::new_image::NewImage;
use blocks::Disk;
use layout::{MkfsFault, plan};
use model::types::Form;
use std::alloc::Global;

fn write_block<D: Disk>(disk: &mut D, image: &NewImage, b: u32) -> Result<(), MkfsFault>
    requires { b < length (D.image disk.old) }
    ensures writes { WritesOne D.Disk b
        (made_block image.now.form image.now.size image.now.ninodes b) result disk.old disk.new }
    ensures disk { IfErr result (λ fault. fault ≡ MkfsFault.Disk) }
{
    disk.write(b, image.block(b))?;
    Ok(())
}

// Writes all blocks but the superblock, in order.
fn write_behind<D: Disk>(disk: &mut D, image: &NewImage) -> Result<(), MkfsFault>
    requires size { length (D.image disk.old) ≡ image.now.size }
    requires some { 2 ≤ image.now.size }
    ensures ok { OnOk result
        (MakesBehind D.Disk image.now.form image.now.size image.now.ninodes disk.old disk.new) }
    ensures writes { MakesInOrder D.Disk
        image.now.form image.now.size image.now.ninodes disk.old disk.new }
    ensures disk { IfErr result (λ fault. fault ≡ MkfsFault.Disk) }
    ensures rose { OnErr result (Rose (D.fault_count disk.old) (D.fault_count disk.new)) }
{
    write_block(disk, image, 0)?;
    for b in 2..image.size {
        write_block(disk, image, b)?;
    }
    Ok(())
}

// Writes all blocks, the superblock last.
fn write_image<D: Disk>(disk: &mut D, image: &NewImage) -> Result<(), MkfsFault>
    requires size { length (D.image disk.old) ≡ image.now.size }
    requires some { 2 ≤ image.now.size }
    ensures made { OnOk result
        (MakesAs D.Disk image.now.form image.now.size image.now.ninodes disk.old disk.new) }
    ensures writes { MakesInOrder D.Disk
        image.now.form image.now.size image.now.ninodes disk.old disk.new }
    ensures disk { IfErr result (λ fault. fault ≡ MkfsFault.Disk) }
    ensures rose { OnErr result (Rose (D.fault_count disk.old) (D.fault_count disk.new)) }
{
    write_behind(disk, image)?;
    write_block(disk, image, 1)?;
    Ok(())
}

/// Makes a new image of the first form on a disk, as `mkfs_as` makes one: the same blocks in the
/// same order.
///
/// # Errors
///
/// `InodeRange` and `SizeRange` as for `plan`, and `SizeRange` where the disk has another size;
/// then `NoMemory` where the allocator refuses three blocks. With these nothing is written. `Disk`
/// where the disk fails: what it holds then is not said, but for block 1.
pub fn mkfs<D: Disk>(alloc: Global, disk: &mut D, size: u32, ninodes: u32) -> Result<(), MkfsFault>
    ensures made { OnOk result (Makes D.Disk size ninodes disk.old disk.new) }
    ensures writes { MakesInOrder D.Disk Form.One size ninodes disk.old disk.new }
    ensures refuses { RefusesToMake D.Disk size ninodes result disk.old disk.new }
{
    mkfs_as(alloc, disk, size, ninodes, Form::One)
}

/// Makes a new image of that form, of `size` blocks and with `ninodes` inode numbers, on a disk of
/// that size, as `plan` lays it out: blocks of zeroes, but for the superblock and the bitmap, which
/// says that the blocks before the data are used. There is no file then, and nothing is logged.
/// (The xv6 book, the chapter "File system"; xv6's mkfs.)
///
/// It writes block 0, then blocks 2 to the last in order, and block 1, the superblock, last. So
/// where it stops before its end, block 1 is as it was.
///
/// # Errors
///
/// `InodeRange` and `SizeRange` as for `plan`, and `SizeRange` where the disk has another size;
/// then `NoMemory` where the allocator refuses three blocks. With these nothing is written. `Disk`
/// where the disk fails: what it holds then is not said, but for block 1.
pub fn mkfs_as<D: Disk>(
    alloc: Global,
    disk: &mut D,
    size: u32,
    ninodes: u32,
    form: Form,
) -> Result<(), MkfsFault>
    ensures made { OnOk result (MakesAs D.Disk form size ninodes disk.old disk.new) }
    ensures writes { MakesInOrder D.Disk form size ninodes disk.old disk.new }
    ensures refuses { RefusesToMake D.Disk size ninodes result disk.old disk.new }
{
    let fields = plan(size, ninodes)?;
    if disk.size() != size {
        return Err(MkfsFault::SizeRange);
    }
    let image = NewImage::new(alloc, &fields, form)?;
    write_image(disk, &image)
}
