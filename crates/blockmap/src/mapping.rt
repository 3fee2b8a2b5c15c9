// From a block of a file to that of the image.
ghost use Rattle.std.specs.Prelude.{◌≡◌, ◌<◌, length};
ghost use Rattle.blocks.specs.Disk.{Image};
ghost use Rattle.model.specs.Layout.{form_of};
ghost use Rattle.model.specs.Places.{address_in};
ghost use Rattle.blockmap.specs.Branch.{block_limit};
ghost use Rattle.blockmap.specs.Map.{mapped, address_mapped, mapped_for_writing, IsThere};

use crate::bmap::some_address;
use crate::bmap_alloc::entry_behind;
use crate::{Balloc, Bmap, BmapAlloc, MapAt, Node, branch_of};
use model::types::{Dinode, Form};

/// Where an inode's addresses lead from one of its file's blocks.
#[derive(Clone, Copy)]
pub enum Mapped {
    /// To this block; None where the file has none there.
    At(Option<u32>),
    /// To an entry below a block of addresses, which has to be read.
    Behind(Bmap),
}

/// Where an inode's addresses lead from block `k` of its file in an image of that form.
pub fn map(inode: &Dinode, form: Form, k: u32) -> Mapped
    requires addrs { length inode.now.addrs ≡ 13 }
    requires within { k < block_limit form }
    ensures map { result ≡ mapped form inode.now k }
    ensures address { (x : Image) → form_of x ≡ form
        → address_in x inode.now k ≡ address_mapped x result }
{
    let branch = branch_of(form, k);
    let address = inode.addrs[branch.index];
    if address == 0 || branch.depth == 0 {
        return Mapped::At(some_address(address));
    }
    Mapped::Behind(Bmap::new(Node::at(address, branch.depth, branch.rest)))
}

/// Where a writer finds a block of a file.
#[derive(Clone, Copy)]
pub enum MappedForWriting {
    /// It is this block, which the inode itself names.
    At(u32),
    /// These steps lead to it, and make what isn't there.
    Behind(BmapAlloc),
}

/// Where a writer finds block `k` of an inode's file in an image of that form and of that many
/// blocks, with that block of the bitmap.
pub fn map_for_writing(
    inode: &Dinode,
    form: Form,
    k: u32,
    bitmap: u32,
    size: u32,
) -> MappedForWriting
    requires addrs { length inode.now.addrs ≡ 13 }
    requires within { k < block_limit form }
    ensures map { result ≡ mapped_for_writing form inode.now k bitmap size }
    ensures there { (x : Image) → form_of x ≡ form → IsThere x inode.now k result }
{
    let branch = branch_of(form, k);
    let address = inode.addrs[branch.index];
    if address != 0 && branch.depth == 0 {
        return MappedForWriting::At(address);
    }
    let at = if address == 0 {
        MapAt::Address(Balloc::new(bitmap, size))
    } else {
        entry_behind(address, branch.depth, branch.rest)
    };
    MappedForWriting::Behind(BmapAlloc::begin(branch, bitmap, size, at))
}
