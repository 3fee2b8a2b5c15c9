// The superblock and the bitmap of an image.
ghost use Rattle.std.specs.Prelude.{◌≡◌, ◌≤◌, ◌<◌, length};
ghost use Rattle.model.specs.Format.{bits_per_block};
ghost use Rattle.model.specs.Layout.{magic_at, has_known_magic, form_of, super_in, super_of, meta_count, is_lawful_super, inode_count_of, first_data_block, is_marked};

use crate::fields::has_bit;
use blocks::Block;
use layout::fields::read_u32;
use layout::superblock::{self, magic_of};
use layout::{BITS_PER_BLOCK, INODE_START, INODES_PER_BLOCK};
use model::types::{Form, Super};

/// The first number of the image's superblock.
pub fn magic_at(image: &[Block]) -> u32
    requires { 2 ≤ length image.now }
    ensures { result ≡ magic_at image.now }
{
    read_u32(image[1].as_slice(), 0)
}

/// Whether the image has a magic number that tells its form.
pub fn has_known_magic(image: &[Block]) -> bool
    requires { 2 ≤ length image.now }
    ensures { result ≡ has_known_magic image.now }
{
    superblock::is_known(image[1].as_slice())
}

/// How inodes lead to their blocks in this image.
pub fn form_of(image: &[Block]) -> Form
    requires { 2 ≤ length image.now }
    ensures { result ≡ form_of image.now }
{
    if magic_at(image) == magic_of(Form::Two) {
        Form::Two
    } else {
        Form::One
    }
}

/// The fields in a superblock's bytes, at least 32.
pub fn super_in(bytes: &[u8]) -> Super
    requires { 32 ≤ length bytes.now }
    ensures { result ≡ super_in bytes.now }
{
    superblock::read(bytes)
}

/// The fields of the superblock.
pub fn super_of(image: &[Block]) -> Super
    requires { 2 ≤ length image.now }
    ensures { result ≡ super_of image.now }
{
    super_in(image[1].as_slice())
}

/// The inode numbers of the image, the free ones and 0 included.
pub fn inode_count(image: &[Block]) -> u32
    requires { 2 ≤ length image.now }
    ensures { result ≡ inode_count_of image.now }
{
    super_of(image).ninodes
}

/// The blocks before the first data block, of an image of `size` blocks.
pub fn meta_count(size: u32, inode_count: u32) -> u32
    ensures { result ≡ meta_count size inode_count }
{
    let inode_blocks = inode_count / INODES_PER_BLOCK + 1;
    let bitmap_blocks = size / BITS_PER_BLOCK + 1;
    INODE_START + inode_blocks + bitmap_blocks
}

/// The number of the first data block.
pub fn first_data_block(image: &[Block]) -> u32
    requires { 2 ≤ length image.now }
    ensures { result ≡ first_data_block image.now }
{
    let fields = super_of(image);
    meta_count(fields.size, fields.ninodes)
}

/// Whether the superblock is the planned one of an image of that many blocks, within the limits.
pub fn is_lawful_super(fields: Super, block_count: usize) -> bool
    ensures { result ≡ is_lawful_super fields block_count }
{
    match u32::try_from(block_count) {
        Ok(count) => superblock::is_lawful(&fields, count),
        Err(_) => false,
    }
}

/// Whether the bitmap says that block `b` is used.
pub fn is_marked(image: &[Block], b: u32) -> bool
    requires known { (super_of image.now).bmapstart < length image.now }
    requires long { 2 ≤ length image.now }
    requires small { b < bits_per_block }
    ensures { result ≡ is_marked image.now b }
{
    let bitmap = &image[super_of(image).bmapstart as usize];
    has_bit(bitmap, b)
}
