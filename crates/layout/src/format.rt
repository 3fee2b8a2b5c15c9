// The numbers of the format (the xv6 book, the chapter "File system"; xv6's fs.h and param.h), and
// where the blocks of inodes and of the bitmap stand.
ghost use Rattle.std.specs.Prelude.{◌≡◌, ◌≤◌, ◌^◌, All, length};
ghost use Rattle.model.specs.Layout.{inode_block, inode_offset, bitmap_block, meta_count, direct_count, depths, reach, greatest_size};
ghost use Rattle.model.specs.Format.{addresses_per_block};

use model::types::Form;

/// The most blocks of an image.
pub const MOST_BLOCKS: u32 = 8191;

/// The most inode numbers of an image.
pub const MOST_INODES: u32 = 1024;

/// The log's first block, its header.
pub const LOG_START: u32 = 2;

/// The most blocks that a log holds.
pub const LOG_CAPACITY: u32 = 30;

/// The blocks of the log, its header included.
pub const LOG_BLOCKS: u32 = 31;

/// The first inode block, which is the first block behind the log.
pub const INODE_START: u32 = 33;

/// The inodes in a block.
pub const INODES_PER_BLOCK: u32 = 16;

/// The bytes of an inode.
pub const INODE_SIZE: usize = 64;

/// The bits in a block of the bitmap.
pub const BITS_PER_BLOCK: u32 = 8192;

/// How many of an inode's addresses are data blocks' in the first form; the one behind them is that
/// of its block of addresses.
pub const DIRECT_COUNT: usize = 12;

/// The addresses in a block of addresses.
pub const ADDRESSES_PER_BLOCK: usize = 256;

/// The bytes of the largest file of the first form: those of 12 + 256 blocks.
pub const GREATEST_SIZE: u32 = 274_432;

// Those of the second form: 11 + 256 + 256 * 256 blocks.
const GREATEST_LARGE_SIZE: u32 = 67_382_272;

/// The block that holds the inode of a number.
pub fn inode_block(number: u32) -> u32
    ensures { result ≡ inode_block number }
{
    number / INODES_PER_BLOCK + INODE_START
}

/// Where the bytes of an inode begin in its block.
pub fn inode_offset(number: u32) -> usize
    ensures { result ≡ inode_offset number }
{
    (number % INODES_PER_BLOCK) as usize * INODE_SIZE
}

/// The first block of the bitmap in an image of `inode_count` inode numbers, at most 1024.
pub fn bitmap_block(inode_count: u32) -> u32
    ensures { result ≡ bitmap_block inode_count }
{
    INODE_START + inode_count / INODES_PER_BLOCK + 1
}

/// How many blocks an image of that size has before its first data block: 2, the log, the inode
/// blocks and the bitmap. `ninodes` is at most 1024.
pub fn meta_count(size: u32, ninodes: u32) -> u32
    ensures { result ≡ meta_count size ninodes }
{
    let inode_blocks = ninodes / INODES_PER_BLOCK + 1;
    let bitmap_blocks = size / BITS_PER_BLOCK + 1;
    INODE_START + inode_blocks + bitmap_blocks
}

/// How many of an inode's 13 addresses are data blocks' in an image of that form.
pub fn direct_count(form: Form) -> usize
    ensures { result ≡ direct_count form }
{
    match form {
        Form::One => DIRECT_COUNT,
        Form::Two => DIRECT_COUNT - 1,
    }
}

/// For each of an inode's 13 addresses, how many blocks of addresses one goes through to the data
/// (the xv6 book, the chapter "File system": "Code: Inode content"; Bach, "The Design of the UNIX
/// Operating System", chapter 4, has the deeper ones).
pub fn depths(form: Form) -> [u32; 13]
    ensures value { result ≡ depths form }
    ensures shallow { All (λ depth. depth ≤ 2) result }
    ensures len { length result ≡ 13 }
{
    match form {
        Form::One => [0, 0, 0, 0, 0, 0, 0, 0, 0, 0, 0, 0, 1],
        Form::Two => [0, 0, 0, 0, 0, 0, 0, 0, 0, 0, 0, 1, 2],
    }
}

/// How many of a file's blocks an address leads to that is `depth` blocks of addresses away from
/// the data, at most 2.
pub fn reach(depth: u32) -> u32
    requires { depth ≤ 2 }
    ensures value { result ≡ reach depth }
    ensures small { result ≤ addresses_per_block ^ 2 }
    ensures smaller { depth ≤ 1 → result ≤ addresses_per_block }
    ensures some { 1 ≤ result }
{
    match depth {
        0 => 1,
        1 => ADDRESSES_PER_BLOCK as u32,
        _ => (ADDRESSES_PER_BLOCK * ADDRESSES_PER_BLOCK) as u32,
    }
}

/// The bytes of the largest file in an image of that form.
pub fn greatest_size(form: Form) -> u32
    ensures { result ≡ greatest_size form }
{
    match form {
        Form::One => GREATEST_SIZE,
        Form::Two => GREATEST_LARGE_SIZE,
    }
}
