// Where the areas of an image are, by the length of its log.
ghost use Rattle.std.specs.Prelude.{◌≡◌, ◌≤◌, ◌<◌};
ghost use Rattle.model.specs.Format.{log_blocks, most_blocks, most_inodes};
ghost use Rattle.conversion.specs.Older.{behind_log, bitmap_behind, is_log_length, is_older_super, meta_with, super_with};

use layout::{BITS_PER_BLOCK, INODES_PER_BLOCK, LOG_BLOCKS, LOG_START, MOST_BLOCKS, MOST_INODES};
use model::types::Super;

// The fewest blocks of a log, its header included: one operation logs up to ten blocks.
const FEWEST_LOG_BLOCKS: u32 = 11;

/// Whether a log may have that many blocks, its header included: 11 to 31.
pub fn is_log_length(nlog: u32) -> bool
    ensures { result ≡ is_log_length nlog }
{
    (FEWEST_LOG_BLOCKS..=LOG_BLOCKS).contains(&nlog)
}

/// The first block behind a log of that many blocks.
pub(crate) fn behind_log(nlog: u32) -> u32
    requires { nlog ≤ log_blocks }
    ensures { result ≡ behind_log nlog }
{
    LOG_START + nlog
}

/// The bitmap's block behind such a log and the inode blocks.
pub(crate) fn bitmap_behind(nlog: u32, ninodes: u32) -> u32
    requires { nlog ≤ log_blocks }
    ensures { result ≡ bitmap_behind nlog ninodes }
{
    behind_log(nlog) + ninodes / INODES_PER_BLOCK + 1
}

/// How many blocks such an image has before its first data block.
pub(crate) fn meta_with(nlog: u32, size: u32, ninodes: u32) -> u32
    requires { nlog ≤ log_blocks }
    ensures { result ≡ meta_with nlog size ninodes }
{
    behind_log(nlog) + (ninodes / INODES_PER_BLOCK + 1) + (size / BITS_PER_BLOCK + 1)
}

/// The superblock of such an image.
pub(crate) fn super_with(nlog: u32, size: u32, ninodes: u32) -> Super
    requires log { nlog ≤ log_blocks }
    requires room { meta_with nlog size ninodes ≤ size }
    ensures { result ≡ super_with nlog size ninodes }
{
    Super {
        size,
        nblocks: size - meta_with(nlog, size, ninodes),
        ninodes,
        nlog,
        logstart: LOG_START,
        inodestart: behind_log(nlog),
        bmapstart: bitmap_behind(nlog, ninodes),
    }
}

/// Whether the fields are those of an image of that many blocks, whatever the length of its log.
pub(crate) fn is_older(sup: &Super, block_count: u32) -> bool
    ensures { result ≡ is_older_super sup.now block_count }
{
    let size = sup.size;
    let ninodes = sup.ninodes;
    let nlog = sup.nlog;
    if size != block_count || !(2..=MOST_INODES).contains(&ninodes) || !is_log_length(nlog) {
        return false;
    }
    let meta = meta_with(nlog, size, ninodes);
    if size <= meta || size > MOST_BLOCKS {
        return false;
    }
    sup.nblocks == size - meta
        && sup.logstart == LOG_START
        && sup.inodestart == behind_log(nlog)
        && sup.bmapstart == bitmap_behind(nlog, ninodes)
}
