// The inodes of an image.
ghost use Rattle.std.specs.Prelude.{◌≡◌, ◌<◌, length};
ghost use Rattle.model.specs.Layout.{inode_in, inode_of, inode_block, inode_bytes};

use blocks::Block;
use layout::{INODE_SIZE, inode, inode_block, inode_offset};
use model::types::Dinode;

/// The 64 bytes of inode `i`.
pub fn inode_bytes(image: &[Block], i: u32) -> &[u8]
    requires { inode_block i < length image.now }
    ensures value { result.now ≡ inode_bytes image.now i }
    ensures len { length result.now ≡ 64 }
{
    let block = image[inode_block(i) as usize].as_slice();
    let at = inode_offset(i);
    &block[at..at + INODE_SIZE]
}

/// The fields in an inode's 64 bytes.
pub fn inode_in(bytes: &[u8]) -> Dinode
    requires { length bytes.now ≡ 64 }
    ensures value { result ≡ inode_in bytes.now }
    ensures len { length result.addrs ≡ 13 }
{
    inode::read(bytes)
}

/// Inode `i`.
#[tactic(auto, unfolding(model::specs::Layout::inode_of))]
pub fn inode_of(image: &[Block], i: u32) -> Dinode
    requires { inode_block i < length image.now }
    ensures value { result ≡ inode_of image.now i }
    ensures len { length result.addrs ≡ 13 }
{
    inode_in(inode_bytes(image, i))
}
