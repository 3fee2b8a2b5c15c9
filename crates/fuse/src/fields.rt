// Numbers in bytes, the lowest byte first.
ghost use Rattle.std.specs.Prelude.{◌≡◌, ◌≤◌, ◌+◌, length};
ghost use Rattle.fuse.specs.Fields.{u32_at, u64_at};

use byteorder::{ByteOrder, LittleEndian};

/// The number of four bytes from a place on.
#[tactic(auto, unfolding(crate::specs::Fields::u32_at))]
pub(crate) fn read_u32(bytes: &[u8], at: usize) -> u32
    requires { at + 4 ≤ length bytes.now }
    ensures { result ≡ u32_at bytes.now at }
{
    LittleEndian::read_u32(&bytes[at..])
}

/// The number of eight bytes from a place on.
#[tactic(auto, unfolding(crate::specs::Fields::u64_at))]
pub(crate) fn read_u64(bytes: &[u8], at: usize) -> u64
    requires { at + 8 ≤ length bytes.now }
    ensures { result ≡ u64_at bytes.now at }
{
    LittleEndian::read_u64(&bytes[at..])
}
