// The headers of requests and of answers.
ghost use Rattle.std.specs.Prelude.{◌≡◌, ◌≤◌, ◌↔◌, ◌<◌, IfSome, IfNone, length};
ghost use Rattle.fuse.specs.Requests.{header_in};
ghost use Rattle.fuse.specs.Answers.{answer_header_bytes};

use crate::fields::{read_u32, read_u64};
use byteorder::{ByteOrder, LittleEndian};

/// The bytes of a request's header, before its own.
pub const HEADER_SIZE: usize = 40;

/// The bytes of an answer's header.
pub const ANSWER_HEADER_SIZE: usize = 16;

/// What begins each request.
#[derive(Clone, Copy, Debug, PartialEq, Eq)]
pub struct Header {
    /// The bytes of the request, its header among them.
    pub length: u32,
    /// What is asked.
    pub opcode: u32,
    /// The number of the request, which its answer tells again.
    pub unique: u64,
    /// The number of the file that it asks about.
    pub node: u64,
}

/// The header of a request in its bytes, or none where they are too few.
pub fn read_header(bytes: &[u8]) -> Option<Header>
    ensures is { IfSome result (λ header. header ≡ header_in bytes.now) }
    ensures some { IfSome result (λ header. 40 ≤ length bytes.now) }
    ensures none { IfNone result (length bytes.now < 40) }
{
    if bytes.len() < HEADER_SIZE {
        return None;
    }
    Some(Header {
        length: read_u32(bytes, 0),
        opcode: read_u32(bytes, 4),
        unique: read_u64(bytes, 8),
        node: read_u64(bytes, 16),
    })
}

/// The header of an answer of so many bytes in all to the request of that number: 0 where it is
/// done, else the system's number for why not, below zero, as the four bytes of a signed number.
#[tactic(auto, unfolding(crate::specs::Answers::answer_header_bytes))]
pub fn answer_header(size: u32, error: u32, unique: u64) -> [u8; ANSWER_HEADER_SIZE]
    ensures value { result ≡ answer_header_bytes size error unique }
    ensures len { length result ≡ 16 }
{
    let mut bytes = [0u8; ANSWER_HEADER_SIZE];
    LittleEndian::write_u32(&mut bytes[0..4], size);
    LittleEndian::write_u32(&mut bytes[4..8], error);
    LittleEndian::write_u64(&mut bytes[8..16], unique);
    bytes
}
