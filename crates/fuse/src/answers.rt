// What is answered.
ghost use Rattle.std.specs.Prelude.{◌≡◌, ◌++◌, ◌+◌, ◌%◌, ◌<◌, length, take, OnOk};
ghost use Rattle.fuse.specs.Answers.{attributes_answer_bytes, attributes_bytes, attributes_head_bytes, directory_entry_bytes, entry_answer_bytes, entry_head_bytes, first_bytes, init_answer_bytes, opened_answer_bytes, second_bytes, statfs_answer_bytes, wrote_answer_bytes};

use byteorder::{ByteOrder, LittleEndian};
use std::alloc::AllocError;

/// What is told of a file.
#[derive(Clone, Copy, Debug, PartialEq, Eq)]
pub struct Attributes {
    /// Its number.
    pub number: u64,
    /// How many bytes it has.
    pub size: u64,
    /// How many pieces of 512 bytes it takes.
    pub pieces: u64,
    /// The seconds since 1970 of each of its three times.
    pub seconds: u64,
    /// The nanoseconds behind them, below 1,000,000,000.
    pub nanoseconds: u32,
    /// Its type, and who may do what with it.
    pub mode: u32,
    /// How many names lead to it.
    pub links: u32,
    /// The number of the user whose it is.
    pub owner: u32,
    /// The number of the group whose it is.
    pub group: u32,
}

/// How a file was opened: its handle, and whether what the system holds of it is still right.
#[derive(Clone, Copy, Debug, PartialEq, Eq)]
pub struct Opened {
    /// A number of ours for this opening.
    pub handle: u64,
    /// By bits: 2 that the bytes that the system holds are right, 8 the entries.
    pub flags: u32,
}

/// How much room there is.
#[derive(Clone, Copy, Debug, PartialEq, Eq)]
pub struct FileSystem {
    /// How many blocks there are for files.
    pub blocks: u64,
    /// How many of them are free.
    pub free: u64,
    /// How many files there may be.
    pub files: u64,
    /// How many more there may be.
    pub free_files: u64,
    /// The bytes of a block.
    pub block_size: u32,
    /// The most bytes of a name.
    pub name_size: u32,
}

// Number, lengths and times, in 48 bytes.
#[tactic(auto, unfolding(crate::specs::Answers::first_bytes))]
fn first_of(of: &Attributes) -> [u8; 48]
    ensures value { result ≡ first_bytes of.now }
    ensures len { length result ≡ 48 }
{
    let mut bytes = [0u8; 48];
    LittleEndian::write_u64(&mut bytes[0..8], of.number);
    LittleEndian::write_u64(&mut bytes[8..16], of.size);
    LittleEndian::write_u64(&mut bytes[16..24], of.pieces);
    LittleEndian::write_u64(&mut bytes[24..32], of.seconds);
    LittleEndian::write_u64(&mut bytes[32..40], of.seconds);
    LittleEndian::write_u64(&mut bytes[40..48], of.seconds);
    bytes
}

// Nanoseconds, mode, links, owner and group, and how long a block is, in 40 bytes.
#[tactic(auto, unfolding(crate::specs::Answers::second_bytes))]
fn second_of(of: &Attributes) -> [u8; 40]
    ensures value { result ≡ second_bytes of.now }
    ensures len { length result ≡ 40 }
{
    let mut bytes = [0u8; 40];
    LittleEndian::write_u32(&mut bytes[0..4], of.nanoseconds);
    LittleEndian::write_u32(&mut bytes[4..8], of.nanoseconds);
    LittleEndian::write_u32(&mut bytes[8..12], of.nanoseconds);
    LittleEndian::write_u32(&mut bytes[12..16], of.mode);
    LittleEndian::write_u32(&mut bytes[16..20], of.links);
    LittleEndian::write_u32(&mut bytes[20..24], of.owner);
    LittleEndian::write_u32(&mut bytes[24..28], of.group);
    LittleEndian::write_u32(&mut bytes[32..36], 1024);
    bytes
}

// Adds the 88 bytes of what is told of a file.
#[tactic(auto, unfolding(crate::specs::Answers::attributes_bytes))]
fn add_both(out: &mut Vec<u8>, of: &Attributes) -> Result<(), AllocError>
    ensures adds { OnOk result (out.new.items ≡ out.old.items ++ attributes_bytes of.now) }
    ensures keeps { take (length out.old.items) out.new.items ≡ out.old.items }
{
    out.extend_from_slice(&first_of(of))?;
    out.extend_from_slice(&second_of(of))
}

// What stands before them for a file of a name, in 40 bytes.
#[tactic(auto, unfolding(crate::specs::Answers::entry_head_bytes))]
fn entry_head(number: u64, generation: u64, valid: u64) -> [u8; 40]
    ensures value { result ≡ entry_head_bytes number generation valid }
    ensures len { length result ≡ 40 }
{
    let mut bytes = [0u8; 40];
    LittleEndian::write_u64(&mut bytes[0..8], number);
    LittleEndian::write_u64(&mut bytes[8..16], generation);
    LittleEndian::write_u64(&mut bytes[16..24], valid);
    LittleEndian::write_u64(&mut bytes[24..32], valid);
    bytes
}

// What stands before them, in 16 bytes.
#[tactic(auto, unfolding(crate::specs::Answers::attributes_head_bytes))]
fn attributes_head(valid: u64) -> [u8; 16]
    ensures value { result ≡ attributes_head_bytes valid }
    ensures len { length result ≡ 16 }
{
    let mut bytes = [0u8; 16];
    LittleEndian::write_u64(&mut bytes[0..8], valid);
    bytes
}

/// Adds a file of a name, in 128 bytes: its number, the how manieth file of that number it is, for
/// how many seconds the system may rely on both, and what is told of it.
///
/// # Errors
///
/// `AllocError` where memory is refused. Then some of it may have been added.
#[tactic(auto, unfolding(crate::specs::Answers::entry_answer_bytes))]
pub fn add_entry(
    out: &mut Vec<u8>,
    of: &Attributes,
    generation: u64,
    valid: u64,
) -> Result<(), AllocError>
    ensures adds { OnOk result (out.new.items
        ≡ out.old.items ++ entry_answer_bytes of.now generation valid) }
    ensures keeps { take (length out.old.items) out.new.items ≡ out.old.items }
{
    out.extend_from_slice(&entry_head(of.number, generation, valid))?;
    add_both(out, of)
}

/// Adds what is told of a file, in 104 bytes.
///
/// # Errors
///
/// `AllocError` where memory is refused. Then some of it may have been added.
#[tactic(auto, unfolding(crate::specs::Answers::attributes_answer_bytes))]
pub fn add_attributes(out: &mut Vec<u8>, of: &Attributes, valid: u64) -> Result<(), AllocError>
    ensures adds { OnOk result (out.new.items
        ≡ out.old.items ++ attributes_answer_bytes of.now valid) }
    ensures keeps { take (length out.old.items) out.new.items ≡ out.old.items }
{
    out.extend_from_slice(&attributes_head(valid))?;
    add_both(out, of)
}

/// How a file was opened, in 16 bytes.
#[tactic(auto, unfolding(crate::specs::Answers::opened_answer_bytes))]
pub fn opened_answer(opened: &Opened) -> [u8; 16]
    ensures value { result ≡ opened_answer_bytes opened.now }
    ensures len { length result ≡ 16 }
{
    let mut bytes = [0u8; 16];
    LittleEndian::write_u64(&mut bytes[0..8], opened.handle);
    LittleEndian::write_u32(&mut bytes[8..12], opened.flags);
    bytes
}

/// That so many bytes were written, in 8 bytes.
#[tactic(auto, unfolding(crate::specs::Answers::wrote_answer_bytes))]
pub fn wrote_answer(count: u32) -> [u8; 8]
    ensures value { result ≡ wrote_answer_bytes count }
    ensures len { length result ≡ 8 }
{
    let mut bytes = [0u8; 8];
    LittleEndian::write_u32(&mut bytes[0..4], count);
    bytes
}

/// How much room there is, in 80 bytes.
#[tactic(auto, unfolding(crate::specs::Answers::statfs_answer_bytes))]
pub fn statfs_answer(of: &FileSystem) -> [u8; 80]
    ensures value { result ≡ statfs_answer_bytes of.now }
    ensures len { length result ≡ 80 }
{
    let mut bytes = [0u8; 80];
    LittleEndian::write_u64(&mut bytes[0..8], of.blocks);
    LittleEndian::write_u64(&mut bytes[8..16], of.free);
    LittleEndian::write_u64(&mut bytes[16..24], of.free);
    LittleEndian::write_u64(&mut bytes[24..32], of.files);
    LittleEndian::write_u64(&mut bytes[32..40], of.free_files);
    LittleEndian::write_u32(&mut bytes[40..44], of.block_size);
    LittleEndian::write_u32(&mut bytes[44..48], of.name_size);
    LittleEndian::write_u32(&mut bytes[48..52], of.block_size);
    bytes
}

/// The version 7.31 of the protocol, how many bytes are read ahead, by bits what is wanted of the
/// system, how many bytes a write brings at most, and in how many pages of memory, in 64 bytes. At
/// most 16 requests wait at once that no program waits for, and 12 of them are seen as many.
#[tactic(auto, unfolding(crate::specs::Answers::init_answer_bytes))]
pub fn init_answer(readahead: u32, flags: u32, most: u32, pages: u16) -> [u8; 64]
    ensures value { result ≡ init_answer_bytes readahead flags most pages }
    ensures len { length result ≡ 64 }
{
    let mut bytes = [0u8; 64];
    LittleEndian::write_u32(&mut bytes[0..4], 7);
    LittleEndian::write_u32(&mut bytes[4..8], 31);
    LittleEndian::write_u32(&mut bytes[8..12], readahead);
    LittleEndian::write_u32(&mut bytes[12..16], flags);
    LittleEndian::write_u16(&mut bytes[16..18], 16);
    LittleEndian::write_u16(&mut bytes[18..20], 12);
    LittleEndian::write_u32(&mut bytes[20..24], most);
    LittleEndian::write_u32(&mut bytes[24..28], 1);
    LittleEndian::write_u16(&mut bytes[28..30], pages);
    bytes
}

/// The 24 bytes before the name of a directory's entry: the number of its file, the place of the
/// next entry, how many bytes the name has, and of which type the file is, as 4 for a directory and
/// 8 for another one.
#[tactic(auto, unfolding(crate::specs::Answers::directory_entry_bytes))]
pub fn directory_entry(number: u64, next: u64, name_size: u32, kind: u32) -> [u8; 24]
    ensures value { result ≡ directory_entry_bytes number next name_size kind }
    ensures len { length result ≡ 24 }
{
    let mut bytes = [0u8; 24];
    LittleEndian::write_u64(&mut bytes[0..8], number);
    LittleEndian::write_u64(&mut bytes[8..16], next);
    LittleEndian::write_u32(&mut bytes[16..20], name_size);
    LittleEndian::write_u32(&mut bytes[20..24], kind);
    bytes
}

/// How many zeroes stand behind the name of an entry, so that the next one begins at a multiple of
/// 8.
pub fn padding_of(name_size: usize) -> usize
    ensures few { result < 8 }
    ensures whole { (name_size + result) % 8 ≡ 0 }
{
    (8 - name_size % 8) % 8
}
