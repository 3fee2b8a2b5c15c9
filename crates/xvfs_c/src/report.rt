// The structs and the numbers that C sees: of a refusal, 256 times its layer and its number there,
// as the program prints them.
ghost use Rattle.std.specs.Prelude.{◌≡◌};
ghost use Rattle.xvfs_c.specs.Numbers.{by_number, check_number, form_meant, form_number, mkfs_number, open_number, recover_number, reply_number, step_number, told_number, why_number};

use kernel::Step;
use layout::MkfsFault;
use model::types::{CheckFault, Form, Reply, Why};
use sessions::{OpenRefusal, Told};
use wal::RecoverFault;

/// The bytes are not a whole number of blocks, from 1 to 8191.
pub const LENGTH: u32 = 258;

/// The flag of an opening: the session's disk holds writes back.
pub const HOLD: u32 = 1;

/// The version of the library: 65,536 times its first number, 256 times its second one and its third.
pub const VERSION: u32 = 256 * 2;

/// Memory for a check was refused.
pub const CHECK_MEMORY: u32 = 768 + 11;

/// There is no such flag.
pub const FLAGS: u32 = 1280 + 5;

/// The log of the image isn't empty.
pub const LOGGED: u32 = 1280 + 6;

/// The session made 2 to the power of 63 writes or syncs.
pub const WRITES: u32 = 1536 + 5;

/// There is no process of that number.
pub const PROCESS: u32 = 1536 + 1;

/// The log is not lawful, or there is no room for one.
pub const LOG: u32 = 1024 + 2;

/// The block that is to be filled has not 1024 bytes.
pub const BLOCK: u32 = 1536 + 4;

/// 16 operations of the process wait.
pub const FULL: u32 = 1536 + 2;

/// No operation has that number, or no file that type or so many links.
pub const OPERATION: u32 = 1536 + 3;

/// Memory was refused.
pub const MEMORY: u32 = 1536 + 6;

/// No answer waits.
pub const NONE: u32 = 1536 + 7;

/// The oldest answer has more bytes than there is room for.
pub const SHORT: u32 = 1536 + 10;

/// No process.
pub const NOBODY: u32 = u32::MAX;

/// What a check found.
#[repr(C)]
#[derive(Clone, Copy)]
pub struct XvfsReport {
    pub fault: u32,
    pub at: u32,
    pub form: u32,
    pub size: u32,
    pub nblocks: u32,
    pub ninodes: u32,
    pub logged: u32,
    pub files: u32,
}

/// What is done to a device: a block is written, or all is synced.
#[repr(C)]
#[derive(Clone, Copy)]
pub struct XvfsTold {
    pub wrote: u32,
    pub block: u32,
    pub synced: u32,
}

/// An operation. The bytes of a write are passed beside it; `len` is also the new count of links,
/// or the new length.
#[repr(C)]
#[derive(Clone, Copy)]
pub struct XvfsOp {
    pub kind: u32,
    pub inum: u32,
    pub offset: u32,
    pub len: u32,
}

/// What a step did.
#[repr(C)]
#[derive(Clone, Copy)]
pub struct XvfsStep {
    pub step: u32,
    pub why: u32,
    pub wrote: u32,
    pub block: u32,
    pub synced: u32,
    pub by: u32,
    pub committed: u64,
}

/// An answer. The bytes of a read are passed beside it.
#[repr(C)]
#[derive(Clone, Copy)]
pub struct XvfsAnswer {
    pub seq: u64,
    pub group: u64,
    pub reply: u32,
    pub value: u32,
    pub size: u32,
    pub len: u32,
    pub links: u32,
}

/// The number of a fault, and the inode or the block that has it, or 0.
pub fn check_number(fault: CheckFault) -> (u32, u32)
    ensures { result ≡ check_number fault }
{
    match fault {
        CheckFault::BadMagic => (769, 0),
        CheckFault::BadGeometry => (770, 0),
        CheckFault::BadLog => (771, 0),
        CheckFault::BadType(i) => (772, i),
        CheckFault::BadSize(i) => (773, i),
        CheckFault::BadAddress(i) => (774, i),
        CheckFault::TwiceUsed(b) => (775, b),
        CheckFault::UsedButFree(b) => (776, b),
        CheckFault::LostBlock(b) => (777, b),
        CheckFault::Disk => (778, 0),
        CheckFault::NoMemory => (779, 0),
    }
}

pub fn recover_number(fault: RecoverFault) -> u32
    ensures { result ≡ recover_number fault }
{
    match fault {
        RecoverFault::Disk => 1025,
        RecoverFault::BadLog => 1026,
        RecoverFault::NoMemory => 1027,
        RecoverFault::Sync => 1028,
    }
}

pub fn mkfs_number(fault: MkfsFault) -> u32
    ensures { result ≡ mkfs_number fault }
{
    match fault {
        MkfsFault::SizeRange => 513,
        MkfsFault::InodeRange => 514,
        MkfsFault::Disk => 515,
        MkfsFault::NoMemory => 516,
    }
}

pub fn open_number(refusal: OpenRefusal) -> u32
    ensures { result ≡ open_number refusal }
{
    match refusal {
        OpenRefusal::Length => LENGTH,
        OpenRefusal::NoMemory => 1283,
        OpenRefusal::Check(fault) => check_number(fault).0,
        OpenRefusal::Processes => 1284,
    }
}

pub fn form_number(form: Form) -> u32
    ensures { result ≡ form_number form }
{
    match form {
        Form::One => 1,
        Form::Two => 2,
    }
}

/// The form that C means: the second by 2, the first by any other number.
pub fn form_meant(number: u32) -> Form
    ensures { result ≡ form_meant number }
{
    if number == 2 { Form::Two } else { Form::One }
}

/// The number of a step's answer, and that of why it sleeps.
pub fn step_number(step: Step) -> (u32, u32)
    ensures { result ≡ step_number step }
{
    match step {
        Step::Moved => (0, 0),
        Step::Answered => (1, 0),
        Step::Sleeping(why) => (2, why_number(why)),
        Step::Idle => (3, 0),
        Step::NoMemory => (4, 0),
        Step::ShutDown => (5, 0),
        Step::Halted => (6, 0),
    }
}

/// Who holds what a step waits for that sleeps, by who holds what it was to get or to take.
pub fn by_number(step: Step, holder: Option<u32>) -> u32
    ensures { result ≡ by_number step holder }
{
    match (step, holder) {
        (Step::Sleeping(_), Some(process)) => process,
        _ => NOBODY,
    }
}

/// Whether a block was written, its number, and whether the disk was synced.
pub fn told_number(told: Told) -> (u32, u32, u32)
    ensures { result ≡ told_number told }
{
    match told {
        Told::Nothing => (0, 0, 0),
        Told::Wrote(block) => (1, block, 0),
        Told::Synced => (0, 0, 1),
    }
}

fn why_number(why: Why) -> u32
    ensures { result ≡ why_number why }
{
    match why {
        Why::Committing => 1,
        Why::LogFull => 2,
        Why::InodeHeld => 3,
        Why::BufferHeld => 4,
        Why::NoBuffer => 5,
        Why::AnswersFull => 6,
    }
}

/// The number of a reply, and what it carries: a value, a count of links and a length.
pub fn reply_number(reply: &Reply) -> (u32, u32, u32, u32)
    ensures { result ≡ reply_number reply.now }
{
    match reply {
        Reply::Made(inum) => (0, *inum, 0, 0),
        Reply::Wrote(count) => (1, *count, 0, 0),
        Reply::Bytes(_) => (2, 0, 0, 0),
        Reply::Done => (3, 0, 0, 0),
        Reply::StatOf(kind, links, size) => (4, *kind as u32, *links as u32, *size),
        Reply::NoInode => (5, 0, 0, 0),
        Reply::NoFile => (6, 0, 0, 0),
        Reply::BadOffset => (7, 0, 0, 0),
        Reply::TooBig => (8, 0, 0, 0),
        Reply::TooLong => (9, 0, 0, 0),
        Reply::BadType => (10, 0, 0, 0),
    }
}
