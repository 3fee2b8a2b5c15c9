// What a request asks.
ghost use Rattle.std.specs.Prelude.{◌≡◌};
ghost use Rattle.fuse.specs.Requests.{request_in, shown, wants_none};

use crate::bodies::{
    read_create, read_directory, read_init, read_link, read_lookup, read_make_directory,
    read_make_node, read_open, read_read, read_remove_directory, read_rename, read_rename_by_flags,
    read_set_attributes, read_unlink, read_write,
};
use crate::opcodes::{
    ACCESS, BATCH_FORGET, CREATE, DESTROY, FLUSH, FORGET, FSYNC, FSYNCDIR, GETATTR, INIT,
    INTERRUPT, LINK, LOOKUP, MKDIR, MKNOD, OPEN, OPENDIR, READ, READDIR, READDIRPLUS, RELEASE,
    RELEASEDIR, RENAME, RENAME2, RMDIR, SETATTR, STATFS, SYNCFS, UNLINK, WRITE,
};

/// What a request asks, of the file that its header names.
#[derive(Clone, Copy, Debug)]
pub enum Request<'a> {
    /// The first one: the greatest version of the protocol that the system knows, how many bytes it
    /// reads ahead, and by bits what it can do.
    Init {
        major: u32,
        minor: u32,
        readahead: u32,
        flags: u32,
    },
    /// The last one.
    Destroy,
    /// The system forgets files, or waits no more for an answer. It wants none to this.
    Unanswered,
    /// The file of a name in a directory.
    Lookup {
        name: &'a [u8],
    },
    /// What is told of a file.
    GetAttributes,
    /// Sets what is told of a file. Bits of `valid` say what of it: 1 the mode, 8 the size in
    /// bytes, 32 the time of the last change in seconds since 1970 with its nanoseconds, 256 that
    /// this time is now.
    SetAttributes {
        valid: u32,
        size: u64,
        changed: u64,
        changed_nanoseconds: u32,
        mode: u32,
    },
    /// Makes a file of that mode, whose upper bits tell its type.
    MakeNode {
        mode: u32,
        name: &'a [u8],
    },
    /// Makes a directory.
    MakeDirectory {
        mode: u32,
        name: &'a [u8],
    },
    /// Removes a file with its name.
    Unlink {
        name: &'a [u8],
    },
    /// Removes a directory with its name.
    RemoveDirectory {
        name: &'a [u8],
    },
    /// Gives the file of a name in this directory another name in the directory of number `to`. Of
    /// `flags` 1 says that no file may have that name yet.
    Rename {
        to: u64,
        flags: u32,
        old: &'a [u8],
        name: &'a [u8],
    },
    /// Gives the file of that number another name, in this directory.
    Link {
        node: u64,
        name: &'a [u8],
    },
    /// Opens a file. The flags are those of `open`.
    Open {
        flags: u32,
    },
    /// Makes a file, and opens it.
    Create {
        flags: u32,
        mode: u32,
        name: &'a [u8],
    },
    /// The bytes of a file from an offset on, `size` at most.
    Read {
        offset: u64,
        size: u32,
    },
    /// Writes bytes from an offset on.
    Write {
        offset: u64,
        bytes: &'a [u8],
    },
    /// How much room there is.
    StatFs,
    /// A program closes a file.
    Flush,
    /// What was written is to be kept over a stop of the system.
    Sync,
    /// No program has the file open any more by that opening.
    Release,
    /// Opens a directory.
    OpenDirectory,
    /// The entries of a directory from a place on, `size` bytes at most, where `plus` with what is
    /// told of each file.
    ReadDirectory {
        offset: u64,
        size: u32,
        plus: bool,
    },
    /// No program has the directory open any more by that opening.
    ReleaseDirectory,
    /// Whether a file may be used in some way.
    Access,
    /// Anything else.
    Other,
}

/// The request of that number in the bytes behind its header, or none where they are too few for
/// it, or a name in them has no end. Bytes behind it are left out.
#[tactic(auto, unfolding(crate::specs::Requests::request_in))]
pub fn read_request(opcode: u32, body: &[u8]) -> Option<Request<'_>>
    ensures { shown result ≡ request_in opcode body.now }
{
    match opcode {
        LOOKUP => read_lookup(body),
        FORGET | INTERRUPT | BATCH_FORGET => Some(Request::Unanswered),
        GETATTR => Some(Request::GetAttributes),
        SETATTR => read_set_attributes(body),
        MKNOD => read_make_node(body),
        MKDIR => read_make_directory(body),
        UNLINK => read_unlink(body),
        RMDIR => read_remove_directory(body),
        RENAME => read_rename(body),
        RENAME2 => read_rename_by_flags(body),
        LINK => read_link(body),
        OPEN => read_open(body),
        READ => read_read(body),
        WRITE => read_write(body),
        STATFS => Some(Request::StatFs),
        RELEASE => Some(Request::Release),
        FSYNC | FSYNCDIR | SYNCFS => Some(Request::Sync),
        FLUSH => Some(Request::Flush),
        INIT => read_init(body),
        OPENDIR => Some(Request::OpenDirectory),
        READDIR => read_directory(body, false),
        READDIRPLUS => read_directory(body, true),
        RELEASEDIR => Some(Request::ReleaseDirectory),
        ACCESS => Some(Request::Access),
        CREATE => read_create(body),
        DESTROY => Some(Request::Destroy),
        _ => Some(Request::Other),
    }
}

/// Whether a request of that number wants no answer: the system forgets files, or waits no more for
/// the answer to another request.
pub fn wants_none(opcode: u32) -> bool
    ensures { result ≡ wants_none opcode }
{
    opcode == FORGET || opcode == INTERRUPT || opcode == BATCH_FORGET
}
