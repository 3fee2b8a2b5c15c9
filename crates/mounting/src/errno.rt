// Why a request isn't done.
ghost use Rattle.std.specs.Prelude.{◌≡◌};
ghost use Rattle.mounting.specs.Causes.{errno_of, fault_errno_by, link_errno, number_of};

use blocks::NoMemory;
use calls::transactions::TransactionFault;
use directories::{NameFault, PathFault, Refusal};
use names::{TreeFault, Unwritten};
use std::alloc::AllocError;

/// Why a request isn't done, as the system's numbers have it.
#[derive(Clone, Copy, Debug, PartialEq, Eq)]
pub enum Errno {
    /// An image has no place for it, or a directory would get a second name.
    NotPermitted,
    /// There is no such file.
    NoEntry,
    /// The tree takes no other call, since one failed or as many were answered as it makes.
    InputOutput,
    /// Memory is refused, or an answer would have more than 4 MiB.
    NoMemory,
    /// The root is neither removed nor renamed.
    Busy,
    /// The name is there already.
    Exists,
    /// The file is no directory.
    NotADirectory,
    /// The file is a directory.
    IsADirectory,
    /// The request, or a name in it, is none; a directory would be in itself; or what is read ends
    /// behind 2^32 bytes.
    Invalid,
    /// The file would be too large.
    TooBig,
    /// No block, number or entry is free.
    NoSpace,
    /// 32,767 names lead to the file.
    TooManyLinks,
    /// A name has more than 14 bytes.
    NameTooLong,
    /// We don't do that; the system does without, and asks no more.
    NotSupported,
    /// Something is in the directory.
    NotEmpty,
}

impl Errno {
    /// The system's number, from 1 to 39.
    pub fn number(self) -> u32
        ensures { result ≡ number_of self }
    {
        match self {
            Errno::NotPermitted => 1,
            Errno::NoEntry => 2,
            Errno::InputOutput => 5,
            Errno::NoMemory => 12,
            Errno::Busy => 16,
            Errno::Exists => 17,
            Errno::NotADirectory => 20,
            Errno::IsADirectory => 21,
            Errno::Invalid => 22,
            Errno::TooBig => 27,
            Errno::NoSpace => 28,
            Errno::TooManyLinks => 31,
            Errno::NameTooLong => 36,
            Errno::NotSupported => 38,
            Errno::NotEmpty => 39,
        }
    }
}

impl From<AllocError> for Errno {
    ghost use Rattle.std.specs.Prelude.{◌≡◌};
    ghost use Rattle.mounting.specs.declared.errno.Errno.TheVariants as errno;

    ghost from_gives = { λ _ e. e ≡ errno.NoMemory };

    fn from(_refused: AllocError) -> Errno {
        Errno::NoMemory
    }
}

impl From<NoMemory> for Errno {
    ghost use Rattle.std.specs.Prelude.{◌≡◌};
    ghost use Rattle.mounting.specs.declared.errno.Errno.TheVariants as errno;

    ghost from_gives = { λ _ e. e ≡ errno.NoMemory };

    fn from(_refused: NoMemory) -> Errno {
        Errno::NoMemory
    }
}

impl From<NameFault> for Errno {
    ghost use Rattle.std.specs.Prelude.{◌≡◌};
    ghost use Rattle.mounting.specs.Causes.{name_errno};

    ghost from_gives = { λ fault e. e ≡ name_errno fault };

    fn from(fault: NameFault) -> Errno {
        match fault {
            NameFault::TooLong => Errno::NameTooLong,
            NameFault::Empty => Errno::NoEntry,
            NameFault::ZeroByte | NameFault::Slash => Errno::Invalid,
        }
    }
}

impl From<Unwritten> for Errno {
    ghost use Rattle.std.specs.Prelude.{◌≡◌};
    ghost use Rattle.mounting.specs.Causes.{unwritten_errno};

    ghost from_gives = { λ cause e. e ≡ unwritten_errno cause };

    fn from(cause: Unwritten) -> Errno {
        match cause {
            Unwritten::TooBig => Errno::TooBig,
            Unwritten::TooLong | Unwritten::BadOffset => Errno::Invalid,
        }
    }
}

impl From<TreeFault> for Errno {
    ghost use Rattle.std.specs.Prelude.{◌≡◌};
    ghost use Rattle.mounting.specs.Causes.{fault_errno};

    ghost from_gives = { λ fault e. e ≡ fault_errno fault };

    fn from(fault: TreeFault) -> Errno {
        match fault {
            TreeFault::Path(PathFault::NameTooLong) => Errno::NameTooLong,
            TreeFault::Path(PathFault::ZeroByte) => Errno::Invalid,
            TreeFault::Path(PathFault::NoMemory) => Errno::NoMemory,
            TreeFault::Refused(refusal) => errno_of(refusal),
            TreeFault::Call(TransactionFault::NoMemory) => Errno::NoMemory,
            TreeFault::Call(TransactionFault::Disk(_)) => Errno::InputOutput,
            TreeFault::Call(TransactionFault::NoRoom) => Errno::InputOutput,
            TreeFault::NoSpace => Errno::NoSpace,
            TreeFault::NoCall => Errno::InputOutput,
        }
    }
}

// What the files refuse.
fn errno_of(refusal: Refusal) -> Errno
    ensures { result ≡ errno_of refusal }
{
    match refusal {
        Refusal::NotFound => Errno::NoEntry,
        Refusal::NotADirectory => Errno::NotADirectory,
        Refusal::IsRoot => Errno::Busy,
        Refusal::Exists => Errno::Exists,
        Refusal::Full | Refusal::NoNumber | Refusal::NoBlock => Errno::NoSpace,
        Refusal::IsADirectory => Errno::IsADirectory,
        Refusal::NotEmpty => Errno::NotEmpty,
        Refusal::IsInside | Refusal::NotDown => Errno::Invalid,
        Refusal::TooManyLinks => Errno::TooManyLinks,
    }
}

/// The same of a file that gets another name. Of a directory Linux has a number of its own for
/// that.
pub(crate) fn link_errno(fault: TreeFault) -> Errno
    ensures { result ≡ fault_errno_by link_errno fault }
{
    match fault {
        TreeFault::Refused(Refusal::IsADirectory) => Errno::NotPermitted,
        fault => fault.into(),
    }
}
