// Why a call of a tree of directories doesn't do what it is asked.
ghost use Rattle.std.specs.Prelude.{◌≡◌};

use calls::transactions::TransactionFault;
use directories::{PathFault, Refusal};
use thiserror::Error;

/// Why a call of a tree was not answered.
#[derive(Clone, Copy, Debug, Error)]
pub enum TreeFault {
    /// The path is none. Nothing was done.
    #[error("{0}")]
    Path(PathFault),
    /// The files are as before, and other calls may be made.
    #[error("{0}")]
    Refused(Refusal),
    /// A call of the kernel failed. Behind it no other is made.
    #[error("{0}")]
    Call(TransactionFault),
    /// No block is free for all of the bytes that are to stand in a file which was there. Nothing of
    /// them is kept, and behind it no other call is made.
    #[error("no block is free for the bytes")]
    NoSpace,
    /// A call failed before, or 2^62 were answered, which is as many as a tree makes.
    #[error("no other call may be made")]
    NoCall,
}

impl From<Refusal> for TreeFault {
    ghost use Rattle.names.specs.declared.refusal.TreeFault.TheVariants as fault;

    ghost from_gives = { λ cause e. e ≡ fault.Refused cause };

    fn from(refusal: Refusal) -> TreeFault {
        TreeFault::Refused(refusal)
    }
}

impl From<PathFault> for TreeFault {
    ghost use Rattle.names.specs.declared.refusal.TreeFault.TheVariants as fault;

    ghost from_gives = { λ cause e. e ≡ fault.Path cause };

    fn from(cause: PathFault) -> TreeFault {
        TreeFault::Path(cause)
    }
}

// What is asked of a tree in a transaction: its answer, or why the files refuse it.
pub(crate) type Asked<T> = Result<Result<T, Refusal>, TreeFault>;
