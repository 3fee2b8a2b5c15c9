// Why a program that is to be timed ends early.
use blocks::NoMemory;
use kernel::OpenFault;
use layout::MkfsFault;
use names::{TreeFault, Unwritten};
use thiserror::Error;

/// Why it does.
#[derive(Clone, Copy, Debug, Error)]
pub enum Failed {
    #[error("memory was refused")]
    NoMemory,
    #[error("{0}")]
    Image(MkfsFault),
    #[error("{0}")]
    Opening(OpenFault),
    #[error("there is no process of that number")]
    NoProcess,
    #[error("there is no place for an operation")]
    NoPlace,
    #[error("a step was not made")]
    NoStep,
    #[error("an operation has too many steps")]
    TooManySteps,
    #[error("there is one process, and one watch")]
    NoEnds,
    #[error("{0}")]
    Tree(TreeFault),
    #[error("{0}")]
    Unwritten(Unwritten),
}

impl From<NoMemory> for Failed {
    fn from(_refused: NoMemory) -> Failed {
        Failed::NoMemory
    }
}

impl From<TreeFault> for Failed {
    fn from(fault: TreeFault) -> Failed {
        Failed::Tree(fault)
    }
}
