// Why files don't do what is asked of their names.
use thiserror::Error;

/// What the files refuse. They are as before, and other calls may be made.
#[derive(Clone, Copy, Debug, PartialEq, Eq, Error)]
pub enum Refusal {
    /// A name of the path is not there.
    #[error("there is no such file")]
    NotFound,
    /// A name of the path leads to a file that is no directory, and is not the last.
    #[error("a file on the path is no directory")]
    NotADirectory,
    /// The path has no name, so it is that of the root.
    #[error("the path is that of the root")]
    IsRoot,
    #[error("the name is there already")]
    Exists,
    /// The directory has no room for another entry.
    #[error("the directory is full")]
    Full,
    /// There is no number for another file, or none that an entry's two bytes can hold.
    #[error("no number is free for a file")]
    NoNumber,
    #[error("no block is free for the entry")]
    NoBlock,
    /// The file is a directory.
    #[error("the file is a directory")]
    IsADirectory,
    /// Something is in the directory.
    #[error("the directory is not empty")]
    NotEmpty,
    /// A directory would be in itself, or in one that is below it.
    #[error("the directory would be inside itself")]
    IsInside,
    /// The last name is a directory's for itself or for its parent.
    #[error("the last name does not lead down")]
    NotDown,
    /// As many names lead to the file as its count can say: 32,767, xv6's `short`.
    #[error("too many names lead to the file")]
    TooManyLinks,
}
