// The names of a path.
ghost use Rattle.std.specs.Prelude.{◌≡◌, ◌++◌, map, Contains, IfOk, IfErr, OnOk};
ghost use Rattle.directories.specs.Entries.{padded, slash};
ghost use Rattle.directories.specs.Paths.{IsPartCause, IsPathCause, names_of, one_part};

use crate::name::{Name, NameFault, SLASH};
use std::alloc::Global;
use thiserror::Error;

/// Why bytes are no path.
#[derive(Clone, Copy, Debug, PartialEq, Eq, Error)]
pub enum PathFault {
    #[error("a name has 14 bytes at most")]
    NameTooLong,
    #[error("a name has no zero byte")]
    ZeroByte,
    #[error("memory was refused")]
    NoMemory,
}

/// The names of a path, in order. Several slashes are one, and those at its beginning and at its end
/// say nothing, as in xv6 (`namex` of fs.c); but a name that is too long is refused and not cut.
///
/// # Errors
///
/// - `NameTooLong`: a name of it has more than 14 bytes.
/// - `ZeroByte`: a name of it has a zero byte.
/// - `NoMemory`: memory for the names was refused.
pub fn names_of(alloc: Global, path: &[u8]) -> Result<Vec<Name>, PathFault>
    ensures names { IfOk result (λ names. names.items ≡ names_of path.now) }
    ensures refused { IfErr result (IsPathCause path.now) }
{
    let mut names = Vec::new(alloc);
    let mut start = 0;
    for (i, byte) in path.iter().enumerate() {
        if *byte == SLASH {
            push_part(&mut names, &path[start..i])?;
            start = i + 1;
        }
    }
    push_part(&mut names, &path[start..])?;
    Ok(names)
}

// One more part of a path; none where it has no bytes.
fn push_part(names: &mut Vec<Name>, part: &[u8]) -> Result<(), PathFault>
    requires { Contains part.now slash → ⊥ }
    ensures adds { OnOk result (names.new.items ≡ names.old.items ++ map padded (one_part part.now)) }
    ensures refused { IfErr result (IsPartCause part.now) }
{
    match Name::new(part) {
        Ok(name) => match names.push(name) {
            Ok(()) => Ok(()),
            Err(_refused) => Err(PathFault::NoMemory),
        },
        // No part has a slash.
        Err(NameFault::Empty | NameFault::Slash) => Ok(()),
        Err(NameFault::TooLong) => Err(PathFault::NameTooLong),
        Err(NameFault::ZeroByte) => Err(PathFault::ZeroByte),
    }
}
