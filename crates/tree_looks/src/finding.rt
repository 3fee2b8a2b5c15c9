// Where paths lead among files.
ghost use Rattle.std.specs.Prelude.{◌≡◌, IfErr, IfOk, Ok};
ghost use Rattle.directories.specs.Entries.{lookup};
ghost use Rattle.directories.specs.Paths.{names_of};
ghost use Rattle.directories.specs.Trees.{root};
ghost use Rattle.directories.specs.Walks.{found_or, stepped, walked};
ghost use Rattle.tree_looks.specs.Looks.{IsNotFound};

use crate::faults::LookRefusal;
use directories::files::{bytes_at, kind_at};
use directories::{DIRECTORY, DIRECTORY_KIND, Name, Refusal, lookup, names_of};
use model::types::File;
use std::alloc::Global;

// The names of a path, and the number of the file that they lead to.
#[derive(Drop)]
pub struct Found {
    pub names: Vec<Name>,
    pub number: u32,
}

// Where a path leads.
pub fn find(alloc: Global, files: &[Option<File>], path: &[u8]) -> Result<Found, LookRefusal>
    ensures names { IfOk result (λ found. found.names.items ≡ names_of path.now) }
    ensures led { IfOk result
        (λ found. walked files.now root (names_of path.now) ≡ Ok found.number) }
    ensures refused { IfErr result (IsNotFound files.now path.now) }
{
    match names_of(alloc, path) {
        Ok(names) => match walk(files, names.as_slice()) {
            Ok(number) => Ok(Found { names, number }),
            Err(refusal) => Err(LookRefusal::Refused(refusal)),
        },
        Err(fault) => Err(LookRefusal::Path(fault)),
    }
}

// Where names lead from the root, one after the other.
pub fn walk(files: &[Option<File>], names: &[Name]) -> Result<u32, Refusal>
    ensures { result ≡ walked files.now root names.now }
{
    let mut number = DIRECTORY;
    for name in names {
        match step(files, number, name) {
            Ok(next) => number = next,
            Err(refusal) => return Err(refusal),
        }
    }
    Ok(number)
}

// Where a name leads from a file.
fn step(files: &[Option<File>], from: u32, name: &Name) -> Result<u32, Refusal>
    ensures { result ≡ stepped files.now from name.now }
{
    if kind_at(files, from) == DIRECTORY_KIND {
        led_by(bytes_at(files, from), name)
    } else {
        Err(Refusal::NotADirectory)
    }
}

// Where a name leads in a directory of these bytes.
fn led_by(bytes: &[u8], name: &Name) -> Result<u32, Refusal>
    ensures { result ≡ found_or (lookup bytes.now name.now) }
{
    match lookup(bytes, name) {
        Some(number) => Ok(u32::from(number)),
        None => Err(Refusal::NotFound),
    }
}
