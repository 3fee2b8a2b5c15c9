// Names of files.
ghost use Rattle.std.specs.Prelude.{◌≡◌, ◌↔◌, ◌<◌, ◌≤◌, ◌==◌, [], length, position, Contains, IsTrue, OnOk, IfOk, IfErr, IfSome};
ghost use Rattle.directories.specs.Entries.{name_in, name_size, padded, text_in, text_of, IsProper, IsStored};
ghost use Rattle.directories.specs.Flaws.{is_proper};
ghost use Rattle.directories.specs.Names.{IsName, IsNameCause};
ghost use Rattle.directories.specs.Trees.{parent_name, self_name, IsDown};

use crate::entries::ENTRY_SIZE;
use std::marker::Model;
use thiserror::Error;

/// The most bytes of a name.
pub const NAME_SIZE: usize = 14;

/// The byte between the names of a path.
pub(crate) const SLASH: u8 = 47;

/// A name, of 1 to 14 bytes, none of which is 0 or a slash. Contracts see it with zeroes behind it,
/// as it stands in an entry.
#[derive(Debug, Drop)]
pub struct Name {
    bytes: [u8; NAME_SIZE],
}

/// Why bytes are no name.
#[derive(Clone, Copy, Debug, PartialEq, Eq, Error)]
pub enum NameFault {
    #[error("a name has a byte at least")]
    Empty,
    #[error("a name has 14 bytes at most")]
    TooLong,
    #[error("a name has no zero byte")]
    ZeroByte,
    #[error("a name has no slash")]
    Slash,
}

impl Model for Name {
    ghost use Rattle.std.specs.Prelude.{ℕ, List};
    ghost use Rattle.directories.specs.Entries.{IsStored};

    ghost Value = { List ℕ };

    ghost view = { λ n. n.bytes };

    ghost invariant = { λ n. IsStored n.bytes };
}

impl Name {
    /// The name of these bytes.
    ///
    /// # Errors
    ///
    /// `Empty` where there are none, `TooLong` where there are more than 14, else `ZeroByte` where
    /// one is 0, else `Slash` where one is a slash.
    pub fn new(text: &[u8]) -> Result<Name, NameFault>
        ensures is { OnOk result (IsName text.now) }
        ensures name { IfOk result (λ name. name ≡ padded text.now) }
        ensures cause { IfErr result (IsNameCause text.now) }
    {
        if text.is_empty() {
            return Err(NameFault::Empty);
        }
        if text.len() > NAME_SIZE {
            return Err(NameFault::TooLong);
        }
        if text.contains(&0) {
            return Err(NameFault::ZeroByte);
        }
        if text.contains(&SLASH) {
            return Err(NameFault::Slash);
        }
        Ok(Name {
            bytes: padded(text),
        })
    }

    /// The name `.`, by which a directory has itself.
    pub fn own() -> Name
        ensures { result ≡ self_name }
    {
        Name {
            bytes: [46, 0, 0, 0, 0, 0, 0, 0, 0, 0, 0, 0, 0, 0],
        }
    }

    /// The name `..`, by which a directory has its parent.
    pub fn parent() -> Name
        ensures { result ≡ parent_name }
    {
        Name {
            bytes: [46, 46, 0, 0, 0, 0, 0, 0, 0, 0, 0, 0, 0, 0],
        }
    }

    /// Whether the name leads down: it is a directory's name neither for itself nor for its parent.
    pub fn is_down(&self) -> bool
        ensures { IsTrue result ↔ IsDown self.now }
    {
        *self.as_slice() != *Name::own().as_slice()
            && *self.as_slice() != *Name::parent().as_slice()
    }

    /// The name with zeroes behind it: 14 bytes.
    pub fn as_slice(&self) -> &[u8]
        ensures value { result.now ≡ self.now }
        ensures stored { IsStored self.now }
    {
        &self.bytes
    }

    /// The bytes of the name, without the zeroes behind them.
    pub fn text(&self) -> &[u8]
        ensures { result.now ≡ text_of self.now }
    {
        text_of(&self.bytes)
    }
}

// The bytes of a name before its first zero.
fn text_of(name: &[u8]) -> &[u8]
    ensures text { result.now ≡ text_of name.now }
    ensures few { length result.now ≤ length name.now }
{
    match end_of(name) {
        Some(end) => &name[..end],
        None => name,
    }
}

// The first place of a zero.
fn end_of(name: &[u8]) -> Option<usize>
    ensures first { result ≡ position (λ byte. byte == 0) name.now }
    ensures inside { IfSome result (λ end. end < length name.now) }
{
    name.iter().position(|byte| *byte == 0)
}

/// The bytes of an entry's name, up to a zero: xv6 compares no more (`namecmp` of fs.c).
pub fn text_in(entry: &[u8; ENTRY_SIZE]) -> &[u8]
    ensures text { result.now ≡ text_in entry.now }
    ensures few { length result.now ≤ name_size }
{
    text_of(&entry[2..ENTRY_SIZE])
}

// The name of an entry, with zeroes behind it.
#[tactic(auto, unfolding(crate::specs::Entries::name_in))]
pub(crate) fn name_in(entry: &[u8; ENTRY_SIZE]) -> [u8; NAME_SIZE]
    ensures { result ≡ name_in entry.now }
{
    padded(text_in(entry))
}

// Bytes with zeroes behind them, 14 together.
fn padded(text: &[u8]) -> [u8; NAME_SIZE]
    requires { length text.now ≤ name_size }
    ensures { result ≡ padded text.now }
{
    let mut bytes = [0; NAME_SIZE];
    bytes[..text.len()].copy_from_slice(text);
    bytes
}

// Whether bytes are a name: one at least is there, and none is a slash.
pub(crate) fn is_proper(name: &[u8; NAME_SIZE]) -> bool
    ensures proper { IsTrue result ↔ IsProper name.now }
    ensures value { result ≡ is_proper name.now }
{
    name[0] != 0 && !name.contains(&SLASH)
}
