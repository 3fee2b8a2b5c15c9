ghost use Rattle.std.specs.Prelude.{◌≡◌, ◌↔◌, [], length, IsTrue, IfOk};

use blocks::NoMemory;
use std::alloc::Global;
use std::marker::Model;

/// Bytes of a file or of an operation, which contracts see as a list.
#[derive(Debug, Drop)]
pub struct Content {
    bytes: Vec<u8>,
}

impl Model for Content {
    ghost use Rattle.std.specs.Prelude.{ℕ, List};

    ghost Value = { List ℕ };

    ghost view = { λ c. c.bytes.items };
}

impl Content {
    /// Takes the bytes over; no memory is taken.
    pub fn new(bytes: Vec<u8>) -> Content
        ensures { result ≡ bytes.items }
    {
        Content { bytes }
    }

    /// A copy of the bytes.
    pub fn copy_of(alloc: Global, bytes: &[u8]) -> Result<Content, NoMemory>
        ensures { IfOk result (λ content. content ≡ bytes.now) }
    {
        Ok(Content {
            bytes: Vec::from_slice(alloc, bytes)?,
        })
    }

    pub fn as_slice(&self) -> &[u8]
        ensures { result.now ≡ self.now }
    {
        self.bytes.as_slice()
    }

    /// The number of bytes.
    pub fn len(&self) -> usize
        ensures { result ≡ length self.now }
    {
        self.bytes.len()
    }

    pub fn is_empty(&self) -> bool
        ensures { IsTrue result ↔ (self.now ≡ []) }
    {
        self.bytes.is_empty()
    }
}
