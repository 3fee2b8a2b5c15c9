ghost use Rattle.std.specs.Prelude.{◌≡◌, ◌≤◌, [], length, IfOk};
ghost use Rattle.model.specs.Gathered.{gathered_with};

use crate::content::Content;
use blocks::NoMemory;
use std::alloc::Global;
use std::marker::Model;

/// Bytes that are gathered piece by piece, in room that was taken before.
#[derive(Drop)]
pub struct Gathered {
    bytes: Vec<u8>,
    room: usize,
}

impl Model for Gathered {
    ghost use Rattle.std.specs.Prelude.{◌+◌, ◌≤◌, vec_len, vec_capacity};
    ghost use Rattle.model.specs.Gathered.{GatheredBytes};

    ghost Value = { GatheredBytes };

    ghost view = { λ g. record { bytes = g.bytes.items; room = g.room } };

    ghost invariant = { λ g. vec_len g.bytes + g.room ≤ vec_capacity g.bytes };
}

impl Gathered {
    /// No bytes so far, and room for this many.
    ///
    /// # Errors
    ///
    /// `NoMemory` where the allocator refuses the room.
    pub fn with_room(alloc: Global, room: usize) -> Result<Gathered, NoMemory>
        ensures { IfOk result (λ gathered. gathered ≡ record { bytes = []; room = room }) }
    {
        Ok(Gathered {
            bytes: Vec::with_capacity(alloc, room)?,
            room,
        })
    }

    /// Adds bytes for which there is room; no memory is taken.
    pub fn add(&mut self, piece: &[u8])
        requires { length piece.now ≤ self.old.room }
        ensures { self.new ≡ gathered_with self.old piece.now }
    {
        self.room -= piece.len();
        let _ = self.bytes.extend_from_slice(piece);
    }

    pub fn as_slice(&self) -> &[u8]
        ensures { result.now ≡ self.now.bytes }
    {
        self.bytes.as_slice()
    }

    /// The number of bytes.
    pub fn len(&self) -> usize
        ensures { result ≡ length self.now.bytes }
    {
        self.bytes.len()
    }

    /// For how many more bytes there is room.
    pub fn room(&self) -> usize
        ensures { result ≡ self.now.room }
    {
        self.room
    }

    /// Gives the bytes; no memory is taken.
    pub fn into_content(self) -> Content
        ensures { result ≡ self.bytes }
    {
        Content::new(self.bytes)
    }
}
