// A file in memory.
ghost use Rattle.std.specs.Prelude.{◌≤◌, None, Some, drop, length};

use blocks::{BLOCK_SIZE, Placed, PlacedRead};
use std::alloc::Global;
use std::io;
use std::io::{ErrorKind, Read};

/// A file in memory that tells of its bytes, and refuses writes where it is told to.
#[derive(Drop)]
pub struct KnownFile {
    alloc: Global,
    bytes: Vec<u8>,
    at: usize,
    refuses: bool,
    ghost inside: { at ≤ length bytes.items },
}

impl KnownFile {
    /// A file of these bytes.
    pub fn of(alloc: Global, bytes: Vec<u8>, refuses: bool) -> KnownFile {
        KnownFile {
            alloc,
            bytes,
            at: 0,
            refuses,
        }
    }

    /// Its bytes.
    pub fn into_bytes(self) -> Vec<u8> {
        let KnownFile { bytes, .. } = self;
        bytes
    }
}

impl Read for KnownFile {
    ghost remaining = { λ f. Some (drop f.at f.bytes.items) };

    fn read(&mut self, _buf: &mut [u8]) -> io::Result<usize> {
        Err(io::Error::from(ErrorKind::Unsupported))
    }
}

impl Placed for KnownFile {
    ghost bytes = { λ f. Some f.bytes.items };

    ghost position = { λ _. None };

    ghost contents = { λ _. None };

    fn write_at(&mut self, place: u64, from: &[u8]) -> io::Result<()> {
        let place = place as usize;
        if self.refuses || place > self.bytes.len() || from.len() > self.bytes.len() - place {
            return Err(io::Error::from(ErrorKind::StorageFull));
        }
        self.bytes[place..place + from.len()].copy_from_slice(from);
        Ok(())
    }

    fn become_zero(&mut self, blocks: u32) -> io::Result<()> {
        self.bytes = vec![in self.alloc; 0; blocks as usize * BLOCK_SIZE]?;
        self.at = 0;
        Ok(())
    }

    fn sync(&self) -> io::Result<()> {
        Ok(())
    }
}

impl PlacedRead for KnownFile {
    fn byte_count(&mut self) -> io::Result<u64> {
        Ok(self.bytes.len() as u64)
    }

    fn read_next(&mut self, into: &mut [u8]) -> io::Result<()> {
        if into.len() > self.bytes.len() - self.at {
            return Err(io::Error::from(ErrorKind::UnexpectedEof));
        }
        let end = self.at + into.len();
        into.copy_from_slice(&self.bytes[self.at..end]);
        self.at = end;
        Ok(())
    }
}
