// A file as bytes at places: what a disk asks of it.
ghost use Rattle.std.specs.Prelude.{◌≡◌, ◌*◌, ℕ, List, Option, None, length, IfOk, OnOk};
ghost use Rattle.std.specs.Io.KnownBytes.{Consumes};
ghost use Rattle.blocks.specs.Block.{block_size};
ghost use Rattle.blocks.specs.File.{IsWrittenAt};
ghost use Rattle.blocks.specs.Placed.{AllRemain, BecomesZero, IsLength, WritesInPlace};

use crate::BLOCK_SIZE;
use std::fs::OpenFile;
use std::io;
use std::io::{Read, Seek, SeekFrom, Write};

/// A file whose bytes are written at places. A file of the system tells nothing of its bytes: its
/// `bytes` are None, and that these calls do what they say is by their code below.
pub trait Placed {
    /// All its bytes, where they are known.
    ghost bytes: { Self → Option (List ℕ) };

    /// Where it stands, as `Seek` tells it.
    ghost position: { Self → Option ℕ };

    /// What was written to it, as `Write` tells it.
    ghost contents: { Self → Option (List ℕ) };

    /// Writes these bytes at a place, counted from 0.
    ///
    /// # Errors
    ///
    /// The system's. Then any bytes may stand at the place.
    fn write_at(&mut self, place: u64, from: &[u8]) -> io::Result<()>
        ensures bytes { WritesInPlace (bytes self.old) (bytes self.new) place from.now result }
        ensures written { OnOk result
            (IsWrittenAt position contents self.old self.new place from.now) };

    /// Gives it so many blocks of zeroes, and nothing else. A device, which has to have that length,
    /// is filled.
    ///
    /// # Errors
    ///
    /// The system's. Then any bytes may be left.
    fn become_zero(&mut self, blocks: u32) -> io::Result<()>
        ensures { OnOk result
            (BecomesZero (bytes self.old) (bytes self.new) (blocks * block_size)) };

    /// Brings what was written to the device.
    ///
    /// # Errors
    ///
    /// The system's.
    fn sync(&self) -> io::Result<()>;
}

/// A file whose bytes are read from its start to its end.
pub trait PlacedRead: Read + Placed {
    /// How many bytes it has. One that stands at its start is left there.
    ///
    /// # Errors
    ///
    /// The system's.
    fn byte_count(&mut self) -> io::Result<u64>
        ensures same { Self.bytes self.new ≡ Self.bytes self.old }
        ensures count { IfOk result (IsLength (Self.bytes self.old)) }
        ensures start { OnOk result (AllRemain (Self.bytes self.old) (Self.remaining self.old)
            → AllRemain (Self.bytes self.new) (Self.remaining self.new)) };

    /// Reads its next bytes, as many as there is room for.
    ///
    /// # Errors
    ///
    /// The system's; `UnexpectedEof` where it ends before.
    fn read_next(&mut self, into: &mut [u8]) -> io::Result<()>
        ensures same { Self.bytes self.new ≡ Self.bytes self.old }
        ensures read { OnOk result
            (Consumes (Self.remaining self.old) (Self.remaining self.new) into.new) };
}

impl<F: Write + Seek + OpenFile> Placed for F {
    ghost bytes = { λ _. None };

    ghost position = { λ f. F.stream_position f };

    ghost contents = { λ f. F.contents f };

    fn write_at(&mut self, place: u64, from: &[u8]) -> io::Result<()> {
        self.seek(SeekFrom::Start(place))?;
        self.write_all(from)
    }

    fn become_zero(&mut self, blocks: u32) -> io::Result<()> {
        let length = blocks as u64 * BLOCK_SIZE as u64;
        if self.metadata()?.is_file() || self.seek(SeekFrom::End(0))? != length {
            self.set_len(0)?;
            return self.set_len(length);
        }
        self.seek(SeekFrom::Start(0))?;
        for _ in 0..blocks {
            self.write_all(&[0; BLOCK_SIZE])?;
        }
        Ok(())
    }

    fn sync(&self) -> io::Result<()> {
        self.sync_data()
    }
}

impl<F: Read + Write + Seek + OpenFile> PlacedRead for F {
    fn byte_count(&mut self) -> io::Result<u64> {
        let found = self.metadata()?;
        if found.is_file() {
            return Ok(found.len());
        }
        match self.seek(SeekFrom::End(0)) {
            Ok(end) => {
                self.seek(SeekFrom::Start(0))?;
                Ok(end)
            }
            // A pipe has no end to be sought.
            Err(_) => Ok(found.len()),
        }
    }

    fn read_next(&mut self, into: &mut [u8]) -> io::Result<()> {
        self.read_exact(into)
    }
}
