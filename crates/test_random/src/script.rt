// Which operations are handed in, and whose turn it is.
ghost use Rattle.std.specs.Prelude.{◌<◌};

use crate::chance::Chance;
use crate::lengths::Lengths;
use crate::setting::Setting;
use model::content::Content;
use model::types::{Attribute, Entry, Form, Op};
use std::alloc::{AllocError, Global};

// How many bytes the blocks hold that an inode of the first form itself names.
const DIRECT: u32 = 12288;

// And in the second form; with those of the indirect block; and of the first second block.
const BORDERS: [u32; 3] = [11264, 273_408, 535_552];

/// A script on its way.
#[derive(Drop)]
pub struct Script {
    pub setting: Setting,
    chance: Chance,
    turns: Chance,
    pid: u32,
    written: u32,
    /// How many operations were answered.
    pub answered: u32,
    /// The operation that is next handed in, and its process.
    pub drawn: Option<(u32, Op)>,
}

impl Script {
    /// That of a seed, behind the operations that were made before the run.
    pub fn new(seed: u64, setting: Setting) -> Script {
        Script {
            setting,
            chance: Chance::new(seed, 1),
            turns: Chance::new(seed, 2),
            pid: 0,
            written: setting.laid,
            answered: setting.laid,
            drawn: None,
        }
    }

    /// Whether all operations were handed in and answered.
    pub fn is_over(&self) -> bool {
        self.written >= self.setting.operations && self.answered >= self.written
    }

    /// The process that has the next turn.
    pub fn turn(&mut self) -> u32 {
        if self.turns.is_one_in(self.setting.stay) {
            self.pid = self.turns.below(self.setting.processes);
        }
        self.pid
    }

    /// Whether it is time to fetch an answer.
    pub fn fetches(&mut self) -> bool {
        self.turns.is_one_in(self.setting.fetch)
    }

    /// Draws the next operation, if none waits to be handed in and it is time for one, where the
    /// kernel's journal is this.
    pub fn draw(&mut self, alloc: Global, journal: &[Entry]) -> Result<(), AllocError> {
        let place = self.written;
        let is_early = self.drawn.is_some() || place >= self.setting.operations;
        if is_early || !self.turns.is_one_in(self.setting.pace) {
            return Ok(());
        }
        self.written = place.saturating_add(1);
        let pid = self.process(place);
        self.drawn = Some((pid, self.operation(alloc, place, journal)?));
        Ok(())
    }

    // The process that makes the operation at a place.
    fn process(&mut self, place: u32) -> u32 {
        if place < self.setting.long {
            return 0;
        }
        if self.setting.is_in_rows {
            return place.saturating_sub(self.setting.long) % 32;
        }
        self.chance.below(self.setting.processes)
    }

    // The operation at a place.
    fn operation(
        &mut self,
        alloc: Global,
        place: u32,
        journal: &[Entry],
    ) -> Result<Op, AllocError> {
        if place < self.setting.long {
            return self.long(alloc, place);
        }
        if self.setting.is_in_rows {
            return self.in_rows(alloc, place.saturating_sub(self.setting.long));
        }
        if place < self.setting.numbers {
            return Ok(Op::Create(self.kind()));
        }
        self.by_chance(alloc, Lengths::after(self.setting, journal))
    }

    // Makes the first file, and then writes to it piece by piece.
    fn long(&mut self, alloc: Global, place: u32) -> Result<Op, AllocError> {
        match place.checked_sub(1) {
            Some(piece) => self.write(alloc, 1, piece.saturating_mul(3072), 3072),
            None => Ok(Op::Create(2)),
        }
    }

    // Rows in which each process has an operation: creations, then writes, then the others.
    fn in_rows(&mut self, alloc: Global, place: u32) -> Result<Op, AllocError> {
        let number = 1 + place % 31;
        match (place / 32, place % 3) {
            (0, kind) => Ok(Op::Create(1 + kind as u16)),
            (1, _) => self.write(alloc, number, 0, place % 5 * 768),
            (_, 0) => Ok(Op::Trunc(number)),
            (_, 1) => Ok(Op::Remove(number)),
            _ => Ok(Op::Create(2)),
        }
    }

    // An operation on files of these lengths.
    fn by_chance(&mut self, alloc: Global, lengths: Lengths) -> Result<Op, AllocError> {
        let number = self.number();
        let offset = self.offset(lengths.of(number));
        let count = self.count(offset);
        match self.choice() {
            0..=11 => Ok(Op::Create(self.kind())),
            12..=64 => self.write(alloc, number, offset, count),
            65..=78 => Ok(Op::Read(number, offset, count)),
            79..=81 => Ok(Op::Trunc(number)),
            82..=84 => Ok(Op::Remove(number)),
            93..=94 => Ok(Op::SetAttribute(number, Attribute::Links(self.links()))),
            95 => Ok(Op::SetAttribute(number, Attribute::Size(offset))),
            96 => Ok(Op::SetAttribute(number, Attribute::Size(offset.saturating_add(count)))),
            _ => Ok(Op::Stat(number)),
        }
    }

    // What is done next. In the second form there are fewer questions, and more truncations and
    // removals.
    fn choice(&mut self) -> u32 {
        let drawn = self.chance.below(100);
        match (self.setting.form, drawn) {
            (Form::Two, 85..=92) => 79 + drawn % 6,
            _ => drawn,
        }
    }

    // A type, which few times there is not.
    fn kind(&mut self) -> u16 {
        if self.chance.is_one_in(40) {
            return 4;
        }
        1 + self.chance.below(3) as u16
    }

    // A count of links, which is sometimes none.
    fn links(&mut self) -> u16 {
        match self.chance.below(8) {
            0 => 0,
            1 => 65_535,
            _ => self.chance.below(65_536) as u16,
        }
    }

    // An inode number, which few times no file can have.
    fn number(&mut self) -> u32 {
        match self.chance.below(60) {
            0 => 0,
            1 => self.setting.inode_count,
            _ => 1 + self.chance.below(self.setting.numbers),
        }
    }

    fn write(
        &mut self,
        alloc: Global,
        number: u32,
        offset: u32,
        count: u32,
    ) -> Result<Op, AllocError> {
        let first = self.chance.below(256) as u8;
        let mut bytes = vec![in alloc; first; count as usize]?;
        for (k, byte) in bytes.iter_mut().enumerate() {
            *byte = first.wrapping_add((k % 251) as u8);
        }
        Ok(Op::Write(number, offset, Content::new(bytes)))
    }

    // A place in a file: most often its end, and else a border of blocks, one behind which a block
    // of addresses names them, or any place; seldom one behind its end.
    fn offset(&mut self, length: u32) -> u32 {
        let offset = match self.chance.below(10) {
            0..=4 => length,
            5 => length / 1024 * 1024,
            6 => self.border(),
            7 => self.border().saturating_sub(self.chance.below(3073)),
            8 => self.chance.below(length.saturating_add(1)),
            _ => length.saturating_sub(self.chance.below(1500)),
        };
        if self.chance.is_one_in(25) {
            return length.saturating_add(1 + self.chance.below(5000));
        }
        offset.min(length)
    }

    // A border behind which a block of addresses names the blocks.
    fn border(&mut self) -> u32 {
        match self.setting.form {
            Form::One => DIRECT,
            Form::Two => BORDERS[self.chance.below(3) as usize],
        }
    }

    // How many bytes: to the next border of blocks, whole blocks, or any number; seldom too many.
    fn count(&mut self, offset: u32) -> u32 {
        match self.chance.below(10) {
            0 => 1024 - offset % 1024,
            1 => 2048,
            2..=5 => 3072,
            6 => self.chance.below(3),
            7 => 3072u32.saturating_sub(offset % 1024),
            _ if self.chance.is_one_in(8) => 3073,
            _ => self.chance.below(3073),
        }
    }
}
