// How long the files are that a script names most.
use crate::setting::Setting;
use model::types::{Attribute, Entry, Op, Reply};

/// The lengths of the files of the first eight numbers.
#[derive(Clone, Copy)]
pub struct Lengths {
    lengths: [u32; 8],
}

impl Lengths {
    /// Those over the image of a setting.
    pub fn new(setting: Setting) -> Lengths {
        let mut lengths = [0; 8];
        lengths[1] = setting.laid.saturating_sub(1).saturating_mul(3072);
        Lengths { lengths }
    }

    /// Those after the entries of a journal that have replies.
    pub fn after(setting: Setting, journal: &[Entry]) -> Lengths {
        let mut lengths = Lengths::new(setting);
        for entry in journal {
            if let Some(reply) = &entry.reply {
                lengths.note(&entry.op, reply);
            }
        }
        lengths
    }

    /// That of a number's file.
    pub fn of(&self, number: u32) -> u32 {
        self.lengths[(number % 8) as usize]
    }

    /// Notes an operation that was answered so.
    pub fn note(&mut self, op: &Op, reply: &Reply) {
        match (op, reply) {
            (Op::Write(number, offset, _), Reply::Wrote(count)) => {
                let length = &mut self.lengths[(*number % 8) as usize];
                *length = offset.saturating_add(*count).max(*length);
            }
            (Op::Trunc(number) | Op::Remove(number), Reply::Done) => {
                self.lengths[(*number % 8) as usize] = 0;
            }
            (Op::SetAttribute(number, Attribute::Size(size)), Reply::Done) => {
                self.lengths[(*number % 8) as usize] = *size;
            }
            (Op::SetAttribute(number, Attribute::Size(_)), Reply::Wrote(count)) => {
                let length = &mut self.lengths[(*number % 8) as usize];
                *length = length.saturating_add(*count);
            }
            _ => {}
        }
    }
}
