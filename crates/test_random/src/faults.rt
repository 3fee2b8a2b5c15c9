// How many images had which fault.
use crate::image_wrong::What;
use model::types::CheckFault;
use std::io;

// What the table says of a sound image, and of each fault.
const TEXTS: [&str; 10] = [
    "sound",
    "BadMagic",
    "BadGeometry",
    "BadLog",
    "BadType",
    "BadSize",
    "BadAddress",
    "TwiceUsed",
    "UsedButFree",
    "LostBlock",
];

/// A count for sound images, and one for each fault.
#[derive(Drop)]
pub struct Faults {
    counts: [u64; 10],
}

impl Faults {
    /// No image was judged.
    pub fn new() -> Faults {
        Faults { counts: [0; 10] }
    }

    /// Counts an image with this first fault, or a sound one.
    pub fn add(&mut self, fault: Option<CheckFault>) -> Result<(), What> {
        let place: usize = match fault {
            None => 0,
            Some(CheckFault::BadMagic) => 1,
            Some(CheckFault::BadGeometry) => 2,
            Some(CheckFault::BadLog) => 3,
            Some(CheckFault::BadType(_)) => 4,
            Some(CheckFault::BadSize(_)) => 5,
            Some(CheckFault::BadAddress(_)) => 6,
            Some(CheckFault::TwiceUsed(_)) => 7,
            Some(CheckFault::UsedButFree(_)) => 8,
            Some(CheckFault::LostBlock(_)) => 9,
            Some(fault) => return Err(What::Image(fault)),
        };
        if let Some(count) = self.counts.get_mut(place) {
            *count = count.saturating_add(1);
        }
        Ok(())
    }

    /// Prints the table.
    pub fn print(&self, rt: &impl Print) -> io::Result<()> {
        let mut images: u64 = 0;
        for count in self.counts {
            images = images.saturating_add(count);
        }
        println!(rt; "images {images}")?;
        for (text, count) in TEXTS.iter().zip(self.counts.iter()) {
            println!(rt; "{text} {count}")?;
        }
        Ok(())
    }
}
