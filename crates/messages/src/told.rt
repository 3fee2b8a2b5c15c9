// How a fault or a refusal is told.
ghost use Rattle.std.specs.Prelude.{◌≡◌, Some};
ghost use Rattle.messages.specs.Telling.{
  Telling,
  naming,
  plain,
  telling_of,
  telling_text,
  unwritten_telling,
};

use itoa::Buffer;
use std::fmt;

/// How it is told why something wasn't done: the layer, the number among that layer's faults, from
/// 1, the fault's name, and the inode, the block, the line or the word that it names, if any.
#[derive(Clone, Copy)]
pub struct Told {
    layer: &'static str,
    number: u32,
    name: &'static str,
    argument: Option<u32>,
}

impl Told {
    /// A fault that names nothing.
    pub fn new(layer: &'static str, number: u32, name: &'static str) -> Told
        ensures { telling_of result ≡ plain layer.now number name.now }
    {
        Told {
            layer,
            number,
            name,
            argument: None,
        }
    }

    /// A fault that names an inode, a block, a line or a word.
    pub fn naming(layer: &'static str, number: u32, name: &'static str, argument: u32) -> Told
        ensures { telling_of result ≡ naming layer.now number name.now argument }
    {
        Told {
            layer,
            number,
            name,
            argument: Some(argument),
        }
    }
}

/// Layer, number, name, and what the fault names, if anything, with one space between them.
impl fmt::Display for Told {
    ghost output = { λ told. Some (telling_text (telling_of told)) };

    fn fmt<W: fmt::Write>(&self, f: &mut fmt::Formatter<W>) -> fmt::Result {
        let mut digits = Buffer::new();
        let number = digits.format(self.number);
        write!(f, "{} {number} {}", self.layer, self.name)?;
        if let Some(argument) = self.argument {
            let mut digits = Buffer::new();
            let argument = digits.format(argument);
            write!(f, " {argument}")?;
        }
        Ok(())
    }
}

/// Why something wasn't done: a layer's fault, or a command's refusal.
pub trait Reason {
    /// How it is told.
    ghost telling: { Self → Telling };

    /// How it is told.
    fn told(&self) -> Told
        ensures { telling_of result ≡ telling self.now };
}

/// The output can't be written.
#[derive(Clone, Copy, Debug)]
pub struct Unwritten;

impl Reason for Unwritten {
    ghost telling = { unwritten_telling };

    fn told(&self) -> Told {
        Told::new("output", 1, "Write")
    }
}
