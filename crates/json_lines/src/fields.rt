// The fields of an object.
ghost use Rattle.std.specs.Prelude.{OnOk};
ghost use Rattle.std.specs.Io.KnownBytes.{Appends};
ghost use Rattle.json_lines.specs.Fields.{first_number, number_field, word_field};

use itoa::Buffer;
use messages::{Unwritten, print};
use std::io::Write;

/// Writes the beginning of an object, and its first field, with a number.
#[tactic(auto, unfolding(crate::specs::Fields::first_number))]
pub fn print_first_number<O: Write>(out: &mut O, name: &str, number: u64) -> Result<(), Unwritten>
    ensures ok { OnOk result (Appends (O.contents out.old) (O.contents out.new)
        (first_number name.now number)) }
{
    let mut buffer = Buffer::new();
    let number = buffer.format(number);
    print(out, format_args!("{{\"{name}\":{number}"))
}

/// Writes a field behind another, with a number.
#[tactic(auto, unfolding(crate::specs::Fields::number_field))]
pub fn print_number<O: Write>(out: &mut O, name: &str, number: u64) -> Result<(), Unwritten>
    ensures ok { OnOk result (Appends (O.contents out.old) (O.contents out.new)
        (number_field name.now number)) }
{
    let mut buffer = Buffer::new();
    let number = buffer.format(number);
    print(out, format_args!(",\"{name}\":{number}"))
}

/// The same with a word.
#[tactic(auto, unfolding(crate::specs::Fields::word_field))]
pub fn print_word<O: Write>(out: &mut O, name: &str, word: &str) -> Result<(), Unwritten>
    ensures ok { OnOk result (Appends (O.contents out.old) (O.contents out.new)
        (word_field name.now word.now)) }
{
    print(out, format_args!(",\"{name}\":\"{word}\""))
}
