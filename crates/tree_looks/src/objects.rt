// What is told of files as JSON.
ghost use Rattle.std.specs.Prelude.{◌≡◌, ◌++◌, [], ◌∷◌, codes, drop, OnOk};
ghost use Rattle.std.specs.List.{flat_map};
ghost use Rattle.std.specs.Option.{option_copied};
ghost use Rattle.hex.specs.Hex.{encode_lower};
ghost use Rattle.json_lines.specs.Fields.{first_number, number_field, word_field};
ghost use Rattle.tree_looks.specs.Flaws.{words_object};
ghost use Rattle.tree_looks.specs.Objects.{byte_text, count_object, element, file_fields, first_string, is_plain, named_object, stat_object, string_text, told_in};

use crate::texts::add_number;
use blocks::NoMemory;
use directories::files::{bytes_of, kind_of, links_of};
use hex::encode_to_slice;
use model::types::File;

// Adds the object of a file by its number.
#[tactic(auto, unfolding(crate::specs::Objects::stat_object))]
pub fn add_stat_object(text: &mut Vec<u8>, file: Option<&File>, number: u64) -> Result<(), NoMemory>
    ensures { OnOk result (text.new.items
        ≡ text.old.items ++ stat_object (option_copied file.entry) number) }
{
    add_first_number(text, b"number", number)?;
    add_file_fields(text, file)
}

// Adds the object of a file by its name or by its path, as an element of an array.
#[tactic(auto, unfolding(crate::specs::Objects::named_object))]
pub fn add_named_element(
    text: &mut Vec<u8>,
    key: &[u8],
    name: &[u8],
    file: Option<&File>,
    number: u32,
) -> Result<(), NoMemory>
    ensures { OnOk result (text.new.items ≡ text.old.items
        ++ element (named_object key.now name.now (option_copied file.entry) number)) }
{
    text.extend_from_slice(b",")?;
    add_first_string(text, key, name)?;
    add_number_field(text, b"number", u64::from(number))?;
    add_file_fields(text, file)
}

// Adds the object of a file's count of links, as an element of an array.
#[tactic(auto, unfolding(crate::specs::Objects::count_object))]
pub fn add_count_element(
    text: &mut Vec<u8>,
    path: &[u8],
    number: u64,
    links: u16,
    names: u32,
) -> Result<(), NoMemory>
    ensures { OnOk result (text.new.items
        ≡ text.old.items ++ element (count_object path.now number links names)) }
{
    text.extend_from_slice(b",")?;
    add_first_string(text, b"path", path)?;
    add_number_field(text, b"number", number)?;
    add_number_field(text, b"links", u64::from(links))?;
    add_number_field(text, b"names", u64::from(names))?;
    text.extend_from_slice(b"}")?;
    Ok(())
}

// Adds the object of a flaw, as an element of an array.
#[tactic(auto, unfolding(crate::specs::Flaws::words_object))]
pub fn add_words_element(
    text: &mut Vec<u8>,
    path: &[u8],
    number: u64,
    words: &[u8],
) -> Result<(), NoMemory>
    ensures { OnOk result
        (text.new.items ≡ text.old.items ++ element (words_object path.now number words.now)) }
{
    text.extend_from_slice(b",")?;
    add_first_string(text, b"path", path)?;
    add_number_field(text, b"number", number)?;
    add_word_field(text, b"fault", words)?;
    text.extend_from_slice(b"}")?;
    Ok(())
}

// Adds what is told of a file behind its number, and ends its object.
#[tactic(auto, unfolding(crate::specs::Objects::file_fields))]
fn add_file_fields(text: &mut Vec<u8>, file: Option<&File>) -> Result<(), NoMemory>
    ensures { OnOk result
        (text.new.items ≡ text.old.items ++ file_fields (option_copied file.entry)) }
{
    add_number_field(text, b"type", u64::from(kind_of(file)))?;
    add_number_field(text, b"links", u64::from(links_of(file)))?;
    add_number_field(text, b"size", bytes_of(file).len() as u64)?;
    text.extend_from_slice(b"}")?;
    Ok(())
}

// Adds the beginning of an object, with its first field, a number.
#[tactic(auto, unfolding(json_lines::specs::Fields::first_number))]
fn add_first_number(text: &mut Vec<u8>, name: &[u8], number: u64) -> Result<(), NoMemory>
    ensures { OnOk result (text.new.items ≡ text.old.items ++ first_number name.now number) }
{
    text.extend_from_slice(b"{\"")?;
    text.extend_from_slice(name)?;
    text.extend_from_slice(b"\":")?;
    add_number(text, number)
}

// Adds a field behind another, with a number.
#[tactic(auto, unfolding(json_lines::specs::Fields::number_field))]
fn add_number_field(text: &mut Vec<u8>, name: &[u8], number: u64) -> Result<(), NoMemory>
    ensures { OnOk result (text.new.items ≡ text.old.items ++ number_field name.now number) }
{
    text.extend_from_slice(b",\"")?;
    text.extend_from_slice(name)?;
    text.extend_from_slice(b"\":")?;
    add_number(text, number)
}

// Adds a field behind another, with a word.
#[tactic(auto, unfolding(json_lines::specs::Fields::word_field))]
fn add_word_field(text: &mut Vec<u8>, name: &[u8], word: &[u8]) -> Result<(), NoMemory>
    ensures { OnOk result (text.new.items ≡ text.old.items ++ word_field name.now word.now) }
{
    text.extend_from_slice(b",\"")?;
    text.extend_from_slice(name)?;
    text.extend_from_slice(b"\":\"")?;
    text.extend_from_slice(word)?;
    text.extend_from_slice(b"\"")?;
    Ok(())
}

// Adds the beginning of an object, with its first field, a string of these bytes.
#[tactic(auto, unfolding(crate::specs::Objects::first_string))]
fn add_first_string(text: &mut Vec<u8>, name: &[u8], bytes: &[u8]) -> Result<(), NoMemory>
    ensures { OnOk result (text.new.items ≡ text.old.items ++ first_string name.now bytes.now) }
{
    text.extend_from_slice(b"{\"")?;
    text.extend_from_slice(name)?;
    text.extend_from_slice(b"\":")?;
    add_string(text, bytes)
}

// Adds a string of these bytes.
#[tactic(auto, unfolding(crate::specs::Objects::string_text))]
fn add_string(text: &mut Vec<u8>, bytes: &[u8]) -> Result<(), NoMemory>
    ensures { OnOk result (text.new.items ≡ text.old.items ++ string_text bytes.now) }
{
    text.extend_from_slice(b"\"")?;
    add_bytes(text, bytes)?;
    text.extend_from_slice(b"\"")?;
    Ok(())
}

// Adds what stands for these bytes in a string.
fn add_bytes(text: &mut Vec<u8>, bytes: &[u8]) -> Result<(), NoMemory>
    ensures { OnOk result (text.new.items ≡ text.old.items ++ flat_map byte_text bytes.now) }
{
    for byte in bytes {
        add_byte(text, *byte)?;
    }
    Ok(())
}

// Adds what stands for a byte.
fn add_byte(text: &mut Vec<u8>, byte: u8) -> Result<(), NoMemory>
    ensures { OnOk result (text.new.items ≡ text.old.items ++ byte_text byte) }
{
    if is_plain(byte) {
        text.push(byte)?;
        return Ok(());
    }
    text.extend_from_slice(b"\\u00")?;
    text.extend_from_slice(&digits_of(byte))?;
    Ok(())
}

// Whether a byte stands for itself.
fn is_plain(byte: u8) -> bool
    ensures { result ≡ is_plain byte }
{
    32 <= byte && byte <= 126 && byte != b'"' && byte != b'\\'
}

// The two hexadecimal digits of a byte.
fn digits_of(byte: u8) -> [u8; 2]
    ensures { result ≡ encode_lower (byte ∷ []) }
{
    let mut digits = [0u8; 2];
    if encode_to_slice([byte], &mut digits).is_err() {
        unreachable!();
    }
    digits
}

// Makes an array of the elements in a text, if they are told as JSON.
pub fn end_text(text: &mut Vec<u8>, json: bool) -> Result<(), NoMemory>
    ensures { OnOk result (text.new.items ≡ told_in json text.old.items) }
{
    if json {
        open_array(text)?;
        text.extend_from_slice(b"]\n")?;
    }
    Ok(())
}

// Puts the bracket of an array in place of the comma before its first element.
fn open_array(text: &mut Vec<u8>) -> Result<(), NoMemory>
    ensures { OnOk result (text.new.items ≡ codes "[" ++ drop 1 text.old.items) }
{
    if text.is_empty() {
        text.push(b'[')?;
        return Ok(());
    }
    text[0] = b'[';
    Ok(())
}
