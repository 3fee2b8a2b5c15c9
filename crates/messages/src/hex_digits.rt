// Hexadecimal digits of bytes.
ghost use Rattle.std.specs.Prelude.{◌≡◌, ◌<◌, ◌≤◌, ◌/◌, ◌%◌, ◌∷◌, [], length, map, slice_index};
ghost use Rattle.hex.specs.Hex.{encode_lower, lower_digits};
ghost use Rattle.messages.specs.Digits.{pair_of};

// The most bytes whose digits are made at once.
pub(crate) const PIECE: usize = 256;

// The digits of these bytes, which are made in a place that has room for them.
pub(crate) fn digits_of<'a>(bytes: &[u8], place: &'a mut [[u8; 2]]) -> &'a [u8]
    requires { length bytes.now ≤ length place.old }
    ensures { result.now ≡ encode_lower bytes.now }
{
    let pairs = &mut place[..bytes.len()];
    write_pairs(bytes, pairs);
    pairs.as_flattened()
}

// The same as text.
pub(crate) fn digits_as_text<'a>(bytes: &[u8], place: &'a mut [[u8; 2]]) -> &'a str
    requires { length bytes.now ≤ length place.old }
    ensures { result.now ≡ encode_lower bytes.now }
{
    let Ok(text) = str::from_utf8(digits_of(bytes, place)) else {
        unreachable!();
    };
    text
}

// Writes the two digits of each byte to its place.
fn write_pairs(bytes: &[u8], pairs: &mut [[u8; 2]])
    requires { length bytes.now ≡ length pairs.old }
    ensures { pairs.new ≡ map pair_of bytes.now }
{
    for i in 0..bytes.len() {
        pairs[i] = pair_of(bytes[i]);
    }
}

// The two digits of a byte, that of the high four bits first.
fn pair_of(byte: u8) -> [u8; 2]
    ensures { result ≡ pair_of byte }
{
    [digit_of(byte / 16), digit_of(byte % 16)]
}

// The digit of a number below 16. It is computed and not looked up, so that many are made at once.
fn digit_of(value: u8) -> u8
    requires { value < 16 }
    ensures { result ≡ slice_index lower_digits value }
{
    if value < 10 {
        b'0' + value
    } else {
        b'a' - 10 + value
    }
}
