// Numbers in decimal digits.
ghost use Rattle.std.specs.Prelude.{◌≡◌, ◌≤◌, IfSome};
ghost use Rattle.scripts.specs.Number.{number_of, number_up_to};

// The value of a number: decimal digits, with no sign and no zero in front.
#[tactic(auto, unfolding(crate::specs::Number::number_of))]
pub(crate) fn number(text: &[u8]) -> Option<u32>
    ensures { result ≡ number_of text.now }
{
    if text.is_empty() || (text.len() > 1 && text[0] == b'0') {
        return None;
    }
    let mut value = 0u32;
    for digit in text {
        if !digit.is_ascii_digit() {
            return None;
        }
        value = value
            .checked_mul(10)?
            .checked_add(u32::from(*digit - b'0'))?;
    }
    Some(value)
}

// The value of a number that is at most `most`.
pub(crate) fn number_up_to(most: u32, text: &[u8]) -> Option<u32>
    ensures value { result ≡ number_up_to most text.now }
    ensures bound { IfSome result (λ value. value ≤ most) }
{
    let value = number(text)?;
    if value <= most { Some(value) } else { None }
}
