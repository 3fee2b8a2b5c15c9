// Names in the body of a request, each with a zero byte at its end.
ghost use Rattle.std.specs.Prelude.{◌≡◌, ◌<◌, ◌==◌, length, position, option_map, IfSome};
ghost use Rattle.fuse.specs.Requests.{name_and_rest, name_at, names_at};

// Where the first zero byte stands.
fn end_of(bytes: &[u8]) -> Option<usize>
    ensures value { result ≡ position (λ byte. byte == 0) bytes.now }
    ensures inside { IfSome result (λ end. end < length bytes.now) }
{
    bytes.iter().position(|byte| *byte == 0)
}

// A name, and what stands behind its zero byte.
#[tactic(auto, unfolding(crate::specs::Requests::name_and_rest))]
fn split_name(bytes: &[u8]) -> Option<(&[u8], &[u8])>
    ensures { option_map (λ both. (both.0.now, both.1.now)) result ≡ name_and_rest bytes.now }
{
    let end = end_of(bytes)?;
    Some((&bytes[..end], &bytes[end + 1..]))
}

/// The name from a place on.
#[tactic(auto, unfolding(crate::specs::Requests::name_at))]
pub(crate) fn read_name(body: &[u8], at: usize) -> Option<&[u8]>
    ensures { option_map (λ name. name.now) result ≡ name_at body.now at }
{
    if body.len() < at {
        return None;
    }
    let (name, _rest) = split_name(&body[at..])?;
    Some(name)
}

/// The two names from a place on, one behind the other.
#[tactic(auto, unfolding(crate::specs::Requests::names_at))]
pub(crate) fn read_names(body: &[u8], at: usize) -> Option<(&[u8], &[u8])>
    ensures { option_map (λ both. (both.0.now, both.1.now)) result ≡ names_at body.now at }
{
    if body.len() < at {
        return None;
    }
    let (old, rest) = split_name(&body[at..])?;
    let (name, _rest) = split_name(rest)?;
    Some((old, name))
}
