// The bytes of an answer.
ghost use Rattle.std.specs.Prelude.{◌≡◌, ◌+◌, ◌^◌, ◌<◌, length, OnOk};
ghost use Rattle.mounting.specs.Answers.{answer_bytes};

use fuse::answer_header;
use std::alloc::AllocError;

/// Puts an answer in place of these bytes: its header, and what is told behind it.
///
/// # Errors
///
/// `AllocError` where memory is refused.
#[tactic(auto, unfolding(crate::specs::Answers::answer_bytes))]
pub(crate) fn put_answer(
    out: &mut Vec<u8>,
    error: u32,
    unique: u64,
    body: &[u8],
) -> Result<(), AllocError>
    requires { length body.now + 16 < 2 ^ 32 }
    ensures { OnOk result (out.new.items ≡ answer_bytes error unique body.now) }
{
    let size = body.len() as u32 + 16;
    out.clear();
    out.extend_from_slice(&answer_header(size, 0u32.wrapping_sub(error), unique))?;
    out.extend_from_slice(body)
}
