// The files of an image that is checked first.
ghost use Rattle.std.specs.Prelude.{◌≡◌, ◌≢◌, IfOk, IfErr, OnOk, Some, None};
ghost use Rattle.model.specs.Files.{files_of};
ghost use Rattle.model.specs.Log.{recovered};
ghost use Rattle.model.specs.Verdict.{verdict};

use crate::check::verdict;
use crate::files::{Files, files_of};
use crate::recovery::recovered;
use blocks::Block;
use model::types::CheckFault;
use std::alloc::Global;

/// The files that an image without fault has after recovery.
///
/// # Errors
///
/// The image's first fault, or `NoMemory` where memory is refused.
#[tactic(auto, using(model::specs::Lemmas::Super::readable_where_sound, model::specs::Lemmas::Super::long_where_sound))]
pub fn files_after_recovery(alloc: Global, image: &[Block]) -> Result<Files, CheckFault>
    ensures files { IfOk result (λ files. files.items ≡ files_of (recovered image.now)) }
    ensures sound { OnOk result (verdict image.now ≡ None) }
    ensures fault { IfErr result (λ fault. fault ≢ CheckFault.NoMemory →
        verdict image.now ≡ Some fault) }
{
    if let Some(fault) = verdict(alloc, image)? {
        return Err(fault);
    }
    let blocks = recovered(alloc, image)?;
    Ok(files_of(alloc, blocks.as_slice())?)
}
