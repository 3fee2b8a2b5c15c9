// The name of the file in which a new one is made first.
use std::alloc::{AllocError, Global};

// What stands behind the name of the file whose place it takes. No name of a user's ends so.
const SUFFIX: &str = ".xvfs-new";

// The most bytes of a name before that: a name has at most 255.
const MOST_KEPT: usize = 255 - SUFFIX.len();

// The path beside a path, in the same folder: its name, cut where it is too long, and the suffix.
pub fn beside_of(alloc: Global, path: &str) -> Result<String, AllocError> {
    let kept = kept_of(path);
    format!(in alloc; "{kept}{SUFFIX}")
}

// A path with as much of its name as may stand before the suffix.
fn kept_of(path: &str) -> &str {
    let folder = match path.rfind('/') {
        Some(slash) => slash.saturating_add(1),
        None => 0,
    };
    let most = folder.saturating_add(MOST_KEPT);
    if path.len() <= most {
        return path;
    }
    // A character has at most four bytes.
    for cut in 0..4 {
        if let Some(kept) = path.get(..most.saturating_sub(cut)) {
            return kept;
        }
    }
    path
}
