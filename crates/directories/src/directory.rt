// What is in the bytes of a directory.
ghost use Rattle.std.specs.Prelude.{◌≡◌, ◌↔◌, position, IsTrue};
ghost use Rattle.directories.specs.Trees.{is_none_down, leads_down, IsEmpty};

use crate::entries::{ENTRY_SIZE, entries_in, has_name, is_free};
use crate::name::Name;

/// The type of a file that is a directory.
pub const DIRECTORY_KIND: u16 = 1;

/// Whether nothing is in a directory of these bytes but its own two entries.
pub fn is_empty(bytes: &[u8]) -> bool
    ensures { IsTrue result ↔ IsEmpty bytes.now }
{
    first_down(entries_in(bytes)).is_none()
}

// The place of the first entry with a name that leads down.
fn first_down(entries: &[[u8; ENTRY_SIZE]]) -> Option<usize>
    ensures { result ≡ position leads_down entries.now }
{
    entries.iter().position(|entry| leads_down(entry))
}

/// Whether an entry is used, and has no directory's name for itself or for its parent.
pub fn leads_down(entry: &[u8; ENTRY_SIZE]) -> bool
    ensures { result ≡ leads_down entry.now }
{
    !is_none_down(entry)
}

// Whether an entry is free, or has a directory's name for itself or for its parent.
fn is_none_down(entry: &[u8; ENTRY_SIZE]) -> bool
    ensures { result ≡ is_none_down entry.now }
{
    is_free(entry) || has_name(entry, &Name::own()) || has_name(entry, &Name::parent())
}
