// What stands behind the header of a request.
ghost use Rattle.std.specs.Prelude.{◌≡◌};
ghost use Rattle.fuse.specs.Requests.{create_in, directory_in, init_in, link_in, lookup_in, make_directory_in, make_node_in, open_in, read_in, remove_directory_in, rename_by_flags_in, rename_in, set_attributes_in, shown, unlink_in, write_in};

use crate::fields::{read_u32, read_u64};
use crate::names::{read_name, read_names};
use crate::request::Request;

/// Its version, its readahead and its flags.
#[tactic(auto, unfolding(crate::specs::Requests::init_in))]
pub(crate) fn read_init(body: &[u8]) -> Option<Request<'_>>
    ensures { shown result ≡ init_in body.now }
{
    if body.len() < 16 {
        return None;
    }
    Some(Request::Init {
        major: read_u32(body, 0),
        minor: read_u32(body, 4),
        readahead: read_u32(body, 8),
        flags: read_u32(body, 12),
    })
}

/// A name.
#[tactic(auto, unfolding(crate::specs::Requests::lookup_in))]
pub(crate) fn read_lookup(body: &[u8]) -> Option<Request<'_>>
    ensures { shown result ≡ lookup_in body.now }
{
    let name = read_name(body, 0)?;
    Some(Request::Lookup { name })
}

/// A name.
#[tactic(auto, unfolding(crate::specs::Requests::unlink_in))]
pub(crate) fn read_unlink(body: &[u8]) -> Option<Request<'_>>
    ensures { shown result ≡ unlink_in body.now }
{
    let name = read_name(body, 0)?;
    Some(Request::Unlink { name })
}

/// A name.
#[tactic(auto, unfolding(crate::specs::Requests::remove_directory_in))]
pub(crate) fn read_remove_directory(body: &[u8]) -> Option<Request<'_>>
    ensures { shown result ≡ remove_directory_in body.now }
{
    let name = read_name(body, 0)?;
    Some(Request::RemoveDirectory { name })
}

/// What is to be set, and to what.
#[tactic(auto, unfolding(crate::specs::Requests::set_attributes_in))]
pub(crate) fn read_set_attributes(body: &[u8]) -> Option<Request<'_>>
    ensures { shown result ≡ set_attributes_in body.now }
{
    if body.len() < 88 {
        return None;
    }
    Some(Request::SetAttributes {
        valid: read_u32(body, 0),
        size: read_u64(body, 16),
        changed: read_u64(body, 40),
        changed_nanoseconds: read_u32(body, 60),
        mode: read_u32(body, 68),
    })
}

/// A mode, a device and a mask, and a name.
#[tactic(auto, unfolding(crate::specs::Requests::make_node_in))]
pub(crate) fn read_make_node(body: &[u8]) -> Option<Request<'_>>
    ensures { shown result ≡ make_node_in body.now }
{
    if body.len() < 16 {
        return None;
    }
    let name = read_name(body, 16)?;
    Some(Request::MakeNode {
        mode: read_u32(body, 0),
        name,
    })
}

/// A mode and a mask, and a name.
#[tactic(auto, unfolding(crate::specs::Requests::make_directory_in))]
pub(crate) fn read_make_directory(body: &[u8]) -> Option<Request<'_>>
    ensures { shown result ≡ make_directory_in body.now }
{
    if body.len() < 8 {
        return None;
    }
    let name = read_name(body, 8)?;
    Some(Request::MakeDirectory {
        mode: read_u32(body, 0),
        name,
    })
}

/// A directory, and two names.
#[tactic(auto, unfolding(crate::specs::Requests::rename_in))]
pub(crate) fn read_rename(body: &[u8]) -> Option<Request<'_>>
    ensures { shown result ≡ rename_in body.now }
{
    if body.len() < 8 {
        return None;
    }
    let (old, name) = read_names(body, 8)?;
    Some(Request::Rename {
        to: read_u64(body, 0),
        flags: 0,
        old,
        name,
    })
}

/// A directory and flags, and two names.
#[tactic(auto, unfolding(crate::specs::Requests::rename_by_flags_in))]
pub(crate) fn read_rename_by_flags(body: &[u8]) -> Option<Request<'_>>
    ensures { shown result ≡ rename_by_flags_in body.now }
{
    if body.len() < 16 {
        return None;
    }
    let (old, name) = read_names(body, 16)?;
    Some(Request::Rename {
        to: read_u64(body, 0),
        flags: read_u32(body, 8),
        old,
        name,
    })
}

/// The number of a file, and a name.
#[tactic(auto, unfolding(crate::specs::Requests::link_in))]
pub(crate) fn read_link(body: &[u8]) -> Option<Request<'_>>
    ensures { shown result ≡ link_in body.now }
{
    if body.len() < 8 {
        return None;
    }
    let name = read_name(body, 8)?;
    Some(Request::Link {
        node: read_u64(body, 0),
        name,
    })
}

/// Flags.
#[tactic(auto, unfolding(crate::specs::Requests::open_in))]
pub(crate) fn read_open(body: &[u8]) -> Option<Request<'_>>
    ensures { shown result ≡ open_in body.now }
{
    if body.len() < 8 {
        return None;
    }
    Some(Request::Open {
        flags: read_u32(body, 0),
    })
}

/// Flags, a mode and a mask, and a name.
#[tactic(auto, unfolding(crate::specs::Requests::create_in))]
pub(crate) fn read_create(body: &[u8]) -> Option<Request<'_>>
    ensures { shown result ≡ create_in body.now }
{
    if body.len() < 16 {
        return None;
    }
    let name = read_name(body, 16)?;
    Some(Request::Create {
        flags: read_u32(body, 0),
        mode: read_u32(body, 4),
        name,
    })
}

/// A handle, an offset and a size.
#[tactic(auto, unfolding(crate::specs::Requests::read_in))]
pub(crate) fn read_read(body: &[u8]) -> Option<Request<'_>>
    ensures { shown result ≡ read_in body.now }
{
    if body.len() < 40 {
        return None;
    }
    Some(Request::Read {
        offset: read_u64(body, 8),
        size: read_u32(body, 16),
    })
}

/// The same of a directory.
#[tactic(auto, unfolding(crate::specs::Requests::directory_in))]
pub(crate) fn read_directory(body: &[u8], plus: bool) -> Option<Request<'_>>
    ensures { shown result ≡ directory_in plus body.now }
{
    if body.len() < 40 {
        return None;
    }
    Some(Request::ReadDirectory {
        offset: read_u64(body, 8),
        size: read_u32(body, 16),
        plus,
    })
}

/// A handle, an offset and a size, and so many bytes.
#[tactic(auto, unfolding(crate::specs::Requests::write_in))]
pub(crate) fn read_write(body: &[u8]) -> Option<Request<'_>>
    ensures { shown result ≡ write_in body.now }
{
    if body.len() < 40 {
        return None;
    }
    let size = read_u32(body, 16) as usize;
    if body.len() - 40 < size {
        return None;
    }
    Some(Request::Write {
        offset: read_u64(body, 8),
        bytes: &body[40..40 + size],
    })
}
