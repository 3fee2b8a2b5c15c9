// What brings an image to its device.
ghost use Rattle.std.specs.Prelude.{◌≡◌, ◌-◌, ◌^◌, true, false, not, IfSome, OnOk};
ghost use Rattle.fuse.specs.Answers.{answer_header_bytes};
ghost use Rattle.fuse.specs.Requests.{header_in};

use fuse::{HEADER_SIZE, Request, answer_header, read_header, read_request};
use std::alloc::AllocError;
use std::fs::OpenFile;

// The number of an error of input and output.
const EIO: u32 = 5;

/// What syncs the file of an image.
#[derive(Drop)]
pub struct Device<F> {
    // None where nothing has to be brought there.
    file: Option<F>,
    // A sync failed.
    lost: bool,
}

impl<F: OpenFile> Device<F> {
    /// Over another handle of an image's file.
    pub fn of(file: F) -> Device<F>
        ensures { result.lost ≡ false }
    {
        Device {
            file: Some(file),
            lost: false,
        }
    }

    /// For an image of which nothing has to be brought to a device.
    pub fn nowhere() -> Device<F>
        ensures { result.lost ≡ false }
    {
        Device {
            file: None,
            lost: false,
        }
    }

    /// Syncs the file. Whether all that was written to it is on its device. Behind a sync that failed
    /// this is never so: the system may have given up what it held.
    pub fn is_synced(&mut self) -> bool
        ensures told { result ≡ not self.new.lost }
        ensures lost { self.old.lost ≡ true → self.new.lost ≡ true }
    {
        if let Some(file) = &self.file {
            if file.sync_data().is_err() {
                self.lost = true;
            }
        }
        !self.lost
    }
}

/// The number of a request that asks for a sync; none of any other.
pub fn sync_asked(request: &[u8]) -> Option<u64>
    ensures { IfSome result (λ unique. unique ≡ (header_in request.now).unique) }
{
    let header = read_header(request)?;
    match read_request(header.opcode, &request[HEADER_SIZE..]) {
        Some(Request::Sync) => Some(header.unique),
        _ => None,
    }
}

/// Puts in place of an answer that the request of this number failed by an error of input and output.
///
/// # Errors
///
/// `AllocError` where memory is refused.
pub fn put_unsynced(unique: u64, answer: &mut Vec<u8>) -> Result<(), AllocError>
    ensures { OnOk result (answer.new.items ≡ answer_header_bytes 16 (2 ^ 32 - 5) unique) }
{
    answer.clear();
    answer.extend_from_slice(&answer_header(16, 0u32.wrapping_sub(EIO), unique))
}
