// What a replay's disk had as it was opened.
ghost use Rattle.std.specs.Prelude.{◌≡◌, IfOk};
ghost use Rattle.commands.specs.Copied.{memory};
ghost use Rattle.commands_runs.specs.Images.{opened_image};

use blocks::{MemDisk, NoMemory};
use commands::Copied;
use crash_check::new_image;
use std::alloc::Global;

/// The blocks of a disk as it was opened.
#[derive(Drop)]
pub enum Opened {
    /// Those of a disk that were copied.
    Copied(Copied),
    /// Those of the new image over which a script is tried at its stops.
    New,
}

// A disk in memory with these blocks.
pub fn disk_of(alloc: Global, opened: &Opened) -> Result<MemDisk, NoMemory>
    ensures { IfOk result (λ disk. memory.image disk ≡ opened_image opened.now) }
{
    match opened {
        Opened::Copied(copied) => copied.disk(alloc),
        Opened::New => new_image(alloc),
    }
}
