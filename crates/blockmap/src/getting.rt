// The steps in which a machine is done with a block that it got.
ghost use Rattle.std.specs.Prelude.{◌≡◌, ◌<◌, ◌≤◌, ◌+◌, length, Some, None};
ghost use Rattle.blocks.specs.Block.{block_size};
ghost use Rattle.bcache.specs.Buffers.{buffer};
ghost use Rattle.wal.specs.Joint.{seen};
ghost use Rattle.wal.specs.Machine.{HasRoom, used_by};
ghost use Rattle.wal.specs.Volume.{Holds};
ghost use Rattle.blockmap.specs.Getting.{Releases, Puts, block_at_slot};

use blocks::Disk;
use wal::Volume;

/// Releases the block of a slot that a process holds, as the volume's `release`.
pub fn release_block<D: Disk>(volume: &mut Volume<D>, pid: u32, slot: u32)
    requires fault { volume.old.fault ≡ None }
    requires slot { slot < 40 }
    requires held { (buffer volume.old.buffers slot).holder ≡ Some pid }
    ensures { Releases D.image volume.old pid slot volume.new }
{
    volume.release(pid, slot);
}

/// Writes bytes into the block of a slot that a process holds, from a place in the block on, logs it
/// and releases it: the last step of a machine with a block that it changes.
pub fn put_block<D: Disk>(volume: &mut Volume<D>, pid: u32, slot: u32, at: usize, bytes: &[u8])
    requires fault { volume.old.fault ≡ None }
    requires pid { pid < 32 }
    requires room { HasRoom (used_by volume.old.log pid) }
    requires holds { Holds (seen (D.image volume.old.device) volume.old.buffers)
        volume.old.buffers pid (block_at_slot volume.old slot) slot }
    requires fits { at + length bytes.now ≤ block_size }
    ensures { Puts D.image volume.old pid slot at bytes.now volume.new }
{
    volume.change(pid, slot, at, bytes);
    volume.release(pid, slot);
}
