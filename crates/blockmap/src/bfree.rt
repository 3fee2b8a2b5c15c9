// A block is freed.
ghost use Rattle.std.specs.Prelude.{◌≡◌, ◌<◌, None};
ghost use Rattle.model.specs.Format.{bits_per_block};
ghost use Rattle.wal.specs.Joint.{seen};
ghost use Rattle.wal.specs.Machine.{HasRoom, used_by};
ghost use Rattle.wal.specs.Volume.{Holds};
ghost use Rattle.blockmap.specs.Bfree.{FreesBlock, byte_without};
ghost use Rattle.blockmap.specs.Getting.{block_at_slot};

use crate::put_block;
use blocks::{Block, Disk};
use wal::Volume;

/// Frees a block (`bfree`; the xv6 book, the chapter "File system": "Code: Block allocator"): its
/// bit is cleared in the bitmap's block, which that slot holds, and that is logged and released.
pub fn free_block<D: Disk>(volume: &mut Volume<D>, pid: u32, slot: u32, block: u32)
    requires fault { volume.old.fault ≡ None }
    requires pid { pid < 32 }
    requires room { HasRoom (used_by volume.old.log pid) }
    requires holds { Holds (seen (D.image volume.old.device) volume.old.buffers)
        volume.old.buffers pid (block_at_slot volume.old slot) slot }
    requires bit { block < bits_per_block }
    ensures { FreesBlock D.Disk volume.old pid slot (block_at_slot volume.old slot) block
        volume.new }
{
    let byte = byte_without(volume.data(slot), block);
    put_block(volume, pid, slot, (block / 8) as usize, &[byte]);
}

// The byte in which a block's bit stands, with that bit cleared.
fn byte_without(bits: &Block, block: u32) -> u8
    requires { block < bits_per_block }
    ensures { result ≡ byte_without bits.now block }
{
    bits.as_slice()[(block / 8) as usize] & !(1 << (block % 8))
}
