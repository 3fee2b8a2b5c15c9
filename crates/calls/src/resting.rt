// What is known of a kernel between two calls.
ghost use Rattle.calls.specs.Calls.{LeavesFiles, Rests};

use crate::calling::Sole;
use blocks::Disk;

/// Does nothing: it says what a stop leaves between two calls. Recovery gives a sound image with the
/// files that are on the disk.
pub fn rested<D: Disk>(kernel: &Sole<D>)
    requires { Rests D.fault_count kernel.now }
    ensures { LeavesFiles D.Disk kernel.now kernel.now }
{
    kernel.known();
}
