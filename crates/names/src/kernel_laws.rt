//! What a stop leaves of the directory of a kernel, the contract of a function that does nothing.
ghost use Rattle.names.specs.Stops.{LinksLast};

use blocks::Disk;
use directories::laws::committed_names_lead;
use kernel::Kernel;
use ports::{Herald, Intake};

/// Does nothing: it says what a stop now leaves of a kernel's directory. A name whose link is among
/// the committed groups, and whose entry the later operations of these spare, leads to its file in
/// the recovered image.
pub fn links_last<D: Disk, I: Intake, H: Herald>(kernel: &Kernel<D, I, H>)
    ensures { LinksLast D.Disk kernel.now }
{
    kernel.known();
    committed_names_lead();
}
