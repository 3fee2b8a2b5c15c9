// What is known between two transactions, and the end of a kernel.
ghost use Rattle.std.specs.Prelude.{◌≡◌, None};
ghost use Rattle.calls.specs.Calls.{LeavesFiles, image_on};
ghost use Rattle.model.specs.Verdict.{verdict};
ghost use Rattle.calls.specs.Transactions.{IsInside, IsLabelled, KeepsFiles, Rests};

use crate::transactions::beginning::Pair;
use blocks::Disk;

/// Does nothing: it says what a stop leaves between two transactions. Recovery gives a sound image
/// with the files that are on the disk.
pub fn rested<D: Disk>(kernel: &Pair<D>)
    requires { Rests D.fault_count kernel.now }
    ensures { LeavesFiles D.Disk kernel.now kernel.now }
{
    kernel.known();
}

/// Does nothing: it says what a stop leaves in the midst of a transaction. Recovery gives a sound image
/// with the files that were on the disk before it.
pub fn still<D: Disk>(kernel: &Pair<D>)
    requires { IsInside D.fault_count kernel.now }
    ensures { LeavesFiles D.Disk kernel.now kernel.now }
{
    kernel.known();
}

/// Does nothing: it says which labels (major and minor) the files on the disk have between two transactions:
/// those that they had at the opening, or (0, 0) where they were made since.
pub fn labelled<D: Disk>(kernel: &Pair<D>)
    ensures { Rests D.fault_count kernel.now
        → IsLabelled D.image kernel.now (image_on D.image kernel.now) }
{
    kernel.known();
}

/// Gives a transaction up, or what a refusal left of one: nothing of it was written, unless the disk
/// failed in its commit. The disk may be opened again. One that is given up in the midst of a
/// transaction has the files that were on it, for `begin` and `call` leave its image.
pub fn abandon<D: Disk>(kernel: Pair<D>) -> D
    ensures disk { result ≡ kernel.store.volume.device }
    ensures opens { verdict (D.image result) ≡ None }
    ensures keeps { IsInside D.fault_count kernel
        → KeepsFiles (image_on D.image kernel) (D.image result) }
{
    kernel.known();
    kernel.into_disk()
}
