// A file's bytes put into an image, the one way or the other.
ghost use Rattle.std.specs.Prelude.{◌≡◌, IfErr, OnOk, None};
ghost use Rattle.model.specs.Verdict.{verdict};
ghost use Rattle.transfer.specs.Putting.{IsPut, IsUnput};
ghost use Rattle.transfer.specs.Stopped.{StopsPut};

use crate::putting::put_long;
use crate::refused::PutRefusal;
use crate::whole::put_few;
use blocks::Disk;
use messages::Meter;
use model::types::TRANSFER_LIMIT;
use std::alloc::Global;
use std::io::Write;

/// Puts bytes into the image of a disk, and prints the number of their file: they take the place of
/// those of the plain file of this number, of type 2, or are those of a new one at the lowest free
/// number. The image is checked and recovered first, and with `sync` the disk is synced at the end.
///
/// Bytes that one write moves, 3072 at most, are put in one transaction (the xv6 book, the chapter
/// "File system": "Logging layer"): whole or not at all. A stop at any moment leaves, once recovered, the
/// files as they were, or with all of the bytes; of a disk that held writes back at the start, a stop
/// since the sync with which the recovery began. What no file shows stays, as in `calls::call`.
///
/// More bytes are put in several transactions, with at most two writes each. So a stop, as above, leaves
/// the files as they were, or with the old file, or a new one, in which the first of the bytes stand.
/// Over a file there is
/// a way round, where the free blocks have room for both and a number is free: the bytes go into a new
/// file first, all of them, and it is removed once the old one has them, too. So whatever a stop leaves,
/// the old bytes are there or the new ones, at the number of the old file or at another. Else the old
/// bytes are given up first.
///
/// The meter is told how many of the bytes were put, for each of two files anew. Hands the disk back.
///
/// # Errors
///
/// `Check` with a fault of the image or of its check, or with `Disk` where a read behind the check
/// failed. `NoFile` where there is no file of that number, `NotAFile` where that has another type than
/// 2, `TooBig` where a file of the image's form
/// can't have so many bytes, `Full` where they need more blocks than are free or needed by the old
/// file, and `NoMemory`. With these the disk was only read.
///
/// `Unopened` with a fault of the kernel's opening. Then `NoInode` where each number is taken: the
/// files are as before. `Full` where no block is free for all bytes after all: of 3072 bytes at most
/// nothing is put, and the image is as recovery left it; of more a new file was removed again, an old
/// one keeps the first of the bytes, and where there was a way round, a new one beside it keeps all.
/// `NoMemory`: the files are as before, or of more bytes the first are put, as a stop
/// leaves them. `Disk` with the disk's fault, that of a call's step, or that of the sync where the
/// bytes were put. With all these nothing was
/// printed. `Output`: the bytes are put, and the disk is synced as above.
pub fn put_disk<D: Disk + Drop, P: Meter, O: Write>(
    alloc: Global,
    disk: D,
    bytes: &[u8],
    inum: Option<u32>,
    sync: bool,
    progress: &mut P,
    out: &mut O,
) -> (Result<(), PutRefusal>, D)
    ensures put { OnOk result.0 (IsPut D.Disk inum bytes.now sync disk result.1
        (O.contents out.old) (O.contents out.new)) }
    ensures refused { IfErr result.0 (IsUnput D.Disk inum bytes.now sync disk result.1
        (out.new ≡ out.old)) }
    ensures leaves { verdict (D.image disk) ≡ None
        → StopsPut D.Disk inum bytes.now disk result.1 }
    ensures name { D.name result.1 ≡ D.name disk }
{
    if bytes.len() <= TRANSFER_LIMIT as usize {
        put_few(alloc, disk, bytes, inum, sync, progress, out)
    } else {
        put_long(alloc, disk, bytes, inum, sync, progress, out)
    }
}
