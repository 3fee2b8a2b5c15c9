// All faults of an image, in one pass over what recovery would leave.
ghost use Rattle.std.specs.Prelude.{◌≡◌, ◌≢◌, ◌≤◌, ◌<◌, ◌∷◌, ◌++◌, [], length, None, OnErr, OnOk, IfOk};
ghost use Rattle.blocks.specs.Calls.{OnlyReads};
ghost use Rattle.blocks.specs.Disk.{Image};
ghost use Rattle.model.specs.Faults.{faults, inodes_faults, marks_faults};
ghost use Rattle.model.specs.Layout.{inode_of, inode_count_of, inode_block};
ghost use Rattle.model.specs.Log.{recovered};
ghost use Rattle.model.specs.Places.{places_of};
ghost use Rattle.model.specs.Verdict.{places_below};
ghost use Rattle.offline.specs.Cause.{GoesThrough};
ghost use Rattle.offline.specs.Check.{IsGround, MayJudge};
ghost use Rattle.offline.specs.Hearing.{HearsFirst, TellsAll, TellsAlone};
ghost use Rattle.offline.specs.Notes.{NotesInode, NotesInodes, early_fault};
ghost use Rattle.offline.specs.Owners.{SameLimits, Stand};
ghost use Rattle.offline.specs.Recovered.{IsRecoveredOf};

use crate::checking::{is_too_large, load_inode};
use crate::hearing::HearsFaults;
use crate::notes::{Owner, note_list, tell_if_some};
use crate::owners::Owners;
use crate::pointers::read_pointers;
use crate::recovered::Recovered;
use blocks::{Block, Disk};
use layout::meta_count;
use model::types::{CheckFault, Dinode, Form};
use std::alloc::Global;

// The fault of a used inode for which its pointers aren't judged.
pub(crate) fn early_fault(i: u32, inode: &Dinode, form: Form) -> Option<CheckFault>
    ensures { result ≡ early_fault i inode.now form }
{
    if inode.kind > 3 {
        return Some(CheckFault::BadType(i));
    }
    if is_too_large(inode.size, form) {
        return Some(CheckFault::BadSize(i));
    }
    None
}

// Notes inode i, and tells its faults; a beginning of these where a read fails or memory is refused.
fn note_inode<D: Disk, H: HearsFaults>(
    alloc: Global,
    disk: &mut D,
    image: &Recovered,
    owners: &mut Owners,
    entries: &mut Block,
    hearer: &mut H,
    i: u32,
    inode: &Dinode,
) -> Result<(), CheckFault>
    requires judging { MayJudge (D.image disk.old) image.now owners.old }
    requires some { 1 ≤ i }
    requires inode { inode.now ≡ inode_of (recovered (D.image disk.old)) i }
    requires addresses { length inode.now.addrs ≡ 13 }
    ensures reads { OnlyReads D.Disk disk.old disk.new }
    ensures counts { GoesThrough result (D.fault_count disk.old) (D.fault_count disk.new) }
    ensures limits { SameLimits owners.old owners.new }
    ensures noted { Stand owners.old (recovered (D.image disk.old))
        (places_below (recovered (D.image disk.old)) i) → NotesInode H.hears
        (recovered (D.image disk.old)) i owners.new hearer.old hearer.new result }
{
    if inode.kind == 0 {
        return Ok(());
    }
    let fault = early_fault(i, inode, image.form);
    tell_if_some(hearer, fault);
    let owner = Owner {
        number: i,
        is_judged: fault.is_none(),
    };
    let list = read_pointers(alloc, disk, image, entries, i, inode)?;
    note_list(owners, hearer, owner, &list);
    Ok(())
}

// Notes all inodes, and tells their faults; a beginning of these where it breaks off.
fn note_inodes<D: Disk, H: HearsFaults>(
    alloc: Global,
    disk: &mut D,
    image: &Recovered,
    owners: &mut Owners,
    block: &mut Block,
    entries: &mut Block,
    hearer: &mut H,
    ninodes: u32,
) -> Result<(), CheckFault>
    requires judging { MayJudge (D.image disk.old) image.now owners.old }
    requires count { ninodes ≡ inode_count_of (recovered (D.image disk.old)) }
    requires some { 2 ≤ ninodes }
    requires inside { inode_block ninodes < length (D.image disk.old) }
    ensures reads { OnlyReads D.Disk disk.old disk.new }
    ensures counts { GoesThrough result (D.fault_count disk.old) (D.fault_count disk.new) }
    ensures limits { SameLimits owners.old owners.new }
    ensures noted { Stand owners.old (recovered (D.image disk.old)) [] → NotesInodes H.hears
        (recovered (D.image disk.old)) owners.new hearer.old hearer.new result }
{
    for i in 1..ninodes {
        let inode = load_inode(disk, image, block, i)?;
        note_inode(alloc, disk, image, owners, entries, hearer, i, &inode)?;
    }
    Ok(())
}

// Tells the faults of the bitmap, once all places are noted.
fn note_marks<H: HearsFaults>(owners: &Owners, hearer: &mut H)
    ensures { (y : Image) → Stand owners.now y (places_of y) →
        H.hears hearer.old (marks_faults y) hearer.new }
{
    for b in 0..owners.size {
        tell_if_some(hearer, owners.mark_fault(b));
    }
}

// The table of an image's blocks, none of them owned yet.
fn new_owners<D: Disk>(alloc: Global, disk: &mut D, image: &Recovered) -> Result<Owners, CheckFault>
    requires ground { IsGround (D.image disk.old) image.now.sup image.now.form }
    requires recovered { IsRecoveredOf (D.image disk.old) image.now }
    ensures judging { IfOk result (MayJudge (D.image disk.old) image.now) }
    ensures stand { IfOk result (λ owners. Stand owners (recovered (D.image disk.old)) []) }
    ensures reads { OnlyReads D.Disk disk.old disk.new }
    ensures counts { GoesThrough result (D.fault_count disk.old) (D.fault_count disk.new) }
{
    let mut bitmap = Block::zeroed(alloc)?;
    let sup = &image.sup;
    image.block(disk, sup.bmapstart, &mut bitmap)?;
    let first_data = meta_count(sup.size, sup.ninodes);
    Ok(Owners::new(alloc, first_data, sup.size, bitmap)?)
}

// Tells the faults of inodes and bitmap.
fn tell_contents<D: Disk, H: HearsFaults>(
    alloc: Global,
    disk: &mut D,
    image: &Recovered,
    block: &mut Block,
    hearer: &mut H,
) -> Result<(), CheckFault>
    requires ground { IsGround (D.image disk.old) image.now.sup image.now.form }
    requires recovered { IsRecoveredOf (D.image disk.old) image.now }
    ensures told { TellsAll H.hears (inodes_faults (recovered (D.image disk.old))
        ++ marks_faults (recovered (D.image disk.old))) hearer.old hearer.new result }
    ensures reads { OnlyReads D.Disk disk.old disk.new }
    ensures counts { GoesThrough result (D.fault_count disk.old) (D.fault_count disk.new) }
{
    let mut entries = Block::zeroed(alloc)?;
    let mut owners = new_owners(alloc, disk, image)?;
    let ninodes = image.sup.ninodes;
    note_inodes(
        alloc,
        disk,
        image,
        &mut owners,
        block,
        &mut entries,
        hearer,
        ninodes,
    )?;
    note_marks(&owners, hearer);
    Ok(())
}

// Tells the fault for which no image was opened, which then stands alone, unless the disk failed.
fn tell_alone<H: HearsFaults>(hearer: &mut H, fault: CheckFault) -> Result<(), CheckFault>
    ensures { TellsAlone H.hears fault hearer.old hearer.new result }
{
    match fault {
        CheckFault::Disk => Err(CheckFault::Disk),
        fault => {
            hearer.hear(fault);
            Ok(())
        }
    }
}

/// Tells all faults of a disk's image, one by one as it walks over the image, in the order in which
/// `check` meets them; none where it is sound. It writes nothing, and keeps no list. A fault of the
/// superblock or of the log stands alone. An inode of another type or size than there are has that
/// fault alone; its blocks are still at a place of it. A block at more places than one is told at
/// each but the first.
///
/// # Errors
///
/// The faults that were told by then are a beginning of the image's.
///
/// - `Disk`: a read failed.
/// - `NoMemory`: memory was refused. It needs three blocks, one byte for each block of the image, and
///   room for the addresses of one inode.
pub fn check_all<D: Disk, H: HearsFaults>(
    alloc: Global,
    disk: &mut D,
    hearer: &mut H,
) -> Result<(), CheckFault>
    ensures heard { OnOk result (H.hears hearer.old (faults (D.image disk.old)) hearer.new) }
    ensures broken { OnErr result
        (HearsFirst H.hears (faults (D.image disk.old)) hearer.old hearer.new) }

    // nothing is written
    ensures reads { OnlyReads D.Disk disk.old disk.new }
    ensures counts { GoesThrough result (D.fault_count disk.old) (D.fault_count disk.new) }
{
    if disk.size() < 2 {
        hearer.hear(CheckFault::BadGeometry);
        return Ok(());
    }
    let mut block = Block::zeroed(alloc)?;
    match Recovered::open(disk, &mut block) {
        Ok(image) => tell_contents(alloc, disk, &image, &mut block, hearer),
        Err(fault) => tell_alone(hearer, fault),
    }
}
