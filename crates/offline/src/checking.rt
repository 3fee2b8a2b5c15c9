// Whether an image is sound once its log is copied home, in one pass: each block that is needed is
// read once.
ghost use Rattle.std.specs.Prelude.{◌≡◌, ◌≤◌, ◌<◌, ◌+◌, ◌↔◌, [], length, ◌-◌, IsTrue, OnOk, IfOk, IfErr, None};
ghost use Rattle.blocks.specs.Calls.{OnlyReads};
ghost use Rattle.blocks.specs.Disk.{block_at, CountsFault};
ghost use Rattle.model.specs.Layout.{meta_count, inode_of, inode_count_of, inode_block, greatest_size};
ghost use Rattle.model.specs.Log.{recovered};
ghost use Rattle.model.specs.Verdict.{verdict, places_below};
ghost use Rattle.offline.specs.Cause.{IsCause, KeepsFaults};
ghost use Rattle.offline.specs.Owners.{Stand, SameLimits, JudgesInode, JudgesInodes};
ghost use Rattle.offline.specs.Check.{IsReportOf, IsGround, JudgesContents, MayJudge, MayLoad};
ghost use Rattle.offline.specs.Recovered.{IsRecoveredOf};

use crate::owners::Owners;
use crate::recovered::Recovered;
use crate::walking::take_pointers;
use blocks::{Block, Disk, DiskFault};
use layout::{INODES_PER_BLOCK, greatest_size, inode, inode_block, meta_count};
use model::types::{CheckFault, Dinode, Form, Super};
use std::alloc::Global;

/// What a check found.
#[derive(Clone, Copy)]
pub struct Report {
    /// The superblock.
    pub sup: Super,
    /// The form that its magic number tells.
    pub form: Form,
    /// Blocks that the log's header says are logged.
    pub logged: u32,
    /// Files, once these blocks are copied home.
    pub files: u32,
}

// Whether a file of that many bytes is larger than any of that form may be.
pub(crate) fn is_too_large(size: u32, form: Form) -> bool
    ensures { IsTrue result ↔ (greatest_size form < size) }
{
    size > greatest_size(form)
}

// Judges inode i. True where it is used.
fn check_inode<D: Disk>(
    disk: &mut D,
    image: &Recovered,
    owners: &mut Owners,
    entries: &mut Block,
    i: u32,
    inode: &Dinode,
) -> Result<bool, CheckFault>
    requires judging { MayJudge (D.image disk.old) image.now owners.old }
    requires some { 1 ≤ i }
    requires inode { inode.now ≡ inode_of (recovered (D.image disk.old)) i }
    requires addresses { length inode.now.addrs ≡ 13 }
    ensures reads { OnlyReads D.Disk disk.old disk.new }
    ensures faults { KeepsFaults result (D.fault_count disk.old) (D.fault_count disk.new) }
    ensures limits { SameLimits owners.old owners.new }
    ensures judged { Stand owners.old (recovered (D.image disk.old))
        (places_below (recovered (D.image disk.old)) i) →
        JudgesInode (recovered (D.image disk.old)) i
        (D.fault_count disk.old) (D.fault_count disk.new) owners.new result }
{
    if inode.kind > 3 {
        return Err(CheckFault::BadType(i));
    }
    if inode.kind == 0 {
        return Ok(false);
    }
    if is_too_large(inode.size, image.form) {
        return Err(CheckFault::BadSize(i));
    }
    take_pointers(disk, image, entries, owners, i, inode)?;
    Ok(true)
}

// Reads inode i, whose block is there unless i is the first in it.
#[tactic(auto, unfolding(model::specs::Layout::inode_of))]
pub(crate) fn load_inode<D: Disk>(
    disk: &mut D,
    image: &Recovered,
    block: &mut Block,
    i: u32,
) -> Result<Dinode, DiskFault>
    requires recovered { IsRecoveredOf (D.image disk.old) image.now }
    requires load { MayLoad (D.image disk.old) block.old i }
    ensures reads { OnlyReads D.Disk disk.old disk.new }
    ensures faults { CountsFault result (D.fault_count disk.old) (D.fault_count disk.new) }
    ensures block { OnOk result
        (block.new ≡ block_at (recovered (D.image disk.old)) (inode_block i)) }
    ensures inode { IfOk result (λ inode. inode ≡ inode_of (recovered (D.image disk.old)) i) }
    ensures addresses { IfOk result (λ inode. length inode.addrs ≡ 13) }
{
    if i > 1 && i % INODES_PER_BLOCK != 0 {
        return Ok(inode::read_at(block, i));
    }
    image.block(disk, inode_block(i), block)?;
    Ok(inode::read_at(block, i))
}

// Reads inode i and judges it. True where it is used.
fn next_inode<D: Disk>(
    disk: &mut D,
    image: &Recovered,
    owners: &mut Owners,
    block: &mut Block,
    entries: &mut Block,
    i: u32,
) -> Result<bool, CheckFault>
    requires judging { MayJudge (D.image disk.old) image.now owners.old }
    requires some { 1 ≤ i }
    requires load { MayLoad (D.image disk.old) block.old i }
    ensures reads { OnlyReads D.Disk disk.old disk.new }
    ensures faults { KeepsFaults result (D.fault_count disk.old) (D.fault_count disk.new) }
    ensures limits { SameLimits owners.old owners.new }
    ensures block { OnOk result
        (block.new ≡ block_at (recovered (D.image disk.old)) (inode_block i)) }
    ensures judged { Stand owners.old (recovered (D.image disk.old))
        (places_below (recovered (D.image disk.old)) i) →
        JudgesInode (recovered (D.image disk.old)) i
        (D.fault_count disk.old) (D.fault_count disk.new) owners.new result }
{
    let inode = load_inode(disk, image, block, i)?;
    check_inode(disk, image, owners, entries, i, &inode)
}

// Judges all inodes. How many of them are used.
fn check_inodes<D: Disk>(
    disk: &mut D,
    image: &Recovered,
    owners: &mut Owners,
    block: &mut Block,
    entries: &mut Block,
    ninodes: u32,
) -> Result<u32, CheckFault>
    requires judging { MayJudge (D.image disk.old) image.now owners.old }
    requires count { ninodes ≡ inode_count_of (recovered (D.image disk.old)) }
    requires some { 2 ≤ ninodes }
    requires inside { inode_block ninodes < length (D.image disk.old) }
    ensures reads { OnlyReads D.Disk disk.old disk.new }
    ensures faults { KeepsFaults result (D.fault_count disk.old) (D.fault_count disk.new) }
    ensures limits { SameLimits owners.old owners.new }
    ensures judged { Stand owners.old (recovered (D.image disk.old)) [] →
        JudgesInodes (recovered (D.image disk.old))
        (D.fault_count disk.old) (D.fault_count disk.new) owners.new result }
{
    let mut files = 0;
    for i in 1..ninodes {
        if next_inode(disk, image, owners, block, entries, i)? {
            files += 1;
        }
    }
    Ok(files)
}

// Judges inodes and bitmap. How many files there are.
fn check_contents<D: Disk>(
    alloc: Global,
    disk: &mut D,
    image: &Recovered,
    block: &mut Block,
) -> Result<u32, CheckFault>
    requires ground { IsGround (D.image disk.old) image.now.sup image.now.form }
    requires recovered { IsRecoveredOf (D.image disk.old) image.now }
    ensures reads { OnlyReads D.Disk disk.old disk.new }
    ensures faults { KeepsFaults result (D.fault_count disk.old) (D.fault_count disk.new) }
    ensures judged { JudgesContents (recovered (D.image disk.old))
        (D.fault_count disk.old) (D.fault_count disk.new) result }
{
    let mut entries = Block::zeroed(alloc)?;
    let mut bitmap = Block::zeroed(alloc)?;
    let sup = &image.sup;
    image.block(disk, sup.bmapstart, &mut bitmap)?;
    let first_data = meta_count(sup.size, sup.ninodes);
    let mut owners = Owners::new(alloc, first_data, sup.size, bitmap)?;
    let ninodes = sup.ninodes;
    let files = check_inodes(disk, image, &mut owners, block, &mut entries, ninodes)?;
    owners.check_marks()?;
    Ok(files)
}

/// Checks the image of a disk, and writes nothing. `Ok` says that its superblock and its log are
/// lawful and that the image which recovery would leave is sound. Else the fault is the image's
/// first, in the order of `CheckFault`'s variants, but for these two:
///
/// - `Disk`: a read failed.
/// - `NoMemory`: memory was refused; the check needs three blocks and one byte for each block of
///   the image.
///
/// (The format is that of the xv6 book, the chapter "File system".)
pub fn check<D: Disk>(alloc: Global, disk: &mut D) -> Result<Report, CheckFault>
    ensures ok { OnOk result (verdict (D.image disk.old) ≡ None) }
    ensures report { IfOk result (λ report. IsReportOf (D.image disk.old) report) }
    ensures fault { IfErr result (λ fault. IsCause (verdict (D.image disk.old))
        (D.fault_count disk.old) (D.fault_count disk.new) fault) }

    // nothing is written
    ensures reads { OnlyReads D.Disk disk.old disk.new }
    ensures faults { KeepsFaults result (D.fault_count disk.old) (D.fault_count disk.new) }
{
    if disk.size() < 2 {
        return Err(CheckFault::BadGeometry);
    }
    let mut block = Block::zeroed(alloc)?;
    let image = Recovered::open(disk, &mut block)?;
    let files = check_contents(alloc, disk, &image, &mut block)?;
    Ok(Report {
        sup: image.sup,
        form: image.form,
        logged: image.header.n,
        files,
    })
}
