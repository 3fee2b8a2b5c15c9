// What is read of an older image before anything of it is moved.
ghost use Rattle.std.specs.Prelude.{◌≡◌, ◌≤◌, ◌<◌, ◌&&◌, IfErr, IfOk, OnOk, length, nat_le, true};
ghost use Rattle.blocks.specs.Calls.{OnlyReads};
ghost use Rattle.blocks.specs.Disk.{CountsFault};
ghost use Rattle.model.specs.Format.{log_blocks, most_blocks};
ghost use Rattle.model.specs.Log.{logged_count};
ghost use Rattle.conversion.specs.Converted.{IsUnmoved};
ghost use Rattle.conversion.specs.Moving.{goal_in};
ghost use Rattle.conversion.specs.Older.{is_log_length};
ghost use Rattle.conversion.specs.Prepared.{IsNotOlder, IsOlder, IsPlanOf};

use crate::fault::ConversionFault;
use crate::geometry::is_older;
use blocks::{Block, Disk, DiskFault};
use layout::fields::read_u32;
use layout::{LOG_START, MOST_BLOCKS, superblock};
use model::types::{Form, Super};

/// What is moved, and where to.
#[derive(Clone, Copy)]
pub(crate) struct Plan {
    /// The superblock of the old image.
    pub(crate) sup: Super,
    /// The blocks of the new image's log.
    pub(crate) to: u32,
    /// The blocks of the new image.
    pub(crate) size: u32,
}

/// Reads the superblock and the log's header, and judges them and the size that is asked for. The block
/// is room for both: what it holds afterwards is not said.
pub(crate) fn read_plan<D: Disk>(
    old: &mut D,
    to: u32,
    asked: Option<u32>,
    block: &mut Block,
) -> Result<Plan, ConversionFault>
    requires log { is_log_length to ≡ true }
    ensures plan { IfOk result (IsPlanOf (D.image old.old) to asked) }
    ensures refused { IfErr result (IsUnmoved (D.image old.old) to asked
        (D.fault_count old.old) (D.fault_count old.new)) }
    ensures reads { OnlyReads D.Disk old.old old.new }
    ensures faults { OnOk result (D.fault_count old.new ≡ D.fault_count old.old) }
{
    if old.size() < 2 {
        return Err(ConversionFault::BadGeometry);
    }
    let sup = read_older(old, block)?;
    let logged = read_logged(old, block)?;
    if logged != 0 {
        return Err(ConversionFault::Logged(logged));
    }
    let size = asked.unwrap_or(least_size(&sup, to));
    if !is_room(&sup, to, size) {
        return Err(ConversionFault::SizeRange);
    }
    Ok(Plan { sup, to, size })
}

// The size of the new image that has no more blocks than the old one, but for the log.
fn least_size(sup: &Super, to: u32) -> u32
    requires small { sup.now.size ≤ 8191 }
    requires to { to ≤ log_blocks }
    requires lawful { sup.now.nlog ≤ sup.now.size }
    ensures { result ≡ goal_in sup.now to sup.now.size }
{
    sup.size + to - sup.nlog
}

// Whether the size has room for the blocks that there are, and an image may have it.
fn is_room(sup: &Super, to: u32, size: u32) -> bool
    requires small { sup.now.size ≤ 8191 }
    requires to { to ≤ log_blocks }
    requires lawful { sup.now.nlog ≤ sup.now.size }
    ensures { result ≡ (nat_le (goal_in sup.now to sup.now.size) size && nat_le size most_blocks) }
{
    least_size(sup, to) <= size && size <= MOST_BLOCKS
}

// Reads the superblock, and judges it.
fn read_older<D: Disk>(old: &mut D, block: &mut Block) -> Result<Super, ConversionFault>
    requires { 2 ≤ length (D.image old.old) }
    ensures older { IfOk result (IsOlder (D.image old.old)) }
    ensures refused { IfErr result (IsNotOlder (D.image old.old)
        (D.fault_count old.old) (D.fault_count old.new)) }
    ensures reads { OnlyReads D.Disk old.old old.new }
    ensures faults { OnOk result (D.fault_count old.new ≡ D.fault_count old.old) }
{
    old.read(1, block)?;
    if superblock::magic(block.as_slice()) != superblock::magic_of(Form::One) {
        return Err(ConversionFault::BadMagic);
    }
    let sup = superblock::read(block.as_slice());
    if !is_older(&sup, old.size()) {
        return Err(ConversionFault::BadGeometry);
    }
    Ok(sup)
}

// How many blocks the log's header says are logged.
fn read_logged<D: Disk>(old: &mut D, block: &mut Block) -> Result<u32, DiskFault>
    requires { 2 < length (D.image old.old) }
    ensures count { IfOk result (λ count. count ≡ logged_count (D.image old.old)) }
    ensures fault { IfErr result (λ fault. fault.0 < length (D.image old.old)) }
    ensures reads { OnlyReads D.Disk old.old old.new }
    ensures faults { CountsFault result (D.fault_count old.old) (D.fault_count old.new) }
{
    old.read(LOG_START, block)?;
    Ok(read_u32(block.as_slice(), 0))
}
