// A copy of a file within the image of a disk.
ghost use Rattle.std.specs.Prelude.{◌≡◌, ◌<◌, IfErr, IfOk, IsTrue, OnErr, OnOk};
ghost use Rattle.messages.specs.Telling.{telling_of};
ghost use Rattle.model.specs.Operations.{transfer_limit};
ghost use Rattle.tree_changes.specs.Changes.{HasChanged, HasNotChanged, StopsChange};
ghost use Rattle.tree_changes.specs.Copying.{asked_by, HasCopied, HasNotCopied, IsJudged, IsNotReady, IsPlannedOn};
ghost use Rattle.tree_changes.specs.Puts.{IsUnputAt, Puts, PutsSome};
ghost use Rattle.tree_changes.specs.Room.{LacksRoom};
ghost use Rattle.tree_changes.specs.Tellings.{copy_telling, uncopied_telling};

use crate::faults::ChangeRefusal;
use crate::over_tree::change_disk;
use crate::puts::Put;
use crate::room::judge_room;
use blocks::Disk;
use cmd::DiskCommand;
use messages::{Reason, Told};
use model::types::TRANSFER_LIMIT;
use std::alloc::Global;
use std::io::Write;
use tree_looks::{CopyFault, CopyPlan, plan_copy};

/// Copies a file of bytes of a disk, as recovery would leave it: to a path, or, where that leads to a
/// directory, under the file's own name in it. The bytes are put as by `Put`, in place of those of a file
/// that is there, and the copy's number is printed. It is refused where the file is a directory or a
/// device, or the copy would be put in place of one, or of the file itself.
#[derive(Clone, Copy, Drop)]
pub struct CopyOver<'a> {
    /// The file's path, from the root.
    pub from: &'a str,
    /// The path of the copy, or of a directory.
    pub to: &'a str,
    /// Whether it is judged first that more bytes than one call writes have room.
    pub judges: bool,
    /// Whether the disk is synced at the end.
    pub last: bool,
}

/// Why a file of a disk isn't copied.
#[derive(Clone, Copy, Debug)]
pub enum CopyRefusal {
    /// The files can't be had, or the paths lead to no two such files. The disk was only read.
    Unplanned(CopyFault),
    /// The bytes have no room. The disk was only read.
    NoRoom(ChangeRefusal),
    /// The bytes are not put, or the number is not printed.
    Of(ChangeRefusal),
}

impl Reason for CopyRefusal {
    ghost telling = { copy_telling };

    fn told(&self) -> Told {
        match self {
            CopyRefusal::Unplanned(fault) => uncopied_told(fault),
            CopyRefusal::NoRoom(refusal) => refusal.told(),
            CopyRefusal::Of(refusal) => refusal.told(),
        }
    }
}

// How it is told why a file can't be copied.
fn uncopied_told(fault: &CopyFault) -> Told
    ensures { telling_of result ≡ uncopied_telling fault.now }
{
    match fault {
        CopyFault::Look(refusal) => refusal.told(),
        CopyFault::IsADevice => Told::new("names", 22, "IsADevice"),
        CopyFault::SameFile => Told::new("names", 23, "SameFile"),
    }
}

impl<'a> DiskCommand for CopyOver<'a> {
    type Refusal = CopyRefusal;

    ghost done = { λ copy c. HasCopied c.disk (asked_by copy) c.was c.now };

    ghost refused = { λ copy c old new. HasNotCopied c.disk (asked_by copy) c.was c.now };

    fn run_on<D: Disk + Drop, O: Write>(
        self,
        alloc: Global,
        disk: D,
        out: &mut O,
    ) -> (Result<(), CopyRefusal>, D) {
        copy_disk(alloc, disk, &self, out)
    }
}

/// Copies a file of a disk as `CopyOver` says, and hands the disk back.
pub fn copy_disk<D: Disk + Drop, O: Write>(
    alloc: Global,
    disk: D,
    copy: &CopyOver<'_>,
    out: &mut O,
) -> (Result<(), CopyRefusal>, D)
    ensures done { OnOk result.0 (HasCopied D.Disk (asked_by copy.now) disk result.1
        (O.contents out.old) (O.contents out.new)) }
    ensures refused { IfErr result.0
        (HasNotCopied D.Disk (asked_by copy.now) disk result.1 (out.new ≡ out.old)) }
{
    let mut disk = disk;
    match plan_on(alloc, &mut disk, copy) {
        Ok(plan) => match put_plan(alloc, disk, plan, copy.last, out) {
            (Ok(()), disk) => (Ok(()), disk),
            (Err(refusal), disk) => (Err(CopyRefusal::Of(refusal)), disk),
        },
        Err(refusal) => (Err(refusal), disk),
    }
}

// Plans a copy, and judges whether it has room where that is asked for.
fn plan_on<D: Disk>(
    alloc: Global,
    disk: &mut D,
    copy: &CopyOver<'_>,
) -> Result<CopyPlan, CopyRefusal>
    ensures plan { IfOk result (λ plan. IsPlannedOn D.Disk (asked_by copy.now)
        plan.path.items plan.bytes.items disk.old disk.new) }
    ensures refused { IfErr result (IsNotReady D.Disk (asked_by copy.now) disk.old disk.new) }
{
    match plan_copy(alloc, disk, copy.from.as_bytes(), copy.to.as_bytes()) {
        Ok(plan) => match judge(alloc, disk, copy.judges, plan.bytes.len()) {
            Ok(()) => Ok(plan),
            Err(refusal) => Err(CopyRefusal::NoRoom(refusal)),
        },
        Err(fault) => Err(CopyRefusal::Unplanned(fault)),
    }
}

// Whether so many bytes have room, where that is to be judged: no more than one call writes always may.
#[tactic(auto, using(blocks::specs::Lemmas::Reads::reads_none))]
fn judge<D: Disk>(
    alloc: Global,
    disk: &mut D,
    judges: bool,
    count: usize,
) -> Result<(), ChangeRefusal>
    ensures room { OnOk result (IsJudged D.Disk judges count disk.old disk.new) }
    ensures asked { OnErr result (IsTrue judges) }
    ensures many { OnErr result (transfer_limit < count) }
    ensures refused { IfErr result (LacksRoom D.Disk count disk.old disk.new) }
{
    if !judges {
        return Ok(());
    }
    if count <= TRANSFER_LIMIT as usize {
        return Ok(());
    }
    judge_room(alloc, disk, count)
}

// Puts the bytes of a copy at its path.
fn put_plan<D: Disk + Drop, O: Write>(
    alloc: Global,
    disk: D,
    plan: CopyPlan,
    last: bool,
    out: &mut O,
) -> (Result<(), ChangeRefusal>, D)
    ensures done { OnOk result.0 (HasChanged D.Disk (Puts plan.path.items plan.bytes.items) last
        disk result.1 (O.contents out.old) (O.contents out.new)
        × StopsChange D.Disk (PutsSome plan.path.items plan.bytes.items) disk result.1) }
    ensures refused { IfErr result.0 (λ r. HasNotChanged D.Disk
        (Puts plan.path.items plan.bytes.items)
        (λ t. IsUnputAt t.disk plan.path.items plan.bytes.items t.was t.now) last
        disk result.1 (out.new ≡ out.old) r
        × StopsChange D.Disk (PutsSome plan.path.items plan.bytes.items) disk result.1) }
{
    let CopyPlan { path, bytes } = plan;
    let put = Put {
        path: path.as_slice(),
        bytes,
    };
    change_disk(alloc, disk, &put, last, out)
}
