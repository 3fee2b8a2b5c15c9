//! Laws of a store's tasks, of a reading and of the table of inodes, each the contract of a
//! function that does nothing.
ghost use Rattle.std.specs.Prelude.{ℕ};
ghost use Rattle.inodes.specs.Store.{StoreState};
ghost use Rattle.inodes.specs.Runs.{NoInodeSawAll, MadeSawLower, StepsLeaveOthers, CommitsLeaveAll, BoundsLeaveOthers};
ghost use Rattle.inodes.specs.WriteRuns.{LogsFew, ShortSawFull};
ghost use Rattle.inodes.specs.Waiting.{SleepsForCause, WaitsWithCause};
ghost use Rattle.inodes.specs.ReadRuns.{BegunMayStep, ReadsPart};
ghost use Rattle.inodes.specs.Table.{HasPlace};
ghost use Rattle.inodes.specs.Grips.{KeptByRefer, KeptByLock, KeptByRenew, KeptByLeave, KeptByImage, IsTableAtOpening, HasPlaceForEach, LocksExclude, HolderIsAnother};

use blocks::Disk;

/// The cause of `NoInode` over a whole operation: each number that operations may name was seen
/// taken by one of its steps, whatever other processes did between them. Where a number is made,
/// each lower one was.
pub fn search_saw<D: Disk>()
    ensures none { NoInodeSawAll D.Disk }
    ensures made { MadeSawLower D.Disk }
{}

/// The cause of a short write: where it is answered with fewer bytes than it was asked for, one of
/// its steps looked at the bitmap's block while each bit below the image's size was set, whatever
/// other processes did between its steps.
pub fn write_saw<D: Disk>()
    ensures short { ShortSawFull D.Disk }
{}

/// A write logs at most seven blocks in an image of the first form, and nine in one of the second: up
/// to four of its file, the bitmap's block, one block of addresses or three, and its inode's block,
/// which comes last and is the one more.
pub fn write_logs_few()
    ensures { LogsFew }
{}

/// A reading that was begun may make its first step, and a whole one gathers the bytes of the file
/// from the offset on, as many as were asked for or as there are, where the file stays the same
/// between its steps.
pub fn reads_part<D: Disk>()
    ensures begins { BegunMayStep D.Disk }
    ensures part { ReadsPart D.Disk }
{}

/// What other processes and commits do leaves a process's task as it is.
pub fn others_leave<D: Disk>()
    ensures steps { StepsLeaveOthers D.Disk }
    ensures commits { CommitsLeaveAll D.Disk }
    ensures bounds { (old : StoreState D) (p : ℕ) → BoundsLeaveOthers old p }
{}

/// With fewer references than the table has places, there is a place for each inode number: so the
/// 32 processes, of which each refers to one inode at most, always find one among 50.
pub fn has_place()
    ensures { HasPlace }
{}

/// The table of inodes agrees with what the processes have of it and with the current image, and
/// goes on so at each call of a process, at each change of the image that leaves the used inodes,
/// and from the opening on. What another process has locked stays.
pub fn table_kept()
    ensures refer { KeptByRefer }
    ensures lock { KeptByLock }
    ensures renew { KeptByRenew }
    ensures leave { KeptByLeave }
    ensures image { KeptByImage }
    ensures opening { IsTableAtOpening }
{}

/// What follows for a process that takes an inode: there is a place for it, and no two processes
/// have its lock.
pub fn grips_say()
    ensures place { HasPlaceForEach }
    ensures exclude { LocksExclude }
    ensures another { HolderIsAnother }
{}

/// A step that has to wait says why: it has the cause that the buffers or the table give to where
/// its task stands. And where they give one, the step does wait.
#[tactic(auto, using(crate::proofs::Sleeping::trunc_asleep))]
pub fn sleeps_for_cause<D: Disk>()
    ensures sleeps { SleepsForCause D.Disk }
    ensures waits { WaitsWithCause D.Disk }
{}
