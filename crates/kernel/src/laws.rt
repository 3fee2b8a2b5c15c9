//! Laws of kernels, steps and sessions, the contract of a function that does nothing.
ghost use Rattle.kernel.specs.Deeds.{DoesItsDeed};
ghost use Rattle.kernel.specs.Causes.{MadeHasCause, NoInodeHasCause, ShortHasCause};
ghost use Rattle.kernel.specs.Rounds.{RoundsEndAll};
ghost use Rattle.kernel.specs.Sleeping.{SleepsForCause, SoleWaitsForAnswers, WaitsWithCause};
ghost use Rattle.kernel.specs.Theorem.{ExactlyTheCommitted, NoneIsLost, RecoversDisks, RecoversGoing, RecoversHeld, RecoversSince, RecoversStopped, RecoversWhole, SessionKeeps};

use blocks::Disk;
use ports::{Herald, Intake};

/// The recovery theorem, of any kernel, whatever was done with it since it was opened, and of
/// whoever recovers: it speaks of images. Of whatever a stop at any moment since the opening began
/// leaves, recovery makes a sound image whose files are those of the recovered image after exactly
/// the changing operations of the first groups, each once in the order of their turns; each process's
/// are a beginning of those that were taken of it; and a second recovery changes nothing. So it is
/// where a recovery is stopped and made again. Of a disk that holds writes back this is so from the
/// sync on with which its recovery began. A stop since some moment of a run loses no group
/// that was committed then; one now keeps exactly the committed groups, and one more exactly where a
/// header got through whose write failed or whose sync is still to come.
///
/// `Kernel::recovers` says it of a kernel. What `KnownStop` asks for, `Kernel::known` ensures, what
/// `KnownOpening`, `Kernel::open`, and `RunsOn` is by `sessions_keep` and by each run. So there is no body of the kernel that this law
/// alone refuses: each that breaks it is refused by one of those.
pub fn recovery_theorem<D: Disk, I, H>()
    ensures since { RecoversSince I H D.Disk }
    ensures stopped { RecoversStopped I H D.Disk }
    ensures whole { RecoversWhole I H D.Disk }
    ensures going { RecoversGoing I H D.Disk }
    ensures held { RecoversHeld I H D.Disk }
    ensures lost { NoneIsLost I H D.Disk }
    ensures now { ExactlyTheCommitted I H D.Disk }
{}

/// The same of each disk, of any type, that a recovery made of an image which a stop left, or which
/// one left of its recovery: of the opening of a kernel that is opened over it, and of a disk that
/// `wal::recover` recovered.
pub fn recovered_disks<D: Disk, E: Disk, I, H>()
    ensures { RecoversDisks I H D.Disk E.Disk }
{}

/// A session, any list of turns with anything handed in and fetched between them, keeps its opening
/// and what was committed, also by a stop at any moment, and behind a shutdown takes no operation.
pub fn sessions_keep<D: Disk, I: Intake, H: Herald>()
    ensures { SessionKeeps D.Disk I.Intake H.Herald }
{}

/// The causes of answers that give less than was asked for, over any session in which the operation
/// of a process is begun and answered: any list of turns, with anything handed in and fetched
/// between them. Where a creation is answered with `NoInode`, a turn looked at each number that
/// operations may name and found it taken; where it made one, a turn found so each lower one. Where
/// a write is answered with fewer bytes than it was asked for, a turn looked at the bitmap's block
/// while each bit below the image's size was set.
pub fn short_answers<D: Disk, I: Intake, H: Herald>()
    ensures none { NoInodeHasCause D.Disk I.Intake H.Herald }
    ensures made { MadeHasCause D.Disk I.Intake H.Herald }
    ensures short { ShortHasCause D.Disk I.Intake H.Herald }
{}

/// When a step has to wait, and why. An operation under way sleeps only for the cause that its task
/// has; so where `Kernel::known` tells of one without a cause, that one goes on. One whose task has
/// a cause does sleep, unless the disk failed before. The only process of a kernel sleeps for
/// nothing but room for its answers, and then nothing of it is under way.
pub fn sleeps_for_cause<D: Disk, I: Intake, H: Herald>()
    ensures cause { SleepsForCause D.Disk I.Intake H.Herald }
    ensures waits { WaitsWithCause D.Disk I.Intake H.Herald }
    ensures sole { SoleWaitsForAnswers D.Disk I.Intake H.Herald }
{
    inodes::laws::sleeps_for_cause::<D>();
}

/// A step does to the disk what `Kernel::deed` told before it, and nothing else, unless it halts. One
/// that was told to write a block makes one write, to that block, with what belongs there: a log
/// block and a home get what the current image has at the home, and a header names the homes. One
/// that was told to sync makes one sync. Any other leaves the disk's image, writes and syncs.
pub fn deeds_are_done<D: Disk, I: Intake, H: Herald>()
    ensures { DoesItsDeed D.Disk I.Intake H.Herald }
{}

/// Turns that go round all processes, as many times as steps are left in all, end every operation
/// that is under way, where none begins meanwhile and the disk doesn't fail. Between them anything
/// may be handed in and fetched. That each process has a turn in each round is the caller's.
pub fn rounds_end_all<D: Disk, I: Intake, H: Herald>()
    ensures { RoundsEndAll D.Disk I.Intake H.Herald }
{
    sleeps_for_cause::<D, I, H>();
}
