//! Laws of a device that loses and tears writes, each the contract of a function that does nothing.
ghost use Rattle.lost_writes.specs.Carried.{CommitCarries, KernelCarries, KernelEndures};
ghost use Rattle.lost_writes.specs.Sessions.{OpeningCarries, SessionCarries, SessionEndures};
ghost use Rattle.lost_writes.specs.Laws.{CarriedEndures, RestIsCarried, CommitsInTurn, CommitsOverStale, CommittedOverStale, BreaksAsStopped, ForgottenBreaksOff, FreshensSafely, HeldMayTear, RecoversFiles, RecoversOverStale, RecoveryWrites, RunsOverStale, StaleIsRecovered};

use blocks::Disk;
use ports::{Herald, Intake};

/// Where reads give one image and a failed sync left another on the device, both have the same
/// header and superblock, and are recovered alike: outside the log to the same blocks; one has no
/// fault where the other has none. So is what a stop leaves of a recovery of either, as
/// `wal::recover` says it of the disk whose image the device has: a recovery reads the header and
/// the blocks that it names alone, which are the same on both.
pub fn stale_is_recovered()
    ensures { StaleIsRecovered }
{}

/// An image that is recovered to a sound one, but for the log, is sound once it is recovered, and
/// has its files.
pub fn recovers_files()
    ensures { RecoversFiles }
{}

/// A sync that fails leaves a device as a stop would, so what is said of each stop is said of it.
/// And while the header is written there as reads give it, before anything else, a stop leaves what
/// is recovered as before, or as reads are.
pub fn freshens_safely()
    ensures left { BreaksAsStopped }
    ensures anew { FreshensSafely }
{}

/// A recovery over a stale device. Wherever it is stopped, and whatever is lost or torn then of
/// what it wrote since its last sync, the device is recovered as reads were before it. Where one of
/// its syncs fails, that is so of what reads give then, and the device is stale as one may be at
/// the start of the next recovery, which first writes the header as it reads it. At its end reads
/// give the recovered image, and the device may be stale in the log's blocks.
pub fn recovers_over_stale()
    ensures writes { RecoveryWrites }
    ensures ends { RecoversOverStale }
{}

/// A commit over a device that is stale in the log's blocks: the same, with the image before the
/// group or behind it, and from the sync of its header on with that behind it.
pub fn commits_over_stale()
    ensures ends { CommitsOverStale }
    ensures committed { CommittedOverStale }
{}

/// A recovery and any number of commits over a stale device: the same, with the image behind some
/// of the groups. What the first commits end with is what the later ones begin with, so none of the
/// first is lost. And a failed sync leaves what the next run begins with, so it is the same over
/// any number of runs, each with a sync that fails.
pub fn runs_over_stale()
    ensures run { RunsOverStale }
    ensures later { CommitsInTurn }
{}

/// What a disk may leave that holds writes back, each of them whole, is among the torn images.
pub fn held_may_tear()
    ensures { HeldMayTear }
{}

/// What `blocks::ForgetfulDisk` has behind a sync that fails, and what its reads give, is what a run
/// leaves that breaks off there. So the laws above are of that disk, too.
pub fn forgotten_breaks_off()
    ensures { ForgottenBreaksOff }
{}

/// The steps of a commit that `wal::Volume::commit_step` makes, carried to a device that is stale
/// in the log's blocks, and that may lose and tear what was written since the last sync: each is
/// carried on as the log told it before. And whatever a stop leaves on such a device is recovered,
/// outside the log, as what reads give, or, only while the header waits for its sync, as they would
/// be without it.
pub fn commits_are_carried<D: Disk>()
    ensures begins { RestIsCarried }
    ensures steps { CommitCarries D.Disk }
    ensures stops { CarriedEndures }
{}

/// The steps of a kernel, of any process, carried to such a device as `Kernel::deed` tells each
/// before it: a step of a commit as above, and another changes nothing there. So a stop leaves on
/// the device what is recovered as the recovery theorem says it of the disk's own image: a run of
/// the committed groups; or, only while the header waits for its sync, what was there before it.
/// What is asked of disk, buffers and log, `Kernel::room_known` ensures, and each step.
pub fn steps_are_carried<D: Disk, I: Intake, H: Herald>()
    ensures steps { KernelCarries D.Disk I.Intake H.Herald }
    ensures stops { KernelEndures D.Disk I.Intake H.Herald }
{
    kernel::laws::recovery_theorem::<D, I, H>();
}

/// A whole session of a kernel, opened over such a device as a recovery leaves it (`recovers_over_stale`),
/// with anything handed in and fetched between its turns: where each turn's deed was carried on and the
/// disk works at the end, a stop then leaves on the device what is recovered to a run of the committed
/// groups; or, only while the header waits for its sync, what was there before it.
pub fn sessions_are_carried<D: Disk, I: Intake, H: Herald>()
    ensures opens { OpeningCarries D.Disk I.Intake H.Herald }
    ensures turns { SessionCarries D.Disk I.Intake H.Herald }
    ensures stops { SessionEndures D.Disk I.Intake H.Herald }
{
    commits_are_carried::<D>();
    steps_are_carried::<D, I, H>();
}
