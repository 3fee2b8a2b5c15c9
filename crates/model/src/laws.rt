//! Laws over the definitions, each the contract of a function that does nothing.
ghost use Rattle.model.specs.Laws.{RecoversOnce, ReplaysInParts, RefusalsKeep, CountStays, RefusalsFirst, AtOnceIsNotChanging, AtOnceIsRefused, HomeWritesKeep, HomesAreRewritten, VerdictIsSound, VerdictIsFirst, FramesContents, SameOutsideLog, SameWhenRecovered, SameWhenCleared, FirstBits};

/// Recovery of what recovery left changes nothing.
pub fn recovers_once()
    ensures { RecoversOnce }
{}

/// A run of two lists is a run of the first and then of the second.
pub fn replays_in_parts()
    ensures { ReplaysInParts }
{}

/// Refusals, reads and looks change nothing.
pub fn refusals_keep()
    ensures { RefusalsKeep }
{}

/// No run changes how many numbers there are.
pub fn count_stays()
    ensures { CountStays }
{}

/// An operation that has a refusal answers it and nothing else, and changes nothing.
pub fn refusals_first()
    ensures { RefusalsFirst }
{}

/// The changing operations are those that may change a file and are not answered at once.
pub fn at_once_is_not_changing()
    ensures { AtOnceIsNotChanging }
{}

/// What is answered at once is refused, whatever the files are.
pub fn at_once_is_refused()
    ensures { AtOnceIsRefused }
{}

/// Writing a logged block to its home changes nothing of what recovery leaves.
pub fn home_writes_keep()
    ensures { HomeWritesKeep }
{}

/// Whatever stands at the homes of a log, recovery leaves the same.
pub fn homes_are_rewritten()
    ensures { HomesAreRewritten }
{}

/// A check finds no fault exactly where superblock and log are lawful and recovery leaves a sound
/// image.
pub fn verdict_is_sound()
    ensures { VerdictIsSound }
{}

/// What a check answers is the first of an image's faults, so one that it finds sound has none, and
/// one that has none is found sound.
pub fn verdict_is_first()
    ensures { VerdictIsFirst }
{}

/// Images that agree at the superblock and at what an inode names have the same contents of it.
pub fn frames_contents()
    ensures { FramesContents }
{}

/// An image with an empty log that differs from a sound one in the log alone is sound, and has the
/// same files.
pub fn same_outside_log()
    ensures { SameOutsideLog }
{}

/// Where recovery leaves a sound image, one that recovers to the same outside the log recovers to a
/// sound one with the same files.
pub fn same_when_recovered()
    ensures { SameWhenRecovered }
{}

/// An image with an empty log is sound where it is with its header emptied, and has the same files:
/// so what is known of a kernel's current image with its header emptied is true of that image.
pub fn same_when_cleared()
    ensures { SameWhenCleared }
{}

/// The first bits of a block are set, as many as asked for, and no other.
pub fn first_bits()
    ensures { FirstBits }
{}
