// Laws of copies, each the contract of a function that does nothing.
ghost use Rattle.transfer.specs.Laws.{StoppedCopyIsRefused};

/// Where block 1 of the new disk had no superblock, a check refuses what a stop leaves of a copy,
/// with `BadMagic`, or it is the whole copy.
pub fn stopped_copy_is_refused()
    ensures { StoppedCopyIsRefused }
{}
