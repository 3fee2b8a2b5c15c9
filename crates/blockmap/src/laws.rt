//! Laws over what may be read, each the contract of a function that does nothing.
ghost use Rattle.blockmap.specs.Balloc.{LowestClear};
ghost use Rattle.blockmap.specs.Reading.{RestingMayBeRead};

/// Where an image stands for files, that of each used number which no task holds may be read.
pub fn resting_may_be_read()
    ensures { RestingMayBeRead }
{}

/// The lowest clear bit below a size lies below it, is clear, and each lower one is set; where there
/// is none, each bit below the size is set.
pub fn lowest_clear_is_lowest()
    ensures { LowestClear }
{}
