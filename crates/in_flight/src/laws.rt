//! Laws over loose images, each the contract of a function that does nothing.
ghost use Rattle.in_flight.specs.Laws.{SoundFits, FitsSoundly, FitsWhenCleared, FitsOutsideLog, ClaimsOne, ClaimMakesFile, MadeFits};
ghost use Rattle.in_flight.specs.HeldLaws.{FitsAtRest, RestsSoundly, DirectGivenUp, BlockGivenUp, EntryPassed, LeavesAsMany, TreeGivenUp, TurnHolds, TurnAnswers, WriteBackRests, ClaimFits, HeldOutsideLog, RestingTells, FreeTells, HeldHasBlocks, FewLeft, ClearedBitKeeps, WriteBackKeeps};
ghost use Rattle.in_flight.specs.GrowthLaws.{TurnGrows, RestingRefuses, BlockTaken, TakenZeroed, AddressPlaced, EntryPlaced, BytesWritten, GrowthRests, GrowthAnswers, GrowthHasBlocks, SetBitKeeps, DataKeeps, GrowthKeeps};
ghost use Rattle.in_flight.specs.AttributeLaws.{AdditionAnswers, SetAnswers, SetRefuses, SetRests, TurnSets};
ghost use Rattle.in_flight.specs.Looks.{UsedIsFit, UsedHasBlocks, StatTells, ReadTells, NoFileTells};

/// A sound image of whole blocks stands for its own files.
pub fn fits_sound()
    ensures { SoundFits }
{}

/// With an empty log, an image that stands for files is sound, and these are its files.
pub fn sound_quiet()
    ensures { FitsSoundly }
{}

/// So it is once the log's header is cleared.
pub fn sound_cleared()
    ensures { FitsWhenCleared }
{}

/// Images that are the same outside the log stand for the same files.
pub fn fits_outside()
    ensures { FitsOutsideLog }
{}

/// The inode of a new file at a number changes no other number and no block but its own, be the
/// image sound or not.
pub fn claims()
    ensures { ClaimsOne }
{}

/// Where a free number is claimed, the image stands for the files that the creation leaves.
pub fn fits_claimed()
    ensures { ClaimMakesFile }
{}

/// A new image stands for no file.
pub fn fits_made()
    ensures { MadeFits }
{}

/// A used number has a fit inode, which says its file.
pub fn used_is_fit()
    ensures { UsedIsFit }
{}

/// Its inode leads to data blocks.
pub fn used_has_blocks()
    ensures { UsedHasBlocks }
{}

/// The question after type and length is answered by what its inode says.
pub fn stat_tells()
    ensures { StatTells }
{}

/// A reading is answered by the bytes that its blocks hold.
pub fn read_tells()
    ensures { ReadTells }
{}

/// A free number has no file, and each operation on it says so.
pub fn no_file_tells()
    ensures { NoFileTells }
{}

/// With no number held, an image stands for files exactly where it does so without claims.
pub fn fits_at_rest()
    ensures { FitsAtRest }
{}

/// So it is sound once its log is empty, and these are its files.
pub fn rests_soundly()
    ensures { RestsSoundly }
{}

/// A task gives up a data block that its copy of the inode names. Each other number keeps its file.
pub fn direct_given_up()
    ensures { DirectGivenUp }
{}

/// It gives up the next block behind its first block of addresses, at any depth.
pub fn block_given_up()
    ensures { BlockGivenUp }
{}

/// An entry under which nothing is left is passed over.
pub fn entry_passed()
    ensures { EntryPassed }
{}

/// So many blocks are left as before.
pub fn leaves_as_many()
    ensures { LeavesAsMany }
{}

/// Once all behind it is given up, it gives up the block of addresses.
pub fn tree_given_up()
    ensures { TreeGivenUp }
{}

/// At the turn of a truncation or a removal its task holds the number.
pub fn turn_holds()
    ensures { TurnHolds }
{}

/// The files are then those after that operation.
pub fn turn_answers()
    ensures { TurnAnswers }
{}

/// Once its copy has no address left, the task writes it back, and the number is at rest.
pub fn write_back_rests()
    ensures { WriteBackRests }
{}

/// While others hold their numbers, a free number may be claimed for a new file.
pub fn claim_fits()
    ensures { ClaimFits }
{}

/// Images that are the same outside the log stand for the same files, with the same claims.
pub fn held_outside()
    ensures { HeldOutsideLog }
{}

/// A used number at rest has its file and answers looks, whoever holds other numbers.
pub fn resting_tells()
    ensures { RestingTells }
{}

/// A free number is at rest and has no file, and each operation on it says so.
pub fn free_tells()
    ensures { FreeTells }
{}

/// What a task holds are data blocks that the bitmap has, no two of them one.
pub fn held_has_blocks()
    ensures { HeldHasBlocks }
{}

/// A task that gives up its file's blocks has no more left than a file may have.
pub fn few_left()
    ensures { FewLeft }
{}

/// A cleared bit of a block changes nothing else that no file shows.
pub fn cleared_bit_keeps()
    ensures { ClearedBitKeeps }
{}

/// Nor does an inode that is written back, which keeps its labels.
pub fn write_back_keeps()
    ensures { WriteBackKeeps }
{}

/// At the turn of a write its task holds the number.
pub fn turn_grows()
    ensures { TurnGrows }
{}

/// What a write answers that begins behind the file's end, or that no file has room for.
pub fn resting_refuses()
    ensures { RestingRefuses }
{}

/// A task that writes takes a block whose bit is clear.
pub fn block_taken()
    ensures { BlockTaken }
{}

/// It fills the block that it took with zeroes.
pub fn taken_zeroed()
    ensures { TakenZeroed }
{}

/// Its copy of the inode names the block, as one of data or of addresses.
pub fn address_placed()
    ensures { AddressPlaced }
{}

/// One of its blocks of addresses names the block, at any depth.
pub fn entry_placed()
    ensures { EntryPlaced }
{}

/// It writes the next bytes into a block of its file.
pub fn bytes_written()
    ensures { BytesWritten }
{}

/// In the end it writes its copy back, and the number is at rest with the bytes in its file.
pub fn growth_rests()
    ensures { GrowthRests }
{}

/// The files are then those after that write.
pub fn growth_answers()
    ensures { GrowthAnswers }
{}

/// At the turn of a task that sets an attribute of a file it holds the number.
pub fn turn_sets()
    ensures { TurnSets }
{}

/// The files are then those after that operation.
pub fn set_answers()
    ensures { SetAnswers }
{}

/// What an extension answers that adds more than one operation moves, or that no file has room for.
pub fn set_refuses()
    ensures { SetRefuses }
{}

/// The files after an extension have the zeroes that it wrote.
pub fn addition_answers()
    ensures { AdditionAnswers }
{}

/// In the end it writes its copy back, and the number is at rest.
pub fn set_rests()
    ensures { SetRests }
{}

/// A task that writes leads to data blocks, and has the size that it reached.
pub fn growth_has_blocks()
    ensures { GrowthHasBlocks }
{}

/// A set bit of a block changes nothing else that no file shows.
pub fn set_bit_keeps()
    ensures { SetBitKeeps }
{}

/// Nor does a data block that is written.
pub fn data_keeps()
    ensures { DataKeeps }
{}

/// Nor does a copy that is written back.
pub fn growth_keeps()
    ensures { GrowthKeeps }
{}
