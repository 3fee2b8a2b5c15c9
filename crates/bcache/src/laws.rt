//! Laws of the cache and of the current image, each the contract of a function that does nothing.
ghost use Rattle.bcache.specs.Laws.{ReferencedIsKept, NoBufferIsFull, TakesLastUnused, FillingKeeps, UnfilledKeeps, ChangingSets, RecyclingKeeps, ShownWriteKeeps, UnshownWriteSets, CountsKeepCurrent, CallsKeepCache, FreshIsCache, FreshLinks};

/// A slot with references keeps its block, its bytes and its pins, whatever block is acquired.
pub fn referenced_is_kept()
    ensures { ReferencedIsKept }
{}

/// No buffer is left exactly where the block has none and all 40 slots have references.
pub fn no_buffer_is_full()
    ensures { NoBufferIsFull }
{}

/// The slot that a block without one gets has no references, and each behind it in the recency
/// order has some.
pub fn takes_last_unused()
    ensures { TakesLastUnused }
{}

/// The read of a slot's block changes nothing of the current image.
pub fn filling_keeps()
    ensures { FillingKeeps }
{}

/// Nor does a read that failed.
pub fn unfilled_keeps()
    ensures { UnfilledKeeps }
{}

/// A change of a valid buffer sets its block of the current image, and no other.
pub fn changing_sets()
    ensures { ChangingSets }
{}

/// Taking a slot that shows what the disk has, or shows nothing, changes nothing of the current
/// image.
pub fn recycling_keeps()
    ensures { RecyclingKeeps }
{}

/// A write to the disk of a block that a slot shows changes nothing of the current image.
pub fn shown_write_keeps()
    ensures { ShownWriteKeeps }
{}

/// A write to the disk of a block that no slot shows sets it in the current image.
pub fn unshown_write_sets()
    ensures { UnshownWriteSets }
{}

/// Holders, pins and the order are nothing to the current image.
pub fn counts_keep_current()
    ensures { CountsKeepCurrent }
{}

/// Each call leaves 40 slots, each once in the order, and no block with two of them.
pub fn calls_keep_cache()
    ensures { CallsKeepCache }
{}

/// So is it at the start.
pub fn fresh_is_cache()
    ensures { FreshIsCache }
{}

/// The links at the start: slot 39 is the first one, before slot 38, and slot 0 the last.
pub fn fresh_links()
    ensures { FreshLinks }
{}
