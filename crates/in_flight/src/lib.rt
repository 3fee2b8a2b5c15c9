//! Images between the steps of an operation, and the files that they stand for.
//!
//! An operation changes an image in several steps: a block is marked in the bitmap in one of them
//! and named by its inode in a later one, and steps of other processes lie between. So the image
//! need not be sound there. It is loose: the bitmap has the blocks before the data and those of a
//! list, the owned ones, which are data blocks and stand in the list once each, and no other block
//! is marked. A number that no operation holds is at rest: its file is the one that its inode has
//! in the image, and a used inode has a type and a size that there are, and each block that the
//! size needs.
//!
//! A creation owns no block and writes an inode whole in one step. Where no number is held, each is
//! at rest, the owned blocks are those that the inodes name, and the image stands for the files of
//! its numbers (`Fits`).
//!
//! A truncation or a removal gives up its file's blocks one by one behind its turn. From the turn
//! on its task holds the number (`Held`): the files have the result, the image still has the old
//! inode, and owned is what the task's copy of the inode still names.
//!
//! A write makes its file longer, or puts bytes over its own. From the turn on its task holds the
//! number too (`Growth`), but the files have the old file until the write is done: how much could
//! be written is known only then. The image still has the old inode. The task's copy has the
//! addresses of the blocks that it took, and those blocks have the old file with the written bytes
//! over it. Owned is what the copy names, and a block that was taken and that nothing names yet.
//!
//! `FitsHeld` says which files an image stands for where tasks hold numbers (`Claim`); with none
//! held it is `Fits`. Its laws go from the turn over each block that is given up, taken, named or
//! written to the inode that is written back, beside creations, looks and other tasks: what those
//! hold, and the file of a number at rest, stay as they are (`FitsThen`). With each block that is
//! given up the task has one less left (`IsGivenUp`), and at no time more than a file may have
//! (`FewLeft`): so the steps of a truncation are bounded.
//!
//! The laws say that a sound image stands for its own files; that an image which stands for files
//! is sound, with them as its files, once its log is empty; that the log's blocks have no part in
//! it; that the claim of a free number makes an image that stands for the files after that
//! creation; and that the inode of a number and the blocks to which it leads say what a look at the
//! number's file answers. What a claim does to the bytes of an image is said of any, sound or not.
//! These laws and the lemmas of `specs/Lemmas` are for the layers that keep an image through such
//! steps.
#![tactic(auto)]

pub mod laws;
