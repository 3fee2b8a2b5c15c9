// Laws of images, each the contract of a function that does nothing.
ghost use Rattle.offline.specs.Laws.{NewImageIsSound, CheckedFilesMayBeRead, CleanFilesAreWhole};

/// A new image within the limits is sound, and has no file.
pub fn new_image_is_sound()
    ensures { NewImageIsSound }
{}

/// Where a check finds no fault, the file of each used inode that recovery leaves may be read.
pub fn checked_files_may_be_read()
    ensures { CheckedFilesMayBeRead }
{}

/// Where superblock and log are lawful, each clean inode that recovery leaves is whole.
pub fn clean_files_are_whole()
    ensures { CleanFilesAreWhole }
{}
