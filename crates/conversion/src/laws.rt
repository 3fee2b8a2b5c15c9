// Laws of converted images, each the contract of a function that does nothing.
ghost use Rattle.conversion.specs.Converted.{FilesComeOver};
ghost use Rattle.conversion.specs.Shortened.{ShortenedOnesConvert, SoundOnesConvert, SoundnessIsKept};

/// Where a moved image is sound, it has the files of the old one.
pub fn files_come_over()
    ensures { FilesComeOver }
{}

/// An image that is sound, whatever the length of its log, is sound with a log of another length.
pub fn soundness_is_kept()
    ensures { SoundnessIsKept }
{}

/// No image that is sound with its own log is refused as unsound.
pub fn sound_ones_convert()
    ensures { SoundOnesConvert }
{}

/// An image whose log was shortened converts to one of the old size with the same files.
pub fn shortened_ones_convert()
    ensures { ShortenedOnesConvert }
{}
