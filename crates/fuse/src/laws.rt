// Laws of the records, each the contract of a function that does nothing.
ghost use Rattle.fuse.specs.Laws.{HeaderReadsBack, RenameReadsBack, RequestReadsBack};

/// A header is read again from its bytes, whatever stands behind them.
pub fn header_reads_back()
    ensures { HeaderReadsBack }
{}

/// A request whose numbers fit their fields, and whose names have no zero byte, is read again from
/// its bytes, whatever stands behind them.
pub fn request_reads_back()
    ensures { RequestReadsBack }
{}

/// So is a rename of the older kind, which has no flags.
pub fn rename_reads_back()
    ensures { RenameReadsBack }
{}
