// How a mount is served, and when.

/// How a mount is served.
#[derive(Clone, Copy, Debug, PartialEq, Eq)]
pub struct Terms {
    /// The number of the user whose all files are.
    pub owner: u32,
    /// The number of the group whose all files are.
    pub group: u32,
    /// By bits what no one may do with any file, as `umask` has it.
    pub mask: u32,
    /// How many blocks for files the image has.
    pub blocks: u32,
}

/// A moment.
#[derive(Clone, Copy, Debug, PartialEq, Eq)]
pub struct Moment {
    /// The seconds since 1970.
    pub seconds: u64,
    /// The nanoseconds behind them.
    pub nanoseconds: u32,
}
