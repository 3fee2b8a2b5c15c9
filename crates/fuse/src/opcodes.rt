// The numbers of what is asked, of `linux/fuse.h`.
pub(crate) const LOOKUP: u32 = 1;

pub(crate) const FORGET: u32 = 2;

pub(crate) const GETATTR: u32 = 3;

pub(crate) const SETATTR: u32 = 4;

pub(crate) const MKNOD: u32 = 8;

pub(crate) const MKDIR: u32 = 9;

pub(crate) const UNLINK: u32 = 10;

pub(crate) const RMDIR: u32 = 11;

pub(crate) const RENAME: u32 = 12;

pub(crate) const LINK: u32 = 13;

pub(crate) const OPEN: u32 = 14;

pub(crate) const READ: u32 = 15;

pub(crate) const WRITE: u32 = 16;

pub(crate) const STATFS: u32 = 17;

pub(crate) const RELEASE: u32 = 18;

pub(crate) const FSYNC: u32 = 20;

pub(crate) const FLUSH: u32 = 25;

pub(crate) const INIT: u32 = 26;

pub(crate) const OPENDIR: u32 = 27;

pub(crate) const READDIR: u32 = 28;

pub(crate) const RELEASEDIR: u32 = 29;

pub(crate) const FSYNCDIR: u32 = 30;

pub(crate) const ACCESS: u32 = 34;

pub(crate) const CREATE: u32 = 35;

pub(crate) const INTERRUPT: u32 = 36;

pub(crate) const DESTROY: u32 = 38;

pub(crate) const BATCH_FORGET: u32 = 42;

pub(crate) const READDIRPLUS: u32 = 44;

pub(crate) const RENAME2: u32 = 45;

pub(crate) const SYNCFS: u32 = 50;
