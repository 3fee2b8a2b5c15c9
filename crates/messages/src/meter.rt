// How far something is that takes long.

/// Who is told how far something is that takes long. What it is told is so by the code of whoever
/// tells it.
pub trait Meter {
    /// So many of so many are done; `what` says of what, as `files`.
    fn reached(&mut self, count: u64, of: u64, what: &str);

    /// It is over, however it ended.
    fn ended(&mut self);
}

/// Nobody is told.
#[derive(Clone, Copy, Drop)]
pub struct Silent;

impl Meter for Silent {
    fn reached(&mut self, _count: u64, _of: u64, _what: &str) {}

    fn ended(&mut self) {}
}
