// What a drawing has: the blocks of an image, and so many columns.

/// A drawing has at most so many steps, or stops.
pub const MOST_COLUMNS: usize = 2000;

/// Which file has a block.
#[derive(Clone, Copy, Debug)]
pub struct Owner {
    /// Its number.
    pub file: u32,
}

/// A block of an image.
#[derive(Clone, Copy, Debug)]
pub struct Cell {
    /// Its number.
    pub block: u64,
    /// Its sign, as `show` draws it.
    pub sign: u8,
    /// Which file has it.
    pub owner: Option<Owner>,
}
