// What a command was given by its words.

/// The paths that a command was given, and what else a refusal of it may be about.
#[derive(Clone, Copy)]
pub struct Given<'a> {
    /// The path of the image that it opens.
    pub image: Option<&'a str>,
    /// Whether it opens that to change it.
    pub changes: bool,
    /// Whether the log of that image may have another length.
    pub converts: bool,
    /// The path of the image that it makes.
    pub made: Option<&'a str>,
    /// How many blocks that has, where that is given.
    pub size: Option<u32>,
    /// How many inode numbers that has, where that is given.
    pub ninodes: Option<u32>,
    /// The path of its script.
    pub script: Option<&'a str>,
    /// The path of its schedule.
    pub schedule: Option<&'a str>,
    /// The path of the file whose bytes it puts into the image.
    pub file: Option<&'a str>,
    /// The number of a file of the image.
    pub inum: Option<u32>,
    /// The path of a file of the image.
    pub name: Option<&'a str>,
    /// The path in the image that this file gets.
    pub into: Option<&'a str>,
    /// The path of the file that it makes of one of the image.
    pub got: Option<&'a str>,
    /// Where a check of its script met a mismatch, in words.
    pub mismatch: Option<&'a str>,
}

impl<'a> Given<'a> {
    /// What a command was given over the image at a path, and nothing else.
    pub fn over(path: &'a str, changes: bool) -> Given<'a> {
        Given {
            image: Some(path),
            changes,
            ..Given::nothing()
        }
    }

    /// What a command was given that makes an image of so many blocks and inode numbers.
    pub fn making(path: &'a str, size: u32, ninodes: u32) -> Given<'a> {
        Given {
            made: Some(path),
            size: Some(size),
            ninodes: Some(ninodes),
            ..Given::nothing()
        }
    }

    /// What a command was given that opens no image.
    pub fn nothing() -> Given<'a> {
        Given {
            image: None,
            changes: false,
            converts: false,
            made: None,
            size: None,
            ninodes: None,
            script: None,
            schedule: None,
            file: None,
            inum: None,
            name: None,
            into: None,
            got: None,
            mismatch: None,
        }
    }
}
