// What a picture of a run is made of.
use crate::replies::Gist;
use messages::StepNote;

/// What all of a picture's parts share.
#[derive(Clone, Copy, Debug)]
pub struct Frame {
    /// The steps.
    pub columns: u32,
    /// The processes; each has a lane.
    pub processes: u32,
    /// The inode numbers of the image, by which it is known what a block is.
    pub inode_count: u32,
    /// Whether the disk holds writes back until a sync.
    pub holds: bool,
    /// Whether there is a row of the files.
    pub has_files: bool,
}

/// A step of a run.
#[derive(Clone, Copy, Debug)]
pub struct Moment {
    /// Its place among the steps, from 0.
    pub column: u32,
    /// What it was, and what it came to.
    pub note: StepNote,
    /// What its process was answered behind it.
    pub answer: Option<Gist>,
}

/// A file of an image, as a line tells it.
#[derive(Clone, Copy, Debug)]
pub struct FileLine {
    /// Its number.
    pub number: u32,
    /// 1 for a directory, 2 for a file, 3 for a device.
    pub kind: u16,
    /// Its bytes.
    pub size: u32,
}

/// The files that an image has, once it is recovered, from a step on.
#[derive(Debug, Drop)]
pub struct FilesThen {
    /// The place of that step.
    pub column: u32,
    /// The files, by number.
    pub lines: Vec<FileLine>,
}
