// The commands of a program, and their words, as a table: what help prints of each, and in which
// order clap is told of them; and the words that programs have in common.

use crate::topics::Topic;

/// What a word of a command line is.
#[derive(Clone, Copy)]
pub enum Kind {
    /// It has to be there.
    Needed,
    /// It may be left out.
    Free,
    /// Any number of them, behind all others.
    Rest,
    /// A number of 32 bits, which has to be there.
    Number,
    /// The same, where it may be left out.
    Choice,
    /// Its name after `--`, which may be left out.
    Flag,
    /// A letter after `-`, which may be left out.
    Letter(char),
    /// Its name after `--`, with a number of 32 bits behind it.
    Valued,
    /// The same, from 1 to 32.
    FewValued,
    /// The same, a number of 64 bits, from 1.
    LongValued,
    /// Its name after `--`, with a number of 32 bits from 1 behind it, or none, for this one.
    Preset(&'static str),
    /// Its name after `--`, with a path behind it.
    Path,
}

/// A word of a command line.
#[derive(Clone, Copy)]
pub struct Word {
    /// What it is known by, and what help calls it.
    pub name: &'static str,
    /// What it is.
    pub kind: Kind,
    /// What help says of it.
    pub help: &'static str,
}

/// A command: its name, what it does, an example, its image's path, and its words in their order.
#[derive(Clone, Copy)]
pub struct Line {
    /// Its name.
    pub name: &'static str,
    /// What help says of it.
    pub about: &'static str,
    /// What help shows behind its words.
    pub example: &'static str,
    /// The path of the image that it opens, if it does: its first word, behind which it has `--wait`,
    /// `--explain` and `--no-lock`.
    pub image: Option<Word>,
    /// Its other words.
    pub words: &'static [Word],
}

/// A program with its commands.
#[derive(Clone, Copy)]
pub struct Outline {
    /// Its name.
    pub name: &'static str,
    /// Its version.
    pub version: &'static str,
    /// What help says of it.
    pub about: &'static str,
    /// Its commands, in the order of help.
    pub lines: &'static [Line],
    /// What its help tells of besides.
    pub topics: &'static [Topic],
}

/// The version of the programs.
pub const VERSION: &str = "0.2.0";

/// `--sync`, of a command that changes an image.
pub const SYNC: Word = Word {
    name: "sync",
    kind: Kind::Flag,
    help: "Syncs the image's file where the log needs it, for a system that may lose writes",
};

/// `--no-sync`.
pub const NO_SYNC: Word = Word {
    name: "no-sync",
    kind: Kind::Flag,
    help: "Leaves out the sync at the end, for tests",
};

/// `--wait`.
pub(crate) const WAIT: Word = Word {
    name: "wait",
    kind: Kind::Flag,
    help: "Waits while another program has the image, in place of being refused",
};

/// `--no-lock`.
pub(crate) const NO_LOCK: Word = Word {
    name: "no-lock",
    kind: Kind::Flag,
    help: "Takes no lock of the image, for a system that gives none; two programs at once may lose files",
};

/// `--explain`.
pub const EXPLAIN: Word = Word {
    name: "explain",
    kind: Kind::Flag,
    help: "Says more of a refusal in a second line, as on a terminal",
};

/// `--json`, of a command that tells one value.
pub const JSON: Word = Word {
    name: "json",
    kind: Kind::Flag,
    help: "Prints one value of JSON in place of text",
};

/// The path of an image that is changed, or is looked at by a recovery.
pub const IMAGE: Word = Word {
    name: "IMAGE",
    kind: Kind::Needed,
    help: "The path of the image's file",
};

/// The path of an image that is only looked at.
pub const IMAGE_KEPT: Word = Word {
    name: "IMAGE",
    kind: Kind::Needed,
    help: "The path of the image's file, which is not changed",
};

/// The path of an image that is made.
pub const IMAGE_MADE: Word = Word {
    name: "IMAGE",
    kind: Kind::Needed,
    help: "The path of the image's file, which is made or replaced",
};

/// How many blocks an image has that is made.
pub const SIZE: Word = Word {
    name: "SIZE",
    kind: Kind::Number,
    help: "Blocks of 1024 bytes, from one more than the blocks before the data up to 8191",
};

/// How many inode numbers it has.
pub const NINODES: Word = Word {
    name: "NINODES",
    kind: Kind::Number,
    help: "Inode numbers, from 2 to 1024, the unused number 0 included",
};
