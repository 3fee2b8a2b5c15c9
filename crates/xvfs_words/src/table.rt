// The commands of `xvfs`, and their words, as a table.
use cli::TOPICS;
use cli::table::{
    EXPLAIN, IMAGE, IMAGE_KEPT, IMAGE_MADE, JSON, Kind, Line, NINODES, NO_SYNC, Outline, SIZE,
    SYNC, VERSION, Word,
};

pub(crate) const XVFS: Outline = Outline {
    name: "xvfs",
    version: VERSION,
    about: "Makes, checks, lists, shows, fills, copies and recovers images of the xv6 file system, and runs scripts of operations over them; without words, does the command lines of standard input",
    lines: LINES,
    topics: TOPICS,
};

const SCRIPT: Word = Word {
    name: "SCRIPT",
    kind: Kind::Needed,
    help: "The path of the script, whose lines are the operations of processes: 'xvfs help script' has them, and types",
};

const SCHEDULE: Word = Word {
    name: "SCHEDULE",
    kind: Kind::Needed,
    help: "The path of the schedule, whose words say which process goes on: 'xvfs help schedule' has them",
};

const OLD: Word = Word {
    name: "OLD",
    kind: Kind::Needed,
    help: "The path of the image's file, which is not changed",
};

const NEW: Word = Word {
    name: "NEW",
    kind: Kind::Needed,
    help: "The path of the file that is made",
};

const REPLAY_WORDS: &str = "Words of --steps:
  begin    begins the operation that waits, if one does and it may
  ref      takes a reference to the file's inode
  lock     takes the inode's lock
  get B    gets block B, which no other process then has
  use B    reads or changes block B, which it got or kept
  look     looks at the inode in the block that it got
  finish   gives out what was read, and then the lock and the reference back
  put      gives the lock and the reference back
  end      ends the operation in the log; the last one's process then commits
  log, header, home, clear, sync
           a step of the commit; --writes has its line

Example:
  xvfs replay fs.img script schedule --stop 3";

const LINES: &[Line] = &[
    Line {
        name: "mkfs",
        about: "Makes an image in a new file, or in place of an old one",
        example: "Example:\n  xvfs mkfs fs.img 2000 200",
        image: Some(IMAGE_MADE),
        words: &[
            SIZE,
            NINODES,
            Word {
                name: "large",
                kind: Kind::Flag,
                help: "Makes an image for files of up to 65803 blocks, which xv6 itself doesn't read",
            },
            NO_SYNC,
        ],
    },
    Line {
        name: "check",
        about: "Says whether an image is sound, and counts its logged blocks and its files",
        example: "Examples:\n  xvfs check fs.img\n  xvfs check fs.img --all",
        image: Some(IMAGE_KEPT),
        words: &[
            Word {
                name: "all",
                kind: Kind::Flag,
                help: "Prints all faults of the image, a line each, and how many there are",
            },
            JSON,
        ],
    },
    Line {
        name: "ls",
        about: "Lists the files of an image: number, type (1 directory, 2 file, 3 device), bytes and blocks",
        example: "Examples:\n  xvfs ls fs.img\n  xvfs ls fs.img --json",
        image: Some(IMAGE_KEPT),
        words: &[JSON],
    },
    Line {
        name: "df",
        about: "Counts the blocks and the inodes of an image, used and free ones",
        example: "Examples:\n  xvfs df fs.img\n  xvfs df fs.img --json",
        image: Some(IMAGE_KEPT),
        words: &[JSON],
    },
    Line {
        name: "cat",
        about: "Recovers an image, and writes the bytes of one of its files",
        example: "Examples:\n  xvfs cat fs.img 1\n  xvfs cat fs.img 1 --read-only",
        image: Some(IMAGE),
        words: &[
            Word {
                name: "INUM",
                kind: Kind::Number,
                help: "The file's inode number",
            },
            Word {
                name: "read-only",
                kind: Kind::Flag,
                help: "Writes nothing to the image, and reads its files as a recovery would leave them",
            },
        ],
    },
    Line {
        name: "show",
        about: "Draws the blocks of an image, a sign each, or lists those of one file, or of the log",
        example: "Examples:\n  xvfs show fs.img\n  xvfs show fs.img 1\n  xvfs show fs.img log",
        image: Some(IMAGE_KEPT),
        words: &[
            Word {
                name: "INUM",
                kind: Kind::Free,
                help: "A file's inode number, whose blocks are listed in their order; or log, for the logged blocks with their homes",
            },
            Word {
                name: "picture",
                kind: Kind::Path,
                help: "Draws the blocks of the whole image into this file, too, as a page that a browser shows",
            },
            JSON,
        ],
    },
    Line {
        name: "put",
        about: "Puts a file into an image, as a new file or in place of one, and prints its number",
        example: "Examples:\n  xvfs put fs.img notes.txt\n  xvfs put fs.img notes.txt 1",
        image: Some(IMAGE),
        words: &[
            Word {
                name: "FILE",
                kind: Kind::Needed,
                help: "The path of the file whose bytes are put; a new file has type 2 (1 is a directory, 3 a device)",
            },
            Word {
                name: "INUM",
                kind: Kind::Choice,
                help: "The inode number of the file that gets the bytes in place of its own; a stop leaves the old or the new; of more than 3072 bytes only where both have room",
            },
            SYNC,
            NO_SYNC,
        ],
    },
    Line {
        name: "copy",
        about: "Copies the files of an image into a new one that has room for large files",
        example: "Example:\n  xvfs copy old.img new.img --size 8191",
        image: Some(OLD),
        words: &[
            NEW,
            Word {
                name: "size",
                kind: Kind::Valued,
                help: "Blocks of the new image; as many as the old one has where it is not given",
            },
            Word {
                name: "sync",
                kind: Kind::Flag,
                help: "Changes nothing, since a copy is synced before and after its superblock",
            },
            NO_SYNC,
        ],
    },
    Line {
        name: "convert",
        about: "Makes an image of an older xv6, whose log has another length, one of today",
        example: "Examples:\n  xvfs convert fs.img new.img\n  xvfs convert fs.img old.img --log 30",
        image: Some(OLD),
        words: &[
            NEW,
            Word {
                name: "log",
                kind: Kind::Valued,
                help: "Blocks of the new image's log: 31, where it is not given, or for an older kernel 11 to 30",
            },
            Word {
                name: "size",
                kind: Kind::Valued,
                help: "Blocks of the new image; as many data blocks as the old one has where it is not given",
            },
            NO_SYNC,
        ],
    },
    Line {
        name: "rescue",
        about: "Copies the files of a damaged image that are whole into a new one, and tells which these are",
        example: "Example:\n  xvfs rescue old.img new.img",
        image: Some(OLD),
        words: &[NEW, NO_SYNC],
    },
    Line {
        name: "recover",
        about: "Checks an image, and copies the blocks of its log home",
        example: "Example:\n  xvfs recover fs.img",
        image: Some(IMAGE),
        words: &[SYNC, JSON],
    },
    Line {
        name: "replay",
        about: "Recovers an image, and carries out a script's operations, step by step as a schedule says",
        example: REPLAY_WORDS,
        image: Some(IMAGE),
        words: &[
            SCRIPT,
            SCHEDULE,
            Word {
                name: "stop",
                kind: Kind::LongValued,
                help: "Stops before this write, counted from 1 once the image is recovered",
            },
            SYNC,
            Word {
                name: "writes",
                kind: Kind::Flag,
                help: "Tells each write below its word's line: its number, its block, and what it is",
            },
            Word {
                name: "steps",
                kind: Kind::Flag,
                help: "Tells each step of a word below its line: what it was to do",
            },
            Word {
                name: "picture",
                kind: Kind::Path,
                help: "Makes a page in this file, too, that walks through the steps in a browser",
            },
            Word {
                name: "plain",
                kind: Kind::Flag,
                help: "Draws the steps on the page of --picture, for printing, without a script",
            },
            Word {
                name: "json",
                kind: Kind::Flag,
                help: "Prints lines of JSON in place of text: an object for each step and each word, then the counts",
            },
        ],
    },
    Line {
        name: "run",
        about: "Recovers an image, and carries out a script's operations, each process's in order, by threads",
        example: "Examples:\n  xvfs run fs.img script --group\n  xvfs run fs.img script --workers 4",
        image: Some(IMAGE),
        words: &[
            SCRIPT,
            Word {
                name: "workers",
                kind: Kind::FewValued,
                help: "Threads that make the steps, from 1 to 32, to try interleavings and not for speed; 1 where it is not given",
            },
            Word {
                name: "group",
                kind: Kind::Preset("1000"),
                help: "For speed: commits many operations as one, up to N answers (1000 where no number is given) or 10 ms; an answer is durable once its group is committed",
            },
            SYNC,
        ],
    },
    Line {
        name: "stops",
        about: "Carries out a script's operations up to each of their writes, and checks what each stop leaves",
        example: "Example:\n  xvfs stops script schedule",
        image: None,
        words: &[
            SCRIPT,
            SCHEDULE,
            EXPLAIN,
            Word {
                name: "held",
                kind: Kind::Flag,
                help: "Carries them out over a disk that holds writes back, and loses any of these at each stop",
            },
            Word {
                name: "picture",
                kind: Kind::Path,
                help: "Makes a page in this file, too, that walks through the run, with its stops, in a browser",
            },
            Word {
                name: "plain",
                kind: Kind::Flag,
                help: "Draws the stops on the page of --picture, for printing, without a script",
            },
            JSON,
        ],
    },
];
