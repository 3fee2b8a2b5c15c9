// The commands of `xvnames`, and their words, as a table.
use cli::table::{
    IMAGE, IMAGE_KEPT, IMAGE_MADE, JSON, Kind, Line, NINODES, NO_SYNC, Outline, SIZE, SYNC,
    VERSION, Word,
};

pub const XVNAMES: Outline = Outline {
    name: "xvnames",
    version: VERSION,
    about: "Lists, reads, puts, moves, links and removes the files of images of the xv6 file system by their paths, and makes images with files; without words, does the command lines of standard input",
    lines: LINES,
    topics: &[],
};

const PATH: Word = Word {
    name: "PATH",
    kind: Kind::Needed,
    help: "The file's path in the image, from its root",
};

const FOLDER: Word = Word {
    name: "PATH",
    kind: Kind::Free,
    help: "The directory's path in the image; the root where it is not given",
};

const FILE_PUT: Word = Word {
    name: "FILE",
    kind: Kind::Needed,
    help: "The path of the file whose bytes are put; a new file has type 2 (1 is a directory, 3 a device); a stop leaves the old bytes or the new; of more than 3072, where the image is no plain file with one name, maybe a beginning of the new",
};

const FILES: Word = Word {
    name: "FILE",
    kind: Kind::Rest,
    help: "The paths of the files; each is named by the last part of its path, without a _ that this begins with",
};

const LINES: &[Line] = &[
    Line {
        name: "ls",
        about: "Lists a directory but for . and .., a line an entry: name, number, type (1 directory, 2 file, 3 device) and bytes",
        example: "Examples:\n  xvnames ls fs.img\n  xvnames ls fs.img /docs\n  xvnames ls fs.img --json",
        image: Some(IMAGE_KEPT),
        words: &[FOLDER, JSON],
    },
    Line {
        name: "stat",
        about: "Prints a file's number, type (1 directory, 2 file, 3 device), bytes and count of links",
        example: "Examples:\n  xvnames stat fs.img /README\n  xvnames stat fs.img /README --json",
        image: Some(IMAGE_KEPT),
        words: &[PATH, JSON],
    },
    Line {
        name: "tree",
        about: "Prints the paths of all files below a directory, a line each; those of directories end with a slash",
        example: "Examples:\n  xvnames tree fs.img\n  xvnames tree fs.img /docs\n  xvnames tree fs.img --json",
        image: Some(IMAGE_KEPT),
        words: &[FOLDER, JSON],
    },
    Line {
        name: "cat",
        about: "Writes the bytes of a file",
        example: "Example:\n  xvnames cat fs.img /README",
        image: Some(IMAGE_KEPT),
        words: &[PATH],
    },
    Line {
        name: "get",
        about: "Copies a file of an image into a new file, or with -r a directory with all below it into a new folder",
        example: "Examples:\n  xvnames get fs.img /README readme.txt\n  xvnames get -r fs.img /docs docs",
        image: Some(IMAGE_KEPT),
        words: &[
            PATH,
            Word {
                name: "FILE",
                kind: Kind::Needed,
                help: "The path of the file, or of the folder, that is made",
            },
            Word {
                name: "all",
                kind: Kind::Letter('r'),
                help: "Copies a directory with all below it into a new folder",
            },
        ],
    },
    Line {
        name: "put",
        about: "Puts a file into an image under a path, as a new file or in place of one, and prints its number, or with -r all that is below a folder into a directory",
        example: "Examples:\n  xvnames put fs.img notes.txt /docs/notes.txt\n  xvnames put -r fs.img docs /docs",
        image: Some(IMAGE),
        words: &[
            FILE_PUT,
            PATH,
            SYNC,
            NO_SYNC,
            Word {
                name: "all",
                kind: Kind::Letter('r'),
                help: "Puts all files and folders that are below the folder FILE into the directory PATH, which is made where nothing is there, all of them or nothing: a stop leaves the old image or the new",
            },
        ],
    },
    Line {
        name: "rm",
        about: "Removes a name of a file, which is no directory, and the file with its last name, or with -r a directory with all below it",
        example: "Examples:\n  xvnames rm fs.img /docs/notes.txt\n  xvnames rm -r fs.img /docs",
        image: Some(IMAGE),
        words: &[
            PATH,
            SYNC,
            NO_SYNC,
            Word {
                name: "all",
                kind: Kind::Letter('r'),
                help: "Removes a directory with all below it, one name after the other, those below first; a stop leaves a tree with some of it removed",
            },
        ],
    },
    Line {
        name: "mv",
        about: "Gives a file or a directory another path, where nothing is",
        example: "Example:\n  xvnames mv fs.img /README /docs/readme",
        image: Some(IMAGE),
        words: &[
            Word {
                name: "FROM",
                kind: Kind::Needed,
                help: "The path in the image that it has",
            },
            Word {
                name: "TO",
                kind: Kind::Needed,
                help: "The path in the image that it gets, its own name included",
            },
            SYNC,
            NO_SYNC,
        ],
    },
    Line {
        name: "cp",
        about: "Copies a file, which is no directory or device, within an image to a path, as a new file or in place of one, or under its own name into a directory, and prints the copy's number",
        example: "Examples:\n  xvnames cp fs.img /README /docs/readme\n  xvnames cp fs.img /README /docs",
        image: Some(IMAGE),
        words: &[
            Word {
                name: "FROM",
                kind: Kind::Needed,
                help: "The file's path in the image",
            },
            Word {
                name: "TO",
                kind: Kind::Needed,
                help: "The path in the image that the copy gets, or a directory's; a stop leaves the old bytes or the new; of more than 3072, where the image is no plain file with one name, maybe a beginning of the new",
            },
            SYNC,
            NO_SYNC,
        ],
    },
    Line {
        name: "ln",
        about: "Gives a file, which is no directory, a second name",
        example: "Example:\n  xvnames ln fs.img /README /docs/readme",
        image: Some(IMAGE),
        words: &[
            Word {
                name: "OLD",
                kind: Kind::Needed,
                help: "The path in the image that it has",
            },
            Word {
                name: "NEW",
                kind: Kind::Needed,
                help: "The path in the image that it gets besides, where nothing is",
            },
            SYNC,
            NO_SYNC,
        ],
    },
    Line {
        name: "mkdir",
        about: "Makes a directory, or with -p each of its path that is not there",
        example: "Examples:\n  xvnames mkdir fs.img /docs\n  xvnames mkdir -p fs.img /docs/old/first",
        image: Some(IMAGE),
        words: &[
            PATH,
            SYNC,
            NO_SYNC,
            Word {
                name: "parents",
                kind: Kind::Letter('p'),
                help: "Makes each directory of the path that is not there, from the first on; a stop leaves a beginning of them",
            },
        ],
    },
    Line {
        name: "rmdir",
        about: "Removes a directory in which nothing is",
        example: "Example:\n  xvnames rmdir fs.img /docs",
        image: Some(IMAGE),
        words: &[PATH, SYNC, NO_SYNC],
    },
    Line {
        name: "check",
        about: "Says whether an image is sound and its files a tree, and lists each path of a file whose count of links is not how many names lead to it: number, links and names; where they are no tree, each flaw by its path and its number",
        example: "Examples:\n  xvnames check fs.img\n  xvnames check fs.img --json",
        image: Some(IMAGE_KEPT),
        words: &[JSON],
    },
    Line {
        name: "recount",
        about: "Sets each file's wrong count of links to how many names lead to it, and prints how many were wrong",
        example: "Example:\n  xvnames recount fs.img",
        image: Some(IMAGE),
        words: &[SYNC, NO_SYNC],
    },
    Line {
        name: "mkfs",
        about: "Makes an image with a root directory and these files in it, in a new file or in place of an old one",
        example: "Example:\n  xvnames mkfs fs.img 2000 200 README _cat _ls",
        image: Some(IMAGE_MADE),
        words: &[SIZE, NINODES, FILES, NO_SYNC],
    },
];
