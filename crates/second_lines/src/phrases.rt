// What is said of refusals that need no look.

// Of an image's fault.
pub fn fault_phrase(number: u32) -> Option<&'static str> {
    match number {
        3 => Some("its log has more than 30 blocks, or a home outside the image's, or one twice"),
        4 => Some("the inode's type is over 3"),
        5 => Some("the inode's size is over that of the largest file"),
        6 => Some("an address of the inode is missing, or is that of no data block"),
        7 => Some("the block stands at two places"),
        8 => Some("the block is used, and its bit is clear"),
        9 => Some("the block's bit is set, and it stands at no place"),
        _ => None,
    }
}

// Of a recovery, or of a kernel that isn't opened.
pub fn recover_phrase(name: &str) -> Option<&'static str> {
    match name {
        "Disk" => Some("a read or a write of it failed"),
        "BadLog" => fault_phrase(3),
        "Sync" => Some("a sync of it failed"),
        "ProcRange" => Some("a kernel over it has 1 to 32 processes"),
        _ => None,
    }
}

// Of a run by threads.
pub fn run_phrase(number: u32) -> Option<&'static str> {
    match number {
        1 => Some("the system gives no thread; it was recovered, and no operation was begun"),
        3 => Some("an operation has no answer; the counts say which have one"),
        4 => Some("memory stayed refused for a second; the counts say what was answered"),
        _ => None,
    }
}

// Of command lines from a reader.
pub fn input_phrase(number: u32) -> Option<&'static str> {
    match number {
        1 => Some("standard input: it can't be read, or isn't UTF-8"),
        2 => Some("standard input: more than 65536 bytes"),
        3 => Some("standard input: memory was refused"),
        _ => None,
    }
}

// Of a path in an image.
pub fn names_phrase(number: u32) -> Option<&'static str> {
    match number {
        1 => Some("a name of it is not there"),
        2 => Some("a file on it, or the file itself, is no directory"),
        3 => Some("it is a directory"),
        4 => Some("it is there already"),
        5 => Some("something is in the directory"),
        6 => Some("it is the root"),
        7 => Some("its last name is . or .."),
        8 => Some("a name of it has more than 14 bytes"),
        9 => Some("its directory has 17,152 entries or more, and none is free"),
        10 => Some("each number has a file"),
        11 => Some("no block is free"),
        12 => Some("a file of the image can't have so many bytes"),
        13 => Some("its files are no tree of directories"),
        14 => Some("the directory would be moved into itself"),
        15 => Some("a name of it has a zero byte"),
        16 => Some("memory was refused"),
        17 => Some("the kernel takes no more calls"),
        18 => Some("the change needs more than ten blocks of the log"),
        19 => Some("a name below it can't be that of a file of the system"),
        20 => Some("as many names lead to the file as its count can say"),
        22 => Some("one of the two is a device"),
        23 => Some("both paths lead to the same file"),
        _ => None,
    }
}
