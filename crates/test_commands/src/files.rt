// Disks over files in memory that refuse a call.
use blocks::{BLOCK_SIZE, Disk, FileDisk, FileFault};
use std::alloc::{Allocator, Global};
use std::fs::{Metadata, OpenFile, OpenOptions};
use std::io::{self, Cursor, ErrorKind, Read, Seek, SeekFrom, Write};
use std::rt::Files;

#[derive(Clone, Copy, Debug, PartialEq)]
enum Call {
    Open,
    Metadata,
    SetLen,
    Read,
}

// A file in memory, which refuses the calls of one kind. `length` is what it says of itself.
#[derive(Drop)]
struct FakeFile {
    bytes: Cursor<Vec<u8>>,
    length: u64,
    refuses: Option<Call>,
    error: ErrorKind,
}

impl FakeFile {
    // Refuses a call that it is to refuse.
    fn allow(&self, call: Call) -> io::Result<()> {
        if self.refuses == Some(call) {
            return Err(io::Error::from(self.error));
        }
        Ok(())
    }
}

impl Read for FakeFile {
    fn read(&mut self, buf: &mut [u8]) -> io::Result<usize> {
        self.allow(Call::Read)?;
        self.bytes.read(buf)
    }
}

impl Write for FakeFile {
    fn write(&mut self, buf: &[u8]) -> io::Result<usize> {
        self.bytes.write(buf)
    }

    fn flush(&mut self) -> io::Result<()> {
        Ok(())
    }
}

impl Seek for FakeFile {
    fn seek(&mut self, to: SeekFrom) -> io::Result<u64> {
        self.bytes.seek(to)
    }
}

impl OpenFile for FakeFile {
    fn metadata(&self) -> io::Result<Metadata> {
        self.allow(Call::Metadata)?;
        Ok(Metadata::of_file(self.length))
    }

    fn set_len(&self, _size: u64) -> io::Result<()> {
        self.allow(Call::SetLen)
    }

    fn sync_all(&self) -> io::Result<()> {
        Ok(())
    }

    fn sync_data(&self) -> io::Result<()> {
        Ok(())
    }
}

// How a file has to be opened.
#[derive(Clone, Copy, PartialEq)]
enum Way {
    Read,
    Write,
    WriteOver,
    WriteNew,
}

impl Way {
    // How these options open a file; None where they don't ask to read it.
    fn of(how: &OpenOptions) -> Option<Way> {
        if !how.asks_read() {
            None
        } else if !how.asks_write() {
            Some(Way::Read)
        } else if how.asks_create_new() {
            Some(Way::WriteNew)
        } else if how.asks_create() && how.asks_truncate() {
            Some(Way::WriteOver)
        } else {
            Some(Way::Write)
        }
    }
}

// A runtime with one file, "disk", of two blocks, which has to be opened in this way, says that it
// has this length and refuses this call with this error.
#[derive(Drop)]
struct Shelf {
    alloc: Global,
    way: Way,
    length: u64,
    refuses: Option<Call>,
    error: ErrorKind,
}

impl Alloc for Shelf {
    type A = Global;

    fn alloc(&self) -> Global {
        self.alloc
    }
}

fn unsupported() -> io::Error {
    io::Error::from(ErrorKind::Unsupported)
}

impl Files for Shelf {
    type File = FakeFile;

    type Dir = FakeFile;

    fn open_file(&self, how: &OpenOptions, path: &str) -> io::Result<FakeFile> {
        let file = FakeFile {
            bytes: Cursor::new(vec![in self.alloc; 1; 2 * BLOCK_SIZE]?),
            length: self.length,
            refuses: self.refuses,
            error: self.error,
        };
        file.allow(Call::Open)?;
        if path != "disk" || Way::of(how) != Some(self.way) {
            return Err(unsupported());
        }
        Ok(file)
    }

    fn open_dir(&self, _path: &str) -> io::Result<FakeFile> {
        Err(unsupported())
    }

    fn metadata(&self, _path: &str) -> io::Result<Metadata> {
        Err(unsupported())
    }

    fn symlink_metadata(&self, _path: &str) -> io::Result<Metadata> {
        Err(unsupported())
    }

    fn copy(&self, _from: &str, _to: &str) -> io::Result<u64> {
        Err(unsupported())
    }

    fn rename(&self, _from: &str, _to: &str) -> io::Result<()> {
        Err(unsupported())
    }

    fn remove_file(&self, _path: &str) -> io::Result<()> {
        Err(unsupported())
    }

    fn create_dir(&self, _path: &str) -> io::Result<()> {
        Err(unsupported())
    }

    fn remove_dir(&self, _path: &str) -> io::Result<()> {
        Err(unsupported())
    }

    fn remove_dir_all<B: Allocator>(&self, _alloc: B, _path: &str) -> io::Result<()> {
        Err(unsupported())
    }
}

// What a file says of its length, the call that it refuses, and with which error.
type Row = (u64, Option<Call>, ErrorKind);

const DENIED: ErrorKind = ErrorKind::PermissionDenied;

const MEMORY: ErrorKind = ErrorKind::OutOfMemory;

const OPENINGS: [Row; 12] = [
    (2048, None, DENIED),
    (0, None, DENIED),
    (1, None, DENIED),
    (2047, None, DENIED),
    (8192 * 1024, None, DENIED),
    // As long as a disk may be, but the bytes end before.
    (8191 * 1024, None, DENIED),
    (2048, Some(Call::Open), DENIED),
    (2048, Some(Call::Open), MEMORY),
    (1, Some(Call::Metadata), DENIED),
    (1, Some(Call::Read), DENIED),
    (2048, Some(Call::Read), DENIED),
    (2048, Some(Call::Read), MEMORY),
];

const READABLE: [Row; 4] = [
    (2048, None, DENIED),
    (2047, None, DENIED),
    (2048, Some(Call::Open), DENIED),
    (2048, Some(Call::Read), MEMORY),
];

const MAKINGS: [Row; 3] = [
    (0, None, DENIED),
    (0, Some(Call::Open), DENIED),
    (0, Some(Call::SetLen), DENIED),
];

const NEW_ONES: [Row; 5] = [
    (0, None, DENIED),
    (0, Some(Call::Open), DENIED),
    (0, Some(Call::Open), MEMORY),
    (0, Some(Call::Open), ErrorKind::AlreadyExists),
    (0, Some(Call::SetLen), ErrorKind::AlreadyExists),
];

fn make_shelf(alloc: Global, way: Way, (length, refuses, error): Row) -> Shelf {
    Shelf {
        alloc,
        way,
        length,
        refuses,
        error,
    }
}

/// The size of the disk that a file is.
pub fn size_of<D: Disk + Drop>(disk: Result<D, FileFault>) -> Result<u32, FileFault> {
    match disk {
        Ok(disk) => Ok(disk.size()),
        Err(fault) => Err(fault),
    }
}

/// Opens what is a disk, and what isn't.
pub fn print_openings(rt: &impl Print, alloc: Global) -> anyhow::Result<()> {
    println!(rt; "opens what is a disk")?;
    for row in OPENINGS {
        let answer = size_of(FileDisk::open(&make_shelf(alloc, Way::Write, row), "disk"));
        print_row(rt, row, answer)?;
    }
    println!(rt; "\nopens what is only to be read")?;
    for row in READABLE {
        let answer = size_of(FileDisk::open_to_read(&make_shelf(alloc, Way::Read, row), "disk"));
        print_row(rt, row, answer)?;
    }
    Ok(())
}

/// Makes what the system allows.
pub fn print_makings(rt: &impl Print, alloc: Global) -> anyhow::Result<()> {
    println!(rt; "\nmakes what the system allows")?;
    for row in MAKINGS {
        let answer = size_of(FileDisk::create(&make_shelf(alloc, Way::WriteOver, row), "disk", 3));
        print_row(rt, row, answer)?;
    }
    println!(rt; "\nmakes what has to be new")?;
    for row in NEW_ONES {
        let answer = size_of(FileDisk::create_new(
            &make_shelf(alloc, Way::WriteNew, row),
            "disk",
            3,
        ));
        print_row(rt, row, answer)?;
    }
    Ok(())
}

fn print_row(
    rt: &impl Print,
    (length, refuses, error): Row,
    answer: Result<u32, FileFault>,
) -> anyhow::Result<()> {
    println!(rt; "{length} bytes, {refuses:?} refused, {error:?}: {answer:?}")?;
    Ok(())
}
