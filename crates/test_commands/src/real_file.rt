// A disk over a real file.
use crate::files::size_of;
use blocks::{Block, Disk, FileDisk, FileFault};
use std::{env, fs, process};

/// A real file keeps what was written. Before it is made, and behind its last opening, its length is
/// not that of a disk.
pub fn print_real_file(rt: &HostRuntime) -> anyhow::Result<()> {
    println!(rt; "\na real file keeps what was written")?;
    let folder = env::temp_dir(rt)?;
    let id = process::id(rt.process());
    let folder = folder.as_str();
    let path = format!(in rt.alloc(); "{folder}/xvfs-file-{id}.img")?;
    let path = path.as_str();
    fs::write(rt, path, "an old file of another length")?;
    print_opening(rt, path)?;
    write_disk(rt, path)?;
    print_bytes(rt, path)?;
    print_opening(rt, path)?;
    print_new(rt, path)?;
    print_read_only(rt, path)?;
    fs::write(rt, path, [1; 2560].as_slice())?;
    print_opening(rt, path)?;
    fs::remove_file(rt, path)?;
    Ok(())
}

fn print_opening(rt: &HostRuntime, path: &str) -> anyhow::Result<()> {
    let answer = size_of(FileDisk::open(rt, path));
    println!(rt; "opened: {answer:?}")?;
    Ok(())
}

// A disk that has to be new is refused where the file stands, which stays as it is.
fn print_new(rt: &HostRuntime, path: &str) -> anyhow::Result<()> {
    let answer = size_of(FileDisk::create_new(rt, path, 2));
    println!(rt; "made where it stands: {answer:?}")?;
    print_opening(rt, path)
}

// A disk that is only to be read takes no write.
fn print_read_only(rt: &HostRuntime, path: &str) -> anyhow::Result<()> {
    let block = Block::zeroed(rt.alloc())?;
    let answer = written(FileDisk::open_to_read(rt, path), &block);
    println!(rt; "opened to be read, and written to: {answer:?}")?;
    print_bytes(rt, path)
}

fn write_disk(rt: &HostRuntime, path: &str) -> anyhow::Result<()> {
    let mut block = Block::zeroed(rt.alloc())?;
    block.put(7, &[1, 2]);
    let answer = written(FileDisk::create(rt, path, 3), &block);
    println!(rt; "made, and written to: {answer:?}")?;
    Ok(())
}

// Writes block 2 of a disk. The disk's size, and whether it was written.
fn written<D: Disk + Drop>(
    disk: Result<D, FileFault>,
    block: &Block,
) -> Result<(u32, bool), FileFault> {
    match disk {
        Ok(mut disk) => {
            let size = disk.size();
            let is_written = size > 2 && disk.write(2, block).is_ok();
            Ok((size, is_written))
        }
        Err(fault) => Err(fault),
    }
}

fn print_bytes(rt: &HostRuntime, path: &str) -> anyhow::Result<()> {
    let bytes = fs::read(rt, path)?;
    print_set(rt, &bytes)
}

// How many bytes there are, and which are not 0.
fn print_set(rt: &impl Print, bytes: &[u8]) -> anyhow::Result<()> {
    println!(rt; "{} bytes", bytes.len())?;
    for (at, byte) in bytes.iter().enumerate() {
        if *byte != 0 {
            println!(rt; "byte {at}: {byte}")?;
        }
    }
    Ok(())
}
