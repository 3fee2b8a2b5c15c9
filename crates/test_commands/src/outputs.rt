// Outputs that are refused.
use crate::ground::new_image;
use crate::refusals::{is_output_of_check, is_output_of_recovery};
use crate::wrong::{Wrong, ensure};
use blocks::MemDisk;
use disk_commands::{check_disk, recover_disk};
use messages::Silent;
use std::alloc::Global;
use std::io::{self, BufWriter, ErrorKind, Write};

// A writer that fails once this many bytes are written.
#[derive(Drop)]
struct Narrow {
    room: usize,
}

impl Write for Narrow {
    fn write(&mut self, buf: &[u8]) -> io::Result<usize> {
        let count = self.room.min(buf.len());
        if count == 0 {
            return Err(io::Error::from(ErrorKind::StorageFull));
        }
        self.room -= count;
        Ok(count)
    }

    fn flush(&mut self) -> io::Result<()> {
        Ok(())
    }
}

/// A check and a recovery whose output has too little room tell of it.
pub fn print_outputs(rt: &impl Print, alloc: Global) -> anyhow::Result<()> {
    match new_image(alloc) {
        Ok(mut disk) => refuse_all(rt, alloc, &mut disk),
        Err(wrong) => Err(wrong.into()),
    }
}

fn refuse_all(rt: &impl Print, alloc: Global, disk: &mut MemDisk) -> anyhow::Result<()> {
    for room in [0, 5, 19] {
        refuse_check(alloc, disk, room)?;
        println!(rt; "check, room for {room} bytes: no output, also behind a buffer")?;
    }
    refuse_recovery(alloc, disk)?;
    println!(rt; "check, room for 20 bytes: done; recover behind it: no output")?;
    Ok(())
}

fn refuse_check(alloc: Global, disk: &mut MemDisk, room: usize) -> Result<(), Wrong> {
    let ended = check_disk(alloc, disk, false, &mut Narrow { room });
    ensure(is_output_of_check(&ended), "the output was not refused")?;
    let Ok(mut out) = BufWriter::new(alloc, Narrow { room }) else {
        return Err(Wrong::NoMemory);
    };
    let ended = check_disk(alloc, disk, false, &mut out);
    ensure(
        is_output_of_check(&ended),
        "the buffered output was not refused",
    )
}

// A check whose output has just enough room, and a recovery behind it.
fn refuse_recovery(alloc: Global, disk: &mut MemDisk) -> Result<(), Wrong> {
    let Ok(mut out) = BufWriter::new(alloc, Narrow { room: 20 }) else {
        return Err(Wrong::NoMemory);
    };
    let is_checked = check_disk(alloc, disk, false, &mut out).is_ok();
    let ended = recover_disk(alloc, disk, false, &mut Silent, &mut out);
    ensure(is_checked, "the output of the check was refused")?;
    ensure(is_output_of_recovery(&ended), "the output was not refused")
}
