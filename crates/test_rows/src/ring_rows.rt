// Calls of a kernel over rings and a board. Lines between two empty ones are calls of one kernel, over
// a new image of 200 blocks and 32 inode numbers: the first says what they are there for, and the
// second how many processes it has.
use crate::lines::answer_lines;
use std::fs;

/// Does the calls of the file `ring-calls`.
pub fn print_ring_rows(rt: &HostRuntime) -> anyhow::Result<()> {
    let text = fs::read_to_string(rt, "ring-calls")?;
    for lines in text.as_str().split("\n\n") {
        answer_lines(rt, lines)?;
        println!(rt)?;
    }
    Ok(())
}
