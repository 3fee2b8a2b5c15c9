// A script from a reader.
use scripts::{Task, script_from};
use std::alloc::Global;
use std::io::Read;

// How long the comment is: over a mebibyte.
const COMMENT: usize = 1_048_577;

/// A long comment stands before the operation.
pub fn print_long_script(rt: &impl Print, alloc: Global) -> anyhow::Result<()> {
    let comment = vec![in alloc; 35u8; COMMENT]?;
    let input = comment.as_slice().chain(b"\n0 create 2\n".as_slice());
    let tasks = script_from(alloc, input)?;
    print_tasks(rt, tasks.as_slice())
}

fn print_tasks(rt: &impl Print, tasks: &[Task]) -> anyhow::Result<()> {
    println!(rt;
        "script with a comment of {COMMENT} bytes: {} operations",
        tasks.len()
    )?;
    for task in tasks {
        println!(rt; "operation of line {}", task.line)?;
    }
    Ok(())
}
