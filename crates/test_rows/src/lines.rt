// The lines of one kernel.
use crate::calls::{Call, Told};
use crate::session::{Session, open};
use blocks::MemDisk;
use kernel::OpenFault;
use layout::MkfsFault;
use offline::mkfs;
use std::alloc::Global;
use std::str::Lines;
use sysring::Board;

// How many watches a board has here.
const WATCHES: usize = 2;

/// Does the calls of these lines behind the second, and prints each with its answer. The first is
/// printed, and the second says how many processes the kernel has.
pub fn answer_lines<R: Print + AllocGlobal>(rt: &R, lines: &str) -> anyhow::Result<()> {
    let mut lines = lines.lines();
    let (Some(title), Some(second)) = (lines.next(), lines.next()) else {
        return Ok(());
    };
    println!(rt; "{title}")?;
    println!(rt; "{second}")?;
    let Some(("processes", count)) = second.split_once(' ') else {
        return Ok(());
    };
    answer_over(rt, lines, count.parse()?, new_image(rt.alloc()))
}

/// A disk of 200 blocks with a new image.
pub fn new_image(alloc: Global) -> Result<MemDisk, MkfsFault> {
    let mut disk = MemDisk::new(alloc, 200)?;
    match mkfs(alloc, &mut disk, 200, 32) {
        Ok(()) => Ok(disk),
        Err(fault) => Err(fault),
    }
}

// Does the calls over a disk, if it could be made.
fn answer_over<R: Print + AllocGlobal>(
    rt: &R,
    lines: Lines<'_>,
    processes: u32,
    disk: Result<MemDisk, MkfsFault>,
) -> anyhow::Result<()> {
    match disk {
        Ok(disk) => answer_on_board(rt, lines, processes, disk),
        Err(fault) => Err(fault.into()),
    }
}

fn answer_on_board<R: Print + AllocGlobal>(
    rt: &R,
    lines: Lines<'_>,
    processes: u32,
    disk: MemDisk,
) -> anyhow::Result<()> {
    match Board::new(rt.alloc(), WATCHES) {
        Ok((board, keeper, watches)) => {
            let session = open(rt.alloc(), disk, &board, keeper, watches, processes);
            answer_in(rt, lines, session)
        }
        Err(refused) => Err(refused.into()),
    }
}

// Does the calls in a session, if it could be opened.
fn answer_in<R: Print + AllocGlobal>(
    rt: &R,
    lines: Lines<'_>,
    session: Result<Session<'_>, OpenFault>,
) -> anyhow::Result<()> {
    match session {
        Ok(mut session) => answer_all(rt, lines, &mut session),
        Err(fault) => Err(fault.into()),
    }
}

fn answer_all<R: Print + AllocGlobal>(
    rt: &R,
    lines: Lines<'_>,
    session: &mut Session<'_>,
) -> anyhow::Result<()> {
    for line in lines {
        let told = answer(rt.alloc(), line, session);
        let text = told.text(rt.alloc())?;
        println!(rt; "{line}: {text}")?;
    }
    Ok(())
}

fn answer(alloc: Global, line: &str, session: &mut Session<'_>) -> Told {
    match Call::parse(alloc, line) {
        Ok(Some(call)) => session.make(call),
        Ok(None) => Told::Refused,
        Err(fault) => Told::Fault(fault),
    }
}
