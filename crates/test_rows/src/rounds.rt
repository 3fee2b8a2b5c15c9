// Rounds, in each of which every process of a kernel makes a step.
use crate::kernels::Opened;
use kernel::Step;
use model::types::Why;
use std::alloc::Global;

// How often the steps of rounds answered what.
#[derive(Clone, Copy, Default)]
struct Counts {
    moved: u32,
    answered: u32,
    committing: u32,
    log_full: u32,
    inode_held: u32,
    buffer_held: u32,
    no_buffer: u32,
}

fn count(number: &mut u32) {
    *number = number.saturating_add(1);
}

impl Counts {
    fn step(&mut self, step: Step) {
        match step {
            Step::Moved => count(&mut self.moved),
            Step::Answered => count(&mut self.answered),
            Step::Sleeping(Why::Committing) => count(&mut self.committing),
            Step::Sleeping(Why::LogFull) => count(&mut self.log_full),
            Step::Sleeping(Why::InodeHeld) => count(&mut self.inode_held),
            Step::Sleeping(Why::BufferHeld) => count(&mut self.buffer_held),
            Step::Sleeping(Why::NoBuffer) => count(&mut self.no_buffer),
            _ => {}
        }
    }
}

/// Makes so many rounds, or those in front of one in which every process is idle. How many these
/// were, and what their steps answered.
pub fn make_rounds(
    alloc: Global,
    kernel: &mut Opened,
    most: &str,
) -> anyhow::Result<Option<String>> {
    let most: u32 = most.parse()?;
    let mut counts = Counts::default();
    let mut made = 0;
    for round in 1..=most.min(2000) {
        if !make_round(kernel, &mut counts) {
            break;
        }
        made = round;
    }
    let (moved, answered, committing) = (counts.moved, counts.answered, counts.committing);
    let text = format!(in alloc; "{made} rounds, {moved} Moved, {answered} Answered")?;
    let log_full = counts.log_full;
    let text = format!(in alloc; "{text}, {committing} Committing, {log_full} LogFull")?;
    let (inode, buffer, none) = (counts.inode_held, counts.buffer_held, counts.no_buffer);
    Ok(Some(format!(in alloc; "{text}, {inode} InodeHeld, {buffer} BufferHeld, {none} NoBuffer")?))
}

// A step of each process. Whether one of them was not idle.
fn make_round(kernel: &mut Opened, counts: &mut Counts) -> bool {
    let mut is_busy = false;
    for pid in 0..32u32 {
        if pid as usize >= kernel.processes() {
            return is_busy;
        }
        let step = kernel.step(pid);
        counts.step(step);
        is_busy = is_busy || step != Step::Idle;
    }
    is_busy
}
