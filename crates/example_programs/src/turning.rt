// Two processes in turns: each makes a file, both in one group of the log.
use blocks::{FaultyDisk, MemDisk};
use kernel::Kernel;
use model::types::Op;
use ports::{PlainHerald, QueueIntake};

/// Makes up to eight steps of each process, in turn, with a creation handed in before its first.
pub fn take_turns(kernel: &mut Kernel<FaultyDisk<MemDisk>, QueueIntake, PlainHerald>) {
    for pid in [0, 1, 0, 1, 0, 1, 0, 1, 0, 1, 0, 1, 0, 1, 0, 1] {
        if (pid as usize) < kernel.processes() && kernel.begun(pid) == 0 {
            let _number = kernel.submit(pid, Op::Create(2));
        }
        if (pid as usize) < kernel.processes() {
            let _step = kernel.step(pid);
        }
    }
}
