// Calls of disks and of a kernel over one, and scripts and schedules that are read.

use crate::bench::Bench;
use crate::kernels::Opened;
use crate::rows::{Answered, print_rows};
use crate::{images, kernels, readings, rows};
use blocks::NoMemory;
use std::alloc::Global;
use std::fs;

/// Does the calls of the file `kernel-calls`.
pub fn print_kernel_rows(rt: &HostRuntime) -> anyhow::Result<()> {
    let text = fs::read_to_string(rt, "kernel-calls")?;
    print_rows(rt, rt.alloc(), text.as_str(), Table::new(rt.alloc()))
}

// What the lines work on: the disk, and the kernel that was opened last.
#[derive(Drop)]
struct Table {
    bench: Bench,
    kernel: Option<Opened>,
}

impl Table {
    fn new(alloc: Global) -> Result<Table, NoMemory> {
        Ok(Table {
            bench: Bench::new(alloc)?,
            kernel: None,
        })
    }
}

impl rows::Table for Table {
    fn call(&mut self, alloc: Global, line: &str, words: &[&str]) -> Answered {
        let answer = readings::call(alloc, line)?;
        if answer.is_some() {
            return Ok(answer);
        }
        let answer = images::call(alloc, &mut self.bench, words)?;
        if answer.is_some() {
            return Ok(answer);
        }
        kernels::call(alloc, &mut self.bench.disk, &mut self.kernel, words)
    }
}
