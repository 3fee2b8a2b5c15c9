// Calls of disks, caches, volumes and recovery.

use crate::bench::Bench;
use crate::rows::{Answered, print_rows};
use crate::volumes::Opened;
use crate::{caches, images, rows, volumes};
use bcache::Cache;
use blocks::NoMemory;
use std::alloc::Global;
use std::fs;

/// Does the calls of the file `volume-calls`.
pub fn print_volume_rows(rt: &HostRuntime) -> anyhow::Result<()> {
    let text = fs::read_to_string(rt, "volume-calls")?;
    print_rows(rt, rt.alloc(), text.as_str(), Table::new(rt.alloc()))
}

// What the lines work on: the disk, a cache beside it, and the volume that was opened last.
#[derive(Drop)]
struct Table {
    bench: Bench,
    cache: Cache,
    volume: Option<Opened>,
}

impl Table {
    fn new(alloc: Global) -> Result<Table, NoMemory> {
        match (Bench::new(alloc), Cache::new(alloc)) {
            (Ok(bench), Ok(cache)) => Ok(Table {
                bench,
                cache,
                volume: None,
            }),
            (Err(NoMemory), _) | (_, Err(NoMemory)) => Err(NoMemory),
        }
    }
}

impl rows::Table for Table {
    fn call(&mut self, alloc: Global, _line: &str, words: &[&str]) -> Answered {
        let answer = images::call(alloc, &mut self.bench, words)?;
        if answer.is_some() {
            return Ok(answer);
        }
        let answer = caches::call(alloc, &mut self.cache, &mut self.bench.disk, words)?;
        if answer.is_some() {
            return Ok(answer);
        }
        volumes::call(alloc, &mut self.bench.disk, &mut self.volume, words)
    }
}
