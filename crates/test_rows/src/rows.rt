// The lines of a file of calls.
use crate::bench::text_of;
use blocks::NoMemory;
use std::alloc::Global;

/// What the call of a line answers; None where the line is no call for which all holds that it asks.
pub type Answered = anyhow::Result<Option<String>>;

/// What the lines of a file work on.
pub trait Table {
    /// Does the call of a line with these words.
    fn call(&mut self, alloc: Global, line: &str, words: &[&str]) -> Answered;
}

/// Does the calls of a text over a new table, and prints each line with its answer. The table may have
/// been refused.
pub fn print_rows<T: Table + Drop>(
    rt: &impl Print,
    alloc: Global,
    text: &str,
    table: Result<T, NoMemory>,
) -> anyhow::Result<()> {
    match table {
        Ok(mut table) => print_lines(rt, alloc, text, &mut table),
        Err(refused) => Err(refused.into()),
    }
}

fn print_lines<T: Table>(
    rt: &impl Print,
    alloc: Global,
    text: &str,
    table: &mut T,
) -> anyhow::Result<()> {
    for line in text.lines() {
        print_line(rt, alloc, line, table)?;
    }
    Ok(())
}

fn print_line<T: Table>(
    rt: &impl Print,
    alloc: Global,
    line: &str,
    table: &mut T,
) -> anyhow::Result<()> {
    if line.is_empty() || line.starts_with('#') {
        println!(rt; "{line}")?;
    } else {
        let answer = text_of(alloc, answer(alloc, line, table))?;
        println!(rt; "{line}: {answer}")?;
    }
    Ok(())
}

fn answer<T: Table>(alloc: Global, line: &str, table: &mut T) -> Answered {
    let words: Vec<&str> = line.split_whitespace().collect(alloc)?;
    table.call(alloc, line, &words)
}
