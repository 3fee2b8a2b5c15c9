// Readings of scripts and schedules.
use model::types::Op;
use scripts::{ScheduleFault, Task, Word, processes, read_schedule, read_script};
use std::alloc::Global;

/// Reads what stands behind the first word of a line: the parts of a text, with `&` between them. A
/// part is a text in which `|` stands for a line feed; or `N*` and a text, which then stands N
/// times; or `$` and bytes in hexadecimal digits.
pub fn call(alloc: Global, line: &str) -> anyhow::Result<Option<String>> {
    if let Some(parts) = line.strip_prefix("script ") {
        let text = text_of(alloc, parts)?;
        let told = match read_script(alloc, text.as_slice()) {
            Ok(tasks) => told_script(alloc, tasks.as_slice(), processes(tasks.as_slice()))?,
            Err(fault) => format!(in alloc; "{fault:?}")?,
        };
        return Ok(Some(told));
    }
    let Some(rest) = line.strip_prefix("schedule ") else {
        return Ok(None);
    };
    let Some((processes, parts)) = rest.split_once(' ') else {
        return Ok(None);
    };
    let text = text_of(alloc, parts)?;
    let answer = read_schedule(alloc, text.as_slice(), processes.parse()?);
    told_schedule(alloc, answer)
}

// The bytes of a text in parts.
fn text_of(alloc: Global, parts: &str) -> anyhow::Result<Vec<u8>> {
    let mut text = Vec::new(alloc);
    for part in parts.split('&') {
        let bytes = part_of(alloc, part)?;
        text.extend_from_slice(bytes.as_slice())?;
    }
    Ok(text)
}

fn part_of(alloc: Global, part: &str) -> anyhow::Result<Vec<u8>> {
    if let Some(digits) = part.strip_prefix('$') {
        return Ok(hex::decode(alloc, digits)?);
    }
    let (count, line) = match part.split_once('*') {
        Some((count, line)) => (count.parse::<u32>()?, line),
        None => (1, part),
    };
    let mut bytes = Vec::new(alloc);
    for _ in 0..count {
        push_line(&mut bytes, line)?;
    }
    Ok(bytes)
}

fn push_line(bytes: &mut Vec<u8>, line: &str) -> anyhow::Result<()> {
    for byte in line.as_bytes() {
        bytes.push(if *byte == b'|' { b'\n' } else { *byte })?;
    }
    Ok(())
}

// What a script says: its operations, if there are one to four, else how many they are.
fn told_script(alloc: Global, tasks: &[Task], processes: u32) -> anyhow::Result<String> {
    let mut text = format!(in alloc; "{} operations, {processes} processes", tasks.len())?;
    if tasks.len() > 4 {
        return Ok(text);
    }
    for task in tasks {
        let op = told_op(alloc, &task.op)?;
        text = format!(in alloc; "{text}, line {} process {} {op}", task.line, task.pid)?;
    }
    Ok(text)
}

fn told_op(alloc: Global, op: &Op) -> anyhow::Result<String> {
    match op {
        Op::Write(inode, offset, bytes) => {
            let bytes = told_bytes(alloc, bytes.as_slice())?;
            Ok(format!(in alloc; "Write({inode}, {offset}, {bytes})")?)
        }
        _ => Ok(format!(in alloc; "{op:?}")?),
    }
}

// Few bytes in digits, and how often a byte stands alone in many.
fn told_bytes(alloc: Global, bytes: &[u8]) -> anyhow::Result<String> {
    match bytes.first() {
        Some(first) if bytes.len() > 8 && bytes.iter().all(|byte| byte == first) => {
            Ok(format!(in alloc; "{} times {first:02x}", bytes.len())?)
        }
        _ => Ok(hex::encode(alloc, bytes)?),
    }
}

// What a schedule says: its words, if there are at most eight, else how many they are.
fn told_schedule(
    alloc: Global,
    answer: Result<Vec<Word>, ScheduleFault>,
) -> anyhow::Result<Option<String>> {
    let text = match answer {
        Ok(words) if words.len() > 8 => format!(in alloc; "{} words", words.len())?,
        Ok(words) => format!(in alloc; "{words:?}")?,
        Err(fault) => format!(in alloc; "{fault:?}")?,
    };
    Ok(Some(text))
}
