// Answers in their bytes.
use fuse::{
    Attributes, FileSystem, Opened, add_attributes, add_entry, answer_header, directory_entry,
    init_answer, opened_answer, padding_of, statfs_answer, wrote_answer,
};
use std::alloc::Global;

/// The digits of one answer of each kind.
pub fn print_answers(rt: &HostRuntime) -> anyhow::Result<()> {
    let alloc = rt.alloc();
    println!(rt; "\nanswers")?;
    print_bytes(
        rt,
        alloc,
        "header",
        &answer_header(24, 0xffff_fffe, 0x1122_3344_5566_7788),
    )?;
    print_bytes(
        rt,
        alloc,
        "init",
        &init_answer(131_072, 0x6021, 1_048_576, 256),
    )?;
    print_bytes(rt, alloc, "opened", &opened_answer(&OPENED))?;
    print_bytes(rt, alloc, "wrote", &wrote_answer(3_072))?;
    print_bytes(rt, alloc, "statfs", &statfs_answer(&FILE_SYSTEM))?;
    print_bytes(rt, alloc, "entry", &directory_entry(300, 7, 5, 8))?;
    print_files(rt, alloc)?;
    print_paddings(rt)
}

const OPENED: Opened = Opened {
    handle: 9,
    flags: 2,
};

const FILE_SYSTEM: FileSystem = FileSystem {
    blocks: 8_000,
    free: 7_000,
    files: 1_023,
    free_files: 1_000,
    block_size: 1_024,
    name_size: 14,
};

const FILE: Attributes = Attributes {
    number: 258,
    size: 70_000,
    pieces: 137,
    seconds: 1_800_000_000,
    nanoseconds: 999_999_999,
    mode: 0o100_644,
    links: 2,
    owner: 1_000,
    group: 100,
};

fn print_files(rt: &impl Print, alloc: Global) -> anyhow::Result<()> {
    let mut bytes = Vec::new(alloc);
    add_entry(&mut bytes, &FILE, 3, 60)?;
    print_bytes(rt, alloc, "file of a name", bytes.as_slice())?;
    let mut bytes = Vec::new(alloc);
    add_attributes(&mut bytes, &FILE, 60)?;
    print_bytes(rt, alloc, "file", bytes.as_slice())
}

fn print_paddings(rt: &impl Print) -> anyhow::Result<()> {
    for size in 0..17 {
        let padding = padding_of(size);
        println!(rt; "behind a name of {size}: {padding}")?;
    }
    Ok(())
}

fn print_bytes(rt: &impl Print, alloc: Global, what: &str, bytes: &[u8]) -> anyhow::Result<()> {
    let digits = hex::encode(alloc, bytes)?;
    println!(rt; "{what}: {digits}")?;
    Ok(())
}
