// Images that are not converted, each of which has one thing wrong.
use crate::olden::{FREE, SIZE, fields, olden, put, put_marks, put_super};
use anyhow::bail;
use blocks::{Block, MemDisk};
use conversion::convert;
use layout::{Form, MkfsFault};
use std::alloc::Global;

#[derive(Clone, Copy)]
enum Wrong {
    Nothing,
    LargeForm,
    ShorterLog,
    LoggedBlock,
    FreeBlock,
    LostBlock,
}

// Makes one thing wrong.
fn spoil(alloc: Global, disk: &mut MemDisk, wrong: Wrong) -> Result<(), MkfsFault> {
    match wrong {
        Wrong::Nothing => Ok(()),
        Wrong::LargeForm => put_super(alloc, disk, &fields(), Form::Two),
        Wrong::ShorterLog => {
            let mut fields = fields();
            fields.nlog = 10;
            put_super(alloc, disk, &fields, Form::One)
        }
        Wrong::LoggedBlock => {
            let mut header = Block::zeroed(alloc)?;
            header.put(0, &[2]);
            put(disk, 2, &header)
        }
        Wrong::FreeBlock => put_marks(alloc, disk, FREE - 1),
        Wrong::LostBlock => put_marks(alloc, disk, FREE + 1),
    }
}

fn print_one(
    rt: &impl Print,
    alloc: Global,
    wrong: Wrong,
    size: Option<u32>,
) -> anyhow::Result<()> {
    let Ok(mut old) = olden(alloc) else {
        bail!("the old image was not made");
    };
    if spoil(alloc, &mut old, wrong).is_err() {
        bail!("the old image was not spoiled");
    }
    match convert(alloc, &mut old, size) {
        Ok(_new) => println!(rt; "converted")?,
        Err(fault) => println!(rt; "{fault:?}: {fault}")?,
    }
    Ok(())
}

/// Prints why images are refused.
pub fn print_refused(rt: &impl Print, alloc: Global) -> anyhow::Result<()> {
    print_one(rt, alloc, Wrong::LargeForm, None)?;
    print_one(rt, alloc, Wrong::ShorterLog, None)?;
    print_one(rt, alloc, Wrong::LoggedBlock, None)?;
    print_one(rt, alloc, Wrong::FreeBlock, None)?;
    print_one(rt, alloc, Wrong::LostBlock, None)?;
    print_one(rt, alloc, Wrong::Nothing, Some(SIZE))?;
    print_one(rt, alloc, Wrong::Nothing, Some(8192))?;
    print_one(rt, alloc, Wrong::Nothing, Some(8191))
}
