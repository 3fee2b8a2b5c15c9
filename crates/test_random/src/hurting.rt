// Hurt images, judged by `offline::check` and by the plain program, which have to agree on the first
// fault of each.
//
// With no words two things are done, and what they came to is printed. In an image whose log has a
// block of inodes, each byte of the superblock, the log's header, that block, its home and the bitmap
// is set to four values in turn, and the image is cut to each smaller number of blocks. Over each of
// these a kernel is opened: where the check finds a fault, the opening is refused with it and writes
// nothing; else the image is then the one that the plain program recovers. Where the superblock is
// lawful it is recovered, too. Then up to eight bytes of each of 100,000 images, with and without a
// log, are changed by chance, and the images are checked.
//
// With two words it takes so many images changed by chance, from the seed on that is the first word.
// The first image that is not judged right ends it, with status 1.
use crate::by_chance::hurt_by_chance;
use crate::faults::Faults;
use crate::sweep::{Seen, hurt_each};
use anyhow::bail;
use std::alloc::Global;

/// The run with words, or with none.
pub fn hurt_images(rt: &impl Print, alloc: Global, words: &[String]) -> anyhow::Result<()> {
    match words {
        [] => {
            print_each(rt, alloc)?;
            println!(rt)?;
            print_by_chance(rt, alloc, 1, 100_000)
        }
        [first, count] => {
            print_by_chance(rt, alloc, first.as_str().parse()?, count.as_str().parse()?)
        }
        _ => bail!("the words are the first seed and how many there are, or none"),
    }
}

fn print_each(rt: &impl Print, alloc: Global) -> anyhow::Result<()> {
    let mut seen = Seen::new();
    if let Err(wrong) = hurt_each(alloc, &mut seen) {
        bail!("{wrong}");
    }
    println!(rt; "each byte of five blocks, and each cut")?;
    seen.faults.print(rt)?;
    println!(rt; "openings refused {}", seen.refused)?;
    println!(rt; "openings made {}", seen.opened)?;
    println!(rt; "recoveries refused {}", seen.unrecovered)?;
    println!(rt; "recoveries made {}", seen.recovered)?;
    Ok(())
}

fn print_by_chance(rt: &impl Print, alloc: Global, first: u64, count: u64) -> anyhow::Result<()> {
    let mut faults = Faults::new();
    if let Err(wrong) = hurt_by_chance(alloc, first, count, &mut faults) {
        bail!("{wrong}");
    }
    println!(rt; "bytes changed by chance")?;
    faults.print(rt)?;
    Ok(())
}
