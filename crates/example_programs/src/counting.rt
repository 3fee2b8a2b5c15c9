// Whether the counts of links of an image are those of its names, as they are seen without a kernel.
ghost use Rattle.std.specs.Prelude.{◌≡◌, None};
ghost use Rattle.model.specs.Files.{files_of};
ghost use Rattle.model.specs.Log.{recovered};
ghost use Rattle.model.specs.Verdict.{verdict};
ghost use Rattle.directories.specs.Trees.{IsTree};

use anyhow::bail;
use blocks::Disk;
use directories::{first_miscounted, is_tree};
use offline::check;
use std::alloc::Global;

/// Prints the first file of a disk whose count of links is not how many names lead to it, or that there
/// is none.
pub fn print_counts<D: Disk>(rt: &impl Print, alloc: Global, disk: &mut D) -> anyhow::Result<()> {
    match check(alloc, disk) {
        Ok(_report) => print_checked(rt, alloc, disk),
        Err(fault) => Err(fault.into()),
    }
}

// The same of a disk whose image has no fault.
fn print_checked<D: Disk>(rt: &impl Print, alloc: Global, disk: &mut D) -> anyhow::Result<()>
    requires { verdict (D.image disk.old) ≡ None }
{
    match is_tree(alloc, disk) {
        Ok(true) => print_tree(rt, alloc, disk),
        Ok(false) => bail!("the files are no tree"),
        Err(fault) => Err(fault.into()),
    }
}

// The same where its files are a tree.
fn print_tree<D: Disk>(rt: &impl Print, alloc: Global, disk: &mut D) -> anyhow::Result<()>
    requires sound { verdict (D.image disk.old) ≡ None }
    requires tree { IsTree (files_of (recovered (D.image disk.old))) }
{
    match first_miscounted(alloc, disk) {
        Ok(None) => println!(rt; "each count of links is that of names")?,
        Ok(Some(number)) => println!(rt; "file {number} has another count of links than names")?,
        Err(fault) => return Err(fault.into()),
    }
    Ok(())
}
