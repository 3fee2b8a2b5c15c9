// A directory of more entries than one read brings.
ghost use Rattle.std.specs.Prelude.{◌≡◌, IfOk};
ghost use Rattle.model.specs.Codec.{made_image};
ghost use Rattle.model.specs.declared.types.image.Form.TheVariants.{One};
ghost use Rattle.names.specs.Ready.{IsReady, MayGoOn};

use crate::trees::{Bytes, Name as Ask, ask_bytes, ask_name, rooted};
use blocks::{Disk, MemDisk};
use layout::MkfsFault;
use names::Tree;
use offline::mkfs;
use std::alloc::Global;

// The blocks and the inode numbers of its image.
const SIZE: u32 = 400;

const INODES: u32 = 640;

// The files in it.
const FILES: u32 = 600;

/// Makes 600 files in a root, removes one amid them, makes another, which gets its place, and prints
/// what came of it.
pub fn print_crowded(rt: &impl Print, alloc: Global) -> anyhow::Result<()> {
    match wide_tree(alloc) {
        Ok(mut tree) => {
            fill(alloc, &mut tree)?;
            ask_amid(rt, alloc, &mut tree)
        }
        Err(fault) => Err(fault),
    }
}

// A tree of the root alone, with numbers for many files.
fn wide_tree(alloc: Global) -> anyhow::Result<Tree<MemDisk>>
    ensures { IfOk result (λ tree. IsReady ⟦<MemDisk as Disk>⟧ tree.kernel tree.calls_left) }
{
    match wide_disk(alloc) {
        Ok(disk) => rooted(alloc, disk),
        Err(fault) => Err(fault.into()),
    }
}

fn wide_disk(alloc: Global) -> Result<MemDisk, MkfsFault>
    ensures { IfOk result (λ disk. ⟦<MemDisk as Disk>⟧.image disk ≡ made_image One SIZE INODES) }
{
    let mut disk = MemDisk::new(alloc, SIZE)?;
    match mkfs(alloc, &mut disk, SIZE, INODES) {
        Ok(()) => Ok(disk),
        Err(fault) => Err(fault),
    }
}

// Makes the files.
fn fill<D: Disk>(alloc: Global, tree: &mut Tree<D>) -> anyhow::Result<()>
    requires { MayGoOn D.Disk tree.old.kernel tree.old.calls_left }
    ensures { MayGoOn D.Disk tree.new.kernel tree.new.calls_left }
{
    for file in 0..FILES {
        let name = format!(in alloc; "f{file}")?;
        let _number = tree.make(alloc, name.as_bytes())?;
    }
    Ok(())
}

fn ask_amid<D: Disk>(rt: &impl Print, alloc: Global, tree: &mut Tree<D>) -> anyhow::Result<()>
    requires { MayGoOn D.Disk tree.old.kernel tree.old.calls_left }
{
    ask_bytes(rt, alloc, tree, Bytes::List, "/")?;
    ask_name(rt, alloc, tree, Ask::Find, "f599")?;
    ask_name(rt, alloc, tree, Ask::Remove, "f300")?;
    ask_name(rt, alloc, tree, Ask::Find, "f300")?;
    ask_name(rt, alloc, tree, Ask::Make, "again")?;
    ask_bytes(rt, alloc, tree, Bytes::List, "/")?;
    ask_name(rt, alloc, tree, Ask::Rename("last"), "f599")?;
    ask_name(rt, alloc, tree, Ask::Find, "last")?;
    ask_bytes(rt, alloc, tree, Bytes::List, "/")
}
