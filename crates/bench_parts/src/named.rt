// Writes to a file of a tree, which is found by its path each time.
ghost use Rattle.std.specs.Prelude.{◌≡◌, IfOk};
ghost use Rattle.model.specs.Files.{files_of};
ghost use Rattle.model.specs.Log.{recovered};
ghost use Rattle.names.specs.Ready.{HasNoFile, IsReady, MayGoOn};

use crate::failed::Failed;
use crate::images::new_image;
use blocks::Disk;
use calls::transactions::open_pair;
use names::Tree;
use std::alloc::Global;

/// Makes so many writes, of 1024 bytes each, to a file in a directory of one open tree, in memory.
/// How many were made.
pub fn count_named(alloc: Global, writes: u32) -> Result<u64, Failed> {
    match new_image(alloc) {
        Ok(disk) => match new_tree(alloc, disk) {
            Ok(mut tree) => write_all(alloc, &mut tree, writes),
            Err(failed) => Err(failed),
        },
        Err(failed) => Err(failed),
    }
}

// A tree of the root alone, on a disk without files.
fn new_tree<D: Disk + Drop>(alloc: Global, disk: D) -> Result<Tree<D>, Failed>
    requires { HasNoFile (files_of (recovered (D.image disk))) }
    ensures { IfOk result (λ tree. IsReady D.Disk tree.kernel tree.calls_left) }
{
    match open_pair(alloc, disk) {
        Ok(kernel) => {
            let mut tree = Tree::over(alloc, kernel);
            match tree.make_root(alloc) {
                Ok(()) => Ok(tree),
                Err(fault) => Err(Failed::Tree(fault)),
            }
        }
        Err((fault, _disk)) => Err(Failed::Opening(fault)),
    }
}

fn write_all<D: Disk>(alloc: Global, tree: &mut Tree<D>, writes: u32) -> Result<u64, Failed>
    requires { MayGoOn D.Disk tree.old.kernel tree.old.calls_left }
{
    let _directory = tree.make_directory(alloc, b"/docs")?;
    let _file = tree.make(alloc, b"/docs/notes")?;
    let mut made: u64 = 0;
    for k in 0..writes {
        write(alloc, tree, k)?;
        made = made.saturating_add(1);
    }
    Ok(made)
}

// Makes the kth write.
fn write<D: Disk>(alloc: Global, tree: &mut Tree<D>, k: u32) -> Result<(), Failed>
    requires { MayGoOn D.Disk tree.old.kernel tree.old.calls_left }
    ensures { MayGoOn D.Disk tree.new.kernel tree.new.calls_left }
{
    // The file has ten blocks in the end.
    match tree.write(alloc, b"/docs/notes", k % 10 * 1024, &[7; 1024])? {
        Ok(()) => Ok(()),
        Err(cause) => Err(Failed::Unwritten(cause)),
    }
}
